// Laws of one pick by the definition: what it appends and sets aside at most, that its walks end, how far each counter comes, and what the
// Rust does that nobody can see. It has no functions.

#![tactic(auto)]
