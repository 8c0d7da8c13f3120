// More of what the Rust was recorded to answer, computed from the definition. It has no functions.

#![tactic(auto)]
