// What the steps of a change rely on and leave. It has no functions: what there is to read is in specs/, and its laws are in proofs/.

#![tactic(auto)]
