// The definition of the piece picker. It has no functions: what there is to read is in specs/, and its laws are in proofs/.

#![tactic(auto)]
