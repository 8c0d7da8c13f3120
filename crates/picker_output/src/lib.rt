// What the public pick does with the memory and the output that are lent to it. It has no functions.

#![tactic(auto)]
