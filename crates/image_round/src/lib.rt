// Round trips of the code that writes and reads images, as laws on both contracts. It has no functions.

#![tactic(auto)]
