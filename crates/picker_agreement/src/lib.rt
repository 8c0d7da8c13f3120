// What the public calls are held to as a whole: term 3 over lists of calls on lent memory. It has no functions.

#![tactic(auto)]
