// What the exports share: what an answer in numbers says. No code.

#![tactic(auto)]
