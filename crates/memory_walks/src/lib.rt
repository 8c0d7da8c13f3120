// Empty: a public call over words, cells and partial records is proved as it stands, and no walk of one is written.

#![tactic(auto)]
