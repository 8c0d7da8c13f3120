// The questions of a block, and those that fill a lent list, for C: each passes on to the public call.
// Written by tools/exports.py, and not by hand.
#![tactic(auto, using(export_walks::proofs::Carrying::carried, export_answers::proofs::BackLaws::backs, export_answers::proofs::BackLaws::signed))]

mod blocks;
mod columns;
mod peers;
mod queue;
mod states;
