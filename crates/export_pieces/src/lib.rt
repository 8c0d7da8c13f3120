// The questions of a piece and of its partial, for C: each passes on to the public call.
// Written by tools/exports.py, and not by hand.
#![tactic(auto, using(export_walks::proofs::Carrying::carried, export_answers::proofs::BackLaws::backs, export_answers::proofs::BackLaws::signed))]

mod fields;
mod flags;
mod info;
mod lengths;
mod stats;
