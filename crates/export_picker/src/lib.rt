// A picker made, its image taken and read, and a pick, for C: each passes on to the public call.
// Written by tools/exports.py, and not by hand.
#![tactic(auto, using(export_walks::proofs::Carrying::carried, export_answers::proofs::BackLaws::backs, export_answers::proofs::BackLaws::signed))]

mod making;
mod needs;
mod picking;
mod reading;
mod taking;
