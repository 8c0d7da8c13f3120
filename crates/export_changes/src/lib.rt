// The changes, for C: each passes on to the public call.
// Written by tools/exports.py, and not by hand.
#![tactic(auto, using(export_walks::proofs::Carrying::carried, export_answers::proofs::BackLaws::backs, export_answers::proofs::BackLaws::signed))]

mod counts;
mod finishes;
mod flags;
mod priorities;
mod receipts;
mod requests;
mod returns;
mod seeds;
