// A block given back: by a peer that no longer asks for it (`abort_download`), or since its write failed (`mark_as_canceled`).
#![tactic(auto)]

mod blocks;
mod changes;

pub use changes::{abort_download, mark_as_canceled};
