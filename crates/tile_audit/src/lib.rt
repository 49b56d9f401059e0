//! Audits of a bundle: each tile is read, and by several workers at once judged: whole, summed,
//! foreign, unread or damaged; its line is given, and at the end the totals. It stands on
//! `bundle_store`, `lerc_decode`, `tile_workers` and those below, and writes nothing.
//!
//! The contract that the layer above uses: `audit_all` gives exactly the lines and totals of an
//! audit of the bundle that the session serves, whatever the number of workers and whatever the
//! gate does; a tile that the machine does not read is told as such, and the audit goes on.
#![tactic(auto)]

mod batch;
mod counting;
mod judged;
mod judging;
mod laws;
mod lines;
mod records;
mod stop;
mod sums;
mod told;
mod totals;
mod verdicts;
mod walk;

pub use judged::{Judged, Shape};
pub use laws::{audits_have_one_answer, clean_audits_find_whole_tiles, tiles_have_one_verdict};
pub use stop::AuditStop;
pub use told::{AuditedTile, Finding};
pub use totals::Totals;
pub use verdicts::judge;
pub use walk::{OpenBundle, Workers, audit_all};
