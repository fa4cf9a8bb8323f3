//! How `cyrus.index` is spelled, version 12: its header and its records, read in place and written.
//! The layouts are in docs/formats.md. Nothing here takes memory.
#![tactic(auto)]

mod fault;
mod fields;
mod flags;
mod header;
mod laws;
mod reading;
mod record;
mod record_view;
mod sizes;
mod totals;
mod usable;
mod view;

pub use fault::IndexFault;
pub use flags::{ANSWERED, DELETED, EXPUNGED, FLAGGED, UNLINKED};
pub use header::{IndexHeader, write_header};
pub use laws::spelling_is_exact;
pub use reading::view_index;
pub use record::{IndexRecord, write_record};
pub use record_view::RecordView;
pub use sizes::{HEADER_SIZE, MINOR_VERSION, RECORD_SIZE};
pub use totals::Totals;
pub use usable::Usable;
pub use view::IndexView;

#[cfg(test)]
mod tests;
