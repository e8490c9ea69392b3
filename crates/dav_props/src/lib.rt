//! The properties of a resource: which of them a request may set or remove, which changes it requests, and
//! how they are reported.
#![tactic(auto)]

mod language;
mod live;
mod property;
mod propstat;
mod reporting;
mod update;
mod writer;

pub use live::{is_kept, liveprop_remove, liveprop_set};
pub use property::{bare_element, element_to_davprop, element_to_davprop_full};
pub use propstat::group_by_status;
pub use reporting::{patches, report_failed, report_made, some_refused};
pub use update::{PropertyChange, read_update};
pub use writer::PropWriter;
