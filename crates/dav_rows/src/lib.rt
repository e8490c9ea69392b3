//! Rows of a WebDAV store in a SQLite file: changes are saved in one transaction, and all rows are loaded at the start.
#![tactic(auto)]

mod change;
mod creating;
mod execute;
mod extent;
mod loading;
mod lock;
mod memory;
mod note;
mod opening;
mod property;
mod reading;
mod recognizing;
mod resource;
mod saving;
mod state;

pub use change::{Change, Table};
pub use creating::create;
pub use extent::ExtentRow;
pub use loading::{Rows, load};
pub use lock::LockRow;
pub use memory::round_trip;
pub use note::NoteRow;
pub use opening::{Loaded, StartError, Version, bring_up_to_date, load_or_create};
pub use property::PropertyRow;
pub use resource::ResourceRow;
pub use saving::save;
pub use state::StateRow;
