//! The folder of a store: a data file with what files contain, and a database with everything else.
#![tactic(auto)]

mod closing;
mod confirm;
mod error;
mod failing;
mod folder;
mod laws;
mod numbered;
mod opening;
mod reading;

pub use closing::{FolderFiles, close_folder, give_up};
pub use confirm::Confirm;
pub use error::OpenError;
pub use failing::{DataLeft, Remains};
pub use folder::Folder;
pub use laws::show_utf8;
pub use numbered::Numbered;
pub use opening::{Opened, read_files};
pub use reading::{Found, read_store};
