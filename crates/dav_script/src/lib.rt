//! Reads scripts of requests, serves them over an in-memory store and lock system, and prints the responses
//! and what both hold at the end. The programs built on this crate define what else a script may contain, and
//! what else is printed.
#![tactic(auto)]

mod arguments;
mod blocks;
mod directive;
mod faults;
mod names;
mod outline_line;
mod outline_read;
mod outline_write;
mod print;
mod profile_line;
mod quote;
mod refusal;
mod refuse;
mod requests;
mod running;
mod serving;
mod trouble;

pub use arguments::arguments_of;
pub use blocks::{Block, BlockReader, read_blocks};
pub use directive::{read_token, unescape};
pub use faults::{Fault, LineError, ScriptError};
pub use names::{error_name, op_name, op_named, refusal_error};
pub use outline_line::is_name;
pub use outline_read::{OUTLINE_LEVELS, OutlineReader};
pub use outline_write::outline;
pub use print::lock_text;
pub use quote::push_quoted_bytes;
pub use refusal::PlannedRefusal;
pub use refuse::{read_path, read_refusal};
pub use running::{Script, run_script};
pub use serving::Session;
pub use trouble::{Stopped, Trouble, report};
