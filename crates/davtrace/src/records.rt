//! Prints the records of a store's log.
use dav_resource::{Outcome, Record};
use dav_script::{Session, Stopped, error_name, op_name};
use dav_store::GuardedFileSystem;
use std::alloc::{AllocError, Global};
use std::io::Write;

/// Prints a line for each record of the store's log, in order, and empties the log.
pub fn print_records<O: Write>(
    alloc: Global,
    output: &mut O,
    session: &mut Session<'_>,
) -> Result<(), Stopped> {
    for record in GuardedFileSystem::<()>::records(&session.store) {
        let text = record_text(alloc, record)?;
        writeln!(output, "- {text}")?;
    }
    session.clear_log();
    Ok(())
}

/// Formats a record: the call, its paths without trailing slashes (which do not count), its outcome, and the
/// statuses that it returned.
fn record_text(alloc: Global, record: &Record) -> Result<String, AllocError> {
    let mut text = String::from_str(alloc, op_name(record.op))?;
    for path in record.paths.as_slice() {
        text.push(' ')?;
        text.push_str(without_slash(path.as_url_string()?.as_str()))?;
    }
    push_outcome(&mut text, record.outcome)?;
    for status in record.statuses.as_slice() {
        let code = status.as_u16();
        write!(text, " {code}")?;
    }
    Ok(text)
}

/// Removes a path's trailing slash, except from the root.
fn without_slash(path: &str) -> &str {
    match path.strip_suffix('/') {
        Some(key) if !key.is_empty() => key,
        _ => path,
    }
}

/// Appends the outcome of a call.
fn push_outcome(text: &mut String, outcome: Outcome) -> Result<(), AllocError> {
    let (word, error) = match outcome {
        Outcome::Granted => return text.push_str(" granted"),
        Outcome::Barred(error) => (" barred ", error),
        Outcome::Refused(error) => (" refused ", error),
    };
    text.push_str(word)?;
    text.push_str(error_name(error))
}
