//! Prints the results of store calls.
use crate::property::property_text;
use dav_resource::{BodyNumber, DavProp, DirEntry, Element, FsResult, Meta};
use dav_script::{Stopped, error_name, outline, push_quoted_bytes};
use http::StatusCode;
use std::alloc::{AllocError, Global};
use std::io::Write;

/// Prints `ok`, or the error's name.
pub fn print_done<O: Write>(output: &mut O, answer: FsResult<()>) -> Result<(), Stopped> {
    let word = match answer {
        Ok(()) => "ok",
        Err(error) => error_name(error),
    };
    Ok(writeln!(output, "{word}")?)
}

/// Prints `yes` or `no`.
pub fn print_word<O: Write>(output: &mut O, holds: bool) -> Result<(), Stopped> {
    let word = if holds { "yes" } else { "no" };
    Ok(writeln!(output, "{word}")?)
}

/// Prints a resource's metadata, or the error's name.
pub fn print_meta<O: Write>(
    alloc: Global,
    output: &mut O,
    answer: FsResult<Meta>,
) -> Result<(), Stopped> {
    match answer {
        Ok(meta) => {
            let text = meta_text(alloc, &meta)?;
            Ok(writeln!(output, "{text}")?)
        }
        Err(error) => print_done(output, Err(error)),
    }
}

/// Prints a line for each member and then `ok`, or the error's name.
pub fn print_listing<O: Write>(
    alloc: Global,
    output: &mut O,
    answer: FsResult<Vec<FsResult<DirEntry>>>,
) -> Result<(), Stopped> {
    match answer {
        Ok(members) => {
            for member in members {
                print_member(alloc, output, member)?;
            }
            print_done(output, Ok(()))
        }
        Err(error) => print_done(output, Err(error)),
    }
}

/// Prints a member's name and metadata, or `refused` and the error's name.
fn print_member<O: Write>(
    alloc: Global,
    output: &mut O,
    member: FsResult<DirEntry>,
) -> Result<(), Stopped> {
    match member {
        Ok(entry) => {
            let name = entry.name.as_str();
            let meta = meta_text(alloc, &entry.meta)?;
            Ok(writeln!(output, "{name} {meta}")?)
        }
        Err(error) => {
            let name = error_name(error);
            Ok(writeln!(output, "refused {name}")?)
        }
    }
}

/// Formats a resource's metadata: its kind, its length, and as far as known its entity tag in quotes, its
/// times, and whether it is executable.
fn meta_text(alloc: Global, meta: &Meta) -> Result<String, AllocError> {
    let kind = if meta.dir { "directory" } else { "file" };
    let len = meta.len;
    let mut text = format!(in alloc; "{kind} {len}")?;
    if let Some(tag) = &meta.etag {
        let tag = tag.as_str();
        write!(text, " \"{tag}\"")?;
    }
    push_moment(&mut text, "created", meta.created)?;
    push_moment(&mut text, "modified", meta.modified)?;
    push_moment(&mut text, "accessed", meta.accessed)?;
    push_moment(&mut text, "status changed", meta.status_changed)?;
    if let Some(executable) = meta.executable {
        write!(text, " executable {executable}")?;
    }
    Ok(text)
}

/// Appends a time in seconds since 1970, if it is known.
fn push_moment(text: &mut String, name: &str, moment: Option<u64>) -> Result<(), AllocError> {
    if let Some(moment) = moment {
        write!(text, " {name} {moment}")?;
    }
    Ok(())
}

/// Prints bytes in quotes, with escapes, or the error's name.
pub fn print_bytes<O: Write>(
    alloc: Global,
    output: &mut O,
    answer: FsResult<Vec<u8>>,
) -> Result<(), Stopped> {
    match answer {
        Ok(bytes) => {
            let mut text = String::new(alloc);
            push_quoted_bytes(&mut text, &bytes)?;
            Ok(writeln!(output, "{text}")?)
        }
        Err(error) => print_done(output, Err(error)),
    }
}

/// Prints `body` and the number of a body, or the error's name.
pub fn print_body_number<O: Write>(
    output: &mut O,
    answer: FsResult<BodyNumber>,
) -> Result<(), Stopped> {
    match answer {
        Ok(number) => {
            let number = number.as_u64();
            Ok(writeln!(output, "body {number}")?)
        }
        Err(error) => print_done(output, Err(error)),
    }
}

/// Prints a length in bytes, or `none`.
pub fn print_length<O: Write>(output: &mut O, length: Option<u64>) -> Result<(), Stopped> {
    match length {
        Some(length) => Ok(writeln!(output, "{length}")?),
        None => Ok(writeln!(output, "none")?),
    }
}

/// Prints the outline of a property's element, or the error's name.
pub fn print_element<O: Write>(
    alloc: Global,
    output: &mut O,
    answer: FsResult<Element>,
) -> Result<(), Stopped> {
    match answer {
        Ok(element) => Ok(output.write_all(outline(alloc, &element)?.as_bytes())?),
        Err(error) => print_done(output, Err(error)),
    }
}

/// Prints each property and then `ok`, or the error's name.
pub fn print_properties<O: Write>(
    alloc: Global,
    output: &mut O,
    answer: FsResult<Vec<DavProp>>,
) -> Result<(), Stopped> {
    match answer {
        Ok(properties) => {
            for property in &properties {
                print_property(alloc, output, property)?;
            }
            print_done(output, Ok(()))
        }
        Err(error) => print_done(output, Err(error)),
    }
}

/// Prints a property's name and its prefix, if it has one, and then the outline of its element, if there is
/// one.
fn print_property<O: Write>(
    alloc: Global,
    output: &mut O,
    property: &DavProp,
) -> Result<(), Stopped> {
    let name = property_text(alloc, property)?;
    match &property.prefix {
        Some(prefix) => {
            let prefix = prefix.as_str();
            writeln!(output, "property {name} prefix {prefix}")?;
        }
        None => writeln!(output, "property {name}")?,
    }
    if let Some(element) = &property.element {
        output.write_all(outline(alloc, element.as_element())?.as_bytes())?;
    }
    Ok(())
}

/// Prints a line for each status, or the error's name.
pub fn print_statuses<O: Write>(
    output: &mut O,
    answer: FsResult<Vec<StatusCode>>,
) -> Result<(), Stopped> {
    match answer {
        Ok(statuses) => {
            for status in &statuses {
                let code = status.as_u16();
                writeln!(output, "{code}")?;
            }
            Ok(())
        }
        Err(error) => print_done(output, Err(error)),
    }
}

/// Prints the bytes used and the total, which is `none` without a limit, or the error's name.
pub fn print_quota<O: Write>(
    output: &mut O,
    answer: FsResult<(u64, Option<u64>)>,
) -> Result<(), Stopped> {
    match answer {
        Ok((used, Some(total))) => Ok(writeln!(output, "{used} of {total}")?),
        Ok((used, None)) => Ok(writeln!(output, "{used} of none")?),
        Err(error) => print_done(output, Err(error)),
    }
}
