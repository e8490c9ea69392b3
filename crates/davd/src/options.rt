//! The options of the program.
ghost use Rattle.std.specs.Prelude.{◌≡◌, Some, None, IfOk, IfErr, OnOk, IsOk, IsErr};
ghost use Rattle.std.specs.List.{list_all};
ghost use Rattle.std.specs.Char.{is_ascii_digit};
ghost use Rattle.dav_resource.specs.PathText.{read_prefix};
ghost use Rattle.dav_resource.specs.Texts.{texts};
ghost use Rattle.davd.specs.Options.{IsFault, first_options, options_of, server_options_of, check_of, key_in, tag_part_in, value_of, with_value, with_folder, is_folder};

use crate::program::Stopped;
use dav_headers::read_number;
use dav_resource::{DavError, DavPath};
use dav_server::Options;
use std::alloc::Global;

/// How many bytes the content of a batch may have without `-max-batch`.
const MAX_BATCH: u64 = 1 << 30;

/// A key is less.
const KEY_LIMIT: u64 = 1 << 63;

/// What the arguments say.
#[derive(Drop, Debug)]
pub struct ProgramOptions {
    /// How the server serves.
    pub server: Options,
    /// How many bytes all files may have together: a quota that the store reports and does not enforce. `None` is no
    /// quota.
    pub quota: Option<u64>,
    /// The folder in which everything is kept. `None` keeps everything in memory alone.
    pub folder: Option<String>,
    /// Whether a folder is served that has lost its last batches.
    pub accepts_loss: bool,
    /// The key of the digests of a new folder.
    pub key: u64,
    /// A number of this start, from which the salts of the database's log are made.
    pub seed: u64,
    /// The part of this start in each entity tag. `None` is no part.
    pub tag_part: Option<u128>,
    /// Whether the folder is checked, and nothing is served.
    pub checks: bool,
}

impl ProgramOptions {
    /// Returns the options of a program without arguments.
    fn new(alloc: Global) -> ProgramOptions
        ensures { value_of result ≡ first_options }
    {
        ProgramOptions {
            server: Options {
                prefix: String::new(alloc),
                anyone_unlocks: false,
                max_batch: MAX_BATCH,
            },
            quota: None,
            folder: None,
            accepts_loss: false,
            key: 0,
            seed: 0,
            tag_part: None,
            checks: false,
        }
    }

    /// Sets an option that has a value. A number of bytes is one or more decimal digits without a sign. It may begin
    /// with zeros.
    ///
    /// Errors: `Usage` if there is no such option, or if the value is wrong; `Memory`.
    fn set(&mut self, alloc: Global, name: &str, value: &str) -> Result<(), Stopped>
        ensures ok { OnOk result (with_value name.now value.now (value_of self.old) ≡ Some (value_of self.new)) }
        ensures err { IfErr result (IsFault (with_value name.now value.now (value_of self.old) ≡ None)) }
    {
        match name {
            "-prefix" => {
                check_prefix(alloc, value)?;
                self.server.prefix = String::from_str(alloc, value)?;
            }
            "-max-batch" => self.server.max_batch = read_number(value).ok_or(Stopped::Usage)?,
            "-quota" => self.quota = Some(read_number(value).ok_or(Stopped::Usage)?),
            "-key" => self.key = read_key(value).ok_or(Stopped::Usage)?,
            "-seed" => self.seed = read_number(value).ok_or(Stopped::Usage)?,
            "-tags" => self.tag_part = Some(read_tag_part(value).ok_or(Stopped::Usage)?),
            _ => return Err(Stopped::Usage),
        }
        Ok(())
    }

    /// Sets the folder. Errors: `Usage` if the name is empty or begins with `-`; `Memory`.
    fn set_folder(&mut self, alloc: Global, name: &str) -> Result<(), Stopped>
        ensures ok { OnOk result (with_folder name.now (value_of self.old) ≡ Some (value_of self.new)) }
        ensures err { IfErr result (IsFault (with_folder name.now (value_of self.old) ≡ None)) }
    {
        if !is_folder(name) {
            return Err(Stopped::Usage);
        }
        self.folder = Some(String::from_str(alloc, name)?);
        Ok(())
    }
}

/// Reads a key: a number below 2^63.
fn read_key(value: &str) -> Option<u64>
    ensures { result ≡ key_in value.now }
{
    let key = read_number(value)?;
    if key < KEY_LIMIT { Some(key) } else { None }
}

/// Reads a part of entity tags: one or more decimal digits, without a sign, for a number below 2^128.
fn read_tag_part(value: &str) -> Option<u128>
    ensures { result ≡ tag_part_in value.now }
{
    if !has_digits_alone(value.as_bytes()) {
        return None;
    }
    value.parse().ok()
}

/// Whether all bytes are decimal digits.
fn has_digits_alone(text: &[u8]) -> bool
    ensures { result ≡ list_all is_ascii_digit text.now }
{
    text.iter().all(|byte| byte.is_ascii_digit())
}

/// Whether this may be the name of a folder: it is not empty and does not begin with `-`.
fn is_folder(name: &str) -> bool
    ensures { result ≡ is_folder name.now }
{
    match name.as_bytes().first() {
        Some(byte) => *byte != b'-',
        None => false,
    }
}

/// Reads the options from the arguments. Errors: `Usage` if they are wrong, and `Memory`.
pub fn read_options(alloc: Global, arguments: &[String]) -> Result<ProgramOptions, Stopped>
    ensures ok { IfOk result (λ options. options_of (texts arguments.now) ≡ Some (value_of options)) }
    ensures err { IfErr result (IsFault (options_of (texts arguments.now) ≡ None)) }
{
    match arguments {
        [name, folder] => {
            if name.as_str() == "--check" {
                read_check(alloc, folder.as_str())
            } else {
                read_server_options(alloc, arguments)
            }
        }
        [] => read_server_options(alloc, arguments),
        [_] => read_server_options(alloc, arguments),
        [_, _, _, ..] => read_server_options(alloc, arguments),
    }
}

/// Returns the options of a check of this folder. Errors: `Usage` if the name is empty or begins with `-`; `Memory`.
fn read_check(alloc: Global, folder: &str) -> Result<ProgramOptions, Stopped>
    ensures ok { IfOk result (λ options. check_of folder.now ≡ Some (value_of options)) }
    ensures err { IfErr result (IsFault (check_of folder.now ≡ None)) }
{
    let mut options = ProgramOptions::new(alloc);
    options.set_folder(alloc, folder)?;
    options.checks = true;
    Ok(options)
}

/// Reads the options of a server from the arguments. Errors: `Usage` if they are wrong, and `Memory`.
fn read_server_options(alloc: Global, arguments: &[String]) -> Result<ProgramOptions, Stopped>
    ensures ok { IfOk result (λ options. server_options_of (texts arguments.now) ≡ Some (value_of options)) }
    ensures err { IfErr result (IsFault (server_options_of (texts arguments.now) ≡ None)) }
{
    let mut options = ProgramOptions::new(alloc);
    let mut rest = arguments;
    while let [name, others @ ..] = rest {
        rest = match (name.as_str(), others) {
            ("-anyone-unlocks", _) => {
                options.server.anyone_unlocks = true;
                others
            }
            ("-accept-loss", _) => {
                options.accepts_loss = true;
                others
            }
            (name, [value, others @ ..]) => {
                options.set(alloc, name, value.as_str())?;
                others
            }
            (folder, []) => {
                options.set_folder(alloc, folder)?;
                others
            }
        };
    }
    Ok(options)
}

/// Checks that a prefix can be parsed. Errors: `Usage` if it cannot, and `Memory`.
fn check_prefix(alloc: Global, prefix: &str) -> Result<(), Stopped>
    ensures ok { OnOk result (IsOk (read_prefix prefix.now)) }
    ensures err { IfErr result (IsFault (IsErr (read_prefix prefix.now))) }
{
    match DavPath::from_str_and_prefix(alloc, "/", prefix) {
        // The prefix was parsed in both cases. `IllegalPath` means only that the root is not below it.
        Ok(_) | Err(DavError::IllegalPath) => Ok(()),
        Err(DavError::Memory) => Err(Stopped::Memory),
        Err(_) => Err(Stopped::Usage),
    }
}
