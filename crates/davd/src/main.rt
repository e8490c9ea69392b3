//! `davd [-prefix PREFIX] [-anyone-unlocks] [-max-batch BYTES] [-quota BYTES] [-accept-loss] [-key KEY] [-seed SEED] [-tags PART] [FOLDER]`:
//! serves WebDAV requests. The requests come as frames on standard input, and the replies go to standard output.
//!
//! `davd --check FOLDER`: reads all rows and every byte of every file in a folder, and writes a line on standard output for
//! each file that cannot be read, and last how many rows, files and bytes there are. It serves nothing and reads no input.
//!
//! - `-prefix` is the path prefix of the server's URLs. Without it the prefix is empty.
//! - With `-anyone-unlocks` any principal may remove and refresh the locks of others.
//! - `-max-batch` is the number of bytes that the content of a batch may have, 1 GiB without it.
//! - `-quota` is the number of bytes that all files may have together. It is reported and not enforced. Without it
//!   there is no quota.
//! - With `-accept-loss` a folder is served whose database has lost its last batches, or may have lost them.
//! - `-key` is the key of the digests of a new folder, below 2^63, and `-seed` a number from which the salts of the database's
//!   log are made. Whoever starts the program draws both, a new seed for each start. Without them they are 0.
//! - `-tags` is the part of each entity tag that comes before the number of the last change, below 2^128. Whoever starts the
//!   program draws it, so that no tag is one that an earlier store gave. Without it a tag is that number alone.
//!
//! - With `FOLDER` the store and its locks are kept in this folder: each batch is kept before it is answered. The folder
//!   is made if it is not there. Its name does not begin with `-`. Without a folder everything is in memory, and lost at
//!   the end.
//!
//! Any other number is one or more decimal digits, and fits in 64 bits. It may begin with zeros. If an option is given
//! twice, the last one counts.
//!
//! Exit statuses, of which one line on standard error says why:
//!
//! - 0 at the end of the input, or if a check has found no damage.
//! - 1 if a check has found a damaged file.
//! - 2 for wrong arguments.
//! - 3 if a stream fails, if the input ends inside a batch, or if memory runs out at the start.
//! - 4 if the folder is not one of a store, is damaged or has lost batches, or if the number of the last one is missing. It
//!   is left as it was.
//! - 5 if another process has the folder open.
//! - 6 if the folder cannot be read or written at the start, or if there is none to check.
//! - 7 if a batch cannot be kept because the disk is full, and 8 if it cannot be kept for another reason. The batch is
//!   not answered.
//! - 9 at the end of the input, if everything was kept, and the log of the database could not be copied into its file.
//! - 10 if each batch was kept, and the number of the last one could not be written.
#![tactic(auto)]

mod checking;
mod files;
mod folder;
mod options;
mod program;
mod serving;

use dav_data::Unclaimed;
use program::{Stopped, report, run_program};
use sqlite::Unknown;
use std::env;
use std::io::{self, BufReader, BufWriter, ErrorKind};
use std::process::ExitCode;

/// How many bytes of the input and of the output are buffered.
const BUFFERED: usize = 1 << 16;

fn main(rt: HostRuntime) -> ExitCode {
    let ended = run(&rt);
    ExitCode::from(report(&mut rt.stderr(), ended))
}

/// Runs the program on its arguments and its standard streams.
fn run(rt: &HostRuntime) -> Result<(), Stopped> {
    let alloc = rt.alloc();
    let arguments = arguments_of(rt)?;
    let mut input = BufReader::with_capacity(alloc, BUFFERED, rt.stdin())?;
    let mut output = BufWriter::with_capacity(alloc, BUFFERED, rt.stdout())?;
    run_program(
        rt,
        &arguments,
        (Unknown, Unknown, Unknown, Unclaimed),
        &mut input,
        &mut output,
    )
}

/// Returns the arguments without the program's name. One that is not UTF-8 is wrong.
fn arguments_of(rt: &HostRuntime) -> Result<Vec<String>, Stopped> {
    match env::args(rt) {
        Ok(arguments) => Ok(arguments.skip(1).collect(rt.alloc())?),
        Err(error) if error.kind() == ErrorKind::InvalidData => Err(Stopped::Usage),
        Err(error) => Err(error.into()),
    }
}
