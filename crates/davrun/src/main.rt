//! `davrun [PREFIX]`: executes the WebDAV requests of a script against a store in memory, and prints the
//! responses and what the store and the lock system hold at the end.
#![tactic(auto)]

mod program;

use dav_script::{Stopped, arguments_of, report};
use program::{Blocks, PROGRAM, run_script};
use std::io::BufWriter;
use std::process::ExitCode;

fn main(rt: HostRuntime) -> ExitCode {
    ExitCode::from(run(&rt))
}

/// Runs the script on standard input and returns the exit status.
fn run(rt: &HostRuntime) -> u8 {
    let mut errors = rt.stderr();
    let arguments = match arguments_of(rt) {
        Ok(arguments) => arguments,
        Err(trouble) => return report(&mut errors, PROGRAM, trouble),
    };
    match BufWriter::new(rt.alloc(), rt.stdout()) {
        Ok(mut output) => run_script::<Blocks, _, _, _>(
            rt.alloc(),
            &arguments,
            &mut rt.stdin(),
            &mut output,
            &mut errors,
        ),
        Err(error) => report(&mut errors, PROGRAM, Stopped::from(error).into()),
    }
}
