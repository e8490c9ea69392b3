//! `davtrace [PREFIX]`: serves a script as `davrun` does, and prints with each response the records that the
//! request left in the store's log. Its scripts can also call the store and the lock system directly. The
//! tests use it.
#![tactic(auto)]

mod answers;
mod body_call;
mod call;
mod change;
mod file_call;
mod lock_call;
mod new_store;
mod numbered;
mod property;
mod records;
mod store_call;
mod trace;

use dav_script::{Stopped, arguments_of, report, run_script};
use std::io::BufWriter;
use std::process::ExitCode;
use trace::Trace;

/// The program's name in its messages.
const PROGRAM: &str = "davtrace";

fn main(rt: HostRuntime) -> ExitCode {
    ExitCode::from(run(&rt))
}

/// Runs the script on standard input, and returns the exit status.
fn run(rt: &HostRuntime) -> u8 {
    let mut errors = rt.stderr();
    let arguments = match arguments_of(rt) {
        Ok(arguments) => arguments,
        Err(trouble) => return report(&mut errors, PROGRAM, trouble),
    };
    match BufWriter::new(rt.alloc(), rt.stdout()) {
        Ok(mut output) => run_script::<Trace, _, _, _>(
            rt.alloc(),
            PROGRAM,
            &arguments,
            &mut rt.stdin(),
            &mut output,
            &mut errors,
        ),
        Err(error) => report(&mut errors, PROGRAM, Stopped::from(error).into()),
    }
}
