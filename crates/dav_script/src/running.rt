//! Runs a program that serves a script from its input and prints to its output.
ghost use Rattle.std.specs.Prelude.{◌≡◌, ◌⊎◌, ◌<◌, ℕ, List, length, IfErr, IfOk, IfSome, IsErr, IsErrOf, IsOk, OnOk};
ghost use Rattle.std.specs.Io.KnownBytes.{Appends, IsAtEnd};
ghost use Rattle.dav_resource.specs.PathText.{read_prefix};
ghost use Rattle.dav_resource.specs.Texts.{texts};
ghost use Rattle.dav_script.specs.Arguments.{AreUsable};
ghost use Rattle.dav_script.specs.Serving.{IsAllServed, IsReadFrom, Shared, first_shared, prefix_in, shared_by};
ghost use Rattle.dav_script.specs.Status.{SaysFault, trouble_line};

use crate::faults::ScriptError;
use crate::profile_line::split_profile;
use crate::serving::Session;
use crate::trouble::{Stopped, Trouble, report};
use dav_resource::{DavError, DavPath, Profile};
use std::alloc::Global;
use std::io::{Read, Write};

/// A script, as a program reads and serves it.
pub trait Script: Drop {
    /// The script is one that `read` may return for this text.
    ghost is_given: { List ℕ → Self → Type 0 };

    /// Serving the script has this effect.
    ghost is_done: { Self → Shared → Shared → Type 0 };

    /// Reads a whole script. The error is the fault of the first faulty line, or `Memory`.
    fn read(alloc: Global, text: &[u8]) -> Result<Self, ScriptError>
        ensures { IfOk result (λ script. is_given text.now script) };

    /// Serves the script in order, and prints the responses.
    fn serve<O: Write>(
        self,
        alloc: Global,
        session: &mut Session<'_>,
        output: &mut O,
    ) -> Result<(), Stopped>
        ensures { OnOk result (is_done self (shared_by session.old) (shared_by session.new)) };
}

/// Runs the program with this name on its arguments (without the name), and returns its exit status:
///
/// - 0: the whole script was served, and nothing was written to `errors`.
/// - 2: the arguments are not at most one valid prefix, or a line of the script is faulty. Nothing was served
///   or printed, and one line in `errors` says why.
/// - 3: reading or writing failed, or memory ran out.
pub fn run_script<S: Script, I: Read, O: Write, E: Write>(
    alloc: Global,
    program: &str,
    arguments: &[String],
    input: &mut I,
    output: &mut O,
    errors: &mut E,
) -> u8
    ensures status { (result ≡ 0) ⊎ (result ≡ 2) ⊎ (result ≡ 3) }

    // With more than one argument nothing is read. If the status is then 2, the usage was written to
    // `errors`.
    ensures unread { 1 < length arguments.now → input.new ≡ input.old }
    ensures usage { 1 < length arguments.now → result ≡ 2
        → Appends (E.contents errors.old) (E.contents errors.new) (trouble_line program.now Trouble.Usage) }

    // With 0 the arguments were usable, the script was read to its end, and nothing was written to `errors`.
    ensures arguments { result ≡ 0 → AreUsable (texts arguments.now) }
    ensures whole { result ≡ 0 → IsAtEnd (I.remaining input.new) }
    ensures served { result ≡ 0 → errors.new ≡ errors.old }

    // With 0 the script that was read from the input was served, over a new store and a new lock system.
    ensures run { result ≡ 0 → IsAllServed S.is_given S.is_done (prefix_in (texts arguments.now)) (I.remaining input.old) }

    // With 2 nothing was printed, and what is at fault was written to `errors`.
    ensures refused { result ≡ 2 → output.new ≡ output.old }
    ensures said { result ≡ 2 → SaysFault program.now (texts arguments.now) (E.contents errors.old) (E.contents errors.new) }
{
    let (prefix, profile, script) = match read_all::<S, I>(alloc, arguments, input) {
        Ok(read) => read,
        Err(trouble) => return report(errors, program, trouble),
    };
    match serve_all(alloc, profile, prefix, script, output) {
        Ok(()) => 0,
        Err(stopped) => report(errors, program, Trouble::Stopped(stopped)),
    }
}

/// Checks the prefix, then reads the whole script, and the profile that its first line chooses.
fn read_all<'a, S: Script, I: Read>(
    alloc: Global,
    arguments: &'a [String],
    input: &mut I,
) -> Result<(&'a str, Profile, S), Trouble>
    ensures usage { 1 < length arguments.now → IsErrOf result Trouble.Usage × (input.new ≡ input.old) }
    ensures usable { OnOk result (AreUsable (texts arguments.now)) }
    ensures unusable { IfErr result (λ e. e ≡ Trouble.Usage → ¬ (AreUsable (texts arguments.now))) }
    ensures whole { OnOk result (IsAtEnd (I.remaining input.new)) }
    ensures prefix { IfOk result (λ read. read.0.now ≡ prefix_in (texts arguments.now)) }
    ensures given { IfOk result (λ read. IsReadFrom S.is_given (I.remaining input.old) read.1 read.2) }
{
    let prefix = match arguments {
        [] => "",
        [prefix] => prefix.as_str(),
        _ => return Err(Trouble::Usage),
    };
    check_prefix(alloc, prefix)?;
    let script = read_input(alloc, input)?;
    let (profile, blocks) = split_profile(script.as_slice());
    Ok((prefix, profile, S::read(alloc, blocks)?))
}

/// Checks that a prefix can be parsed: it is empty, or it begins with `/` and has valid path segments.
fn check_prefix(alloc: Global, prefix: &str) -> Result<(), Trouble>
    ensures ok { OnOk result (IsOk (read_prefix prefix.now)) }
    ensures err { IfErr result (λ e. (e ≡ Trouble.Stopped Stopped.Memory) ⊎ ((e ≡ Trouble.Usage) × IsErr (read_prefix prefix.now))) }
{
    match DavPath::from_str_and_prefix(alloc, "/", prefix) {
        // The prefix was parsed in both cases. `IllegalPath` means only that the root is not below it.
        Ok(_) | Err(DavError::IllegalPath) => Ok(()),
        Err(DavError::Memory) => Err(Stopped::Memory.into()),
        Err(_) => Err(Trouble::Usage),
    }
}

/// Reads the rest of the input.
fn read_input<I: Read>(alloc: Global, input: &mut I) -> Result<Vec<u8>, Stopped>
    ensures bytes { IfOk result (λ script. IfSome (I.remaining input.old) (λ bytes. script.items ≡ bytes)) }
    ensures whole { OnOk result (IsAtEnd (I.remaining input.new)) }
{
    let mut script = Vec::new(alloc);
    input.read_to_end(&mut script)?;
    Ok(script)
}

/// Serves a script over a new store and lock system, and prints the responses and then what both hold.
fn serve_all<S: Script, O: Write>(
    alloc: Global,
    profile: Profile,
    prefix: &str,
    script: S,
    output: &mut O,
) -> Result<(), Stopped>
    ensures { OnOk result ((last : Shared) × S.is_done script (first_shared profile prefix.now) last) }
{
    let mut session = Session::new(alloc, profile, prefix)?;
    script.serve(alloc, &mut session, output)?;
    session.print_end(alloc, output)?;
    Ok(output.flush()?)
}
