//! The program: reads a script of requests, prints the responses, and then the contents and the locks.
ghost use Rattle.std.specs.Prelude.{◌≡◌, ◌⊎◌, ◌<◌, ℕ, List, length, codes, IfOk};
ghost use Rattle.std.specs.Io.KnownBytes.{Appends, IsAtEnd};
ghost use Rattle.dav_resource.specs.Texts.{texts};
ghost use Rattle.dav_script.specs.Arguments.{AreUsable};
ghost use Rattle.dav_script.specs.declared.blocks.Block.{Block};
ghost use Rattle.dav_script.specs.Serving.{AreServed, IsAllServed, prefix_in};
ghost use Rattle.dav_script.specs.Status.{SaysFault, trouble_line};

use dav_script::{Block, Script, ScriptError, Session, Stopped, Trouble, read_blocks};
use std::alloc::Global;
use std::io::{Read, Write};
use std::marker::PhantomData;

/// The program's name in its messages.
pub const PROGRAM: &str = "davrun";

/// Reads the blocks of a script.
pub trait Reader: Drop {
    /// The blocks are those that `read` may return for this text.
    ghost is_given: { List ℕ → List Block → Type 0 };

    /// Reads the blocks of a script, in order. The error is the fault of the first faulty line, or `Memory`.
    fn read(alloc: Global, text: &[u8]) -> Result<Vec<Block>, ScriptError>
        ensures { IfOk result (λ blocks. is_given text.now blocks.items) };
}

/// Reads blocks by `read_blocks`. What a text means is tested: no contract says it.
#[derive(Drop)]
pub struct Blocks;

impl Reader for Blocks {
    ghost is_given = { λ text blocks. Unit {0} };

    fn read(alloc: Global, text: &[u8]) -> Result<Vec<Block>, ScriptError> {
        read_blocks(alloc, text)
    }
}

/// Runs the program, with this reader of scripts, and returns its exit status. `arguments` does not include
/// the program's name.
/// - 0: the whole script was executed. Nothing was written to `errors`.
/// - 2: there is more than one argument, the argument cannot be read as a prefix, or a line of the script has
///   an error. Nothing was executed or printed, and one line of `errors` says why.
/// - 3: reading, writing or an allocation failed.
pub fn run_script<B: Reader, I: Read, O: Write, E: Write>(
    alloc: Global,
    arguments: &[String],
    input: &mut I,
    output: &mut O,
    errors: &mut E,
) -> u8
    ensures status { (result ≡ 0) ⊎ (result ≡ 2) ⊎ (result ≡ 3) }

    // With more than one argument nothing is read. With status 2 the usage is written to `errors`.
    ensures unread { 1 < length arguments.now → input.new ≡ input.old }
    ensures usage { 1 < length arguments.now → result ≡ 2
        → Appends (E.contents errors.old) (E.contents errors.new) (trouble_line (codes "davrun") Trouble.Usage) }

    // With status 0 the arguments were usable, the script was read to its end, and nothing was written to
    // `errors`.
    ensures arguments { result ≡ 0 → AreUsable (texts arguments.now) }
    ensures whole { result ≡ 0 → IsAtEnd (I.remaining input.new) }
    ensures served { result ≡ 0 → errors.new ≡ errors.old }

    // With status 0 every block that the reader gave for the input was served: one run of the engine for each
    // block, in order, over one store and one lock system, which are new before the first block.
    ensures run { result ≡ 0 → IsAllServed B.is_given AreServed (prefix_in (texts arguments.now)) (I.remaining input.old) }

    // With status 2 nothing was printed, and one line of `errors` says what is wrong.
    ensures refused { result ≡ 2 → output.new ≡ output.old }
    ensures said { result ≡ 2 → SaysFault (codes "davrun") (texts arguments.now) (E.contents errors.old) (E.contents errors.new) }
{
    dav_script::run_script::<Requests<B>, I, O, E>(alloc, PROGRAM, arguments, input, output, errors)
}

/// The requests of a script, in order, as this reader gave them.
#[derive(Drop)]
struct Requests<B> {
    blocks: Vec<Block>,
    reader: PhantomData<B>,
}

impl<B: Reader> Script for Requests<B> {
    ghost is_given = { λ text requests. B.is_given text requests.blocks.items };

    ghost is_done = { λ requests. AreServed requests.blocks.items };

    fn read(alloc: Global, text: &[u8]) -> Result<Requests<B>, ScriptError> {
        Ok(Requests {
            blocks: B::read(alloc, text)?,
            reader: PhantomData,
        })
    }

    fn serve<O: Write>(
        self,
        alloc: Global,
        session: &mut Session<'_>,
        output: &mut O,
    ) -> Result<(), Stopped> {
        for block in self.blocks {
            session.serve(alloc, block, output)?;
            session.clear_log();
            output.write_all(b"\n")?;
        }
        Ok(())
    }
}
