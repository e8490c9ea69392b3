//! A script of requests and calls, in order.
use crate::call::{CallLine, Heading};
use crate::records::print_records;
use dav_resource::{BodyNumber, ReqBody};
use dav_script::{
    Block, BlockReader, Fault, LineError, OutlineReader, Script, ScriptError, Session, Stopped,
};
use std::alloc::{AllocError, Global};
use std::io::Write;

/// The blocks of a script, in order.
#[derive(Drop)]
pub struct Trace {
    steps: Vec<Step>,
}

/// A block of a script.
#[derive(Drop)]
enum Step {
    /// One request.
    Request(Block),
    /// Lines that call the store or the lock system directly.
    Calls(Vec<CallLine>),
    /// Requests that are served in one run. There may be none.
    AtOnce(Vec<Block>),
}

impl Script for Trace {
    ghost is_given = { λ text script. Unit {0} };

    ghost is_done = { λ script old new. Unit {0} };

    fn read(alloc: Global, text: &[u8]) -> Result<Trace, ScriptError> {
        let mut reader = TraceReader {
            steps: Vec::new(alloc),
            blocks: BlockReader::new(alloc),
            calls: None,
            bodies: Vec::new(alloc),
        };
        for (number, line) in (1..=u64::MAX).zip(text.split(|byte| *byte == b'\n')) {
            reader.read_line(number, line)?;
        }
        reader.end_block()?;
        Ok(Trace {
            steps: reader.steps,
        })
    }

    fn serve<O: Write>(
        self,
        alloc: Global,
        session: &mut Session<'_>,
        output: &mut O,
    ) -> Result<(), Stopped> {
        let mut file = None;
        for step in self.steps {
            match step {
                Step::Request(block) => {
                    session.serve(alloc, block, output)?;
                    print_records(alloc, output, session)?;
                }
                Step::Calls(calls) => {
                    for call in calls {
                        call.make(alloc, session, &mut file, output)?;
                    }
                }
                Step::AtOnce(blocks) => {
                    if blocks.is_empty() {
                        continue;
                    }
                    session.serve_at_once(alloc, blocks, output)?;
                    print_records(alloc, output, session)?;
                }
            }
            output.write_all(b"\n")?;
        }
        Ok(())
    }
}

/// The part of a script that was read.
#[derive(Drop)]
struct TraceReader {
    steps: Vec<Step>,
    /// The reader of the blocks with requests.
    blocks: BlockReader,
    /// The open block of calls, to which further lines belong.
    calls: Option<OpenCalls>,
    /// The stored bodies of the requests that follow, in order.
    bodies: Vec<BodyNumber>,
}

impl TraceReader {
    /// Reads the line with this number, without its line feed.
    fn read_line(&mut self, number: u64, line: &[u8]) -> Result<(), ScriptError> {
        if line.is_empty() {
            return self.end_block();
        }
        match &mut self.calls {
            Some(calls) => calls.read_line(number, line),
            None if !self.blocks.is_in_block() && line.starts_with(b"! ") => {
                let mut calls = OpenCalls {
                    lines: Vec::new(*self.steps.allocator()),
                    outlined: None,
                };
                calls.read_line(number, line)?;
                self.calls = Some(calls);
                Ok(())
            }
            None => self.read_request_line(number, line),
        }
    }

    /// Reads a line of a block with a request.
    fn read_request_line(&mut self, number: u64, line: &[u8]) -> Result<(), ScriptError> {
        if let Some(block) = self.blocks.read_line(number, line)? {
            self.add_request(block)?;
        }
        Ok(())
    }

    /// Ends the open block, if there is one.
    fn end_block(&mut self) -> Result<(), ScriptError> {
        if let Some(block) = self.blocks.end_block()? {
            self.add_request(block)?;
        }
        if let Some(calls) = self.calls.take() {
            self.add_calls(calls.end()?)?;
        }
        Ok(())
    }

    /// Adds a block with a request: to the requests that are served in one run if it follows them, otherwise
    /// on its own. If a stored body is left for it, that is its body.
    fn add_request(&mut self, mut block: Block) -> Result<(), AllocError> {
        if !self.bodies.is_empty() {
            block.body = ReqBody::Stored(self.bodies.remove(0));
        }
        if let Some(Step::AtOnce(blocks)) = self.steps.last_mut() {
            blocks.push(block)?;
        } else {
            self.steps.push(Step::Request(block))?;
        }
        Ok(())
    }

    /// Adds a block of calls. If it says so, stored bodies are left for the requests that follow, and these
    /// requests are collected for one run.
    fn add_calls(&mut self, calls: Vec<CallLine>) -> Result<(), AllocError> {
        let alloc = *calls.allocator();
        for call in &calls {
            if let Some(number) = call.next_body() {
                self.bodies.push(number)?;
            }
        }
        let at_once = calls.iter().any(CallLine::is_at_once);
        self.steps.push(Step::Calls(calls))?;
        if at_once {
            self.steps.push(Step::AtOnce(Vec::new(alloc)))?;
        }
        Ok(())
    }
}

/// A block of calls that is being read.
#[derive(Drop)]
struct OpenCalls {
    lines: Vec<CallLine>,
    /// The line whose outline is being read, to which further lines belong.
    outlined: Option<OutlinedLine>,
}

/// A line whose outline is being read.
#[derive(Drop)]
struct OutlinedLine {
    number: u64,
    heading: Heading,
    outline: OutlineReader,
}

impl OpenCalls {
    /// Reads the line with this number: a call, or a line of the outline that follows one.
    fn read_line(&mut self, number: u64, line: &[u8]) -> Result<(), ScriptError> {
        let Ok(text) = str::from_utf8(line) else {
            return Err(ScriptError::Fault(number, Fault::NotUtf8));
        };
        match self.read_text(number, text) {
            Ok(()) => Ok(()),
            Err(error) => Err(error.at(number)),
        }
    }

    fn read_text(&mut self, number: u64, text: &str) -> Result<(), LineError> {
        if let Some(line) = &mut self.outlined {
            return line.outline.read_line(text);
        }
        let alloc = *self.lines.allocator();
        let text = text.strip_prefix("! ").ok_or(Fault::UnknownDirective)?;
        match Heading::read(alloc, text)? {
            Some(heading) => {
                self.outlined = Some(OutlinedLine {
                    number,
                    heading,
                    outline: OutlineReader::new(alloc, number),
                });
            }
            None => self.lines.push(CallLine::read(alloc, text)?)?,
        }
        Ok(())
    }

    /// Returns the whole block.
    fn end(mut self) -> Result<Vec<CallLine>, ScriptError> {
        if let Some(line) = self.outlined.take() {
            let call = line.end(*self.lines.allocator())?;
            self.lines.push(call)?;
        }
        Ok(self.lines)
    }
}

impl OutlinedLine {
    /// Returns the whole line. An outline that the line does not allow is a fault at the line's number.
    fn end(self, alloc: Global) -> Result<CallLine, ScriptError> {
        let OutlinedLine {
            number,
            heading,
            outline,
        } = self;
        match CallLine::of_outline(alloc, heading, outline.finish()?) {
            Ok(line) => Ok(line),
            Err(error) => Err(error.at(number)),
        }
    }
}
