//! Reads a script as blocks, each with a request. Empty lines separate blocks.
use crate::directive;
use crate::faults::{Fault, LineError, ScriptError};
use crate::outline_read::OutlineReader;
use crate::refusal::PlannedRefusal;
use dav_resource::{LockToken, ReqBody, Text};
use http::Method;
use http_header::{HeaderMap, HeaderName, HeaderValue};
use std::alloc::Global;

/// A request of a script, with its path not yet parsed.
#[derive(Debug, Drop)]
pub struct Block {
    pub method: Method,
    /// The path as written in the script.
    pub path: String,
    pub headers: HeaderMap<HeaderValue>,
    pub body: ReqBody,
    /// The outline of the body's tree, while it is being read.
    pub outline: Option<OutlineReader>,
    /// The time of the request, if the block sets it.
    pub now: Option<u64>,
    /// The principal that sends the request, if the block sets one.
    pub principal: Option<Text>,
    /// The token for a lock that the request creates, if the block sets one.
    pub token: Option<LockToken>,
    /// The calls that the store is to refuse from this block on, in the order of their lines.
    pub refusals: Vec<PlannedRefusal>,
}

/// Reads the blocks of a script, in order. The error is the fault of the first faulty line, or `Memory`.
pub fn read_blocks(alloc: Global, script: &[u8]) -> Result<Vec<Block>, ScriptError> {
    let mut blocks = Vec::new(alloc);
    let mut reader = BlockReader::new(alloc);
    for (number, line) in (1..=u64::MAX).zip(script.split(|byte| *byte == b'\n')) {
        if let Some(block) = reader.read_line(number, line)? {
            blocks.push(block)?;
        }
    }
    if let Some(block) = reader.end_block()? {
        blocks.push(block)?;
    }
    Ok(blocks)
}

/// Reads blocks line by line.
#[derive(Drop)]
pub struct BlockReader {
    alloc: Global,
    /// The block to which the next line belongs.
    open: Option<Block>,
}

impl BlockReader {
    /// Creates a reader before the first line.
    pub fn new(alloc: Global) -> BlockReader {
        BlockReader { alloc, open: None }
    }

    /// Returns whether the next line belongs to a block that has already begun.
    pub fn is_in_block(&self) -> bool {
        self.open.is_some()
    }

    /// Reads a line without its line feed, and returns the block that it ends, if any. `number` is the line's
    /// number, from 1. The error is the fault of the line or of the outline that it ends, or `Memory`.
    pub fn read_line(&mut self, number: u64, line: &[u8]) -> Result<Option<Block>, ScriptError> {
        let Ok(text) = str::from_utf8(line) else {
            return Err(ScriptError::Fault(number, Fault::NotUtf8));
        };
        if text.is_empty() {
            return self.end_block();
        }
        match self.read_text(number, text) {
            Ok(()) => Ok(None),
            Err(error) => Err(error.at(number)),
        }
    }

    /// Reads a line of the open block, or the first line of a new one.
    fn read_text(&mut self, number: u64, text: &str) -> Result<(), LineError> {
        match &mut self.open {
            Some(block) => block.read_line(number, text),
            None => {
                self.open = Some(Block::read(self.alloc, text)?);
                Ok(())
            }
        }
    }

    /// Ends the open block, if there is one, and returns it. The only fault is that of its outline.
    pub fn end_block(&mut self) -> Result<Option<Block>, ScriptError> {
        match self.open.take() {
            Some(block) => Ok(Some(block.end()?)),
            None => Ok(None),
        }
    }
}

impl Block {
    /// Begins a block with this request line: `METHOD PATH`, split at the first space.
    fn read(alloc: Global, line: &str) -> Result<Block, LineError> {
        let Some((method, path)) = line.split_once(' ') else {
            return Err(Fault::BadRequestLine.into());
        };
        let method = Method::from_bytes(alloc, method.as_bytes())?;
        if path == "*" && method.as_str() != "OPTIONS" {
            return Err(Fault::StarPath.into());
        }
        Ok(Block {
            method,
            path: String::from_str(alloc, path)?,
            headers: HeaderMap::new(alloc),
            body: ReqBody::None,
            outline: None,
            now: None,
            principal: None,
            token: None,
            refusals: Vec::new(alloc),
        })
    }

    /// Reads a line after the first: a line of the outline, a directive, or a header. `number` is the line's
    /// number.
    fn read_line(&mut self, number: u64, line: &str) -> Result<(), LineError> {
        if let Some(outline) = &mut self.outline {
            return outline.read_line(line);
        }
        match line.strip_prefix('=') {
            Some(text) => directive::read(self, number, text),
            None => self.read_header(line),
        }
    }

    /// Ends the block and returns it. If it has an outline, the outline's tree is the body.
    fn end(mut self) -> Result<Block, ScriptError> {
        if let Some(outline) = self.outline.take() {
            self.body = ReqBody::Tree(outline.finish()?);
        }
        Ok(self)
    }

    /// Reads a header `name: value`, split at the first `:`. Spaces and tabs around the value are dropped.
    fn read_header(&mut self, line: &str) -> Result<(), LineError> {
        let Some((name, value)) = line.split_once(':') else {
            return Err(Fault::BadHeader.into());
        };
        let alloc = *self.path.allocator();
        let name = HeaderName::from_bytes(alloc, name.as_bytes())?;
        let value = HeaderValue::from_str(alloc, value.trim_matches([' ', '\t']))?;
        self.headers.append(name, value)?;
        Ok(())
    }
}
