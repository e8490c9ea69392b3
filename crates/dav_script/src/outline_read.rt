//! Reads an outline line by line, and returns its tree.
ghost use Rattle.std.specs.Prelude.{◌≡◌, ◌⊎◌, ◌<◌, ◌≤◌, length, max, min, [], Some, Err, IfErr, IsSomeAnd, OnOk};
ghost use Rattle.dav_script.specs.Errors.{IsOutlineError};
ghost use Rattle.dav_script.specs.Outline.{HasPlace, level_of};
ghost use Rattle.dav_script.specs.declared.outline_read.TheConstants.{OUTLINE_LEVELS};

use crate::faults::{Fault, LineError, ScriptError};
use crate::outline_line::read_node;
use dav_resource::{Element, XMLNode};
use std::alloc::{AllocError, Global};

/// The maximum number of levels of an outline, including the root's. Copying, printing and dropping a tree
/// are recursive, so each level uses stack.
pub const OUTLINE_LEVELS: usize = 256;

/// An outline of which some lines have been read.
#[derive(Debug, Drop)]
pub struct OutlineReader {
    /// The number of the line before the outline.
    line: u64,
    /// The open elements, to which a further line may belong, each at its level. An element is moved into the
    /// one before it once a line shows that it is complete.
    unclosed: Vec<Element>,
    ghost bounded: { length unclosed.items ≤ OUTLINE_LEVELS },
}

impl OutlineReader {
    /// Creates a reader of the outline that follows the line with this number.
    pub fn new(alloc: Global, line: u64) -> OutlineReader
        ensures line { result.line ≡ line }
        ensures empty { result.unclosed.items ≡ [] }
    {
        OutlineReader {
            line,
            unclosed: Vec::new(alloc),
        }
    }

    /// Reads one line: the root, or a text or an element indented two spaces further than its parent. The
    /// faults are `BadOutline`, and `OutlineTooDeep` for a line that would fit except for its level. After an
    /// error parts of the tree may be lost.
    pub fn read_line(&mut self, line: &str) -> Result<(), LineError>
        ensures err { IfErr result (λ e. IsOutlineError e ⊎ (e ≡ LineError.Fault Fault.OutlineTooDeep)) }
        ensures line { self.new.line ≡ self.old.line }

        // A line is read only if its level is below `OUTLINE_LEVELS`. The fault `OutlineTooDeep` means that
        // the line is at exactly that level, and that the deepest element possible is open.
        ensures read { OnOk result (IsSomeAnd (level_of line.now) (λ level. level < OUTLINE_LEVELS)) }
        ensures deep { result ≡ Err (LineError.Fault Fault.OutlineTooDeep) → level_of line.now ≡ Some OUTLINE_LEVELS }
        ensures full { result ≡ Err (LineError.Fault Fault.OutlineTooDeep) → length self.old.unclosed.items ≡ OUTLINE_LEVELS }
    {
        let (level, node) = read_node(*self.unclosed.allocator(), line)?;
        check_level(level, self.unclosed.len())?;
        self.close(level)?;
        match node {
            XMLNode::Element(element) => self.unclosed.push(element)?,
            XMLNode::Text(text) => {
                let around = self.unclosed.last_mut().ok_or(Fault::BadOutline)?;
                around.children.push(XMLNode::Text(text))?;
            }
        }
        Ok(())
    }

    /// Moves each open element from this level on into the one before it. The root stays open.
    fn close(&mut self, level: usize) -> Result<(), AllocError>
        ensures line { self.new.line ≡ self.old.line }
        ensures closed { OnOk result (length self.new.unclosed.items ≡ min (length self.old.unclosed.items) (max level 1)) }
    {
        while self.unclosed.len() > level.max(1) {
            let Some(element) = self.unclosed.pop() else {
                return Ok(());
            };
            if let Some(around) = self.unclosed.last_mut() {
                around.push_element(element)?;
            }
        }
        Ok(())
    }

    /// Returns the tree of the lines read. If there were none, the fault is `BadOutline`, at the line before
    /// the outline.
    pub fn finish(mut self) -> Result<Element, ScriptError>
        ensures { IfErr result (λ e. (e ≡ ScriptError.Memory) ⊎ ((e ≡ ScriptError.Fault self.line Fault.BadOutline) × (self.unclosed.items ≡ []))) }
    {
        self.close(1)?;
        match self.unclosed.pop() {
            Some(root) => Ok(root),
            None => Err(ScriptError::Fault(self.line, Fault::BadOutline)),
        }
    }
}

/// Checks that a line at this level can follow lines that leave this number of elements open.
fn check_level(level: usize, unclosed: usize) -> Result<(), Fault>
    ensures read { OnOk result (HasPlace level unclosed × (level < OUTLINE_LEVELS)) }
    ensures bad { result ≡ Err Fault.BadOutline → ¬ (HasPlace level unclosed) }
    ensures deep { result ≡ Err Fault.OutlineTooDeep → HasPlace level unclosed × (OUTLINE_LEVELS ≤ level) }
    ensures err { IfErr result (λ fault. (fault ≡ Fault.BadOutline) ⊎ (fault ≡ Fault.OutlineTooDeep)) }
{
    if level > unclosed || (level == 0 && unclosed > 0) {
        return Err(Fault::BadOutline);
    }
    if level >= OUTLINE_LEVELS {
        return Err(Fault::OutlineTooDeep);
    }
    Ok(())
}
