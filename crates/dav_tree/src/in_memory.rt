//! A medium in memory.
ghost use Rattle.std.specs.Prelude.{◌≡◌, ◌≤◌, ◌<◌, ◌+◌, ◌-◌, ◌^◌, ◌++◌, true, false, length, take, drop, replicate, List, None, IfOk, OnOk, OnErr};
ghost use Rattle.dav_store.specs.Calls.{are_exact, bytes_from, written_at};
ghost use Rattle.dav_tree.specs.Bodies.{is_small, small_is, none_own};

use crate::medium::Medium;
use dav_resource::FsResult;
use std::alloc::{AllocError, Global};
use std::marker::Model;

/// The bytes of a file. In contracts their value is the list of them.
#[derive(Debug, Drop)]
pub struct Bytes {
    items: Vec<u8>,
}

impl Model for Bytes {
    ghost use Rattle.std.specs.Prelude.{ℕ, List};
    ghost use Rattle.std.specs.Coded.{coded_list, coded_ℕ};

    ghost Value = { List ℕ };

    ghost coded = { coded_list coded_ℕ };

    ghost view = { λ b. b.items.items };
}

impl Bytes {
    /// Returns a copy of the bytes. Fails only if memory runs out.
    pub(crate) fn to_vec(&self) -> Result<Vec<u8>, AllocError>
        ensures { IfOk result (λ bytes. bytes.items ≡ self.now) }
    {
        self.items.clone()
    }
}

/// A medium whose bodies are bytes in memory. It fails only if memory runs out, and its sweeps give nothing
/// up: the bytes of a body are released when it is dropped.
#[derive(Debug, Drop)]
pub struct InMemory;

impl Medium for InMemory {
    ghost use Rattle.std.specs.Coded.{coded_list, coded_ℕ};

    type Body = Bytes;

    ghost bytes = { λ _ body. body };

    ghost holds = { λ _ body. is_small body };

    ghost safe = { λ _ body. is_small body };

    ghost marked = { λ _ body. is_small body };

    ghost body_code = { coded_list coded_ℕ };

    ghost refuses = { λ _. false };

    ghost is_honest = { λ _. true };

    ghost is_faultless = { λ _. true };

    ghost settled = { λ _. None };

    ghost reading = { λ _. are_exact };

    ghost may_fail = { λ _ _. ⊥ };

    ghost safe_held = { λ _ _ held. held };

    ghost small = { λ _ body held. small_is body held };

    ghost own = { λ _ refused. none_own refused };

    fn empty(&self, alloc: Global) -> Bytes {
        Bytes {
            items: Vec::new(alloc),
        }
    }

    fn len(&self, body: &Bytes) -> u64 {
        body.items.len() as u64
    }

    fn copy(&self, _alloc: Global, body: &Bytes) -> FsResult<Bytes> {
        Ok(Bytes {
            items: body.to_vec()?,
        })
    }

    fn write(&mut self, _alloc: Global, body: &mut Bytes, place: u64, more: &[u8]) -> FsResult<()> {
        write_at(&mut body.items, place as usize, more)?;
        Ok(())
    }

    fn write_body(
        &mut self,
        _alloc: Global,
        body: &mut Bytes,
        place: u64,
        from: &Bytes,
    ) -> FsResult<()> {
        write_at(&mut body.items, place as usize, &from.items)?;
        Ok(())
    }

    fn read(&mut self, alloc: Global, body: &Bytes, place: u64, count: usize) -> FsResult<Vec<u8>> {
        Ok(bytes_from(&body.items, place, count).to_vec(alloc)?)
    }

    fn sync(&mut self) -> FsResult<()> {
        Ok(())
    }

    fn begin_sweep(&mut self) {}

    fn keep(&mut self, _body: &Bytes) {}

    fn end_sweep(&mut self) {}
}

/// Borrows `count` bytes from an offset on, or fewer if the bytes end before.
fn bytes_from(bytes: &[u8], place: u64, count: usize) -> &[u8]
    ensures { result.now ≡ bytes_from place count bytes.now }
{
    let rest = &bytes[bytes.len().min(place as usize)..];
    &rest[..rest.len().min(count)]
}

/// Writes bytes at an offset, filling a gap with zeros. Requests all capacity at once. If that fails, nothing
/// changes.
fn write_at(bytes: &mut Vec<u8>, place: usize, more: &[u8]) -> Result<(), AllocError>
    requires { place + length more.now < 2 ^ 64 }
    ensures ok { OnOk result (bytes.new.items ≡ written_at bytes.old.items place more.now) }
    ensures err { OnErr result (bytes.new.items ≡ bytes.old.items) }
    ensures small { length bytes.new.items < 2 ^ 63 }
{
    if more.is_empty() {
        return Ok(());
    }
    lengthen(bytes, place + more.len())?;
    overwrite(bytes, place, more);
    Ok(())
}

/// Appends zeros up to a length. Bytes that are at least that long stay as they are.
fn lengthen(bytes: &mut Vec<u8>, len: usize) -> Result<(), AllocError>
    ensures ok { OnOk result (bytes.new.items ≡ bytes.old.items ++ replicate (len - length bytes.old.items) 0) }
    ensures err { OnErr result (bytes.new.items ≡ bytes.old.items) }
{
    if bytes.len() < len {
        bytes.resize(len, 0)?;
    }
    Ok(())
}

/// Overwrites bytes from an offset on.
fn overwrite(bytes: &mut Vec<u8>, place: usize, more: &[u8])
    requires { place + length more.now ≤ length bytes.old.items }
    ensures { bytes.new.items ≡ take place bytes.old.items ++ more.now ++ drop (place + length more.now) bytes.old.items }
{
    bytes[place..place + more.len()].copy_from_slice(more);
}
