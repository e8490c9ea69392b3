//! What holds the bytes of files.
ghost use Rattle.std.specs.Prelude.{◌≡◌, ◌⊎◌, ◌<◌, ◌+◌, ◌^◌, Bool, true, List, ℕ, [], length, IfOk, IfErr, OnOk, OnErr, Option};
ghost use Rattle.std.specs.Coded.{Coded};
ghost use Rattle.dav_resource.specs.declared.error.FsError.{FsError};
ghost use Rattle.dav_resource.specs.declared.record.Outcome.TheVariants.{Refused};
ghost use Rattle.dav_store.specs.Calls.{Reading, bytes_from, written_at};
ghost use Rattle.dav_tree.specs.Bodies.{KeepsBodies, KeepsMarks, KeepsMarked, IsCopy, FailsFor};
ghost use Rattle.dav_tree.specs.MemoryCalls.{outcome_of};

use dav_resource::FsResult;
use std::alloc::Global;

/// A medium holds the contents of files, as bodies. A body keeps its bytes, whatever is done to other bodies,
/// until it is given up.
///
/// A body may be dropped at any time. The medium finds out by a sweep: from `begin_sweep` on each body that is
/// still in use is passed to `keep`, and `end_sweep` may give up all others. Only then may their room be used
/// again.
pub trait Medium: Drop {
    /// What a store keeps of a file's contents.
    type Body: Drop;

    /// The bytes of a body.
    ghost bytes: { Self → Self.Body → List ℕ };

    /// Whether the medium holds a body. Only of such a body the bytes stay the same.
    ghost holds: { Self → Self.Body → Bool };

    /// Whether a body is safe: it is held, and is not lost when the program ends at any moment.
    ghost safe: { Self → Self.Body → Bool };

    /// Whether a body was kept in the sweep under way.
    ghost marked: { Self → Self.Body → Bool };

    /// A code of the bodies, by which proofs compare them.
    ghost body_code: { Coded Self.Body };

    /// The errors that the medium may return for its own reasons. `Memory` is none of them.
    ghost refuses: { FsError → Bool };

    /// Whether each read so far has returned what was written.
    ghost is_honest: { Self → Bool };

    /// Whether nothing below the medium has failed so far, and each read has returned what was written.
    ghost is_faultless: { Self → Bool };

    /// The bytes that a crash leaves of all that the medium holds, if it leaves no others. The calls below do not specify
    /// them: only calls of a medium's own may.
    ghost settled: { Self → Option (List ℕ) };

    /// What the medium says of bytes that it has read, if it is honest right after the read, or not.
    ghost reading: { Bool → Reading };

    /// Why a read may fail for the medium's own reasons, if it is faultless right after the read, or not.
    ghost may_fail: { Bool → FsError → Type 0 };

    /// Creates a body of no bytes.
    fn empty(&self, alloc: Global) -> Self::Body
        ensures bytes { bytes self.now result ≡ [] }
        ensures held { holds self.now result ≡ true };

    /// Returns the number of bytes of a body.
    fn len(&self, body: &Self::Body) -> u64
        requires { holds self.now body.now ≡ true }
        ensures { result ≡ length (bytes self.now body.now) };

    /// Returns a body with the same bytes. Returns `Memory` if memory runs out, or an error of the medium's
    /// own.
    fn copy(&self, alloc: Global, body: &Self::Body) -> FsResult<Self::Body>
        requires { holds self.now body.now ≡ true }
        ensures ok { IfOk result (IsCopy (bytes self.now) (holds self.now) body.now) }
        ensures err { IfErr result (FailsFor refuses) };

    /// Writes bytes at an offset of a body. Zeros fill a gap, and writing no bytes changes nothing. Returns
    /// `Memory` if memory runs out, or an error of the medium's own. After an error the body has the bytes that
    /// it had.
    fn write(
        &mut self,
        alloc: Global,
        body: &mut Self::Body,
        place: u64,
        more: &[u8],
    ) -> FsResult<()>
        requires held { holds self.old body.old ≡ true }
        requires fits { place + length more.now < 2 ^ 64 }
        ensures ok { OnOk result (bytes self.new body.new ≡ written_at (bytes self.old body.old) place more.now) }
        ensures same { OnErr result (bytes self.new body.new ≡ bytes self.old body.old) }
        ensures err { IfErr result (FailsFor refuses) }
        ensures held { holds self.new body.new ≡ true }
        ensures kept { KeepsBodies bytes holds safe self.old self.new };

    /// Writes the bytes of another body at an offset of a body, as `write` does.
    fn write_body(
        &mut self,
        alloc: Global,
        body: &mut Self::Body,
        place: u64,
        from: &Self::Body,
    ) -> FsResult<()>
        requires held { holds self.old body.old ≡ true }
        requires other { holds self.old from.now ≡ true }
        requires fits { place + length (bytes self.old from.now) < 2 ^ 64 }
        ensures ok { OnOk result (bytes self.new body.new ≡ written_at (bytes self.old body.old) place (bytes self.old from.now)) }
        ensures same { OnErr result (bytes self.new body.new ≡ bytes self.old body.old) }
        ensures err { IfErr result (FailsFor refuses) }
        ensures held { holds self.new body.new ≡ true }
        ensures kept { KeepsBodies bytes holds safe self.old self.new };

    /// Returns `count` bytes of a body from an offset on, or fewer if the body ends before. How many they are
    /// is always right; of the bytes, what the medium says (`reading`) holds. Returns `Memory` if memory runs
    /// out, or an error of the medium's own, for a reason that it has (`may_fail`).
    fn read(
        &mut self,
        alloc: Global,
        body: &Self::Body,
        place: u64,
        count: usize,
    ) -> FsResult<Vec<u8>>
        requires { holds self.old body.now ≡ true }
        ensures bytes { IfOk result (λ found. reading (is_honest self.new) (bytes self.old body.now) place count found.items) }
        ensures count { IfOk result (λ found. length found.items ≡ length (bytes_from place count (bytes self.old body.now))) }
        ensures err { IfErr result (FailsFor refuses) }
        ensures cause { IfErr result (λ e. (e ≡ FsError.Memory) ⊎ may_fail (is_faultless self.new) e) }
        ensures kept { KeepsBodies bytes holds safe self.old self.new };

    /// Makes each body safe that the medium holds. Returns an error of the medium's own if it cannot, and may
    /// then return one from every later call.
    fn sync(&mut self) -> FsResult<()>
        ensures safe { OnOk result ((body : Self.Body) → holds self.old body ≡ true → safe self.new body ≡ true) }
        ensures err { IfErr result (λ e. refuses e ≡ true) }
        ensures kept { KeepsBodies bytes holds safe self.old self.new };

    /// Begins a sweep. What was marked before need not be any more.
    fn begin_sweep(&mut self)
        ensures { KeepsBodies bytes holds safe self.old self.new };

    /// Marks a body, if the medium holds it. The end of the sweep does not give it up.
    fn keep(&mut self, body: &Self::Body)
        ensures marked { holds self.old body.now ≡ true → marked self.new body.now ≡ true }
        ensures marks { KeepsMarks marked self.old self.new }
        ensures kept { KeepsBodies bytes holds safe self.old self.new };

    /// Ends a sweep. The medium may give up the bodies that are not marked.
    fn end_sweep(&mut self)
        ensures { KeepsMarked bytes holds safe marked self.old self.new };

    /// Each body that is safe is held.
    ghost safe_held: { (medium : Self) (body : Self.Body) → safe medium body ≡ true → holds medium body ≡ true };

    /// Each body that the medium holds has fewer than 2^63 bytes.
    ghost small: { (medium : Self) (body : Self.Body) → holds medium body ≡ true → length (bytes medium body) < 2 ^ 63 };

    /// An error of the medium's own says nothing of the paths of a call.
    ghost own: { (e : FsError) → refuses e ≡ true → outcome_of e ≡ Refused e };
}
