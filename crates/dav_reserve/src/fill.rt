//! How the reserve's file is filled.
ghost use Rattle.std.specs.Prelude.{◌≡◌, ◌≤◌, ◌+◌, true, length, OnOk, IfErr};
ghost use Rattle.sqlite_disk.specs.Disk.{CountsFault};
ghost use Rattle.sqlite_disk.specs.Refusal.{is_no_room};
ghost use Rattle.dav_reserve.specs.Reserves.{FindsNoRoom};

use sqlite_disk::Disk;
use std::io;

/// How many bytes are written at once.
const PIECE: usize = 1 << 14;

/// How many bytes have to be free beside a reserve when it is filled: 1 MiB. So the commit that comes next has room.
const SPARE: usize = 1 << 20;

/// Makes the file at least so long, and overwrites its first bytes. Fails if the disk does, as where it has no room for
/// these bytes and 1 MiB more.
///
/// It does not sync. A file system that allocates late reserves the room of a write before the write returns, so a
/// write that would find no room fails here and not later. A sync would only cost each start the time to bring the
/// bytes to the disk, and no one ever reads them.
pub(crate) fn fill<D: Disk>(disk: &mut D, room: usize) -> io::Result<()>
    requires { D.Disk.is_usable disk.old ≡ true }
    ensures filled { OnOk result (room ≤ length (D.Disk.seen disk.new)) }
    ensures faults { CountsFault result (D.Disk.faults disk.old) (D.Disk.faults disk.new) }
    ensures room { IfErr result (λ e. is_no_room e ≡ true → FindsNoRoom D.Disk disk.old disk.new) }
    ensures usable { D.Disk.is_usable disk.new ≡ true }
{
    overwrite(disk, room.saturating_add(SPARE))?;
    cut(disk, room)
}

/// Cuts off what the file has behind so many bytes. It never makes the file longer: that would be a hole.
fn cut<D: Disk>(disk: &mut D, room: usize) -> io::Result<()>
    requires usable { D.Disk.is_usable disk.old ≡ true }
    requires long { room ≤ length (D.Disk.seen disk.old) }
    ensures filled { OnOk result (room ≤ length (D.Disk.seen disk.new)) }
    ensures faults { CountsFault result (D.Disk.faults disk.old) (D.Disk.faults disk.new) }
    ensures room { IfErr result (λ e. is_no_room e ≡ true → FindsNoRoom D.Disk disk.old disk.new) }
    ensures usable { D.Disk.is_usable disk.new ≡ true }
{
    disk.set_len(room)
}

/// Writes so many bytes from the beginning of the file on.
fn overwrite<D: Disk>(disk: &mut D, room: usize) -> io::Result<()>
    requires { D.Disk.is_usable disk.old ≡ true }
    ensures long { OnOk result (room ≤ length (D.Disk.seen disk.new)) }
    ensures faults { CountsFault result (D.Disk.faults disk.old) (D.Disk.faults disk.new) }
    ensures tally { OnOk result (D.Disk.tally_of disk.new ≡ D.Disk.tally_of disk.old) }
    ensures room { IfErr result (λ e. is_no_room e ≡ true → FindsNoRoom D.Disk disk.old disk.new) }
    ensures usable { D.Disk.is_usable disk.new ≡ true }
{
    let mut piece = [0; PIECE];
    let mut state = 1;
    let mut done = 0;
    while done < room {
        let n = PIECE.min(room - done);
        state = scramble(&mut piece, state);
        disk.write_at(done, &piece[..n])?;
        done += n;
    }
    Ok(())
}

/// Overwrites the bytes with ones that look random, and returns the state for the next ones.
fn scramble(bytes: &mut [u8], state: u64) -> u64 {
    let mut state = state;
    for byte in bytes.iter_mut() {
        state = state
            .wrapping_mul(6_364_136_223_846_793_005)
            .wrapping_add(1_442_695_040_888_963_407);
        *byte = state.to_be_bytes()[0];
    }
    state
}
