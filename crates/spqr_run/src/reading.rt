// Reading a file to its end, within a limit.
ghost use Rattle.std.specs.Prelude.{◌≡◌, ◌+◌, ◌<◌, ◌≤◌, ◌^◌, IfOk, OnOk, length, vec_len};
ghost use Rattle.spqr_edge.specs.Device.{CountsCall};
ghost use Rattle.spqr_run.specs.Ending.{file_status, CountsFaults};
ghost use Rattle.spqr_run.specs.Outcome.{Answers};
ghost use Rattle.spqr_run.specs.Reading.{TakesPiece, IsWhole, IsUnread, told_file};

use crate::halt::Halt;
use spqr_edge::Shelf;
use std::alloc::{AllocError, Global};

/// Why a file was not read.
#[derive(Clone, Copy)]
pub enum FileFault {
    /// A call of the shelf failed.
    Failed,
    /// The file is longer than its limit.
    Long,
}

// How many bytes are asked for at once.
const PIECE: usize = 65_536;

// Room for one piece.
fn piece_room(alloc: Global) -> Result<Vec<u8>, AllocError>
    ensures { IfOk result (λ room. vec_len room ≡ PIECE) }
{
    vec![in alloc; 0; PIECE]
}

// Takes one piece of the open file and appends it to the bytes; gives its length, 0 at the file's end. No more is asked for
// than is left to the limit, and one byte.
fn read_piece<S: Shelf>(
    shelf: &mut S,
    room: &mut [u8],
    bytes: &mut Vec<u8>,
    limit: usize,
) -> Result<usize, Halt<FileFault>>
    requires room { 0 < length room.old }
    requires left { length bytes.old.items ≤ limit }
    requires limit { limit < 2 ^ 63 }
    ensures piece { Answers result
        (TakesPiece (S.left shelf.old) (S.left shelf.new) bytes.old.items bytes.new.items (length room.old))
        (λ fault. fault ≡ FileFault.Failed) }
    ensures within { OnOk result (length bytes.new.items ≤ limit + 1) }
    ensures files { S.files shelf.new ≡ S.files shelf.old }
    ensures opens { S.opens shelf.new ≡ S.opens shelf.old }
    ensures faults { CountsFaults file_status (S.faults shelf.old) (S.faults shelf.new) result }
{
    let most = room.len().min(limit + 1 - bytes.len());
    match shelf.read(&mut room[..most]) {
        Ok(taken) => {
            bytes.extend_from_slice(&room[..taken])?;
            Ok(taken)
        }
        Err(_) => Err(Halt::Refused(FileFault::Failed)),
    }
}

// Reads what is left of the open file.
fn read_rest<S: Shelf>(
    alloc: Global,
    shelf: &mut S,
    limit: usize,
) -> Result<Vec<u8>, Halt<FileFault>>
    requires { limit < 2 ^ 63 }
    ensures bytes { Answers result (λ bytes. IsWhole limit (S.left shelf.old) bytes.items)
        (IsUnread limit (S.left shelf.old)) }
    ensures files { S.files shelf.new ≡ S.files shelf.old }
    ensures opens { S.opens shelf.new ≡ S.opens shelf.old }
    ensures faults { CountsFaults file_status (S.faults shelf.old) (S.faults shelf.new) result }
{
    let mut room = piece_room(alloc)?;
    let mut bytes = Vec::new(alloc);
    while bytes.len() <= limit {
        if read_piece(shelf, &mut room, &mut bytes, limit)? == 0 {
            return Ok(bytes);
        }
    }
    Err(Halt::Refused(FileFault::Long))
}

/// Reads the whole file of this name. It is refused where a call of the shelf fails, and where one byte more than the
/// limit was taken.
pub fn read_file<S: Shelf>(
    alloc: Global,
    shelf: &mut S,
    name: &str,
    limit: usize,
) -> Result<Vec<u8>, Halt<FileFault>>
    requires { limit < 2 ^ 63 }
    ensures bytes { Answers result
        (λ bytes. IsWhole limit (told_file (S.files shelf.old) name.now) bytes.items)
        (IsUnread limit (told_file (S.files shelf.old) name.now)) }
    ensures within { IfOk result (λ bytes. vec_len bytes ≤ limit) }
    ensures files { S.files shelf.new ≡ S.files shelf.old }
    ensures opens { CountsCall (S.opens shelf.old) (S.opens shelf.new) }
    ensures faults { CountsFaults file_status (S.faults shelf.old) (S.faults shelf.new) result }
{
    match shelf.open(name) {
        Ok(()) => read_rest(alloc, shelf, limit),
        Err(_) => Err(Halt::Refused(FileFault::Failed)),
    }
}
