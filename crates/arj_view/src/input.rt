// The whole of an input.
ghost use Rattle.std.specs.Prelude.{◌≡◌, ◌<◌, IfOk, IfSome, OnOk, OnErr, length};
ghost use Rattle.arj_base.specs.Count.{Rose};
ghost use Rattle.arj_view.specs.Input.{ReadsAll, ReadsPiece};

use arj_io::{Failed, Source};
use std::alloc::{AllocError, Global};

// How many bytes are read at once at most.
const PIECE: usize = 65_536;

// Room for a piece.
fn room_of(alloc: Global) -> Result<Vec<u8>, AllocError>
    ensures { IfOk result (λ room. 0 < length room.items) }
{
    vec![in alloc; 0; PIECE]
}

// Reads a piece behind what was read before, and tells how much came. None where memory is wanting.
fn read_piece<S: Source>(
    source: &mut S,
    room: &mut Vec<u8>,
    bytes: &mut Vec<u8>,
) -> Result<Option<usize>, Failed>
    requires { 0 < length room.old.items }
    ensures room { 0 < length room.new.items }
    ensures read { IfOk result (λ read. IfSome read (ReadsPiece (S.left source.old) (S.left source.new) bytes.old.items bytes.new.items)) }
    ensures steady { OnOk result (S.faults source.new ≡ S.faults source.old) }
    ensures failed { OnErr result (Rose (S.faults source.old) (S.faults source.new)) }
{
    let count = source.read(room)?;
    match bytes.extend_from_slice(&room[..count]) {
        Ok(()) => Ok(Some(count)),
        Err(AllocError) => Ok(None),
    }
}

/// Reads a source to its end. None where memory is wanting.
pub fn read_whole<S: Source>(alloc: Global, source: &mut S) -> Result<Option<Vec<u8>>, Failed>
    ensures read { IfOk result (λ read. IfSome read (λ bytes. ReadsAll (S.left source.old) bytes.items (S.left source.new))) }
    ensures steady { OnOk result (S.faults source.new ≡ S.faults source.old) }
    ensures failed { OnErr result (Rose (S.faults source.old) (S.faults source.new)) }
{
    let Ok(mut room) = room_of(alloc) else {
        return Ok(None);
    };
    let mut bytes = Vec::new(alloc);
    for _ in 0..u64::MAX {
        match read_piece(source, &mut room, &mut bytes)? {
            None => return Ok(None),
            Some(0) => return Ok(Some(bytes)),
            Some(_) => {}
        }
    }
    // More pieces than memory has bytes.
    Ok(None)
}
