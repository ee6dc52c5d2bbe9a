//! Calls of an open giver.
ghost use Rattle.std.specs.Prelude.{◌≡◌, IfErr, IfOk};
ghost use Rattle.fazgrond_c.specs.Givers.{IsOpened, IsReplied, IsWhyNot};
ghost use Rattle.fazgrond_c.specs.Handles.{Fills};

use crate::calls::{NOTHING, TOO_SHORT};
use crate::peer_calls::write;
use crate::state_refusal::code_of_state;
use roll_state::{Giver, Key, StateFault};
use roll_wire::DATAGRAM_LIMIT;
use std::alloc::Global;

/// Who gives a copy of these bytes.
///
/// # Errors
///
/// `Empty` or `TooLong`, if there are none, or 2^32 or more; `NoMemory`.
pub fn open(alloc: Global, which: u64, frame: u32, bytes: &[u8]) -> Result<Giver, StateFault>
    ensures opened { IfOk result (IsOpened which frame bytes.now) }
    ensures refused { IfErr result (IsWhyNot bytes.now) }
{
    match bytes.to_vec(alloc) {
        Ok(copy) => Giver::new(which, frame, copy),
        Err(_) => Err(StateFault::NoMemory),
    }
}

/// Writes what is sent for one of the places that bytes ask for.
pub fn reply(
    giver: &Giver,
    number: u64,
    sender: u8,
    asked: &[u8],
    index: usize,
    out: &mut [u8],
    size: &mut usize,
) -> i32
    ensures { Fills (IsReplied number sender asked.now index) giver.now giver.now out.old out.new
        size.old size.new result }
{
    if out.len() < DATAGRAM_LIMIT {
        return TOO_SHORT;
    }
    match giver.reply(&Key::of_hellos(number), sender, asked, index) {
        Ok(Some(bytes)) => {
            write(out, size, &bytes);
            0
        }
        Ok(None) => NOTHING,
        Err(why) => code_of_state(why),
    }
}
