//! Calls of an open taker.
ghost use Rattle.std.specs.Prelude.{◌≡◌};
ghost use Rattle.fazgrond_c.specs.Handles.{Fills};
ghost use Rattle.fazgrond_c.specs.Takers.{taker_out, AreTold, IsAsking, IsChosen, IsReceived, IsTakenOf};

use crate::calls::{NOTHING, TOO_SHORT};
use crate::looks::copied;
use crate::peer_calls::write;
use crate::state_kinds::{HeardOut, NO_MACHINE, TakerOut};
use crate::state_refusal::code_of_state;
use roll_mesh::MACHINE_LIMIT;
use roll_state::{Key, Taker};
use roll_wire::DATAGRAM_LIMIT;

/// There can't be such a machine.
const INVALID_MACHINE: i32 = 303;

/// How many pieces there are, and how many are missing.
pub fn look(taker: &Taker) -> TakerOut
    ensures { result ≡ taker_out taker.now }
{
    TakerOut {
        pieces: taker.name().count(),
        left: taker.left(),
    }
}

/// Writes whether pieces of a machine are taken for now.
pub fn takes_of(taker: &Taker, machine: u8, flag: &mut u32) -> i32
    ensures { IsTakenOf machine taker.now taker.now flag.old flag.new result }
{
    if usize::from(machine) >= MACHINE_LIMIT {
        return INVALID_MACHINE;
    }
    *flag = u32::from(taker.takes_of(machine));
    0
}

/// Takes pieces of one machine alone from now on, or of all.
pub fn take_of(taker: &mut Taker, machine: u8) -> i32
    ensures { IsChosen machine taker.old taker.new result }
{
    if machine == NO_MACHINE {
        taker.take_of(None);
        return 0;
    }
    if usize::from(machine) >= MACHINE_LIMIT {
        return INVALID_MACHINE;
    }
    taker.take_of(Some(machine));
    0
}

/// Writes what asks for the next pieces.
pub fn send(
    taker: &mut Taker,
    number: u64,
    sender: u8,
    most: usize,
    out: &mut [u8],
    size: &mut usize,
) -> i32
    ensures { Fills (IsAsking number sender most) taker.old taker.new out.old out.new size.old
        size.new result }
{
    if out.len() < DATAGRAM_LIMIT {
        return TOO_SHORT;
    }
    match taker.send(&Key::of_hellos(number), sender, most) {
        Some(bytes) => {
            write(out, size, &bytes);
            0
        }
        None => NOTHING,
    }
}

/// Hears bytes, and writes what came of them.
pub fn receive(taker: &mut Taker, number: u64, bytes: &[u8], heard: &mut HeardOut) -> i32
    ensures { IsReceived number bytes.now taker.old taker.new heard.old heard.new result }
{
    match taker.receive(&Key::of_hellos(number), bytes) {
        Ok(came) => {
            *heard = HeardOut::of(came);
            0
        }
        Err(why) => code_of_state(why),
    }
}

/// Writes the state's bytes, once they are whole.
pub fn bytes(taker: &Taker, out: &mut [u8]) -> i32
    ensures { AreTold taker.now taker.now out.old out.new result }
{
    match taker.bytes() {
        Some(bytes) => copied(out, bytes),
        None => NOTHING,
    }
}
