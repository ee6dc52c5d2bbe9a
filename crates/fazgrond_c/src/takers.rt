//! Who takes a state in pieces, for games in other languages.
ghost use Rattle.std.specs.Prelude.{◌≡◌, ◌≢◌, pos};
ghost use Rattle.fazgrond_c.specs.Handles.{FillsBy, Makes, Opens, Reads, Writes};
ghost use Rattle.fazgrond_c.specs.StateKinds.{name_out};
ghost use Rattle.fazgrond_c.specs.Takers.{taker_in, taker_out, AreTold, IsAsking, IsChosen, IsOpened, IsReceived, IsTakenOf, IsWhyClosed};

use crate::calls::{CLOSED, open_in};
use crate::handle::Handle;
use crate::open::Open;
use crate::state_kinds::{HeardOut, NameOut, TakerOut};
use crate::state_refusal::code_of_end;
use crate::taker_calls;
use roll_state::Taker;
use std::alloc::Global;

/// Opens a taker of the state of this name, if it has no more bytes than the limit.
#[unsafe(no_mangle)]
pub extern "C" fn fazgrond_taker_open(
    alloc: Global,
    handle: &mut Handle,
    name: &NameOut,
    limit: u32,
) -> i32
    ensures opened { Opens taker_in (IsOpened name.now limit) handle.old.hold.value
        handle.new.hold.value result }
    ensures why { result ≢ pos 0 → IsWhyClosed name.now limit result }
{
    let taker = match Taker::open(alloc, name.name(), limit) {
        Ok(taker) => taker,
        Err(why) => return code_of_end(why),
    };
    open_in(alloc, handle, Open::Taker(taker))
}

/// What the state is called.
#[unsafe(no_mangle)]
pub extern "C" fn fazgrond_taker_name(alloc: Global, handle: &mut Handle, name: &mut NameOut) -> i32
    ensures { Reads taker_in (λ taker. name_out taker.name) handle.old.hold.value
        handle.new.hold.value name.old name.new result }
{
    let Some(held) = handle.take(alloc) else {
        return CLOSED;
    };
    let Open::Taker(taker) = &*held else {
        handle.put(held);
        return CLOSED;
    };
    *name = NameOut::of(&taker.name());
    handle.put(held);
    0
}

/// How many pieces there are, and how many are missing.
#[unsafe(no_mangle)]
pub extern "C" fn fazgrond_taker_look(
    alloc: Global,
    handle: &mut Handle,
    state: &mut TakerOut,
) -> i32
    ensures { Reads taker_in taker_out handle.old.hold.value handle.new.hold.value state.old
        state.new result }
{
    let Some(held) = handle.take(alloc) else {
        return CLOSED;
    };
    let Open::Taker(taker) = &*held else {
        handle.put(held);
        return CLOSED;
    };
    *state = taker_calls::look(taker);
    handle.put(held);
    0
}

/// Whether pieces of a machine are taken for now.
#[unsafe(no_mangle)]
pub extern "C" fn fazgrond_taker_takes_of(
    alloc: Global,
    handle: &mut Handle,
    machine: u8,
    flag: &mut u32,
) -> i32
    ensures { Writes taker_in (IsTakenOf machine) handle.old.hold.value handle.new.hold.value
        flag.old flag.new result }
{
    let Some(held) = handle.take(alloc) else {
        return CLOSED;
    };
    let Open::Taker(taker) = &*held else {
        handle.put(held);
        return CLOSED;
    };
    let code = taker_calls::takes_of(taker, machine, flag);
    handle.put(held);
    code
}

/// Takes pieces of one machine alone from now on, or of all.
#[unsafe(no_mangle)]
pub extern "C" fn fazgrond_taker_take_of(alloc: Global, handle: &mut Handle, machine: u8) -> i32
    ensures { Makes taker_in (IsChosen machine) handle.old.hold.value handle.new.hold.value result }
{
    let Some(mut held) = handle.take(alloc) else {
        return CLOSED;
    };
    let Open::Taker(taker) = &mut *held else {
        handle.put(held);
        return CLOSED;
    };
    let code = taker_calls::take_of(taker, machine);
    handle.put(held);
    code
}

/// What asks for the next pieces, so many at most.
#[unsafe(no_mangle)]
pub extern "C" fn fazgrond_taker_send(
    alloc: Global,
    handle: &mut Handle,
    number: u64,
    sender: u8,
    most: usize,
    out: &mut [u8],
    size: &mut usize,
) -> i32
    ensures { FillsBy taker_in (IsAsking number sender most) handle.old.hold.value
        handle.new.hold.value out.old out.new size.old size.new result }
{
    let Some(mut held) = handle.take(alloc) else {
        return CLOSED;
    };
    let Open::Taker(taker) = &mut *held else {
        handle.put(held);
        return CLOSED;
    };
    let code = taker_calls::send(taker, number, sender, most, out, size);
    handle.put(held);
    code
}

/// Hears a piece.
#[unsafe(no_mangle)]
pub extern "C" fn fazgrond_taker_receive(
    alloc: Global,
    handle: &mut Handle,
    number: u64,
    bytes: &[u8],
    heard: &mut HeardOut,
) -> i32
    ensures { Writes taker_in (IsReceived number bytes.now) handle.old.hold.value
        handle.new.hold.value heard.old heard.new result }
{
    let Some(mut held) = handle.take(alloc) else {
        return CLOSED;
    };
    let Open::Taker(taker) = &mut *held else {
        handle.put(held);
        return CLOSED;
    };
    let code = taker_calls::receive(taker, number, bytes, heard);
    handle.put(held);
    code
}

/// The state's bytes, once they are whole.
#[unsafe(no_mangle)]
pub extern "C" fn fazgrond_taker_bytes(alloc: Global, handle: &mut Handle, out: &mut [u8]) -> i32
    ensures { Writes taker_in AreTold handle.old.hold.value handle.new.hold.value out.old out.new
        result }
{
    let Some(held) = handle.take(alloc) else {
        return CLOSED;
    };
    let Open::Taker(taker) = &*held else {
        handle.put(held);
        return CLOSED;
    };
    let code = taker_calls::bytes(taker, out);
    handle.put(held);
    code
}
