//! Who gives a state in pieces, for games in other languages.
ghost use Rattle.std.specs.Prelude.{◌≡◌, ◌≢◌, pos};
ghost use Rattle.fazgrond_c.specs.Givers.{giver_in, AreTold, IsOpened, IsReplied, IsWhyClosed};
ghost use Rattle.fazgrond_c.specs.Handles.{FillsBy, Opens, Reads, Writes};
ghost use Rattle.fazgrond_c.specs.StateKinds.{name_out};

use crate::calls::{CLOSED, open_in};
use crate::giver_calls;
use crate::handle::Handle;
use crate::looks::copied;
use crate::open::Open;
use crate::state_kinds::NameOut;
use crate::state_refusal::code_of_end;
use std::alloc::Global;

/// Opens a giver of a copy of these bytes, the state of this number and of a frame.
#[unsafe(no_mangle)]
pub extern "C" fn fazgrond_giver_open(
    alloc: Global,
    handle: &mut Handle,
    which: u64,
    frame: u32,
    bytes: &[u8],
) -> i32
    ensures opened { Opens giver_in (IsOpened which frame bytes.now) handle.old.hold.value
        handle.new.hold.value result }
    ensures why { result ≢ pos 0 → IsWhyClosed bytes.now result }
{
    let giver = match giver_calls::open(alloc, which, frame, bytes) {
        Ok(giver) => giver,
        Err(why) => return code_of_end(why),
    };
    open_in(alloc, handle, Open::Giver(giver))
}

/// What the state is called.
#[unsafe(no_mangle)]
pub extern "C" fn fazgrond_giver_name(alloc: Global, handle: &mut Handle, name: &mut NameOut) -> i32
    ensures { Reads giver_in (λ giver. name_out giver.name) handle.old.hold.value
        handle.new.hold.value name.old name.new result }
{
    let Some(held) = handle.take(alloc) else {
        return CLOSED;
    };
    let Open::Giver(giver) = &*held else {
        handle.put(held);
        return CLOSED;
    };
    *name = NameOut::of(&giver.name());
    handle.put(held);
    0
}

/// Its bytes.
#[unsafe(no_mangle)]
pub extern "C" fn fazgrond_giver_bytes(alloc: Global, handle: &mut Handle, out: &mut [u8]) -> i32
    ensures { Writes giver_in AreTold handle.old.hold.value handle.new.hold.value out.old out.new
        result }
{
    let Some(held) = handle.take(alloc) else {
        return CLOSED;
    };
    let Open::Giver(giver) = &*held else {
        handle.put(held);
        return CLOSED;
    };
    let code = copied(out, giver.bytes());
    handle.put(held);
    code
}

/// What to send for one of the places, from 0, that bytes ask for.
#[unsafe(no_mangle)]
pub extern "C" fn fazgrond_giver_reply(
    alloc: Global,
    handle: &mut Handle,
    number: u64,
    sender: u8,
    asked: &[u8],
    index: usize,
    out: &mut [u8],
    size: &mut usize,
) -> i32
    ensures { FillsBy giver_in (IsReplied number sender asked.now index) handle.old.hold.value
        handle.new.hold.value out.old out.new size.old size.new result }
{
    let Some(held) = handle.take(alloc) else {
        return CLOSED;
    };
    let Open::Giver(giver) = &*held else {
        handle.put(held);
        return CLOSED;
    };
    let code = giver_calls::reply(giver, number, sender, asked, index, out, size);
    handle.put(held);
    code
}
