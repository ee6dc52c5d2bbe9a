//! Lines to viewers, for games in other languages.
ghost use Rattle.std.specs.Prelude.{◌≡◌, ◌≢◌, pos};
ghost use Rattle.fazgrond_c.specs.Handles.{line_in, network_in, session_in, FillsBy, FillsFor, Makes, Opens, Reads};
ghost use Rattle.fazgrond_c.specs.Lines.{host_state, HostHearsBytes, IsHostsBye, IsOpened, IsTelling, IsTellingBefore, IsWhyClosed};

use crate::calls::{CLOSED, open_in};
use crate::handle::Handle;
use crate::line_calls;
use crate::line_kinds::{LineIn, LineState};
use crate::line_refusal::code_of_fault;
use crate::network::Network;
use crate::open::Open;
use roll_frame::Refusal;
use roll_session::Settling;
use roll_viewer::ViewerLine;
use std::alloc::Global;

/// Opens a line at its host.
#[unsafe(no_mangle)]
pub extern "C" fn fazgrond_line_open(alloc: Global, handle: &mut Handle, given: &LineIn) -> i32
    ensures opened { Opens line_in (IsOpened given.now) handle.old.hold.value handle.new.hold.value
        result }
    ensures why { result ≢ pos 0 → IsWhyClosed given.now result }
{
    let Some(settings) = given.settings() else {
        return Refusal::InvalidRequest.code();
    };
    let line = match ViewerLine::open(settings) {
        Ok(line) => line,
        Err(why) => return code_of_fault(why),
    };
    open_in(alloc, handle, Open::Line(line))
}

/// Hears a datagram that came of the viewer.
#[unsafe(no_mangle)]
pub extern "C" fn fazgrond_line_receive(
    alloc: Global,
    handle: &mut Handle,
    bytes: &[u8],
    now: u32,
) -> i32
    ensures { Makes line_in (HostHearsBytes bytes.now now) handle.old.hold.value
        handle.new.hold.value result }
{
    let Some(mut held) = handle.take(alloc) else {
        return CLOSED;
    };
    let Open::Line(line) = &mut *held else {
        handle.put(held);
        return CLOSED;
    };
    let code = line_calls::receive(line, bytes, now);
    handle.put(held);
    code
}

/// What to send to the viewer of a session.
fn tell<S: Settling>(
    alloc: Global,
    handle: &mut Handle,
    session: &S,
    now: u32,
    out: &mut [u8],
    size: &mut usize,
) -> i32
    ensures { FillsBy line_in (IsTelling (S.seen session.now).core now) handle.old.hold.value
        handle.new.hold.value out.old out.new size.old size.new result }
{
    let Some(mut held) = handle.take(alloc) else {
        return CLOSED;
    };
    let Open::Line(line) = &mut *held else {
        handle.put(held);
        return CLOSED;
    };
    let code = line_calls::send(line, session, now, out, size);
    handle.put(held);
    code
}

/// What to send to the viewer: the settled rows of a session that it lacks.
#[unsafe(no_mangle)]
pub extern "C" fn fazgrond_line_send(
    alloc: Global,
    handle: &mut Handle,
    session: &mut Handle,
    now: u32,
    out: &mut [u8],
    size: &mut usize,
) -> i32
    ensures told { FillsFor session_in line_in (λ live. IsTelling live.session.seen.core now)
        session.old.hold.value handle.old.hold.value handle.new.hold.value out.old out.new size.old
        size.new result }
    ensures session { session.new.hold.value ≡ session.old.hold.value }
{
    let Some(lent) = session.take(alloc) else {
        return CLOSED;
    };
    let Open::Session(live) = &*lent else {
        session.put(lent);
        return CLOSED;
    };
    let code = tell(alloc, handle, &live.session, now, out, size);
    session.put(lent);
    code
}

/// What to send to the viewer beside an open network: the settled rows that it lacks of the epoch before.
fn tell_before(
    alloc: Global,
    handle: &mut Handle,
    network: &Network,
    now: u32,
    out: &mut [u8],
    size: &mut usize,
) -> i32
    ensures { FillsBy line_in (IsTellingBefore network.now now) handle.old.hold.value
        handle.new.hold.value out.old out.new size.old size.new result }
{
    let Some(mut held) = handle.take(alloc) else {
        return CLOSED;
    };
    let Open::Line(line) = &mut *held else {
        handle.put(held);
        return CLOSED;
    };
    let code = line_calls::send_before(line, network, now, out, size);
    handle.put(held);
    code
}

/// What to send to the viewer: the settled rows that it lacks of the epoch before. 203 also if that isn't kept.
#[unsafe(no_mangle)]
pub extern "C" fn fazgrond_line_send_before(
    alloc: Global,
    handle: &mut Handle,
    peer: &mut Handle,
    now: u32,
    out: &mut [u8],
    size: &mut usize,
) -> i32
    ensures told { FillsFor network_in line_in (λ network. IsTellingBefore network now)
        peer.old.hold.value handle.old.hold.value handle.new.hold.value out.old out.new size.old
        size.new result }
    ensures peer { peer.new.hold.value ≡ peer.old.hold.value }
{
    let Some(lent) = peer.take(alloc) else {
        return CLOSED;
    };
    let Open::Peer(network) = &*lent else {
        peer.put(lent);
        return CLOSED;
    };
    let code = tell_before(alloc, handle, network, now, out, size);
    peer.put(lent);
    code
}

/// What says to the viewer that this machine leaves it.
#[unsafe(no_mangle)]
pub extern "C" fn fazgrond_line_bye(
    alloc: Global,
    handle: &mut Handle,
    out: &mut [u8],
    size: &mut usize,
) -> i32
    ensures { FillsBy line_in IsHostsBye handle.old.hold.value handle.new.hold.value
        out.old out.new size.old size.new result }
{
    let Some(mut held) = handle.take(alloc) else {
        return CLOSED;
    };
    let Open::Line(line) = &mut *held else {
        handle.put(held);
        return CLOSED;
    };
    let code = line_calls::bye(line, out, size);
    handle.put(held);
    code
}

/// How far the viewer is.
#[unsafe(no_mangle)]
pub extern "C" fn fazgrond_line_look(
    alloc: Global,
    handle: &mut Handle,
    now: u32,
    state: &mut LineState,
) -> i32
    ensures { Reads line_in (host_state now) handle.old.hold.value handle.new.hold.value
        state.old state.new result }
{
    let Some(held) = handle.take(alloc) else {
        return CLOSED;
    };
    let Open::Line(line) = &*held else {
        handle.put(held);
        return CLOSED;
    };
    *state = line_calls::state(line, now);
    handle.put(held);
    0
}
