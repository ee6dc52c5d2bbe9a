//! Viewers, for games in other languages.
ghost use Rattle.std.specs.Prelude.{◌≡◌, ◌≢◌, pos};
ghost use Rattle.fazgrond_c.specs.Handles.{viewer_in, FillsBy, Opens, Reads, Writes};
ghost use Rattle.fazgrond_c.specs.Lines.{IsWhyClosed};
ghost use Rattle.fazgrond_c.specs.Viewers.{viewer_state, IsOpened, IsSeen, IsViewersBye, IsViewersWord, ViewerHearsBytes};

use crate::calls::{CLOSED, open_in};
use crate::handle::Handle;
use crate::kinds::RowOut;
use crate::line_kinds::{LineIn, LineState};
use crate::line_refusal::code_of_fault;
use crate::open::Open;
use crate::viewer_calls;
use roll_frame::Refusal;
use roll_viewer::Viewer;
use std::alloc::Global;

/// Opens a viewer.
#[unsafe(no_mangle)]
pub extern "C" fn fazgrond_viewer_open(alloc: Global, handle: &mut Handle, given: &LineIn) -> i32
    ensures opened { Opens viewer_in (IsOpened given.now) handle.old.hold.value
        handle.new.hold.value result }
    ensures why { result ≢ pos 0 → IsWhyClosed given.now result }
{
    let Some(settings) = given.settings() else {
        return Refusal::InvalidRequest.code();
    };
    let viewer = match Viewer::open(alloc, settings) {
        Ok(viewer) => viewer,
        Err(why) => return code_of_fault(why),
    };
    open_in(alloc, handle, Open::Viewer(viewer))
}

/// Hears a datagram that came of the host, and says how many rows were taken.
#[unsafe(no_mangle)]
pub extern "C" fn fazgrond_viewer_receive(
    alloc: Global,
    handle: &mut Handle,
    bytes: &[u8],
    now: u32,
    rows: &mut u32,
) -> i32
    ensures { Writes viewer_in (ViewerHearsBytes bytes.now now) handle.old.hold.value
        handle.new.hold.value rows.old rows.new result }
{
    let Some(mut held) = handle.take(alloc) else {
        return CLOSED;
    };
    let Open::Viewer(viewer) = &mut *held else {
        handle.put(held);
        return CLOSED;
    };
    let code = viewer_calls::receive(viewer, bytes, now, rows);
    handle.put(held);
    code
}

/// What to send to the host.
#[unsafe(no_mangle)]
pub extern "C" fn fazgrond_viewer_send(
    alloc: Global,
    handle: &mut Handle,
    now: u32,
    out: &mut [u8],
    size: &mut usize,
) -> i32
    ensures { FillsBy viewer_in (IsViewersWord now) handle.old.hold.value handle.new.hold.value
        out.old out.new size.old size.new result }
{
    let Some(mut held) = handle.take(alloc) else {
        return CLOSED;
    };
    let Open::Viewer(viewer) = &mut *held else {
        handle.put(held);
        return CLOSED;
    };
    let code = viewer_calls::send(viewer, now, out, size);
    handle.put(held);
    code
}

/// What says to the host that this viewer leaves.
#[unsafe(no_mangle)]
pub extern "C" fn fazgrond_viewer_bye(
    alloc: Global,
    handle: &mut Handle,
    out: &mut [u8],
    size: &mut usize,
) -> i32
    ensures { FillsBy viewer_in IsViewersBye handle.old.hold.value handle.new.hold.value
        out.old out.new size.old size.new result }
{
    let Some(mut held) = handle.take(alloc) else {
        return CLOSED;
    };
    let Open::Viewer(viewer) = &mut *held else {
        handle.put(held);
        return CLOSED;
    };
    let code = viewer_calls::bye(viewer, out, size);
    handle.put(held);
    code
}

/// The next row.
#[unsafe(no_mangle)]
pub extern "C" fn fazgrond_viewer_row(alloc: Global, handle: &mut Handle, row: &mut RowOut) -> i32
    ensures { Writes viewer_in IsSeen handle.old.hold.value handle.new.hold.value row.old row.new
        result }
{
    let Some(mut held) = handle.take(alloc) else {
        return CLOSED;
    };
    let Open::Viewer(viewer) = &mut *held else {
        handle.put(held);
        return CLOSED;
    };
    let code = viewer_calls::next_row(viewer, row);
    handle.put(held);
    code
}

/// How far the viewer is.
#[unsafe(no_mangle)]
pub extern "C" fn fazgrond_viewer_look(
    alloc: Global,
    handle: &mut Handle,
    now: u32,
    state: &mut LineState,
) -> i32
    ensures { Reads viewer_in (viewer_state now) handle.old.hold.value handle.new.hold.value
        state.old state.new result }
{
    let Some(held) = handle.take(alloc) else {
        return CLOSED;
    };
    let Open::Viewer(viewer) = &*held else {
        handle.put(held);
        return CLOSED;
    };
    *state = viewer_calls::state(viewer, now);
    handle.put(held);
    0
}
