//! Calls of an open viewer.
ghost use Rattle.std.specs.Prelude.{◌≡◌};
ghost use Rattle.fazgrond_c.specs.Handles.{Fills};
ghost use Rattle.fazgrond_c.specs.Viewers.{viewer_state, IsSeen, IsViewersBye, IsViewersWord, ViewerHearsBytes};

use crate::calls::{NOTHING, TOO_SHORT};
use crate::kinds::RowOut;
use crate::line_kinds::LineState;
use crate::line_refusal::code_of_line;
use crate::peer_calls::write;
use roll_contact::Stage;
use roll_viewer::Viewer;
use roll_wire::DATAGRAM_LIMIT;

/// Hears bytes, and writes how many rows were taken.
pub fn receive(viewer: &mut Viewer, bytes: &[u8], now: u32, rows: &mut u32) -> i32
    ensures { ViewerHearsBytes bytes.now now viewer.old viewer.new rows.old rows.new result }
{
    match viewer.receive(bytes, now) {
        Ok(count) => {
            *rows = count;
            0
        }
        Err(why) => code_of_line(why),
    }
}

/// Writes what is to be sent to the host.
pub fn send(viewer: &mut Viewer, now: u32, out: &mut [u8], size: &mut usize) -> i32
    ensures { Fills (IsViewersWord now) viewer.old viewer.new out.old out.new size.old size.new
        result }
{
    if out.len() < DATAGRAM_LIMIT {
        return TOO_SHORT;
    }
    match viewer.send(now) {
        Some(bytes) => {
            write(out, size, &bytes);
            0
        }
        None => NOTHING,
    }
}

/// Writes what says that this viewer leaves.
pub fn bye(viewer: &mut Viewer, out: &mut [u8], size: &mut usize) -> i32
    ensures { Fills IsViewersBye viewer.old viewer.new out.old out.new size.old size.new result }
{
    if out.len() < DATAGRAM_LIMIT {
        return TOO_SHORT;
    }
    match viewer.bye() {
        Some(bytes) => {
            write(out, size, &bytes);
            0
        }
        None => NOTHING,
    }
}

/// Writes the next row.
pub fn next_row(viewer: &mut Viewer, row: &mut RowOut) -> i32
    ensures { IsSeen viewer.old viewer.new row.old row.new result }
{
    match viewer.next_row() {
        Some(there) => {
            *row = RowOut::of(&there);
            0
        }
        None => NOTHING,
    }
}

/// How far the viewer is.
pub fn state(viewer: &Viewer, now: u32) -> LineState
    ensures { result ≡ viewer_state now viewer.now }
{
    LineState {
        rows: viewer.rows(),
        settled: viewer.settled(),
        silence: viewer.silence(now),
        is_playing: u32::from(matches!(viewer.stage(), Stage::Playing)),
        has_ended: u32::from(viewer.has_ended()),
        is_silent: u32::from(viewer.is_silent(now)),
    }
}
