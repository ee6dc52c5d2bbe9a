//! Calls of an open line at its host.
ghost use Rattle.std.specs.Prelude.{◌≡◌};
ghost use Rattle.fazgrond_c.specs.Handles.{Fills};
ghost use Rattle.fazgrond_c.specs.Lines.{host_state, HostHearsBytes, IsHostsBye, IsTelling, IsTellingBefore};

use crate::calls::{NOTHING, TOO_SHORT};
use crate::line_kinds::LineState;
use crate::line_refusal::code_of_line;
use crate::network::Network;
use crate::peer_calls::write;
use roll_contact::Stage;
use roll_session::Settling;
use roll_viewer::ViewerLine;
use roll_wire::DATAGRAM_LIMIT;

/// Hears bytes.
pub fn receive(line: &mut ViewerLine, bytes: &[u8], now: u32) -> i32
    ensures { HostHearsBytes bytes.now now line.old line.new result }
{
    match line.receive(bytes, now) {
        Ok(()) => 0,
        Err(why) => code_of_line(why),
    }
}

/// Writes what is to be sent to the viewer of a session.
pub fn send<S: Settling>(
    line: &mut ViewerLine,
    session: &S,
    now: u32,
    out: &mut [u8],
    size: &mut usize,
) -> i32
    ensures { Fills (IsTelling (S.seen session.now).core now) line.old line.new out.old out.new
        size.old size.new result }
{
    if out.len() < DATAGRAM_LIMIT {
        return TOO_SHORT;
    }
    match line.send(session, now) {
        Some(bytes) => {
            write(out, size, &bytes);
            0
        }
        None => NOTHING,
    }
}

/// Writes what is to be sent to the viewer of the epoch before.
pub fn send_before(
    line: &mut ViewerLine,
    network: &Network,
    now: u32,
    out: &mut [u8],
    size: &mut usize,
) -> i32
    ensures { Fills (IsTellingBefore network.now now) line.old line.new out.old out.new size.old
        size.new result }
{
    if out.len() < DATAGRAM_LIMIT {
        return TOO_SHORT;
    }
    let Some(epochs) = &network.epochs else {
        return NOTHING;
    };
    match &epochs.past {
        Some(past) => send(line, &past.session, now, out, size),
        None => NOTHING,
    }
}

/// Writes what says that this machine leaves the viewer.
pub fn bye(line: &mut ViewerLine, out: &mut [u8], size: &mut usize) -> i32
    ensures { Fills IsHostsBye line.old line.new out.old out.new size.old size.new result }
{
    if out.len() < DATAGRAM_LIMIT {
        return TOO_SHORT;
    }
    match line.bye() {
        Some(bytes) => {
            write(out, size, &bytes);
            0
        }
        None => NOTHING,
    }
}

/// How far the two ends are.
pub fn state(line: &ViewerLine, now: u32) -> LineState
    ensures { result ≡ host_state now line.now }
{
    LineState {
        rows: line.had(),
        settled: line.told(),
        silence: line.silence(now),
        is_playing: u32::from(matches!(line.stage(), Stage::Playing)),
        has_ended: u32::from(line.has_ended()),
        is_silent: u32::from(line.is_silent(now)),
    }
}
