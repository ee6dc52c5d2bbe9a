//! Requests to a game elsewhere are handed out.
ghost use Rattle.std.specs.Prelude.{◌≡◌, ◌≤◌, ◌++◌, drop, length, map};
ghost use Rattle.fazgrond_c.specs.Kinds.{request_out};
ghost use Rattle.fazgrond_c.specs.Made.{AreHanded, AreHandedLast, AreHandedNext};

use crate::kinds::RequestOut;
use crate::live::Live;
use roll_requests::{Closing, Elsewhere, Request};

/// Writes the next requests to the front of a buffer, as many as there is room for, and says how many they are. The last ones of the epoch
/// before come by themselves.
pub fn take(live: &mut Live, out: &mut [RequestOut]) -> usize
    ensures { AreHanded live.old live.new out.old out.new result }
{
    match &mut live.closing {
        Some(closing) if !closing.is_done() => take_last(closing, out),
        _ => take_next(&mut live.session, out),
    }
}

/// Those of the epoch before.
fn take_last(closing: &mut Closing, out: &mut [RequestOut]) -> usize
    ensures { AreHandedLast closing.old closing.new out.old out.new result }
{
    let requests = closing.requests();
    let count = out.len().min(requests.len());
    hand_out(&requests[..count], out);
    closing.hand_out(count);
    count
}

/// Those of the session.
fn take_next(session: &mut Elsewhere, out: &mut [RequestOut]) -> usize
    ensures { AreHandedNext session.old session.new out.old out.new result }
{
    let requests = session.requests();
    let count = out.len().min(requests.len());
    hand_out(&requests[..count], out);
    session.hand_out(count);
    count
}

/// Writes requests to the front of a buffer.
fn hand_out(requests: &[Request], out: &mut [RequestOut])
    requires { length requests.now ≤ length out.old }
    ensures { out.new ≡ map request_out requests.now ++ drop (length requests.now) out.old }
{
    for (place, request) in requests.iter().enumerate() {
        out[place] = RequestOut::of(request);
    }
}
