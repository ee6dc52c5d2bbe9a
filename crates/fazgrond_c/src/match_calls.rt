//! Calls of the match that an open session plays.
ghost use Rattle.std.specs.Prelude.{◌≡◌, ◌≢◌, ◌≤◌, pos};
ghost use Rattle.fazgrond_c.specs.Handles.{Fills};
ghost use Rattle.fazgrond_c.specs.Matches.{code_of_hearing, code_of_marking, code_of_unheard, code_of_unmarked, first_word, of_words, Does, DoesWriting, GoesNext, IsHeardIn, IsLeft, IsMarkedNow, IsMarkedThere, IsNextOut, IsNotedNow, IsPutOutNow, IsToldNext};

use crate::calls::{CLOSED, NOTHING, OTHER_VERSION, TOO_SHORT};
use crate::epoch_kinds::{MARK_SIZE, MarkIn};
use crate::live::Live;
use crate::match_settings::spread;
use crate::online::Online;
use crate::peer_calls::write;
use crate::peer_kinds::EventOut;
use crate::peer_refusal::{
    code_of_fault, code_of_ignored, code_of_mark, code_of_mark_fault, code_of_mesh,
};
use roll_frame::Refusal;
use roll_match::{Unheard, Unmarked};
use roll_mesh::PLAYER_LIMIT;
use roll_requests::Elsewhere;
use roll_wire::DATAGRAM_LIMIT;

/// Hears bytes.
pub fn receive(live: &mut Live, bytes: &[u8], now: u32) -> i32
    ensures { Does (IsHeardIn bytes.now now) live.old live.new result }
{
    let Live {
        session,
        network,
        ..
    } = live;
    match network {
        Some(online) => code_of_hearing(online.it.receive(session, bytes, now)),
        None => CLOSED,
    }
}

/// The code of whether bytes were heard.
fn code_of_hearing(said: Result<(), Unheard>) -> i32
    ensures { result ≡ code_of_hearing said }
{
    match said {
        Ok(()) => 0,
        Err(Unheard::Ignored(why)) => code_of_ignored(why),
        Err(Unheard::Held(why)) => code_of_fault(why),
    }
}

/// Writes the next datagram of this turn, and to which machine it goes.
pub fn next(live: &mut Live, machine: &mut u8, out: &mut [u8], size: &mut usize) -> i32
    ensures sent { Fills (GoesNext machine.new) live.old live.new out.old out.new size.old size.new
        result }
    ensures unnamed { result ≢ pos 0 → machine.new ≡ machine.old }
{
    if out.len() < DATAGRAM_LIMIT {
        return TOO_SHORT;
    }
    let Live {
        session,
        network,
        ..
    } = live;
    let Some(online) = network else {
        return CLOSED;
    };
    match online.it.next(session) {
        Some((to, bytes)) => {
            *machine = to;
            write(out, size, &bytes);
            0
        }
        None => NOTHING,
    }
}

/// Tells the next event.
pub fn tell(live: &mut Live, event: &mut EventOut) -> i32
    ensures { DoesWriting IsToldNext live.old live.new event.old event.new result }
{
    let Some(online) = &mut live.network else {
        return CLOSED;
    };
    match online.it.event() {
        Some(next) => {
            *event = EventOut::of(&next);
            0
        }
        None => NOTHING,
    }
}

/// This machine leaves.
pub fn leave(live: &mut Live, why: u8) -> i32
    ensures { Does (IsLeft why) live.old live.new result }
{
    match &mut live.network {
        Some(online) => {
            online.it.leave(why);
            0
        }
        None => CLOSED,
    }
}

/// Regards a machine as gone.
pub fn disconnect(live: &mut Live, machine: u8) -> i32
    ensures { Does (IsPutOutNow machine) live.old live.new result }
{
    let Some(online) = &mut live.network else {
        return CLOSED;
    };
    match online.it.disconnect(machine) {
        Ok(()) => 0,
        Err(why) => code_of_mesh(why),
    }
}

/// Notes the digest of the settled state.
pub fn note(live: &mut Live, digest: u64) -> i32
    ensures { Does (IsNotedNow digest) live.old live.new result }
{
    let Live {
        session,
        network,
        ..
    } = live;
    match network {
        Some(online) => {
            online.it.note(session, digest);
            0
        }
        None => CLOSED,
    }
}

/// Puts a mark on a player's next input, unless it would be void.
pub fn mark(live: &mut Live, player: u8, given: &MarkIn) -> i32
    ensures { Does (IsMarkedThere player given.now) live.old live.new result }
{
    let Live {
        session,
        network,
        ..
    } = live;
    match network {
        Some(online) => mark_in(online, session, player, given),
        None => CLOSED,
    }
}

fn mark_in(online: &mut Online, session: &mut Elsewhere, player: u8, given: &MarkIn) -> i32
    ensures { IsMarkedThere player given.now session.old session.new online.old online.new result }
{
    if given.size != MARK_SIZE {
        return OTHER_VERSION;
    }
    let words = online.words();
    let Some(mark) = of_words(given, words).mark() else {
        return Refusal::InvalidRequest.code();
    };
    let word = first_word(player, words);
    code_of_marking(online.it.mark(session, word, mark))
}

/// What says the same of each word of an input as this of a player.
fn of_words(given: &MarkIn, words: u8) -> MarkIn
    requires { 1 ≤ words }
    ensures { result ≡ of_words words given.now }
{
    MarkIn {
        size: given.size,
        threshold: given.threshold,
        ticket: given.ticket,
        comes: spread(&given.comes, words),
        delays: spread(&given.delays, words),
    }
}

/// Which word of a row is the first of a player's input.
fn first_word(player: u8, words: u8) -> u8
    requires { words ≤ 4 }
    ensures { result ≡ first_word words player }
{
    if player == 0 || usize::from(player) > PLAYER_LIMIT {
        0
    } else {
        (player - 1) * words + 1
    }
}

/// The code of whether a mark was put.
fn code_of_marking(said: Result<u32, Unmarked>) -> i32
    ensures { result ≡ code_of_marking said }
{
    match said {
        Ok(_) => 0,
        Err(Unmarked::Void(why)) => code_of_mark_fault(why),
        Err(Unmarked::Refused(why)) => code_of_mark(why),
        Err(Unmarked::Held(why)) => code_of_fault(why),
    }
}
