//! Matches over a network that a session plays, for games in other languages: one handle has both.
ghost use Rattle.std.specs.Prelude.{◌≡◌, ◌≢◌, ◌≤◌, pos, IfErr, IfOk};
ghost use Rattle.roll_relay.specs.declared.held.TheConstants.{TURN_LIMIT};
ghost use Rattle.fazgrond_c.specs.Handles.{session_in, FillsBy, Makes, Writes};
ghost use Rattle.fazgrond_c.specs.Matches.{code_of_unfit, AreListedIn, Does, DoesWriting, GoesNext, IsEpochOf, IsCountedOf, IsGuessedOf, IsHandedOver, IsHeardIn, IsLeft, IsMarkedThere, IsNotedNow, IsOpenedWith, IsMatched, IsOpenedFit, IsPressedNow, IsPutOutNow, IsReadIn, IsRerunOf, IsToldNext, IsWhyNeither, MatchTurns};

use crate::calls::{CLOSED, OTHER_VERSION, open_in};
use crate::epoch_kinds::MarkIn;
use crate::handle::Handle;
use crate::kinds::EntryOut;
use crate::live::Live;
use crate::match_kinds::{StayedOut, TurnOut, UnfitOut};
use crate::match_settings::{Fit, MATCH_SETTINGS_SIZE, MatchSettingsIn, Unfit};
use crate::online::Online;
use crate::open::Open;
use crate::peer_kinds::{EventOut, StatsOut};
use crate::peer_refusal::code_of_opening;
use crate::{match_calls, match_reads, match_turn, match_waiting};
use roll_match::Match;
use std::alloc::Global;

/// The inputs of all players are too long together.
const INPUTS_TOO_LONG: i32 = 332;
/// A setting is out of its range.
const OUT_OF_RANGE: i32 = 333;

/// Opens a session with the match that it plays. If a setting is out of its range, it is written which one.
#[unsafe(no_mangle)]
pub extern "C" fn fazgrond_match_open(
    alloc: Global,
    handle: &mut Handle,
    given: &MatchSettingsIn,
    why: &mut UnfitOut,
) -> i32
    ensures { IsOpenedWith given.now handle.old.hold.value handle.new.hold.value why.new result }
{
    *why = UnfitOut::none();
    if given.size != MATCH_SETTINGS_SIZE {
        return OTHER_VERSION;
    }
    match given.fit() {
        Ok(fit) => open_fit(alloc, handle, fit),
        Err(unfit) => {
            *why = UnfitOut::of(unfit);
            code_of_unfit(unfit)
        }
    }
}

/// The code of a setting that doesn't fit.
fn code_of_unfit(unfit: Unfit) -> i32
    ensures { result ≡ pos (code_of_unfit unfit) }
{
    match unfit {
        Unfit::Inputs(_) => INPUTS_TOO_LONG,
        _ => OUT_OF_RANGE,
    }
}

/// Opens a session, and the match that it plays, with settings that fit.
fn open_fit(alloc: Global, handle: &mut Handle, fit: Fit) -> i32
    requires held { fit.held_turns ≤ TURN_LIMIT }
    requires sized { 1 ≤ fit.input_size }
    requires short { fit.input_size ≤ 16 }
    requires timed { fit.frame_time ≤ 1000000 }
    ensures { IsOpenedFit fit handle.old.hold.value handle.new.hold.value result }
{
    match open_both(alloc, &fit) {
        Ok(live) => open_in(alloc, handle, Open::Session(live)),
        Err(code) => code,
    }
}

/// A session at its start, and the match that it plays.
///
/// # Errors
///
/// The code of why there is no such session, or no such match.
fn open_both(alloc: Global, fit: &Fit) -> Result<Live, i32>
    requires held { fit.now.held_turns ≤ TURN_LIMIT }
    requires sized { 1 ≤ fit.now.input_size }
    requires short { fit.now.input_size ≤ 16 }
    requires timed { fit.now.frame_time ≤ 1000000 }
    ensures both { IfOk result (IsMatched fit.now) }
    ensures refused { IfErr result (IsWhyNeither fit.now) }
{
    let live = match Live::open(alloc, fit.session) {
        Ok(live) => live,
        Err(why) => return Err(why.code()),
    };
    match Match::open(alloc, &live.session, fit.chain, fit.held_turns) {
        Ok(it) => Ok(Live {
            network: Some(Online {
                it,
                input_size: fit.input_size,
                frame_time: fit.frame_time,
            }),
            ..live
        }),
        Err(why) => Err(code_of_opening(&fit.chain.settings(), why)),
    }
}

/// Hears a datagram that came, of this epoch or of the one before, or what another machine carries. If it isn't heard, the answer says why.
#[unsafe(no_mangle)]
pub extern "C" fn fazgrond_match_receive(
    alloc: Global,
    handle: &mut Handle,
    bytes: &[u8],
    now: u32,
) -> i32
    ensures { Makes session_in (Does (IsHeardIn bytes.now now)) handle.old.hold.value handle.new.hold.value result }
{
    let Some(mut held) = handle.take(alloc) else {
        return CLOSED;
    };
    let Open::Session(live) = &mut *held else {
        handle.put(held);
        return CLOSED;
    };
    let code = match_calls::receive(live, bytes, now);
    handle.put(held);
    code
}

/// Takes a turn: what is due in it, the end of an epoch that is over, and a frame, if the match runs and there is an input of each player
/// of this machine. 202, and nothing is changed, if requests are still to be taken.
#[unsafe(no_mangle)]
pub extern "C" fn fazgrond_match_turn(
    alloc: Global,
    handle: &mut Handle,
    inputs: &[u8],
    now: u32,
    turn: &mut TurnOut,
) -> i32
    ensures { Writes session_in (MatchTurns inputs.now now) handle.old.hold.value handle.new.hold.value turn.old turn.new
        result }
{
    let Some(mut held) = handle.take(alloc) else {
        return CLOSED;
    };
    let Open::Session(live) = &mut *held else {
        handle.put(held);
        return CLOSED;
    };
    let code = match_turn::turn(alloc, live, inputs, now, turn);
    handle.put(held);
    code
}

/// The next datagram of this turn, and to which machine it goes. 203 once all have gone out.
#[unsafe(no_mangle)]
pub extern "C" fn fazgrond_match_next(
    alloc: Global,
    handle: &mut Handle,
    machine: &mut u8,
    out: &mut [u8],
    size: &mut usize,
) -> i32
    ensures sent { FillsBy session_in (GoesNext machine.new) handle.old.hold.value handle.new.hold.value
        out.old out.new size.old size.new result }
    ensures unnamed { result ≢ pos 0 → machine.new ≡ machine.old }
{
    let Some(mut held) = handle.take(alloc) else {
        return CLOSED;
    };
    let Open::Session(live) = &mut *held else {
        handle.put(held);
        return CLOSED;
    };
    let code = match_calls::next(live, machine, out, size);
    handle.put(held);
    code
}

/// What happened, the oldest first.
#[unsafe(no_mangle)]
pub extern "C" fn fazgrond_match_event(
    alloc: Global,
    handle: &mut Handle,
    event: &mut EventOut,
) -> i32
    ensures { Writes session_in (DoesWriting IsToldNext) handle.old.hold.value handle.new.hold.value
        event.old event.new result }
{
    let Some(mut held) = handle.take(alloc) else {
        return CLOSED;
    };
    let Open::Session(live) = &mut *held else {
        handle.put(held);
        return CLOSED;
    };
    let code = match_calls::tell(live, event);
    handle.put(held);
    code
}

/// Notes the digest of the session's settled state.
#[unsafe(no_mangle)]
pub extern "C" fn fazgrond_match_note(alloc: Global, handle: &mut Handle, digest: u64) -> i32
    ensures { Makes session_in (Does (IsNotedNow digest)) handle.old.hold.value handle.new.hold.value result }
{
    let Some(mut held) = handle.take(alloc) else {
        return CLOSED;
    };
    let Open::Session(live) = &mut *held else {
        handle.put(held);
        return CLOSED;
    };
    let code = match_calls::note(live, digest);
    handle.put(held);
    code
}

/// This machine leaves: from now on byes go out, which say why.
#[unsafe(no_mangle)]
pub extern "C" fn fazgrond_match_leave(alloc: Global, handle: &mut Handle, why: u8) -> i32
    ensures { Makes session_in (Does (IsLeft why)) handle.old.hold.value handle.new.hold.value result }
{
    let Some(mut held) = handle.take(alloc) else {
        return CLOSED;
    };
    let Open::Session(live) = &mut *held else {
        handle.put(held);
        return CLOSED;
    };
    let code = match_calls::leave(live, why);
    handle.put(held);
    code
}

/// Regards a machine as gone.
#[unsafe(no_mangle)]
pub extern "C" fn fazgrond_match_disconnect(alloc: Global, handle: &mut Handle, machine: u8) -> i32
    ensures { Makes session_in (Does (IsPutOutNow machine)) handle.old.hold.value handle.new.hold.value result }
{
    let Some(mut held) = handle.take(alloc) else {
        return CLOSED;
    };
    let Open::Session(live) = &mut *held else {
        handle.put(held);
        return CLOSED;
    };
    let code = match_calls::disconnect(live, machine);
    handle.put(held);
    code
}

/// Puts a mark on the next input of an own player, unless it would be void. The session gets all inputs that wait first.
#[unsafe(no_mangle)]
pub extern "C" fn fazgrond_match_mark(
    alloc: Global,
    handle: &mut Handle,
    player: u8,
    mark: &MarkIn,
) -> i32
    ensures { Makes session_in (Does (IsMarkedThere player mark.now)) handle.old.hold.value handle.new.hold.value result }
{
    let Some(mut held) = handle.take(alloc) else {
        return CLOSED;
    };
    let Open::Session(live) = &mut *held else {
        handle.put(held);
        return CLOSED;
    };
    let code = match_calls::mark(live, player, mark);
    handle.put(held);
    code
}

/// What was counted and measured of a machine.
#[unsafe(no_mangle)]
pub extern "C" fn fazgrond_match_stats(
    alloc: Global,
    handle: &mut Handle,
    machine: u8,
    stats: &mut StatsOut,
) -> i32
    ensures { IsReadIn (IsCountedOf machine) handle.old.hold.value handle.new.hold.value stats.old stats.new
        result }
{
    let Some(held) = handle.take(alloc) else {
        return CLOSED;
    };
    let Open::Session(live) = &*held else {
        handle.put(held);
        return CLOSED;
    };
    let code = match_reads::stats(live, machine, stats);
    handle.put(held);
    code
}

/// How this epoch opened, and who was in the one before. 203 if the match doesn't go on in epochs.
#[unsafe(no_mangle)]
pub extern "C" fn fazgrond_match_epoch(
    alloc: Global,
    handle: &mut Handle,
    epoch: &mut StayedOut,
) -> i32
    ensures { IsReadIn (IsEpochOf) handle.old.hold.value handle.new.hold.value epoch.old epoch.new
        result }
{
    let Some(held) = handle.take(alloc) else {
        return CLOSED;
    };
    let Open::Session(live) = &*held else {
        handle.put(held);
        return CLOSED;
    };
    let code = match_reads::epoch(live, epoch);
    handle.put(held);
    code
}

/// The words of the inputs that wait, in the order in which they came: fills the buffer, and says how many they are.
#[unsafe(no_mangle)]
pub extern "C" fn fazgrond_match_waiting(
    alloc: Global,
    handle: &mut Handle,
    out: &mut [EntryOut],
) -> usize
    ensures { AreListedIn handle.old.hold.value handle.new.hold.value out.old out.new result }
{
    let Some(held) = handle.take(alloc) else {
        return 0;
    };
    let Open::Session(live) = &*held else {
        handle.put(held);
        return 0;
    };
    let code = match_waiting::list(live, out);
    handle.put(held);
    code
}

/// How many frames the session would run again, if the first so many words that wait were handed over.
#[unsafe(no_mangle)]
pub extern "C" fn fazgrond_match_rerun(
    alloc: Global,
    handle: &mut Handle,
    count: u32,
    frames: &mut u32,
) -> i32
    ensures { IsReadIn (IsRerunOf count) handle.old.hold.value handle.new.hold.value frames.old frames.new
        result }
{
    let Some(held) = handle.take(alloc) else {
        return CLOSED;
    };
    let Open::Session(live) = &*held else {
        handle.put(held);
        return CLOSED;
    };
    let code = match_waiting::rerun(live, count, frames);
    handle.put(held);
    code
}

/// Whether the inputs that wait should be handed over, lest the session stand.
#[unsafe(no_mangle)]
pub extern "C" fn fazgrond_match_is_pressed(
    alloc: Global,
    handle: &mut Handle,
    flag: &mut u32,
) -> i32
    ensures { IsReadIn (IsPressedNow) handle.old.hold.value handle.new.hold.value flag.old flag.new
        result }
{
    let Some(held) = handle.take(alloc) else {
        return CLOSED;
    };
    let Open::Session(live) = &*held else {
        handle.put(held);
        return CLOSED;
    };
    let code = match_waiting::is_pressed(live, flag);
    handle.put(held);
    code
}

/// A guess with all inputs that wait: its job is asked for, and numbered.
#[unsafe(no_mangle)]
pub extern "C" fn fazgrond_match_guess(
    alloc: Global,
    handle: &mut Handle,
    until: u32,
    job: &mut u32,
) -> i32
    ensures { Writes session_in (IsGuessedOf until) handle.old.hold.value handle.new.hold.value job.old job.new
        result }
{
    let Some(mut held) = handle.take(alloc) else {
        return CLOSED;
    };
    let Open::Session(live) = &mut *held else {
        handle.put(held);
        return CLOSED;
    };
    let code = match_waiting::guess(live, until, job);
    handle.put(held);
    code
}

/// Hands over the first so many words that wait, or all if there are fewer.
#[unsafe(no_mangle)]
pub extern "C" fn fazgrond_match_hand_over(alloc: Global, handle: &mut Handle, count: u32) -> i32
    ensures { Makes session_in (Does (IsHandedOver count)) handle.old.hold.value handle.new.hold.value result }
{
    let Some(mut held) = handle.take(alloc) else {
        return CLOSED;
    };
    let Open::Session(live) = &mut *held else {
        handle.put(held);
        return CLOSED;
    };
    let code = match_waiting::hand_over(live, count);
    handle.put(held);
    code
}
