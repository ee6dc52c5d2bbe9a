//! Words that a peer holds back from its session, for games in other languages. A peer does if and only if its match
//! says for how many turns, 1 to 8. To `receive`, `poll` and `send` of such a peer the session is one that has heard
//! all that waits. They, and the calls that hand words over, answer 313 if these words aren't the session's next ones,
//! or why there is no room for them: then nothing is changed.
ghost use Rattle.std.specs.Prelude.{◌≡◌};
ghost use Rattle.fazgrond_c.specs.Handles.{network_in, MakesBeside, ReadsBeside, WritesBeside};
ghost use Rattle.fazgrond_c.specs.Waiting.{AreHandedDue, AreHandedFirst, AreListedBy, IsForetold, IsPressed, IsRerun};

use crate::calls::CLOSED;
use crate::handle::Handle;
use crate::kinds::EntryOut;
use crate::open::Open;
use crate::waiting_calls;
use std::alloc::Global;

/// The words that wait, in the order in which they came: fills the buffer, and says how many they are.
#[unsafe(no_mangle)]
pub extern "C" fn fazgrond_peer_waiting(
    alloc: Global,
    handle: &mut Handle,
    out: &mut [EntryOut],
) -> usize
    ensures { AreListedBy handle.old.hold.value handle.new.hold.value out.old out.new result }
{
    let Some(held) = handle.take(alloc) else {
        return 0;
    };
    let Open::Peer(network) = &*held else {
        handle.put(held);
        return 0;
    };
    let count = waiting_calls::list(network, out);
    handle.put(held);
    count
}

/// How many frames the session would run again, if the first so many words that wait were handed over.
#[unsafe(no_mangle)]
pub extern "C" fn fazgrond_peer_rerun(
    alloc: Global,
    handle: &mut Handle,
    session: &mut Handle,
    count: u32,
    frames: &mut u32,
) -> i32
    ensures { ReadsBeside network_in (IsRerun count) handle.old.hold.value handle.new.hold.value
        session.old.hold.value session.new.hold.value frames.old frames.new result }
{
    let Some(held) = handle.take(alloc) else {
        return CLOSED;
    };
    let Some(lent) = session.take(alloc) else {
        handle.put(held);
        return CLOSED;
    };
    let Open::Peer(network) = &*held else {
        session.put(lent);
        handle.put(held);
        return CLOSED;
    };
    let Open::Session(live) = &*lent else {
        session.put(lent);
        handle.put(held);
        return CLOSED;
    };
    let code = waiting_calls::rerun(network, live, count, frames);
    session.put(lent);
    handle.put(held);
    code
}

/// Whether the words that wait should be handed over, lest the session stand.
#[unsafe(no_mangle)]
pub extern "C" fn fazgrond_peer_is_pressed(
    alloc: Global,
    handle: &mut Handle,
    session: &mut Handle,
    flag: &mut u32,
) -> i32
    ensures { ReadsBeside network_in IsPressed handle.old.hold.value handle.new.hold.value
        session.old.hold.value session.new.hold.value flag.old flag.new result }
{
    let Some(held) = handle.take(alloc) else {
        return CLOSED;
    };
    let Some(lent) = session.take(alloc) else {
        handle.put(held);
        return CLOSED;
    };
    let Open::Peer(network) = &*held else {
        session.put(lent);
        handle.put(held);
        return CLOSED;
    };
    let Open::Session(live) = &*lent else {
        session.put(lent);
        handle.put(held);
        return CLOSED;
    };
    let code = waiting_calls::is_pressed(network, live, flag);
    session.put(lent);
    handle.put(held);
    code
}

/// A guess with all words that wait: its job is asked for, and numbered.
#[unsafe(no_mangle)]
pub extern "C" fn fazgrond_peer_guess(
    alloc: Global,
    handle: &mut Handle,
    session: &mut Handle,
    until: u32,
    job: &mut u32,
) -> i32
    ensures { WritesBeside network_in (IsForetold until) handle.old.hold.value handle.new.hold.value
        session.old.hold.value session.new.hold.value job.old job.new result }
{
    let Some(held) = handle.take(alloc) else {
        return CLOSED;
    };
    let Some(mut lent) = session.take(alloc) else {
        handle.put(held);
        return CLOSED;
    };
    let Open::Peer(network) = &*held else {
        session.put(lent);
        handle.put(held);
        return CLOSED;
    };
    let Open::Session(live) = &mut *lent else {
        session.put(lent);
        handle.put(held);
        return CLOSED;
    };
    let code = waiting_calls::guess(network, live, until, job);
    session.put(lent);
    handle.put(held);
    code
}

/// Hands over the first so many words that wait, or all if there are fewer.
#[unsafe(no_mangle)]
pub extern "C" fn fazgrond_peer_hand_over(
    alloc: Global,
    handle: &mut Handle,
    session: &mut Handle,
    count: u32,
) -> i32
    ensures { MakesBeside network_in (AreHandedFirst count) handle.old.hold.value
        handle.new.hold.value session.old.hold.value session.new.hold.value result }
{
    let Some(mut held) = handle.take(alloc) else {
        return CLOSED;
    };
    let Some(mut lent) = session.take(alloc) else {
        handle.put(held);
        return CLOSED;
    };
    let Open::Peer(network) = &mut *held else {
        session.put(lent);
        handle.put(held);
        return CLOSED;
    };
    let Open::Session(live) = &mut *lent else {
        session.put(lent);
        handle.put(held);
        return CLOSED;
    };
    let code = waiting_calls::hand_over(network, live, count);
    session.put(lent);
    handle.put(held);
    code
}

/// A turn is over: hands over the words that have waited for as many turns as they may, and says how many they were.
#[unsafe(no_mangle)]
pub extern "C" fn fazgrond_peer_hand_over_due(
    alloc: Global,
    handle: &mut Handle,
    session: &mut Handle,
    handed: &mut u32,
) -> i32
    ensures { WritesBeside network_in AreHandedDue handle.old.hold.value handle.new.hold.value
        session.old.hold.value session.new.hold.value handed.old handed.new result }
{
    let Some(mut held) = handle.take(alloc) else {
        return CLOSED;
    };
    let Some(mut lent) = session.take(alloc) else {
        handle.put(held);
        return CLOSED;
    };
    let Open::Peer(network) = &mut *held else {
        session.put(lent);
        handle.put(held);
        return CLOSED;
    };
    let Open::Session(live) = &mut *lent else {
        session.put(lent);
        handle.put(held);
        return CLOSED;
    };
    let code = waiting_calls::hand_over_due(network, live, handed);
    session.put(lent);
    handle.put(held);
    code
}
