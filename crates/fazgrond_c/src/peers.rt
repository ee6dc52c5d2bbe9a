//! Peers for games in other languages. The session stands beside its peer, under a handle of its own.
ghost use Rattle.std.specs.Prelude.{◌≡◌, ◌≢◌, pos, false, true, if◌then◌else◌};
ghost use Rattle.fazgrond_c.specs.Handles.{network_in, peer_in, FillsBeside, FillsBy, Makes, MakesBeside, MakesFor, Reads, ReadsOr, Writes};
ghost use Rattle.fazgrond_c.specs.Peers.{stats_at, IsFarewell, IsNotedFor, IsOpenedBy, IsPolledFor, IsPutOutBy, IsReceivedIn, IsSentMore, IsSentTo, IsToldBy, OpensBeside};

use crate::calls::{CLOSED, OTHER_VERSION, open_in};
use crate::handle::Handle;
use crate::live::Live;
use crate::network::Network;
use crate::open::Open;
use crate::peer_calls;
use crate::peer_kinds::{EventOut, MATCH_SIZE, MatchIn, StatsOut};
use crate::peer_refusal::code_of_opening;
use roll_frame::Refusal;
use roll_peer::Peer;
use roll_relay::Relay;
use std::alloc::Global;

/// There is no such machine in the match.
const INVALID_MACHINE: i32 = 303;

/// Opens a peer beside a session, which is only read.
#[unsafe(no_mangle)]
pub extern "C" fn fazgrond_peer_open(
    alloc: Global,
    handle: &mut Handle,
    session: &mut Handle,
    given: &MatchIn,
) -> i32
    ensures opened { IsOpenedBy given.now false session.old.hold.value handle.old.hold.value
        handle.new.hold.value result }
    ensures session { session.new.hold.value ≡ session.old.hold.value }
{
    open(alloc, handle, session, given, false)
}

/// Opens a peer that carries for the others, and is carried for, beside a session, which is only read.
#[unsafe(no_mangle)]
pub extern "C" fn fazgrond_peer_open_carrying(
    alloc: Global,
    handle: &mut Handle,
    session: &mut Handle,
    given: &MatchIn,
) -> i32
    ensures opened { IsOpenedBy given.now true session.old.hold.value handle.old.hold.value
        handle.new.hold.value result }
    ensures session { session.new.hold.value ≡ session.old.hold.value }
{
    open(alloc, handle, session, given, true)
}

/// Opens a peer beside what a handle has open.
fn open(
    alloc: Global,
    handle: &mut Handle,
    session: &mut Handle,
    given: &MatchIn,
    carries: bool,
) -> i32
    ensures opened { IsOpenedBy given.now carries session.old.hold.value handle.old.hold.value
        handle.new.hold.value result }
    ensures session { session.new.hold.value ≡ session.old.hold.value }
{
    let Some(lent) = session.take(alloc) else {
        return CLOSED;
    };
    let Open::Session(live) = &*lent else {
        session.put(lent);
        return CLOSED;
    };
    let code = open_beside(alloc, handle, live, given, carries);
    session.put(lent);
    code
}

/// Opens a peer beside an open session.
fn open_beside(
    alloc: Global,
    handle: &mut Handle,
    live: &Live,
    given: &MatchIn,
    carries: bool,
) -> i32
    ensures { OpensBeside given.now carries live.now.session.seen handle.old.hold.value
        handle.new.hold.value result }
{
    if given.size != MATCH_SIZE {
        return OTHER_VERSION;
    }
    let Some(settings) = given.settings(carries) else {
        return Refusal::InvalidRequest.code();
    };
    let peer = match Peer::open(alloc, &live.session, settings) {
        Ok(peer) => peer,
        Err(why) => return code_of_opening(&settings, why),
    };
    let Ok(relay) = Relay::open(alloc, &peer) else {
        return Refusal::NoMemory.code();
    };
    open_in(
        alloc,
        handle,
        Open::Peer(Network::new(peer, given.held_turns, relay, None)),
    )
}

/// Hears a datagram that came: words that it holds become words of the session, or wait if the peer holds them back. If
/// it is ignored, the answer says why, and the session stays as it is.
#[unsafe(no_mangle)]
pub extern "C" fn fazgrond_peer_receive(
    alloc: Global,
    handle: &mut Handle,
    session: &mut Handle,
    bytes: &[u8],
    now: u32,
) -> i32
    ensures { MakesBeside network_in (IsReceivedIn bytes.now now) handle.old.hold.value
        handle.new.hold.value session.old.hold.value session.new.hold.value result }
{
    let Some(mut held) = handle.take(alloc) else {
        return CLOSED;
    };
    let Some(mut lent) = session.take(alloc) else {
        handle.put(held);
        return CLOSED;
    };
    let Open::Peer(network) = &mut *held else {
        session.put(lent);
        handle.put(held);
        return CLOSED;
    };
    let Open::Session(live) = &mut *lent else {
        session.put(lent);
        handle.put(held);
        return CLOSED;
    };
    let code = peer_calls::receive(network, live, bytes, now);
    session.put(lent);
    handle.put(held);
    code
}

/// What a turn does before it plays: machines that are silent or hold up the match are gone, players leave the session,
/// the match begins. 313 if the session isn't this match's; else an answer that isn't 0 says why a player who is to
/// leave is still there.
#[unsafe(no_mangle)]
pub extern "C" fn fazgrond_peer_poll(
    alloc: Global,
    handle: &mut Handle,
    session: &mut Handle,
    now: u32,
) -> i32
    ensures { MakesBeside network_in (IsPolledFor now) handle.old.hold.value handle.new.hold.value
        session.old.hold.value session.new.hold.value result }
{
    let Some(mut held) = handle.take(alloc) else {
        return CLOSED;
    };
    let Some(mut lent) = session.take(alloc) else {
        handle.put(held);
        return CLOSED;
    };
    let Open::Peer(network) = &mut *held else {
        session.put(lent);
        handle.put(held);
        return CLOSED;
    };
    let Open::Session(live) = &mut *lent else {
        session.put(lent);
        handle.put(held);
        return CLOSED;
    };
    let code = peer_calls::poll(network, live, now);
    session.put(lent);
    handle.put(held);
    code
}

/// Whether the match has begun. Before that the session gets no words.
#[unsafe(no_mangle)]
pub extern "C" fn fazgrond_peer_is_running(
    alloc: Global,
    handle: &mut Handle,
    flag: &mut u32,
) -> i32
    ensures { Reads peer_in (λ peer. if peer.running then 1 else 0) handle.old.hold.value
        handle.new.hold.value flag.old flag.new result }
{
    let Some(held) = handle.take(alloc) else {
        return CLOSED;
    };
    let Open::Peer(network) = &*held else {
        handle.put(held);
        return CLOSED;
    };
    *flag = u32::from(network.peer.is_running());
    handle.put(held);
    0
}

/// What to send to a machine: words of the session that it lacks. 203 if nothing goes to it straight at once; 313 if
/// the session isn't this match's.
#[unsafe(no_mangle)]
pub extern "C" fn fazgrond_peer_send(
    alloc: Global,
    handle: &mut Handle,
    session: &mut Handle,
    machine: u8,
    now: u32,
    out: &mut [u8],
    size: &mut usize,
) -> i32
    ensures { FillsBeside network_in (IsSentTo machine now) handle.old.hold.value
        handle.new.hold.value session.old.hold.value session.new.hold.value out.old out.new size.old
        size.new result }
{
    let Some(mut held) = handle.take(alloc) else {
        return CLOSED;
    };
    let Some(mut lent) = session.take(alloc) else {
        handle.put(held);
        return CLOSED;
    };
    let Open::Peer(network) = &mut *held else {
        session.put(lent);
        handle.put(held);
        return CLOSED;
    };
    let Open::Session(live) = &mut *lent else {
        session.put(lent);
        handle.put(held);
        return CLOSED;
    };
    let code = peer_calls::send(network, live, machine, now, out, size);
    session.put(lent);
    handle.put(held);
    code
}

/// What goes out beside that in this turn, and to which machine.
#[unsafe(no_mangle)]
pub extern "C" fn fazgrond_peer_send_more(
    alloc: Global,
    handle: &mut Handle,
    machine: &mut u8,
    out: &mut [u8],
    size: &mut usize,
) -> i32
    ensures sent { FillsBy network_in (IsSentMore machine.new) handle.old.hold.value
        handle.new.hold.value out.old out.new size.old size.new result }
    ensures unnamed { result ≢ pos 0 → machine.new ≡ machine.old }
{
    let Some(mut held) = handle.take(alloc) else {
        return CLOSED;
    };
    let Open::Peer(network) = &mut *held else {
        handle.put(held);
        return CLOSED;
    };
    let code = peer_calls::send_more(network, machine, out, size);
    handle.put(held);
    code
}

/// Notes the digest of the session's settled state.
#[unsafe(no_mangle)]
pub extern "C" fn fazgrond_peer_note_settled(
    alloc: Global,
    handle: &mut Handle,
    session: &mut Handle,
    digest: u64,
) -> i32
    ensures noted { MakesFor network_in (λ live. IsNotedFor digest live.session.seen)
        session.old.hold.value handle.old.hold.value handle.new.hold.value result }
    ensures session { session.new.hold.value ≡ session.old.hold.value }
{
    let Some(lent) = session.take(alloc) else {
        return CLOSED;
    };
    let Open::Session(live) = &*lent else {
        session.put(lent);
        return CLOSED;
    };
    let code = note_settled(alloc, handle, live, digest);
    session.put(lent);
    code
}

/// Notes the digest of an open session's settled state.
fn note_settled(alloc: Global, handle: &mut Handle, live: &Live, digest: u64) -> i32
    ensures { Makes network_in (IsNotedFor digest live.now.session.seen) handle.old.hold.value
        handle.new.hold.value result }
{
    let Some(mut held) = handle.take(alloc) else {
        return CLOSED;
    };
    let Open::Peer(network) = &mut *held else {
        handle.put(held);
        return CLOSED;
    };
    let code = peer_calls::note_settled(network, live, digest);
    handle.put(held);
    code
}

/// What says to a machine that this one leaves, and why.
#[unsafe(no_mangle)]
pub extern "C" fn fazgrond_peer_bye(
    alloc: Global,
    handle: &mut Handle,
    machine: u8,
    why: u8,
    out: &mut [u8],
    size: &mut usize,
) -> i32
    ensures { FillsBy network_in (IsFarewell machine why) handle.old.hold.value
        handle.new.hold.value out.old out.new size.old size.new result }
{
    let Some(mut held) = handle.take(alloc) else {
        return CLOSED;
    };
    let Open::Peer(network) = &mut *held else {
        handle.put(held);
        return CLOSED;
    };
    let code = peer_calls::bye(network, machine, why, out, size);
    handle.put(held);
    code
}

/// Regards a machine as gone.
#[unsafe(no_mangle)]
pub extern "C" fn fazgrond_peer_disconnect(alloc: Global, handle: &mut Handle, machine: u8) -> i32
    ensures { Makes network_in (IsPutOutBy machine) handle.old.hold.value handle.new.hold.value
        result }
{
    let Some(mut held) = handle.take(alloc) else {
        return CLOSED;
    };
    let Open::Peer(network) = &mut *held else {
        handle.put(held);
        return CLOSED;
    };
    let code = peer_calls::disconnect(network, machine);
    handle.put(held);
    code
}

/// What happened, the oldest first.
#[unsafe(no_mangle)]
pub extern "C" fn fazgrond_peer_event(
    alloc: Global,
    handle: &mut Handle,
    event: &mut EventOut,
) -> i32
    ensures { Writes network_in IsToldBy handle.old.hold.value handle.new.hold.value event.old
        event.new result }
{
    let Some(mut held) = handle.take(alloc) else {
        return CLOSED;
    };
    let Open::Peer(network) = &mut *held else {
        handle.put(held);
        return CLOSED;
    };
    let code = peer_calls::tell(network, event);
    handle.put(held);
    code
}

/// What was counted and measured of a machine.
#[unsafe(no_mangle)]
pub extern "C" fn fazgrond_peer_stats(
    alloc: Global,
    handle: &mut Handle,
    machine: u8,
    stats: &mut StatsOut,
) -> i32
    ensures { ReadsOr peer_in 303 (stats_at machine) handle.old.hold.value handle.new.hold.value
        stats.old stats.new result }
{
    let Some(held) = handle.take(alloc) else {
        return CLOSED;
    };
    let Open::Peer(network) = &*held else {
        handle.put(held);
        return CLOSED;
    };
    let there = peer_calls::stats(&network.peer, machine);
    handle.put(held);
    match there {
        Some(there) => {
            *stats = there;
            0
        }
        None => INVALID_MACHINE,
    }
}
