//! Matches that go on in epochs, for games in other languages.
ghost use Rattle.std.specs.Prelude.{◌≡◌, ◌≢◌, ◌<◌, pos, true, None, IfErr, IfOk, OnOk};
ghost use Rattle.roll_chain.specs.Chains.{settings_of};
ghost use Rattle.roll_chain.specs.Comers.{ticket_for};
ghost use Rattle.roll_member.specs.Joined.{join_refusal};
ghost use Rattle.roll_peer.specs.Peered.{IsWhyNot};
ghost use Rattle.roll_peer.specs.Settings.{has_numbers, seat_of};
ghost use Rattle.roll_mesh.specs.declared.limits.TheConstants.{PLAYER_LIMIT};
ghost use Rattle.fazgrond_c.specs.Handles.{network_in, FillsBy, Makes, MakesBeside, ReadsSome, Writes, WritesBeside};
ghost use Rattle.fazgrond_c.specs.Epochs.{epoch_in, stayed_in, GoesOnBeside, IsMarkedIn, IsSentBefore};
ghost use Rattle.fazgrond_c.specs.PeerKinds.{code_of_opening};
ghost use Rattle.fazgrond_c.specs.Lasting.{are_delayed, chain_in, is_delayed, is_played, IsOpenedLasting, IsOpenedWithout, OpensLasting};

use crate::calls::{CLOSED, NOTHING, OTHER_VERSION, open_in};
use crate::epoch_calls;
use crate::epoch_kinds::{EPOCH_SIZE, EpochIn, MarkIn};
use crate::handle::Handle;
use crate::live::Live;
use crate::network::Network;
use crate::open::Open;
use crate::peer_kinds::{MATCH_SIZE, MatchIn};
use crate::peer_refusal::{UNLIKE_DELAYS, code_of_opening};
use roll_chain::{Chain, Epochs, ticket_for};
use roll_epoch::Terms;
use roll_frame::{Refusal, Settings};
use roll_mesh::PLAYER_LIMIT;
use roll_peer::{MatchSettings, OpenRefusal, Peer};
use roll_relay::Relay;
use roll_session::{Core, Networked};
use std::alloc::Global;

/// Opens a peer whose match goes on in epochs beside a session, which is only read. Machines that own no player in the
/// epoch are gone from the start. 11 also if the session hasn't the epoch's threshold and its own players' delays.
#[unsafe(no_mangle)]
pub extern "C" fn fazgrond_peer_open_lasting(
    alloc: Global,
    handle: &mut Handle,
    session: &mut Handle,
    given: &MatchIn,
    epoch: &EpochIn,
) -> i32
    ensures opened { IsOpenedLasting given.now epoch.now session.old.hold.value
        handle.old.hold.value handle.new.hold.value result }
    ensures session { session.new.hold.value ≡ session.old.hold.value }
{
    let Some(lent) = session.take(alloc) else {
        return CLOSED;
    };
    let Open::Session(live) = &*lent else {
        session.put(lent);
        return CLOSED;
    };
    let code = open_beside(alloc, handle, live, given, epoch);
    session.put(lent);
    code
}

/// Opens it beside an open session.
fn open_beside(
    alloc: Global,
    handle: &mut Handle,
    live: &Live,
    given: &MatchIn,
    epoch: &EpochIn,
) -> i32
    ensures { OpensLasting given.now epoch.now live.now.session.seen handle.old.hold.value
        handle.new.hold.value result }
{
    if given.size != MATCH_SIZE || epoch.size != EPOCH_SIZE {
        return OTHER_VERSION;
    }
    let (Some(base), Some(terms)) = (given.settings(true), epoch.terms()) else {
        return Refusal::InvalidRequest.code();
    };
    if !terms.are_even() {
        return UNLIKE_DELAYS;
    }
    if !is_played(&terms, live.session.settings(), base.me) {
        return Refusal::InvalidRequest.code();
    }
    let (peer, epochs) = match open_epochs(alloc, live, base, terms, given.comers) {
        Ok(opened) => opened,
        Err(why) => return code_beside(live, base, terms, given.comers, why),
    };
    let Ok(relay) = Relay::open(alloc, &peer) else {
        return Refusal::NoMemory.code();
    };
    open_in(
        alloc,
        handle,
        Open::Peer(Network::new(peer, given.held_turns, relay, Some(epochs))),
    )
}

/// How a match goes on from an epoch beside a session.
fn chain_beside(live: &Live, base: MatchSettings, terms: Terms, comers: u64) -> Chain
    ensures { result ≡ chain_in base terms comers live.now.session.seen }
{
    Chain::new(base, live.session.settings().profile, terms, comers)
}

/// The number of why its network isn't opened.
fn code_beside(live: &Live, base: MatchSettings, terms: Terms, comers: u64, why: OpenRefusal) -> i32
    ensures { result ≡ pos
        (code_of_opening (settings_of (chain_in base terms comers live.now.session.seen)) why) }
{
    let chain = chain_beside(live, base, terms, comers);
    code_of_opening(&chain.settings(), why)
}

/// The network of an epoch beside a session, and how its match goes on.
fn open_epochs(
    alloc: Global,
    live: &Live,
    base: MatchSettings,
    terms: Terms,
    comers: u64,
) -> Result<(Peer, Epochs<Core<u32>>), OpenRefusal>
    ensures opened { IfOk result
        (λ it. IsOpenedWithout (chain_in base terms comers live.now.session.seen)
        live.now.session.seen it.0) }
    ensures epochs { IfOk result (λ it. it.1 ≡ record {
      chain = chain_in base terms comers live.now.session.seen;
      past = None;
    }) }
    ensures accepted { OnOk result (join_refusal live.now.session.seen
        (seat_of (settings_of (chain_in base terms comers live.now.session.seen))) ≡ None) }
    ensures drawn { OnOk result (base.draw ≢ 0) }
    ensures numbered { OnOk result
        (has_numbers (settings_of (chain_in base terms comers live.now.session.seen)) ≡ true) }
    ensures refused { IfErr result
        (IsWhyNot live.now.session.seen
        (settings_of (chain_in base terms comers live.now.session.seen))) }
{
    let chain = chain_beside(live, base, terms, comers);
    match Peer::open(alloc, &live.session, chain.settings()) {
        Ok(mut peer) => {
            chain.leave_out(&mut peer);
            Ok((peer, Epochs::new(chain)))
        }
        Err(why) => Err(why),
    }
}

/// Whether a session of a machine has the threshold of an epoch, and its own players' delays.
fn is_played(terms: &Terms, settings: &Settings, me: u8) -> bool
    ensures { result ≡ is_played terms.now settings.now me }
{
    u32::from(terms.threshold) == settings.threshold && are_delayed(terms, settings, me)
}

/// Whether it has its own players' delays.
fn are_delayed(terms: &Terms, settings: &Settings, me: u8) -> bool
    ensures { result ≡ are_delayed terms.now settings.now me }
{
    for player in 0..PLAYER_LIMIT {
        if !is_delayed(terms, settings, me, player) {
            return false;
        }
    }
    true
}

/// Whether a player is another machine's, or has the epoch's delay.
fn is_delayed(terms: &Terms, settings: &Settings, me: u8, player: usize) -> bool
    requires { player < PLAYER_LIMIT }
    ensures { result ≡ is_delayed terms.now settings.now me player }
{
    terms.owners[player] != me || u32::from(terms.delays[player]) == settings.delays[player]
}

/// How this epoch opened.
#[unsafe(no_mangle)]
pub extern "C" fn fazgrond_peer_epoch(
    alloc: Global,
    handle: &mut Handle,
    epoch: &mut EpochIn,
) -> i32
    ensures { ReadsSome network_in epoch_in handle.old.hold.value handle.new.hold.value
        epoch.old epoch.new result }
{
    let Some(held) = handle.take(alloc) else {
        return CLOSED;
    };
    let Open::Peer(network) = &*held else {
        handle.put(held);
        return CLOSED;
    };
    let there = epoch_calls::epoch(network);
    handle.put(held);
    match there {
        Some(there) => {
            *epoch = there;
            0
        }
        None => NOTHING,
    }
}

/// Whether a machine is in this epoch and was in the one before.
#[unsafe(no_mangle)]
pub extern "C" fn fazgrond_peer_has_stayed(
    alloc: Global,
    handle: &mut Handle,
    machine: u8,
    flag: &mut u32,
) -> i32
    ensures { ReadsSome network_in (stayed_in machine) handle.old.hold.value handle.new.hold.value
        flag.old flag.new result }
{
    let Some(held) = handle.take(alloc) else {
        return CLOSED;
    };
    let Open::Peer(network) = &*held else {
        handle.put(held);
        return CLOSED;
    };
    let there = epoch_calls::has_stayed(network, machine);
    handle.put(held);
    match there {
        Some(there) => {
            *flag = there;
            0
        }
        None => NOTHING,
    }
}

/// Puts a mark on the next word of an own player, unless it would be void. All words that wait are handed over before.
#[unsafe(no_mangle)]
pub extern "C" fn fazgrond_peer_mark(
    alloc: Global,
    handle: &mut Handle,
    session: &mut Handle,
    player: u8,
    mark: &MarkIn,
) -> i32
    ensures { MakesBeside network_in (IsMarkedIn player mark.now) handle.old.hold.value
        handle.new.hold.value session.old.hold.value session.new.hold.value result }
{
    let Some(mut held) = handle.take(alloc) else {
        return CLOSED;
    };
    let Some(mut lent) = session.take(alloc) else {
        handle.put(held);
        return CLOSED;
    };
    let Open::Peer(network) = &mut *held else {
        session.put(lent);
        handle.put(held);
        return CLOSED;
    };
    let Open::Session(live) = &mut *lent else {
        session.put(lent);
        handle.put(held);
        return CLOSED;
    };
    let code = epoch_calls::mark(network, live, player, mark);
    session.put(lent);
    handle.put(held);
    code
}

/// The ticket by which one of this name may come to a match with this number of comers.
#[unsafe(no_mangle)]
pub extern "C" fn fazgrond_ticket(comers: u64, name: u32) -> u64
    ensures { result ≡ ticket_for comers name }
{
    ticket_for(comers, name)
}

/// Goes on in the next epoch, if this one is over; 203 if it isn't, once marks are judged. 202, and nothing is changed,
/// if the last requests of the epoch before are still to be taken. All words that wait are handed over before. The
/// ended session's last requests go ahead of the next one's, and jobs get other numbers than before.
#[unsafe(no_mangle)]
pub extern "C" fn fazgrond_peer_go_on(
    alloc: Global,
    handle: &mut Handle,
    session: &mut Handle,
    frames: &mut u32,
) -> i32
    ensures { WritesBeside network_in GoesOnBeside handle.old.hold.value handle.new.hold.value
        session.old.hold.value session.new.hold.value frames.old frames.new result }
{
    let Some(mut held) = handle.take(alloc) else {
        return CLOSED;
    };
    let Some(mut lent) = session.take(alloc) else {
        handle.put(held);
        return CLOSED;
    };
    let Open::Peer(network) = &mut *held else {
        session.put(lent);
        handle.put(held);
        return CLOSED;
    };
    let Open::Session(live) = &mut *lent else {
        session.put(lent);
        handle.put(held);
        return CLOSED;
    };
    let code = epoch_calls::go_on(alloc, network, live, frames);
    session.put(lent);
    handle.put(held);
    code
}

/// What to send to a machine in the epoch before.
#[unsafe(no_mangle)]
pub extern "C" fn fazgrond_peer_send_before(
    alloc: Global,
    handle: &mut Handle,
    machine: u8,
    now: u32,
    out: &mut [u8],
    size: &mut usize,
) -> i32
    ensures { FillsBy network_in (IsSentBefore machine now) handle.old.hold.value
        handle.new.hold.value out.old out.new size.old size.new result }
{
    let Some(mut held) = handle.take(alloc) else {
        return CLOSED;
    };
    let Open::Peer(network) = &mut *held else {
        handle.put(held);
        return CLOSED;
    };
    let code = epoch_calls::send_before(network, machine, now, out, size);
    handle.put(held);
    code
}
