//! Calls of an open peer whose match goes on in epochs.
ghost use Rattle.std.specs.Prelude.{◌≡◌, true, false, option_map};
ghost use Rattle.fazgrond_c.specs.Handles.{Fills};
ghost use Rattle.fazgrond_c.specs.Epochs.{epoch_in, fault_in, is_over_in, is_own, judged_network, stayed_in, GoesOnBeside, GoesOnFrom, GoesOnJudged, IsHeardBefore, IsMarked, IsMarkedIn, IsNextBefore, IsNextIn, IsSentBefore};

use crate::calls::{NOTHING, OTHER_VERSION, PENDING, TOO_SHORT};
use crate::epoch_kinds::{EpochIn, MARK_SIZE, MarkIn};
use crate::live::Live;
use crate::network::Network;
use crate::peer_calls::{code_of_receipt, write_sent};
use crate::peer_refusal::{NOT_SEALED, code_of_mark, code_of_mark_fault, code_of_seam};
use crate::waiting_calls::hand_over;
use arrayvec::ArrayVec;
use roll_chain::Epochs;
use roll_epoch::MarkFault;
use roll_frame::Refusal;
use roll_mesh::PLAYER_LIMIT;
use roll_requests::JOBS_OUT;
use roll_session::Networked;
use roll_wire::{DATAGRAM_LIMIT, Mark};
use std::alloc::Global;

/// Hears bytes that aren't sealed for this epoch in the one before.
pub fn hear_before(network: &mut Network, bytes: &[u8], now: u32) -> i32
    ensures heard { IsHeardBefore bytes.now now network.old.epochs network.new.epochs result }
    ensures rest { network.new ≡ record network.old { epochs = network.new.epochs } }
{
    match &mut network.epochs {
        Some(epochs) => code_of_receipt(epochs.receive(bytes, now)),
        None => NOT_SEALED,
    }
}

/// What goes out beside what is sent to each machine, of this epoch or of the one before, and to which machine.
pub fn next(network: &mut Network) -> Option<(u8, ArrayVec<u8, DATAGRAM_LIMIT>)>
    ensures { IsNextIn network.old network.new (option_map (λ x. (x.0, x.1.items)) result) }
{
    match network.relay.next(&network.peer) {
        Some(next) => Some(next),
        None => next_before(network),
    }
}

/// That of the epoch before.
fn next_before(network: &mut Network) -> Option<(u8, ArrayVec<u8, DATAGRAM_LIMIT>)>
    ensures next { IsNextBefore network.old.epochs network.new.epochs
        (option_map (λ x. (x.0, x.1.items)) result) }
    ensures rest { network.new ≡ record network.old { epochs = network.new.epochs } }
{
    match &mut network.epochs {
        Some(epochs) => epochs.next(),
        None => None,
    }
}

/// Writes what is to be sent to a machine in the epoch before.
pub fn send_before(
    network: &mut Network,
    machine: u8,
    now: u32,
    out: &mut [u8],
    size: &mut usize,
) -> i32
    ensures { Fills (IsSentBefore machine now) network.old network.new out.old out.new size.old
        size.new result }
{
    if out.len() < DATAGRAM_LIMIT {
        return TOO_SHORT;
    }
    let Network { epochs, .. } = network;
    match epochs {
        Some(epochs) => write_sent(out, size, epochs.send(machine, now)),
        None => NOTHING,
    }
}

/// Puts a mark on a player's next word, unless it would be void. Words that wait are handed over first, since a mark takes a session that knows all words.
pub fn mark(network: &mut Network, live: &mut Live, player: u8, given: &MarkIn) -> i32
    ensures { IsMarkedIn player given.now network.old network.new live.old live.new result }
{
    if given.size != MARK_SIZE {
        return OTHER_VERSION;
    }
    let Some(mark) = given.mark() else {
        return Refusal::InvalidRequest.code();
    };
    if let Some(why) = fault_in(network, player, &mark) {
        return code_of_mark_fault(why);
    }
    let code = hand_over(network, live, u32::MAX);
    if code != 0 {
        return code;
    }
    mark_told(network, live, player, mark)
}

/// Why a mark of a player of this machine would be void in this epoch, if it would be.
fn fault_in(network: &Network, player: u8, mark: &Mark) -> Option<MarkFault>
    ensures { result ≡ fault_in player mark.now network.now }
{
    if !is_own(network, player) {
        return None;
    }
    match &network.epochs {
        Some(epochs) => epochs.chain.mark_fault(player, mark),
        None => None,
    }
}

/// Whether a player, counted from 1, is this machine's.
fn is_own(network: &Network, player: u8) -> bool
    ensures { result ≡ is_own player network.now.peer.member.mesh.seat }
{
    let seat = network.peer.mesh().seat();
    player != 0
        && usize::from(player) <= PLAYER_LIMIT
        && seat.owners[usize::from(player) - 1] == seat.me
}

/// Puts it there beside a session that was told all words that came.
fn mark_told(network: &mut Network, live: &Live, player: u8, mark: Mark) -> i32
    ensures { IsMarked player mark live.now.session.seen network.old network.new result }
{
    match network.peer.mark(&live.session, player, mark) {
        Ok(_) => 0,
        Err(why) => code_of_mark(why),
    }
}

/// How this epoch opened.
pub fn epoch(network: &Network) -> Option<EpochIn>
    ensures { result ≡ epoch_in network.now }
{
    match &network.epochs {
        Some(epochs) => Some(EpochIn::of(epochs.chain.terms())),
        None => None,
    }
}

/// Whether a machine was in the epoch before, as a number.
pub fn has_stayed(network: &Network, machine: u8) -> Option<u32>
    ensures { result ≡ stayed_in machine network.now }
{
    match &network.epochs {
        Some(epochs) => Some(u32::from(epochs.chain.has_stayed(machine))),
        None => None,
    }
}

/// Goes on in the next epoch, if this one is over, and writes how many frames past its end were run again.
pub fn go_on(alloc: Global, network: &mut Network, live: &mut Live, frames: &mut u32) -> i32
    ensures { GoesOnBeside network.old network.new live.old live.new frames.old frames.new result }
{
    if !live.is_closed() {
        return PENDING;
    }
    judge(network);
    go_on_judged(alloc, network, live, frames)
}

/// Marks are judged.
fn judge(network: &mut Network)
    ensures { network.new ≡ judged_network network.old }
{
    if let Some(epochs) = &network.epochs {
        epochs.chain.judge(&mut network.peer);
    }
}

/// The same once marks are judged.
fn go_on_judged(alloc: Global, network: &mut Network, live: &mut Live, frames: &mut u32) -> i32
    ensures { GoesOnJudged network.old network.new live.old live.new frames.old frames.new result }
{
    if !is_over(network, live) {
        return NOTHING;
    }
    let code = hand_over(network, live, u32::MAX);
    if code != 0 {
        return code;
    }
    go_on_from(alloc, network, live, frames)
}

/// Whether this epoch is over beside a session.
fn is_over(network: &Network, live: &Live) -> bool
    ensures over { result ≡ true → is_over_in network.now live.now }
    ensures not { result ≡ false → ¬ is_over_in network.now live.now }
{
    match &network.epochs {
        Some(epochs) => match epochs.chain.over(&network.peer, &live.session) {
            Some(_) => true,
            None => false,
        },
        None => false,
    }
}

/// The same, once the session was told all words that waited.
fn go_on_from(alloc: Global, network: &mut Network, live: &mut Live, frames: &mut u32) -> i32
    ensures { GoesOnFrom network.old network.new live.old live.new frames.old frames.new result }
{
    let Network {
        peer,
        relay,
        epochs,
        ..
    } = network;
    let Some(epochs) = epochs else {
        return NOTHING;
    };
    match epochs.go_on(alloc, peer, relay, &mut live.session) {
        Ok(Some(closing)) => {
            live.closing = Some(closing);
            live.first_job = live.first_job.wrapping_add(JOBS_OUT as u32);
            *frames = live.session.frame();
            0
        }
        Ok(None) => NOTHING,
        Err(why) => code_of_seam(why),
    }
}
