//! Calls of an open peer, some of them lent the session that it stands beside.
ghost use Rattle.std.specs.Prelude.{◌≡◌, ◌≢◌, ◌≤◌, ◌++◌, drop, length, pos};
ghost use Rattle.fazgrond_c.specs.Handles.{Fills};
ghost use Rattle.fazgrond_c.specs.Written.{code_of_receipt, AreSent};
ghost use Rattle.roll_relay.specs.Relayed.{bytes_of};
ghost use Rattle.fazgrond_c.specs.Peers.{code_of_poll, stats_at, IsFarewell, IsNoted, IsNotedFor, IsPolledBeside, IsPolledFor, IsPutOutBy, IsReceived, IsReceivedIn, IsSentMore, IsSentTo, IsToldBy};

use crate::calls::{NOTHING, TOO_SHORT};
use crate::epoch_calls;
use crate::live::Live;
use crate::network::Network;
use crate::peer_kinds::{EventOut, StatsOut};
use crate::peer_refusal::{
    NOT_SEALED, OTHER_SESSION, code_of_fault, code_of_ignored, code_of_mesh, code_of_refusal,
};
use arrayvec::ArrayVec;
use roll_peer::{Ignored, OtherSession, Peer, PeerRefusal};
use roll_session::Settling;
use roll_wire::DATAGRAM_LIMIT;

/// Hears bytes. What isn't sealed for this epoch may be for the one before.
pub fn receive(network: &mut Network, live: &mut Live, bytes: &[u8], now: u32) -> i32
    ensures { IsReceivedIn bytes.now now network.old network.new live.old live.new result }
{
    let code = receive_now(network, live, bytes, now);
    if code == NOT_SEALED {
        epoch_calls::hear_before(network, bytes, now)
    } else {
        code
    }
}

/// Hears bytes in this epoch.
fn receive_now(network: &mut Network, live: &mut Live, bytes: &[u8], now: u32) -> i32
    ensures received { IsReceived bytes.now now network.old network.new live.old live.new result }
    ensures epochs { network.new.epochs ≡ network.old.epochs }
{
    let Network {
        peer,
        held,
        relay,
        ..
    } = network;
    match held.receive(relay, peer, &mut live.session, bytes, now) {
        Ok(said) => code_of_receipt(said),
        Err(why) => code_of_fault(why),
    }
}

/// The number of what came of bytes.
pub fn code_of_receipt<T: Copy>(said: Result<T, Ignored>) -> i32
    ensures { result ≡ code_of_receipt said }
{
    match said {
        Ok(_) => 0,
        Err(why) => code_of_ignored(why),
    }
}

/// What a turn does before it plays.
pub fn poll(network: &mut Network, live: &mut Live, now: u32) -> i32
    ensures { IsPolledFor now network.old network.new live.old live.new result }
{
    network.begin_epoch_turn();
    let code = poll_beside(network, live, now);
    network.relay.turn(&network.peer);
    code
}

/// What it does beside the session.
fn poll_beside(network: &mut Network, live: &mut Live, now: u32) -> i32
    ensures polled { IsPolledBeside now network.old.peer network.new.peer network.old.held
        network.new.held live.old live.new result }
    ensures relay { network.new.relay ≡ network.old.relay }
    ensures epochs { network.new.epochs ≡ network.old.epochs }
{
    let Network { peer, held, .. } = network;
    match held.poll(peer, &mut live.session, now) {
        Ok(said) => code_of_poll(said),
        Err(why) => code_of_fault(why),
    }
}

fn code_of_poll(said: Result<(), PeerRefusal>) -> i32
    ensures { result ≡ code_of_poll said }
{
    match said {
        Ok(()) => 0,
        Err(why) => code_of_refusal(why),
    }
}

/// Notes the digest of the settled state. Where words are held back, the session has settled less than the peer knows.
pub fn note_settled(network: &mut Network, live: &Live, digest: u64) -> i32
    ensures { IsNotedFor digest live.now.session.seen network.old network.new result }
{
    if network.held.turns() == 0 {
        return note_at_once(&mut network.peer, live, digest);
    }
    network.peer.note_state_at(live.session.settled(), digest);
    0
}

/// Notes the digest of the settled state of a session that is told words at once.
fn note_at_once(peer: &mut Peer, live: &Live, digest: u64) -> i32
    ensures { IsNoted digest live.now.session.seen peer.old peer.new result }
{
    match peer.note_settled(&live.session, digest) {
        Ok(()) => 0,
        Err(OtherSession) => OTHER_SESSION,
    }
}

/// Regards a machine as gone.
pub fn disconnect(network: &mut Network, machine: u8) -> i32
    ensures { IsPutOutBy machine network.old network.new result }
{
    match network.peer.disconnect(machine) {
        Ok(()) => 0,
        Err(why) => code_of_mesh(why),
    }
}

/// Writes what is to be sent to a machine.
pub fn send(
    network: &mut Network,
    live: &mut Live,
    machine: u8,
    now: u32,
    out: &mut [u8],
    size: &mut usize,
) -> i32
    ensures { Fills (IsSentTo machine now) (network.old, live.old) (network.new, live.new) out.old
        out.new size.old size.new result }
{
    if out.len() < DATAGRAM_LIMIT {
        return TOO_SHORT;
    }
    send_now(network, live, machine, now, out, size)
}

/// Writes it into a buffer that has room.
fn send_now(
    network: &mut Network,
    live: &mut Live,
    machine: u8,
    now: u32,
    out: &mut [u8],
    size: &mut usize,
) -> i32
    requires { DATAGRAM_LIMIT ≤ length out.old }
    ensures { IsSentTo machine now (network.old, live.old) (network.new, live.new) out.old out.new
        size.old size.new result }
{
    let Network {
        peer,
        held,
        relay,
        ..
    } = network;
    match held.send(relay, peer, &mut live.session, machine, now) {
        Ok(said) => write_sent(out, size, said),
        Err(why) => code_of_fault(why),
    }
}

/// Writes what there is to send, if anything is.
pub fn write_sent(
    out: &mut [u8],
    size: &mut usize,
    said: Result<Option<ArrayVec<u8, DATAGRAM_LIMIT>>, OtherSession>,
) -> i32
    requires { DATAGRAM_LIMIT ≤ length out.old }
    ensures { AreSent (bytes_of (λ bytes. bytes.items) said) out.old out.new size.old size.new
        result }
{
    match said {
        Ok(Some(bytes)) => {
            write(out, size, &bytes);
            0
        }
        Ok(None) => NOTHING,
        Err(OtherSession) => OTHER_SESSION,
    }
}

/// Writes what goes out beside that, and to which machine.
pub fn send_more(network: &mut Network, machine: &mut u8, out: &mut [u8], size: &mut usize) -> i32
    ensures sent { Fills (IsSentMore machine.new) network.old network.new out.old out.new
        size.old size.new result }
    ensures unnamed { result ≢ pos 0 → machine.new ≡ machine.old }
{
    if out.len() < DATAGRAM_LIMIT {
        return TOO_SHORT;
    }
    let Some((to, bytes)) = epoch_calls::next(network) else {
        return NOTHING;
    };
    *machine = to;
    write(out, size, &bytes);
    0
}

/// Writes what says to a machine that this one leaves, and why.
pub fn bye(network: &mut Network, machine: u8, why: u8, out: &mut [u8], size: &mut usize) -> i32
    ensures { Fills (IsFarewell machine why) network.old network.new out.old out.new size.old
        size.new result }
{
    if out.len() < DATAGRAM_LIMIT {
        return TOO_SHORT;
    }
    match network.relay.bye(&network.peer, machine, why) {
        Some(bytes) => {
            write(out, size, &bytes);
            0
        }
        None => NOTHING,
    }
}

/// Writes bytes to the front of a buffer, and how many they are.
pub fn write(out: &mut [u8], size: &mut usize, bytes: &ArrayVec<u8, DATAGRAM_LIMIT>)
    requires { DATAGRAM_LIMIT ≤ length out.old }
    ensures bytes { out.new ≡ bytes.now.items ++ drop (length bytes.now.items) out.old }
    ensures size { size.new ≡ length bytes.now.items }
{
    *size = bytes.len();
    out[..bytes.len()].copy_from_slice(bytes.as_slice());
}

/// Tells the next event.
pub fn tell(network: &mut Network, event: &mut EventOut) -> i32
    ensures { IsToldBy network.old network.new event.old event.new result }
{
    match network.peer.next_event() {
        Some(next) => {
            *event = EventOut::of(&next);
            0
        }
        None => NOTHING,
    }
}

/// What was counted of a machine, if there is one of this number.
pub fn stats(peer: &Peer, machine: u8) -> Option<StatsOut>
    ensures { result ≡ stats_at machine peer.now }
{
    if machine >= peer.mesh().seat().machines {
        return None;
    }
    let stats = peer.stats(machine)?;
    Some(StatsOut::of(&stats))
}
