//! Who is heard in the epoch before is heard in this one too; and who is gone in one of the two is gone in both.
ghost use Rattle.std.specs.Prelude.{◌≡◌, ◌<◌, ◌≤◌};
ghost use Rattle.roll_mesh.specs.declared.limits.TheConstants.{MACHINE_LIMIT};
ghost use Rattle.roll_chain.specs.Sharing.{gone_in_either, heard_at, heard_until, is_gone_in_either, parted_at, parted_until, vacant};

use crate::chain::Chain;
use crate::seating::owns;
use roll_epoch::Terms;
use roll_mesh::MACHINE_LIMIT;
use roll_peer::Peer;

/// A set of machines.
type Machines = [bool; MACHINE_LIMIT];

impl Chain {
    /// Of the machines that are in this epoch and were in the one before: who is heard there is heard here too, so that it isn't silent
    /// here before it has come; and who is gone in one is gone in both from now on.
    pub(crate) fn share(&self, peer: &mut Peer, past: &mut Peer)
        ensures peer { peer.new ≡ parted_until (gone_in_either self.now peer.old past.old)
            MACHINE_LIMIT (heard_until self.now.stays past.old MACHINE_LIMIT peer.old) }
        ensures past { past.new ≡ parted_until (gone_in_either self.now peer.old past.old)
            MACHINE_LIMIT past.old }
    {
        let gone = self.gone_in_either(peer, past);
        hear(peer, &self.stays, past);
        part(peer, &gone);
        part(past, &gone);
    }

    /// Regards as gone whoever owns no player in this epoch: nobody sits there. It is for the network with which a match opens here; `follow`
    /// does so too.
    pub fn leave_out(&self, peer: &mut Peer)
        ensures { peer.new ≡ parted_until (vacant self.now.terms) MACHINE_LIMIT peer.old }
    {
        part(peer, &vacant(&self.terms));
    }

    /// Which machines are in both epochs, and gone in one of them.
    fn gone_in_either(&self, peer: &Peer, past: &Peer) -> Machines
        ensures { result ≡ gone_in_either self.now peer.now past.now }
    {
        let mut gone = [false; MACHINE_LIMIT];
        for machine in 0..MACHINE_LIMIT {
            gone[machine] = self.is_gone_in_either(peer, past, machine as u8);
        }
        gone
    }

    fn is_gone_in_either(&self, peer: &Peer, past: &Peer, machine: u8) -> bool
        requires { machine < MACHINE_LIMIT }
        ensures { result ≡ is_gone_in_either self.now peer.now past.now machine }
    {
        self.stays[usize::from(machine)]
            && (peer.mesh().is_gone(machine) || past.mesh().is_gone(machine))
    }
}

/// Hears machines that stay where they are heard in the epoch before.
#[tactic(auto, using(crate::proofs::Untils::heard_none, crate::proofs::Untils::heard_next))]
fn hear(peer: &mut Peer, stays: &Machines, past: &Peer)
    ensures { peer.new ≡ heard_until stays.now past.now MACHINE_LIMIT peer.old }
{
    for machine in 0..MACHINE_LIMIT {
        hear_from(peer, stays, past, machine);
    }
}

fn hear_from(peer: &mut Peer, stays: &Machines, past: &Peer, machine: usize)
    requires { machine < MACHINE_LIMIT }
    ensures { peer.new ≡ heard_at stays.now past.now machine peer.old }
{
    if stays[machine] {
        peer.hear_too(machine as u8, past);
    }
}

/// Which machines own no player.
fn vacant(terms: &Terms) -> Machines
    ensures { result ≡ vacant terms.now }
{
    let mut vacant = [false; MACHINE_LIMIT];
    for machine in 0..MACHINE_LIMIT {
        vacant[machine] = !owns(&terms.owners, machine as u8);
    }
    vacant
}

/// Regards machines as gone.
#[tactic(auto, using(crate::proofs::Untils::parted_none, crate::proofs::Untils::parted_next))]
fn part(peer: &mut Peer, gone: &Machines)
    ensures { peer.new ≡ parted_until gone.now MACHINE_LIMIT peer.old }
{
    for machine in 0..MACHINE_LIMIT {
        part_from(peer, gone, machine);
    }
}

fn part_from(peer: &mut Peer, gone: &Machines, machine: usize)
    requires { machine < MACHINE_LIMIT }
    ensures { peer.new ≡ parted_at gone.now machine peer.old }
{
    if gone[machine] {
        let _ = peer.disconnect(machine as u8);
    }
}
