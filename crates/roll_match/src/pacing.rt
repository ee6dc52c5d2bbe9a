//! How far this machine is ahead of the others.
ghost use Rattle.std.specs.Prelude.{◌≡◌, ◌≤◌, ◌<◌};
ghost use Rattle.roll_mesh.specs.declared.limits.TheConstants.{MACHINE_LIMIT as MACHINES};
ghost use Rattle.roll_match.specs.Pacing.{half_frames, lead_of, lead_over};

use crate::lasting::Lasting;
use crate::one::Match;
use roll_mesh::MACHINE_LIMIT;
use roll_peer::Peer;

/// The most half frames by which a machine is said to be ahead.
pub(crate) const LEAD_LIMIT: u64 = 8;

impl<S: Lasting> Match<S> {
    /// By how many half frames this machine is ahead of the machine that is furthest behind it, 0 to 8. It is half of what both say of
    /// each other, so a line that is slower one way is none of it. If this machine takes a 32nd of a frame longer for its next frame for
    /// each of these, the machines come together without a jump.
    #[tactic(auto, using(crate::proofs::Leads::lead_none, crate::proofs::Leads::lead_next, crate::proofs::Leads::lead_most))]
    pub fn lead(&self) -> u32
        ensures lead { result ≡ lead_of self.now.peer MACHINES }
        ensures most { result ≤ LEAD_LIMIT }
    {
        let mut most = 0;
        for machine in 0..MACHINE_LIMIT as u8 {
            most = most.max(lead_over(&self.peer, machine));
        }
        most
    }
}

/// By how many half frames this machine leads another.
fn lead_over(peer: &Peer, machine: u8) -> u32
    requires { machine < MACHINES }
    ensures { result ≡ lead_over peer.now machine }
{
    if peer.is_lost(machine) {
        return 0;
    }
    match peer.stats(machine) {
        Some(stats) => half_frames(stats.frames_behind, stats.their_frames_behind),
        None => 0,
    }
}

/// By how many half frames a machine leads another, if each is so many frames behind the other.
fn half_frames(behind: i32, theirs: i32) -> u32
    ensures { result ≡ half_frames behind theirs }
{
    if behind < theirs {
        (i64::from(theirs) - i64::from(behind))
            .unsigned_abs()
            .min(LEAD_LIMIT) as u32
    } else {
        0
    }
}
