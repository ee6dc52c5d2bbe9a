//! Which marks count, and when an epoch is over.
ghost use Rattle.std.specs.Prelude.{◌≡◌, ℕ, ◌-◌, ◌<◌, ◌≤◌, is_some, IfNone, IfSome, Some, true};
ghost use Rattle.roll_frame.specs.declared.limits.TheConstants.{FRAME_LIMIT};
ghost use Rattle.roll_mesh.specs.declared.limits.TheConstants.{PLAYER_LIMIT};
ghost use Rattle.roll_peer.specs.Marking.{is_numbered};
ghost use Rattle.roll_chain.specs.Judging.{fault_by, is_void_by, judged_at, judged_until, mark_fault, IsEnding, IsOver};

use crate::chain::Chain;
use crate::comers::is_vouched;
use crate::rows::{counted_marks, lefts, rows_known};
use roll_epoch::{Ending, MarkFault, Marks, fault_of, is_void};
use roll_mesh::PLAYER_LIMIT;
use roll_peer::Peer;
use roll_session::Networked;
use roll_wire::{Mark, Marked};

impl Chain {
    /// Finds those of the known marks void that are so by the rules, or since nobody vouched for who is to come.
    #[tactic(auto, using(crate::proofs::Untils::judged_none, crate::proofs::Untils::judged_next))]
    pub fn judge(&self, peer: &mut Peer)
        ensures { peer.new ≡ judged_until self.now PLAYER_LIMIT peer.old }
    {
        for player in 0..PLAYER_LIMIT {
            self.judge_one(peer, player);
        }
    }

    fn judge_one(&self, peer: &mut Peer, player: usize)
        requires { player < PLAYER_LIMIT }
        ensures { peer.new ≡ judged_at self.now player peer.old }
    {
        if self.is_void_by(player, peer.marks()[player]) {
            peer.void_mark(player as u8 + 1);
        }
    }

    /// Whether a player's mark is void, if it has one: its threshold is over that of the profile, or it is so by the rules of marks, or
    /// nobody vouched for who is to come.
    fn is_void_by(&self, player: usize, marked: Option<Marked>) -> bool
        requires { player < PLAYER_LIMIT }
        ensures { result ≡ is_void_by self.now player marked }
    {
        let Some(marked) = marked else {
            return false;
        };
        marked.mark.threshold > self.profile.threshold_limit()
            || is_void(&marked.mark, self.terms.owners[player], &self.terms)
            || !is_vouched(self.comers, marked.mark.newcomer)
    }

    /// Why a mark would be void that a player, counted from 1, gives in this epoch: the first of its faults. None if it would count, or
    /// there is no such player. Ask before the mark is put on a word.
    pub fn mark_fault(&self, player: u8, mark: &Mark) -> Option<MarkFault>
        ensures why { result ≡ mark_fault self.now player mark.now }
        ensures judged { is_numbered player ≡ true → (frame : ℕ) → is_some result
            ≡ is_void_by self.now (player - 1) (Some (record { frame = frame; mark = mark.now })) }
    {
        if player == 0 || usize::from(player) > PLAYER_LIMIT {
            return None;
        }
        self.fault_by(usize::from(player) - 1, mark)
    }

    /// The same of a player at a place.
    fn fault_by(&self, player: usize, mark: &Mark) -> Option<MarkFault>
        requires { player < PLAYER_LIMIT }
        ensures why { result ≡ fault_by self.now player mark.now }
        ensures judged { (frame : ℕ) → is_some result
            ≡ is_void_by self.now player (Some (record { frame = frame; mark = mark.now })) }
    {
        if mark.threshold > self.profile.threshold_limit() {
            return Some(MarkFault::Threshold);
        }
        let fault = fault_of(mark, self.terms.owners[player], &self.terms);
        if fault.is_some() || is_vouched(self.comers, mark.newcomer) {
            fault
        } else {
            Some(MarkFault::Ticket)
        }
    }

    /// Where the epoch ends, and by which mark, if that is known: all words before it are known then.
    pub(crate) fn end(&self, peer: &Peer) -> Option<Ending>
        ensures found { IfSome result (IsEnding self.now peer.now) }
        ensures none { IfNone result ((e : Ending) → IsEnding self.now peer.now e → ⊥) }
    {
        let marks = Marks {
            first: counted_marks(peer),
        };
        let mesh = peer.mesh();
        marks.end(&self.terms, &lefts(mesh), rows_known(mesh))
    }

    /// How the epoch ended, if it is over for this machine: its session has come up to the end.
    pub fn over<S: Networked>(&self, peer: &Peer, session: &S) -> Option<Ending>
        ensures over { IfSome result (IsOver (S.seen session.now) self.now peer.now) }
        ensures not { IfNone result ((e : Ending) → IsOver (S.seen session.now) self.now peer.now e
            → ⊥) }
    {
        let ending = self.end(peer)?;
        if session.frame() < ending.frame {
            return None;
        }
        Some(ending)
    }
}
