//! What a program sees of its match.
ghost use Rattle.std.specs.Prelude.{◌≡◌, None, Some, nat_lt, if◌then◌else◌};
ghost use Rattle.roll_chain.specs.Chains.{has_stayed};
ghost use Rattle.roll_mesh.specs.declared.limits.TheConstants.{MACHINE_LIMIT};
ghost use Rattle.roll_peer.specs.Sending.{stats_of};

use crate::lasting::Lasting;
use crate::one::Match;
use roll_epoch::Terms;
use roll_peer::{MatchSettings, Stats};

impl<S: Lasting> Match<S> {
    /// Whether the match has begun: all machines that aren't gone had heard each other. Give the session no inputs before that.
    pub fn is_running(&self) -> bool
        ensures { result ≡ self.now.peer.running }
    {
        self.peer.is_running()
    }

    /// Which epoch this is, by its number, and how it opened: how many frames of the match came before it, who owns which player, the
    /// input delays in frames, and how many frames the session plays on without another player's input.
    pub fn epoch(&self) -> &Terms
        ensures { result.now ≡ self.now.epochs.chain.terms }
    {
        self.epochs.chain.terms()
    }

    /// Whether the match goes on in epochs. If it doesn't, its only epoch never ends, and of how that opened its owners alone are read.
    pub fn lasts(&self) -> bool
        ensures { result ≡ self.now.epochs.chain.base.takes_marks }
    {
        self.epochs.chain.lasts()
    }

    /// Whether another machine, from 0, is in this epoch and was in the one before. In the first epoch none was.
    pub fn has_stayed(&self, machine: u8) -> bool
        ensures { result ≡ has_stayed self.now.epochs.chain machine }
    {
        self.epochs.chain.has_stayed(machine)
    }

    /// The settings of the match in this epoch.
    pub fn settings(&self) -> &MatchSettings
        ensures { result.now ≡ self.now.peer.settings }
    {
        self.peer.settings()
    }

    /// What was counted and measured of the datagrams between this machine and another, from 0. A machine that stays keeps its counts in
    /// the next epoch. None for a number over 7.
    pub fn stats(&self, machine: u8) -> Option<Stats>
        ensures { result ≡ (if nat_lt machine MACHINE_LIMIT
            then Some (stats_of self.now.peer machine) else None) }
    {
        self.peer.stats(machine)
    }
}
