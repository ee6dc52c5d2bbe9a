//! How an epoch opens, and how the next one does.
ghost use Rattle.std.specs.Prelude.{◌≡◌, ◌<◌, slice_index_or, None};
ghost use Rattle.roll_mesh.specs.declared.limits.TheConstants.{PLAYER_LIMIT};
ghost use Rattle.roll_epoch.specs.Successions.{is_same_owner, next_delay, next_delays, next_threshold, successor};

use crate::id::next_id;
use crate::limits::FIRST_DELAY;
use crate::marks::Ending;
use crate::owners::{Owners, come, kept_owners};
use roll_mesh::PLAYER_LIMIT;
use roll_wire::Mark;

/// How an epoch opens. Machines keep their numbers, 0 to 7, over all epochs of a match; a machine is in an epoch if it owns a player
/// there.
#[derive(Clone, Copy, Debug)]
pub struct Terms {
    /// Which epoch it is: 0 is the first one. The numbers of the others come of SHA-256: that no two are the same is
    /// presumed.
    pub id: u64,
    /// How many frames of the match came before its first one, modulo 2^64.
    pub base: u64,
    /// The machine that owns each player, player 0 first: [`FREE`](crate::FREE) if nobody does now, and
    /// [`NO_MACHINE`](crate::NO_MACHINE) if there is no such player in the match.
    pub owners: [u8; PLAYER_LIMIT],
    /// Each player's input delay in frames.
    pub delays: [u8; PLAYER_LIMIT],
    /// How many frames a session goes on without another's words.
    pub threshold: u8,
    /// How many words an input has, 1 to 4: the same in all epochs of a match. Each so many players in a row, from player 0 on, are the
    /// words of one input, which has one owner; players behind the last whole one aren't in the match.
    pub words: u8,
}

impl Terms {
    /// The epoch after one that ends so, if its players left at these numbers of words: the same for all that know the same of the
    /// rows before the end.
    #[tactic(auto, unfolding(crate::specs::Successions::next_owners, crate::specs::Successions::successor))]
    pub fn successor(&self, ending: &Ending, left: &[Option<u32>; PLAYER_LIMIT]) -> Terms
        ensures { result ≡ successor self.now ending.now left.now }
    {
        let kept = kept_owners(&self.owners, left, ending.frame);
        let owners = come(&kept, self.words, &ending.mark.newcomer);
        Terms {
            id: next_id(self.id, ending, left),
            base: self.base.wrapping_add(u64::from(ending.frame)),
            owners,
            delays: self.next_delays(&ending.mark, &kept, &owners),
            threshold: self.next_threshold(&ending.mark),
            words: self.words,
        }
    }

    /// Whether a player has the owner that it had, who stayed: whoever comes may have the number of one who left.
    fn is_same_owner(&self, kept: &Owners, owners: &Owners, player: usize) -> bool
        requires { player < PLAYER_LIMIT }
        ensures { result ≡ is_same_owner self.now kept.now owners.now player }
    {
        kept[player] == self.owners[player] && owners[player] == self.owners[player]
    }

    /// A player's delay in the next epoch.
    fn next_delay(&self, mark: &Mark, kept: &Owners, owners: &Owners, player: usize) -> u8
        requires { player < PLAYER_LIMIT }
        ensures { result ≡ next_delay self.now mark.now kept.now owners.now player }
    {
        match mark.delays[player] {
            Some(delay) => delay,
            None if self.is_same_owner(kept, owners, player) => self.delays[player],
            None => FIRST_DELAY,
        }
    }

    /// The delays in the next epoch.
    fn next_delays(&self, mark: &Mark, kept: &Owners, owners: &Owners) -> [u8; PLAYER_LIMIT]
        ensures { result ≡ next_delays self.now mark.now kept.now owners.now }
    {
        let mut delays = [0; PLAYER_LIMIT];
        for player in 0..PLAYER_LIMIT {
            delays[player] = self.next_delay(mark, kept, owners, player);
        }
        delays
    }

    /// The threshold in the next epoch.
    fn next_threshold(&self, mark: &Mark) -> u8
        ensures { result ≡ next_threshold self.now mark.now }
    {
        if mark.threshold == 0 {
            self.threshold
        } else {
            mark.threshold
        }
    }
}
