//! The words of one input have one delay.
ghost use Rattle.std.specs.Prelude.{◌≡◌, ◌<◌, ◌≤◌};
ghost use Rattle.roll_mesh.specs.Groups.{first_of};
ghost use Rattle.roll_mesh.specs.declared.limits.TheConstants.{PLAYER_LIMIT};
ghost use Rattle.roll_epoch.specs.Inputs.{are_alike, are_even, delay_after, is_alike_at, is_even_at};

use crate::limits::NO_MACHINE;
use crate::owners::first_of;
use crate::terms::Terms;
use roll_mesh::PLAYER_LIMIT;

/// A player's delay after a mark that gives it this one, if any.
fn delay_after(given: Option<u8>, before: u8) -> u8
    ensures { result ≡ delay_after given before }
{
    match given {
        None => before,
        Some(delay) => delay,
    }
}

/// Whether a mark gives no delay to a player and to the first word of its input, or both have the same one then.
fn is_alike_at(delays: &[Option<u8>; PLAYER_LIMIT], terms: &Terms, player: usize) -> bool
    requires { player < PLAYER_LIMIT }
    ensures { result ≡ is_alike_at delays.now terms.now player }
{
    let first = first_of(terms.words, player);
    let is_none = delays[player].is_none() && delays[first].is_none();
    is_none
        || delay_after(delays[player], terms.delays[player])
            == delay_after(delays[first], terms.delays[first])
}

/// Whether each input of which a mark gives a word a delay has one delay after it.
pub(crate) fn are_alike(delays: &[Option<u8>; PLAYER_LIMIT], terms: &Terms) -> bool
    ensures { result ≡ are_alike delays.now terms.now }
{
    for player in 0..PLAYER_LIMIT {
        if !is_alike_at(delays, terms, player) {
            return false;
        }
    }
    true
}

impl Terms {
    /// Whether all words of each input of the match have one delay. A match that opens with others has words of one input that count in
    /// different frames.
    pub fn are_even(&self) -> bool
        ensures { result ≡ are_even self.now }
    {
        for player in 0..PLAYER_LIMIT {
            if !self.is_even_at(player) {
                return false;
            }
        }
        true
    }

    /// Whether a player isn't in the match, or has the delay of the first word of its input.
    fn is_even_at(&self, player: usize) -> bool
        requires { player < PLAYER_LIMIT }
        ensures { result ≡ is_even_at self.now player }
    {
        self.owners[player] == NO_MACHINE
            || self.delays[player] == self.delays[first_of(self.words, player)]
    }
}
