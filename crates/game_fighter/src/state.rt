//! A state of the game: the two fighters.
ghost use Rattle.std.specs.Prelude.{◌≡◌, ◌↔◌, IsTrue};
ghost use Rattle.game_fighter.specs.Frame.{frame_of, opening};
ghost use Rattle.game_fighter.specs.Ranges.{IsState};
ghost use Rattle.game_fighter.specs.Values.{step, value_of};

use crate::buttons::Buttons;
use crate::fighter::Fighter;
use fazgrond::Row;

/// The two fighters. It is also the snapshot: it is small, has no memory of its own, and is copied as it stands.
#[derive(Clone, Copy, Debug, PartialEq, Eq)]
pub struct State {
    /// Player 1's.
    pub one: Fighter,
    /// Player 2's.
    pub two: Fighter,
}

impl State {
    /// How a fight begins.
    pub(crate) fn opening() -> State
        ensures value { result ≡ opening }
        ensures in_range { IsState result }
    {
        State {
            one: Fighter::placed(470),
            two: Fighter::placed(530),
        }
    }

    /// The state after a frame.
    pub(crate) fn after(self, row: &Row) -> State
        ensures rule { result ≡ frame_of self row.now }
        ensures value { value_of result ≡ step (value_of self) row.now }
        ensures in_range { IsState self → IsState result }
    {
        let first = Buttons::of_player(row, 0);
        let second = Buttons::of_player(row, 1);
        let one = self.one.moved(first);
        let two = self.two.moved(second);
        // Both have walked, and neither is hurt yet.
        let one_hits = one.hits(first, two);
        let two_hits = two.hits(second, one);
        State {
            one: one.after_hits(one_hits, two_hits),
            two: two.after_hits(two_hits, one_hits),
        }
    }

    /// Whether two states are the same.
    pub(crate) fn is_same(&self, other: &State) -> bool
        ensures { IsTrue result ↔ (value_of self.now ≡ value_of other.now) }
    {
        self == other
    }
}
