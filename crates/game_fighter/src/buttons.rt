//! The buttons that a player holds down in one frame.
ghost use Rattle.std.specs.Prelude.{◌≡◌};
ghost use Rattle.game_fighter.specs.Frame.{buttons_of, is_pressed as button_of, word_at};

use fazgrond::Row;

const LEFT: u32 = 1;

const RIGHT: u32 = 2;

const HIT: u32 = 4;

/// The buttons that a player holds down in one frame.
#[derive(Clone, Copy, Debug, PartialEq, Eq)]
pub(crate) struct Buttons {
    pub left: bool,
    pub right: bool,
    pub hit: bool,
}

impl Buttons {
    /// Those of the player at a place of a row, 0 for player 1: none, if the player is gone or not in the row.
    pub(crate) fn of_player(row: &Row, place: usize) -> Buttons
        ensures { result ≡ buttons_of (word_at place row.now) }
    {
        match row.get(place) {
            Some(cell) => Buttons::of_word(cell.word()),
            None => Buttons::of_word(0),
        }
    }

    fn of_word(word: u32) -> Buttons
        ensures { result ≡ buttons_of word }
    {
        Buttons {
            left: is_pressed(word, LEFT),
            right: is_pressed(word, RIGHT),
            hit: is_pressed(word, HIT),
        }
    }
}

fn is_pressed(word: u32, button: u32) -> bool
    ensures { result ≡ button_of word button }
{
    word & button != 0
}
