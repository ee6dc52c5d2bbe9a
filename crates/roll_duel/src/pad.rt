//! What a player holds down in one frame.
ghost use Rattle.std.specs.Prelude.{◌≡◌, ◌<◌};
ghost use Rattle.roll_duel.specs.Ships.{pad_of, word_at, is_pressed as button_of};

use roll_frame::Row;

const THRUST: u32 = 1;

const LEFT: u32 = 2;

const RIGHT: u32 = 4;

const FIRE: u32 = 8;

/// What a player holds down in one frame.
#[derive(Clone, Copy, Debug, PartialEq, Eq)]
pub(crate) struct Pad {
    pub thrust: bool,
    pub left: bool,
    pub right: bool,
    pub fire: bool,
}

impl Pad {
    /// What the player at a place of a row holds down: nothing, if it is gone or not in the row.
    pub(crate) fn of_player(row: &Row, place: usize) -> Pad
        ensures { result ≡ pad_of (word_at row.now place) }
    {
        match row.get(place) {
            Some(cell) => Pad::of_word(cell.word()),
            None => Pad::of_word(0),
        }
    }

    fn of_word(word: u32) -> Pad
        ensures { result ≡ pad_of word }
    {
        Pad {
            thrust: is_pressed(word, THRUST),
            left: is_pressed(word, LEFT),
            right: is_pressed(word, RIGHT),
            fire: is_pressed(word, FIRE),
        }
    }
}

fn is_pressed(word: u32, button: u32) -> bool
    ensures { result ≡ button_of word button }
{
    word & button != 0
}
