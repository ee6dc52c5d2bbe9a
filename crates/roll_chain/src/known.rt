//! Rows of a session that are known.
ghost use Rattle.std.specs.Prelude.{◌≡◌, option_and_then};
ghost use Rattle.roll_frame.specs.Inputs.{player_at};
ghost use Rattle.roll_chain.specs.Known.{known_cell, known_row};

use roll_frame::{Cell, Row};
use roll_session::{Networked, Source};

/// The timeline's row of a frame, if it is known: each player's word of that frame has come, or the player has left before it.
pub(crate) fn known_row<S: Networked>(session: &S, frame: u32) -> Option<Row>
    ensures { result ≡ known_row (S.seen session.now).core.players frame }
{
    session.laws();
    let mut row = Row::new(known_cell(session, 1, frame)?);
    for place in 1..session.players() {
        row.push(known_cell(session, place + 1, frame)?);
    }
    Some(row)
}

/// A player's cell of a frame, if there is such a player, and the cell is known.
fn known_cell<S: Networked>(session: &S, player: u8, frame: u32) -> Option<Cell>
    ensures { result
        ≡ option_and_then (known_cell frame) (player_at (S.seen session.now).core.players player) }
{
    match session.source(player, frame)? {
        Source::Confirmed => match session.confirmed_word(player, frame) {
            Some(word) => Some(Cell::Word(word)),
            None => None,
        },
        Source::Gone => Some(Cell::Gone),
        Source::Predicted => None,
    }
}
