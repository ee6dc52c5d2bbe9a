//! What a roll changed of the timeline, and what it ran again.
ghost use Rattle.std.specs.Prelude.{◌≡◌, IfOk};
ghost use Rattle.roll_frame.specs.Claims.{place_of};
ghost use Rattle.prog_observer.specs.Changes.{cause_at, cause_of, first_change, roll_of, rows_from, settled_rows};

use prog_picture::{Cause, Roll};
use roll_frame::{Cell, Claim, Row};
use roll_game::Game;
use roll_session::Session;
use std::alloc::{AllocError, Global};

/// The rows of the timeline from a frame on, which is settled, up to the end of the last roll, whose claim this is.
pub fn rows_from<G: Game>(
    alloc: Global,
    session: &Session<G>,
    claim: &Claim,
    low: u32,
) -> Result<Vec<Row>, AllocError>
    ensures { IfOk result (λ rows. rows.items ≡ rows_from session.now.core claim.now low) }
{
    let mut rows = settled_rows(alloc, session, low, claim.base)?;
    rows.extend_from_slice(claim.time.as_slice())?;
    Ok(rows)
}

/// The settled rows from a frame on, up to another.
fn settled_rows<G: Game>(
    alloc: Global,
    session: &Session<G>,
    low: u32,
    high: u32,
) -> Result<Vec<Row>, AllocError>
    ensures { IfOk result (λ rows. rows.items ≡ settled_rows session.now.core low high) }
{
    (low..high)
        .filter_map(|frame| session.settled_row(frame))
        .collect(alloc)
}

/// The roll of a session at a frame that started from another. Of the rows from `low` on these were run before, and those
/// are the timeline's after it.
pub fn roll_of(at: u32, from: u32, low: u32, before: &[Row], after: &[Row]) -> Roll
    ensures { result ≡ roll_of at from low before.now after.now }
{
    let rerun = at.saturating_sub(from);
    match first_change(low, before, after) {
        Some(change) => Roll {
            at,
            rerun,
            ggpo: at.saturating_sub(change.frame),
            cause: change.cause(),
        },
        None => Roll {
            at,
            rerun,
            ggpo: 0,
            cause: Cause::Nothing,
        },
    }
}

/// A row that is another one after a roll.
#[derive(Clone, Copy)]
struct Change {
    frame: u32,
    before: Row,
    after: Row,
}

/// The first row that is another one after a roll, where the first of them is that of frame `low`.
fn first_change(low: u32, before: &[Row], after: &[Row]) -> Option<Change>
    ensures { result ≡ first_change low before.now after.now }
{
    let mut frame = low;
    for (old, new) in before.iter().zip(after) {
        if old != new {
            return Some(Change {
                frame,
                before: *old,
                after: *new,
            });
        }
        frame = frame.saturating_add(1);
    }
    None
}

impl Change {
    /// What made the row another one: the first cell that differs.
    fn cause(&self) -> Cause
        ensures { result ≡ cause_of self.now }
    {
        match first_player(&self.after, &self.before) {
            Some(player) => {
                let place = usize::from(player).saturating_sub(1);
                cause_at(self.after.get(place), player, self.frame)
            }
            None => Cause::Nothing,
        }
    }
}

/// The first player whose cells differ in two rows.
fn first_player(row: &Row, other: &Row) -> Option<u8>
    ensures { result ≡ place_of row.now other.now }
{
    for place in 0..row.count().max(other.count()) {
        if row.get(usize::from(place)) != other.get(usize::from(place)) {
            return Some(place + 1);
        }
    }
    None
}

/// What made a player's cell of a frame this one.
fn cause_at(cell: Option<Cell>, player: u8, frame: u32) -> Cause
    ensures { result ≡ cause_at cell player frame }
{
    match cell {
        Some(Cell::Gone) => Cause::Leaving { player, frame },
        _ => Cause::Word { player, frame },
    }
}
