//! What one row has otherwise than the row before it.
ghost use Rattle.std.specs.Prelude.{◌≡◌, ◌<◌, List, All, filter, fold};
ghost use Rattle.roll_frame.specs.declared.row.Cell.{Cell};
ghost use Rattle.roll_branch.specs.Changes.{changed_by, place_of, row_of, with_cell, with_change, IsPlaced};

use arrayvec::ArrayVec;
use roll_frame::{Cell, PLAYER_LIMIT};

/// A change from one row to the next. Rows and places count from 0, and player 1 is at place 0.
#[derive(Clone, Copy, Debug)]
pub(crate) enum Change {
    /// The player at this place gives another word, or is new.
    Word { row: u8, place: u8, word: u32 },
    /// The player at this place is gone.
    Gone { row: u8, place: u8 },
    /// The row ends before this place.
    End { row: u8, place: u8 },
}

const _: () = prove!(size_of::<Change>() == 8);

/// The end of the first row, which fills the unused places of vectors of fixed capacity.
impl Default for Change {
    fn default() -> Self {
        Change::End { row: 0, place: 0 }
    }
}

impl Change {
    /// The change of a row that gives the player at a place this cell.
    pub(crate) fn new(row: u8, place: u8, cell: Cell) -> Change
        ensures row { row_of result ≡ row }
        ensures place { place_of result ≡ place }
        ensures change { (cells : List Cell)
            → with_change cells result ≡ with_cell cells place cell }
    {
        match cell {
            Cell::Word(word) => Change::Word { row, place, word },
            Cell::Gone => Change::Gone { row, place },
        }
    }

    /// The row that has it.
    fn row(&self) -> u8
        ensures { result ≡ row_of self.now }
    {
        match *self {
            Change::Word { row, .. } | Change::Gone { row, .. } | Change::End { row, .. } => row,
        }
    }

    /// Changes the cells.
    fn apply(&self, cells: &mut ArrayVec<Cell, PLAYER_LIMIT>)
        requires { IsPlaced self.now }
        ensures { cells.new.items ≡ with_change cells.old.items self.now }
    {
        match *self {
            Change::Word { place, word, .. } => put(cells, place, Cell::Word(word)),
            Change::Gone { place, .. } => put(cells, place, Cell::Gone),
            Change::End { place, .. } => cells.truncate(usize::from(place)),
        }
    }
}

/// Gives the player at a place this cell, which is added where the cells end before it.
fn put(cells: &mut ArrayVec<Cell, PLAYER_LIMIT>, place: u8, cell: Cell)
    requires { place < PLAYER_LIMIT }
    ensures { cells.new.items ≡ with_cell cells.old.items place cell }
{
    let place = usize::from(place);
    if place < cells.len() {
        cells.as_mut_slice()[place] = cell;
    } else {
        cells.push(cell);
    }
}

/// Changes the cells of the row before this one into its own.
pub(crate) fn patch(cells: &mut ArrayVec<Cell, PLAYER_LIMIT>, changes: &[Change], row: u8)
    requires { All IsPlaced changes.now }
    ensures { cells.new.items ≡ changed_by changes.now row cells.old.items }
{
    for change in changes {
        if change.row() == row {
            change.apply(cells);
        }
    }
}
