//! The parts of a claim that have a line each, read from their lines.
ghost use Rattle.std.specs.Prelude.{◌≤◌, IfOk, map};
ghost use Rattle.std.specs.Option.{option_map};
ghost use Rattle.roll_text.specs.Text.{Reads};
ghost use Rattle.roll_cert.specs.Texts.{IsCell, IsEntry, IsPathOf, IsRowOf, cell_text, entry_fields, entry_line, path_line, row_line};

use roll_frame::{Cell, Differ, PATH_LIMIT, PLAYER_LIMIT, Path, Row};
use roll_text::{fields, number};
use std::alloc::{AllocError, Global};

fn read_cell(text: &[u8]) -> Option<Cell>
    ensures { Reads IsCell cell_text text.now result }
{
    if text == b"x".as_slice() {
        return Some(Cell::Gone);
    }
    let Some(word) = number(text) else {
        return None;
    };
    Some(Cell::Word(word))
}

/// The row of so many players that a text spells.
pub fn read_row(alloc: Global, text: &[u8], players: u8) -> Result<Option<Row>, AllocError>
    requires some { 1 ≤ players }
    requires few { players ≤ PLAYER_LIMIT }
    ensures { IfOk result (λ row. Reads (IsRowOf players) row_line text.now row) }
{
    let parts = fields(alloc, text, b',')?;
    if parts.len() != usize::from(players) {
        return Ok(None);
    }
    let mut cells = Vec::new(alloc);
    for part in &parts {
        let Some(cell) = read_cell(part) else {
            return Ok(None);
        };
        cells.push(cell)?;
    }
    Ok(Some(Row::from_cells(&cells)))
}

/// The path of this base, of rows of so many players, that a text spells.
pub fn read_path(
    alloc: Global,
    text: &[u8],
    players: u8,
    base: u32,
) -> Result<Option<Path>, AllocError>
    requires some { 1 ≤ players }
    requires few { players ≤ PLAYER_LIMIT }
    ensures { IfOk result (λ path. Reads (IsPathOf players base) path_line text.now path) }
{
    let mut path = Path::new(base);
    if text == b"-".as_slice() {
        return Ok(Some(path));
    }
    let parts = fields(alloc, text, b' ')?;
    if parts.len() > PATH_LIMIT {
        return Ok(None);
    }
    for part in &parts {
        let Some(row) = read_row(alloc, part, players)? else {
            return Ok(None);
        };
        path.push(row);
    }
    Ok(Some(path))
}

/// The entry that a text spells.
pub fn read_entry(alloc: Global, text: &[u8]) -> Result<Option<Differ>, AllocError>
    ensures { IfOk result (λ entry. Reads IsEntry entry_line text.now entry) }
{
    let fields = fields(alloc, text, b' ')?;
    Ok(entry_from(&fields))
}

fn entry_from(fields: &[&[u8]]) -> Option<Differ>
    ensures { Reads IsEntry entry_fields (map (λ field. field.now) fields.now) result }
{
    let [state, frame, player] = fields else {
        return None;
    };
    let Some(state) = number(state) else {
        return None;
    };
    let Some(frame) = number(frame) else {
        return None;
    };
    let Some(player) = number(player) else {
        return None;
    };
    let Ok(player) = u8::try_from(player) else {
        return None;
    };
    Some(Differ {
        state,
        frame,
        player,
    })
}
