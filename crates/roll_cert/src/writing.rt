//! Claims written as texts.
ghost use Rattle.std.specs.Prelude.{◌≡◌, ◌++◌, IfOk, OnOk, codes, map};
ghost use Rattle.roll_text.specs.Lines.{ended, text_of};
ghost use Rattle.roll_cert.specs.Texts.{cell_text, claim_lines, entry_line, named, path_line, row_line, rows_line, section, version_of};

use itoa::Buffer;
use roll_frame::{Cell, Claim, Differ, Path, Row};
use roll_text::push_number;
use std::alloc::{AllocError, Global};

/// The text of a claim, whatever its sizes. `read` reads it if these are within the limits (`IsSized`).
pub fn write(alloc: Global, claim: &Claim) -> Result<Vec<u8>, AllocError>
    ensures { IfOk result (λ text. text.items ≡ text_of (claim_lines claim.now)) }
{
    let mut out = Vec::new(alloc);
    push_named(&mut out, b"rollcert ", version(claim.players))?;
    push_named(&mut out, b"players ", usize::from(claim.players))?;
    push_named(&mut out, b"base ", claim.base as usize)?;
    push_named(&mut out, b"from ", claim.from as usize)?;
    push_rows(&mut out, claim.time.as_slice())?;
    push_paths(&mut out, claim.kept.as_slice())?;
    push_entries(&mut out, claim.differs.as_slice())?;
    Ok(out)
}

/// The version of the texts of claims of so many players.
fn version(players: u8) -> usize
    ensures { result ≡ version_of players }
{
    if players <= 4 { 1 } else { 2 }
}

/// Writes a line of a number after its name.
fn push_named(out: &mut Vec<u8>, name: &[u8], n: usize) -> Result<(), AllocError>
    ensures { OnOk result (out.new.items ≡ out.old.items ++ ended (named name.now n)) }
{
    out.extend_from_slice(name)?;
    out.extend_from_slice(Buffer::new().format(n).as_bytes())?;
    out.push(b'\n')?;
    Ok(())
}

/// Writes how many rows there are, and a line for each.
fn push_rows(out: &mut Vec<u8>, rows: &[Row]) -> Result<(), AllocError>
    ensures { OnOk result (out.new.items ≡ out.old.items
        ++ text_of (section (codes "time ") row_line rows.now)) }
{
    push_named(out, b"time ", rows.len())?;
    for row in rows {
        push_row(out, row)?;
        out.push(b'\n')?;
    }
    Ok(())
}

/// Writes how many paths there are, and a line for each.
fn push_paths(out: &mut Vec<u8>, paths: &[Path]) -> Result<(), AllocError>
    ensures { OnOk result (out.new.items ≡ out.old.items
        ++ text_of (section (codes "kept ") path_line paths.now)) }
{
    push_named(out, b"kept ", paths.len())?;
    for path in paths {
        push_path(out, &path.rows)?;
        out.push(b'\n')?;
    }
    Ok(())
}

/// Writes how many entries there are, and a line for each.
fn push_entries(out: &mut Vec<u8>, entries: &[Differ]) -> Result<(), AllocError>
    ensures { OnOk result (out.new.items ≡ out.old.items
        ++ text_of (section (codes "differs ") entry_line entries.now)) }
{
    push_named(out, b"differs ", entries.len())?;
    for entry in entries {
        push_entry(out, entry)?;
        out.push(b'\n')?;
    }
    Ok(())
}

fn push_entry(out: &mut Vec<u8>, entry: &Differ) -> Result<(), AllocError>
    ensures { OnOk result (out.new.items ≡ out.old.items ++ entry_line entry.now) }
{
    push_number(out, entry.state)?;
    out.push(b' ')?;
    push_number(out, entry.frame)?;
    out.push(b' ')?;
    push_number(out, u32::from(entry.player))?;
    Ok(())
}

fn push_path(out: &mut Vec<u8>, rows: &[Row]) -> Result<(), AllocError>
    ensures { OnOk result (out.new.items ≡ out.old.items ++ rows_line rows.now) }
{
    let Some((first, others)) = rows.split_first() else {
        out.push(b'-')?;
        return Ok(());
    };
    push_row(out, first)?;
    for row in others {
        out.push(b' ')?;
        push_row(out, row)?;
    }
    Ok(())
}

fn push_row(out: &mut Vec<u8>, row: &Row) -> Result<(), AllocError>
    ensures { OnOk result (out.new.items ≡ out.old.items ++ row_line row.now) }
{
    let cells = row.cells();
    let Some((first, others)) = cells.split_first() else {
        return Ok(());
    };
    push_cell(out, *first)?;
    for cell in others {
        out.push(b',')?;
        push_cell(out, *cell)?;
    }
    Ok(())
}

fn push_cell(out: &mut Vec<u8>, cell: Cell) -> Result<(), AllocError>
    ensures { OnOk result (out.new.items ≡ out.old.items ++ cell_text cell) }
{
    match cell {
        Cell::Word(word) => push_number(out, word)?,
        Cell::Gone => out.push(b'x')?,
    }
    Ok(())
}
