//! Claims read from their texts.
ghost use Rattle.std.specs.Prelude.{◌≡◌, ◌⊎◌, ◌+◌, ◌≤◌, ◌++◌, IfErr, IfOk, OnOk, map};
ghost use Rattle.roll_frame.specs.declared.claim.Claim.{Claim};
ghost use Rattle.roll_frame.specs.declared.refusal.Refusal.TheVariants.{NoMemory};
ghost use Rattle.roll_text.specs.Lines.{text_of};
ghost use Rattle.roll_text.specs.Numbers.{IsWord};
ghost use Rattle.roll_cert.specs.Reading.{IsWrong, IsWrongAmong, StartsWith, StartsWithAll, fewest, most};
ghost use Rattle.roll_cert.specs.Texts.{IsClaimText, IsEntry, IsPathOf, IsRowOf, IsSized, IsUnreadable, claim_lines, entry_line, heading_lines, path_line, row_line};

use crate::lines::Lines;
use crate::parts::{read_entry, read_path, read_row};
use roll_frame::{
    Claim, Differ, FRAME_LIMIT, Items, PATH_LIMIT, PLAYER_LIMIT, Path, Refusal, Row, TREE_LIMIT,
};
use roll_text::TEXT_LIMIT;
use std::alloc::Global;

/// The claim that a text spells. A text that is too long is unreadable at line 0.
///
/// # Errors
///
/// `Unreadable` with the first line that no claim's text with the same lines before it has, or with 0 if the text is
/// over 1,048,576 bytes; `NoMemory` if the allocator has no room.
pub fn read(alloc: Global, text: &[u8]) -> Result<Claim, Refusal>
    ensures sized { IfOk result (λ claim. IsSized claim) }
    ensures claim { IfOk result (λ claim. text.now ≡ text_of (claim_lines claim)) }
    ensures refused { IfErr result (λ why. (why ≡ NoMemory) ⊎ IsUnreadable why text.now) }
    ensures again { (claim : Claim) → IsSized claim → text.now ≡ text_of (claim_lines claim)
        → IfOk result (λ read. read ≡ claim) }
    ensures readable { IsClaimText text.now → IfErr result (λ why. why ≡ NoMemory) }
{
    if text.len() > TEXT_LIMIT {
        return Err(Refusal::Unreadable(0));
    }
    read_claim(alloc, &mut Lines::new(text))
}

/// The claim that all lines of a text spell.
fn read_claim(alloc: Global, lines: &mut Lines) -> Result<Claim, Refusal>
    requires { lines.old.next ≡ 1 }
    ensures sized { IfOk result (λ claim. IsSized claim) }
    ensures claim { IfOk result (λ claim. lines.old.rest.now ≡ text_of (claim_lines claim)) }
    ensures refused { IfErr result (λ why. (why ≡ NoMemory) ⊎ IsUnreadable why lines.old.rest.now) }
{
    let heading = read_heading(lines)?;
    let count = lines.number(b"time ", 0, PATH_LIMIT as u32)?;
    let time = read_rows(alloc, lines, count, heading.players)?;
    let count = lines.number(b"kept ", 0, TREE_LIMIT as u32)?;
    let kept = read_paths(alloc, lines, count, heading.players, heading.base)?;
    let count = lines.number(b"differs ", 0, TREE_LIMIT as u32)?;
    let differs = read_entries(alloc, lines, count)?;
    lines.end()?;
    Ok(Claim {
        players: heading.players,
        base: heading.base,
        time: Items::from(time),
        kept: Items::from(kept),
        from: heading.from,
        differs: Items::from(differs),
    })
}

/// What the first four lines of a claim say.
#[derive(Clone, Copy)]
struct Heading {
    players: u8,
    base: u32,
    from: u32,
}

fn read_heading(lines: &mut Lines) -> Result<Heading, Refusal>
    requires { lines.old.next ≡ 1 }
    ensures sized { IfOk result (λ heading. (1 ≤ heading.players) × (heading.players ≤ PLAYER_LIMIT)
        × (heading.base ≤ FRAME_LIMIT) × IsWord heading.from) }
    ensures ok { IfOk result (λ heading. lines.old.rest.now ≡ text_of
        (heading_lines heading.players heading.base heading.from) ++ lines.new.rest.now) }
    ensures next { OnOk result (lines.new.next ≡ lines.old.next + 4) }
    ensures err { IfErr result (λ why. IsUnreadable why lines.old.rest.now) }
{
    let version = lines.number(b"rollcert ", 1, 2)?;
    let players = lines.number(b"players ", least_players(version), most_players(version))?;
    let base = lines.number(b"base ", 0, FRAME_LIMIT)?;
    let from = lines.number(b"from ", 0, u32::MAX)?;
    Ok(Heading {
        players: players as u8,
        base,
        from,
    })
}

/// The fewest players of a claim whose text has this version.
fn least_players(version: u32) -> u32
    ensures { result ≡ fewest version }
{
    if version == 1 { 1 } else { 5 }
}

/// The most players of a claim whose text has this version.
fn most_players(version: u32) -> u32
    ensures { result ≡ most version }
{
    if version == 1 { 4 } else { PLAYER_LIMIT as u32 }
}

fn read_rows(alloc: Global, lines: &mut Lines, count: u32, players: u8) -> Result<Vec<Row>, Refusal>
    requires some { 1 ≤ players }
    requires few { players ≤ PLAYER_LIMIT }
    ensures ok { IfOk result (λ rows. StartsWithAll (IsRowOf players) row_line count
        lines.old.rest.now lines.new.rest.now rows.items) }
    ensures next { OnOk result (lines.new.next ≡ lines.old.next + count) }
    ensures err { IfErr result (λ why. (why ≡ NoMemory) ⊎ IsWrongAmong (IsRowOf players) row_line
        count lines.old.next lines.old.rest.now why) }
{
    let mut rows = Vec::new(alloc);
    for _ in 0..count {
        rows.push(next_row(alloc, lines, players)?)?;
    }
    Ok(rows)
}

fn next_row(alloc: Global, lines: &mut Lines, players: u8) -> Result<Row, Refusal>
    requires some { 1 ≤ players }
    requires few { players ≤ PLAYER_LIMIT }
    ensures ok { IfOk result (λ row. StartsWith (IsRowOf players) row_line lines.old.rest.now
        lines.new.rest.now row) }
    ensures next { OnOk result (lines.new.next ≡ lines.old.next + 1) }
    ensures err { IfErr result (λ why. (why ≡ NoMemory) ⊎ IsWrong (IsRowOf players) row_line
        lines.old.next lines.old.rest.now why) }
{
    let next = lines.next;
    let line = lines.take()?;
    read_row(alloc, line, players)?.ok_or(Refusal::Unreadable(next))
}

fn read_paths(
    alloc: Global,
    lines: &mut Lines,
    count: u32,
    players: u8,
    base: u32,
) -> Result<Vec<Path>, Refusal>
    requires some { 1 ≤ players }
    requires few { players ≤ PLAYER_LIMIT }
    ensures ok { IfOk result (λ paths. StartsWithAll (IsPathOf players base) path_line count
        lines.old.rest.now lines.new.rest.now paths.items) }
    ensures next { OnOk result (lines.new.next ≡ lines.old.next + count) }
    ensures err { IfErr result (λ why. (why ≡ NoMemory) ⊎ IsWrongAmong (IsPathOf players base)
        path_line count lines.old.next lines.old.rest.now why) }
{
    let mut paths = Vec::new(alloc);
    for _ in 0..count {
        paths.push(next_path(alloc, lines, players, base)?)?;
    }
    Ok(paths)
}

fn next_path(alloc: Global, lines: &mut Lines, players: u8, base: u32) -> Result<Path, Refusal>
    requires some { 1 ≤ players }
    requires few { players ≤ PLAYER_LIMIT }
    ensures ok { IfOk result (λ path. StartsWith (IsPathOf players base) path_line
        lines.old.rest.now lines.new.rest.now path) }
    ensures next { OnOk result (lines.new.next ≡ lines.old.next + 1) }
    ensures err { IfErr result (λ why. (why ≡ NoMemory) ⊎ IsWrong (IsPathOf players base) path_line
        lines.old.next lines.old.rest.now why) }
{
    let next = lines.next;
    let line = lines.take()?;
    read_path(alloc, line, players, base)?.ok_or(Refusal::Unreadable(next))
}

fn read_entries(alloc: Global, lines: &mut Lines, count: u32) -> Result<Vec<Differ>, Refusal>
    ensures ok { IfOk result (λ entries. StartsWithAll IsEntry entry_line count lines.old.rest.now
        lines.new.rest.now entries.items) }
    ensures next { OnOk result (lines.new.next ≡ lines.old.next + count) }
    ensures err { IfErr result (λ why. (why ≡ NoMemory) ⊎ IsWrongAmong IsEntry entry_line count
        lines.old.next lines.old.rest.now why) }
{
    let mut entries = Vec::new(alloc);
    for _ in 0..count {
        entries.push(next_entry(alloc, lines)?)?;
    }
    Ok(entries)
}

fn next_entry(alloc: Global, lines: &mut Lines) -> Result<Differ, Refusal>
    ensures ok { IfOk result (λ entry. StartsWith IsEntry entry_line lines.old.rest.now
        lines.new.rest.now entry) }
    ensures next { OnOk result (lines.new.next ≡ lines.old.next + 1) }
    ensures err { IfErr result (λ why. (why ≡ NoMemory) ⊎ IsWrong IsEntry entry_line lines.old.next
        lines.old.rest.now why) }
{
    let next = lines.next;
    let line = lines.take()?;
    read_entry(alloc, line)?.ok_or(Refusal::Unreadable(next))
}
