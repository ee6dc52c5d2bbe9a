//! Sync tests of files of rows, from a reader to a writer.
ghost use Rattle.std.specs.Prelude.{◌≡◌, ◌≢◌, ◌⊎◌, ◌≤◌, ◌+◌, ◌++◌, [], ℕ, List, Err, IfErr, IfOk, IfSome, OnOk, map};
ghost use Rattle.roll_game.specs.Divergence.{NeverDiverges};
ghost use Rattle.roll_synctest.specs.declared.verdict.Verdict.{Verdict as VerdictSaid};
ghost use Rattle.roll_text.specs.Lines.{ended, text_of};
ghost use Rattle.roll_text.specs.Streams.{IsBadAt};
ghost use Rattle.roll_text.specs.declared.streams.TheConstants.{TEXT_LIMIT};
ghost use Rattle.prog_scripts.specs.declared.fault.PlayFault.TheVariants.{NoMemory, Unreadable};
ghost use Rattle.prog_scripts.specs.declared.fault.PlayFault.TheVariants.{Write as CannotWrite};
ghost use Rattle.prog_scripts.specs.Engines.{Outputs, Plays};
ghost use Rattle.prog_scripts.specs.Faults.{TakesAtMost};
ghost use Rattle.prog_scripts.specs.RowsFiles.{IsRowsFile, IsRowsText, file_lines, file_of};
ghost use Rattle.roll_cli.specs.SyncTests.{AreSaid, IsDuelSynced, IsDuelTold, IsTallySynced, IsTested};
ghost use Rattle.roll_cli.specs.SyncTests.{IsTold, is_startable, verdict_line};

use prog_scripts::{PlayFault, RowsFile, push_named, push_not_started, write_not_started};
use roll_duel::Duel;
use roll_frame::{Refusal, Row};
use roll_game::{RawGame, Tally, never_diverges};
use roll_synctest::{SyncTest, Verdict};
use roll_text::{read_all, write_all};
use std::alloc::{AllocError, Global};
use std::io::{Read, Write};

/// Tests a game with the rows that a reader holds, so many frames at once (1 to 8), and answers whether none came out
/// different. A line is written for each row, up to the first frame that did: `verified` with each row whose number is
/// a multiple of `frames`, else `run`; and at a difference `mismatch` with its frame.
///
/// If all is well, no clause says how often the game was run, nor from which opening: tests count its loads, saves and
/// advances (`tests/runs/sync_games.t`).
///
/// At most 1,048,577 bytes are read. Nothing is written unless all rows can be read, and then all at the end. If the test
/// doesn't start, its refusal is all that is written. A `Game` comes out different nowhere (`never_diverges`).
///
/// # Errors
///
/// `Unreadable` with the first line that no such file with the same earlier lines has, or with 0 if the text is too long; `Read`
/// if the reader fails; `NoMemory` if the allocator has no room, or the game refuses. After these nothing is written. `Write` if
/// the writer fails: it has a front of the output, and not all of it. What was read by then is gone from the reader.
pub fn synctest<G: RawGame + Drop, R: Read, W: Write>(
    alloc: Global,
    reader: &mut R,
    writer: &mut W,
    game: G,
    opening: G::Snapshot,
    frames: u32,
) -> Result<bool, PlayFault>
    ensures plays { Plays (IsBadAt IsRowsText) (IsTested G.ran (G.snapshot_value opening) frames)
        (R.remaining reader.old) (W.contents writer.old) (W.contents writer.new) result }
    ensures game { NeverDiverges G.ran → IfOk result (λ well. well ≡ is_startable frames) }
    ensures untouched { IfErr result (λ fault. (fault ≡ CannotWrite) ⊎ (writer.new ≡ writer.old)) }
    ensures taken { TakesAtMost (TEXT_LIMIT + 1) (R.remaining reader.old) (R.remaining reader.new) }
{
    let file = read_rows(alloc, reader)?;
    write_test(alloc, writer, &file.rows, game, opening, frames)
}

/// Tests the tally with the rows that a reader holds, as `synctest` does. It never comes out different.
///
/// # Errors
///
/// As for [`synctest`].
pub fn synctest_tally<R: Read, W: Write>(
    alloc: Global,
    reader: &mut R,
    writer: &mut W,
    frames: u32,
) -> Result<bool, PlayFault>
    ensures plays { Plays (IsBadAt IsRowsText) (IsTallySynced frames)
        (R.remaining reader.old) (W.contents writer.old) (W.contents writer.new) result }
    ensures untouched { IfErr result (λ fault. (fault ≡ CannotWrite) ⊎ (writer.new ≡ writer.old)) }
    ensures taken { TakesAtMost (TEXT_LIMIT + 1) (R.remaining reader.old) (R.remaining reader.new) }
{
    never_diverges::<Tally>();
    synctest(
        alloc,
        reader,
        writer,
        Tally::new(),
        Tally::opening(),
        frames,
    )
}

/// Tests the ship duel with the rows that a reader holds, as `synctest` does, with a ship for each player. A file with one
/// player is answered `refused 3` alone.
///
/// # Errors
///
/// As for [`synctest`].
pub fn synctest_duel<R: Read, W: Write>(
    alloc: Global,
    reader: &mut R,
    writer: &mut W,
    frames: u32,
) -> Result<bool, PlayFault>
    ensures plays { Plays (IsBadAt IsRowsText) (IsDuelSynced frames)
        (R.remaining reader.old) (W.contents writer.old) (W.contents writer.new) result }
    ensures untouched { IfErr result (λ fault. (fault ≡ CannotWrite) ⊎ (writer.new ≡ writer.old)) }
    ensures taken { TakesAtMost (TEXT_LIMIT + 1) (R.remaining reader.old) (R.remaining reader.new) }
{
    let file = read_rows(alloc, reader)?;
    write_duel_test(alloc, writer, &file, frames)
}

/// Tests the ship duel with the rows of a file, and writes all that it writes at once.
fn write_duel_test<W: Write>(
    alloc: Global,
    writer: &mut W,
    file: &RowsFile,
    frames: u32,
) -> Result<bool, PlayFault>
    requires { IsRowsFile (file_of file.now) }
    ensures outputs { Outputs (IsDuelTold frames (file_of file.now))
        (W.contents writer.old) (W.contents writer.new) result }
    ensures fault { IfErr result
        (λ fault. (fault ≡ CannotWrite) ⊎ ((fault ≡ NoMemory) × (writer.new ≡ writer.old))) }
{
    never_diverges::<Duel>();
    let Ok(duel) = Duel::new(alloc, file.players) else {
        write_not_started(alloc, writer, Refusal::PlayerOutOfRange)?;
        return Ok(false);
    };
    let opening = duel.opening()?;
    write_test(alloc, writer, &file.rows, duel, opening, frames)
}

/// The rows that a reader holds.
fn read_rows<R: Read>(alloc: Global, reader: &mut R) -> Result<RowsFile, PlayFault>
    ensures fits { IfOk result (λ file. IsRowsFile (file_of file)) }
    ensures spelled { IfOk result
        (λ file. IfSome (R.remaining reader.old)
        (λ text. text ≡ text_of (file_lines (file_of file)))) }
    ensures unreadable { (line : ℕ) → result ≡ Err (Unreadable line)
        → IfSome (R.remaining reader.old) (IsBadAt IsRowsText line) }
    ensures fault { IfErr result (λ fault. fault ≢ CannotWrite) }
    ensures taken { TakesAtMost (TEXT_LIMIT + 1) (R.remaining reader.old) (R.remaining reader.new) }
{
    let text = read_all(alloc, reader)?;
    let file = RowsFile::read(alloc, &text)?;
    Ok(file)
}

/// Tests a game with rows, and writes all that it writes at once.
fn write_test<G: RawGame + Drop, W: Write>(
    alloc: Global,
    writer: &mut W,
    rows: &[Row],
    game: G,
    opening: G::Snapshot,
    frames: u32,
) -> Result<bool, PlayFault>
    ensures outputs { Outputs (IsTold G.ran (G.snapshot_value opening) frames rows.now)
        (W.contents writer.old) (W.contents writer.new) result }
    ensures fault { IfErr result
        (λ fault. (fault ≡ CannotWrite) ⊎ ((fault ≡ NoMemory) × (writer.new ≡ writer.old))) }
{
    let mut out = Vec::new(alloc);
    let well = push_test(alloc, &mut out, rows, game, opening, frames)?;
    write_all(writer, &out)?;
    Ok(well)
}

/// Writes at the end what a test of rows writes.
fn push_test<G: RawGame + Drop>(
    alloc: Global,
    out: &mut Vec<u8>,
    rows: &[Row],
    game: G,
    opening: G::Snapshot,
    frames: u32,
) -> Result<bool, PlayFault>
    ensures told { IfOk result
        (λ well. (written : List ℕ)
        × IsTold G.ran (G.snapshot_value opening) frames rows.now written well
        × (out.new.items ≡ out.old.items ++ written)) }
    ensures fault { IfErr result (λ fault. fault ≡ NoMemory) }
{
    match SyncTest::new(alloc, game, opening, frames) {
        Ok(test) => push_verdicts(out, test, rows),
        Err(fault) => {
            push_not_started(out, fault.why)?;
            Ok(false)
        }
    }
}

/// Steps a test that took no row yet through rows, and writes what it says of each.
fn push_verdicts<G: RawGame + Drop>(
    out: &mut Vec<u8>,
    test: SyncTest<G>,
    rows: &[Row],
) -> Result<bool, PlayFault>
    requires some { 1 ≤ test.frames }
    requires fresh { test.verified ≡ 0 }
    requires none { test.rows ≡ [] }
    ensures said { IfOk result
        (λ well. (verdicts : List VerdictSaid)
        × AreSaid G.ran test.second test.frames rows.now verdicts well
        × (out.new.items ≡ out.old.items ++ text_of (map verdict_line verdicts))) }
    ensures fault { IfErr result (λ fault. fault ≡ NoMemory) }
{
    let mut test = test;
    for row in rows {
        // No file has so many rows that a test takes no more of them.
        let Ok(verdict) = test.step(row) else {
            return Err(PlayFault::NoMemory);
        };
        push_verdict(out, verdict)?;
        if let Verdict::Mismatch(_) = verdict {
            return Ok(false);
        }
    }
    Ok(true)
}

/// Writes the line of a verdict.
fn push_verdict(out: &mut Vec<u8>, verdict: Verdict) -> Result<(), AllocError>
    ensures { OnOk result (out.new.items ≡ out.old.items ++ ended (verdict_line verdict)) }
{
    match verdict {
        Verdict::Run => out.extend_from_slice(b"run")?,
        Verdict::Verified(count) => push_named(out, b"verified ", count)?,
        Verdict::Mismatch(frame) => push_named(out, b"mismatch ", frame)?,
    }
    out.extend_from_slice(b"\n")
}
