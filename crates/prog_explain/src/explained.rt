//! What the program does with a text if more is asked for than its answers.
ghost use Rattle.std.specs.Prelude.{◌≡◌, ◌≢◌, ◌≤◌, ◌<◌, ◌⊎◌, ◌+◌, ◌++◌, ◌^◌, ℕ, List, IfErr, IfSome, MatchOption, OnOk, Some, length};
ghost use Rattle.std.specs.String.{string_bytes};
ghost use Rattle.roll_text.specs.declared.streams.TheConstants.{TEXT_LIMIT};
ghost use Rattle.roll_synctest.specs.Tests.{start_refusal as test_refusal};
ghost use Rattle.prog_scripts.specs.Faults.{TakesAtMost};
ghost use Rattle.prog_scripts.specs.Plays.{IsPlay, play_of};
ghost use Rattle.roll_cli.specs.Programs.{Ends};
ghost use Rattle.roll_cli.specs.Playings.{game_of};
ghost use Rattle.prog_explain.specs.Noted.{AreNoted, IsNoted, refusals_by};
ghost use Rattle.prog_scripts.specs.declared.fault.PlayFault.TheVariants.{Write as CannotWrite};

use crate::refusals::push_refused;
use prog_scripts::{
    Command, Ending, GameName, Header, PlayFault, RowsFile, Script, Task, Version, diagnose,
};
use roll_cli::{Playing, run};
use roll_duel::Duel;
use roll_frame::{Profile, Refusal};
use roll_game::{RawGame, Shown, Tally};
use roll_session::Session;
use roll_synctest::SyncTest;
use roll_text::{ReadFault, read_all};
use std::alloc::{AllocError, Global};
use std::fmt::Write as _;
use std::io::{Read, Write};

/// What is told of a text beside its answers.
#[derive(Drop)]
pub struct Notes {
    /// The notes, a line each.
    pub text: String,
    /// There was no memory for all of them.
    pub is_cut: bool,
}

impl Notes {
    /// No notes.
    pub fn new(alloc: Global) -> Notes {
        Notes {
            text: String::new(alloc),
            is_cut: false,
        }
    }
}

/// Does what `run` does, and notes at the end of `notes` what is wrong with a line that can't be read, and what each
/// refusal means, a line each. Where there is no memory for notes, they break off, and are told to be cut.
///
/// The clauses are those of `run`: with notes output, status and fault are the same. That notes are made, and break
/// off, is tested (`tests/runs/program.t`, `faults.t`). Of a script whose session starts it is proved within the crate
/// that each refused command gets a note, and no other (`specs/Noted.antt`).
pub fn explain<R: Read, W: Write>(
    alloc: Global,
    task: Task,
    reader: &mut R,
    writer: &mut W,
    notes: &mut Notes,
) -> Ending
    ensures ends { IfSome (R.remaining reader.old)
        (λ text. Ends task text (W.contents writer.old) (W.contents writer.new) result) }
    ensures status { MatchOption result.fault (result.status ≤ 1) (λ fault. result.status ≡ 2) }
    ensures untouched { IfSome result.fault
        (λ fault. (fault ≡ CannotWrite) ⊎ (writer.new ≡ writer.old)) }
    ensures taken { TakesAtMost (TEXT_LIMIT + 1) (R.remaining reader.old) (R.remaining reader.new) }
{
    match read_all(alloc, reader) {
        Ok(text) => explain_text(alloc, task, &text, writer, notes),
        Err(fault) => {
            notes.is_cut |= note_unread(&mut notes.text, fault).is_err();
            Ending::from(PlayFault::from(fault))
        }
    }
}

/// Notes that a text is too long.
pub fn note_unread(notes: &mut String, fault: ReadFault) -> Result<(), AllocError> {
    if fault == ReadFault::TooLong {
        notes.push_str("more than 1,048,576 bytes\n")?;
    }
    Ok(())
}

/// Does what `explain` does, with a text that was read.
pub fn explain_text<W: Write>(
    alloc: Global,
    task: Task,
    text: &[u8],
    writer: &mut W,
    notes: &mut Notes,
) -> Ending
    requires { length text.now ≤ TEXT_LIMIT }
    ensures ends { Ends task text.now (W.contents writer.old) (W.contents writer.new) result }
    ensures status { MatchOption result.fault (result.status ≤ 1) (λ fault. result.status ≡ 2) }
    ensures untouched { IfSome result.fault
        (λ fault. (fault ≡ CannotWrite) ⊎ (writer.new ≡ writer.old)) }
{
    let mut reader = text;
    let ending = run(alloc, task, &mut reader, writer);
    notes.is_cut |= note(alloc, &mut notes.text, task, text, &ending).is_err();
    ending
}

/// Notes why the task that was done with a text ended so.
fn note(
    alloc: Global,
    notes: &mut String,
    task: Task,
    text: &[u8],
    ending: &Ending,
) -> Result<(), PlayFault>
    requires { length text.now ≤ TEXT_LIMIT }
{
    match ending.fault {
        Some(PlayFault::Unreadable(line)) => {
            writeln!(notes, "line {line}: {}", diagnose(task, text, line))?;
            Ok(())
        }
        None if ending.status == 1 => note_refusals(alloc, notes, task, text),
        _ => Ok(()),
    }
}

/// Notes each refusal of a text's replies.
fn note_refusals(
    alloc: Global,
    notes: &mut String,
    task: Task,
    text: &[u8],
) -> Result<(), PlayFault>
    requires { length text.now ≤ TEXT_LIMIT }
{
    match task {
        Task::Play(game) => {
            let script = Script::read(alloc, text)?;
            note_played(alloc, notes, game, &script)
        }
        Task::SyncTest { game, frames } => note_tested(alloc, notes, game, frames, text),
        Task::Certify => Ok(()),
    }
}

/// Notes why a sync test didn't start.
fn note_tested(
    alloc: Global,
    notes: &mut String,
    game: GameName,
    frames: u32,
    text: &[u8],
) -> Result<(), PlayFault> {
    match game {
        GameName::Tally => note_test(alloc, notes, Tally::new(), Tally::opening(), frames),
        GameName::Duel => {
            let file = RowsFile::read(alloc, text)?;
            match Duel::new(alloc, file.players) {
                Ok(duel) => {
                    let opening = duel.opening()?;
                    note_test(alloc, notes, duel, opening, frames)
                }
                Err(why) => note_not_started(notes, why),
            }
        }
    }
}

/// Notes why a sync test of so many frames didn't start, if it didn't.
fn note_test<G: RawGame + Drop>(
    alloc: Global,
    notes: &mut String,
    game: G,
    opening: G::Snapshot,
    frames: u32,
) -> Result<(), PlayFault>
    ensures { OnOk result ((note : List ℕ) × IsNoted 1 (test_refusal frames) note
        × (string_bytes notes.new ≡ string_bytes notes.old ++ note)) }
{
    match SyncTest::new(alloc, game, opening, frames) {
        Ok(_) => Ok(()),
        Err(fault) => note_not_started(notes, fault.why),
    }
}

/// Notes why there is nothing to play or to test, unless memory was refused.
fn note_not_started(notes: &mut String, why: Refusal) -> Result<(), PlayFault>
    ensures memory { OnOk result (why ≢ Refusal.NoMemory) }
    ensures noted { OnOk result ((note : List ℕ) × IsNoted 1 (Some why) note
        × (string_bytes notes.new ≡ string_bytes notes.old ++ note)) }
{
    if why == Refusal::NoMemory {
        return Err(PlayFault::NoMemory);
    }
    push_refused(notes, 1, why)?;
    Ok(())
}

/// Plays a script once more, and notes each refusal.
fn note_played(
    alloc: Global,
    notes: &mut String,
    game: GameName,
    script: &Script,
) -> Result<(), PlayFault>
    requires fits { IsPlay (play_of script.now) }
    requires few { length script.now.commands.items < 2 ^ 32 }
{
    match game {
        GameName::Tally => {
            let (game, helper) = (Tally::new(), Tally::new());
            note_session(alloc, notes, script, game, Tally::opening(), helper)
        }
        GameName::Duel => {
            let ships = script.header.players as u8;
            let (Ok(duel), Ok(helper)) = (Duel::new(alloc, ships), Duel::new(alloc, ships)) else {
                return note_not_started(notes, Refusal::PlayerOutOfRange);
            };
            let opening = duel.opening()?;
            note_session(alloc, notes, script, duel, opening, helper)
        }
    }
}

/// Notes why a session didn't start, or each refusal of its replies.
fn note_session<G: Shown + Drop>(
    alloc: Global,
    notes: &mut String,
    script: &Script,
    game: G,
    opening: G::Snapshot,
    helper: G,
) -> Result<(), PlayFault>
    requires fits { IsPlay (play_of script.now) }
    requires few { length script.now.commands.items < 2 ^ 32 }
{
    let settings = script.header.settings();
    match Session::start(alloc, game, opening, settings) {
        Ok(session) => {
            let mut playing = Playing::new(alloc, session, helper);
            note_all(alloc, notes, &mut playing, &script.commands)
        }
        Err(fault) => {
            note_not_started(notes, fault.why)?;
            Ok(note_wide(notes, &script.header)?)
        }
    }
}

/// Notes which first line opens a session of so many players, if this one doesn't.
fn note_wide(notes: &mut String, header: &Header) -> Result<(), AllocError> {
    let players = header.players;
    if header.version == Version::Wide || players <= u32::from(Profile::Ggpo.player_limit()) {
        return Ok(());
    }
    writeln!(
        notes,
        "line 1: {players} players need `roll 3`; `roll 1` and `roll 2` take 4 at most"
    )
}

/// Plays the commands, of which the first stands in line 2, and notes each refusal with its line.
fn note_all<G: Shown>(
    alloc: Global,
    notes: &mut String,
    playing: &mut Playing<G>,
    commands: &[Command],
) -> Result<(), PlayFault>
    requires { length playing.old.now.jobs + length commands.now < 2 ^ 32 }
    ensures noted { OnOk result ((more : List ℕ)
        × AreNoted 2 (refusals_by playing.old.settings (game_of G.step playing.old)
        playing.old.now commands.now) more
        × (string_bytes notes.new ≡ string_bytes notes.old ++ more)) }
    ensures fault { IfErr result (λ fault. fault ≡ PlayFault.NoMemory) }
{
    let mut reply = Vec::new(alloc);
    let mut line = 1;
    for command in commands {
        line += 1;
        reply.clear();
        let why = playing.play(alloc, &mut reply, command)?;
        note_refusal(notes, line, why)?;
    }
    Ok(())
}

/// Notes why the command in a line was refused, if it was.
fn note_refusal(notes: &mut String, line: u64, why: Option<Refusal>) -> Result<(), AllocError>
    ensures { OnOk result ((note : List ℕ) × IsNoted line why note
        × (string_bytes notes.new ≡ string_bytes notes.old ++ note)) }
{
    match why {
        Some(why) => push_refused(notes, line, why),
        None => Ok(()),
    }
}
