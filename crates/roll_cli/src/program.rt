//! What the program does with a text, and how it ends.
ghost use Rattle.std.specs.Prelude.{◌≡◌, ◌≤◌, ◌⊎◌, ◌+◌, IfErr, IfSome, MatchOption};
ghost use Rattle.roll_game.specs.Shown.{tally_text};
ghost use Rattle.roll_text.specs.Streams.{IsBadAt};
ghost use Rattle.roll_text.specs.declared.streams.TheConstants.{TEXT_LIMIT};
ghost use Rattle.prog_scripts.specs.declared.fault.PlayFault.TheVariants.{Write as CannotWrite};
ghost use Rattle.prog_scripts.specs.declared.task.Task.TheVariants.{Play, SyncTest};
ghost use Rattle.prog_scripts.specs.Engines.{Plays};
ghost use Rattle.prog_scripts.specs.Faults.{TakesAtMost};
ghost use Rattle.prog_scripts.specs.Plays.{IsScript};
ghost use Rattle.prog_scripts.specs.Output.{tally_game};
ghost use Rattle.roll_cli.specs.Headlines.{IsHeadlinedOutput};
ghost use Rattle.roll_cli.specs.Programs.{Ends, IsDone, IsReadable};

use crate::certificate::certify;
use crate::engine::{play, play_duel};
use crate::sync_test::{synctest_duel, synctest_tally};
use prog_scripts::{Ending, GameName, PlayFault, Task};
use roll_game::Tally;
use std::alloc::Global;
use std::io::{Read, Write};

/// Does what a task asks for with the text that a reader holds, and answers how the program ends.
///
/// At most 1,048,577 bytes are read. Nothing is written unless the whole text can be read.
pub fn run<R: Read, W: Write>(alloc: Global, task: Task, reader: &mut R, writer: &mut W) -> Ending
    ensures ends { IfSome (R.remaining reader.old)
        (λ text. Ends task text (W.contents writer.old) (W.contents writer.new) result) }
    ensures status { MatchOption result.fault (result.status ≤ 1) (λ fault. result.status ≡ 2) }
    ensures untouched { IfSome result.fault
        (λ fault. (fault ≡ CannotWrite) ⊎ (writer.new ≡ writer.old)) }
    ensures taken { TakesAtMost (TEXT_LIMIT + 1) (R.remaining reader.old) (R.remaining reader.new) }
{
    match perform(alloc, task, reader, writer) {
        Ok(true) => Ending {
            status: 0,
            fault: None,
        },
        Ok(false) => Ending {
            status: 1,
            fault: None,
        },
        Err(fault) => Ending::from(fault),
    }
}

/// Whether all is well: no reply is a refusal, no frame came out different, or the claim is right.
fn perform<R: Read, W: Write>(
    alloc: Global,
    task: Task,
    reader: &mut R,
    writer: &mut W,
) -> Result<bool, PlayFault>
    ensures plays { Plays (IsBadAt (IsReadable task)) (IsDone task)
        (R.remaining reader.old) (W.contents writer.old) (W.contents writer.new) result }
    ensures untouched { IfErr result (λ fault. (fault ≡ CannotWrite) ⊎ (writer.new ≡ writer.old)) }
    ensures taken { TakesAtMost (TEXT_LIMIT + 1) (R.remaining reader.old) (R.remaining reader.new) }
{
    match task {
        Task::Play(game) => play_named(alloc, game, reader, writer),
        Task::SyncTest { game, frames } => test_named(alloc, game, frames, reader, writer),
        Task::Certify => certify(alloc, reader, writer),
    }
}

/// Plays a script with the game of this name, and answers whether no reply is a refusal.
fn play_named<R: Read, W: Write>(
    alloc: Global,
    game: GameName,
    reader: &mut R,
    writer: &mut W,
) -> Result<bool, PlayFault>
    ensures plays { Plays (IsBadAt (IsReadable (Play game))) (IsDone (Play game))
        (R.remaining reader.old) (W.contents writer.old) (W.contents writer.new) result }
    ensures untouched { IfErr result (λ fault. (fault ≡ CannotWrite) ⊎ (writer.new ≡ writer.old)) }
    ensures taken { TakesAtMost (TEXT_LIMIT + 1) (R.remaining reader.old) (R.remaining reader.new) }
{
    match game {
        GameName::Tally => Ok(play_tally(alloc, reader, writer)? == 0),
        GameName::Duel => Ok(play_duel(alloc, reader, writer)? == 0),
    }
}

/// Tests the game of this name, and answers whether no frame came out different.
fn test_named<R: Read, W: Write>(
    alloc: Global,
    game: GameName,
    frames: u32,
    reader: &mut R,
    writer: &mut W,
) -> Result<bool, PlayFault>
    ensures plays { Plays (IsBadAt (IsReadable (SyncTest game frames)))
        (IsDone (SyncTest game frames))
        (R.remaining reader.old) (W.contents writer.old) (W.contents writer.new) result }
    ensures untouched { IfErr result (λ fault. (fault ≡ CannotWrite) ⊎ (writer.new ≡ writer.old)) }
    ensures taken { TakesAtMost (TEXT_LIMIT + 1) (R.remaining reader.old) (R.remaining reader.new) }
{
    match game {
        GameName::Tally => synctest_tally(alloc, reader, writer, frames),
        GameName::Duel => synctest_duel(alloc, reader, writer, frames),
    }
}

fn play_tally<R: Read, W: Write>(
    alloc: Global,
    reader: &mut R,
    writer: &mut W,
) -> Result<u32, PlayFault>
    ensures plays { Plays (IsBadAt IsScript) (IsHeadlinedOutput tally_text tally_game)
        (R.remaining reader.old) (W.contents writer.old) (W.contents writer.new) result }
    ensures untouched { IfErr result (λ fault. (fault ≡ CannotWrite) ⊎ (writer.new ≡ writer.old)) }
    ensures taken { TakesAtMost (TEXT_LIMIT + 1) (R.remaining reader.old) (R.remaining reader.new) }
{
    let (game, helper) = (Tally::new(), Tally::new());
    play(alloc, reader, writer, game, Tally::opening(), helper)
}
