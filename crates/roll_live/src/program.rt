//! What the program does with a script that is played live, and how it ends.
ghost use Rattle.std.specs.Prelude.{◌≡◌, ◌≤◌, ◌⊎◌, ◌+◌, ◌<◌, ◌^◌, ℕ, Err, IfErr, IfOk, IfSome, MatchOption};
ghost use Rattle.std.specs.Prelude.{length, vec_len};
ghost use Rattle.roll_pool.specs.declared.owner.TheConstants.{WORKER_LIMIT as TEAM};
ghost use Rattle.roll_text.specs.declared.streams.TheConstants.{TEXT_LIMIT};
ghost use Rattle.prog_scripts.specs.declared.ending.GameName.TheVariants.{Duel as DuelName};
ghost use Rattle.prog_scripts.specs.declared.fault.PlayFault.TheVariants.{NoMemory, Unreadable};
ghost use Rattle.prog_scripts.specs.declared.fault.PlayFault.TheVariants.{Write as CannotWrite};
ghost use Rattle.prog_scripts.specs.Engines.{Outputs, Plays};
ghost use Rattle.prog_scripts.specs.Faults.{TakesAtMost};
ghost use Rattle.prog_scripts.specs.Plays.{IsPlay, play_of};
ghost use Rattle.roll_live.specs.Lives.{DuelWrites, Ends, FarOf, IsOutput, IsUnreadable, WritesOf};

use crate::engine::{live, write_live};
use prog_scripts::{Ending, GameName, PlayFault, Script, read_script, write_not_started};
use roll_duel::Duel;
use roll_frame::Refusal;
use roll_game::Tally;
use std::alloc::{AllocError, Global};
use std::io::{Read, Write};
use std::sync::Wait;
use std::thread::Threads;

/// A script is to be played live.
#[derive(Clone, Copy, Debug, PartialEq, Eq)]
pub struct Live {
    pub game: GameName,
    /// How many workers there are, 1 to 4.
    pub workers: u8,
}

/// Plays the script that a reader holds, with workers in threads of their own, and answers how the program ends.
///
/// At most 1,048,577 bytes are read. Nothing is written unless the whole script can be read and played, and then all at the
/// end. All threads have ended by then, whatever came of the script.
pub fn run<RT, R, W>(alloc: Global, rt: &RT, asked: Live, reader: &mut R, writer: &mut W) -> Ending
where
    RT: Threads + Wait + Copy + Send + 'static,
    R: Read,
    W: Write,
    requires { (1 ≤ asked.workers) × (asked.workers ≤ TEAM) }
    ensures ends { IfSome (R.remaining reader.old)
        (λ text. Ends asked.game text (W.contents writer.old) (W.contents writer.new) result) }
    ensures status { MatchOption result.fault (result.status ≤ 1) (λ fault. result.status ≡ 2) }
    ensures untouched { IfSome result.fault
        (λ fault. (fault ≡ CannotWrite) ⊎ (writer.new ≡ writer.old)) }
    ensures taken { TakesAtMost (TEXT_LIMIT + 1) (R.remaining reader.old) (R.remaining reader.new) }
{
    match perform(alloc, rt, asked, reader, writer) {
        Ok(0) => Ending {
            status: 0,
            fault: None,
        },
        Ok(_) => Ending {
            status: 1,
            fault: None,
        },
        Err(fault) => Ending::from(fault),
    }
}

/// How many replies are refusals.
fn perform<RT, R, W>(
    alloc: Global,
    rt: &RT,
    asked: Live,
    reader: &mut R,
    writer: &mut W,
) -> Result<u32, PlayFault>
where
    RT: Threads + Wait + Copy + Send + 'static,
    R: Read,
    W: Write,
    requires { (1 ≤ asked.workers) × (asked.workers ≤ TEAM) }
    ensures plays { Plays (IsUnreadable (FarOf asked.game)) (IsOutput (WritesOf asked.game))
        (R.remaining reader.old) (W.contents writer.old) (W.contents writer.new) result }
    ensures untouched { IfErr result (λ fault. (fault ≡ CannotWrite) ⊎ (writer.new ≡ writer.old)) }
    ensures taken { TakesAtMost (TEXT_LIMIT + 1) (R.remaining reader.old) (R.remaining reader.new) }
{
    match asked.game {
        GameName::Tally => {
            let helpers = tallies(alloc, asked.workers)?;
            live(
                alloc,
                rt,
                reader,
                writer,
                Tally::new(),
                Tally::opening(),
                helpers,
            )
        }
        GameName::Duel => {
            let script = read_script(alloc, reader)?;
            write_duel(alloc, rt, asked.workers, writer, &script)
        }
    }
}

/// Plays a script of the ship duel live, with a ship for each player, and writes all that it writes at once. A script with one
/// player or more than four is answered `refused 3` alone.
fn write_duel<RT, W>(
    alloc: Global,
    rt: &RT,
    workers: u8,
    writer: &mut W,
    script: &Script,
) -> Result<u32, PlayFault>
where
    RT: Threads + Wait + Copy + Send + 'static,
    W: Write,
    requires fits { IsPlay (play_of script.now) }
    requires few { length script.now.commands.items < 2 ^ 32 }
    requires workers { (1 ≤ workers) × (workers ≤ TEAM) }
    ensures outputs { Outputs (DuelWrites (play_of script.now))
        (W.contents writer.old) (W.contents writer.new) result }
    ensures far { (line : ℕ) → result ≡ Err (Unreadable line)
        → FarOf DuelName (play_of script.now) line }
    ensures untouched { IfErr result (λ fault. (fault ≡ CannotWrite) ⊎ (writer.new ≡ writer.old)) }
{
    let ships = script.header.players as u8;
    let Ok(duel) = Duel::new(alloc, ships) else {
        return write_not_started(alloc, writer, Refusal::PlayerOutOfRange);
    };
    let opening = duel.opening()?;
    let helpers = duels(alloc, ships, workers)?;
    write_live(alloc, rt, writer, script, duel, opening, helpers)
}

/// So many tallies.
fn tallies(alloc: Global, count: u8) -> Result<Vec<Tally>, AllocError>
    ensures { IfOk result (λ games. vec_len games ≡ count) }
{
    let mut games = Vec::new(alloc);
    for _ in 0..count {
        games.push(Tally::new())?;
    }
    Ok(games)
}

/// So many duels of so many ships.
fn duels(alloc: Global, ships: u8, count: u8) -> Result<Vec<Duel>, PlayFault>
    requires { (2 ≤ ships) × (ships ≤ 4) }
    ensures count { IfOk result (λ games. vec_len games ≡ count) }
    ensures fault { IfErr result (λ fault. fault ≡ NoMemory) }
{
    let mut games = Vec::new(alloc);
    for _ in 0..count {
        let Ok(duel) = Duel::new(alloc, ships) else {
            unreachable!()
        };
        games.push(duel)?;
    }
    Ok(games)
}
