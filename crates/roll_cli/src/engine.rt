//! Scripts that are played, from a reader to a writer.
ghost use Rattle.std.specs.Prelude.{◌≡◌, ◌⊎◌, ◌<◌, ◌+◌, ◌^◌, ◌++◌, List, IfErr, IfOk, length};
ghost use Rattle.roll_text.specs.Streams.{IsBadAt};
ghost use Rattle.roll_text.specs.declared.streams.TheConstants.{TEXT_LIMIT};
ghost use Rattle.prog_scripts.specs.declared.fault.PlayFault.TheVariants.{NoMemory, Write as CannotWrite};
ghost use Rattle.prog_scripts.specs.Engines.{Outputs, Plays};
ghost use Rattle.prog_scripts.specs.Faults.{TakesAtMost};
ghost use Rattle.prog_scripts.specs.Headers.{IsSetup, setup_of};
ghost use Rattle.prog_scripts.specs.Plays.{AreCommands, IsScript};
ghost use Rattle.prog_scripts.specs.declared.command.Command.{Command};
ghost use Rattle.prog_scripts.specs.Output.{IsOutputAfter, duel_output, duel_refusals, game_from};
ghost use Rattle.prog_scripts.specs.Output.{output, output_under, refusals, refusals_under};
ghost use Rattle.roll_cli.specs.Headlines.{IsHeadlinedDuel, IsHeadlinedOutput};

use crate::playing::Playing;
use prog_scripts::{Header, PlayFault, outline, push_not_started, write_not_started};
use roll_duel::Duel;
use roll_frame::{Refusal, Settings};
use roll_game::Shown;
use roll_session::Session;
use roll_text::{read_all, write_all};
use std::alloc::Global;
use std::io::{Read, Write};

/// Room is taken at first for replies so many times as long as the commands: if frames are played without guesses, they
/// are four times as long.
const REPLIES: usize = 5;

/// Plays a script: reads all of it, writes the reply to each command, and answers how many replies are refusals. The
/// game starts at `opening`; `helper`, a second game of its kind, runs the jobs that guesses give. If the helper refuses,
/// the script ends as one for which there is no memory.
///
/// The replies are those of a session's rules, and of guesses and branches too. If the session starts, the headline
/// holds of the events that the commands ask for, and the lines of these are told of its turns, also if the writer cut
/// them short.
///
/// At most 1,048,577 bytes are read. Nothing is written unless the whole script can be read, and then all in large
/// pieces at the end. If the session doesn't start, its refusal is all that is written, and counts as one.
///
/// # Errors
///
/// `Unreadable` with the first line that no script with the same earlier lines has, or with 0 if the text is too long; `Read` if
/// the reader fails; `NoMemory` if the allocator has no room, or a game refuses. After these nothing is written. `Write` if the
/// writer fails: it has a front of the output, and not all of it. What was read by then is gone from the reader.
pub fn play<G: Shown + Drop, R: Read, W: Write>(
    alloc: Global,
    reader: &mut R,
    writer: &mut W,
    game: G,
    opening: G::Snapshot,
    helper: G,
) -> Result<u32, PlayFault>
    ensures plays { Plays (IsBadAt IsScript)
        (IsHeadlinedOutput G.text_of (game_from (G.snapshot_value opening) G.step))
        (R.remaining reader.old) (W.contents writer.old) (W.contents writer.new) result }
    ensures untouched { IfErr result (λ fault. (fault ≡ CannotWrite) ⊎ (writer.new ≡ writer.old)) }
    ensures taken { TakesAtMost (TEXT_LIMIT + 1) (R.remaining reader.old) (R.remaining reader.new) }
{
    let text = read_all(alloc, reader)?;
    let (header, commands) = outline(alloc, &text)?;
    write_played(alloc, writer, &header, commands, game, opening, helper)
}

/// Plays a script of the ship duel, as `play` does, with a ship for each player. A script with one player or more than
/// four is answered `refused 3` alone.
///
/// # Errors
///
/// As for [`play`].
pub fn play_duel<R: Read, W: Write>(
    alloc: Global,
    reader: &mut R,
    writer: &mut W,
) -> Result<u32, PlayFault>
    ensures plays { Plays (IsBadAt IsScript) IsHeadlinedDuel
        (R.remaining reader.old) (W.contents writer.old) (W.contents writer.new) result }
    ensures untouched { IfErr result (λ fault. (fault ≡ CannotWrite) ⊎ (writer.new ≡ writer.old)) }
    ensures taken { TakesAtMost (TEXT_LIMIT + 1) (R.remaining reader.old) (R.remaining reader.new) }
{
    let text = read_all(alloc, reader)?;
    let (header, commands) = outline(alloc, &text)?;
    write_duel(alloc, writer, &header, commands)
}

/// Plays the commands whose lines a text is, with a script's header, and writes all that they write at once.
fn write_played<G: Shown + Drop, W: Write>(
    alloc: Global,
    writer: &mut W,
    header: &Header,
    commands: &[u8],
    game: G,
    opening: G::Snapshot,
    helper: G,
) -> Result<u32, PlayFault>
    requires fits { IsSetup (setup_of header.now) }
    requires readable { (list : List Command) × AreCommands commands.now list }
    requires few { length commands.now < 2 ^ 32 }
    ensures outputs { Outputs (IsOutputAfter (setup_of header.now)
        (output G.text_of (game_from (G.snapshot_value opening) G.step))
        (refusals (game_from (G.snapshot_value opening) G.step)) commands.now)
        (W.contents writer.old) (W.contents writer.new) result }
    ensures fault { IfErr result
        (λ fault. (fault ≡ CannotWrite) ⊎ ((fault ≡ NoMemory) × (writer.new ≡ writer.old))) }
{
    let mut out = Vec::with_capacity(alloc, commands.len().saturating_mul(REPLIES))?;
    let settings = header.settings();
    let refused = push_output(alloc, &mut out, settings, commands, game, opening, helper)?;
    write_all(writer, &out)?;
    Ok(refused)
}

/// Plays commands of the ship duel, as `write_played` does.
fn write_duel<W: Write>(
    alloc: Global,
    writer: &mut W,
    header: &Header,
    commands: &[u8],
) -> Result<u32, PlayFault>
    requires fits { IsSetup (setup_of header.now) }
    requires readable { (list : List Command) × AreCommands commands.now list }
    requires few { length commands.now < 2 ^ 32 }
    ensures outputs { Outputs
        (IsOutputAfter (setup_of header.now) duel_output duel_refusals commands.now)
        (W.contents writer.old) (W.contents writer.new) result }
    ensures fault { IfErr result
        (λ fault. (fault ≡ CannotWrite) ⊎ ((fault ≡ NoMemory) × (writer.new ≡ writer.old))) }
{
    let ships = header.players as u8;
    let (Ok(duel), Ok(helper)) = (Duel::new(alloc, ships), Duel::new(alloc, ships)) else {
        return write_not_started(alloc, writer, Refusal::PlayerOutOfRange);
    };
    let opening = duel.opening()?;
    write_played(alloc, writer, header, commands, duel, opening, helper)
}

/// Writes all that the commands of a session write at the end, whose lines a text is, and answers how many replies are
/// refusals.
fn push_output<G: Shown + Drop>(
    alloc: Global,
    out: &mut Vec<u8>,
    settings: Settings,
    commands: &[u8],
    game: G,
    opening: G::Snapshot,
    helper: G,
) -> Result<u32, PlayFault>
    requires readable { (list : List Command) × AreCommands commands.now list }
    requires few { length commands.now < 2 ^ 32 }
    ensures written { IfOk result (λ refused. (list : List Command) × AreCommands commands.now list
        × (out.new.items ≡ out.old.items ++ output_under G.text_of settings
        (game_from (G.snapshot_value opening) G.step) list)
        × (refused ≡ refusals_under settings
        (game_from (G.snapshot_value opening) G.step) list)) }
    ensures fault { IfErr result (λ fault. fault ≡ NoMemory) }
{
    match Session::start(alloc, game, opening, settings) {
        Ok(session) => {
            let mut playing = Playing::new(alloc, session, helper);
            playing.expect(commands);
            playing.play_all(alloc, out, commands)
        }
        Err(fault) => push_not_started(out, fault.why),
    }
}
