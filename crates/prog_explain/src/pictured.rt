//! Scripts as pictures.
ghost use Rattle.std.specs.Prelude.{◌≡◌, ◌&&◌, ◌⊎◌, ◌<◌, ◌≤◌, ◌+◌, ◌^◌, [], IfOk, IfSome, MatchOption, None, OnOk, is_none, length, string_bytes};
ghost use Rattle.roll_text.specs.declared.streams.TheConstants.{TEXT_LIMIT};
ghost use Rattle.prog_scripts.specs.Faults.{TakesAtMost};
ghost use Rattle.prog_scripts.specs.Plays.{IsPlay, play_of};
ghost use Rattle.prog_scripts.specs.Output.{game_from};
ghost use Rattle.roll_cli.specs.Playings.{game_of};
ghost use Rattle.roll_cli.specs.Programs.{Ends};
ghost use Rattle.prog_observer.specs.Drawing.{IsDrawn};
ghost use Rattle.prog_explain.specs.Pictured.{AreDrawn, IsGameDrawn, IsPlayDrawn, IsShown, is_roll, played_by, seen_by};
ghost use Rattle.prog_observer.specs.Observing.{observed};
ghost use Rattle.prog_scripts.specs.declared.fault.PlayFault.TheVariants.{Write as CannotWrite};

use crate::explained::{Notes, explain_text, note_unread};
use prog_observer::Observer;
use prog_picture::{Sight, Window, draw};
use prog_scripts::{Command, Ending, GameName, PlayFault, Script, ScriptFault, Task};
use roll_cli::{Playing, run};
use roll_duel::Duel;
use roll_frame::Refusal;
use roll_game::{Shown, Tally};
use roll_session::Session;
use roll_text::read_all;
use std::alloc::{AllocError, Global};
use std::io::{Read, Write};

/// Does what `run` does, or if more is to be told, what `explain` does; and if a picture is asked for and the text is a
/// script that starts a session, makes that picture, before anything is written. The title is any text. The picture
/// shows what is seen of the session if it is watched after each command.
pub fn show<R: Read, W: Write>(
    alloc: Global,
    task: Task,
    title: &str,
    is_explained: bool,
    reader: &mut R,
    sight: &mut Sight,
    writer: &mut W,
    notes: &mut Notes,
) -> Ending
    ensures ends { IfSome (R.remaining reader.old)
        (λ text. Ends task text (W.contents writer.old) (W.contents writer.new) result) }
    ensures status { MatchOption result.fault (result.status ≤ 1) (λ fault. result.status ≡ 2) }
    ensures untouched { IfSome result.fault
        (λ fault. (fault ≡ CannotWrite) ⊎ (writer.new ≡ writer.old)) }
    ensures taken { TakesAtMost (TEXT_LIMIT + 1) (R.remaining reader.old) (R.remaining reader.new) }
    ensures window { sight.new.window ≡ sight.old.window }
    ensures none { sight.old.window ≡ None → sight.new ≡ sight.old }
    ensures shown { result.fault ≡ None → IfSome (R.remaining reader.old)
        (λ text. IsShown task sight.old.window text sight.new.picture) }
{
    match read_all(alloc, reader) {
        Ok(text) => show_text(
            alloc,
            task,
            title,
            is_explained,
            &text,
            sight,
            writer,
            notes,
        ),
        Err(fault) => {
            if is_explained {
                notes.is_cut |= note_unread(&mut notes.text, fault).is_err();
            }
            Ending::from(PlayFault::from(fault))
        }
    }
}

/// Does what `show` does, with a text that was read.
fn show_text<W: Write>(
    alloc: Global,
    task: Task,
    title: &str,
    is_explained: bool,
    text: &[u8],
    sight: &mut Sight,
    writer: &mut W,
    notes: &mut Notes,
) -> Ending
    requires { length text.now ≤ TEXT_LIMIT }
    ensures ends { Ends task text.now (W.contents writer.old) (W.contents writer.new) result }
    ensures status { MatchOption result.fault (result.status ≤ 1) (λ fault. result.status ≡ 2) }
    ensures untouched { IfSome result.fault
        (λ fault. (fault ≡ CannotWrite) ⊎ (writer.new ≡ writer.old)) }
    ensures window { sight.new.window ≡ sight.old.window }
    ensures none { sight.old.window ≡ None → sight.new ≡ sight.old }
    ensures shown { result.fault ≡ None
        → IsShown task sight.old.window text.now sight.new.picture }
{
    if see(alloc, task, title, text, sight).is_err() {
        return Ending::from(PlayFault::NoMemory);
    }
    if is_explained {
        return explain_text(alloc, task, text, writer, notes);
    }
    let mut reader = text;
    run(alloc, task, &mut reader, writer)
}

/// Makes the picture that is asked for, if the text is a script that starts a session.
fn see(
    alloc: Global,
    task: Task,
    title: &str,
    text: &[u8],
    sight: &mut Sight,
) -> Result<(), AllocError>
    requires { length text.now ≤ TEXT_LIMIT }
    ensures window { sight.new.window ≡ sight.old.window }
    ensures none { sight.old.window ≡ None → sight.new ≡ sight.old }
    ensures shown { OnOk result (IsShown task sight.old.window text.now sight.new.picture) }
{
    let Some(window) = sight.window else {
        return Ok(());
    };
    let Task::Play(game) = task else {
        return Ok(());
    };
    match Script::read(alloc, text) {
        Ok(script) => sight.picture = picture(alloc, game, title, &script, window)?,
        Err(ScriptFault::Unreadable(_)) => {}
        Err(ScriptFault::NoMemory) => return Err(AllocError),
    }
    Ok(())
}

/// The picture of a script; none if its session doesn't start.
fn picture(
    alloc: Global,
    game: GameName,
    title: &str,
    script: &Script,
    window: Window,
) -> Result<Option<String>, AllocError>
    requires fits { IsPlay (play_of script.now) }
    requires few { length script.now.commands.items < 2 ^ 32 }
    ensures { IfOk result (λ picture. IsGameDrawn game window (play_of script.now) picture) }
{
    match game {
        GameName::Tally => {
            let (game, helper) = (Tally::new(), Tally::new());
            play_seen(alloc, title, script, window, game, Tally::opening(), helper)
        }
        GameName::Duel => {
            let ships = script.header.players as u8;
            let (Ok(duel), Ok(helper)) = (Duel::new(alloc, ships), Duel::new(alloc, ships)) else {
                return Ok(None);
            };
            let Ok(opening) = duel.opening() else {
                return Err(AllocError);
            };
            play_seen(alloc, title, script, window, duel, opening, helper)
        }
    }
}

/// Plays a script once more, and draws what was seen of it.
fn play_seen<G: Shown + Drop>(
    alloc: Global,
    title: &str,
    script: &Script,
    window: Window,
    game: G,
    opening: G::Snapshot,
    helper: G,
) -> Result<Option<String>, AllocError>
    requires fits { IsPlay (play_of script.now) }
    requires few { length script.now.commands.items < 2 ^ 32 }
    ensures { IfOk result (λ picture. IsPlayDrawn (game_from (G.snapshot_value opening) G.step)
        window (play_of script.now) picture) }
{
    match Session::start(alloc, game, opening, script.header.settings()) {
        Ok(session) => Ok(Some(see_started(alloc, title, script, window, session, helper)?)),
        Err(fault) if fault.why == Refusal::NoMemory => Err(AllocError),
        Err(_) => Ok(None),
    }
}

/// Plays a script from a session on that was started for it, and draws what was seen.
fn see_started<G: Shown + Drop>(
    alloc: Global,
    title: &str,
    script: &Script,
    window: Window,
    session: Session<G>,
    helper: G,
) -> Result<String, AllocError>
    requires { length script.now.commands.items < 2 ^ 32 }
    ensures { IfOk result (λ picture. AreDrawn session.settings (game_from session.opening G.step)
        (record { core = session.core; jobs = [] }) script.now.commands.items window
        (string_bytes picture)) }
{
    let mut playing = Playing::new(alloc, session, helper);
    see_playing(alloc, title, &script.commands, window, &mut playing)
}

/// Plays commands, and draws what was seen of them.
fn see_playing<G: Shown>(
    alloc: Global,
    title: &str,
    commands: &[Command],
    window: Window,
    playing: &mut Playing<G>,
) -> Result<String, AllocError>
    requires { length playing.old.now.jobs + length commands.now < 2 ^ 32 }
    ensures { IfOk result (λ picture. AreDrawn playing.old.settings (game_of G.step playing.old)
        playing.old.now commands.now window (string_bytes picture)) }
{
    let mut observer = Observer::new(alloc, playing.session().players(), window)?;
    watch_all(alloc, playing, &mut observer, commands)?;
    draw_seen(alloc, title, observer, playing.session())
}

/// Draws what was seen of a session, as it is now.
fn draw_seen<G: Shown>(
    alloc: Global,
    title: &str,
    observer: Observer,
    session: &Session<G>,
) -> Result<String, AllocError>
    ensures { IfOk result (λ picture. IsDrawn session.now (observed observer)
        (string_bytes picture)) }
{
    let title = text_of(alloc, title)?;
    let scene = observer.into_scene(alloc, session, title)?;
    draw(alloc, &scene)
}

fn text_of(alloc: Global, text: &str) -> Result<String, AllocError> {
    let mut owned = String::new(alloc);
    owned.push_str(text)?;
    Ok(owned)
}

/// Plays the commands, and watches the session after each.
fn watch_all<G: Shown>(
    alloc: Global,
    playing: &mut Playing<G>,
    observer: &mut Observer,
    commands: &[Command],
) -> Result<(), AllocError>
    requires { length playing.old.now.jobs + length commands.now < 2 ^ 32 }
    ensures seen { OnOk result (observed observer.new ≡ seen_by playing.old.settings
        (game_of G.step playing.old) playing.old.now commands.now (observed observer.old)) }
    ensures played { OnOk result (playing.new.now ≡ played_by playing.old.settings
        (game_of G.step playing.old) playing.old.now commands.now) }
{
    let mut reply = Vec::new(alloc);
    for command in commands {
        reply.clear();
        let Ok(why) = playing.play(alloc, &mut reply, command) else {
            return Err(AllocError);
        };
        let watched = observer.watch(alloc, playing.session(), has_rolled(command, why));
        if watched.is_err() {
            return Err(AllocError);
        }
    }
    Ok(())
}

/// Whether a command rolls back or goes on, and wasn't refused.
fn has_rolled(command: &Command, why: Option<Refusal>) -> bool
    ensures { result ≡ (is_none why && is_roll command.now) }
{
    why.is_none() && matches!(command, Command::Sync | Command::Advance)
}
