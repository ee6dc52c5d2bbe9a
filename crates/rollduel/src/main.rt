//! The program `rollduel`: plays scripts and prints what the session shows, tests games, and checks claims.
//!
//! The work is done in `roll_cli`, `prog_explain` and `roll_live`, and `prog_command_line` reads the command line.
//! Here are the streams, the file of a picture and the exit status.
//!
//! What terminals, pipes and files give or take no clause can say. So less is proved of `main` than of `perform` on
//! streams that tell their bytes (`roll_text`): the rest is tested on the program as it is built (`tests/runs`).
#![tactic(auto)]

ghost use Rattle.std.specs.Fn.{FnOnceReturnsAt};
ghost use Rattle.std.specs.Prelude.{◌≡◌, ◌⊎◌, [], IfErr, IfOk, IfSome, None, map, option_map, string_bytes};
ghost use Rattle.std.specs.Process.{exit_status};
ghost use Rattle.clap.specs.Faults.{fault_of};
ghost use Rattle.clap.specs.Kinds.{FailsBy};
ghost use Rattle.clap.specs.Words.{kind_of};
ghost use Rattle.prog_scripts.specs.declared.fault.PlayFault.TheVariants.{NoMemory, Read as CannotRead};
ghost use Rattle.prog_command_line.specs.Commands.{rollduel_app};
ghost use Rattle.rollduel.specs.Endings.{HasStatus, ShowsOn, ShowsOnFile, EndsOn, EndsOnFile, EndsRefused, EndsUnpictured, IsPrinted, misused};
ghost use Rattle.rollduel.specs.Requests.{IfLive, IfRefused, IfText, asked_by, picture_by, window_by};
ghost use Rattle.roll_cli.specs.Programs.{Ends};
ghost use Rattle.roll_live.specs.Lives.{Ends as EndsLive};

mod command_line;
mod help;
mod picture;
mod work;

use clap::Error;
use clap::error::ErrorKind;
use command_line::Request;
use picture::{Done, is_picture, path_of, save, sight_of};
use prog_explain::Notes;
use prog_scripts::{Ending, PlayFault};
use std::alloc::AllocGlobal;
use std::io::{Eprint, IsTerminal, Read, Write};
use std::process::ExitCode;
use std::rt::Runtime;
use std::sync::Wait;
use std::thread::Threads;
use std::{env, fs, io};

fn main(rt: HostRuntime) -> ExitCode {
    let mut notes = Notes::new(rt.alloc());
    let ending = run(&rt, &rt, &mut notes);
    finish(&rt, &ending, &notes)
}

/// Tells the fault, if there is one, and after it the notes, and answers what the program exits with.
fn finish<R: Eprint>(rt: &R, ending: &Ending, notes: &Notes) -> ExitCode
    ensures { exit_status result ≡ ending.now.status }
{
    // Where standard error can't be written either, the status alone tells.
    if let Some(fault) = ending.fault {
        let _ = eprintln!(rt; "rollduel: {fault}");
    }
    let _ = eprint!(rt; "{}", notes.text);
    if notes.is_cut {
        let _ = eprintln!(rt; "rollduel: no memory for more notes");
    }
    ExitCode::from(ending.status)
}

/// Does what the words of the command line ask for.
fn run<R, T>(rt: &R, threads: &T, notes: &mut Notes) -> Ending
where
    R: Runtime + AllocGlobal,
    R::Reader: IsTerminal,
    T: AllocGlobal + Threads + Wait + Copy + Send + 'static,
    ensures status { HasStatus result }
{
    match words(rt) {
        Ok(words) => run_words(rt, threads, &words, notes),
        Err(fault) => Ending::from(fault),
    }
}

/// Does what these words ask for, of which the first is the program's name.
fn run_words<R, T>(rt: &R, threads: &T, words: &[String], notes: &mut Notes) -> Ending
where
    R: Runtime + AllocGlobal,
    R::Reader: IsTerminal,
    T: AllocGlobal + Threads + Wait + Copy + Send + 'static,
    ensures refused { EndsRefused (fault_of rollduel_app (map string_bytes words.now)) result }
    ensures unpictured { fault_of rollduel_app (map string_bytes words.now) ≡ []
        → IfRefused (asked_by (map string_bytes words.now)) (EndsUnpictured result) }
    ensures status { HasStatus result }
{
    let Ok(script) = help::script(rt.alloc()) else {
        return Ending::from(PlayFault::NoMemory);
    };
    let opener = |path: &str| fs::open(rt, path);
    let mut standard = rt.reader();
    let is_typed = standard.is_terminal();
    let notice = || {
        if is_typed {
            let _ = eprintln!(rt; "rollduel: reads from the terminal, up to its end (Ctrl-D)");
        }
    };
    match perform(
        threads,
        words,
        &script,
        &mut standard,
        notice,
        opener,
        &mut io::writer(rt),
        notes,
    ) {
        Ok(done) => save(
            done,
            |path: &str| is_other(rt, path),
            |path: &str, text: &str| fs::write(rt, path, text),
            notes,
        ),
        Err(error) => print(rt, &error),
    }
}

/// Does what the words ask for, with standard input, of which notice is given, or the file that is opened, and notes what
/// it explains. The help tells of scripts what `script` says. The error is to be printed.
fn perform<'a, T, S, N, F, W, O>(
    threads: &T,
    words: &'a [String],
    script: &'a str,
    standard: &mut S,
    notice: N,
    opener: O,
    writer: &mut W,
    notes: &mut Notes,
) -> Result<Done<'a>, Error>
where
    T: AllocGlobal + Threads + Wait + Copy + Send + 'static,
    S: Read,
    N: FnOnce(),
    F: Read + Drop,
    W: Write,
    O: FnOnce(&str) -> io::Result<F>,
    requires notice { N.IsAlwaysCallable notice }
    requires opener { O.IsAlwaysCallable opener }
    ensures standard { IfOk result (λ done. IfText (asked_by (map string_bytes words.now))
        (λ path task. path ≡ None → EndsOn W.contents (Ends task) writer.old writer.new done.ending
        (S.remaining standard.old))) }
    ensures file { IfOk result (λ done. IfText (asked_by (map string_bytes words.now))
        (λ path task. IfSome path (λ path. (standard.new ≡ standard.old)
        × ((opened : _) × FnOnceReturnsAt O.FnOnce opener path opened × EndsOnFile W.contents
        (Ends task) writer.old writer.new done.ending F.remaining opened)))) }
    ensures shown { IfOk result (λ done. IfText (asked_by (map string_bytes words.now))
        (λ path task. path ≡ None → ShowsOn task (window_by (map string_bytes words.now))
        done.ending done.picture (S.remaining standard.old))) }
    ensures shown_file { IfOk result (λ done. IfText (asked_by (map string_bytes words.now))
        (λ path task. IfSome path (λ path. (opened : _) × FnOnceReturnsAt O.FnOnce opener path
        opened × ShowsOnFile task (window_by (map string_bytes words.now)) done.ending done.picture
        F.remaining opened))) }
    ensures live { IfOk result (λ done. IfLive (asked_by (map string_bytes words.now))
        (λ path live. path ≡ None → EndsOn W.contents (EndsLive live.game) writer.old writer.new
        done.ending (S.remaining standard.old))) }
    ensures live_file { IfOk result (λ done. IfLive (asked_by (map string_bytes words.now))
        (λ path live. IfSome path (λ path. (standard.new ≡ standard.old)
        × ((opened : _) × FnOnceReturnsAt O.FnOnce opener path opened × EndsOnFile W.contents
        (EndsLive live.game) writer.old writer.new done.ending F.remaining opened)))) }
    ensures unpictured { IfOk result (λ done. IfRefused (asked_by (map string_bytes words.now))
        (λ fault. (done.ending ≡ misused) × (done.picture ≡ None) × (standard.new ≡ standard.old)
        × (writer.new ≡ writer.old))) }
    ensures path { IfOk result (λ done. option_map (λ path. path.now) done.path
        ≡ option_map (λ picture. picture.0) (picture_by (map string_bytes words.now))) }
    ensures no_picture { IfOk result (λ done. picture_by (map string_bytes words.now) ≡ None
        → done.picture ≡ None) }
    ensures status { IfOk result (λ done. HasStatus done.ending) }
    ensures untouched { IfErr result (λ error. (standard.new ≡ standard.old)
        × (writer.new ≡ writer.old)) }
    ensures kinds { FailsBy (fault_of rollduel_app (map string_bytes words.now)) result }
{
    let alloc = threads.alloc();
    let line = command_line::read(alloc, words, script)?;
    let mut sight = sight_of(line.picture);
    let path = path_of(line.picture);
    match line.request {
        Request::Text(asked) => {
            let ending = work::answer(
                alloc, &asked, standard, notice, opener, &mut sight, writer, notes,
            );
            Ok(Done {
                ending,
                path,
                picture: sight.picture,
            })
        }
        Request::Live { input, live } => {
            let ending = work::play_live(threads, input, live, standard, notice, opener, writer);
            Ok(Done {
                ending,
                path,
                picture: sight.picture,
            })
        }
        Request::Refused(fault) => Ok(Done {
            ending: work::refuse(fault, notes),
            path,
            picture: None,
        }),
    }
}

/// Whether a file stands there that is no picture.
fn is_other<R: Runtime + AllocGlobal>(rt: &R, path: &str) -> bool {
    match fs::metadata(rt, path) {
        Ok(about) if about.is_file() => match fs::open(rt, path) {
            Ok(mut file) => !is_picture(&mut file),
            Err(_) => false,
        },
        _ => false,
    }
}

/// The words of the command line, with the program's name in front. One that is not UTF-8 can't be read.
fn words<R: Runtime + AllocGlobal>(rt: &R) -> Result<Vec<String>, PlayFault>
    ensures { IfErr result (λ fault. (fault ≡ NoMemory) ⊎ (fault ≡ CannotRead)) }
{
    match env::args(rt) {
        Ok(words) => Ok(words.collect(rt.alloc())?),
        Err(error) if error.kind() == io::ErrorKind::OutOfMemory => Err(PlayFault::NoMemory),
        Err(_) => Err(PlayFault::Read),
    }
}

/// Prints the help that was asked for, or the fault of usage.
fn print<R: Runtime + AllocGlobal>(rt: &R, error: &Error) -> Ending
    ensures { IsPrinted (kind_of error.now) result }
{
    if error.kind() == ErrorKind::OutOfMemory {
        return Ending::from(PlayFault::NoMemory);
    }
    match error.print(rt) {
        Ok(()) => Ending {
            status: error.exit_code() as u8,
            fault: None,
        },
        Err(_) => Ending::from(PlayFault::Write),
    }
}
