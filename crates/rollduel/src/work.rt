//! What is done with a text: that of standard input, or that of a file.
ghost use Rattle.std.specs.Fn.{FnOnceReturnsAt};
ghost use Rattle.std.specs.Prelude.{◌≡◌, ◌≤◌, IfSome, None};
ghost use Rattle.roll_cli.specs.Programs.{Ends};
ghost use Rattle.roll_live.specs.Lives.{Ends as EndsLive};
ghost use Rattle.rollduel.specs.Endings.{HasStatus, EndsOn, EndsOnFile, ShowsOn, ShowsOnFile, misused};
ghost use Rattle.prog_command_line.specs.Requests.{path_of};

use crate::command_line::TextRequest;
use prog_command_line::Input;
use prog_explain::{Notes, show};
use prog_picture::Sight;
use prog_scripts::{Ending, PlayFault};
use roll_live::Live;
use std::alloc::{AllocGlobal, Global};
use std::fmt::{Display, Write as _};
use std::io;
use std::io::{Read, Write};
use std::sync::Wait;
use std::thread::Threads;

/// Does what is asked for, with standard input, of which notice is given, or the file that is opened. Its type has no
/// `Wait`, so it never waits for another thread.
pub fn answer<S: Read, N: FnOnce(), F: Read + Drop, W: Write, O: FnOnce(&str) -> io::Result<F>>(
    alloc: Global,
    asked: &TextRequest<'_>,
    standard: &mut S,
    notice: N,
    opener: O,
    sight: &mut Sight,
    writer: &mut W,
    notes: &mut Notes,
) -> Ending
    requires notice { N.IsAlwaysCallable notice }
    requires opener { O.IsAlwaysCallable opener }
    ensures standard { path_of asked.now.input ≡ None → EndsOn W.contents (Ends asked.now.task)
        writer.old writer.new result (S.remaining standard.old) }
    ensures file { IfSome (path_of asked.now.input) (λ path. (standard.new ≡ standard.old)
        × ((opened : _) × FnOnceReturnsAt O.FnOnce opener path opened × EndsOnFile W.contents
        (Ends asked.now.task) writer.old writer.new result F.remaining opened)) }
    ensures shown { path_of asked.now.input ≡ None → ShowsOn asked.now.task sight.old.window result
        sight.new.picture (S.remaining standard.old) }
    ensures shown_file { IfSome (path_of asked.now.input) (λ path.
        (opened : _) × FnOnceReturnsAt O.FnOnce opener path opened
        × ShowsOnFile asked.now.task sight.old.window result sight.new.picture F.remaining opened) }
    ensures status { HasStatus result }
    ensures none { sight.old.window ≡ None → sight.new ≡ sight.old }
{
    let (task, explain) = (asked.task, asked.explain);
    match asked.input {
        Input::Standard => {
            notice();
            show(
                alloc,
                task,
                "standard input",
                explain,
                standard,
                sight,
                writer,
                notes,
            )
        }
        Input::File(path) => match opener(path) {
            Ok(mut file) => {
                let ending = show(alloc, task, path, explain, &mut file, sight, writer, notes);
                if explain && ending.fault == Some(PlayFault::Read) {
                    note_of_file(notes, path, "a read failed");
                }
                ending
            }
            Err(error) => {
                if explain {
                    note_of_file(notes, path, error);
                }
                Ending::from(PlayFault::Read)
            }
        },
    }
}

/// Notes what is wrong with a file, whose name may hold anything: what a terminal would obey is escaped.
fn note_of_file(notes: &mut Notes, path: &str, why: impl Display + Drop) {
    notes.is_cut |= writeln!(notes.text, "{}: {why}", path.escape_debug()).is_err();
}

/// Tells why nothing is done: a fault of usage.
pub fn refuse(why: impl Display + Drop, notes: &mut Notes) -> Ending
    ensures { result ≡ misused }
{
    notes.is_cut |= writeln!(notes.text, "error: {why}").is_err();
    Ending {
        status: 2,
        fault: None,
    }
}

/// Plays a script live: that of standard input, of which notice is given, or that of the file that is opened.
pub fn play_live<T, S, N, F, W, O>(
    threads: &T,
    input: Input<'_>,
    live: Live,
    standard: &mut S,
    notice: N,
    opener: O,
    writer: &mut W,
) -> Ending
where
    T: AllocGlobal + Threads + Wait + Copy + Send + 'static,
    S: Read,
    N: FnOnce(),
    F: Read + Drop,
    W: Write,
    O: FnOnce(&str) -> io::Result<F>,
    requires workers { (1 ≤ live.workers) × (live.workers ≤ 4) }
    requires notice { N.IsAlwaysCallable notice }
    requires opener { O.IsAlwaysCallable opener }
    ensures standard { path_of input.entry ≡ None → EndsOn W.contents (EndsLive live.game)
        writer.old writer.new result (S.remaining standard.old) }
    ensures file { IfSome (path_of input.entry) (λ path. (standard.new ≡ standard.old)
        × ((opened : _) × FnOnceReturnsAt O.FnOnce opener path opened × EndsOnFile W.contents
        (EndsLive live.game) writer.old writer.new result F.remaining opened)) }
    ensures status { HasStatus result }
{
    match input {
        Input::Standard => {
            notice();
            roll_live::run(threads.alloc(), threads, live, standard, writer)
        }
        Input::File(path) => match opener(path) {
            Ok(mut file) => roll_live::run(threads.alloc(), threads, live, &mut file, writer),
            Err(_) => Ending::from(PlayFault::Read),
        },
    }
}
