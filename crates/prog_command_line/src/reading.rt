//! What the words of the command line ask for.
ghost use Rattle.std.specs.Prelude.{◌≡◌, ◌≤◌, codes, IfErr, IfOk, is_some, map, string_bytes, true};
ghost use Rattle.clap.specs.Faults.{fault_of};
ghost use Rattle.clap.specs.Kinds.{FailsBy};
ghost use Rattle.clap.specs.Words.{first_value, found_of, kind_of, takes};
ghost use Rattle.clap.specs.Words.{subcommand_rows_of};
ghost use Rattle.clap.specs.declared.error.kind.ErrorKind.TheVariants.{OutOfMemory};
ghost use Rattle.prog_command_line.specs.Commands.{rollduel_app};
ghost use Rattle.prog_command_line.specs.Requests.{HasWorkers, asked_by, asked_in, asked_named, asked_of, frames_named, game_named, is_named, live_named, number_named, path_named, path_of, picture_by, picture_in, picture_of, task_named, work_named, workers_named};

use crate::commands::{EXPLAIN, FILE, FRAMES, GAME, WORKERS, games, program_command};
use crate::picture::{option_fault, picture_of};
use crate::request::{CommandLine, Game, Input, LiveOptions, Request, TextRequest, TextTask};
use clap::{ArgMatches, Error};
use std::alloc::Global;

/// Reads the words, of which the first is the program's name. The error is a fault of usage, or help that was asked
/// for: `script` is what it tells of scripts. For words that the commands take, the only error is want of memory. How a
/// fault and help are worded is tested (`tests/runs/program.t`).
pub fn read<'a>(
    alloc: Global,
    words: &'a [String],
    script: &'a str,
) -> Result<CommandLine<'a>, Error>
    ensures request { IfOk result (λ line. asked_of line.request ≡ asked_by
        (map string_bytes words.now)) }
    ensures picture { IfOk result (λ line. picture_of line.picture ≡ picture_by
        (map string_bytes words.now)) }
    ensures workers { IfOk result (λ line. HasWorkers line.request) }
    ensures taken { IfErr result (λ error. takes rollduel_app (map string_bytes words.now) ≡ true
        → kind_of error ≡ OutOfMemory) }
    ensures kinds { FailsBy (fault_of rollduel_app (map string_bytes words.now)) result }
{
    let command = program_command(alloc, script, games())?;
    let matches = command.try_get_matches_from(words)?;
    Ok(line_of(&matches))
}

/// What the command that was met asks for, or no command.
fn line_of<'a>(matches: &ArgMatches<'a>) -> CommandLine<'a>
    ensures request { asked_of result.request ≡ asked_in (subcommand_rows_of matches.now) }
    ensures picture { picture_of result.picture ≡ picture_in (subcommand_rows_of matches.now) }
    ensures workers { HasWorkers result.request }
{
    match matches.subcommand() {
        Some((name, found)) => CommandLine {
            request: request_of(name, found),
            picture: picture_of(found),
        },
        None => CommandLine {
            request: Request::Text(TextRequest {
                input: Input::Standard,
                task: TextTask::Play(Game::Tally),
                explain: false,
            }),
            picture: None,
        },
    }
}

/// The request of the command of this name.
fn request_of<'a>(name: &str, found: &ArgMatches<'a>) -> Request<'a>
    ensures asked { asked_of result ≡ asked_named name.now (first_value (found_of found.now)) }
    ensures workers { HasWorkers result }
{
    match option_fault(found) {
        Some(fault) => Request::Refused(fault),
        None => work_of(name, found),
    }
}

/// What the command of this name asks for, but for a picture.
fn work_of<'a>(name: &str, found: &ArgMatches<'a>) -> Request<'a>
    ensures asked { asked_of result ≡ work_named name.now (first_value (found_of found.now)) }
    ensures workers { HasWorkers result }
{
    match name {
        "live" => Request::Live {
            input: input_of(found),
            live: live_of(found),
        },
        _ => Request::Text(TextRequest {
            input: input_of(found),
            task: task_of(name, found),
            explain: is_explained(found),
        }),
    }
}

fn task_of(name: &str, found: &ArgMatches<'_>) -> TextTask
    ensures { result ≡ task_named name.now (first_value (found_of found.now) (codes "game"))
        (first_value (found_of found.now) (codes "frames")) }
{
    match name {
        "certify" => TextTask::Certify,
        "synctest" => TextTask::SyncTest {
            game: game_of(found),
            frames: frames_of(found),
        },
        _ => TextTask::Play(game_of(found)),
    }
}

fn live_of(found: &ArgMatches<'_>) -> LiveOptions
    ensures named { result ≡ live_named (first_value (found_of found.now)) }
    ensures workers { (1 ≤ result.workers) × (result.workers ≤ 4) }
{
    LiveOptions {
        game: game_of(found),
        workers: workers_of(found),
    }
}

/// Whether an argument of this name is given.
pub fn is_given(found: &ArgMatches<'_>, name: &str) -> bool
    ensures { result ≡ is_some (first_value (found_of found.now) name.now) }
{
    found.get_str(name).is_some()
}

fn input_of<'a>(found: &ArgMatches<'a>) -> Input<'a>
    ensures { path_of result ≡ path_named (first_value (found_of found.now) (codes "FILE")) }
{
    match found.get_str(FILE) {
        None | Some("-") => Input::Standard,
        Some(path) => Input::File(path),
    }
}

fn game_of(found: &ArgMatches<'_>) -> Game
    ensures { result ≡ game_named (first_value (found_of found.now) (codes "game")) }
{
    match found.get_str(GAME) {
        Some("duel") => Game::Duel,
        _ => Game::Tally,
    }
}

fn frames_of(found: &ArgMatches<'_>) -> u32
    ensures { result ≡ frames_named (first_value (found_of found.now) (codes "frames")) }
{
    match found.get_str(FRAMES) {
        Some(value) => u32::from(value.parse::<u8>().unwrap_or(0)),
        None => 1,
    }
}

fn workers_of(found: &ArgMatches<'_>) -> u8
    ensures named { result ≡ workers_named (first_value (found_of found.now) (codes "workers")) }
    ensures range { (1 ≤ result) × (result ≤ 4) }
{
    let workers = byte_of(found, WORKERS);
    if 1 <= workers && workers <= 4 {
        workers
    } else {
        1
    }
}

fn byte_of(found: &ArgMatches<'_>, name: &str) -> u8
    ensures { result ≡ number_named 8 (first_value (found_of found.now) name.now) }
{
    match found.get_str(name) {
        Some(value) => value.parse::<u8>().unwrap_or(0),
        None => 0,
    }
}

/// The number that an argument names; 0 if none is given, or if it is no number of 32 bits, which its parser refuses
/// before.
pub fn number_of(found: &ArgMatches<'_>, name: &str) -> u32
    ensures { result ≡ number_named 32 (first_value (found_of found.now) name.now) }
{
    match found.get_str(name) {
        Some(value) => value.parse::<u32>().unwrap_or(0),
        None => 0,
    }
}

fn is_explained(found: &ArgMatches<'_>) -> bool
    ensures { result ≡ is_named (first_value (found_of found.now) (codes "explain")) }
{
    match found.get_str(EXPLAIN) {
        Some(value) => value == "true",
        None => false,
    }
}
