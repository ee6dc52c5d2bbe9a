//! The commands of the program and their arguments.
ghost use Rattle.std.specs.Prelude.{◌≡◌, false, IfOk, IsOkAnd, map};
ghost use Rattle.clap.specs.declared.builder.command.Command.TheViews.{out-Command as fields_of};
ghost use Rattle.clap.specs.Words.{app_of, new_app, rule_of, with_subcommand};
ghost use Rattle.prog_command_line.specs.Commands.{AreGames, app_with, certify_app, live_app, play_app, synctest_app, with_rules};
ghost use Rattle.prog_command_line.specs.Commands.{explain_rule, file_rule, frame_rule, game_rule, number_rule, picture_rule, rule_for};

use crate::help;
use clap::builder::ValueParser;
use clap::{Arg, ArgAction, Command};
use std::alloc::{AllocError, Global};

// The names of arguments.

pub const FILE: &str = "FILE";

pub const GAME: &str = "game";

pub const FRAMES: &str = "frames";

pub const EXPLAIN: &str = "explain";

pub const WORKERS: &str = "workers";

pub const PICTURE: &str = "picture";

pub const FROM: &str = "from";

pub const TO: &str = "to";

pub const TREE: &str = "tree";

/// What `--game` takes.
pub fn games() -> &'static [&'static str]
    ensures { AreGames result }
{
    ["tally", "duel"].as_slice()
}

/// An argument that a command takes.
#[derive(Clone, Copy)]
pub enum Argument<'a> {
    /// FILE, with this help.
    File(&'a str),
    /// `--game GAME`, which is one of these.
    Game(&'a [&'a str]),
    /// `--name N`: the name, what stands for the number in help, its default, the least and the most that it may be, and
    /// its help.
    Number(&'a str, &'a str, &'a str, u64, u64, &'a str),
    /// `--picture FILE`.
    Picture,
    /// `--name FRAME`, which needn't be given: the name and its help.
    Frame(&'a str, &'a str),
    /// `--explain`.
    Explain,
}

/// The program with its commands, whose help tells of scripts what `script` says.
pub fn program_command<'a>(
    alloc: Global,
    script: &'a str,
    games: &'a [&'a str],
) -> Result<Command<'a>, AllocError>
    ensures { IfOk result (λ command. app_of command ≡ app_with games.entry) }
{
    let program = Command::new(alloc, "rollduel")
        .version(help::VERSION)
        .about(help::PROGRAM)
        .after_help(script);
    let program = with_command(program, play_command(alloc, script, games))?;
    let program = with_command(program, live_command(alloc, games))?;
    let program = with_command(program, synctest_command(alloc, games))?;
    with_command(program, certify_command(alloc))
}

/// A program with a command besides, if there was memory to make it.
fn with_command<'a>(
    program: Command<'a>,
    made: Result<Command<'a>, AllocError>,
) -> Result<Command<'a>, AllocError>
    ensures { IfOk result
        (λ more. IsOkAnd made.entry (λ command. (fields_of command).has_globals ≡ false
        → app_of more ≡ with_subcommand (app_of program.entry) (app_of command).top)) }
{
    let command = made?;
    program.subcommand(command)
}

fn play_command<'a>(
    alloc: Global,
    script: &'a str,
    games: &'a [&'a str],
) -> Result<Command<'a>, AllocError>
    ensures app { IfOk result (λ command. app_of command ≡ play_app games.entry) }
    ensures local { IfOk result (λ command. (fields_of command).has_globals ≡ false) }
{
    let arguments = [
        Argument::File("The script; - is standard input"),
        Argument::Game(games),
        Argument::Explain,
        Argument::Picture,
        Argument::Frame(FROM, help::FROM),
        Argument::Frame(TO, help::TO),
        Argument::Frame(TREE, help::TREE),
    ];
    let command = new_command(alloc, "play", help::PLAY, script);
    with_arguments(alloc, command, &arguments)
}

fn live_command<'a>(alloc: Global, games: &'a [&'a str]) -> Result<Command<'a>, AllocError>
    ensures app { IfOk result (λ command. app_of command ≡ live_app games.entry) }
    ensures local { IfOk result (λ command. (fields_of command).has_globals ≡ false) }
{
    let arguments = [
        Argument::File("The script; - is standard input"),
        Argument::Game(games),
        Argument::Number(WORKERS, "N", "1", 1, 4, help::WORKERS),
    ];
    let command = new_command(alloc, "live", help::LIVE, help::LIVE_SCRIPT);
    with_arguments(alloc, command, &arguments)
}

fn synctest_command<'a>(alloc: Global, games: &'a [&'a str]) -> Result<Command<'a>, AllocError>
    ensures app { IfOk result (λ command. app_of command ≡ synctest_app games.entry) }
    ensures local { IfOk result (λ command. (fields_of command).has_globals ≡ false) }
{
    let arguments = [
        Argument::File("The rows of inputs; - is standard input"),
        Argument::Game(games),
        Argument::Number(FRAMES, "N", "1", 1, 8, help::AGAIN),
        Argument::Explain,
    ];
    let command = new_command(alloc, "synctest", help::SYNCTEST, help::ROWS);
    with_arguments(alloc, command, &arguments)
}

fn certify_command<'a>(alloc: Global) -> Result<Command<'a>, AllocError>
    ensures app { IfOk result (λ command. app_of command ≡ certify_app) }
    ensures local { IfOk result (λ command. (fields_of command).has_globals ≡ false) }
{
    let arguments = [
        Argument::File("The claim; - is standard input"),
        Argument::Explain,
    ];
    let command = new_command(alloc, "certify", help::CERTIFY, help::CLAIM);
    with_arguments(alloc, command, &arguments)
}

/// A command with these arguments besides.
fn with_arguments<'a>(
    alloc: Global,
    command: Command<'a>,
    arguments: &[Argument<'a>],
) -> Result<Command<'a>, AllocError>
    ensures app { IfOk result (λ more. app_of more ≡ with_rules (app_of command.entry)
        (map rule_for arguments.now)) }
    ensures local { IfOk result (λ more. (fields_of more).has_globals ≡
        (fields_of command.entry).has_globals) }
{
    let mut command = command;
    for argument in arguments {
        command = command.arg(arg_of(alloc, argument))?;
    }
    Ok(command)
}

/// An argument as its parser has it.
fn arg_of<'a>(alloc: Global, argument: &Argument<'a>) -> Arg<'a>
    ensures rule { rule_of result ≡ rule_for argument.now }
    ensures local { result.global ≡ false }
{
    match *argument {
        Argument::File(help) => file_arg(alloc, help),
        Argument::Game(games) => game_arg(alloc, games),
        Argument::Number(name, value, default, least, most, help) => {
            number_arg(alloc, name, value, default, least, most, help)
        }
        Argument::Picture => picture_arg(alloc),
        Argument::Frame(name, help) => frame_arg(alloc, name, help),
        Argument::Explain => explain_arg(alloc),
    }
}

/// A command without arguments: a line of help, and what its `--help` tells after its arguments.
fn new_command<'a>(alloc: Global, name: &'a str, about: &'a str, after: &'a str) -> Command<'a>
    ensures app { app_of result ≡ new_app name.entry.now }
    ensures local { (fields_of result).has_globals ≡ false }
{
    Command::new(alloc, name).about(about).after_help(after)
}

fn file_arg<'a>(alloc: Global, help: &'a str) -> Arg<'a>
    ensures rule { rule_of result ≡ file_rule }
    ensures local { result.global ≡ false }
{
    Arg::new(alloc, FILE).required(true).help(help)
}

fn game_arg<'a>(alloc: Global, games: &'a [&'a str]) -> Arg<'a>
    ensures rule { rule_of result ≡ game_rule games.entry }
    ensures local { result.global ≡ false }
{
    Arg::new(alloc, GAME)
        .long(GAME)
        .value_name("GAME")
        .value_parser(games)
        .default_value("tally")
        .help("tally adds words up; duel has a ship for each of 2 to 4 players")
}

/// `--name N`, a number from `least` to `most`.
fn number_arg<'a>(
    alloc: Global,
    name: &'a str,
    value: &'a str,
    default: &'a str,
    least: u64,
    most: u64,
    help: &'a str,
) -> Arg<'a>
    ensures rule { rule_of result ≡ number_rule name.entry.now default.entry.now least most }
    ensures local { result.global ≡ false }
{
    Arg::new(alloc, name)
        .long(name)
        .value_name(value)
        .value_parser(ValueParser::unsigned(least, most))
        .default_value(default)
        .help(help)
}

/// `--picture FILE`.
fn picture_arg<'a>(alloc: Global) -> Arg<'a>
    ensures rule { rule_of result ≡ picture_rule }
    ensures local { result.global ≡ false }
{
    Arg::new(alloc, PICTURE)
        .long(PICTURE)
        .value_name("FILE")
        .help(help::PICTURE)
}

/// `--name FRAME`, which needn't be given.
fn frame_arg<'a>(alloc: Global, name: &'a str, help: &'a str) -> Arg<'a>
    ensures rule { rule_of result ≡ frame_rule name.entry.now }
    ensures local { result.global ≡ false }
{
    Arg::new(alloc, name)
        .long(name)
        .value_name("FRAME")
        .value_parser(ValueParser::unsigned(0, u64::from(u32::MAX)))
        .help(help)
}

fn explain_arg<'a>(alloc: Global) -> Arg<'a>
    ensures rule { rule_of result ≡ explain_rule }
    ensures local { result.global ≡ false }
{
    Arg::new(alloc, EXPLAIN)
        .long(EXPLAIN)
        .action(ArgAction::SetTrue)
        .help("Says more on standard error: what is wrong with a line, and what refusals mean")
}
