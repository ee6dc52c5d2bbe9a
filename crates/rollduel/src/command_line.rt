//! What the words of the command line ask for, as the parts of the program take it.
ghost use Rattle.std.specs.Prelude.{◌≡◌, IfErr, IfOk, map, string_bytes, true};
ghost use Rattle.clap.specs.Faults.{fault_of};
ghost use Rattle.clap.specs.Kinds.{FailsBy};
ghost use Rattle.clap.specs.Words.{kind_of, takes};
ghost use Rattle.clap.specs.declared.error.kind.ErrorKind.TheVariants.{OutOfMemory};
ghost use Rattle.prog_command_line.specs.Commands.{rollduel_app};
ghost use Rattle.prog_command_line.specs.Requests.{HasWorkers as NamesWorkers, asked_of as line_of, picture_of as picture_in_line};
ghost use Rattle.rollduel.specs.Requests.{HasWorkers, asked_as, asked_by, asked_of, game_as, live_as, picture_as, picture_by, picture_of, task_as, text_as, window_as};

use crate::picture::PictureRequest;
use clap::Error;
use prog_command_line::{
    Game, Input, LiveOptions, OptionFault, PictureRequest as AskedPicture, PictureWindow,
    Request as Asked, TextRequest as AskedText, TextTask,
};
use prog_picture::Window;
use prog_scripts::{GameName, Task};
use roll_live::Live;
use std::alloc::Global;

// Where the end of a picture isn't named, the command line asks for as many frames as it can show.
const _: () = prove!(prog_command_line::FRAME_LIMIT == prog_picture::FRAME_LIMIT);

/// What the words ask for.
#[derive(Clone, Copy)]
pub struct CommandLine<'a> {
    pub request: Request<'a>,
    /// The picture that is to be made of it, if one is.
    pub picture: Option<PictureRequest<'a>>,
}

/// What is to be done.
#[derive(Clone, Copy)]
pub enum Request<'a> {
    /// Something with a text.
    Text(TextRequest<'a>),
    /// A script is to be played live.
    Live { input: Input<'a>, live: Live },
    /// Nothing, for what is said of a picture can't be followed.
    Refused(OptionFault),
}

/// What is to be done with a text.
#[derive(Clone, Copy)]
pub struct TextRequest<'a> {
    pub input: Input<'a>,
    pub task: Task,
    /// Whether what is wrong or refused is to be explained.
    pub explain: bool,
}

/// Reads the words, of which the first is the program's name. The error is a fault of usage, or help that was asked
/// for: `script` is what it tells of scripts.
pub fn read<'a>(
    alloc: Global,
    words: &'a [String],
    script: &'a str,
) -> Result<CommandLine<'a>, Error>
    ensures request { IfOk result (λ line. asked_of line.request ≡ asked_by
        (map string_bytes words.now)) }
    ensures picture { IfOk result (λ line. picture_of line.picture ≡ picture_by
        (map string_bytes words.now)) }
    ensures workers { IfOk result (λ line. HasWorkers line.request) }
    ensures taken { IfErr result (λ error. takes rollduel_app (map string_bytes words.now) ≡ true
        → kind_of error ≡ OutOfMemory) }
    ensures kinds { FailsBy (fault_of rollduel_app (map string_bytes words.now)) result }
{
    let line = prog_command_line::read(alloc, words, script)?;
    Ok(CommandLine {
        request: request_of(&line.request),
        picture: picture_of(line.picture),
    })
}

fn request_of<'a>(asked: &Asked<'a>) -> Request<'a>
    ensures asked { asked_of result ≡ asked_as (line_of asked.now) }
    ensures workers { NamesWorkers asked.now → HasWorkers result }
{
    match asked {
        Asked::Text(asked) => Request::Text(text_of(asked)),
        Asked::Live { input, live } => Request::Live {
            input: *input,
            live: live_of(live),
        },
        Asked::Refused(fault) => Request::Refused(*fault),
    }
}

fn picture_of<'a>(asked: Option<AskedPicture<'a>>) -> Option<PictureRequest<'a>>
    ensures { picture_of result ≡ picture_as (picture_in_line asked.entry) }
{
    match asked {
        Some(asked) => Some(PictureRequest {
            path: asked.path,
            window: window_of(asked.window),
        }),
        None => None,
    }
}

fn text_of<'a>(asked: &AskedText<'a>) -> TextRequest<'a>
    ensures { result ≡ text_as asked.now }
{
    TextRequest {
        input: asked.input,
        task: task_of(asked.task),
        explain: asked.explain,
    }
}

fn task_of(task: TextTask) -> Task
    ensures { result ≡ task_as task }
{
    match task {
        TextTask::Play(game) => Task::Play(game_of(game)),
        TextTask::SyncTest { game, frames } => Task::SyncTest {
            game: game_of(game),
            frames,
        },
        TextTask::Certify => Task::Certify,
    }
}

fn live_of(live: &LiveOptions) -> Live
    ensures { result ≡ live_as live.now }
{
    Live {
        game: game_of(live.game),
        workers: live.workers,
    }
}

fn window_of(window: PictureWindow) -> Window
    ensures { result ≡ window_as window }
{
    Window {
        from: window.from,
        to: window.to,
        tree: window.tree,
    }
}

fn game_of(game: Game) -> GameName
    ensures { result ≡ game_as game }
{
    match game {
        Game::Tally => GameName::Tally,
        Game::Duel => GameName::Duel,
    }
}
