//! What words ask for, by the options that they name.

use crate::picture::{OptionFault, PictureRequest};

/// What the words ask for.
#[derive(Clone, Copy)]
pub struct CommandLine<'a> {
    pub request: Request<'a>,
    /// The picture that is to be made of it, if one is.
    pub picture: Option<PictureRequest<'a>>,
}

/// What is to be done.
#[derive(Clone, Copy)]
pub enum Request<'a> {
    /// Something with a text.
    Text(TextRequest<'a>),
    /// A script is to be played live.
    Live { input: Input<'a>, live: LiveOptions },
    /// Nothing, for what is said of a picture can't be followed.
    Refused(OptionFault),
}

/// What is to be done with a text.
#[derive(Clone, Copy)]
pub struct TextRequest<'a> {
    pub input: Input<'a>,
    pub task: TextTask,
    /// Whether what is wrong or refused is to be explained.
    pub explain: bool,
}

/// Where a text is.
#[derive(Clone, Copy)]
pub enum Input<'a> {
    Standard,
    /// The file of this path.
    File(&'a str),
}

/// What a text is, and so what is done with it.
#[derive(Clone, Copy)]
pub enum TextTask {
    /// A script, to be played with this game.
    Play(Game),
    /// A file of rows, with which this game is tested, so many frames at once.
    SyncTest { game: Game, frames: u32 },
    /// A claim, to be checked.
    Certify,
}

/// What `--game` names.
#[derive(Clone, Copy)]
pub enum Game {
    Tally,
    Duel,
}

/// How a script is to be played live.
#[derive(Clone, Copy)]
pub struct LiveOptions {
    pub game: Game,
    /// How many workers there are, 1 to 4.
    pub workers: u8,
}
