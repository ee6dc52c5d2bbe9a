//! The picture that the words ask for.
ghost use Rattle.std.specs.Prelude.{◌≡◌, option_map};
ghost use Rattle.clap.specs.Words.{first_value, found_of};
ghost use Rattle.prog_command_line.specs.Requests.{names_part, number_in, option_fault, picture_named, picture_of, window_fault, window_named};

use crate::commands::{FROM, PICTURE, TO, TREE};
use crate::reading::{is_given, number_of};
use clap::ArgMatches;
use thiserror::Error;

/// How many frames a picture shows, unless the frame after its last one is named.
pub const FRAME_LIMIT: u32 = 600;

/// A picture that is asked for.
#[derive(Clone, Copy)]
pub struct PictureRequest<'a> {
    /// The path of its file.
    pub path: &'a str,
    /// What it is to show.
    pub window: PictureWindow,
}

/// What a picture is to show.
#[derive(Clone, Copy)]
pub struct PictureWindow {
    /// The first frame.
    pub from: u32,
    /// The frame after the last one.
    pub to: u32,
    /// The frame at whose rollback saved states are shown, if one is named.
    pub tree: Option<u32>,
}

/// Why what is said of a picture can't be followed.
#[derive(Clone, Copy, Debug, PartialEq, Eq, Error)]
pub enum OptionFault {
    /// There is no picture of which this would be a part.
    #[error("--from, --to and --tree can't be used without --picture")]
    NoPicture,
    /// The picture would show no frame.
    #[error("--to has to be past --from")]
    NoFrames,
    /// The picture would show more frames than one can.
    #[error("--from {from} --to {to}: a picture shows 600 frames at most")]
    ManyFrames {
        /// The first frame.
        from: u32,
        /// The frame after the last one.
        to: u32,
    },
}

/// The picture that the arguments of a command ask for.
pub fn picture_of<'a>(found: &ArgMatches<'a>) -> Option<PictureRequest<'a>>
    ensures { picture_of result ≡ picture_named (first_value (found_of found.now)) }
{
    match found.get_str(PICTURE) {
        Some(path) => Some(PictureRequest {
            path,
            window: window_of(found),
        }),
        None => None,
    }
}

/// Why what the arguments of a command say of a picture can't be followed, if it can't.
pub fn option_fault(found: &ArgMatches<'_>) -> Option<OptionFault>
    ensures { result ≡ option_fault (first_value (found_of found.now)) }
{
    if is_given(found, PICTURE) {
        window_fault(&window_of(found))
    } else if names_part(found) {
        Some(OptionFault::NoPicture)
    } else {
        None
    }
}

/// Why no picture shows this.
fn window_fault(window: &PictureWindow) -> Option<OptionFault>
    ensures { result ≡ window_fault window.now }
{
    let PictureWindow { from, to, .. } = *window;
    if to <= from {
        Some(OptionFault::NoFrames)
    } else if FRAME_LIMIT < to - from {
        Some(OptionFault::ManyFrames { from, to })
    } else {
        None
    }
}

/// Whether a part of a picture is named.
fn names_part(found: &ArgMatches<'_>) -> bool
    ensures { result ≡ names_part (first_value (found_of found.now)) }
{
    is_given(found, FROM) || is_given(found, TO) || is_given(found, TREE)
}

fn window_of(found: &ArgMatches<'_>) -> PictureWindow
    ensures { result ≡ window_named (first_value (found_of found.now)) }
{
    let from = number_of(found, FROM);
    PictureWindow {
        from,
        to: frame_of(found, TO).unwrap_or(from.saturating_add(FRAME_LIMIT)),
        tree: frame_of(found, TREE),
    }
}

/// The number of a frame that an option names, if it is given.
pub fn frame_of(found: &ArgMatches<'_>, name: &str) -> Option<u32>
    ensures { result ≡ option_map (number_in 32) (first_value (found_of found.now) name.now) }
{
    match found.get_str(name) {
        Some(value) => Some(value.parse::<u32>().unwrap_or(0)),
        None => None,
    }
}
