//! The picture that is asked for, and how it is saved.
ghost use Rattle.std.specs.Fn.{FnOnceReturnsAt, FnOnceReturnsAtPair};
ghost use Rattle.std.specs.Prelude.{◌≡◌, ◌⊎◌, Bool, MatchBool, MatchOption, option_map};
ghost use Rattle.prog_scripts.specs.declared.fault.PlayFault.TheVariants.{Write as CannotWrite};
ghost use Rattle.rollduel.specs.Endings.{ending_after, faulted, misused, to_save};

use prog_explain::Notes;
use prog_picture::{Sight, Window};
use prog_scripts::{Ending, PlayFault};
use std::fmt::Write as _;
use std::io;
use std::io::Read;

/// How a picture begins.
const PICTURE_HEAD: &str = "<svg xmlns=";

/// A picture that is asked for.
#[derive(Clone, Copy)]
pub struct PictureRequest<'a> {
    /// The path of its file.
    pub path: &'a str,
    /// What it is to show.
    pub window: Window,
}

/// The work that is done: how it ended, and what is to be saved.
#[derive(Drop)]
pub struct Done<'a> {
    pub ending: Ending,
    /// The path of the file for the picture, if one was asked for.
    pub path: Option<&'a str>,
    /// The picture, if one was made.
    pub picture: Option<String>,
}

/// A picture that isn't made yet, if one is asked for.
pub fn sight_of(asked: Option<PictureRequest<'_>>) -> Sight
    ensures { result ≡ record {
      window = option_map (λ asked. asked.window) asked.entry;
      picture = None;
    } }
{
    Sight {
        window: match asked {
            Some(asked) => Some(asked.window),
            None => None,
        },
        picture: None,
    }
}

/// The path of the file for the picture, if one is asked for.
pub fn path_of<'a>(asked: Option<PictureRequest<'a>>) -> Option<&'a str>
    ensures { result ≡ option_map (λ asked. asked.path) asked.entry }
{
    match asked {
        Some(asked) => Some(asked.path),
        None => None,
    }
}

/// Saves the picture that was made, and answers how the program ends. A file that is no picture isn't overwritten, and that is
/// told. One that can't be written is a fault. Where none was made though nothing failed, that is noted.
pub fn save<L: FnOnce(&str) -> bool, P: FnOnce(&str, &str) -> io::Result<()>>(
    done: Done<'_>,
    looker: L,
    saver: P,
    notes: &mut Notes,
) -> Ending
    requires looker { L.IsAlwaysCallable looker }
    requires saver { P.IsAlwaysCallable saver }
    ensures saved { MatchOption (to_save done.entry) (result ≡ done.entry.ending) (λ picture.
        (other : Bool) × FnOnceReturnsAt L.FnOnce looker picture.0 other
        × MatchBool other (result ≡ misused)
        ((saved : _) × FnOnceReturnsAtPair P.FnOnce saver picture.0 picture.1 saved
        × (result ≡ ending_after done.entry.ending saved))) }
    ensures ends { (result ≡ done.entry.ending) ⊎ (result ≡ misused)
        ⊎ (result ≡ faulted CannotWrite) }
{
    if done.ending.fault.is_some() {
        return done.ending;
    }
    match (done.path, done.picture) {
        (Some(path), Some(text)) => {
            save_at(path, text.as_str(), done.ending, looker, saver, notes)
        }
        (Some(_), None) => {
            note_no_picture(&done.ending, notes);
            done.ending
        }
        (None, _) => done.ending,
    }
}

/// Saves a picture in a file, unless another file stands there, after the work ended so.
fn save_at<L: FnOnce(&str) -> bool, P: FnOnce(&str, &str) -> io::Result<()>>(
    path: &str,
    text: &str,
    ending: Ending,
    looker: L,
    saver: P,
    notes: &mut Notes,
) -> Ending
    requires looker { L.IsAlwaysCallable looker }
    requires saver { P.IsAlwaysCallable saver }
    ensures saved { (other : Bool) × FnOnceReturnsAt L.FnOnce looker path.now other
        × MatchBool other (result ≡ misused)
        ((saved : _) × FnOnceReturnsAtPair P.FnOnce saver path.now text.now saved
        × (result ≡ ending_after ending saved)) }
    ensures ends { (result ≡ ending) ⊎ (result ≡ misused) ⊎ (result ≡ faulted CannotWrite) }
{
    if looker(path) {
        return refuse_other(path, notes);
    }
    match saver(path, text) {
        Ok(()) => ending,
        Err(_) => Ending::from(PlayFault::Write),
    }
}

/// Tells that a file isn't overwritten. Its name may hold anything: what a terminal would obey is escaped.
fn refuse_other(path: &str, notes: &mut Notes) -> Ending
    ensures { result ≡ misused }
{
    let name = path.escape_debug();
    notes.is_cut |= writeln!(
        notes.text,
        "error: --picture {name}: this file is no picture, and isn't overwritten"
    )
    .is_err();
    Ending {
        status: 2,
        fault: None,
    }
}

/// Whether a file begins as a picture does.
pub fn is_picture<F: Read>(file: &mut F) -> bool {
    let mut head = [0; PICTURE_HEAD.len()];
    file.read_exact(&mut head).is_ok() && head.as_slice() == PICTURE_HEAD.as_bytes()
}

/// Notes that there is nothing to draw, unless the words were refused, of which more was told.
fn note_no_picture(ending: &Ending, notes: &mut Notes) {
    if ending.status < 2 {
        notes.is_cut |= writeln!(notes.text, "no picture: nothing was played").is_err();
    }
}
