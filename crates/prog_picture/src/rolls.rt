//! The rollbacks of a picture.
ghost use Rattle.std.specs.Prelude.{◌≡◌, ◌++◌, IfOk, IfSome, MatchOption, OnOk, length};
ghost use Rattle.std.specs.List.{flat_map};
ghost use Rattle.std.specs.String.{string_bytes};
ghost use Rattle.prog_picture.specs.Rolls.{IsDeepest, bar_text, cause_of, is_shown, late_of, numbers_text, roll_mark, roll_marks, roll_text};
ghost use Rattle.prog_picture.specs.Views.{IsView};

use crate::scene::{Cause, Roll};
use crate::view::View;
use std::alloc::{AllocError, Global};
use std::fmt::Write;

/// In how many rows rollbacks stand.
pub const ROWS: u32 = 8;

/// How tall such a row is.
pub const ROW_HEIGHT: u32 = 12;

/// A rollback in the picture, in its units.
#[derive(Clone, Copy)]
pub struct RollMark {
    pub roll: Roll,
    /// The first frame that was run again.
    pub from: u32,
    /// How many frames late it came.
    pub late: u32,
    /// Where the frames begin that were run again, and those that GGPO runs.
    pub rerun_x: u32,
    pub ggpo_x: u32,
    /// Where both end.
    pub end_x: u32,
    /// Where its row begins.
    pub y: u32,
}

/// The marks of the rollbacks that are shown, each once, in their order.
pub fn roll_marks(alloc: Global, rolls: &[Roll], view: &View) -> Result<Vec<RollMark>, AllocError>
    requires { IsView view.now }
    ensures { IfOk result (λ marks. marks.items ≡ roll_marks view.now rolls.now) }
{
    rolls
        .iter()
        .filter(|roll| is_shown(roll, view))
        .map(|roll| roll_mark(roll, view))
        .collect(alloc)
}

/// Whether the frame that a rollback came to is shown, or follows the last one.
pub fn is_shown(roll: &Roll, view: &View) -> bool
    ensures { result ≡ is_shown view.now roll.now }
{
    view.from <= roll.at && roll.at <= view.to
}

/// The mark of a rollback.
fn roll_mark(roll: &Roll, view: &View) -> RollMark
    requires { IsView view.now }
    ensures { result ≡ roll_mark view.now roll.now }
{
    let from = roll.at.saturating_sub(roll.rerun);
    let shown_from = roll.at.saturating_sub(roll.ggpo);
    RollMark {
        roll: *roll,
        from,
        late: late_of(roll),
        rerun_x: view.x_of(from),
        ggpo_x: view.x_of(shown_from),
        end_x: view.x_of(roll.at),
        y: roll.at % ROWS * ROW_HEIGHT,
    }
}

/// How many frames late came what made a rollback.
fn late_of(roll: &Roll) -> u32
    ensures { result ≡ late_of roll.now.at roll.now.cause }
{
    match roll.cause {
        Cause::Word { frame, .. } | Cause::Leaving { frame, .. } => roll.at.saturating_sub(frame),
        Cause::Nothing => 0,
    }
}

/// Writes the marks one after another.
pub fn push_rolls(out: &mut String, marks: &[RollMark]) -> Result<(), AllocError>
    ensures { OnOk result
        (string_bytes out.new ≡ string_bytes out.old ++ flat_map roll_text marks.now) }
{
    for mark in marks {
        push_roll(out, mark)?;
    }
    Ok(())
}

/// Writes a rollback: what is told of it, the frames that GGPO runs, and on them those that were run again.
fn push_roll(out: &mut String, mark: &RollMark) -> Result<(), AllocError>
    ensures { OnOk result (string_bytes out.new ≡ string_bytes out.old ++ roll_text mark.now) }
{
    push_numbers(out, mark)?;
    push_cause(out, mark.roll.cause, mark.late)?;
    push_bar(out, "o", mark.ggpo_x, mark.y, mark.end_x)?;
    push_bar(out, "f", mark.rerun_x, mark.y, mark.end_x)?;
    out.push_str("</g>\n")?;
    Ok(())
}

/// Writes how many frames were run again, and from which on.
fn push_numbers(out: &mut String, mark: &RollMark) -> Result<(), AllocError>
    ensures { OnOk result (string_bytes out.new ≡ string_bytes out.old ++ numbers_text mark.now) }
{
    let Roll {
        at,
        rerun,
        ggpo,
        ..
    } = mark.roll;
    let from = mark.from;
    write!(
        out,
        "<g><title>frame {at}: {rerun} run again, from {from} on; GGPO: {ggpo}"
    )
}

/// Writes what made it: whose late word, or who left.
fn push_cause(out: &mut String, cause: Cause, late: u32) -> Result<(), AllocError>
    ensures { OnOk result (string_bytes out.new ≡ string_bytes out.old ++ cause_of late cause) }
{
    match cause {
        Cause::Word { player, frame } => write!(
            out,
            ". Word of player {player} for frame {frame}, {late} late</title>"
        ),
        Cause::Leaving { player, frame } => {
            write!(out, ". Player {player} left, from frame {frame} on</title>")
        }
        Cause::Nothing => out.push_str(". No word had changed</title>"),
    }
}

/// Writes a bar of a row: a rectangle, as nothing else of a picture is.
fn push_bar(out: &mut String, style: &str, x: u32, y: u32, end: u32) -> Result<(), AllocError>
    ensures { OnOk result
        (string_bytes out.new ≡ string_bytes out.old ++ bar_text style.now x y end) }
{
    let width = end.saturating_sub(x);
    write!(
        out,
        "<rect class=\"{style}\" x=\"{x}\" y=\"{y}\" width=\"{width}\" height=\"9\"/>"
    )
}

/// How many frames the deepest rollback ran again.
fn deepest(marks: &[RollMark]) -> Option<u32>
    ensures { MatchOption result (length marks.now ≡ 0) (IsDeepest marks.now) }
{
    marks.iter().map(|mark| mark.roll.rerun).max()
}

/// The deepest rollback, the first of several.
pub fn worst(marks: &[RollMark]) -> Option<RollMark>
    ensures { IfSome result (λ worst. IsDeepest marks.now worst.roll.rerun) }
{
    let most = match deepest(marks) {
        Some(most) => most,
        None => return None,
    };
    marks.iter().find(|mark| mark.roll.rerun == most).copied()
}
