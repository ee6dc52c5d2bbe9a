//! The deepest rollback in words.
ghost use Rattle.std.specs.Prelude.{OnOk};
ghost use Rattle.prog_picture.specs.Bars.{AddsNoBar, LacksBars};

use crate::rolls::RollMark;
use crate::scene::{Cause, Roll};
use std::alloc::AllocError;
use std::fmt::Write;

/// Writes the deepest rollback in words, and marks its frames from one height to another.
pub fn push_worst(
    out: &mut String,
    worst: Option<RollMark>,
    top: u32,
    bottom: u32,
) -> Result<(), AllocError>
    ensures { OnOk result (AddsNoBar out.old out.new) }
{
    out.push_str("<text class=\"b\" x=\"12\" y=\"72\">")?;
    let Some(mark) = worst else {
        return out.push_str("No rollback: all that came late had been shown so.</text>\n");
    };
    push_depth(out, &mark.roll)?;
    push_saved(out, &mark.roll)?;
    out.push_str("</text>\n<text class=\"b\" x=\"12\" y=\"94\">")?;
    push_reason(out, &mark)?;
    out.push_str("</text>")?;
    push_span(out, &mark, top, bottom)?;
    out.push_str("\n")
}

/// Writes how many frames were run again.
fn push_depth(out: &mut String, roll: &Roll) -> Result<(), AllocError>
    ensures { OnOk result (AddsNoBar out.old out.new) }
{
    let Roll { at, rerun, .. } = *roll;
    match rerun {
        0 => out.push_str("No frame was run again: guesses had all that changed"),
        1 => write!(out, "Worst rollback: 1 frame run again at frame {at}"),
        _ => write!(
            out,
            "Worst rollback: {rerun} frames run again at frame {at}"
        ),
    }
}

/// Writes whose late word it was, or who left.
fn push_reason(out: &mut String, mark: &RollMark) -> Result<(), AllocError>
    ensures { OnOk result (AddsNoBar out.old out.new) }
{
    push_first(out, &mark.roll)?;
    let late = mark.late;
    match mark.roll.cause {
        Cause::Word { player, frame } => write!(
            out,
            "The word of player {player} for frame {frame} came {late} {} late.",
            unit_of(late)
        ),
        Cause::Leaving { player, frame } => {
            write!(out, "Player {player} had left at frame {frame}.")
        }
        Cause::Nothing => Ok(()),
    }
}

/// Writes at which frame it was, if no frame was run again.
fn push_first(out: &mut String, roll: &Roll) -> Result<(), AllocError>
    ensures { OnOk result (AddsNoBar out.old out.new) }
{
    if roll.rerun > 0 {
        return Ok(());
    }
    let at = roll.at;
    write!(out, "First at frame {at}. ")
}

/// What so many frames are called.
fn unit_of(count: u32) -> &'static str
    ensures { LacksBars result.now }
{
    if count == 1 { "frame" } else { "frames" }
}

/// Writes how many frames it is without guesses, if that is more.
fn push_saved(out: &mut String, roll: &Roll) -> Result<(), AllocError>
    ensures { OnOk result (AddsNoBar out.old out.new) }
{
    let Roll { rerun, ggpo, .. } = *roll;
    if rerun == 0 || ggpo <= rerun {
        return out.push_str(".");
    }
    let unit = unit_of(ggpo);
    write!(out, " (without guesses: {ggpo} {unit}).")
}

/// Marks the frames that GGPO runs again, if any were, and the frame at which it came.
fn push_span(out: &mut String, mark: &RollMark, top: u32, bottom: u32) -> Result<(), AllocError>
    ensures { OnOk result (AddsNoBar out.old out.new) }
{
    if mark.roll.rerun == 0 {
        return Ok(());
    }
    let RollMark {
        ggpo_x,
        rerun_x,
        end_x,
        ..
    } = *mark;
    let begin = ggpo_x.min(rerun_x);
    writeln!(
        out,
        "<path class=\"m\" d=\"M{begin} {top}H{end_x}V{bottom}H{begin}z\"/>"
    )?;
    write!(out, "<path class=\"k\" d=\"M{end_x} {top}V{bottom}\"/>")
}
