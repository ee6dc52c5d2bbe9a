//! The words of a lane.
ghost use Rattle.std.specs.Prelude.{◌≡◌, ◌≤◌, IfOk, OnOk};
ghost use Rattle.prog_picture.specs.Bars.{AddsNoBar, LacksBars};
ghost use Rattle.prog_picture.specs.Cells.{cell_marks, goes_on, is_known, look_of, mark_at};
ghost use Rattle.prog_picture.specs.Views.{IsView};

use crate::scene::Cell;
use crate::view::View;
use std::alloc::{AllocError, Global};
use std::fmt::Write;

/// How tall a word is.
pub const CELL_HEIGHT: u32 = 22;

/// How far below its words a lane has the line of the frames in which they are heard.
pub const HEARD_DEPTH: u32 = 26;

/// What became of a word.
#[derive(Clone, Copy, PartialEq, Eq)]
pub enum Look {
    /// It was known when its frame was first run.
    Known,
    /// It came late, and was predicted so.
    Predicted,
    /// It came late, and another word was shown.
    Wrong,
    /// It hasn't come.
    Unheard,
}

/// A word in the picture.
#[derive(Clone, Copy)]
pub struct CellMark {
    pub frame: u32,
    pub cell: Cell,
}

/// Frames one after another with one word, which was known in each of them.
#[derive(Clone, Copy)]
pub struct Run {
    pub first: CellMark,
    /// How many frames.
    pub count: u32,
}

impl CellMark {
    /// What became of the word.
    pub fn look(&self) -> Look
        ensures { result ≡ look_of self.now }
    {
        match self.cell.heard {
            None => Look::Unheard,
            Some(heard) if heard <= self.frame => Look::Known,
            Some(_) if self.cell.shown == self.cell.word => Look::Predicted,
            Some(_) => Look::Wrong,
        }
    }

    /// Whether the word was known in time.
    fn is_known(&self) -> bool
        ensures { result ≡ is_known (look_of self.now) }
    {
        self.look() == Look::Known
    }
}

impl Run {
    /// Whether a word goes on with a run: both were known in time, and are the same.
    fn goes_on(&self, mark: &CellMark) -> bool
        ensures { result ≡ goes_on self.now mark.now }
    {
        self.first.is_known() && mark.is_known() && self.first.cell.word == mark.cell.word
    }
}

/// The words that are shown of a lane, in the order of their frames.
pub fn cell_marks(
    alloc: Global,
    cells: &[Option<Cell>],
    view: &View,
) -> Result<Vec<CellMark>, AllocError>
    ensures { IfOk result (λ marks. marks.items ≡ cell_marks view.now cells.now) }
{
    (view.from..view.to)
        .filter_map(|frame| mark_at(cells, frame))
        .collect(alloc)
}

/// The word of a frame, unless none is known.
fn mark_at(cells: &[Option<Cell>], frame: u32) -> Option<CellMark>
    ensures { result ≡ mark_at cells.now frame }
{
    match cells.get(frame as usize) {
        Some(Some(cell)) => Some(CellMark { frame, cell: *cell }),
        _ => None,
    }
}

/// The words one after another, those of a run as one.
pub fn runs(alloc: Global, marks: &[CellMark]) -> Result<Vec<Run>, AllocError> {
    let mut runs: Vec<Run> = Vec::new(alloc);
    for mark in marks {
        match runs.last_mut() {
            Some(run) if run.goes_on(mark) => run.count = run.count.saturating_add(1),
            _ => runs.push(Run {
                first: *mark,
                count: 1,
            })?,
        }
    }
    Ok(runs)
}

/// Writes a run, or a word: its colour, the line to the frame in which it was heard, and what is told of it.
pub fn push_run(out: &mut String, run: &Run, view: &View, colour: usize) -> Result<(), AllocError>
    requires { IsView view.now }
    ensures { OnOk result (AddsNoBar out.old out.new) }
{
    let Run { first, count } = *run;
    let x = view.x_of(first.frame);
    let wide = view
        .x_of(first.frame.saturating_add(count))
        .saturating_sub(x);
    out.push_str("<g><title>")?;
    push_told(out, run)?;
    push_ground(out, first.look(), x, wide, colour)?;
    push_late(out, &first, view)?;
    push_word(out, "class=\"n\" y=\"15\"", first.cell.word, x, wide)?;
    push_wrong(out, &first, x, wide)?;
    out.push_str("</g>\n")
}

/// Writes the ground of a word of this colour.
fn push_ground(
    out: &mut String,
    look: Look,
    x: u32,
    wide: u32,
    colour: usize,
) -> Result<(), AllocError>
    ensures { OnOk result (AddsNoBar out.old out.new) }
{
    let class = class_of(look);
    let end = opacity_of(look);
    write!(
        out,
        "</title><path class=\"{class}{colour}\" d=\"M{x} 0h{wide}v{CELL_HEIGHT}h-{wide}z\"{end}"
    )
}

/// Writes what is told of a run, or of a word.
fn push_told(out: &mut String, run: &Run) -> Result<(), AllocError>
    ensures { OnOk result (AddsNoBar out.old out.new) }
{
    let CellMark { frame, cell } = run.first;
    let word = cell.word;
    if run.count > 1 {
        let last = frame.saturating_add(run.count - 1);
        return write!(out, "frames {frame} to {last}: word {word}");
    }
    write!(out, "frame {frame}: word {word}")?;
    push_heard(out, &run.first)
}

/// Writes when a word came, unless it was known in time.
fn push_heard(out: &mut String, mark: &CellMark) -> Result<(), AllocError>
    ensures { OnOk result (AddsNoBar out.old out.new) }
{
    let (frame, shown) = (mark.frame, mark.cell.shown);
    match mark.cell.heard {
        None => out.push_str(", predicted: the true one hasn't come"),
        Some(heard) if frame < heard => write!(out, ", shown {shown}, heard in frame {heard}"),
        Some(_) => Ok(()),
    }
}

/// The first letter of the name of a word's style.
fn class_of(look: Look) -> &'static str
    ensures { LacksBars result.now }
{
    match look {
        Look::Known => "c",
        Look::Predicted | Look::Wrong | Look::Unheard => "p",
    }
}

/// How a word that hasn't come looks, and the end of its element.
fn opacity_of(look: Look) -> &'static str
    ensures { LacksBars result.now }
{
    match look {
        Look::Unheard => " opacity=\".45\"/>",
        Look::Known | Look::Predicted | Look::Wrong => "/>",
    }
}

/// Writes the line from a word that came late to the frame in which it was heard.
fn push_late(out: &mut String, mark: &CellMark, view: &View) -> Result<(), AllocError>
    requires { IsView view.now }
    ensures { OnOk result (AddsNoBar out.old out.new) }
{
    let Some(heard) = mark.cell.heard else {
        return Ok(());
    };
    let class = match mark.look() {
        Look::Known | Look::Unheard => return Ok(()),
        Look::Predicted => "l",
        Look::Wrong => "w",
    };
    let middle = view.x_of(mark.frame) + view.step / 2;
    let end = view.x_of(heard);
    let bottom = CELL_HEIGHT + HEARD_DEPTH;
    write!(
        out,
        "<path class=\"{class}\" d=\"M{middle} {CELL_HEIGHT}L{end} {bottom}\"/>"
    )
}

/// Marks a word in whose place another was shown: a red foot, and above the word the other one, struck out.
fn push_wrong(out: &mut String, mark: &CellMark, x: u32, wide: u32) -> Result<(), AllocError>
    requires { x ≤ 36100 }
    ensures { OnOk result (AddsNoBar out.old out.new) }
{
    if mark.look() != Look::Wrong {
        return Ok(());
    }
    write!(out, "<path class=\"r\" d=\"M{x} 19h{wide}v3h-{wide}z\"/>")?;
    push_word(out, "class=\"z\" y=\"-3\"", mark.cell.shown, x, wide)
}

/// Writes a word's number in this style, if there is room for it.
fn push_word(out: &mut String, style: &str, word: u32, x: u32, wide: u32) -> Result<(), AllocError>
    requires style { LacksBars style.now }
    requires x { x ≤ 36100 }
    ensures { OnOk result (AddsNoBar out.old out.new) }
{
    if wide < 12 || 99 < word {
        return Ok(());
    }
    let middle = x.saturating_add(wide / 2);
    write!(out, "<text {style} x=\"{middle}\">{word}</text>")
}
