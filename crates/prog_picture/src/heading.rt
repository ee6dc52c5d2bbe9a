//! The title of a picture, and whose view it is.
ghost use Rattle.std.specs.Prelude.{◌≡◌, ◌≤◌, ◌<◌, ◌++◌, IfOk, OnOk, length, take};
ghost use Rattle.std.specs.List.{flat_map};
ghost use Rattle.std.specs.Str.{chars};
ghost use Rattle.std.specs.String.{string_bytes};
ghost use Rattle.prog_picture.specs.Bars.{AddsNoBar};
ghost use Rattle.prog_picture.specs.Escapes.{escaped};

use crate::escape::{characters, push_characters, push_escaped};
use crate::scene::Scene;
use crate::view::View;
use std::alloc::{AllocError, Global};
use std::fmt::Write;

/// The most characters of a title that are shown: more than any path of a file has.
pub const TITLE_LIMIT: usize = 4096;

/// How many characters a line of the title has at most, and how tall it is.
const LINE_LIMIT: usize = 110;

const LINE_HEIGHT: u32 = 20;

/// The lines of a title as it stands on the page: all its characters, up to the limit.
pub fn title_lines(alloc: Global, title: &str) -> Result<Vec<Vec<char>>, AllocError>
    ensures { IfOk result (λ lines.
        flat_map (λ line. line.items) lines.items ≡ take TITLE_LIMIT (chars title.now)) }
{
    let all = characters(alloc, title, TITLE_LIMIT)?;
    lines_of(alloc, &all)
}

/// Characters in lines.
fn lines_of(alloc: Global, all: &[char]) -> Result<Vec<Vec<char>>, AllocError>
    ensures { IfOk result (λ lines. flat_map (λ line. line.items) lines.items ≡ all.now) }
{
    let mut lines = Vec::new(alloc);
    let mut rest = all;
    while !rest.is_empty() {
        let (line, after) = rest.split_at(line_length(rest));
        lines.push(line.to_vec(alloc)?)?;
        rest = after;
    }
    Ok(lines)
}

/// How many characters stand on the next line: up to the last space that leaves it short enough.
fn line_length(rest: &[char]) -> usize
    requires { 0 < length rest.now }
    ensures { (0 < result) × (result ≤ length rest.now) }
{
    if rest.len() <= LINE_LIMIT {
        return rest.len();
    }
    let line = rest.get(..LINE_LIMIT).unwrap_or(rest);
    match line.iter().rposition(|c| *c == ' ') {
        Some(place) => place.saturating_add(1).min(rest.len()),
        None => LINE_LIMIT,
    }
}

/// How far a title of several lines moves down what stands below it.
pub fn height_of(lines: &[Vec<char>]) -> u32
    ensures { result ≤ 81920 }
{
    lines.len().saturating_sub(1).min(TITLE_LIMIT) as u32 * LINE_HEIGHT
}

/// Writes the title, for the mouse and on the page.
pub fn push_title(
    alloc: Global,
    out: &mut String,
    scene: &Scene,
    lines: &[Vec<char>],
) -> Result<(), AllocError>
    ensures { OnOk result (AddsNoBar out.old out.new) }
{
    out.push_str("<title>")?;
    push_escaped(alloc, out, &scene.title, TITLE_LIMIT)?;
    out.push_str("</title>\n<text class=\"t\">")?;
    let mut y = 26u32;
    for line in lines {
        push_line(out, line, y)?;
        y = y.saturating_add(LINE_HEIGHT);
    }
    out.push_str("</text>\n")
}

/// Writes a line of the title.
fn push_line(out: &mut String, line: &[char], y: u32) -> Result<(), AllocError>
    ensures { OnOk result (AddsNoBar out.old out.new) }
{
    write!(out, "<tspan x=\"12\" y=\"{y}\">")?;
    push_characters(out, line)?;
    out.push_str("</tspan>")
}

/// Writes whose view is shown, and which frames.
pub fn push_view(out: &mut String, view: &View) -> Result<(), AllocError>
    ensures { OnOk result (AddsNoBar out.old out.new) }
{
    let View { from, to, .. } = *view;
    out.push_str("<text class=\"s\" x=\"12\" y=\"46\">What this machine knew and ran, ")?;
    write!(out, "frame by frame: frames {from} to ")?;
    writeln!(out, "{}, from left to right</text>", to.saturating_sub(1))
}
