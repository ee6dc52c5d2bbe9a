//! A picture from a scene.
ghost use Rattle.std.specs.Prelude.{◌≤◌, IfOk, OnOk};
ghost use Rattle.std.specs.String.{string_bytes};
ghost use Rattle.prog_picture.specs.Bars.{AddsNoBar, LacksBars};
ghost use Rattle.prog_picture.specs.Pictures.{HasRolls};
ghost use Rattle.prog_picture.specs.Views.{IsView};

use crate::cells::{CELL_HEIGHT, HEARD_DEPTH, cell_marks, push_run, runs};
use crate::heading::{height_of, push_title, push_view, title_lines};
use crate::legend::{LEGEND_HEIGHT, push_legend};
use crate::page::{COLOURS, push_axis, push_colours, push_head};
use crate::rolls::{ROW_HEIGHT, ROWS, RollMark, push_rolls, roll_marks, worst};
use crate::scene::{Lane, Scene};
use crate::tree::{Node, nodes, push_tree, tree_height, tree_width};
use crate::view::{View, view_of};
use crate::worst::push_worst;
use std::alloc::{AllocError, Global};
use std::fmt::Write;

/// Where the first lane begins, and how tall a lane is with the lines of its late words.
const TOP: u32 = 142;

const LANE_HEIGHT: u32 = CELL_HEIGHT + HEARD_DEPTH + 18;

/// How many lanes are shown at most.
const LANE_LIMIT: usize = 8;

/// The picture of a scene, as the text of an SVG: the element of each rollback that is shown, once and in order, with
/// its numbers, and no rectangle but those of the rollbacks: so none is drawn that never was, and none twice, whatever
/// title and words are.
///
/// How words, saved states and the page look no clause says: `tests/pictures` reads pictures as XML, counts their
/// elements, and has them rendered.
///
/// # Errors
///
/// `AllocError` if the allocator has no room.
pub fn draw(alloc: Global, scene: &Scene) -> Result<String, AllocError>
    ensures { IfOk result (λ picture. HasRolls scene.now (string_bytes picture)) }
{
    let view = view_of(scene);
    let marks = roll_marks(alloc, &scene.rolls, &view)?;
    let palette = palette(alloc, scene, &view)?;
    let nodes = nodes(alloc, scene.tree.as_ref())?;
    let mut picture = front(alloc, scene, &view, &marks, &palette, &nodes)?;
    push_rolls(&mut picture, &marks)?;
    let end = end(alloc, scene, &palette, &nodes)?;
    picture.push_str(&end)?;
    Ok(picture)
}

/// How many lanes of a scene are shown.
fn lane_count(scene: &Scene) -> u32
    ensures { result ≤ 8 }
{
    scene.lanes.len().min(LANE_LIMIT) as u32
}

/// Where the rollbacks begin.
fn rolls_top(lanes: u32) -> u32
    requires { lanes ≤ 8 }
    ensures { result ≤ 1000 }
{
    TOP + lanes * LANE_HEIGHT + 8
}

/// All that stands before the rollbacks.
fn front(
    alloc: Global,
    scene: &Scene,
    view: &View,
    marks: &[RollMark],
    palette: &[u32],
    nodes: &[Node],
) -> Result<String, AllocError>
    requires { IsView view.now }
    ensures { IfOk result (λ front. LacksBars (string_bytes front)) }
{
    let mut out = String::new(alloc);
    let rolls = rolls_top(lane_count(scene));
    let bottom = rolls + ROWS * ROW_HEIGHT;
    let width = view.x_of(view.to).max(tree_width(nodes)).max(1080) + 40;
    let height = tree_top(bottom) + tree_height(nodes);
    push_top(alloc, &mut out, scene, width, height)?;
    push_view(&mut out, view)?;
    push_worst(&mut out, worst(marks), TOP - 4, bottom)?;
    push_axis(&mut out, view, TOP - 10, bottom)?;
    push_lanes(alloc, &mut out, scene, view, palette)?;
    push_rolls_head(&mut out, rolls)?;
    Ok(out)
}

/// Writes the beginning of the page, so wide and so tall below its title, and the title.
fn push_top(
    alloc: Global,
    out: &mut String,
    scene: &Scene,
    width: u32,
    height: u32,
) -> Result<(), AllocError>
    requires { height ≤ 10000 }
    ensures { OnOk result (AddsNoBar out.old out.new) }
{
    let lines = title_lines(alloc, &scene.title)?;
    let down = height_of(&lines);
    push_head(out, width, down + height)?;
    push_title(alloc, out, scene, &lines)?;
    writeln!(out, "<g transform=\"translate(0 {down})\">")
}

/// Writes the words of all players.
fn push_lanes(
    alloc: Global,
    out: &mut String,
    scene: &Scene,
    view: &View,
    palette: &[u32],
) -> Result<(), AllocError>
    requires { IsView view.now }
    ensures { OnOk result (AddsNoBar out.old out.new) }
{
    for (place, lane) in scene.lanes.iter().take(LANE_LIMIT).enumerate() {
        push_lane(alloc, out, lane, view, palette, place as u32)?;
    }
    Ok(())
}

/// Writes what stands to the left of the rollbacks, and where they begin.
fn push_rolls_head(out: &mut String, top: u32) -> Result<(), AllocError>
    requires { top ≤ 1000 }
    ensures { OnOk result (AddsNoBar out.old out.new) }
{
    write!(out, "<text x=\"12\" y=\"{}\">rollbacks</text>", top + 24)?;
    writeln!(out, "<g transform=\"translate(0 {top})\">")
}

/// Writes the words of a player.
fn push_lane(
    alloc: Global,
    out: &mut String,
    lane: &Lane,
    view: &View,
    palette: &[u32],
    place: u32,
) -> Result<(), AllocError>
    requires view { IsView view.now }
    requires place { place ≤ 8 }
    ensures { OnOk result (AddsNoBar out.old out.new) }
{
    let marks = cell_marks(alloc, &lane.cells, view)?;
    let y = TOP + place * LANE_HEIGHT;
    let runs = runs(alloc, &marks)?;
    let heard = CELL_HEIGHT + HEARD_DEPTH;
    let end = view.x_of(view.to);
    writeln!(out, "<g transform=\"translate(0 {y})\">")?;
    push_player(out, lane)?;
    writeln!(out, "<path class=\"h\" d=\"M100 {heard}H{end}\"/>")?;
    for run in &runs {
        push_run(out, run, view, colour_of(palette, run.first.cell.word))?;
    }
    out.push_str("</g>\n")
}

/// Writes a player's number, and whether the player is at the session's own machine.
fn push_player(out: &mut String, lane: &Lane) -> Result<(), AllocError>
    ensures { OnOk result (AddsNoBar out.old out.new) }
{
    let player = lane.player;
    writeln!(out, "<text x=\"12\" y=\"16\">player {player}</text>")?;
    if !lane.is_local {
        return Ok(());
    }
    out.push_str("<text class=\"s\" x=\"12\" y=\"32\">local</text>")
}

/// The colour of a word: its place among those that have one, or the last.
fn colour_of(palette: &[u32], word: u32) -> usize {
    palette
        .iter()
        .position(|known| *known == word)
        .unwrap_or(COLOURS - 1)
}

/// The first words that are shown, each once: as many as there are colours, but one.
fn palette(alloc: Global, scene: &Scene, view: &View) -> Result<Vec<u32>, AllocError> {
    let mut palette = Vec::new(alloc);
    for lane in &scene.lanes {
        for mark in &cell_marks(alloc, &lane.cells, view)? {
            note_word(&mut palette, mark.cell.word)?;
        }
    }
    palette.sort_unstable();
    Ok(palette)
}

/// Notes a word, unless it is noted, or there is no colour left.
fn note_word(palette: &mut Vec<u32>, word: u32) -> Result<(), AllocError> {
    if palette.len() < COLOURS - 1 && !palette.contains(&word) {
        palette.push(word)?;
    }
    Ok(())
}

/// Where the saved states begin.
fn tree_top(bottom: u32) -> u32
    requires { bottom ≤ 2000 }
    ensures { result ≤ 2200 }
{
    bottom + LEGEND_HEIGHT + 54
}

/// All that stands after the rollbacks.
fn end(alloc: Global, scene: &Scene, palette: &[u32], nodes: &[Node]) -> Result<String, AllocError>
    ensures { IfOk result (λ end. LacksBars (string_bytes end)) }
{
    let mut out = String::new(alloc);
    let bottom = rolls_top(lane_count(scene)) + ROWS * ROW_HEIGHT;
    out.push_str("</g>\n")?;
    push_legend(&mut out, bottom + 22)?;
    push_colours(&mut out, palette, bottom + LEGEND_HEIGHT + 22)?;
    if let Some(tree) = &scene.tree {
        push_tree(&mut out, tree, nodes, tree_top(bottom))?;
    }
    out.push_str("</g>\n</svg>\n")?;
    Ok(out)
}
