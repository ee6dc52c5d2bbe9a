//! The saved states at a rollback: the way of the timeline, branches of guesses, and what the rollback passed over.
ghost use Rattle.std.specs.Prelude.{◌≤◌, OnOk, length};
ghost use Rattle.prog_picture.specs.Bars.{AddsNoBar, LacksBars};

use roll_frame::{Cell, Claim, Differ, PATH_LIMIT, Path, Row};
use std::alloc::{AllocError, Global};
use std::fmt::Write;

/// How wide a frame is, and how tall a lane of states.
const FRAME_WIDTH: u32 = 56;

const LANE_HEIGHT: u32 = 26;

/// How many lanes of states are drawn at most.
const LANE_LIMIT: u32 = 40;

/// The largest word that is written on its state.
const SHORT_WORD: u32 = 99;

/// A saved state, or a state of the timeline that the rollback ran.
#[derive(Clone, Copy, Debug, PartialEq, Eq)]
pub struct Node {
    /// Its place among the kept paths of the claim; none if it was run.
    pub place: Option<usize>,
    /// How many rows lead to it from the claim's base.
    pub depth: usize,
    /// The lane in which it is drawn, and that of the state before it. Lane 0 is the way of the timeline.
    pub lane: u32,
    pub before: u32,
}

/// A kept path, and its place in the claim.
#[derive(Clone, Copy)]
struct Kept<'a> {
    place: usize,
    path: &'a Path,
}

/// Where states are drawn, as they come in the order of their paths.
#[derive(Drop)]
struct Layout {
    /// The lane of the last state of each depth that is off the timeline's way.
    lanes: [u32; PATH_LIMIT + 1],
    /// The last lane, and the depth of the state that was laid out last.
    last_lane: u32,
    last_depth: usize,
}

/// The states of a claim, those of the timeline's way first.
pub fn nodes(alloc: Global, tree: Option<&Claim>) -> Result<Vec<Node>, AllocError> {
    let mut nodes = Vec::new(alloc);
    let Some(claim) = tree else {
        return Ok(nodes);
    };
    push_run_states(&mut nodes, claim)?;
    let mut layout = Layout {
        lanes: [0; PATH_LIMIT + 1],
        last_lane: 0,
        last_depth: 0,
    };
    for kept in &in_order(alloc, claim)? {
        nodes.push(layout.lay_out(kept, claim.time.as_slice()))?;
    }
    Ok(nodes)
}

/// Adds the states that the rollback ran.
fn push_run_states(nodes: &mut Vec<Node>, claim: &Claim) -> Result<(), AllocError> {
    let from = claim.from.saturating_sub(claim.base) as usize;
    for depth in from..claim.time.len() {
        nodes.push(Node {
            place: None,
            depth: depth.saturating_add(1),
            lane: 0,
            before: 0,
        })?;
    }
    Ok(())
}

/// The kept paths, each after those that it goes on with.
fn in_order(alloc: Global, claim: &Claim) -> Result<Vec<Kept<'_>>, AllocError> {
    let mut kept = Vec::new(alloc);
    for (place, path) in claim.kept.as_slice().iter().enumerate() {
        kept.push(Kept { place, path })?;
    }
    kept.sort_unstable_by(|one: &Kept<'_>, other: &Kept<'_>| one.path.rows.cmp(&other.path.rows));
    Ok(kept)
}

impl Layout {
    /// The place of the next state: on the timeline's way, in the lane of the state before it, or in a new one.
    fn lay_out(&mut self, kept: &Kept<'_>, time: &[Row]) -> Node {
        let rows = kept.path.rows.as_slice();
        let depth = rows.len();
        let shared = shared(rows, time);
        let mut lane = 0;
        let mut before = 0;
        if shared < depth {
            if shared + 1 < depth {
                before = self.lane_at(depth - 1);
            }
            if before == 0 || self.last_depth.saturating_add(1) != depth {
                self.last_lane = self.last_lane.saturating_add(1);
            }
            lane = self.last_lane;
            self.note(depth, lane);
        }
        self.last_depth = depth;
        Node {
            place: Some(kept.place),
            depth,
            lane,
            before,
        }
    }

    fn lane_at(&self, depth: usize) -> u32 {
        match self.lanes.get(depth) {
            Some(lane) => *lane,
            None => 0,
        }
    }

    fn note(&mut self, depth: usize, lane: u32) {
        if let Some(known) = self.lanes.get_mut(depth) {
            *known = lane;
        }
    }
}

/// With how many rows of the timeline a path begins.
fn shared(rows: &[Row], time: &[Row]) -> usize
    ensures { result ≤ length rows.now }
{
    rows.iter()
        .zip(time)
        .position(|(row, now)| row != now)
        .unwrap_or(rows.len().min(time.len()))
}

/// How tall the saved states are; 0 if none are shown.
pub fn tree_height(nodes: &[Node]) -> u32
    ensures { result ≤ 1200 }
{
    match nodes.iter().map(|node| node.lane).max() {
        None => 0,
        Some(lanes) => lanes.min(LANE_LIMIT) * LANE_HEIGHT + 110,
    }
}

/// How wide they are, with what stands to their left.
pub fn tree_width(nodes: &[Node]) -> u32
    ensures { result ≤ 2000 }
{
    let deepest = nodes.iter().map(|node| node.depth).max().unwrap_or(0);
    x_at(deepest.saturating_add(1))
}

/// Where the states of a depth begin.
fn x_at(depth: usize) -> u32
    ensures { result ≤ 2000 }
{
    100 + depth.min(PATH_LIMIT + 1) as u32 * FRAME_WIDTH
}

/// The frame of the states of a depth. There are no deeper ones than those of `PATH_LIMIT` rows.
fn frame_at(claim: &Claim, depth: usize) -> u32 {
    claim.base.saturating_add(depth.min(PATH_LIMIT) as u32)
}

/// Writes the saved states from a height on.
pub fn push_tree(
    out: &mut String,
    claim: &Claim,
    nodes: &[Node],
    top: u32,
) -> Result<(), AllocError>
    requires { top ≤ 2200 }
    ensures { OnOk result (AddsNoBar out.old out.new) }
{
    push_heading(out, claim, top)?;
    writeln!(out, "<g transform=\"translate(0 {})\">", top + 52)?;
    push_frames(out, claim)?;
    for node in nodes {
        if node.lane <= LANE_LIMIT {
            push_node(out, claim, node)?;
        }
    }
    out.push_str("</g>\n")
}

/// Writes what is shown, and what its marks mean.
fn push_heading(out: &mut String, claim: &Claim, top: u32) -> Result<(), AllocError>
    requires { top ≤ 2200 }
    ensures { OnOk result (AddsNoBar out.old out.new) }
{
    let from = claim.from;
    let target = frame_at(claim, claim.time.len());
    let kept = claim.kept.len();
    write!(out, "<text class=\"t\" x=\"12\" y=\"{}\">", top + 16)?;
    write!(
        out,
        "States saved as the session went to frame {target}: {kept}. "
    )?;
    writeln!(out, "It started from that of frame {from}</text>")?;
    write!(out, "<text class=\"s\" x=\"12\" y=\"{}\">", top + 36)?;
    out.push_str(
        "Each state has the inputs of the frame before it. Green: on the timeline's way; ",
    )?;
    out.push_str(
        "dashed: run now; red: passed over, since its inputs differ (its title says where)",
    )?;
    out.push_str("</text>\n")
}

/// Writes the numbers of the frames.
fn push_frames(out: &mut String, claim: &Claim) -> Result<(), AllocError>
    ensures { OnOk result (AddsNoBar out.old out.new) }
{
    for depth in 0..claim.time.len().saturating_add(1) {
        let (x, frame) = (x_at(depth), frame_at(claim, depth));
        writeln!(out, "<text class=\"s\" x=\"{x}\" y=\"6\">{frame}</text>")?;
    }
    Ok(())
}

/// Writes a state: what is told of it, the line from the state before it, and its row.
fn push_node(out: &mut String, claim: &Claim, node: &Node) -> Result<(), AllocError>
    ensures { OnOk result (AddsNoBar out.old out.new) }
{
    let x = x_at(node.depth);
    let y = y_at(node.lane);
    let differ = differ_of(claim, node);
    out.push_str("<g><title>")?;
    push_told(out, claim, node, differ)?;
    let style = style_of(claim, node, differ);
    write!(
        out,
        "</title><path class=\"{style}\" d=\"M{x} {y}h46v18h-46z\"/>"
    )?;
    push_link(out, node, x, y)?;
    push_row(out, row_of(claim, node), x + 23, y + 13)?;
    out.push_str("</g>\n")
}

/// Writes the line to a state, here, from the one before it, if there is one.
fn push_link(out: &mut String, node: &Node, x: u32, y: u32) -> Result<(), AllocError>
    requires x { x ≤ 2000 }
    requires y { y ≤ 1100 }
    ensures { OnOk result (AddsNoBar out.old out.new) }
{
    if node.depth == 0 {
        return Ok(());
    }
    let (start, height) = (x.saturating_sub(FRAME_WIDTH) + 46, y_at(node.before) + 9);
    write!(
        out,
        "<path class=\"h\" d=\"M{start} {height}L{x} {}\"/>",
        y + 9
    )
}

/// Where a lane begins.
fn y_at(lane: u32) -> u32
    ensures { result ≤ 1100 }
{
    12 + lane.min(LANE_LIMIT) * LANE_HEIGHT
}

/// The row that leads to a state, if one does.
fn row_of<'a>(claim: &'a Claim, node: &Node) -> Option<&'a Row> {
    let last = node.depth.checked_sub(1)?;
    match node.place {
        Some(place) => claim.kept.as_slice().get(place)?.rows.as_slice().get(last),
        None => claim.time.as_slice().get(last),
    }
}

/// Where a state differs from the timeline, if the claim passes over it.
fn differ_of(claim: &Claim, node: &Node) -> Option<Differ> {
    let place = node.place?;
    claim
        .differs
        .as_slice()
        .iter()
        .find(|differ| differ.state as usize == place)
        .copied()
}

/// The style of a state.
fn style_of(claim: &Claim, node: &Node, differ: Option<Differ>) -> &'static str
    ensures { LacksBars result.now }
{
    if node.place.is_none() {
        "o"
    } else if differ.is_some() {
        "x"
    } else if node.lane > 0 || claim.time.len() < node.depth {
        "e"
    } else if frame_at(claim, node.depth) == claim.from {
        "v"
    } else {
        "u"
    }
}

/// Writes what is told of a state.
fn push_told(
    out: &mut String,
    claim: &Claim,
    node: &Node,
    differ: Option<Differ>,
) -> Result<(), AllocError>
    ensures { OnOk result (AddsNoBar out.old out.new) }
{
    let at = frame_at(claim, node.depth);
    write!(out, "frame {at}: ")?;
    push_inputs(out, row_of(claim, node))?;
    match differ {
        Some(Differ { frame, player, .. }) => write!(
            out,
            "passed over: differs at frame {frame}, player {player}"
        ),
        None if node.place.is_none() => out.push_str("run now"),
        None if at == claim.from && node.lane == 0 => out.push_str("saved: it starts here"),
        None => out.push_str("saved"),
    }
}

/// Writes the inputs that lead to a state, if there are any.
fn push_inputs(out: &mut String, row: Option<&Row>) -> Result<(), AllocError>
    ensures { OnOk result (AddsNoBar out.old out.new) }
{
    let Some(row) = row else {
        return Ok(());
    };
    out.push_str("inputs ")?;
    push_words(out, row)?;
    out.push_str(", ")
}

/// Writes the words of a row, if there is one and they are short.
fn push_row(out: &mut String, row: Option<&Row>, x: u32, y: u32) -> Result<(), AllocError>
    ensures { OnOk result (AddsNoBar out.old out.new) }
{
    let Some(row) = row else {
        return Ok(());
    };
    if row.count() > 4 || row.words().iter().any(|word| *word > SHORT_WORD) {
        return Ok(());
    }
    write!(out, "<text class=\"n\" x=\"{x}\" y=\"{y}\">")?;
    push_words(out, row)?;
    out.push_str("</text>")
}

/// Writes the words of a row, and x for a player who is gone.
fn push_words(out: &mut String, row: &Row) -> Result<(), AllocError>
    ensures { OnOk result (AddsNoBar out.old out.new) }
{
    for (place, cell) in row.cells().iter().enumerate() {
        out.push_str(separator(place))?;
        push_cell(out, cell)?;
    }
    Ok(())
}

/// What stands before a word of a row.
fn separator(place: usize) -> &'static str
    ensures { LacksBars result.now }
{
    if place > 0 { "," } else { "" }
}

/// Writes a word, or an x.
fn push_cell(out: &mut String, cell: &Cell) -> Result<(), AllocError>
    ensures { OnOk result (AddsNoBar out.old out.new) }
{
    match cell {
        Cell::Word(word) => write!(out, "{word}"),
        Cell::Gone => out.push_str("x"),
    }
}
