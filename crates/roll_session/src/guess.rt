//! What is to be run for a guess of what players do next.
ghost use Rattle.std.specs.Prelude.{◌≡◌, ◌≤◌, ◌<◌, ◌+◌, ◌↔◌, ◌⊎◌, [], length, drop, take, true, false, None, IsNone, IfSome, IsSomeAnd, IfOk, IfErr, OnOk, OnErr};
ghost use Rattle.roll_frame.specs.Games.{Value};
ghost use Rattle.roll_frame.specs.Inputs.{player_at};
ghost use Rattle.roll_frame.specs.Timeline.{timeline};
ghost use Rattle.roll_game.specs.Counts.{counted};
ghost use Rattle.roll_game.specs.declared.counts.Call.TheVariants.{Copy as Copies};
ghost use Rattle.roll_inputs.specs.Foretold.{foretold_refusal};
ghost use Rattle.roll_session.specs.Foretold.{foretold_rows, rerun_along};
ghost use Rattle.roll_session.specs.Guessing.{guessed_rows, job_along, kept_of, route_along, IsCopied};
ghost use Rattle.roll_session.specs.Saves.{HaveValues};
ghost use Rattle.roll_tree.specs.SavedStates.{state_named};

use crate::saves::Saves;
use arrayvec::ArrayVec;
use roll_branch::{Job, PackedRoute};
use roll_frame::{BRANCH_LIMIT, PATH_LIMIT, Path, Refusal, Route, Row};
use roll_game::Game;
use roll_inputs::{Board, RemoteWord};
use std::alloc::Global;

/// The rows from the settled frame to another, if this player gave these words next.
pub fn guessed_rows(
    board: &Board,
    player: u8,
    words: &[u32],
    until: u32,
) -> ArrayVec<Row, PATH_LIMIT>
    requires there { IsSomeAnd (player_at board.now.players player) (λ p. p.gone ≡ false) }
    requires some { 1 ≤ length words.now }
    requires from { board.now.settled ≤ until }
    requires near { until ≤ board.now.settled + PATH_LIMIT }
    ensures { result.items ≡ guessed_rows board.now player words.now until }
{
    let settled = board.settled();
    let mut rows = ArrayVec::new();
    for k in 0..(until - settled) as usize {
        rows.push(board.guessed(player, words, settled + k as u32));
    }
    rows
}

/// The rows from the settled frame to another, if these words were told.
pub fn foretold_rows(board: &Board, words: &[RemoteWord], until: u32) -> ArrayVec<Row, PATH_LIMIT>
    requires next { foretold_refusal board.now.players words.now ≡ None }
    requires from { board.now.settled ≤ until }
    requires near { until ≤ board.now.settled + PATH_LIMIT }
    ensures { result.items ≡ foretold_rows board.now words.now until }
{
    let settled = board.settled();
    let mut rows = ArrayVec::new();
    for k in 0..(until - settled) as usize {
        rows.push(board.foretold(words, settled + k as u32));
    }
    rows
}

/// How many rows up to the current frame lead past the deepest saved state on their way, if these words were told.
pub fn count_rerun<S>(saves: &Saves<S>, words: &[RemoteWord]) -> u32
    requires { foretold_refusal saves.now.inputs.players words.now ≡ None }
    ensures { result ≡ rerun_along saves.now words.now }
{
    saves.laws();
    let frame = saves.board().frame();
    let rows = foretold_rows(saves.board(), words, frame);
    let (_, end) = saves.tree().longest(rows.as_slice());
    frame - end
}

/// Rows from the settled frame on, so many of them as a path, and the next as the rows to run.
fn route_at(base: u32, rows: &[Row], depth: usize) -> Route
    requires within { depth ≤ length rows.now }
    requires few { length rows.now ≤ PATH_LIMIT }
    ensures { result ≡ record {
      path = record { base = base; rows = record { items = take depth rows.now } };
      rows = record
          { items = take BRANCH_LIMIT (drop depth rows.now) };
    } }
{
    let end = rows.len().min(depth + BRANCH_LIMIT);
    let mut path = Path {
        base,
        rows: ArrayVec::new(),
    };
    path.rows.try_extend_from_slice(&rows[..depth]).unwrap();
    let mut next = ArrayVec::new();
    next.try_extend_from_slice(&rows[depth..end]).unwrap();
    Route { path, rows: next }
}

/// The deepest saved state on the way that rows go from the settled frame on, and what is left of them to run. None if all are
/// kept.
pub fn start_along<S>(saves: &Saves<S>, rows: &[Row]) -> Option<(usize, Route)>
    requires { length rows.now ≤ PATH_LIMIT }
    ensures left { IfSome result
        (λ start. kept_of saves.now rows.now < length rows.now) }
    ensures route { IfSome result (λ start. start.1 ≡ route_along saves.now rows.now) }
    ensures node { IfSome result
        (λ start. IsSomeAnd (state_named saves.now.tree start.0)
        (λ s. s.path ≡ take (kept_of saves.now rows.now) rows.now)) }
    ensures none { IsNone result → length rows.now ≤ kept_of saves.now rows.now }
{
    saves.laws();
    let tree = saves.tree();
    let base = tree.base();
    let (node, end) = tree.longest(rows);
    let depth = (end - base) as usize;
    if depth == rows.len() {
        return None;
    }
    Some((node, route_at(base, rows, depth)))
}

/// The job of a route from a saved state, of which the game is asked for a copy last. None if it has no rows to run.
fn job_of<G: Game>(
    game: &mut G,
    from: &G::Snapshot,
    alloc: Global,
    route: &Route,
) -> Result<Option<Job<G>>, Refusal>
    requires { length route.now.rows.items ≤ BRANCH_LIMIT }
    ensures none { IfOk result (λ job. IsNone job ↔ (route.now.rows.items ≡ [])) }
    ensures job { IfOk result (λ made. IfSome made
        (λ job. job ≡ record { ticket = 0; route = route.now; from = G.snapshot_value from.now })) }
    ensures refused { IfErr result (λ why. why ≡ Refusal.NoMemory) }
    ensures copied { OnOk result
        (G.call_counts game.new ≡ counted Copies true (G.call_counts game.old)) }
    ensures uncopied { OnErr result ((G.call_counts game.new ≡ G.call_counts game.old)
        ⊎ (G.call_counts game.new ≡ counted Copies false (G.call_counts game.old))) }
{
    let room = Vec::with_capacity(alloc, BRANCH_LIMIT)?;
    let route = PackedRoute::new(alloc, route)?;
    let from = game.copy(from)?;
    Ok(Job::new(route, from, room))
}

/// The job of rows from the settled frame on. None if all are kept.
///
/// # Errors
///
/// `NoMemory` if the allocator has no room, or the game refuses its copy, for which it is asked last.
pub fn job_along<G: Game>(
    game: &mut G,
    saves: &Saves<G::Snapshot>,
    alloc: Global,
    rows: &[Row],
) -> Result<Option<Job<G>>, Refusal>
    requires { length rows.now ≤ PATH_LIMIT }
    ensures job { IfOk result
        (λ job. (opening : Value)
        → HaveValues G.snapshot_value G.step opening
        (timeline saves.now.inputs.players saves.now.inputs.settled) saves.now.tree.states → job
        ≡ job_along G.step opening saves.now rows.now) }
    ensures refused { IfErr result (λ why. why ≡ Refusal.NoMemory) }
    ensures counts { IsCopied (G.call_counts game.old) (G.call_counts game.new) result }
{
    let Some((node, route)) = start_along(saves, rows) else {
        return Ok(None);
    };
    job_of(game, saves.tree().get(node), alloc, &route)
}
