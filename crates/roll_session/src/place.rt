//! Where a branch runs, beside the saved states.
ghost use Rattle.std.specs.Prelude.{◌≡◌, ◌≤◌, ◌<◌, ◌+◌, ◌-◌, ◌++◌, length, drop, take, IfErr, IfOk, IsSomeAnd, None, OnOk, Some};
ghost use Rattle.roll_frame.specs.Games.{Value};
ghost use Rattle.roll_frame.specs.Grafts.{are_rows_of};
ghost use Rattle.roll_frame.specs.Paths.{longest, prefixes};
ghost use Rattle.roll_frame.specs.Refusals.{first_refusal};
ghost use Rattle.roll_frame.specs.Timeline.{timeline};
ghost use Rattle.roll_laws.specs.Grafted.{possible_rows};
ghost use Rattle.roll_session.specs.Grafting.{ahead_of, anchor_of, branch_tests, count_new, end_of, has_no_room, is_same_there, kept_to, place_tests, possible_to, rows_of_route, start_of, there_tests, IsPlaceFor, KeepsWorth};
ghost use Rattle.roll_session.specs.Saves.{HaveValues};
ghost use Rattle.roll_tree.specs.SavedStates.{paths_of, state_named};

use crate::saves::Saves;
use arrayvec::ArrayVec;
use roll_branch::Branch;
use roll_frame::{FRAME_LIMIT, PATH_LIMIT, Refusal, Route, Row, TREE_LIMIT};
use roll_game::Game;
use std::collections::VecDeque;

/// The most rows of a route, with those of its path.
const ROUTE_LIMIT: usize = 32;

/// What a route comes to beside the saved states.
#[derive(Drop)]
pub struct Place {
    /// Its rows past the settled frame.
    pub ahead: ArrayVec<Row, PATH_LIMIT>,
    /// Up to which frame its rows are possible.
    pub possible_to: u32,
    /// How far it is kept, from frame 0.
    pub kept_to: u32,
    /// The deepest kept state on its way.
    pub node: usize,
}

impl Place {
    /// Where a route runs.
    fn of<S>(saves: &Saves<S>, route: &Route) -> Place
        requires base { route.now.path.base ≤ saves.now.inputs.settled }
        requires reached { saves.now.inputs.settled ≤ end_of route.now }
        requires near { end_of route.now ≤ saves.now.inputs.settled + PATH_LIMIT }
        ensures { IsPlaceFor saves.now route.now result }
    {
        saves.laws();
        let base = route.path.base;
        let rows = rows_of_route(route);
        let behind = (saves.board().settled() - base) as usize;
        let mut ahead = ArrayVec::new();
        ahead
            .try_extend_from_slice(&rows.as_slice()[behind..])
            .unwrap();
        let (node, kept_to) = saves.tree().longest(ahead.as_slice());
        let possible_to = base + count_possible(saves, base, rows.as_slice());
        Place {
            ahead,
            possible_to,
            kept_to,
            node,
        }
    }
}

/// All rows of a route, from its base on: those of its path, and those that were run.
fn rows_of_route(route: &Route) -> ArrayVec<Row, ROUTE_LIMIT>
    ensures { result.items ≡ rows_of_route route.now }
{
    let mut rows = ArrayVec::new();
    rows.try_extend_from_slice(route.path.rows.as_slice())
        .unwrap();
    rows.try_extend_from_slice(route.rows.as_slice()).unwrap();
    rows
}

/// How many of these rows, from a frame on, are possible, up to the first that isn't.
fn count_possible<S>(saves: &Saves<S>, base: u32, rows: &[Row]) -> u32
    requires low { base ≤ FRAME_LIMIT }
    requires few { length rows.now ≤ ROUTE_LIMIT }
    ensures count { result ≡ possible_rows base saves.now.inputs.players rows.now }
    ensures within { result ≤ length rows.now }
{
    for place in 0..rows.len() {
        if !saves.allows(base + place as u32, &rows[place]) {
            return place as u32;
        }
    }
    rows.len() as u32
}

/// Whether each row has a cell for each player.
fn are_rows_of(players: usize, rows: &[Row]) -> bool
    ensures { result ≡ are_rows_of players rows.now }
{
    rows.iter().all(|row| usize::from(row.count()) == players)
}

/// Whether each row of a route has a cell for each player.
fn is_route_of(players: usize, route: &Route) -> bool
    ensures { result ≡ are_rows_of players (rows_of_route route.now) }
{
    are_rows_of(players, route.path.rows.as_slice()) && are_rows_of(players, route.rows.as_slice())
}

/// The frame that a route starts from.
fn start_of(route: &Route) -> u32
    requires { route.now.path.base ≤ FRAME_LIMIT }
    ensures start { result ≡ start_of route.now }
    ensures near { result ≤ route.now.path.base + PATH_LIMIT }
{
    route.path.base + route.path.rows.len() as u32
}

/// Where a branch may be new from.
fn anchor_of<S>(saves: &Saves<S>, route: &Route) -> u32
    requires { route.now.path.base ≤ FRAME_LIMIT }
    ensures { result ≡ anchor_of saves.now.inputs route.now }
{
    start_of(route).max(saves.board().settled())
}

/// Where a route runs.
///
/// # Errors
///
/// Why no branch can be grafted there.
fn find_place<S>(saves: &Saves<S>, route: &Route) -> Result<Place, Refusal>
    ensures fits { OnOk result (first_refusal (place_tests saves.now route.now) ≡ None) }
    ensures place { IfOk result (IsPlaceFor saves.now route.now) }
    ensures refused { IfErr result
        (λ why. first_refusal (place_tests saves.now route.now) ≡ Some why) }
{
    saves.laws();
    let settled = saves.board().settled();
    if route.path.base > settled || !is_route_of(saves.board().players(), route) {
        return Err(Refusal::Stranger);
    }
    let end = start_of(route) + route.rows.len() as u32;
    if end > settled + PATH_LIMIT as u32 {
        return Err(Refusal::TooFar);
    }
    if end <= settled {
        return Err(Refusal::Late);
    }
    let place = Place::of(saves, route);
    let anchor = anchor_of(saves, route);
    if place.possible_to < anchor {
        Err(Refusal::Dead)
    } else if place.kept_to < anchor {
        Err(Refusal::Orphan)
    } else {
        Ok(place)
    }
}

/// The saved state at a branch's anchor.
fn anchor_node<S>(saves: &Saves<S>, route: &Route, place: &Place) -> usize
    requires place { IsPlaceFor saves.now route.now place.now }
    requires base { route.now.path.base ≤ saves.now.inputs.settled }
    requires kept { anchor_of saves.now.inputs route.now ≤ kept_to saves.now route.now }
    ensures { IsSomeAnd (state_named saves.now.tree result)
        (λ s. s.path ≡ take (anchor_of saves.now.inputs route.now - saves.now.inputs.settled)
        (ahead_of saves.now.inputs route.now)) }
{
    saves.laws();
    let tree = saves.tree();
    tree.laws();
    let past = (anchor_of(saves, route) - saves.board().settled()) as usize;
    let (node, _) = tree.longest(&place.ahead.as_slice()[..past]);
    node
}

/// Whether a branch's state at its anchor is the saved one.
fn is_same_there<G: Game>(
    game: &G,
    saves: &Saves<G::Snapshot>,
    branch: &Branch<G>,
    route: &Route,
    place: &Place,
) -> bool
    requires route { route.now ≡ branch.now.route }
    requires place { IsPlaceFor saves.now branch.now.route place.now }
    requires base { branch.now.route.path.base ≤ saves.now.inputs.settled }
    requires reached { saves.now.inputs.settled < end_of branch.now.route }
    requires kept { anchor_of saves.now.inputs branch.now.route
        ≤ kept_to saves.now branch.now.route }
    ensures { (opening : Value)
        → HaveValues G.snapshot_value G.step opening
        (timeline saves.now.inputs.players saves.now.inputs.settled) saves.now.tree.states → result
        ≡ is_same_there G.step opening saves.now branch.now.route branch.now.from }
{
    saves.laws();
    let run = (anchor_of(saves, route) - start_of(route)) as usize;
    let node = anchor_node(saves, route, place);
    game.same(branch.state(run), saves.tree().get(node))
}

/// Whether there is no room for what a branch adds. `most` is how many kept states branches may fill.
fn has_no_room<S>(saves: &Saves<S>, route: &Route, place: &Place, most: usize) -> bool
    requires { IsPlaceFor saves.now route.now place.now }
    ensures { result ≡ has_no_room most saves.now route.now }
{
    let count = place.possible_to.saturating_sub(place.kept_to) as usize;
    count > 0 && saves.tree().len() + count > most
}

/// Why a branch along this route can't be grafted, if it can't. `most` is how many kept states branches may fill.
pub fn branch_refusal<G: Game>(
    game: &G,
    saves: &Saves<G::Snapshot>,
    branch: &Branch<G>,
    route: &Route,
    most: usize,
) -> Option<Refusal>
    requires { route.now ≡ branch.now.route }
    ensures { (opening : Value)
        → HaveValues G.snapshot_value G.step opening
        (timeline saves.now.inputs.players saves.now.inputs.settled) saves.now.tree.states → result
        ≡ first_refusal (branch_tests G.step opening most saves.now branch.now) }
{
    let place = match find_place(saves, route) {
        Ok(place) => place,
        Err(why) => return Some(why),
    };
    let same = is_same_there(game, saves, branch, route, &place);
    refusal_there(saves, route, &place, most, same)
}

/// Why a branch along this route can't be grafted, if it can't. `same` is whether its state at its anchor is the saved one.
pub fn route_refusal<S>(saves: &Saves<S>, route: &Route, most: usize, same: bool) -> Option<Refusal>
    ensures { result ≡ first_refusal (place_tests saves.now route.now
        ++ there_tests most same saves.now route.now) }
{
    match find_place(saves, route) {
        Ok(place) => refusal_there(saves, route, &place, most, same),
        Err(why) => Some(why),
    }
}

/// Why a branch that runs there can't be grafted, if it can't.
fn refusal_there<S>(
    saves: &Saves<S>,
    route: &Route,
    place: &Place,
    most: usize,
    same: bool,
) -> Option<Refusal>
    requires { IsPlaceFor saves.now route.now place.now }
    ensures { result ≡ first_refusal (there_tests most same saves.now route.now) }
{
    if !same {
        Some(Refusal::Stranger)
    } else if has_no_room(saves, route, place, most) {
        Some(Refusal::TreeFull)
    } else {
        None
    }
}

/// Saves a branch's new states, which are moved here, and says how many they are.
pub fn add_new_states<S: Drop>(saves: &mut Saves<S>, route: &Route, states: Vec<S>) -> u32
    requires base { route.now.path.base ≤ saves.old.inputs.settled }
    requires reached { saves.old.inputs.settled ≤ end_of route.now }
    requires near { end_of route.now ≤ saves.old.inputs.settled + PATH_LIMIT }
    requires from { start_of route.now ≤ kept_to saves.old route.now }
    requires possible { kept_to saves.old route.now ≤ possible_to saves.old.inputs route.now }
    requires fits { length saves.old.tree.states + count_new saves.old route.now ≤ TREE_LIMIT }
    requires many { length states.items ≡ length route.now.rows.items }
    ensures added { result ≡ count_new saves.old route.now }
    ensures inputs { saves.new.inputs ≡ saves.old.inputs }
    ensures room { saves.new.room ≡ saves.old.room }
    ensures paths { paths_of saves.new.tree ≡ paths_of saves.old.tree
        ++ prefixes (ahead_of saves.old.inputs route.now)
        (longest (paths_of saves.old.tree) (ahead_of saves.old.inputs route.now))
        (count_new saves.old route.now) }
    ensures values { KeepsWorth saves.old saves.new route.now states.items }
{
    saves.laws();
    let settled = saves.board().settled();
    let place = Place::of(saves, route);
    let from = place.kept_to;
    let end = place.possible_to;
    let mut left = without_first(states, (from - start_of(route)) as usize);
    let mut at = place.node;
    for frame in from..end {
        let snapshot = left.pop_front().unwrap();
        let row = place.ahead[(frame - settled) as usize];
        at = saves.add_state(at, row, snapshot);
    }
    end - from
}

/// The states past the first ones.
fn without_first<S: Drop>(states: Vec<S>, count: usize) -> VecDeque<S>
    requires { count ≤ length states.items }
    ensures { result.items ≡ drop count states.items }
{
    let mut left = VecDeque::from(states);
    left.drain(..count);
    left
}
