//! The planner.
ghost use Rattle.std.specs.Prelude.{◌≡◌, ◌↔◌, ◌==◌, ◌≤◌, ◌<◌, ◌+◌, ◌++◌, [], None, Some, IfOk, IfErr, IfSome, IsSomeAnd, IsTrue, OnOk, All, is_none, length, map, position, take, vec_capacity, false, true, if◌then◌else◌};
ghost use Rattle.std.specs.List.Sorted.{IsPermutation};
ghost use Rattle.roll_frame.specs.Claims.{IsRight};
ghost use Rattle.roll_frame.specs.Order.{in_order};
ghost use Rattle.roll_frame.specs.Paths.{begins_with, longest};
ghost use Rattle.roll_tree.specs.SavedStates.{path_of, paths_of as kept_paths, state_named, time_to};
ghost use Rattle.roll_plan.specs.Ranks.{IsKept, IsTaken, IsWay, entries_by, entry_by_marks, marked_for, path_named};
ghost use Rattle.roll_plan.specs.Spelled.{all_paths, beginnings, path_in, spelled};
ghost use Rattle.roll_plan.specs.Plans.{CanPlan, IsClaimOf, IsPlanOf, planned_roll};

use crate::plan::Plan;
use crate::rank::rank;
use arrayvec::ArrayVec;
use roll_frame::{Claim, Differ, Items, PATH_LIMIT, PLAYER_LIMIT, Path, Refusal, Row, TREE_LIMIT};
use roll_tree::{Above, Tree};
use std::alloc::{AllocError, Global};
use std::marker::Model;

/// A kept state off the way of a plan, and what is above it: less than its path.
#[derive(Clone, Copy, Debug)]
pub struct Taken {
    pub node: usize,
    pub above: Option<Above>,
    /// How many rows lead to what is above it.
    pub depth: usize,
}

/// Makes plans, and the claim of the last one.
///
/// Only `new` and `claim` take memory.
#[derive(Drop)]
pub struct Planner {
    players: u8,
    base: u32,
    time: ArrayVec<Row, PATH_LIMIT>,
    // How many of the kept states are on the way to the plan's start: one for each of the first
    // beginnings of `time`.
    on_way: usize,
    // The others, each after the one above it.
    taken: Vec<Taken>,
    // Room for the names of the states that a plan passes over, in the order of their paths.
    ranked: Vec<usize>,
    plan: Plan,
    // Whether there is a last plan.
    is_made: bool,
}

impl Model for Planner {
    ghost use Rattle.roll_plan.specs.Plans.{Planned};
    ghost use Rattle.roll_plan.specs.Fields.{planned_of, IsPlanner};

    ghost Value = { Planned };

    ghost view = { planned_of };

    ghost invariant = { IsPlanner };
}

impl Planner {
    /// A planner for so many players, which has made no plan.
    pub fn new(alloc: Global, players: u8) -> Result<Planner, AllocError>
        requires some { 1 ≤ players }
        requires few { players ≤ PLAYER_LIMIT }
        ensures { IfOk result (λ planner. planner ≡ record { players = players; last = None }) }
    {
        let taken = Vec::with_capacity(alloc, TREE_LIMIT)?;
        let ranked = Vec::with_capacity(alloc, TREE_LIMIT)?;
        let differs = Vec::with_capacity(alloc, TREE_LIMIT)?;
        Ok(Planner {
            players,
            base: 0,
            time: ArrayVec::new(),
            on_way: 0,
            taken,
            ranked,
            plan: Plan {
                to: 0,
                from: 0,
                rerun: 0,
                differs,
            },
            is_made: false,
        })
    }

    /// Plans a roll to a frame that a tree was told the timeline up to, and answers where it starts: the deepest state on
    /// its way, and the length of its path, from frame 0.
    pub fn plan<S>(&mut self, tree: &Tree<S>, to: u32) -> (usize, u32)
        requires { CanPlan self.old.players tree.now to }
        ensures plan { self.new ≡ record self.old {
          last = Some (planned_roll tree.now (time_to tree.now to));
        } }
        ensures node { IsSomeAnd (state_named tree.now result.0)
            (λ s. s.path ≡ take (longest (kept_paths tree.now) (time_to tree.now to))
            (time_to tree.now to)) }
        ensures length { result.1 ≡ tree.now.base + longest (kept_paths tree.now)
            (time_to tree.now to) }
        ensures longest { All (λ s. begins_with (time_to tree.now to) s.path ≡ true
            → tree.now.base + length s.path ≤ result.1) tree.now.states }
        ensures within { result.1 ≤ to }
    {
        let (start, from) = tree.deepest(to);
        self.plan_from(tree, start, from, to);
        (start, from)
    }

    /// Takes down the plan of a roll to a frame that a tree was told the timeline up to, from the deepest state on its way, and
    /// the length of its path, from frame 0.
    pub fn plan_from<S>(&mut self, tree: &Tree<S>, start: usize, from: u32, to: u32)
        requires can { CanPlan self.old.players tree.now to }
        requires start { IsSomeAnd (state_named tree.now start)
            (λ s. s.path ≡ take (longest (kept_paths tree.now) (time_to tree.now to))
            (time_to tree.now to)) }
        requires starts { from ≡ tree.now.base + longest (kept_paths tree.now)
            (time_to tree.now to) }
        ensures { self.new ≡ record self.old {
          last = Some (planned_roll tree.now (time_to tree.now to));
        } }
    {
        tree.laws();
        self.on_way = take_down(&mut self.taken, tree, start);
        name_passed(
            &mut self.plan.differs,
            &mut self.ranked,
            tree,
            start,
            from,
            to,
        );
        self.base = tree.base();
        let rows = &tree.time()[..(to - self.base) as usize];
        self.time.clear();
        self.time.try_extend_from_slice(rows).unwrap();
        self.plan.to = to;
        self.plan.from = from;
        self.plan.rerun = to - from;
        self.is_made = true;
    }

    /// The last plan. None at first, and after `forget`.
    pub fn last(&self) -> Option<&Plan>
        ensures when { is_none result ≡ is_none self.now.last }
        ensures plan { IfSome self.now.last
            (λ roll. IfSome result (λ plan. IsPlanOf self.now.players roll plan.now)) }
    {
        if self.is_made { Some(&self.plan) } else { None }
    }

    /// Forgets the last plan.
    pub fn forget(&mut self)
        ensures { self.new ≡ record self.old { last = None } }
    {
        self.is_made = false;
    }

    /// The claim of the last plan, with the paths as they were kept then.
    ///
    /// # Errors
    ///
    /// `NoPlan` where there is no last plan, else `NoMemory` where the allocator has no room.
    pub fn claim(&self, alloc: Global) -> Result<Claim, Refusal>
        ensures claim { IfOk result (λ claim. IfSome self.now.last
            (λ roll. IsClaimOf self.now.players roll claim)) }
        ensures right { IfOk result (λ claim. IsRight claim) }
        ensures made { OnOk result (is_none self.now.last ≡ false) }
        ensures refused { IfErr result (λ why. why ≡ (if is_none self.now.last then Refusal.NoPlan
            else Refusal.NoMemory)) }
    {
        if !self.is_made {
            return Err(Refusal::NoPlan);
        }
        match self.copied(alloc) {
            Ok(claim) => Ok(claim),
            Err(_) => Err(Refusal::NoMemory),
        }
    }

    /// The claim of the last plan.
    fn copied(&self, alloc: Global) -> Result<Claim, AllocError>
        requires { is_none self.now.last ≡ false }
        ensures { IfOk result (λ claim. IfSome self.now.last
            (λ roll. IsClaimOf self.now.players roll claim)) }
    {
        let time = Items::from(Vec::from_slice(alloc, self.time.as_slice())?);
        let way = &self.time.as_slice()[..(self.plan.from - self.base) as usize];
        let kept = Items::from(paths_of(alloc, self.base, way, self.on_way, &self.taken)?);
        let differs = Items::from(Vec::from_slice(alloc, &self.plan.differs)?);
        Ok(Claim {
            players: self.players,
            base: self.base,
            time,
            kept,
            from: self.plan.from,
            differs,
        })
    }
}

/// Takes down the kept states of a tree that aren't on the way to one of them, in the tree's order.
/// Answers how many are: their paths are the first beginnings of its path.
fn take_down<S>(taken: &mut Vec<Taken>, tree: &Tree<S>, start: usize) -> usize
    requires kept { IsKept tree.now start }
    requires room { TREE_LIMIT ≤ vec_capacity taken.old }
    ensures paths { IsPermutation (kept_paths tree.now)
        (all_paths (path_named tree.now start) result taken.new.items) }
    ensures within { result ≤ length (path_named tree.now start) + 1 }
    ensures few { length taken.new.items ≤ TREE_LIMIT }
    ensures room { TREE_LIMIT ≤ vec_capacity taken.new }
{
    tree.laws();
    if are_on_way(tree, start) {
        taken.clear();
        tree.len()
    } else {
        take_others(taken, tree, start)
    }
}

/// Whether there are only as many states as the path of one of them has beginnings. Then all are
/// on the way to it.
fn are_on_way<S>(tree: &Tree<S>, start: usize) -> bool
    requires kept { IsKept tree.now start }
    ensures { IsTrue result ↔ (length tree.now.states ≡ length (path_named tree.now start) + 1) }
{
    tree.len() == (tree.end(start) - tree.base()) as usize + 1
}

/// Takes down the states off the way to one of them, and counts the others.
fn take_others<S>(taken: &mut Vec<Taken>, tree: &Tree<S>, start: usize) -> usize
    requires kept { IsKept tree.now start }
    requires room { TREE_LIMIT ≤ vec_capacity taken.old }
    ensures paths { IsPermutation (kept_paths tree.now)
        (all_paths (path_named tree.now start) result taken.new.items) }
    ensures within { result ≤ length (path_named tree.now start) + 1 }
    ensures few { length taken.new.items ≤ TREE_LIMIT }
    ensures room { TREE_LIMIT ≤ vec_capacity taken.new }
{
    tree.laws();
    taken.clear();
    let mut below = way_to(tree, start);
    let mut next = Some(tree.root());
    let mut on_way = 0;
    for node in tree.names() {
        if next == Some(*node) {
            on_way += 1;
            next = below.pop();
        } else {
            taken.push_reserved(taken_of(tree, *node));
        }
    }
    on_way
}

/// The names of a state and of those above it but for the root, the nearest to the root last.
fn way_to<S>(tree: &Tree<S>, start: usize) -> ArrayVec<usize, PATH_LIMIT>
    requires kept { IsKept tree.now start }
    ensures { IsWay tree.now (path_named tree.now start) result.items }
{
    tree.laws();
    let mut names = ArrayVec::new();
    let mut at = start;
    while let Some(above) = tree.above(at) {
        names.push(at);
        at = above.node;
    }
    names
}

/// What is taken down of a state.
fn taken_of<S>(tree: &Tree<S>, node: usize) -> Taken
    requires kept { IsKept tree.now node }
    ensures { IsTaken tree.now node result }
{
    let rows = (tree.end(node) - tree.base()) as usize;
    Taken {
        node,
        above: tree.above(node),
        depth: rows.saturating_sub(1),
    }
}

/// Makes an entry for each path that a plan passes over. In the order of paths these are next to
/// each other. No state on the way to the start is passed over.
fn name_passed<S>(
    differs: &mut Vec<Differ>,
    ranked: &mut Vec<usize>,
    tree: &Tree<S>,
    start: usize,
    from: u32,
    to: u32,
)
    requires kept { IsKept tree.now start }
    requires from { from ≡ tree.now.base + length (path_named tree.now start) }
    requires differs { TREE_LIMIT ≤ vec_capacity differs.old }
    requires ranked { TREE_LIMIT ≤ vec_capacity ranked.old }
    ensures entries { differs.new.items ≡ entries_by (marked_for tree.now from to) 0
        (map (path_of tree.now.base) (in_order (kept_paths tree.now))) }
    ensures differs { TREE_LIMIT ≤ vec_capacity differs.new }
    ensures ranked { TREE_LIMIT ≤ vec_capacity ranked.new }
{
    tree.laws();
    if are_on_way(tree, start) {
        differs.clear();
    } else {
        let first = rank(ranked, tree, from, to);
        name_differs(differs, tree, ranked, first);
    }
}

/// Makes an entry for each of these states by its marks, the first of which is at this place in the order of paths.
fn name_differs<S>(differs: &mut Vec<Differ>, tree: &Tree<S>, passed: &[usize], first: usize)
    requires kept { All (IsKept tree.now) passed.now }
    requires few { first + length passed.now ≤ TREE_LIMIT }
    requires room { TREE_LIMIT ≤ vec_capacity differs.old }
    ensures entries { differs.new.items ≡ entries_by (λ state name. entry_by_marks tree.now state
        (path_of tree.now.base (path_named tree.now name))) first passed.now }
    ensures room { TREE_LIMIT ≤ vec_capacity differs.new }
{
    differs.clear();
    for (place, node) in passed.iter().enumerate() {
        if let Some(entry) = entry(tree, first + place, *node) {
            differs.push_reserved(entry);
        }
    }
}

/// The entry of a state by its marks.
fn entry<S>(tree: &Tree<S>, state: usize, node: usize) -> Option<Differ>
    requires kept { IsKept tree.now node }
    requires few { state < TREE_LIMIT }
    ensures { result ≡ entry_by_marks tree.now state
        (path_of tree.now.base (path_named tree.now node)) }
{
    match tree.first_mark(node) {
        Some((frame, player)) => Some(Differ {
            state: state as u32,
            frame,
            player,
        }),
        None => None,
    }
}

/// The paths of a plan's kept states, in the order of paths: so many beginnings of its way, and
/// those of the states that were taken down.
fn paths_of(
    alloc: Global,
    base: u32,
    way: &[Row],
    on_way: usize,
    taken: &[Taken],
) -> Result<Vec<Path>, AllocError>
    requires short { All (λ path. length path ≤ PATH_LIMIT) (spelled way.now taken.now) }
    requires within { on_way ≤ length way.now + 1 }
    requires rows { length way.now ≤ PATH_LIMIT }
    requires few { length taken.now ≤ TREE_LIMIT }
    ensures { IfOk result (λ paths. paths.items ≡ map (path_of base)
        (in_order (all_paths way.now on_way taken.now))) }
{
    let mut paths = Vec::with_capacity(alloc, taken.len() + on_way)?;
    push_spelled(&mut paths, base, way, taken);
    push_beginnings(&mut paths, base, way, on_way);
    paths.sort_unstable();
    Ok(paths)
}

/// Puts the paths of these states into an empty list.
fn push_spelled(paths: &mut Vec<Path>, base: u32, way: &[Row], taken: &[Taken])
    requires short { All (λ path. length path ≤ PATH_LIMIT) (spelled way.now taken.now) }
    requires empty { paths.old.items ≡ [] }
    requires room { length taken.now ≤ vec_capacity paths.old }
    ensures paths { paths.new.items ≡ map (path_of base) (spelled way.now taken.now) }
    ensures room { vec_capacity paths.new ≡ vec_capacity paths.old }
{
    for (place, state) in taken.iter().enumerate() {
        let path = spell(base, way, &taken[..place], paths, state);
        paths.push_reserved(path);
    }
}

/// Adds the first so many beginnings of these rows.
fn push_beginnings(paths: &mut Vec<Path>, base: u32, way: &[Row], count: usize)
    requires within { count ≤ length way.now + 1 }
    requires rows { length way.now ≤ PATH_LIMIT }
    requires room { length paths.old.items + count ≤ vec_capacity paths.old }
    ensures { paths.new.items ≡ paths.old.items ++ map (path_of base) (beginnings way.now count) }
{
    for length in 0..count {
        let rows = copied_rows(&way[..length]);
        paths.push_reserved(Path { base, rows });
    }
}

/// A copy of so few rows.
fn copied_rows(rows: &[Row]) -> ArrayVec<Row, PATH_LIMIT>
    requires { length rows.now ≤ PATH_LIMIT }
    ensures { result.items ≡ rows.now }
{
    let mut copy = ArrayVec::new();
    copy.try_extend_from_slice(rows).unwrap();
    copy
}

/// The path of a state, by the states before it and their paths, or by the way.
fn spell(base: u32, way: &[Row], before: &[Taken], paths: &[Path], state: &Taken) -> Path
    requires same { length paths.now ≡ length before.now }
    requires short { length (path_in way.now before.now (map (λ p. p.rows.items) paths.now)
        state.now) ≤ PATH_LIMIT }
    ensures { result ≡ path_of base (path_in way.now before.now (map (λ p. p.rows.items) paths.now)
        state.now) }
{
    let Some(above) = &state.above else {
        return Path::new(base);
    };
    let front = match place_of(before, above.node) {
        Some(place) => paths[place].rows.as_slice(),
        None => &way[..state.depth.min(way.len())],
    };
    let mut rows = copied_rows(front);
    rows.push(above.row);
    Path { base, rows }
}

/// Where the state of a name is.
fn place_of(taken: &[Taken], node: usize) -> Option<usize>
    ensures { result ≡ position (λ k. k.node == node) taken.now }
{
    taken.iter().position(|state| state.node == node)
}
