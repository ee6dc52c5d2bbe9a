//! The states that a plan passes over, in the order of their paths.
ghost use Rattle.std.specs.Prelude.{◌≡◌, ◌≤◌, ◌+◌, All, count_by, filter, length, map, vec_capacity};
ghost use Rattle.std.specs.Cmp.Lexicographic.{slice_cmp};
ghost use Rattle.roll_frame.specs.Order.{in_order, row_cmp, rows_cmp};
ghost use Rattle.roll_tree.specs.SavedStates.{IsAbove, path_of, paths_of};
ghost use Rattle.roll_plan.specs.Ranks.{IsKept, is_before, is_passed, path_named};

use roll_frame::TREE_LIMIT;
use roll_tree::{Above, Tree};
use std::cmp::Ordering;

/// Takes down the names of the states that a plan passes over, in the order of their paths. Answers where the first of
/// them is in the order of all.
pub fn rank<S>(ranked: &mut Vec<usize>, tree: &Tree<S>, from: u32, to: u32) -> usize
    requires room { TREE_LIMIT ≤ vec_capacity ranked.old }
    ensures paths { map (path_named tree.now) ranked.new.items ≡ filter
        (λ p. is_passed from to (path_of tree.now.base p)) (in_order (paths_of tree.now)) }
    ensures first { result ≡ count_by (λ p. is_before from (path_of tree.now.base p))
        (in_order (paths_of tree.now)) }
    ensures kept { All (IsKept tree.now) ranked.new.items }
    ensures few { result + length ranked.new.items ≤ TREE_LIMIT }
    ensures room { TREE_LIMIT ≤ vec_capacity ranked.new }
{
    tree.laws();
    let first = list_passed(ranked, tree, from, to);
    ranked.sort_unstable_by(|first, second| compare(tree, *first, *second));
    first
}

/// Takes down the names of the states that a plan passes over, and counts those before them in the order of paths.
fn list_passed<S>(passed: &mut Vec<usize>, tree: &Tree<S>, from: u32, to: u32) -> usize
    requires room { TREE_LIMIT ≤ vec_capacity passed.old }
    ensures names { passed.new.items ≡ map (λ s. s.name)
        (filter (λ s. is_passed from to (path_of tree.now.base s.path)) tree.now.states) }
    ensures before { result ≡ count_by (λ s. is_before from (path_of tree.now.base s.path))
        tree.now.states }
    ensures few { result + length passed.new.items ≤ TREE_LIMIT }
    ensures room { TREE_LIMIT ≤ vec_capacity passed.new }
{
    tree.laws();
    passed.clear();
    let mut before = 0;
    for node in tree.names() {
        let end = tree.end(*node);
        if end <= from {
            before += 1;
        } else if end <= to {
            passed.push_reserved(*node);
        }
    }
    before
}

/// How the paths of two states are ordered. A name of no state counts as the root's.
fn compare<S>(tree: &Tree<S>, first: usize, second: usize) -> Ordering
    ensures { result ≡ rows_cmp (path_named tree.now first) (path_named tree.now second) }
{
    match end_of(tree, first).cmp(&end_of(tree, second)) {
        Ordering::Equal => compare_rows(tree, first, second),
        order => order,
    }
}

/// How paths of the same length are ordered: the earliest row that differs decides. It comes behind the deepest state that
/// both paths have, since no two states have the same path.
fn compare_rows<S>(tree: &Tree<S>, first: usize, second: usize) -> Ordering
    requires { length (path_named tree.now first) ≡ length (path_named tree.now second) }
    ensures { result ≡ slice_cmp row_cmp (path_named tree.now first) (path_named tree.now second) }
{
    tree.laws();
    let mut left = first;
    let mut right = second;
    while left != right {
        let (Some(one), Some(other)) = (above(tree, left), above(tree, right)) else {
            break;
        };
        if one.node == other.node {
            return one.row.cmp(&other.row);
        }
        left = one.node;
        right = other.node;
    }
    Ordering::Equal
}

/// What is above a state. There is nothing above the root, nor above a name of no state.
fn above<S>(tree: &Tree<S>, node: usize) -> Option<Above>
    ensures { IsAbove tree.now (path_named tree.now node) result }
{
    if tree.contains(node) {
        tree.above(node)
    } else {
        None
    }
}

/// The length of a state's path, from frame 0.
fn end_of<S>(tree: &Tree<S>, node: usize) -> u32
    ensures { result ≡ tree.now.base + length (path_named tree.now node) }
{
    if tree.contains(node) {
        tree.end(node)
    } else {
        tree.base()
    }
}
