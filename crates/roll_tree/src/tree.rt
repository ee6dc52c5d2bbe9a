//! The tree.
ghost use Rattle.std.specs.Prelude.{◌≡◌, ℕ, ◌+◌, ◌-◌, ◌≤◌, ◌<◌, ◌↔◌, [], ◌∷◌, ◌++◌, length, map, filter, take, drop, not, true, false, is_some, IsSome, IsSomeAnd, IsTrue, IsErr, IfOk, IfErr, IfSome, OnErr, option_map, Some, None, All};
ghost use Rattle.roll_frame.specs.Claims.{least_place};
ghost use Rattle.roll_frame.specs.Order.{frames_of, in_order};
ghost use Rattle.roll_frame.specs.Paths.{begins_with, contains, longest as longest_of};
ghost use Rattle.roll_tree.specs.SavedStates.{Saved, SavedStates, state_named, paths_of, with_state, CanGrow, later, has_other, IsClosed, IsDistinct, IsOrdered, IsAbove, path_of, CanMark, time_to};

use crate::marks::{Change, least_marked, mark_next, marks_in};
use crate::node::{Edge, Node, set_edge};
use crate::prune::{Rule, prune};
use arrayvec::ArrayVec;
use roll_frame::{Cell, PATH_LIMIT, Path, Refusal, Row, TREE_LIMIT};
use slab::Slab;
use std::alloc::{AllocError, AllocFailed, Global};
use std::marker::Model;

/// The saved states that can still matter, each named by a key, below one root. A clause sees them in the order in
/// which they came, each with its name, its snapshot, and its path from the root's frame on.
#[derive(Drop)]
pub struct Tree<S> {
    base: u32,
    root: usize,
    nodes: Slab<Node<S>>,
    // The names of the nodes, each after its parent's.
    order: Vec<usize>,
    time: ArrayVec<Row, PATH_LIMIT>,
    // No path is longer than this, from frame 0.
    tip: u32,
}

/// The state above another, and the row between them.
#[derive(Clone, Copy, Debug)]
pub struct Above {
    pub node: usize,
    pub row: Row,
}

/// 256 states are kept, and the tree doesn't take this one.
#[derive(Drop)]
pub struct TreeFull<S> {
    pub snapshot: S,
}

impl<S: Drop> From<TreeFull<S>> for Refusal {
    ghost use Rattle.std.specs.Prelude.{◌≡◌};
    ghost use Rattle.roll_frame.specs.declared.refusal.Refusal.TheVariants.{TreeFull};

    ghost from_gives = { λ _ refusal. refusal ≡ TreeFull };

    fn from(_full: TreeFull<S>) -> Refusal {
        Refusal::TreeFull
    }
}

impl<S> Model for Tree<S> {
    ghost use Rattle.roll_tree.specs.SavedStates.{SavedStates};

    ghost Value = { SavedStates S };

    ghost use Rattle.roll_tree.specs.Layout.{kept_of, IsTree};

    ghost view = { kept_of };

    ghost invariant = { IsTree };
}

impl<S> Tree<S> {
    /// A tree that keeps its root alone, with room for 256 states. Where memory is refused, the root comes back.
    pub fn new(alloc: Global, base: u32, root: S) -> Result<Tree<S>, AllocFailed<S>>
    where
        S: Drop,
        ensures base { IfOk result (λ t. t.base ≡ base) }
        ensures alone { IfOk result (λ t. t.states ≡ record {
          name = t.root;
          path = [];
          snapshot = root;
        } ∷ []) }
        ensures time { IfOk result (λ t. t.time ≡ []) }
        ensures returned { IfErr result (λ failed. failed.value ≡ root) }
    {
        let Ok(mut nodes) = Slab::with_capacity(alloc, TREE_LIMIT) else {
            return Err(AllocFailed { value: root });
        };
        let Ok(mut order) = Vec::with_capacity(alloc, TREE_LIMIT) else {
            return Err(AllocFailed { value: root });
        };
        let root = nodes.insert_reserved(Node {
            edge: None,
            end: base,
            snapshot: root,
        });
        order.push_reserved(root);
        Ok(Tree {
            base,
            root,
            nodes,
            order,
            time: ArrayVec::new(),
            tip: base,
        })
    }

    /// How many states are kept, the root among them.
    pub fn len(&self) -> usize
        ensures value { result ≡ length self.now.states }
        ensures few { result ≤ TREE_LIMIT }
    {
        self.order.len()
    }

    /// The names of the kept states, each after the one above it.
    pub fn names(&self) -> &[usize]
        ensures { result.now ≡ map (λ s. s.name) self.now.states }
    {
        &self.order
    }

    /// Whether a state of this name is kept.
    pub fn contains(&self, node: usize) -> bool
        ensures { IsTrue result ↔ IsSome (state_named self.now node) }
    {
        self.nodes.contains(node)
    }

    /// The frame at which the root ends.
    pub fn base(&self) -> u32
        ensures { result ≡ self.now.base }
    {
        self.base
    }

    /// The name of the root.
    pub fn root(&self) -> usize
        ensures value { result ≡ self.now.root }
        ensures state_named { IsSomeAnd (state_named self.now result) (λ s. s.path ≡ []) }
    {
        self.root
    }

    /// Adds a state one row below another. Where 256 are kept, the snapshot comes back.
    pub fn insert(&mut self, parent: usize, row: Row, snapshot: S) -> Result<usize, TreeFull<S>>
    where
        S: Drop,
        requires { CanGrow self.old parent row }
        ensures full { IsErr result ↔ (length self.old.states ≡ TREE_LIMIT) }
        ensures unchanged { OnErr result (self.new ≡ self.old) }
        ensures returned { IfErr result (λ full. full.snapshot ≡ snapshot) }
        ensures vacant { IfOk result (λ name. state_named self.old name ≡ None) }
        ensures added { IfOk result (λ name. IfSome (state_named self.old parent)
            (λ s. self.new ≡ with_state self.old (record {
              name = name;
              path = s.path ++ row ∷ [];
              snapshot = snapshot;
            }))) }
    {
        if self.order.len() == TREE_LIMIT {
            return Err(TreeFull { snapshot });
        }
        let above = self.nodes[parent].end;
        let marks = marks_in(&self.time, (above - self.base) as usize, &row);
        let end = above + 1;
        let name = self.nodes.insert_reserved(Node {
            edge: Some(Edge { parent, row, marks }),
            end,
            snapshot,
        });
        self.order.push_reserved(name);
        self.tip = self.tip.max(end);
        Ok(name)
    }

    /// The snapshot of a kept state.
    pub fn get(&self, node: usize) -> &S
        requires { IsSome (state_named self.now node) }
        ensures { option_map (λ s. s.snapshot) (state_named self.now node) ≡ Some result.now }
    {
        &self.nodes[node].snapshot
    }

    /// The state above a kept one. There is none above the root.
    pub fn above(&self, node: usize) -> Option<Above>
        requires { IsSome (state_named self.now node) }
        ensures { IfSome (state_named self.now node) (λ s. IsAbove self.now s.path result) }
    {
        match &self.nodes[node].edge {
            Some(edge) => Some(Above {
                node: edge.parent,
                row: edge.row,
            }),
            None => None,
        }
    }

    /// The length of a kept state's path, from frame 0.
    pub fn end(&self, node: usize) -> u32
        requires { IsSome (state_named self.now node) }
        ensures { option_map (λ s. self.now.base + length s.path) (state_named self.now node) ≡ Some
            result }
    {
        self.nodes[node].end
    }

    /// The path of a kept state.
    pub fn path(&self, node: usize) -> Path
        requires { IsSome (state_named self.now node) }
        ensures base { result.base ≡ self.now.base }
        ensures rows { option_map (λ s. s.path) (state_named self.now node) ≡ Some
            result.rows.items }
    {
        let mut rows = ArrayVec::new();
        let mut at = node;
        while let Some(edge) = self.nodes[at].edge {
            rows.push(edge.row);
            at = edge.parent;
        }
        rows.reverse();
        Path {
            base: self.base,
            rows,
        }
    }

    /// The deepest kept state on the way that these rows go from the base, and its length, from frame 0.
    pub fn longest(&self, rows: &[Row]) -> (usize, u32)
        ensures node { IsSomeAnd (state_named self.now result.0)
            (λ s. s.path ≡ take (longest_of (paths_of self.now) rows.now) rows.now) }
        ensures length { result.1 ≡ self.now.base + longest_of (paths_of self.now) rows.now }
    {
        let mut best = self.root;
        let mut depth = 0;
        for name in &self.order {
            let Some(row) = rows.get(depth) else {
                break;
            };
            if self.nodes[*name].is_child(best, row) {
                best = *name;
                depth += 1;
            }
        }
        (best, self.nodes[best].end)
    }

    /// The timeline's rows from the base on, as they were last told.
    pub fn time(&self) -> &[Row]
        ensures value { result.now ≡ self.now.time }
        ensures few { length result.now ≤ PATH_LIMIT }
    {
        self.time.as_slice()
    }

    /// Tells the timeline's rows from the base on.
    ///
    /// Of those that were known, the cells of one player, from 1, may have changed, in this frame and later.
    pub fn mark(&mut self, player: u8, from: u32, rows: &[Row])
        requires { CanMark self.old player from rows.now }
        ensures { self.new ≡ record self.old { time = rows.now } }
    {
        let change = Change {
            base: self.base,
            player,
            from,
        };
        change.mark_all(&mut self.nodes, &self.order, &self.time, rows);
        self.time.clear();
        self.time.try_extend_from_slice(rows).unwrap();
    }

    /// Tells the timeline's next row, behind those that are known.
    pub fn tell(&mut self, row: Row)
        requires { length self.old.time < PATH_LIMIT }
        ensures { self.new ≡ record self.old { time = self.old.time ++ row ∷ [] } }
    {
        let (base, tip) = (self.base, self.tip);
        mark_next(&mut self.nodes, &self.order, base, tip, &self.time, &row);
        self.time.push(row);
    }

    /// The deepest kept state on the timeline's way to a frame, and its length, from frame 0.
    pub fn deepest(&self, to: u32) -> (usize, u32)
        requires from { self.now.base ≤ to }
        requires known { to ≤ self.now.base + length self.now.time }
        ensures node { IsSomeAnd (state_named self.now result.0)
            (λ s. s.path ≡ take (longest_of (paths_of self.now) (time_to self.now to))
            (time_to self.now to)) }
        ensures length { result.1 ≡ self.now.base + longest_of (paths_of self.now)
            (time_to self.now to) }
    {
        let mut best = self.root;
        let mut end = self.base;
        for name in &self.order {
            if end == to {
                break;
            }
            if self.nodes[*name].is_unmarked_child(best) {
                best = *name;
                end += 1;
            }
        }
        (best, end)
    }

    /// The least frame in which a kept path differs from the timeline, where both have a row, and the least player,
    /// from 1, whose cells differ there.
    pub fn first_mark(&self, node: usize) -> Option<(u32, u8)>
        requires { IsSome (state_named self.now node) }
        ensures { option_map (λ s. least_place self.now.base s.path self.now.time)
            (state_named self.now node) ≡ Some result }
    {
        let mut first = None;
        let mut at = node;
        while let Some(edge) = self.nodes[at].edge {
            if let Some(player) = least_marked(edge.marks) {
                first = Some((self.nodes[at].end - 1, player));
            }
            at = edge.parent;
        }
        first
    }

    /// The kept state of a path.
    pub fn find(&self, path: &Path) -> Option<usize>
        requires { path.now.base ≡ self.now.base }
        ensures found { IfSome result (λ name. IsSomeAnd (state_named self.now name)
            (λ s. s.path ≡ path.now.rows.items)) }
        ensures when { is_some result ≡ contains (paths_of self.now) path.now.rows.items }
    {
        let (node, end) = self.longest(path.rows.as_slice());
        if u64::from(end) == path.frames() {
            Some(node)
        } else {
            None
        }
    }

    /// Makes the kept state of a path the root, and drops what doesn't begin with that path.
    pub fn settle(&mut self, to: &Path)
    where
        S: Drop,
        requires base { to.now.base ≡ self.old.base }
        requires kept { contains (paths_of self.old) to.now.rows.items ≡ true }
        ensures base { self.new.base ≡ frames_of to.now }
        ensures root { IsSomeAnd (state_named self.old self.new.root)
            (λ s. s.path ≡ to.now.rows.items) }
        ensures time { self.new.time ≡ drop (length to.now.rows.items) self.old.time }
        ensures states { self.new.states ≡ map (later (length to.now.rows.items))
            (filter (λ s. begins_with s.path to.now.rows.items) self.old.states) }
    {
        let Some(top) = self.find(to) else {
            unreachable!();
        };
        self.settle_at(top);
    }

    /// Makes a kept state the root, and drops what doesn't lie below it.
    pub fn settle_at(&mut self, node: usize)
    where
        S: Drop,
        requires { IsSome (state_named self.old node) }
        ensures { IfSome (state_named self.old node) (λ s. self.new ≡ record {
          base = self.old.base + length s.path;
          root = node;
          time = drop (length s.path)
              self.old.time;
          states = map (later (length s.path))
              (filter (λ u. begins_with u.path s.path) self.old.states);
        }) }
    {
        if node == self.root {
            return;
        }
        let end = self.nodes[node].end;
        drop_first(&mut self.time, (end - self.base) as usize);
        self.base = end;
        self.root = node;
        set_edge(&mut self.nodes, node, None);
        prune(&mut self.nodes, &mut self.order, node, &Rule::Any);
    }

    /// Drops each state whose path has another cell than this for the player, counted from 1, in the frame.
    pub fn cut(&mut self, player: u8, frame: u32, cell: Cell)
    where
        S: Drop,
        requires { self.old.base ≤ frame }
        ensures { self.new ≡ record self.old {
          states = filter (λ s. not (has_other player (frame - self.old.base) cell s.path))
              self.old.states;
        } }
    {
        if frame >= self.tip {
            return;
        }
        let Some(place) = usize::from(player).checked_sub(1) else {
            return;
        };
        let rule = Rule::Agrees { place, frame, cell };
        prune(&mut self.nodes, &mut self.order, self.root, &rule);
    }

    /// The paths of all kept states, in their order.
    pub fn kept(&self, alloc: Global) -> Result<Vec<Path>, AllocError>
        ensures { IfOk result (λ paths. paths.items ≡ map (path_of self.now.base)
            (in_order (paths_of self.now))) }
    {
        let mut paths = Vec::with_capacity(alloc, self.order.len())?;
        for name in &self.order {
            paths.push_reserved(self.path(*name));
        }
        paths.sort_unstable();
        Ok(paths)
    }

    /// What holds of every tree. It does nothing.
    pub fn laws(&self)
        ensures rooted { contains (paths_of self.now) [] ≡ true }
        ensures closed { IsClosed self.now }
        ensures distinct { IsDistinct self.now }
        ensures ordered { IsOrdered self.now }
        ensures short { All (λ s. length s.path ≤ PATH_LIMIT) self.now.states }
        ensures named { All (λ s. state_named self.now s.name ≡ Some s) self.now.states }
        ensures few { length self.now.states ≤ TREE_LIMIT }
    {
        let _ = &self.base;
    }
}

// Takes rows off the front, all where there are fewer.
fn drop_first(rows: &mut ArrayVec<Row, PATH_LIMIT>, count: usize)
    ensures { rows.new.items ≡ drop count rows.old.items }
{
    let count = count.min(rows.len());
    let left = rows.len() - count;
    rows.as_mut_slice().copy_within(count.., 0);
    rows.truncate(left);
}
