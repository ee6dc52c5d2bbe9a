//! The nodes of a tree.
ghost use Rattle.std.specs.Prelude.{◌≡◌, ◌≢◌, ℕ, None, Some, IsSome, IsSomeAnd};
ghost use Rattle.slab.specs.Slab.{get, slab_len};
ghost use Rattle.roll_tree.specs.Node.{is_child_of, is_unmarked_of};

use roll_frame::Row;
use slab::Slab;

/// What leads to a node: its parent's name, and the row.
#[derive(Clone, Copy)]
pub struct Edge {
    pub parent: usize,
    pub row: Row,
    /// Where the row differs from the timeline's.
    pub marks: u8,
}

/// A saved state. The root has no edge.
#[derive(Drop)]
pub struct Node<S> {
    pub edge: Option<Edge>,
    /// How many frames its path has, from frame 0.
    pub end: u32,
    pub snapshot: S,
}

impl<S> Node<S> {
    /// Whether it is one row below another node.
    pub fn is_child(&self, parent: usize, row: &Row) -> bool
        ensures { result ≡ is_child_of parent self.now row.now }
    {
        match &self.edge {
            Some(edge) => edge.parent == parent && edge.row == *row,
            None => false,
        }
    }

    /// Whether it is one row below another node, and has no marks.
    pub fn is_unmarked_child(&self, parent: usize) -> bool
        ensures { result ≡ is_unmarked_of parent self.now }
    {
        match &self.edge {
            Some(edge) => edge.parent == parent && edge.marks == 0,
            None => false,
        }
    }
}

/// Gives a node another edge, or makes it a root.
pub fn set_edge<S>(nodes: &mut Slab<Node<S>>, name: usize, edge: Option<Edge>)
    requires { IsSome (get nodes.old name) }
    ensures changed { IsSomeAnd (get nodes.old name) (λ was. get nodes.new name ≡ Some (record was {
      edge = edge;
    })) }
    ensures others { (other : ℕ) → other ≢ name → get nodes.new other ≡ get nodes.old other }
    ensures len { slab_len nodes.new ≡ slab_len nodes.old }
    ensures capacity { nodes.new.capacity ≡ nodes.old.capacity }
{
    nodes[name].edge = edge;
}

/// Gives a node's edge these marks. Nothing is written where it has them.
pub fn set_marks<S>(nodes: &mut Slab<Node<S>>, name: usize, edge: Edge, marks: u8)
    requires { IsSomeAnd (get nodes.old name) (λ was. was.edge ≡ Some edge) }
    ensures changed { IsSomeAnd (get nodes.old name) (λ was. get nodes.new name ≡ Some (record was {
      edge = Some (record edge { marks = marks });
    })) }
    ensures others { (other : ℕ) → other ≢ name → get nodes.new other ≡ get nodes.old other }
    ensures len { slab_len nodes.new ≡ slab_len nodes.old }
    ensures capacity { nodes.new.capacity ≡ nodes.old.capacity }
{
    if marks != edge.marks {
        set_edge(nodes, name, Some(Edge { marks, ..edge }));
    }
}
