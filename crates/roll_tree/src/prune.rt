//! Taking out of a tree what can no longer matter.
ghost use Rattle.std.specs.Prelude.{◌≡◌, [], ℕ, ◌+◌, nat_eq, ◌||◌, ◌&&◌, not, is_some, length, filter, Some, None, IsSome, Bool, false, vec_capacity, if◌then◌else◌};
ghost use Rattle.std.specs.List.{list_all};
ghost use Rattle.std.specs.Option.{option_map_or};
ghost use Rattle.slab.specs.Slab.{get, slab_len};
ghost use Rattle.roll_tree.specs.Layout.{AreOrdered, has_name};
ghost use Rattle.roll_tree.specs.Rule.{allows, IsLive, IsPruned};

use crate::node::Node;
use roll_frame::{Cell, Row};
use slab::Slab;

/// Which edges stay.
#[derive(Clone, Copy)]
pub enum Rule {
    /// All.
    Any,
    /// Those that have no other cell at this place of their row, if they are of this frame.
    Agrees {
        place: usize,
        frame: u32,
        cell: Cell,
    },
}

impl Rule {
    /// Whether an edge that ends at a frame may stay.
    fn allows(&self, end: u32, row: &Row) -> bool
        ensures { result ≡ allows self.now end row.now }
    {
        match self {
            Rule::Any => true,
            Rule::Agrees { place, frame, cell } => {
                if u64::from(end) != u64::from(*frame) + 1 {
                    return true;
                }
                match row.get(*place) {
                    Some(there) => there == *cell,
                    None => true,
                }
            }
        }
    }

    /// Whether a node hangs by an edge that may stay.
    fn allows_edge<S>(&self, node: &Node<S>) -> bool
        ensures { result ≡ option_map_or (λ e. allows self.now node.now.end e.row) node.now.edge
            false }
    {
        match &node.edge {
            Some(edge) => self.allows(node.end, &edge.row),
            None => false,
        }
    }
}

/// Takes out each node but the top and those that hang below it by edges that the rule allows.
///
/// The names are those of all nodes, each after its parent's: so a node goes where its parent has gone.
pub fn prune<S: Drop>(nodes: &mut Slab<Node<S>>, order: &mut Vec<usize>, top: usize, rule: &Rule)
    requires { AreOrdered nodes.old.slots [] order.old.items }
    ensures pruned { (live : ℕ → Bool) → IsLive top rule.now nodes.old.slots live
        → IsPruned live nodes.old nodes.new order.old.items order.new.items }
    ensures capacity { nodes.new.capacity ≡ nodes.old.capacity }
    ensures space { vec_capacity order.new ≡ vec_capacity order.old }
{
    if keeps_all(nodes, order, top, rule) {
        return;
    }
    take_out(nodes, order, top, rule);
    order.retain(|name| nodes.contains(*name));
}

/// Whether all nodes stay. In most calls of `cut` they do, and nothing is written then.
fn keeps_all<S>(nodes: &Slab<Node<S>>, order: &[usize], top: usize, rule: &Rule) -> bool
    requires { AreOrdered nodes.now.slots [] order.now }
    ensures { (live : ℕ → Bool) → IsLive top rule.now nodes.now.slots live
        → result ≡ list_all live order.now }
{
    for name in order {
        if *name == top {
            continue;
        }
        // A parent comes first, so it stays.
        if !rule.allows_edge(&nodes[*name]) {
            return false;
        }
    }
    true
}

fn take_out<S: Drop>(nodes: &mut Slab<Node<S>>, order: &[usize], top: usize, rule: &Rule)
    requires { AreOrdered nodes.old.slots [] order.now }
    ensures nodes { (live : ℕ → Bool) → IsLive top rule.now nodes.old.slots live → (name : ℕ)
        → get nodes.new name ≡ (if has_name order.now name && not (live name) then None
        else get nodes.old name) }
    ensures counted { (live : ℕ → Bool) → IsLive top rule.now nodes.old.slots live
        → slab_len nodes.new + length order.now ≡ slab_len nodes.old + length
        (filter live order.now) }
    ensures capacity { nodes.new.capacity ≡ nodes.old.capacity }
{
    for name in order {
        if !stays(nodes, *name, top, rule) {
            nodes.remove(*name);
        }
    }
}

/// Whether a node is the top, or hangs by an edge that the rule allows below a node that is still there.
fn stays<S>(nodes: &Slab<Node<S>>, name: usize, top: usize, rule: &Rule) -> bool
    requires { IsSome (get nodes.now name) }
    ensures { (node : Node S) → get nodes.now name ≡ Some node
        → result ≡ (nat_eq name top || option_map_or
        (λ e. is_some (get nodes.now e.parent) && allows rule.now node.end e.row) node.edge false) }
{
    if name == top {
        return true;
    }
    let node = &nodes[name];
    match &node.edge {
        Some(edge) => nodes.contains(edge.parent) && rule.allows(node.end, &edge.row),
        None => false,
    }
}
