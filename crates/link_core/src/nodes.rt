//! The nodes of a cut: their clocks, the one that is furthest behind, and its step.

ghost use Rattle.std.specs.Prelude.{ℕ, ◌≡◌, ◌+◌, ◌<◌, ◌≤◌, ◌^◌, Some, length, map, slice_index, slice_get, slice_set, All};
ghost use Rattle.std.specs.Vec.{vec_len};
ghost use Rattle.link_node.specs.Due.{IsDue, InOrder};
ghost use Rattle.link_order.specs.GlobalOrder.{least_below};

use link_node::{Incoming, Node, Signal};

/// The clock of a node.
pub(crate) fn clock_of<N: Node>(nodes: &[N], i: usize) -> u64
    requires { i < length nodes.now }
    ensures value { result ≡ slice_index (map N.clock (map N.plain nodes.now)) i }
    ensures small { result ≤ 2 ^ 39 + 511 }
{
    nodes[i].clock()
}

/// The node with the least clock, at a tie the first one.
pub(crate) fn least_of<N: Node>(nodes: &[N]) -> usize
    requires { 0 < length nodes.now }
    ensures value { result ≡ least_below (slice_index (map N.clock (map N.plain nodes.now))) (length nodes.now) }
    ensures player { result < length nodes.now }
{
    let mut least = 0;
    for i in 0..nodes.len() {
        if clock_of(nodes, i) < clock_of(nodes, least) {
            least = i;
        }
    }
    least
}

/// One step of a node, with what is due to it.
pub(crate) fn turn_of<N: Node>(nodes: &mut Vec<N>, i: usize, due: &[Incoming]) -> Option<Signal>
    requires player { i < vec_len nodes.old }
    requires below { slice_index (map N.clock (map N.plain nodes.old.items)) i
        < slice_index (map N.bound nodes.old.items) i }
    requires ordered { InOrder due.now }
    requires taken { All (IsDue (slice_index (map N.was (map N.plain nodes.old.items)) i)
        (slice_index (map N.clock (map N.plain nodes.old.items)) i)) due.now }
    ensures node { (x : N.Record) → slice_get (map N.plain nodes.old.items) i ≡ Some x →
        map N.plain nodes.new.items ≡ slice_set (map N.plain nodes.old.items) i (N.next x due.now).0 }
    ensures signal { (x : N.Record) → slice_get (map N.plain nodes.old.items) i ≡ Some x →
        result ≡ (N.next x due.now).1 }
    ensures limits { map N.bound nodes.new.items ≡ map N.bound nodes.old.items }
{
    nodes[i].turn(due)
}
