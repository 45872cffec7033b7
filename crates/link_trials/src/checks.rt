//! What `turn` needs of a list of due signals, as tests.

ghost use Rattle.std.specs.Prelude.{◌+◌, ◌<◌, ◌≤◌, ◌↔◌, length, IsTrue, All};
ghost use Rattle.link_node.specs.Due.{IsDue, InOrder, Precedes};

use link_node::Incoming;

/// Whether a step with these clocks takes a signal.
fn is_due(one: &Incoming, was: u64, clock: u64) -> bool
    ensures { IsTrue result ↔ IsDue was clock one.now }
{
    was < one.arrival && one.arrival <= clock && one.sender < 4 && one.signal.clock < one.arrival
}

/// Whether a signal stands before another.
fn precedes(one: &Incoming, other: &Incoming) -> bool
    ensures { IsTrue result ↔ Precedes one.now other.now }
{
    one.arrival < other.arrival || (one.arrival == other.arrival && one.sender < other.sender)
}

/// Whether a signal stands before all of these.
fn precedes_all(one: &Incoming, rest: &[Incoming]) -> bool
    ensures { IsTrue result ↔ All (Precedes one.now) rest.now }
{
    rest.iter().all(|other| precedes(one, other))
}

/// Whether signals stand by arrival, then by sender.
fn is_in_order(due: &[Incoming]) -> bool
    ensures { IsTrue result → InOrder due.now }
{
    match due {
        [] => true,
        [one, rest @ ..] => precedes_all(one, rest) && is_in_order(rest),
    }
}

/// Whether a step with these clocks may take these signals.
pub fn may_take(due: &[Incoming], was: u64, clock: u64) -> bool
    ensures ordered { IsTrue result → InOrder due.now }
    ensures taken { IsTrue result → All (IsDue was clock) due.now }
{
    is_in_order(due) && due.iter().all(|one| is_due(one, was, clock))
}
