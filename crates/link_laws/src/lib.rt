#![tactic(auto)]
//! Laws of the global order and of interleavings, over any node. Each function takes nothing and answers nothing: its
//! contract is its law. The laws stand in `specs/Law.antt`, in the words of the definitions of `link_order`.

ghost use Rattle.link_order.specs.NodeKind.{kind_of};
ghost use Rattle.link_laws.specs.Law.{StartsInTime, RunsInParts, EqualsGlobalOrder, BringsNothingPast, LetsTheLastStep};
ghost use Rattle.link_laws.specs.Law.{KeepsNear, LeavesFewUnread, HasFewLive, ReachesCounts, ReachesCuts};

use link_node::Node;

/// Consoles that all stand at clock 0, with nothing sent, are a sound cut in time.
pub fn start<N: Node>()
    ensures { StartsInTime (kind_of N.clock N.was N.next) }
{}

/// A run may be made in parts: to one clock, and from there to a later one.
pub fn split<N: Node>()
    ensures { RunsInParts (kind_of N.clock N.was N.next) }
{}

/// Consoles that step by what each has seen of the others are those of the global order, whatever the order of their
/// looks and steps. They and their signals make a sound cut, from which the global order goes on to the same end.
pub fn equal<N: Node>()
    ensures { EqualsGlobalOrder (kind_of N.clock N.was N.next) }
{}

/// From a cut in time, each signal that a look adds arrives after the start of every step that the console has made.
/// And the console that is furthest behind may step once it has looked at each peer.
pub fn horizon<N: Node>()
    ensures no_signal_in_the_past { BringsNothingPast (kind_of N.clock N.was N.next) }
    ensures furthest_behind_may_step { LetsTheLastStep (kind_of N.clock N.was N.next) }
{}

/// No console gets further ahead of another than the delay and one step.
pub fn skew<N: Node>()
    ensures { KeepsNear (kind_of N.clock N.was N.next) }
{}

/// Few signals of one console are ones that a peer hasn't seen, and few of one sender can still be taken.
pub fn unread<N: Node>()
    ensures unseen { LeavesFewUnread (kind_of N.clock N.was N.next) }
    ensures live { HasFewLive (kind_of N.clock N.was N.next) }
{}

/// Consoles that each have made some of their steps of the global order, none of them begun where a peer's present step
/// could still be heard, are reached by some interleaving: by their counts of steps alone, and by a cut that has them.
pub fn reached<N: Node>()
    ensures counts { ReachesCounts (kind_of N.clock N.was N.next) }
    ensures cuts { ReachesCuts (kind_of N.clock N.was N.next) }
{}
