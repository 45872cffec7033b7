#![tactic(auto)]
//! Runs of consoles that differ in what no step looks at, over any node. Each function takes nothing and answers
//! nothing: its contract is its law. The laws stand in `specs/Law.antt`, in the words of the definitions of
//! `link_order`.

ghost use Rattle.link_order.specs.NodeKind.{kind_of};
ghost use Rattle.link_mapped.specs.Law.{AreAlike, MapsRuns, RunsAlike, RunsLiveAlike, RunsLiveInParts, StepsAlike};

use link_node::Node;

/// Cuts of consoles that differ in what no step looks at run alike: with all their signals, and also where only those
/// that can still be taken are the same.
pub fn runs<N: Node>()
    ensures all { RunsAlike (kind_of N.clock N.was N.next) }
    ensures live { RunsLiveAlike (kind_of N.clock N.was N.next) }
{}

/// A change of consoles that no step looks at may be made before a run or after it.
pub fn maps<N: Node>()
    ensures { MapsRuns (kind_of N.clock N.was N.next) }
{}

/// Between the parts of a run the signals that nobody can take any more may be dropped.
pub fn parts<N: Node>()
    ensures { RunsLiveInParts (kind_of N.clock N.was N.next) }
{}

/// Cuts of consoles with the same clocks are sound together, and have the same live signals.
pub fn alike<N: Node>()
    ensures { AreAlike (kind_of N.clock N.was N.next) }
{}

/// Cuts of consoles that differ in what no step looks at make alike steps, one by one.
pub fn steps<N: Node>()
    ensures { StepsAlike (kind_of N.clock N.was N.next) }
{}
