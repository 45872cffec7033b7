#![tactic(auto)]
//! What a shared table and a lane stand on: one console's way through a trace, what waits for a console, and signals
//! that are gathered again. Each function takes nothing and answers nothing: its contract is its law. The laws stand in
//! `specs/Law.antt`, in the words of the definitions of `link_order`.

ghost use Rattle.link_order.specs.NodeKind.{kind_of};
ghost use Rattle.link_trace.specs.Law.{HasWays, TurnsByKnowledge, BeginsWithPrefixes};
ghost use Rattle.link_trace.specs.Law.{DropsDead, FiltersWaiting, WaitsInParts, GathersAll};

use link_node::Node;

/// The moves of a console are all of its steps: each has the clock after it and what it told, and the console makes
/// another one exactly where its clock is below the end.
pub fn way<N: Node>()
    ensures { HasWays (kind_of N.clock N.was N.next) }
{}

/// A console that knows enough of each peer makes the trace's next step.
pub fn turn<N: Node>()
    ensures { TurnsByKnowledge (kind_of N.clock N.was N.next) }
{}

/// The trace to an earlier end is the first part of the trace to a later one.
pub fn prefix<N: Node>()
    ensures { BeginsWithPrefixes (kind_of N.clock N.was N.next) }
{}

/// Signals that have arrived by the last step's start add nothing; what is due is the first part of what waits, and
/// the rest of it waits on.
pub fn inbox()
    ensures dead { DropsDead }
    ensures due { FiltersWaiting }
    ensures parts { WaitsInParts }
{}

/// Signals added one by one, in any order and any of them again, make the ordered list of them all.
pub fn gathering()
    ensures { GathersAll }
{}
