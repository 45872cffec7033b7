#![tactic(auto)]
//! The steps of a trace, one by one: what each takes, and where what it tells is taken. Each function takes nothing and
//! answers nothing: its contract is its law. The laws stand in `specs/Law.antt`, in the words of the definitions of
//! `link_order`.

ghost use Rattle.link_order.specs.NodeKind.{kind_of};
ghost use Rattle.link_steps.specs.Law.{CarriesSignals, MakesSteps};

use link_node::Node;

/// The steps of each console go on from one to the next, each begins at or after the last one's start and lasts at most
/// 512 cycles, and what arrives 512 cycles before the end of the trace, or earlier, is taken by one of them.
pub fn steps<N: Node>()
    ensures { MakesSteps (kind_of N.clock N.was N.next) }
{}

/// What a step tells is taken by the step of its arrival at each other console, and a step takes nothing else but what
/// was sent before.
pub fn signals<N: Node>()
    ensures { CarriesSignals (kind_of N.clock N.was N.next) }
{}
