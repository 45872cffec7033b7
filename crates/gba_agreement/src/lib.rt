#![tactic(auto)]
//! Linked consoles agree on a transfer: each that reaches its end records the same one. The laws stand over the
//! definitions of the serial unit and of the global order, for any kind of console that has such a unit. Each function
//! takes nothing and answers nothing: its contract is its law, in the words of `specs/Agreement.antt`.

ghost use Rattle.link_order.specs.NodeKind.{kind_of};
ghost use Rattle.gba_agreement.specs.Agreement.{UnitsAgreeInMulti, UnitsAgreeInNormal};

use link_node::Node;
use link_steps::{signals, steps};

/// No way from player 0 is shorter over another console. Player 0 starts a Multi transfer, and every other console
/// is in Multi and idle when it takes the start: all that reach the end record the same end, the same four words
/// and no error.
pub fn multi<N: Node>()
    ensures { UnitsAgreeInMulti (kind_of N.clock N.was N.next) }
{
    steps::<N>();
    signals::<N>();
}

/// Player 0 or 1 starts a Normal transfer that the other one answers: both record the same end, and each the
/// other's word.
pub fn normal<N: Node>()
    ensures { UnitsAgreeInNormal (kind_of N.clock N.was N.next) }
{
    steps::<N>();
    signals::<N>();
}
