#![tactic(auto)]
//! The trace of a cut as plain numbers: each console's opening clock and its steps, each with the clock after it and
//! what it told. What is proved of a shared table rests on such a script alone, and knows no console.
//!
//! The definitions stand in `specs/Script.antt`. The function takes nothing and answers nothing: its
//! contract is its law.

ghost use Rattle.link_order.specs.NodeKind.{kind_of};
ghost use Rattle.link_script.specs.Script.{HasSoundScripts};

use link_node::Node;

/// The script of a sound cut is sound, to an end of at most 2^39 and with opening clocks below 2^40.
pub fn script<N: Node>()
    ensures { HasSoundScripts (kind_of N.clock N.was N.next) }
{}
