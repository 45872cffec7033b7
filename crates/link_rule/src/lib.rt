#![tactic(auto)]
//! The rule of the table that consoles on threads share, over a sound script: what its words are, what each seat knows,
//! and what each step on a word tells. The rule is `specs/Rule.antt`, the steps are `specs/Steps.antt`, and `proofs/`
//! has that each step keeps the rule. Nothing here knows a console or makes a call.

mod view;

pub use view::{Peer, Progress, View};
