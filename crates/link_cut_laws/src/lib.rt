#![tactic(auto)]
//! Laws of the cut that a run leaves, over any node. Each function takes nothing and answers nothing: its contract is
//! its law. The laws stand in `specs/Law.antt`, in the words of the definitions of `link_order` and `link_core`.
//!
//! What follows for each property of a console is for proofs: by the law of `steps`, a run keeps what each step keeps
//! (`runs-keep` and `runs-keep-beside` of `proofs/Keeping.antt`).

ghost use Rattle.link_order.specs.NodeKind.{kind_of};
ghost use Rattle.link_cut_laws.specs.Law.{StartsWhole, LeavesWhole, KeepsCable, ComesBySteps, ReachesEnd, EndsNear};

use link_node::Node;

/// Consoles that all stand at clock 0, with nothing sent, are a cut from which a run can go on.
pub fn start<N: Node>()
    ensures { StartsWhole (kind_of N.clock N.was N.next) }
{}

/// So is what a run leaves, with its live signals alone, of any sound cut in time whose signals fit their widths. These
/// signals fit too, and are at most 10,236.
pub fn leave<N: Node>()
    ensures { LeavesWhole (kind_of N.clock N.was N.next) }
{}

/// A run keeps the number of consoles and the delays between them.
pub fn cable<N: Node>()
    ensures { KeepsCable (kind_of N.clock N.was N.next) }
{}

/// Each console that a run leaves has come there by steps of its own: each begins before the end, and takes only what
/// arrived since the last one began, in its order.
pub fn steps<N: Node>()
    ensures { ComesBySteps (kind_of N.clock N.was N.next) }
{}

/// A run ends with each clock at its end or past it, by at most 511 cycles where it wasn't further at the start.
pub fn end<N: Node>()
    ensures reached { ReachesEnd (kind_of N.clock N.was N.next) }
    ensures near { EndsNear (kind_of N.clock N.was N.next) }
{}
