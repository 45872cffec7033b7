//! What a console is to the cable.

use crate::signal::{Incoming, Signal};

/// A console that steps, tells its peers by signals and takes theirs.
///
/// Contracts see a node as a plain record (`plain`) and a limit (`bound`); no step depends on the limit. One step is
/// `next`, a function of the record and of the signals that are due. Clocks count cycles from the start.
pub trait Node {
    ghost use Rattle.std.specs.Prelude.{ℕ, ◌≡◌, ◌+◌, ◌<◌, ◌≤◌, ◌^◌, List, Option, None, IfSome, All};
    ghost use Rattle.link_node.specs.declared.signal.Incoming.{Incoming};
    ghost use Rattle.link_node.specs.declared.signal.Signal.{Signal};
    ghost use Rattle.link_node.specs.Alone.{StepsAlone};
    ghost use Rattle.link_node.specs.Due.{IsDue, InOrder, FitsWidths};

    ghost Record: { Type 0 };

    ghost plain: { Self → Record };

    ghost bound: { Self → ℕ };

    ghost clock: { Record → ℕ };

    ghost was: { Record → ℕ };

    ghost next: { Record → List Incoming → Record × Option Signal };

    /// The clock at which the next step begins.
    fn clock(&self) -> u64
        ensures value { result ≡ clock (plain self.now) }
        ensures small { result ≤ 2 ^ 39 + 511 };

    /// The clock at which the last step began, 0 before the first.
    fn was(&self) -> u64
        ensures { result ≡ was (plain self.now) };

    /// The clock from which on the node makes no step.
    fn limit(&self) -> u64
        ensures value { result ≡ bound self.now }
        ensures small { result ≤ 2 ^ 39 };

    /// One step, with the signals that are due, by arrival and then by sender. It answers the signal that it sends.
    fn turn(&mut self, due: &[Incoming]) -> Option<Signal>
        requires below { clock (plain self.old) < bound self.old }
        requires ordered { InOrder due.now }
        requires taken { All (IsDue (was (plain self.old)) (clock (plain self.old))) due.now }
        ensures node { plain self.new ≡ (next (plain self.old) due.now).0 }
        ensures signal { result ≡ (next (plain self.old) due.now).1 }
        ensures limit { bound self.new ≡ bound self.old };

    /// Steps with nothing due, until the clock is at least `end` or one of them tells something, and answers
    /// that signal.
    fn go_alone(&mut self, end: u64) -> Option<Signal>
        requires { end ≤ bound self.old }
        ensures alone { StepsAlone clock next end (plain self.old) (plain self.new) result }
        ensures ends { result ≡ None → end ≤ clock (plain self.new) }
        ensures rises { clock (plain self.old) < end → clock (plain self.old) < clock (plain self.new) }
        ensures limit { bound self.new ≡ bound self.old }
    {
        while self.clock() < end {
            if let Some(signal) = self.turn(&[]) {
                return Some(signal);
            }
        }
        None
    }

    // A step lasts 1 to 512 cycles.
    ghost rises: { (r : Record) (due : List Incoming) → clock r < clock (next r due).0 };

    ghost short: { (r : Record) (due : List Incoming) → clock (next r due).0 ≤ clock r + 512 };

    // The step's own start is kept.
    ghost moves: { (r : Record) (due : List Incoming) → was (next r due).0 ≡ clock r };

    // A signal bears the clock at which its step began, and its parts fit their widths.
    ghost bears: { (r : Record) (due : List Incoming) → IfSome (next r due).1 (λ s. s.clock ≡ clock r) };

    ghost fits: { (r : Record) (due : List Incoming) → IfSome (next r due).1 FitsWidths };
}
