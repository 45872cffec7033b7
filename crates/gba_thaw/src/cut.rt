//! The consoles of a job on their cable.

ghost use Rattle.std.specs.Prelude.{◌≡◌, ◌≤◌, ◌<◌, ◌^◌, ℕ, List, Some, None, length, map, if◌then◌else◌};
ghost use Rattle.gba_console.specs.Machine.{without_limit};
ghost use Rattle.gba_filling.specs.Signals.{AreSignals, sent_of};
ghost use Rattle.gba_thaw.specs.Cut.{cut_if};
ghost use Rattle.gba_thaw.specs.Loose.{AllHaveLengths, all_thawed};
ghost use Rattle.link_core.specs.Kept.{cut_of};
ghost use Rattle.link_node.specs.declared.signal.Signal.{Signal};
ghost use Rattle.link_order.specs.Cut.{IsCable, plain_cut};

use crate::console::whole;
use gba_console::Console;
use gba_filling::{Loose, Signals};
use link_core::{Cut, Shell, is_whole};

/// Lets consoles at their start go on from what is said of each, in a job of so many cycles; false where a run can't.
fn thaw_consoles(consoles: &mut Vec<Console>, loose: &[Loose], until: u64) -> bool
    requires until { until ≤ 2 ^ 39 }
    requires count { length loose.now ≡ length consoles.old.items }
    requires lengths { AllHaveLengths consoles.old.items loose.now }
    ensures thawed { all_thawed until consoles.old.items loose.now
        ≡ (if result then Some consoles.new.items else None) }
    ensures many { length consoles.new.items ≡ length consoles.old.items }
{
    for player in 0..loose.len() {
        if !whole(&loose[player], &mut consoles[player], until) {
            return false;
        }
    }
    true
}

/// The consoles with these signals on their way, if a run can go on from them.
fn join_all(consoles: Vec<Console>, shell: Shell, signals: &Signals) -> Option<Cut<Console>>
    requires { IsCable (plain_cut without_limit (cut_of consoles.items shell)) }
    ensures { (sent : List (ℕ × Signal)) → AreSignals sent signals.now
        → result ≡ cut_if shell.delays (map sent_of sent) (Some consoles.items) }
{
    let mut shell = shell;
    if signals.has_more() {
        return None;
    }
    if !is_whole(consoles.as_slice(), shell.delays(), signals.sent()) {
        return None;
    }
    shell.clear();
    let mut cut = shell.join(consoles);
    cut.set_sent(signals.sent());
    Some(cut)
}

/// The consoles at their start on their cable go on from what is said of them, if a run can. It takes no memory.
pub(crate) fn go_on(
    start: Cut<Console>,
    loose: &[Loose],
    signals: &Signals,
    until: u64,
) -> Option<Cut<Console>>
    requires few { until ≤ 2 ^ 39 }
    requires count { length loose.now ≡ length start.consoles }
    requires lengths { AllHaveLengths start.consoles loose.now }
    ensures { (sent : List (ℕ × Signal)) → AreSignals sent signals.now
        → result ≡ cut_if start.delays (map sent_of sent) (all_thawed until start.consoles loose.now) }
{
    let (mut consoles, shell) = start.part();
    if !thaw_consoles(&mut consoles, loose, until) {
        return None;
    }
    join_all(consoles, shell, signals)
}
