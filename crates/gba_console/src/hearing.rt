//! Signals that are due.

ghost use Rattle.std.specs.Prelude.{◌≡◌};
ghost use Rattle.gba_console.specs.Step.{all_learned, all_taken};
ghost use Rattle.gba_console.specs.Waiting.{CanTakeAll};

use gba_io::{Board, Core};
use link_node::Incoming;

/// Takes the signals that are due, in their order.
pub(crate) fn take_all(board: &mut Board, due: &[Incoming])
    requires { CanTakeAll due.now board.old }
    ensures { board.new ≡ all_taken due.now board.old }
{
    for one in due {
        board.take(one);
    }
}

/// Learns what a console that is off can learn of the signals that are due, in their order: the modes of its peers.
pub(crate) fn learn_all(core: &mut Core, due: &[Incoming])
    ensures { core.new ≡ all_learned due.now core.old }
{
    for one in due {
        core.learn(one);
    }
}
