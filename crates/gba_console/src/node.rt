//! A console as a node of the cable.

use crate::Console;
use link_node::{Incoming, Node, Signal};

impl Node for Console {
    ghost use Rattle.gba_console.specs.Machine.{Machine, clock_of, limit_of, without_limit};
    ghost use Rattle.gba_console.specs.Step.{node_next};
    ghost use Rattle.gba_console.specs.NodeLaws.{node_bears, node_fits, node_moves, node_rises, node_short};

    ghost Record = { Machine };

    ghost plain = { without_limit };

    ghost bound = { limit_of };

    ghost clock = { clock_of };

    ghost was = { λ m. m.was };

    ghost next = { node_next };

    fn clock(&self) -> u64 {
        Console::clock(self)
    }

    fn was(&self) -> u64 {
        Console::was(self)
    }

    fn limit(&self) -> u64 {
        self.until()
    }

    fn turn(&mut self, due: &[Incoming]) -> Option<Signal> {
        self.step_with(due)
    }

    fn go_alone(&mut self, end: u64) -> Option<Signal> {
        Console::go_alone(self, end)
    }

    ghost rises = { node_rises };

    ghost short = { node_short };

    ghost moves = { node_moves };

    ghost bears = { node_bears };

    ghost fits = { node_fits };
}
