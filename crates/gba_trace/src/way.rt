//! Consoles that step in the global order, one step at a time, with room for the next one.

ghost use Rattle.std.specs.Prelude.{◌≡◌, ◌<◌, ◌≤◌, ◌^◌, ◌++◌, OnOk, true, false};
ghost use Rattle.gba_console.specs.Alone.{console_kind};
ghost use Rattle.gba_console.specs.Machine.{without_limit};
ghost use Rattle.gba_trace.specs.Trace.{next_line, stepped_cut};
ghost use Rattle.gba_trace.specs.Way.{HaveRoom, Machines, Shows};
ghost use Rattle.link_order.specs.Cut.{clock_at, plain_cut};
ghost use Rattle.link_order.specs.GlobalOrder.{least};

use gba_console::Console;
use gba_console::laws::shorn_unseen;
use gba_freeze::step_line;
use gba_session::{forget_all, later_end};
use gba_terms::NoMemory;
use link_core::Cut;
use link_mapped::steps;
use std::alloc::Global;

/// Consoles on their cable, each of which has room up to a clock.
#[derive(Drop)]
pub(crate) struct Way {
    pub(crate) cut: Cut<Console>,
    pub(crate) end: u64,
}

impl Way {
    /// Whether the next step begins below a clock.
    pub(crate) fn goes_on(&self, until: u64) -> bool
        ensures below { result ≡ true → clock_at console_kind (plain_cut without_limit self.now.cut)
            (least console_kind (plain_cut without_limit self.now.cut)) < until }
        ensures over { result ≡ false → until ≤ clock_at console_kind (plain_cut without_limit self.now.cut)
            (least console_kind (plain_cut without_limit self.now.cut)) }
    {
        self.cut.least_clock() < until
    }

    /// Gives the consoles room for a step that begins below `until`: their lists are emptied where they have none.
    pub(crate) fn with_room(self, until: u64) -> Way
        requires most { until ≤ 2 ^ 39 }
        requires room { HaveRoom self.end self.cut }
        requires early { clock_at console_kind (plain_cut without_limit self.cut)
            (least console_kind (plain_cut without_limit self.cut)) < until }
        ensures room { HaveRoom result.end result.cut }
        ensures shows { (plain : Machines) → Shows plain self.cut → Shows plain result.cut }
        ensures clock { clock_at console_kind (plain_cut without_limit result.cut)
            (least console_kind (plain_cut without_limit result.cut)) < result.end }
    {
        shorn_unseen();
        steps::<Console>();
        let clock = self.cut.least_clock();
        if clock < self.end {
            return self;
        }
        let end = later_end(until, clock);
        Way {
            cut: forget_all(self.cut, end),
            end,
        }
    }

    /// Makes the next step.
    pub(crate) fn step(&mut self)
        requires room { HaveRoom self.old.end self.old.cut }
        requires clock { clock_at console_kind (plain_cut without_limit self.old.cut)
            (least console_kind (plain_cut without_limit self.old.cut)) < self.old.end }
        ensures room { HaveRoom self.new.end self.new.cut }
        ensures shows { (plain : Machines) → Shows plain self.old.cut → Shows (stepped_cut plain) self.new.cut }
    {
        shorn_unseen();
        steps::<Console>();
        let _player = self.cut.least();
        self.cut.serial_step();
    }

    /// Makes the next step, and adds its line.
    pub(crate) fn step_told(&mut self, alloc: Global, text: &mut Vec<u8>) -> Result<(), NoMemory>
        requires room { HaveRoom self.old.end self.old.cut }
        requires clock { clock_at console_kind (plain_cut without_limit self.old.cut)
            (least console_kind (plain_cut without_limit self.old.cut)) < self.old.end }
        ensures room { HaveRoom self.new.end self.new.cut }
        ensures shows { (plain : Machines) → Shows plain self.old.cut → Shows (stepped_cut plain) self.new.cut }
        ensures line { (plain : Machines) → Shows plain self.old.cut
            → OnOk result (text.new.items ≡ text.old.items ++ next_line plain) }
    {
        shorn_unseen();
        steps::<Console>();
        let player = self.cut.least() as usize;
        self.cut.serial_step();
        step_line(alloc, &self.cut.nodes()[player], text)
    }
}
