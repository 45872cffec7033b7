//! What the cable does to a board, and what the board tells it.

ghost use Rattle.std.specs.Prelude.{◌≡◌, ◌+◌, ◌<◌, ◌≤◌, ◌^◌, MatchOption, length};
ghost use Rattle.gba_io.specs.Cable.{asks_interrupt, board_ended, board_taken, core_ended, core_heard};
ghost use Rattle.gba_serial.specs.End.{ending};
ghost use Rattle.gba_serial.specs.Tell.{outgoing};

use crate::parts::is_calm;
use crate::{Board, Core, Counts};
use gba_serial::Transfer;
use link_node::{Incoming, Signal};

/// Whether a transfer that ended asks for the interrupt.
fn asks_interrupt(transfer: Option<Transfer>) -> bool
    ensures { result ≡ asks_interrupt transfer }
{
    match transfer {
        Some(transfer) => transfer.interrupt,
        None => false,
    }
}

impl Core {
    /// Ends the transfer whose end is at or below a clock, and answers it.
    pub(crate) fn end_transfer(&mut self, clock: u64) -> Option<Transfer>
        requires { clock < 2 ^ 40 }
        ensures transfer { result ≡ ending clock self.old.serial }
        ensures core { self.new ≡ core_ended clock self.old }
    {
        let transfer = self.serial.end_due(clock);
        if asks_interrupt(transfer) {
            self.devices.request_serial();
        }
        self.calm = is_calm(&self.devices, &self.serial);
        transfer
    }

    /// Takes a due signal, and answers the transfer that ended before it.
    pub(crate) fn take_signal(&mut self, due: &Incoming) -> Option<Transfer>
        requires arrival { due.now.arrival < 2 ^ 40 }
        requires in_flight { due.now.signal.clock < due.now.arrival }
        ensures transfer { result ≡ ending due.now.arrival self.old.serial }
        ensures core { self.new ≡ core_heard due.now (core_ended due.now.arrival self.old) }
    {
        let transfer = self.serial.take_signal(due);
        if asks_interrupt(transfer) {
            self.devices.request_serial();
        }
        self.calm = is_calm(&self.devices, &self.serial);
        transfer
    }

    /// What a step tells that began at a clock.
    pub fn signal(&self, clock: u64) -> Option<Signal>
        requires { clock < 2 ^ 40 }
        ensures { result ≡ outgoing clock self.now.serial }
    {
        self.serial.signal(clock)
    }
}

impl Board {
    ghost use Rattle.gba_io.specs.Base.{words_from};
    ghost use Rattle.gba_io.specs.Cable.{NextEndFits};
    ghost use Rattle.gba_io.specs.Ended.{with_transfer};

    /// Counts a transfer that ended, and keeps it where it is asked for.
    fn count(&mut self, transfer: Option<Transfer>)
        requires { MatchOption transfer (Unit {0})
            (λ _. self.old.ended.count
            < self.old.ended.base.words + words_from self.old.ended.base self.old.ended.until) }
        ensures { self.new ≡ record self.old { ended = with_transfer transfer self.old.ended } }
    {
        if let Some(transfer) = transfer {
            self.ended.add(transfer);
        }
    }

    /// Takes a due signal, whose clock is below its arrival. A transfer whose end is at or below the arrival
    /// ends before.
    pub fn take(&mut self, due: &Incoming)
        requires arrival { due.now.arrival < self.old.ended.until }
        requires until { self.old.ended.until ≤ 2 ^ 39 }
        requires in_flight { due.now.signal.clock < due.now.arrival }
        requires room { NextEndFits self.old }
        ensures { self.new ≡ board_taken due.now self.old }
    {
        let transfer = self.core.take_signal(due);
        self.count(transfer);
    }

    /// Ends the transfer whose end is at or below the clock.
    pub fn end_due(&mut self)
        requires clock { self.old.core.devices.clock < self.old.ended.until }
        requires room { NextEndFits self.old }
        ensures { self.new ≡ board_ended self.old.core.devices.clock self.old }
    {
        let clock = self.core.clock();
        let transfer = self.core.end_transfer(clock);
        self.count(transfer);
    }

    /// The signal of the step, before its devices move. Some exactly where the step started a transfer that peers hear,
    /// replied to a start, or left another mode than it began with.
    pub fn outgoing(&self) -> Option<Signal>
        ensures { result ≡ outgoing self.now.core.devices.clock self.now.core.serial }
    {
        self.core.signal(self.core.clock())
    }

    /// The transfers that ended, in the order of their ends. Empty where they aren't kept.
    pub fn words(&self) -> &[Transfer]
        ensures words { result.now ≡ self.now.ended.words }
        ensures few { length result.now ≤ 32770 }
    {
        self.ended.words()
    }

    /// How much was made, whether it is kept or not.
    pub fn counts(&self) -> Counts
        ensures frames { result.frames ≡ self.now.made.frame_count }
        ensures samples { result.samples ≡ self.now.made.pairs }
        ensures words { result.words ≡ self.now.ended.count }
    {
        self.made.counts(self.ended.count())
    }
}
