//! One channel.

ghost use Rattle.std.specs.Prelude.{◌≡◌};
ghost use Rattle.gba_dma.specs.Channel.{moved as moved_by, with_high as high_replaced, with_low as low_replaced};

use crate::{DmaEvent, Unit};
use gba_bus::Width;
use gba_word::{bit, bits};

/// One channel (GBATEK, GBA DMA Transfers): what was written to its registers, as it is stored, and the inner numbers
/// of its run.
#[derive(Clone, Copy, Debug, PartialEq, Eq)]
pub struct Channel {
    /// The source, 28 bits, on channel 0 27.
    pub source: u32,
    /// The destination, 27 bits, on channel 3 28.
    pub target: u32,
    /// The count, in units, 14 bits, on channel 3 16. 0 stands for 4000h units, on channel 3 10000h.
    pub count: u16,
    pub control: u16,
    /// Whether a run goes on.
    pub active: bool,
    /// Whether the run's first unit is still to be done.
    pub first: bool,
    /// Where the next unit reads and where it writes, with the low bits that alignment drops.
    pub inner_source: u32,
    pub inner_target: u32,
    /// The units that are left.
    pub left: u32,
}

/// A channel at reset.
pub(crate) const IDLE: Channel = Channel {
    source: 0,
    target: 0,
    count: 0,
    control: 0,
    active: false,
    first: false,
    inner_source: 0,
    inner_target: 0,
    left: 0,
};

/// The low halfword of a number replaced.
fn with_low(value: u16, whole: u32) -> u32
    ensures { result ≡ low_replaced value whole }
{
    bits(whole, 16, 16) * 0x1_0000 + u32::from(value)
}

/// The high halfword of a number replaced.
fn with_high(value: u16, whole: u32) -> u32
    ensures { result ≡ high_replaced value whole }
{
    u32::from(value) * 0x1_0000 + bits(whole, 0, 16)
}

/// An address after a unit of so many bytes.
fn moved(step: u32, bytes: u32, address: u32) -> u32
    ensures { result ≡ moved_by step bytes address }
{
    match step {
        1 => address.wrapping_sub(bytes),
        2 => address,
        _ => address.wrapping_add(bytes),
    }
}

impl Channel {
    ghost use Rattle.std.specs.Prelude.{◌≡◌, ◌<◌, bit_and};
    ghost use Rattle.gba_dma.specs.Channel.{after_event, after_run, after_step, after_unit_end, count_loaded, half_shown, channel_set, is_enabled, is_event_of, is_last, is_triggered, next_source, next_target, repeats, requests_interrupt, serves_sound, source_step, target_step, timing_of, unit_of, unit_width, waits_again, with_control};

    fn timing(&self) -> u32
        ensures { result ≡ timing_of self.now.control }
    {
        bits(u32::from(self.control), 12, 2)
    }

    fn is_enabled(&self) -> bool
        ensures { result ≡ is_enabled self.now }
    {
        bit(u32::from(self.control), 15)
    }

    fn serves_sound(&self, number: u32) -> bool
        ensures { result ≡ serves_sound number self.now }
    {
        self.timing() == 3 && (number == 1 || number == 2)
    }

    fn count_loaded(&self, number: u32) -> u32
        ensures { result ≡ count_loaded number self.now }
    {
        if self.count != 0 {
            u32::from(self.count)
        } else if number == 3 {
            0x1_0000
        } else {
            0x4000
        }
    }

    /// Writes the control. A start loads the inner numbers, and at timing 0 the run begins.
    fn set_control(&mut self, number: u32, value: u16)
        ensures { self.new ≡ with_control number value self.old }
    {
        let was_enabled = self.is_enabled();
        self.control = value;
        if !self.is_enabled() {
            self.active = false;
            return;
        }
        if was_enabled {
            return;
        }
        self.inner_source = self.source;
        self.inner_target = self.target;
        self.left = self.count_loaded(number);
        self.active = self.timing() == 0;
        self.first = self.active || self.first;
    }

    fn is_event_of(&self, event: DmaEvent, number: u32) -> bool
        ensures { result ≡ is_event_of event number self.now }
    {
        match event {
            DmaEvent::VBlank => self.timing() == 1,
            DmaEvent::HBlank => self.timing() == 2,
            DmaEvent::QueueA => self.serves_sound(number) && self.inner_target == 0x0400_00A0,
            DmaEvent::QueueB => self.serves_sound(number) && self.inner_target == 0x0400_00A4,
        }
    }

    /// An event comes, which begins a run where the channel waits for it.
    pub(crate) fn trigger(&mut self, event: DmaEvent, number: u32)
        ensures { self.new ≡ after_event event number self.old }
    {
        if self.active || !self.is_enabled() || !self.is_event_of(event, number) {
            return;
        }
        self.active = true;
        self.first = true;
        if self.serves_sound(number) {
            self.left = 4;
        }
    }

    fn unit_width(&self, number: u32) -> Width
        ensures { result ≡ unit_width number self.now }
    {
        if self.serves_sound(number) || bit(u32::from(self.control), 10) {
            Width::Word
        } else {
            Width::Half
        }
    }

    /// The unit that it does next, if it is active.
    pub(crate) fn unit(&self, number: u32) -> Unit
        ensures { result ≡ unit_of number self.now }
    {
        let width = self.unit_width(number);
        Unit {
            channel: number,
            source: width.align(self.inner_source),
            target: width.align(self.inner_target),
            width,
            first: self.first,
        }
    }

    fn next_source(&self, number: u32) -> u32
        ensures { result ≡ next_source number self.now }
    {
        let step = bits(u32::from(self.control), 7, 2);
        moved(step, self.unit_width(number).size(), self.inner_source)
    }

    fn target_step(&self) -> u32
        ensures { result ≡ target_step self.now }
    {
        bits(u32::from(self.control), 5, 2)
    }

    fn next_target(&self, number: u32) -> u32
        ensures { result ≡ next_target number self.now }
    {
        if self.serves_sound(number) {
            return self.inner_target;
        }
        moved(
            self.target_step(),
            self.unit_width(number).size(),
            self.inner_target,
        )
    }

    fn is_last(&self) -> bool
        ensures { result ≡ is_last self.now }
    {
        self.left <= 1
    }

    fn waits_again(&self) -> bool
        ensures { result ≡ waits_again self.now }
    {
        bit(u32::from(self.control), 9) && self.timing() != 0
    }

    /// Whether the end of a unit requests the interrupt.
    pub(crate) fn requests_interrupt(&self) -> bool
        ensures { result ≡ requests_interrupt self.now }
    {
        self.active && self.is_last() && bit(u32::from(self.control), 14)
    }

    /// Moves the inner addresses by a unit, and lowers the count.
    fn step(&mut self, number: u32)
        ensures { self.new ≡ after_step number self.old }
    {
        self.first = false;
        self.inner_source = self.next_source(number);
        self.inner_target = self.next_target(number);
        self.left = self.left.saturating_sub(1);
    }

    /// Ends the run: the channel waits for its next trigger, or is disabled.
    fn end_run(&mut self, number: u32)
        ensures { self.new ≡ after_run number self.old }
    {
        self.active = false;
        if !self.waits_again() {
            self.control = bits(u32::from(self.control), 0, 15) as u16;
            return;
        }
        self.left = self.count_loaded(number);
        if self.target_step() == 3 {
            self.inner_target = self.target;
        }
    }

    /// Ends a unit, if the channel is active.
    pub(crate) fn end_unit(&mut self, number: u32)
        ensures { self.new ≡ after_unit_end number self.old }
    {
        if !self.active {
            return;
        }
        let last = self.is_last();
        self.step(number);
        if last {
            self.end_run(number);
        }
    }

    /// What stands in the halfword at a place of the channel's twelve bytes.
    pub(crate) fn shown(&self, place: u32) -> u16
        ensures { result ≡ half_shown place self.now }
    {
        match place {
            0 => bits(self.source, 0, 16) as u16,
            2 => bits(self.source, 16, 16) as u16,
            4 => bits(self.target, 0, 16) as u16,
            6 => bits(self.target, 16, 16) as u16,
            8 => self.count,
            10 => self.control,
            _ => 0,
        }
    }

    /// Writes the halfword at a place of the channel's twelve bytes.
    pub(crate) fn write(&mut self, number: u32, place: u32, value: u16)
        ensures { self.new ≡ channel_set number place value self.old }
    {
        match place {
            0 => self.source = with_low(value, self.source),
            2 => self.source = with_high(value, self.source),
            4 => self.target = with_low(value, self.target),
            6 => self.target = with_high(value, self.target),
            8 => self.count = value,
            10 => self.set_control(number, value),
            _ => {}
        }
    }
}
