//! The four channels and their registers.

ghost use Rattle.std.specs.Prelude.{◌≡◌};
ghost use Rattle.gba_register.specs.Rows.{row_at};
ghost use Rattle.gba_dma.specs.Channels.{dma_rows};

use crate::channel::{Channel, IDLE};
use crate::{DmaEvent, Unit};
use std::marker::Model;

/// The four channels (GBATEK, GBA DMA Transfers). All numbers are 0 at reset. Whatever is called, an active channel is
/// enabled; from reset on an enabled one has units left, too.
#[derive(Clone, Copy, Debug)]
pub struct Channels {
    channel0: Channel,
    channel1: Channel,
    channel2: Channel,
    channel3: Channel,
}

impl Model for Channels {
    ghost use Rattle.gba_dma.specs.Channels.{FourChannels};
    ghost use Rattle.gba_dma.specs.Consistency.{RunsAreEnabled};

    ghost Value = { FourChannels };

    ghost view = { λ cs. record {
      channel0 = cs.channel0;
      channel1 = cs.channel1;
      channel2 = cs.channel2;
      channel3 = cs.channel3;
    } };

    ghost inverse = { λ cs. record {
      channel0 = cs.channel0;
      channel1 = cs.channel1;
      channel2 = cs.channel2;
      channel3 = cs.channel3;
    } };

    ghost invariant = { λ cs. RunsAreEnabled (record {
      channel0 = cs.channel0;
      channel1 = cs.channel1;
      channel2 = cs.channel2;
      channel3 = cs.channel3;
    }) };
}

/// The bits of a halfword that a write stores.
#[tactic(auto, unfolding(crate::specs::Channels::dma_rows, gba_register::specs::Rows::row_at))]
fn write_mask(offset: u32) -> u16
    ensures { result ≡ (row_at dma_rows offset).write_mask }
{
    match offset {
        0x0B0 | 0x0B4 | 0x0BC | 0x0C0 | 0x0C8 | 0x0CC | 0x0D4 | 0x0D8 | 0x0DC => 0xFFFF,
        0x0B2 | 0x0B6 | 0x0C2 | 0x0CE => 0x07FF,
        0x0BE | 0x0CA | 0x0D6 | 0x0DA => 0x0FFF,
        0x0B8 | 0x0C4 | 0x0D0 => 0x3FFF,
        0x0BA | 0x0C6 | 0x0D2 => 0xF7E0,
        0x0DE => 0xFFE0,
        _ => 0,
    }
}

/// The bits of a halfword that read: only controls do.
#[tactic(auto, unfolding(crate::specs::Channels::dma_rows, gba_register::specs::Rows::row_at))]
fn read_mask(offset: u32) -> u16
    ensures { result ≡ (row_at dma_rows offset).read_mask }
{
    match offset {
        0x0BA | 0x0C6 | 0x0D2 => 0xF7E0,
        0x0DE => 0xFFE0,
        _ => 0,
    }
}

impl Channels {
    ghost use Rattle.std.specs.Prelude.{◌≡◌, ◌<◌, IfSome};
    ghost use Rattle.gba_dma.specs.Channels.{after_lowest_unit, after_trigger, after_unit_at, channel_at, channels_at_reset, dma_kept, dma_read, dma_written, interrupt_at, is_moving, lowest_active, lowest_interrupt, next_unit};
    ghost use Rattle.gba_dma.specs.Consistency.{AreConsistent, HasRun, RunsAreEnabled};

    /// The channels at reset.
    pub fn new() -> Channels
        ensures { result ≡ channels_at_reset }
    {
        Channels {
            channel0: IDLE,
            channel1: IDLE,
            channel2: IDLE,
            channel3: IDLE,
        }
    }

    /// The channels with these numbers: an active one has to be enabled.
    pub fn of(
        channel0: Channel,
        channel1: Channel,
        channel2: Channel,
        channel3: Channel,
    ) -> Channels
        requires { RunsAreEnabled (record {
          channel0 = channel0;
          channel1 = channel1;
          channel2 = channel2;
          channel3 = channel3;
        }) }
        ensures { result ≡ record {
          channel0 = channel0;
          channel1 = channel1;
          channel2 = channel2;
          channel3 = channel3;
        } }
    {
        Channels {
            channel0,
            channel1,
            channel2,
            channel3,
        }
    }

    /// A channel by its number, which is below 4.
    pub fn channel(&self, number: u32) -> Channel
        requires { number < 4 }
        ensures { result ≡ channel_at number self.now }
    {
        match number {
            0 => self.channel0,
            1 => self.channel1,
            2 => self.channel2,
            _ => self.channel3,
        }
    }

    /// What a byte write keeps of the other byte of the halfword at an offset from 04000000h, which is what is stored
    /// there: of channel k the source at 0B0h + 12k and 0B2h + 12k, then the destination, the count and the control. 0
    /// elsewhere.
    pub fn kept(&self, offset: u32) -> u16
        ensures { result ≡ dma_kept offset self.now }
    {
        match offset {
            0x0B0..=0x0BB => self.channel0.shown(offset - 0x0B0),
            0x0BC..=0x0C7 => self.channel1.shown(offset - 0x0BC),
            0x0C8..=0x0D3 => self.channel2.shown(offset - 0x0C8),
            0x0D4..=0x0DF => self.channel3.shown(offset - 0x0D4),
            _ => 0,
        }
    }

    /// What the halfword at an offset from 04000000h reads: channel k's control at 0BAh + 12k, and 0 elsewhere.
    pub fn read(&self, offset: u32) -> u16
        ensures { result ≡ dma_read offset self.now }
    {
        self.kept(offset) & read_mask(offset)
    }

    /// Writes the halfword at an offset. A control that becomes enabled starts its channel. Elsewhere
    /// nothing is written.
    pub fn write(&mut self, offset: u32, value: u16)
        ensures { self.new ≡ dma_written offset value self.old }
    {
        let value = value & write_mask(offset);
        match offset {
            0x0B0..=0x0BB => self.channel0.write(0, offset - 0x0B0, value),
            0x0BC..=0x0C7 => self.channel1.write(1, offset - 0x0BC, value),
            0x0C8..=0x0D3 => self.channel2.write(2, offset - 0x0C8, value),
            0x0D4..=0x0DF => self.channel3.write(3, offset - 0x0D4, value),
            _ => {}
        }
    }

    /// Makes those channels active that wait for the event.
    #[tactic(auto, using(crate::proofs::Enabled::event_enables))]
    pub fn trigger(&mut self, event: DmaEvent)
        ensures { self.new ≡ after_trigger event self.old }
    {
        self.channel0.trigger(event, 0);
        self.channel1.trigger(event, 1);
        self.channel2.trigger(event, 2);
        self.channel3.trigger(event, 3);
    }

    fn lowest_active(&self) -> Option<u32>
        ensures { result ≡ lowest_active self.now }
    {
        if self.channel0.active {
            Some(0)
        } else if self.channel1.active {
            Some(1)
        } else if self.channel2.active {
            Some(2)
        } else if self.channel3.active {
            Some(3)
        } else {
            None
        }
    }

    /// Whether any channel is active.
    pub fn is_moving(&self) -> bool
        ensures { result ≡ is_moving self.now }
    {
        self.channel0.active || self.channel1.active || self.channel2.active || self.channel3.active
    }

    /// The unit that is to be done next, of the lowest active channel. None exactly where no channel is active.
    pub fn next_unit(&self) -> Option<Unit>
        ensures unit { result ≡ next_unit self.now }
        ensures channel { IfSome result (λ unit. unit.channel < 4) }
        ensures run { AreConsistent self.now → IfSome result (λ unit. HasRun (channel_at unit.channel self.now)) }
    {
        match self.lowest_active() {
            None => None,
            Some(0) => Some(self.channel0.unit(0)),
            Some(1) => Some(self.channel1.unit(1)),
            Some(2) => Some(self.channel2.unit(2)),
            Some(_) => Some(self.channel3.unit(3)),
        }
    }

    /// Ends a unit of a channel below 4, and answers the channel if this requests its interrupt, which is bit 8 +
    /// k of IF for channel k. Nothing changes where the channel isn't active, since a unit's own write may have
    /// ended its run.
    pub fn unit_done_of(&mut self, channel: u32) -> Option<u32>
        requires { channel < 4 }
        ensures channels { self.new ≡ after_unit_at channel self.old }
        ensures interrupt { result ≡ interrupt_at channel self.old }
    {
        let requests = self.channel(channel).requests_interrupt();
        match channel {
            0 => self.channel0.end_unit(0),
            1 => self.channel1.end_unit(1),
            2 => self.channel2.end_unit(2),
            _ => self.channel3.end_unit(3),
        }
        if requests { Some(channel) } else { None }
    }

    /// Ends a unit of the lowest active channel.
    pub fn unit_done(&mut self) -> Option<u32>
        ensures channels { self.new ≡ after_lowest_unit self.old }
        ensures interrupt { result ≡ lowest_interrupt self.old }
    {
        match self.lowest_active() {
            None => None,
            Some(channel) => self.unit_done_of(channel),
        }
    }
}
