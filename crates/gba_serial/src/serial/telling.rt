//! What a step tells.

ghost use Rattle.std.specs.Prelude.{◌≡◌, option_map};
ghost use Rattle.gba_serial.specs.Tell.{start_told};

use super::Serial;
use crate::timing::is_same;
use gba_word::bits;
use link_node::{Signal, Start};

/// The start as a signal has bits for it.
fn start_told(start: Option<Start>) -> Option<Start>
    ensures { result ≡ option_map start_told start }
{
    match start {
        Some(start) => Some(Start {
            speed: bits(u32::from(start.speed), 0, 2) as u8,
            word: start.word,
        }),
        None => None,
    }
}

impl Serial {
    ghost use Rattle.std.specs.Prelude.{◌≡◌, ◌<◌, ◌^◌, IfSome};
    ghost use Rattle.link_node.specs.Due.{FitsWidths};
    ghost use Rattle.gba_serial.specs.Tell.{has_news, outgoing, silent};

    /// Whether the step has anything to tell: a start, a reply, or another mode than the one told last.
    pub fn has_news(&self) -> bool
        ensures { result ≡ has_news self.now }
    {
        self.start.is_some() || self.reply.is_some() || !is_same(self.mode(), self.told)
    }

    /// The signal of a step that began at `clock`, and nothing is left to tell. Some exactly where the step started a
    /// transfer that peers hear, replied to a start, or left another mode than the one told last.
    #[tactic(auto, unfolding(crate::specs::Tell::outgoing))]
    pub fn outgoing(&mut self, clock: u64) -> Option<Signal>
        requires { clock < 2 ^ 40 }
        ensures signal { result ≡ outgoing clock self.old }
        ensures unit { self.new ≡ silent self.old }
    {
        if !self.has_news() {
            return None;
        }
        let signal = Signal {
            clock,
            mode: self.mode(),
            start: start_told(self.start),
            reply: self.reply,
        };
        self.start = None;
        self.reply = None;
        self.told = signal.mode;
        Some(signal)
    }

    /// The same signal, which is still to be told.
    pub fn signal(&self, clock: u64) -> Option<Signal>
        requires { clock < 2 ^ 40 }
        ensures { result ≡ outgoing clock self.now }
    {
        let mut unit = *self;
        unit.outgoing(clock)
    }

    /// Nothing is left to tell: the mode is told, and so are a start and a reply.
    pub fn fall_silent(&mut self)
        ensures { self.new ≡ silent self.old }
    {
        self.start = None;
        self.reply = None;
        self.told = self.mode();
    }
}
