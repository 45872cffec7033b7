//! What a step of a console tells its peers.

ghost use Rattle.std.specs.Prelude.{◌<◌, ◌^◌, ◌↔◌, IsTrue, IfSome};
ghost use Rattle.link_node.specs.Due.{FitsWidths};

/// The serial mode that a console tells its peers, in the order of its number in a packed signal.
#[derive(Clone, Copy, Debug, PartialEq, Eq)]
pub enum LinkMode {
    Normal8,
    Normal32,
    Multi,
    Other,
}

/// A transfer that a step started: the speed as in bits 0 and 1 of SIOCNT, and the word sent (16 bits in Multi,
/// 8 or 32 in the Normal modes).
#[derive(Clone, Copy, Debug, PartialEq, Eq)]
pub struct Start {
    pub speed: u8,
    pub word: u32,
}

/// What one step tells its peers: the clock at which the step began, the serial mode after it, and the start and
/// the reply that it made.
#[derive(Clone, Copy, Debug, PartialEq, Eq)]
pub struct Signal {
    pub clock: u64,
    pub mode: LinkMode,
    pub start: Option<Start>,
    pub reply: Option<u32>,
}

fn start_fits(start: Option<Start>) -> bool
    ensures { IsTrue result ↔ IfSome start (λ s. (s.speed < 4) × (s.word < 2 ^ 32)) }
{
    match start {
        Some(start) => start.speed < 4 && u64::from(start.word) < 1 << 32,
        None => true,
    }
}

fn reply_fits(reply: Option<u32>) -> bool
    ensures { IsTrue result ↔ IfSome reply (λ word. word < 2 ^ 32) }
{
    match reply {
        Some(word) => u64::from(word) < 1 << 32,
        None => true,
    }
}

impl Signal {
    /// Whether the parts fit the bits that a packed signal has for them. Only a start's speed may be too large.
    pub fn fits(&self) -> bool
        ensures { IsTrue result ↔ FitsWidths self.now }
    {
        start_fits(self.start) && reply_fits(self.reply)
    }
}

/// A signal as a console takes it: the player number of its sender, and the clock at which it arrives.
#[derive(Clone, Copy, Debug, PartialEq, Eq)]
pub struct Incoming {
    pub sender: u32,
    pub arrival: u64,
    pub signal: Signal,
}
