//! Random numbers, and registers and bytes that are made of them.

ghost use Rattle.std.specs.Prelude.{◌<◌};

/// Pseudo-random numbers by shifts and exclusive or.
#[derive(Drop)]
pub struct Random {
    state: u64,
}

impl Random {
    /// The numbers that follow this one, which isn't 0.
    pub fn after(state: u64) -> Random {
        Random { state }
    }

    fn word(&mut self) -> u64 {
        self.state ^= self.state << 13;
        self.state ^= self.state >> 7;
        self.state ^= self.state << 17;
        self.state
    }

    /// Any halfword.
    pub fn half(&mut self) -> u16 {
        (self.word() / 0x1_0000_0000 % 0x1_0000) as u16
    }

    /// A number below the limit.
    pub fn below(&mut self, limit: u16) -> u16
        requires { 0 < limit }
        ensures { result < limit }
    {
        self.half() % limit
    }

    /// Any byte.
    pub fn byte(&mut self) -> u8 {
        self.below(0x100) as u8
    }

    /// A halfword three of four whose bits are set.
    pub fn mostly_set(&mut self) -> u16 {
        self.half() | self.half()
    }

    /// A byte of two dots, each of which is often 0.
    pub fn sparse_byte(&mut self) -> u8 {
        let byte = self.byte();
        match self.below(4) {
            0 => 0,
            1 => byte % 0x10,
            2 => byte / 0x10 * 0x10,
            _ => byte,
        }
    }

    /// A parameter of an affine background or sprite, from -1 up to 2, with 8 bits behind the point.
    pub fn parameter(&mut self) -> u16 {
        self.below(0x300).wrapping_sub(0x100)
    }

    /// DISPCNT: a mode from 0 to 5, more layers on than off, and seldom a forced blank.
    pub fn control(&mut self) -> u16 {
        let mode = self.below(6);
        let layers = self.mostly_set() & 0x1F00;
        let windows = self.half() & 0xE000;
        let page_and_mapping = self.half() & 0x0050;
        let blank = if self.below(16) == 0 { 0x0080 } else { 0 };
        mode | layers | windows | page_and_mapping | blank
    }
}
