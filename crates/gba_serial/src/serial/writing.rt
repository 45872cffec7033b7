//! Writes, and the starts that they make.

ghost use Rattle.std.specs.Prelude.{◌≡◌, ◌<◌};
ghost use Rattle.gba_register.specs.Rows.{row_at};
ghost use Rattle.gba_serial.specs.Registers.{serial_rows};
ghost use Rattle.gba_serial.specs.Write.{first_words, received_from, started};

use super::Serial;
use crate::timing::{is_multi, is_normal, mode_by, multi_end, normal_end};
use crate::transfer::Running;
use gba_word::bit;
use link_node::{LinkMode, Start};

/// The bits of a halfword that a write stores.
#[tactic(auto, unfolding(crate::specs::Registers::serial_rows, gba_register::specs::Rows::row_at))]
fn write_mask(offset: u32) -> u16
    ensures { result ≡ (row_at serial_rows offset).write_mask }
{
    match offset {
        0x120 | 0x122 | 0x124 | 0x126 | 0x12A => 0xFFFF,
        0x128 => 0x708B,
        0x134 => 0xC000,
        _ => 0,
    }
}

/// The four words as a Multi transfer starts with them: one player's place is filled.
pub(super) fn first_words(player: u32, word: u16) -> [u16; 4]
    requires { player < 4 }
    ensures { result ≡ first_words player word }
{
    let mut words = [0xFFFF; 4];
    words[player as usize] = word;
    words
}

pub(super) fn received_from(player: u32) -> [bool; 4]
    requires { player < 4 }
    ensures { result ≡ received_from player }
{
    let mut got = [false; 4];
    got[player as usize] = true;
    got
}

/// A transfer that this console starts.
fn started(end: u64, word: u32, got: [bool; 4]) -> Option<Running>
    ensures { result ≡ started end word got }
{
    Some(Running {
        starter: true,
        end,
        sent: word,
        word: 0,
        got,
    })
}

impl Serial {
    ghost use Rattle.std.specs.Prelude.{◌≡◌, ◌<◌, ◌≤◌, ◌^◌};
    ghost use Rattle.gba_serial.specs.Write.{begins, begun, busy_control, idle_control, multi_begun, next_mode, normal_begun, start_with, stores_start_bit, with_control, with_select, with_word, written};

    fn next_mode(&self, bits: u16) -> LinkMode
        ensures { result ≡ next_mode bits self.now }
    {
        mode_by(self.select, bits)
    }

    /// Whether a write of SIOCNT stores bit 7.
    fn stores_start_bit(&self, bits: u16) -> bool
        ensures { result ≡ stores_start_bit bits self.now }
    {
        let mode = self.next_mode(bits);
        is_normal(mode) || (is_multi(mode) && self.player == 0)
    }

    /// SIOCNT after a write while no transfer runs.
    fn idle_control(&self, bits: u16) -> u16
        ensures { result ≡ idle_control bits self.now }
    {
        let start = if self.stores_start_bit(bits) {
            bits
        } else {
            self.control
        };
        (bits & 0x700B) | (start & 0x0080)
    }

    /// SIOCNT after a write in a transfer.
    fn busy_control(&self, bits: u16) -> u16
        ensures { result ≡ busy_control bits self.now }
    {
        (bits & 0x4008) | (self.control & 0x3083)
    }

    /// Whether a write of SIOCNT starts a transfer.
    fn begins(&self, bits: u16) -> bool
        ensures { result ≡ begins bits self.now }
    {
        !bit(u32::from(self.control), 7)
            && bit(u32::from(bits), 7)
            && self.stores_start_bit(bits)
            && (is_multi(self.next_mode(bits)) || bit(u32::from(bits), 0))
    }

    fn start_with(&self, word: u32) -> Option<Start>
        ensures { result ≡ Some (start_with word self.now) }
    {
        Some(Start {
            speed: self.speed(),
            word,
        })
    }

    #[tactic(auto, unfolding(crate::specs::Write::multi_begun))]
    fn begin_multi(&mut self, clock: u64)
        requires { clock < 2 ^ 40 }
        ensures { self.new ≡ multi_begun clock self.old }
    {
        let end = multi_end(self.count, self.speed(), clock);
        self.start = self.start_with(u32::from(self.send));
        self.error = false;
        self.words = first_words(self.player, self.send);
        self.run = started(end, u32::from(self.send), received_from(self.player));
    }

    #[tactic(auto, unfolding(crate::specs::Write::normal_begun))]
    fn begin_normal(&mut self, clock: u64)
        requires { clock < 2 ^ 40 }
        ensures { self.new ≡ normal_begun clock self.old }
    {
        let word = self.own_word();
        let end = normal_end(self.round, self.mode(), self.speed(), clock);
        if self.player < 2 {
            self.start = self.start_with(word);
        }
        self.run = started(end, word, [false; 4]);
    }

    fn begin(&mut self, clock: u64)
        requires { clock < 2 ^ 40 }
        ensures { self.new ≡ begun clock self.old }
    {
        if is_multi(self.mode()) {
            self.begin_multi(clock);
        } else {
            self.begin_normal(clock);
        }
    }

    #[tactic(auto, unfolding(crate::specs::Write::with_control))]
    fn set_control(&mut self, clock: u64, bits: u16)
        requires { clock < 2 ^ 40 }
        ensures { self.new ≡ with_control clock bits self.old }
    {
        if self.running() {
            self.control = self.busy_control(bits);
            return;
        }
        let begins = self.begins(bits);
        self.control = self.idle_control(bits);
        if begins {
            self.begin(clock);
        }
    }

    fn set_word(&mut self, place: usize, bits: u16)
        requires { place < 4 }
        ensures { self.new ≡ with_word place bits self.old }
    {
        if !self.running() {
            self.words[place] = bits;
        }
    }

    fn set_select(&mut self, bits: u16)
        ensures { self.new ≡ with_select bits self.old }
    {
        if !self.running() {
            self.select = bits;
        }
    }

    /// Writes the halfword at an offset in a step that begins at `clock`, which is below 2^40. In a transfer the four
    /// words, RCNT and SIOCNT's bits 0, 1, 7, 12 and 13 stay. A write that makes SIOCNT's bit 7 go from 0 to 1 starts a
    /// transfer: in Multi on player 0, in the Normal modes with the inside clock.
    pub fn write(&mut self, clock: u64, offset: u32, value: u16)
        requires { clock < 2 ^ 40 }
        ensures { self.new ≡ written clock offset value self.old }
    {
        let bits = value & write_mask(offset);
        match offset {
            0x120 => self.set_word(0, bits),
            0x122 => self.set_word(1, bits),
            0x124 => self.set_word(2, bits),
            0x126 => self.set_word(3, bits),
            0x128 => self.set_control(clock, bits),
            0x12A => self.send = bits,
            0x134 => self.set_select(bits),
            _ => {}
        }
    }
}
