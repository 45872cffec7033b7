//! The registers as they read.

ghost use Rattle.std.specs.Prelude.{◌≡◌, ◌≤◌};
ghost use Rattle.gba_register.specs.Rows.{row_at};
ghost use Rattle.gba_serial.specs.Registers.{serial_rows};

use super::Serial;
use crate::timing::is_multi;
use gba_word::{bits, weight_half};
use link_node::LinkMode;

/// The bits of a halfword that can read.
#[tactic(auto, unfolding(crate::specs::Registers::serial_rows, gba_register::specs::Rows::row_at))]
fn read_mask(offset: u32) -> u16
    ensures { result ≡ (row_at serial_rows offset).read_mask }
{
    match offset {
        0x120 | 0x122 | 0x124 | 0x126 | 0x12A => 0xFFFF,
        0x128 => 0x70FF,
        0x134 => 0xC000,
        _ => 0,
    }
}

impl Serial {
    ghost use Rattle.std.specs.Prelude.{◌≡◌, ◌<◌, ◌≤◌};
    ghost use Rattle.gba_serial.specs.SerialUnit.{all_ready, is_ready, known_mode};
    ghost use Rattle.gba_serial.specs.Registers.{control_shown, control_listed, halfword_at, multi_control, serial_kept, serial_read, serial_listed, shown_player};

    /// The mode that a player below 4 last told. That of this console itself, and of a player that isn't
    /// there, is Other.
    pub fn known(&self, player: u32) -> LinkMode
        requires { player < 4 }
        ensures { result ≡ known_mode self.now.known player }
    {
        self.known[player as usize]
    }

    fn is_ready(&self, player: u32) -> bool
        requires { player < 4 }
        ensures { result ≡ is_ready self.now player }
    {
        !self.is_peer(player) || is_multi(self.known(player))
    }

    fn all_ready(&self) -> bool
        ensures { result ≡ all_ready self.now }
    {
        self.count >= 2
            && is_multi(self.mode())
            && self.is_ready(0)
            && self.is_ready(1)
            && self.is_ready(2)
            && self.is_ready(3)
    }

    fn shown_player(&self) -> u16
        ensures value { result ≡ shown_player self.now }
        ensures most { result ≤ 52 }
    {
        if is_multi(self.mode()) {
            weight_half(4, self.player != 0) + 16 * bits(self.player, 0, 2) as u16
        } else {
            0
        }
    }

    fn multi_control(&self) -> u16
        ensures { result ≡ multi_control self.now }
    {
        let stored = self.control & 0x7003;
        let shown = self.shown_player() + weight_half(8, self.all_ready());
        stored + shown + weight_half(64, self.error) + weight_half(128, self.running())
    }

    fn control_shown(&self) -> u16
        ensures { result ≡ control_shown self.now }
    {
        if is_multi(self.mode()) {
            self.multi_control()
        } else {
            self.control
        }
    }

    fn control_listed(&self) -> u16
        ensures { result ≡ control_listed self.now }
    {
        (self.control & 0x708B) + self.shown_player() + weight_half(64, self.error)
    }

    fn halfword_at(&self, offset: u32, control: u16) -> u16
        ensures { result ≡ halfword_at offset control self.now }
    {
        match offset {
            0x120 => self.words[0],
            0x122 => self.words[1],
            0x124 => self.words[2],
            0x126 => self.words[3],
            0x128 => control,
            0x12A => self.send,
            0x134 => self.select,
            _ => 0,
        }
    }

    /// What the halfword at an offset from 04000000h reads: the four words 120h to 126h, SIOCNT 128h, the send word
    /// 12Ah, RCNT 134h, and 0 elsewhere.
    pub fn read(&self, offset: u32) -> u16
        ensures { result ≡ serial_read offset self.now }
    {
        self.halfword_at(offset, self.control_shown()) & read_mask(offset)
    }

    /// What a byte write keeps of the other byte of a halfword.
    pub fn kept(&self, offset: u32) -> u16
        ensures { result ≡ serial_kept offset self.now }
    {
        self.halfword_at(offset, self.control)
    }

    /// The halfword in the state file: the stored bits, of SIOCNT also the error as bit 6 and in Multi the player.
    pub fn listed(&self, offset: u32) -> u16
        ensures { result ≡ serial_listed offset self.now }
    {
        self.halfword_at(offset, self.control_listed())
    }
}
