//! The registers.

ghost use Rattle.std.specs.Prelude.{◌≡◌};
ghost use Rattle.gba_register.specs.Rows.{row_at};
ghost use Rattle.gba_ppu_reg.specs.Registers.{picture_rows};

use crate::reference::ORIGIN;
use crate::{Position, Reference};
use gba_word::{bits, sign_extend};
use std::marker::Model;

/// The picture's registers (GBATEK, LCD I/O Registers), from DISPCNT 000h to BLDY 054h, and the inner reference points
/// of backgrounds 2 and 3. All numbers are 0 at reset.
#[derive(Clone, Copy, Debug, PartialEq, Eq)]
pub struct PictureRegisters {
    halves: [u16; 43],
    reference2: Reference,
    reference3: Reference,
}

impl Model for PictureRegisters {
    ghost use Rattle.gba_ppu_reg.specs.Registers.{Picture};

    ghost Value = { Picture };

    ghost view = { λ r. record { halves = r.halves; reference2 = r.reference2; reference3 = r.reference3 } };

    ghost inverse = { λ r. record { halves = r.halves; reference2 = r.reference2; reference3 = r.reference3 } };
}

/// The bits of a halfword that read.
#[tactic(auto, unfolding(crate::specs::Registers::picture_rows, gba_register::specs::Rows::row_at))]
fn read_mask(offset: u32) -> u16
    ensures { result ≡ (row_at picture_rows offset).read_mask }
{
    match offset {
        0x000 => 0xFFF7,
        0x004 => 0xFF3F,
        0x006 => 0x00FF,
        0x008 | 0x00A => 0xDFFF,
        0x00C | 0x00E => 0xFFFF,
        0x048 | 0x04A => 0x3F3F,
        0x050 => 0x3FFF,
        0x052 => 0x1F1F,
        _ => 0,
    }
}

/// The bits of a halfword that a write stores.
#[tactic(auto, unfolding(crate::specs::Registers::picture_rows, gba_register::specs::Rows::row_at))]
fn write_mask(offset: u32) -> u16
    ensures { result ≡ (row_at picture_rows offset).write_mask }
{
    match offset {
        0x000 => 0xFFF7,
        0x004 => 0xFF38,
        0x008 | 0x00A => 0xDFFF,
        0x00C | 0x00E => 0xFFFF,
        0x010 | 0x012 | 0x014 | 0x016 | 0x018 | 0x01A | 0x01C | 0x01E => 0x01FF,
        0x020 | 0x022 | 0x024 | 0x026 | 0x030 | 0x032 | 0x034 | 0x036 => 0xFFFF,
        0x028 | 0x02C | 0x038 | 0x03C => 0xFFFF,
        0x02A | 0x02E | 0x03A | 0x03E => 0x0FFF,
        0x040 | 0x042 | 0x044 | 0x046 => 0xFFFF,
        0x048 | 0x04A => 0x3F3F,
        0x050 => 0x3FFF,
        0x052 => 0x1F1F,
        0x054 => 0x001F,
        _ => 0,
    }
}

impl PictureRegisters {
    ghost use Rattle.std.specs.Prelude.{◌≡◌, ◌≤◌};
    ghost use Rattle.gba_ppu_reg.specs.Registers.{after_line, after_reload, grown, picture_at_reset, picture_kept, picture_mode, picture_read, picture_read_at, picture_written, reference_of, written_point};

    /// The registers at reset.
    #[tactic(auto, unfolding(crate::specs::Registers::halves_at_reset))]
    pub fn new() -> PictureRegisters
        ensures { result ≡ picture_at_reset }
    {
        PictureRegisters {
            halves: [0; 43],
            reference2: ORIGIN,
            reference3: ORIGIN,
        }
    }

    /// The registers with these halfwords, from DISPCNT 000h to BLDY 054h in the order of their offsets, also
    /// where there is no register, and these inner reference points of backgrounds 2 and 3, which needn't be the
    /// written ones.
    pub fn of(halves: &[u16; 43], reference2: Reference, reference3: Reference) -> PictureRegisters
        ensures { result ≡ record { halves = halves.now; reference2 = reference2; reference3 = reference3 } }
    {
        PictureRegisters {
            halves: *halves,
            reference2,
            reference3,
        }
    }

    /// What is stored in the halfword at an offset from 04000000h, which is also what a byte write keeps of the other
    /// byte. 0 where there is no register.
    pub fn kept(&self, offset: u32) -> u16
        ensures { result ≡ picture_kept offset self.now }
    {
        if offset % 2 == 0 && offset < 0x56 {
            self.halves[(offset / 2) as usize]
        } else {
            0
        }
    }

    /// What the halfword at an offset reads, but for the flags of DISPSTAT 004h and for VCOUNT 006h, which are of the
    /// position and read 0 here.
    pub fn read(&self, offset: u32) -> u16
        ensures { result ≡ picture_read offset self.now }
    {
        self.kept(offset) & read_mask(offset)
    }

    /// What the halfword at an offset reads while the picture is at a place.
    pub fn read_at(&self, offset: u32, at: &Position) -> u16
        ensures { result ≡ picture_read_at offset at.now self.now }
    {
        match offset {
            0x004 => self.read(0x004) | at.flags(self.kept(0x004)),
            0x006 => bits(at.line, 0, 8) as u16,
            _ => self.read(offset),
        }
    }

    /// A reference point as it is written, by the offset of its first halfword.
    fn written_point(&self, offset: u32) -> u32
        requires { offset ≤ 0x52 }
        ensures { result ≡ written_point offset self.now.halves }
    {
        let place = (offset / 2) as usize;
        let written = u32::from(self.halves[place]) + 0x1_0000 * u32::from(self.halves[place + 1]);
        sign_extend(written, 28)
    }

    /// Writes the halfword at an offset. A write of either half of a reference point makes the inner point the whole
    /// new one. Where there is no register nothing is written.
    pub fn write(&mut self, offset: u32, value: u16)
        ensures { self.new ≡ picture_written offset value self.old }
    {
        if offset % 2 == 1 {
            return;
        }
        if offset >= 0x56 {
            return;
        }
        self.halves[(offset / 2) as usize] = value & write_mask(offset);
        match offset {
            0x028 | 0x02A => self.reference2.x = self.written_point(0x028),
            0x02C | 0x02E => self.reference2.y = self.written_point(0x02C),
            0x038 | 0x03A => self.reference3.x = self.written_point(0x038),
            0x03C | 0x03E => self.reference3.y = self.written_point(0x03C),
            _ => {}
        }
    }

    /// An inner number after a line, by the offset of its parameter.
    fn grown(&self, point: u32, parameter: u32) -> u32
        requires { parameter ≤ 0x54 }
        ensures { result ≡ grown point parameter self.now }
    {
        let parameter = u32::from(self.halves[(parameter / 2) as usize]);
        point.wrapping_add(sign_extend(parameter, 16))
    }

    /// A line was drawn: the inner points grow by PB and PD.
    pub fn next_line(&mut self)
        ensures { self.new ≡ after_line self.old }
    {
        self.reference2.x = self.grown(self.reference2.x, 0x022);
        self.reference2.y = self.grown(self.reference2.y, 0x026);
        self.reference3.x = self.grown(self.reference3.x, 0x032);
        self.reference3.y = self.grown(self.reference3.y, 0x036);
    }

    /// VBlank began: the inner points become the written ones.
    pub fn reload(&mut self)
        ensures { self.new ≡ after_reload self.old }
    {
        self.reference2.x = self.written_point(0x028);
        self.reference2.y = self.written_point(0x02C);
        self.reference3.x = self.written_point(0x038);
        self.reference3.y = self.written_point(0x03C);
    }

    /// The inner reference point of background 2 or 3.
    pub fn reference(&self, background: u32) -> Reference
        requires least { 2 ≤ background }
        requires most { background ≤ 3 }
        ensures { result ≡ reference_of background self.now }
    {
        match background {
            2 => self.reference2,
            _ => self.reference3,
        }
    }

    /// The mode of DISPCNT, from 0 to 7.
    pub fn mode(&self) -> u32
        ensures { result ≡ picture_mode self.now }
    {
        bits(u32::from(self.halves[0]), 0, 3)
    }
}
