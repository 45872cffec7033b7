//! The registers IE, IF and IME, and the halt.

ghost use Rattle.std.specs.Prelude.{◌≡◌};
ghost use Rattle.gba_register.specs.Rows.{row_at};
ghost use Rattle.gba_irq.specs.Interrupts.{interrupt_rows};

use gba_word::bit;

/// The bits of a halfword that read, which are those that a write stores.
#[tactic(auto, unfolding(crate::specs::Interrupts::interrupt_rows, gba_register::specs::Rows::row_at))]
fn mask(offset: u32) -> u16
    ensures read { result ≡ (row_at interrupt_rows offset).read_mask }
    ensures write { result ≡ (row_at interrupt_rows offset).write_mask }
{
    match offset {
        0x200 | 0x202 => 0x3FFF,
        0x208 => 0x0001,
        _ => 0,
    }
}

/// IE, IF and IME (GBATEK, GBA Interrupt Control). The bits of IE and IF: VBlank 0, HBlank 1, VCount 2, timers 3 to 6,
/// serial 7, DMA 8 to 11, keypad 12, game pak 13. All are 0 at reset.
#[derive(Clone, Copy, Debug, PartialEq, Eq)]
pub struct Interrupts {
    /// IE: the interrupts that are enabled.
    pub enabled: u16,
    /// IF: the interrupts that are requested.
    pub raised: u16,
    /// IME: whether any interrupt is entered.
    pub master: bool,
}

impl Interrupts {
    ghost use Rattle.std.specs.Prelude.{◌≡◌, ◌<◌, false};
    ghost use Rattle.gba_irq.specs.Interrupts.{interrupt_kept, interrupt_read, interrupt_shown, interrupt_written, is_pending, with_request, without_requests};

    /// The state at reset.
    pub fn new() -> Interrupts
        ensures { result ≡ record { enabled = 0; raised = 0; master = false } }
    {
        Interrupts {
            enabled: 0,
            raised: 0,
            master: false,
        }
    }

    /// Requests the interrupt of a bit of IF.
    pub fn raise(&mut self, bit: u32)
        requires { bit < 14 }
        ensures { self.new ≡ with_request bit self.old }
    {
        self.raised |= 1 << bit;
    }

    /// Clears the bits of IF that are 1 in the mask.
    pub fn acknowledge(&mut self, mask: u16)
        ensures { self.new ≡ without_requests mask self.old }
    {
        self.raised &= !mask;
    }

    /// Whether an enabled interrupt is requested, whatever IME says.
    pub fn pending(&self) -> bool
        ensures { result ≡ is_pending self.now }
    {
        self.enabled & self.raised != 0
    }

    fn shown(&self, offset: u32) -> u16
        ensures { result ≡ interrupt_shown offset self.now }
    {
        match offset {
            0x200 => self.enabled,
            0x202 => self.raised,
            0x208 => u16::from(self.master),
            _ => 0,
        }
    }

    /// What the halfword at an offset from 04000000h reads: IE 200h, IF 202h, IME 208h, and 0 elsewhere.
    pub fn read(&self, offset: u32) -> u16
        ensures { result ≡ interrupt_read offset self.now }
    {
        self.shown(offset) & mask(offset)
    }

    /// What a byte write keeps of the other byte of a halfword: of IF nothing.
    pub fn kept(&self, offset: u32) -> u16
        ensures { result ≡ interrupt_kept offset self.now }
    {
        match offset {
            0x202 => 0,
            _ => self.shown(offset),
        }
    }

    /// Writes the halfword at an offset. A write of IF clears the bits that are 1 in it.
    pub fn write(&mut self, offset: u32, value: u16)
        ensures { self.new ≡ interrupt_written offset value self.old }
    {
        let value = value & mask(offset);
        match offset {
            0x200 => self.enabled = value,
            0x202 => self.acknowledge(value),
            0x208 => self.master = bit(u32::from(value), 0),
            _ => {}
        }
    }
}

/// The halt: a halted console executes nothing until an enabled interrupt is requested (GBATEK, BIOS Halt Functions).
#[derive(Clone, Copy, Debug, PartialEq, Eq)]
pub struct Halt {
    pub halted: bool,
}
