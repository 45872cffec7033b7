//! The ten keys and their interrupt.

ghost use Rattle.std.specs.Prelude.{◌≡◌, ◌&&◌, not, bit_and};
ghost use Rattle.gba_register.specs.Rows.{row_at};
ghost use Rattle.gba_irq.specs.Keypad.{becomes_true, condition, keypad_read, keypad_rows, keypad_shown, with_control, with_pressed};

use gba_word::bit;
use std::marker::Model;

/// The bits of the ten keys: A, B, Select, Start, Right, Left, Up, Down, R, L are 0 to 9.
const KEYS: u16 = 0x03FF;

/// The bits of a halfword that read.
#[tactic(auto, unfolding(crate::specs::Keypad::keypad_rows, gba_register::specs::Rows::row_at))]
fn read_mask(offset: u32) -> u16
    ensures { result ≡ (row_at keypad_rows offset).read_mask }
{
    match offset {
        0x130 => KEYS,
        0x132 => 0xC3FF,
        _ => 0,
    }
}

/// The bits of KEYCNT that a write stores.
#[tactic(auto, unfolding(crate::specs::Keypad::keypad_rows, gba_register::specs::Rows::row_at))]
fn written_bits(value: u16) -> u16
    ensures { result ≡ bit_and value (row_at keypad_rows 0x132).write_mask }
{
    value & 0xC3FF
}

/// The keypad (GBATEK, GBA Keypad Input): the pressed keys, 1 for pressed, and KEYCNT.
#[derive(Clone, Copy, Debug)]
pub struct Keypad {
    pressed: u16,
    control: u16,
}

impl Model for Keypad {
    ghost use Rattle.gba_irq.specs.Keypad.{Keys};

    ghost Value = { Keys };

    ghost view = { λ k. record { pressed = k.pressed; control = k.control } };

    ghost inverse = { λ k. record { pressed = k.pressed; control = k.control } };
}

impl Keypad {
    /// No key is pressed, and KEYCNT is 0.
    pub fn new() -> Keypad
        ensures { result ≡ record { pressed = 0; control = 0 } }
    {
        Keypad {
            pressed: 0,
            control: 0,
        }
    }

    /// The keypad with these keys pressed, 1 for pressed, and this KEYCNT.
    pub fn of(pressed: u16, control: u16) -> Keypad
        ensures { result ≡ record { pressed = pressed; control = control } }
    {
        Keypad { pressed, control }
    }

    /// The pressed keys, 1 for pressed.
    pub fn pressed(&self) -> u16
        ensures { result ≡ self.now.pressed }
    {
        self.pressed
    }

    /// KEYCNT.
    pub fn chosen(&self) -> u16
        ensures { result ≡ self.now.control }
    {
        self.control
    }

    fn condition(&self) -> bool
        ensures { result ≡ condition self.now }
    {
        let control = u32::from(self.control);
        let chosen = self.control & KEYS;
        let pressed = self.pressed & chosen;
        let met = if bit(control, 15) {
            pressed == chosen
        } else {
            pressed != 0
        };
        bit(control, 14) && chosen != 0 && met
    }

    fn became_true(&self, before: bool) -> bool
        ensures { result ≡ (not before && condition self.now) }
    {
        !before && self.condition()
    }

    /// Makes these the pressed keys. True exactly where the condition of the interrupt became true.
    pub fn set(&mut self, pressed: u16) -> bool
        ensures keys { self.new ≡ with_pressed pressed self.old }
        ensures raised { result ≡ becomes_true self.old self.new }
    {
        let before = self.condition();
        self.pressed = pressed & KEYS;
        self.became_true(before)
    }

    /// Writes KEYCNT. True exactly where the condition of the interrupt became true.
    pub fn control(&mut self, value: u16) -> bool
        ensures keys { self.new ≡ with_control value self.old }
        ensures raised { result ≡ becomes_true self.old self.new }
    {
        let before = self.condition();
        self.control = written_bits(value);
        self.became_true(before)
    }

    fn shown(&self, offset: u32) -> u16
        ensures { result ≡ keypad_shown offset self.now }
    {
        match offset {
            0x130 => KEYS - (self.pressed & KEYS),
            0x132 => self.control,
            _ => 0,
        }
    }

    /// What the halfword at an offset from 04000000h reads: KEYINPUT 130h, where a pressed key is 0, KEYCNT 132h, and 0
    /// elsewhere.
    pub fn read(&self, offset: u32) -> u16
        ensures { result ≡ keypad_read offset self.now }
    {
        self.shown(offset) & read_mask(offset)
    }
}
