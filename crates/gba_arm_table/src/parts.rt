//! A word put together from its parts.

ghost use Rattle.std.specs.Prelude.{◌≡◌, ◌≤◌};
ghost use Rattle.gba_arm_table.specs.Diagrams.{pack, widths};

use gba_word::bits;

/// A run of bits: how many, and the number in them, of which the low `width` bits count.
#[derive(Clone, Copy)]
pub struct Part {
    pub width: u32,
    pub value: u32,
}

/// The parts side by side, the first one highest.
pub fn pack(parts: &[Part]) -> u32
    requires { widths parts.now ≤ 32 }
    ensures { result ≡ pack parts.now }
{
    let mut word = 0u64;
    for part in parts {
        word = (word << part.width) + u64::from(bits(part.value, 0, part.width));
    }
    word as u32
}
