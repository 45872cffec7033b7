//! The flags as they are kept: by the words that make them.

ghost use Rattle.std.specs.Prelude.{◌≡◌, ◌==◌};
ghost use Rattle.gba_terms.specs.Bits.{bit};

use crate::Flags;
use gba_word::bit;
use std::marker::Model;

/// N, Z, C and V. N is bit 31 of a word, and Z says that a word is 0, so that the flags of a result are kept with no
/// test of it. Contracts see the flags.
#[derive(Clone, Debug, Drop)]
pub(crate) struct KeptFlags {
    signed: u32,
    tested: u32,
    carry: bool,
    overflow: bool,
}

impl Model for KeptFlags {
    ghost use Rattle.std.specs.Prelude.{◌==◌};
    ghost use Rattle.gba_terms.specs.Bits.{bit};
    ghost use Rattle.gba_psr.specs.declared.condition.Flags.{Flags};

    ghost Value = { Flags };

    ghost view = { λ k. record {
      negative = bit k.signed 31;
      zero = k.tested == 0;
      carry = k.carry;
      overflow = k.overflow;
    } };
}

/// A word whose bit 31 is this.
fn signed_by(negative: bool) -> u32
    ensures { bit result 31 ≡ negative }
{
    if negative { 0x8000_0000 } else { 0 }
}

/// A word that is 0 exactly where it's asked for.
fn tested_by(zero: bool) -> u32
    ensures { (result == 0) ≡ zero }
{
    if zero { 0 } else { 1 }
}

impl KeptFlags {
    /// These flags.
    pub(crate) fn new(flags: Flags) -> KeptFlags
        ensures { result ≡ flags }
    {
        KeptFlags {
            signed: signed_by(flags.negative),
            tested: tested_by(flags.zero),
            carry: flags.carry,
            overflow: flags.overflow,
        }
    }

    /// Makes them the flags of a result, with these two.
    #[inline(always)]
    pub(crate) fn set_result(&mut self, value: u32, carry: bool, overflow: bool)
        ensures { self.new ≡ record { negative = bit value 31; zero = value == 0; carry = carry; overflow = overflow } }
    {
        self.signed = value;
        self.tested = value;
        self.carry = carry;
        self.overflow = overflow;
    }

    /// The flags.
    #[inline(always)]
    pub(crate) fn flags(&self) -> Flags
        ensures { result ≡ self.now }
    {
        Flags {
            negative: bit(self.signed, 31),
            zero: self.tested == 0,
            carry: self.carry,
            overflow: self.overflow,
        }
    }
}
