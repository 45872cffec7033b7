//! What the fields of a halfword mean, format by format.

ghost use Rattle.std.specs.Prelude.{◌≡◌, ◌+◌, ◌≤◌};
ghost use Rattle.gba_terms.specs.Bits.{field};
ghost use Rattle.gba_thumb_table.specs.Fields.{
  format1,
  format2,
  format3,
  format4,
  format5,
  format6,
  format7,
  format8,
  format9,
  format10,
  format11,
  format12,
  format13,
  format14,
  format15,
  format16,
  format17,
  format18,
  format19,
};

use crate::operation::ThumbOp;
use gba_word::{bit, bits};

/// The number in the `width` bits from bit `low` up, which are at most sixteen.
fn number(half: u32, low: u32, width: u32) -> u16
    requires within { low + width ≤ 32 }
    requires most { width ≤ 16 }
    ensures { result ≡ field half low width }
{
    bits(half, low, width) as u16
}

pub fn format1(half: u32) -> ThumbOp
    ensures { result ≡ format1 (field half) }
{
    ThumbOp::Format1 {
        op: number(half, 11, 2),
        o5: number(half, 6, 5),
        rs: number(half, 3, 3),
        rd: number(half, 0, 3),
    }
}

pub fn format2(half: u32) -> ThumbOp
    ensures { result ≡ format2 (field half) }
{
    ThumbOp::Format2 {
        i: bit(half, 10),
        op: bit(half, 9),
        x3: number(half, 6, 3),
        rs: number(half, 3, 3),
        rd: number(half, 0, 3),
    }
}

pub fn format3(half: u32) -> ThumbOp
    ensures { result ≡ format3 (field half) }
{
    ThumbOp::Format3 {
        op: number(half, 11, 2),
        rd: number(half, 8, 3),
        n8: number(half, 0, 8),
    }
}

pub fn format4(half: u32) -> ThumbOp
    ensures { result ≡ format4 (field half) }
{
    ThumbOp::Format4 {
        op: number(half, 6, 4),
        rs: number(half, 3, 3),
        rd: number(half, 0, 3),
    }
}

pub fn format5(half: u32) -> ThumbOp
    ensures { result ≡ format5 (field half) }
{
    ThumbOp::Format5 {
        op: number(half, 8, 2),
        h1: bit(half, 7),
        h2: bit(half, 6),
        rs: number(half, 3, 3),
        rd: number(half, 0, 3),
    }
}

pub fn format6(half: u32) -> ThumbOp
    ensures { result ≡ format6 (field half) }
{
    ThumbOp::Format6 {
        rd: number(half, 8, 3),
        n8: number(half, 0, 8),
    }
}

pub fn format7(half: u32) -> ThumbOp
    ensures { result ≡ format7 (field half) }
{
    ThumbOp::Format7 {
        l: bit(half, 11),
        b: bit(half, 10),
        ro: number(half, 6, 3),
        rb: number(half, 3, 3),
        rd: number(half, 0, 3),
    }
}

pub fn format8(half: u32) -> ThumbOp
    ensures { result ≡ format8 (field half) }
{
    ThumbOp::Format8 {
        h: bit(half, 11),
        s: bit(half, 10),
        ro: number(half, 6, 3),
        rb: number(half, 3, 3),
        rd: number(half, 0, 3),
    }
}

pub fn format9(half: u32) -> ThumbOp
    ensures { result ≡ format9 (field half) }
{
    ThumbOp::Format9 {
        b: bit(half, 12),
        l: bit(half, 11),
        o5: number(half, 6, 5),
        rb: number(half, 3, 3),
        rd: number(half, 0, 3),
    }
}

pub fn format10(half: u32) -> ThumbOp
    ensures { result ≡ format10 (field half) }
{
    ThumbOp::Format10 {
        l: bit(half, 11),
        o5: number(half, 6, 5),
        rb: number(half, 3, 3),
        rd: number(half, 0, 3),
    }
}

pub fn format11(half: u32) -> ThumbOp
    ensures { result ≡ format11 (field half) }
{
    ThumbOp::Format11 {
        l: bit(half, 11),
        rd: number(half, 8, 3),
        n8: number(half, 0, 8),
    }
}

pub fn format12(half: u32) -> ThumbOp
    ensures { result ≡ format12 (field half) }
{
    ThumbOp::Format12 {
        p: bit(half, 11),
        rd: number(half, 8, 3),
        n8: number(half, 0, 8),
    }
}

pub fn format13(half: u32) -> ThumbOp
    ensures { result ≡ format13 (field half) }
{
    ThumbOp::Format13 {
        s: bit(half, 7),
        n7: number(half, 0, 7),
    }
}

pub fn format14(half: u32) -> ThumbOp
    ensures { result ≡ format14 (field half) }
{
    ThumbOp::Format14 {
        l: bit(half, 11),
        r: bit(half, 8),
        list8: number(half, 0, 8),
    }
}

pub fn format15(half: u32) -> ThumbOp
    ensures { result ≡ format15 (field half) }
{
    ThumbOp::Format15 {
        l: bit(half, 11),
        rb: number(half, 8, 3),
        list8: number(half, 0, 8),
    }
}

pub fn format16(half: u32) -> ThumbOp
    ensures { result ≡ format16 (field half) }
{
    ThumbOp::Format16 {
        cond: number(half, 8, 4),
        n8: number(half, 0, 8),
    }
}

pub fn format17(half: u32) -> ThumbOp
    ensures { result ≡ format17 (field half) }
{
    ThumbOp::Format17 {
        n8: number(half, 0, 8),
    }
}

pub fn format18(half: u32) -> ThumbOp
    ensures { result ≡ format18 (field half) }
{
    ThumbOp::Format18 {
        n11: number(half, 0, 11),
    }
}

pub fn format19(half: u32) -> ThumbOp
    ensures { result ≡ format19 (field half) }
{
    ThumbOp::Format19 {
        second: bit(half, 11),
        n11: number(half, 0, 11),
    }
}
