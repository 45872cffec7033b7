//! The halfword of an operation.

ghost use Rattle.std.specs.Prelude.{◌≡◌, ◌+◌, ◌*◌, ◌%◌, ◌^◌, ◌≤◌, ◌<◌, IfOk, Some};
ghost use Rattle.gba_arm_table.specs.Diagrams.{pack};
ghost use Rattle.gba_thumb_table.specs.Diagrams.{diagram};
ghost use Rattle.gba_thumb_table.specs.Encoding.{encoding};
ghost use Rattle.gba_thumb_table.specs.Table.{operation};
ghost use Rattle.gba_word.specs.Sums.{flag_number};

use crate::limits::{immediates_fit, offsets_fit, registers_fit};
use crate::operation::ThumbOp;
use gba_arm_table::EncodeError;
use gba_word::bits;

/// The halfword of an operation. A register that is none of 0 to 7 is refused first, then a number that is neither a
/// register nor an offset, then an offset. `x3` of format 2 is a register where `i` isn't set. An `op` of 3 in format 1
/// and a `cond` of 14 or 15 in format 16 are refused as numbers: their bits are those of other operations (GBATEK,
/// THUMB.1 to THUMB.19).
#[tactic(auto, unfolding(crate::specs::Encoding::encoding))]
pub fn encode(op: &ThumbOp) -> Result<u16, EncodeError>
    ensures encoding { result ≡ encoding op.now }
    ensures round_trip { IfOk result (λ half. operation half ≡ Some op.now) }
{
    if !registers_fit(*op) {
        return Err(EncodeError::Register);
    }
    if !immediates_fit(*op) {
        return Err(EncodeError::Immediate);
    }
    if !offsets_fit(*op) {
        return Err(EncodeError::Offset);
    }
    Ok(half_of(*op))
}

fn half_of(op: ThumbOp) -> u16
    ensures { result ≡ pack (diagram op) }
{
    match op {
        ThumbOp::Format1 { op, o5, rs, rd } => format1(op, o5, rs, rd),
        ThumbOp::Format2 { i, op, x3, rs, rd } => format2(i, op, x3, rs, rd),
        ThumbOp::Format3 { op, rd, n8 } => format3(op, rd, n8),
        ThumbOp::Format4 { op, rs, rd } => format4(op, rs, rd),
        ThumbOp::Format5 { op, h1, h2, rs, rd } => format5(op, h1, h2, rs, rd),
        ThumbOp::Format6 { rd, n8 } => format6(rd, n8),
        ThumbOp::Format7 { l, b, ro, rb, rd } => format7(l, b, ro, rb, rd),
        ThumbOp::Format8 { h, s, ro, rb, rd } => format8(h, s, ro, rb, rd),
        ThumbOp::Format9 { b, l, o5, rb, rd } => format9(b, l, o5, rb, rd),
        ThumbOp::Format10 { l, o5, rb, rd } => format10(l, o5, rb, rd),
        ThumbOp::Format11 { l, rd, n8 } => format11(l, rd, n8),
        ThumbOp::Format12 { p, rd, n8 } => format12(p, rd, n8),
        ThumbOp::Format13 { s, n7 } => format13(s, n7),
        ThumbOp::Format14 { l, r, list8 } => format14(l, r, list8),
        ThumbOp::Format15 { l, rb, list8 } => format15(l, rb, list8),
        ThumbOp::Format16 { cond, n8 } => format16(cond, n8),
        ThumbOp::Format17 { n8 } => format17(n8),
        ThumbOp::Format18 { n11 } => format18(n11),
        ThumbOp::Format19 { second, n11 } => format19(second, n11),
    }
}

/// The low `width` bits of a number, from bit `low` of a halfword up.
fn number(value: u16, low: u32, width: u32) -> u16
    requires { low + width ≤ 16 }
    ensures { result ≡ value % 2 ^ width * 2 ^ low }
{
    (bits(u32::from(value), 0, width) << low) as u16
}

/// A register from bit `low` of a halfword up.
fn register(value: u16, low: u32) -> u16
    requires { low ≤ 13 }
    ensures { result ≡ value % 2 ^ 3 * 2 ^ low }
{
    number(value, low, 3)
}

/// A flag at bit `place` of a halfword.
fn flag(set: bool, place: u32) -> u16
    requires { place < 16 }
    ensures { result ≡ flag_number set * 2 ^ place }
{
    number(u16::from(set), place, 1)
}

fn format1(op: u16, o5: u16, rs: u16, rd: u16) -> u16
    ensures { result ≡ pack (diagram (ThumbOp.Format1 op o5 rs rd)) }
{
    number(op, 11, 2) + number(o5, 6, 5) + register(rs, 3) + register(rd, 0)
}

fn format2(i: bool, op: bool, x3: u16, rs: u16, rd: u16) -> u16
    ensures { result ≡ pack (diagram (ThumbOp.Format2 i op x3 rs rd)) }
{
    0x1800 + flag(i, 10) + flag(op, 9) + number(x3, 6, 3) + register(rs, 3) + register(rd, 0)
}

fn format3(op: u16, rd: u16, n8: u16) -> u16
    ensures { result ≡ pack (diagram (ThumbOp.Format3 op rd n8)) }
{
    0x2000 + number(op, 11, 2) + register(rd, 8) + number(n8, 0, 8)
}

fn format4(op: u16, rs: u16, rd: u16) -> u16
    ensures { result ≡ pack (diagram (ThumbOp.Format4 op rs rd)) }
{
    0x4000 + number(op, 6, 4) + register(rs, 3) + register(rd, 0)
}

fn format5(op: u16, h1: bool, h2: bool, rs: u16, rd: u16) -> u16
    ensures { result ≡ pack (diagram (ThumbOp.Format5 op h1 h2 rs rd)) }
{
    0x4400 + number(op, 8, 2) + flag(h1, 7) + flag(h2, 6) + register(rs, 3) + register(rd, 0)
}

fn format6(rd: u16, n8: u16) -> u16
    ensures { result ≡ pack (diagram (ThumbOp.Format6 rd n8)) }
{
    0x4800 + register(rd, 8) + number(n8, 0, 8)
}

fn format7(l: bool, b: bool, ro: u16, rb: u16, rd: u16) -> u16
    ensures { result ≡ pack (diagram (ThumbOp.Format7 l b ro rb rd)) }
{
    0x5000 + flag(l, 11) + flag(b, 10) + register(ro, 6) + register(rb, 3) + register(rd, 0)
}

fn format8(h: bool, s: bool, ro: u16, rb: u16, rd: u16) -> u16
    ensures { result ≡ pack (diagram (ThumbOp.Format8 h s ro rb rd)) }
{
    0x5200 + flag(h, 11) + flag(s, 10) + register(ro, 6) + register(rb, 3) + register(rd, 0)
}

fn format9(b: bool, l: bool, o5: u16, rb: u16, rd: u16) -> u16
    ensures { result ≡ pack (diagram (ThumbOp.Format9 b l o5 rb rd)) }
{
    0x6000 + flag(b, 12) + flag(l, 11) + number(o5, 6, 5) + register(rb, 3) + register(rd, 0)
}

fn format10(l: bool, o5: u16, rb: u16, rd: u16) -> u16
    ensures { result ≡ pack (diagram (ThumbOp.Format10 l o5 rb rd)) }
{
    0x8000 + flag(l, 11) + number(o5, 6, 5) + register(rb, 3) + register(rd, 0)
}

fn format11(l: bool, rd: u16, n8: u16) -> u16
    ensures { result ≡ pack (diagram (ThumbOp.Format11 l rd n8)) }
{
    0x9000 + flag(l, 11) + register(rd, 8) + number(n8, 0, 8)
}

fn format12(p: bool, rd: u16, n8: u16) -> u16
    ensures { result ≡ pack (diagram (ThumbOp.Format12 p rd n8)) }
{
    0xA000 + flag(p, 11) + register(rd, 8) + number(n8, 0, 8)
}

fn format13(s: bool, n7: u16) -> u16
    ensures { result ≡ pack (diagram (ThumbOp.Format13 s n7)) }
{
    0xB000 + flag(s, 7) + number(n7, 0, 7)
}

fn format14(l: bool, r: bool, list8: u16) -> u16
    ensures { result ≡ pack (diagram (ThumbOp.Format14 l r list8)) }
{
    0xB400 + flag(l, 11) + flag(r, 8) + number(list8, 0, 8)
}

fn format15(l: bool, rb: u16, list8: u16) -> u16
    ensures { result ≡ pack (diagram (ThumbOp.Format15 l rb list8)) }
{
    0xC000 + flag(l, 11) + register(rb, 8) + number(list8, 0, 8)
}

fn format16(cond: u16, n8: u16) -> u16
    ensures { result ≡ pack (diagram (ThumbOp.Format16 cond n8)) }
{
    0xD000 + number(cond, 8, 4) + number(n8, 0, 8)
}

fn format17(n8: u16) -> u16
    ensures { result ≡ pack (diagram (ThumbOp.Format17 n8)) }
{
    0xDF00 + number(n8, 0, 8)
}

fn format18(n11: u16) -> u16
    ensures { result ≡ pack (diagram (ThumbOp.Format18 n11)) }
{
    0xE000 + number(n11, 0, 11)
}

fn format19(second: bool, n11: u16) -> u16
    ensures { result ≡ pack (diagram (ThumbOp.Format19 second n11)) }
{
    0xF000 + flag(second, 11) + number(n11, 0, 11)
}
