//! The statements of Thumb operations.

ghost use Rattle.std.specs.Prelude.{◌≡◌, ◌<◌, ◌≤◌, ◌^◌, ◌++◌, ◌∷◌, [], OnOk};
ghost use Rattle.gba_arm_table.specs.Numbers.{condition_of};
ghost use Rattle.gba_thumb_table.specs.Limits.{Fits};
ghost use Rattle.gba_thumb_table.specs.Table.{operation};
ghost use Rattle.gba_dis.specs.Pieces.{Name, braces, piece_text, text_of};
ghost use Rattle.gba_dis.specs.Thumb.{block_name as block_name_of, block_pieces, branch_name, branch_pieces, branch_target as branch_target_of, by_number, by_register, byte_name as byte_name_of, call_pieces, half_name as half_name_of, high_name as high_name_of, high_pieces, high_register as high_register_of, load_name as load_name_of, number_name as number_name_of, number_pieces, open_pieces, scaled as scaled_of, shift_amount as shift_amount_of, shift_name as shift_name_of, signed_name as signed_name_of, stack_list as stack_list_of, stack_name as stack_name_of, sum_name as sum_name_of, sum_pieces, three_pieces, thumb_pieces, thumb_statement, two_number_pieces, two_pieces, two_register_name as two_register_name_of};

use crate::arm::{add_immediate, condition_text, or_32};
use crate::pieces::{add, add_digits, add_list, add_next_register, add_register};
use gba_arm_table::Condition;
use gba_thumb_table::{ThumbOp, decode};
use std::alloc::AllocError;

fn shift_name(op: u16) -> &'static [u8]
    ensures { result.now ≡ shift_name_of op }
{
    match op {
        0 => b"lsl",
        1 => b"lsr",
        _ => b"asr",
    }
}

fn shift_amount(op: u16, o5: u16) -> u32
    ensures { result ≡ shift_amount_of op o5 }
{
    let amount = u32::from(o5);
    if op == 0 { amount } else { or_32(amount) }
}

fn number_name(op: u16) -> &'static [u8]
    ensures { result.now ≡ number_name_of op }
{
    match op {
        0 => b"mov",
        1 => b"cmp",
        2 => b"add",
        _ => b"sub",
    }
}

fn two_register_name(op: u16) -> &'static [u8]
    ensures { result.now ≡ two_register_name_of op }
{
    match op {
        0 => b"and",
        1 => b"eor",
        2 => b"lsl",
        3 => b"lsr",
        4 => b"asr",
        5 => b"adc",
        6 => b"sbc",
        7 => b"ror",
        8 => b"tst",
        9 => b"neg",
        10 => b"cmp",
        11 => b"cmn",
        12 => b"orr",
        13 => b"mul",
        14 => b"bic",
        _ => b"mvn",
    }
}

fn high_name(op: u16) -> &'static [u8]
    ensures { result.now ≡ high_name_of op }
{
    match op {
        0 => b"add",
        1 => b"cmp",
        _ => b"mov",
    }
}

/// A register of format 5.
fn high_register(high: bool, register: u16) -> u16
    requires { register < 8 }
    ensures register { result ≡ high_register_of high register }
    ensures small { result < 16 }
{
    if high { register + 8 } else { register }
}

fn sum_name(down: bool) -> &'static [u8]
    ensures { result.now ≡ sum_name_of down }
{
    if down { b"sub" } else { b"add" }
}

fn load_name(load: bool) -> &'static [u8]
    ensures { result.now ≡ load_name_of load }
{
    if load { b"ldr" } else { b"str" }
}

fn half_name(load: bool) -> &'static [u8]
    ensures { result.now ≡ half_name_of load }
{
    if load { b"ldrh" } else { b"strh" }
}

fn byte_name(load: bool, byte: bool) -> &'static [u8]
    ensures { result.now ≡ byte_name_of load byte }
{
    match (load, byte) {
        (false, false) => b"str",
        (false, true) => b"strb",
        (true, false) => b"ldr",
        (true, true) => b"ldrb",
    }
}

fn signed_name(h: bool, s: bool) -> &'static [u8]
    ensures { result.now ≡ signed_name_of h s }
{
    match (h, s) {
        (false, false) => b"strh",
        (false, true) => b"ldrsb",
        (true, false) => b"ldrh",
        (true, true) => b"ldrsh",
    }
}

/// The bytes of an offset of format 9.
fn scaled(byte: bool, o5: u16) -> u32
    ensures { result ≡ scaled_of byte o5 }
{
    if byte {
        u32::from(o5)
    } else {
        4 * u32::from(o5)
    }
}

fn stack_name(load: bool) -> &'static [u8]
    ensures { result.now ≡ stack_name_of load }
{
    if load { b"pop" } else { b"push" }
}

/// The registers of PUSH and POP, bit by bit.
fn stack_list(load: bool, more: bool, list: u16) -> u16
    requires { list < 256 }
    ensures { result ≡ stack_list_of load more list }
{
    match (more, load) {
        (false, _) => list,
        (true, true) => list + 0x8000,
        (true, false) => list + 0x4000,
    }
}

fn block_name(load: bool) -> &'static [u8]
    ensures { result.now ≡ block_name_of load }
{
    if load { b"ldmia" } else { b"stmia" }
}

/// A name, and the blank after it.
fn add_name(line: &mut Vec<u8>, name: &[u8]) -> Result<(), AllocError>
    ensures { OnOk result (line.new.items ≡ line.old.items ++ piece_text (Name name.now)) }
{
    add(line, name)?;
    add(line, b" ")
}

/// A name, and two registers.
fn add_two(line: &mut Vec<u8>, name: &[u8], first: u16, second: u16) -> Result<(), AllocError>
    requires first { first < 16 }
    requires second { second < 16 }
    ensures { OnOk result (line.new.items ≡ line.old.items ++ text_of (two_pieces name.now first second)) }
{
    add_name(line, name)?;
    add_register(line, first as u8)?;
    add_next_register(line, second as u8)
}

/// A name, a register and a number.
fn add_with_number(line: &mut Vec<u8>, name: &[u8], rd: u16, number: u32) -> Result<(), AllocError>
    requires { rd < 16 }
    ensures { OnOk result (line.new.items ≡ line.old.items ++ text_of (number_pieces name.now rd number)) }
{
    add_name(line, name)?;
    add_register(line, rd as u8)?;
    add(line, b", ")?;
    add_immediate(line, number)
}

/// A name, and three registers.
fn add_three(line: &mut Vec<u8>, name: &[u8], rd: u16, rs: u16, rn: u16) -> Result<(), AllocError>
    requires rd { rd < 16 }
    requires rs { rs < 16 }
    requires rn { rn < 16 }
    ensures { OnOk result (line.new.items ≡ line.old.items ++ text_of (three_pieces name.now rd rs rn)) }
{
    add_name(line, name)?;
    add_register(line, rd as u8)?;
    add_next_register(line, rs as u8)?;
    add_next_register(line, rn as u8)
}

/// A name, two registers and a number.
fn add_two_with_number(
    line: &mut Vec<u8>,
    name: &[u8],
    rd: u16,
    rs: u16,
    number: u32,
) -> Result<(), AllocError>
    requires rd { rd < 16 }
    requires rs { rs < 16 }
    ensures { OnOk result (line.new.items ≡ line.old.items ++ text_of (two_number_pieces name.now rd rs number)) }
{
    add_name(line, name)?;
    add_register(line, rd as u8)?;
    add_next_register(line, rs as u8)?;
    add(line, b", ")?;
    add_immediate(line, number)
}

/// Format 2.
fn add_sum(
    line: &mut Vec<u8>,
    i: bool,
    down: bool,
    x3: u16,
    rs: u16,
    rd: u16,
) -> Result<(), AllocError>
    requires x3 { x3 < 8 }
    requires rs { rs < 8 }
    requires rd { rd < 8 }
    ensures { OnOk result (line.new.items ≡ line.old.items ++ text_of (sum_pieces i down x3 rs rd)) }
{
    if i {
        add_two_with_number(line, sum_name(down), rd, rs, u32::from(x3))
    } else {
        add_three(line, sum_name(down), rd, rs, x3)
    }
}

/// Format 5.
fn add_high(
    line: &mut Vec<u8>,
    op: u16,
    h1: bool,
    h2: bool,
    rs: u16,
    rd: u16,
) -> Result<(), AllocError>
    requires rs { rs < 8 }
    requires rd { rd < 8 }
    ensures { OnOk result (line.new.items ≡ line.old.items ++ text_of (high_pieces op h1 h2 rs rd)) }
{
    if op == 3 {
        add_name(line, b"bx")?;
        add_register(line, high_register(h2, rs) as u8)
    } else {
        add_two(
            line,
            high_name(op),
            high_register(h1, rd),
            high_register(h2, rs),
        )
    }
}

/// `rd, [rb, ` after a name.
fn add_open(line: &mut Vec<u8>, name: &[u8], rd: u16, rb: u16) -> Result<(), AllocError>
    requires rd { rd < 16 }
    requires rb { rb < 16 }
    ensures { OnOk result (line.new.items ≡ line.old.items ++ text_of (open_pieces name.now rd rb)) }
{
    add_name(line, name)?;
    add_register(line, rd as u8)?;
    add(line, b", [")?;
    add_register(line, rb as u8)?;
    add(line, b", ")
}

/// `rd, [rb, ro]` after a name.
fn add_by_register(
    line: &mut Vec<u8>,
    name: &[u8],
    rd: u16,
    rb: u16,
    ro: u16,
) -> Result<(), AllocError>
    requires rd { rd < 16 }
    requires rb { rb < 16 }
    requires ro { ro < 16 }
    ensures { OnOk result (line.new.items ≡ line.old.items ++ text_of (by_register name.now rd rb ro)) }
{
    add_open(line, name, rd, rb)?;
    add_register(line, ro as u8)?;
    add(line, b"]")
}

/// `rd, [rb, #n]` after a name.
fn add_by_number(
    line: &mut Vec<u8>,
    name: &[u8],
    rd: u16,
    rb: u16,
    number: u32,
) -> Result<(), AllocError>
    requires rd { rd < 16 }
    requires rb { rb < 16 }
    ensures { OnOk result (line.new.items ≡ line.old.items ++ text_of (by_number name.now rd rb number)) }
{
    add_open(line, name, rd, rb)?;
    add_immediate(line, number)?;
    add(line, b"]")
}

/// Format 15.
fn add_block(line: &mut Vec<u8>, load: bool, rb: u16, list: u16) -> Result<(), AllocError>
    requires { rb < 16 }
    ensures { OnOk result (line.new.items ≡ line.old.items ++ text_of (block_pieces load rb list)) }
{
    add_name(line, block_name(load))?;
    add_register(line, rb as u8)?;
    add(line, b"!, ")?;
    add_list(line, list)
}

/// Where a branch leads, whose number of halfwords is from -reach to reach - 1.
fn branch_target(reach: u32, at: u32, halfwords: u32) -> u32
    requires reach { reach ≤ 2097152 }
    requires halfwords { halfwords < 4194304 }
    ensures { result ≡ branch_target_of reach at halfwords }
{
    let ahead = u64::from(at) + 4 + 2 * u64::from(halfwords);
    if halfwords < reach {
        (ahead % 0x1_0000_0000) as u32
    } else {
        ((ahead + 0x1_0000_0000 - 4 * u64::from(reach)) % 0x1_0000_0000) as u32
    }
}

fn add_branch(line: &mut Vec<u8>, name: &[u8], target: u32) -> Result<(), AllocError>
    ensures { OnOk result (line.new.items ≡ line.old.items ++ text_of (branch_pieces name.now target)) }
{
    add_name(line, name)?;
    add_digits(line, 8, target)
}

/// The condition of a number.
fn condition_numbered(number: u16) -> Condition
    ensures { result ≡ condition_of number }
{
    match number {
        0 => Condition::Equal,
        1 => Condition::NotEqual,
        2 => Condition::CarrySet,
        3 => Condition::CarryClear,
        4 => Condition::Minus,
        5 => Condition::Plus,
        6 => Condition::Overflow,
        7 => Condition::NoOverflow,
        8 => Condition::Higher,
        9 => Condition::LowerOrSame,
        10 => Condition::GreaterOrEqual,
        11 => Condition::Less,
        12 => Condition::Greater,
        13 => Condition::LessOrEqual,
        14 => Condition::Always,
        _ => Condition::Never,
    }
}

/// Format 16.
fn add_branch_if(line: &mut Vec<u8>, cond: u16, target: u32) -> Result<(), AllocError>
    ensures { OnOk result (line.new.items ≡ line.old.items ++ text_of (branch_pieces (branch_name cond) target)) }
{
    add(line, b"b")?;
    add_branch(line, condition_text(condition_numbered(cond)), target)
}

/// The statement of an operation at this address.
#[tactic(auto, unfolding(crate::specs::Thumb::thumb_pieces))]
fn add_operation(line: &mut Vec<u8>, at: u32, op: ThumbOp) -> Result<(), AllocError>
    requires { Fits op }
    ensures { OnOk result (line.new.items ≡ line.old.items ++ text_of (thumb_pieces at op)) }
{
    match op {
        ThumbOp::Format1 { op, o5, rs, rd } => {
            add_two_with_number(line, shift_name(op), rd, rs, shift_amount(op, o5))
        }
        ThumbOp::Format2 { i, op, x3, rs, rd } => add_sum(line, i, op, x3, rs, rd),
        ThumbOp::Format3 { op, rd, n8 } => {
            add_with_number(line, number_name(op), rd, u32::from(n8))
        }
        ThumbOp::Format4 { op, rs, rd } => add_two(line, two_register_name(op), rd, rs),
        ThumbOp::Format5 { op, h1, h2, rs, rd } => add_high(line, op, h1, h2, rs, rd),
        ThumbOp::Format6 { rd, n8 } => add_by_number(line, b"ldr", rd, 15, 4 * u32::from(n8)),
        ThumbOp::Format7 { l, b, ro, rb, rd } => {
            add_by_register(line, byte_name(l, b), rd, rb, ro)
        }
        ThumbOp::Format8 { h, s, ro, rb, rd } => {
            add_by_register(line, signed_name(h, s), rd, rb, ro)
        }
        ThumbOp::Format9 { b, l, o5, rb, rd } => {
            add_by_number(line, byte_name(l, b), rd, rb, scaled(b, o5))
        }
        ThumbOp::Format10 { l, o5, rb, rd } => {
            add_by_number(line, half_name(l), rd, rb, 2 * u32::from(o5))
        }
        ThumbOp::Format11 { l, rd, n8 } => {
            add_by_number(line, load_name(l), rd, 13, 4 * u32::from(n8))
        }
        ThumbOp::Format12 { p, rd, n8 } => {
            add_two_with_number(line, b"add", rd, if p { 13 } else { 15 }, 4 * u32::from(n8))
        }
        ThumbOp::Format13 { s, n7 } => add_with_number(line, sum_name(s), 13, 4 * u32::from(n7)),
        ThumbOp::Format14 { l, r, list8 } => {
            add_name(line, stack_name(l))?;
            add_list(line, stack_list(l, r, list8))
        }
        ThumbOp::Format15 { l, rb, list8 } => add_block(line, l, rb, list8),
        ThumbOp::Format16 { cond, n8 } => {
            add_branch_if(line, cond, branch_target(128, at, u32::from(n8)))
        }
        ThumbOp::Format17 { n8 } => {
            add_name(line, b"swi")?;
            add_immediate(line, u32::from(n8))
        }
        ThumbOp::Format18 { n11 } => {
            add_branch(line, b"b", branch_target(1024, at, u32::from(n11)))
        }
        ThumbOp::Format19 { .. } => Ok(()),
    }
}

/// The statement of a halfword at this address, nothing where it has none.
pub(crate) fn add_thumb_statement(line: &mut Vec<u8>, at: u32, half: u16) -> Result<(), AllocError>
    ensures { OnOk result (line.new.items ≡ line.old.items ++ text_of (thumb_statement at (operation half))) }
{
    match decode(half) {
        Some(op) => add_operation(line, at, op),
        None => Ok(()),
    }
}

/// BL, of its two halves.
#[tactic(auto, unfolding(crate::specs::Thumb::call_pieces))]
pub(crate) fn add_call(
    line: &mut Vec<u8>,
    at: u32,
    first: u16,
    second: u16,
) -> Result<(), AllocError>
    ensures { OnOk result (line.new.items ≡ line.old.items ++ text_of (call_pieces at first second)) }
{
    let halfwords = u32::from(first % 2048) * 2048 + u32::from(second % 2048);
    add_branch(line, b"bl", branch_target(2_097_152, at, halfwords))
}
