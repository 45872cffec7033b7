//! The statements of ARM operations.

ghost use Rattle.std.specs.Prelude.{◌≡◌, ◌<◌, ◌≤◌, ◌++◌, ◌∷◌, [], codes, OnOk, true, false, not, ◌&&◌};
ghost use Rattle.gba_arm_table.specs.Limits.{Fits, Within, half_offsets, half_registers, operand_immediates, operand_registers, source_immediates, source_registers, transfer_immediates, transfer_offsets, transfer_registers};
ghost use Rattle.gba_dis.specs.Arm.{arm_pieces, arm_statement, block_base as block_base_of, block_mark, block_pieces, block_suffix as block_suffix_of, branch_base as branch_base_of, branch_pieces, branch_target as branch_target_of, compare_pieces, compare_text as compare_text_of, compute_pieces, compute_text as compute_text_of, condition_text as condition_text_of, exchange_pieces, fields_text, first_operand, close_address, half_base as half_base_of, half_distance, half_suffix as half_suffix_of, half_pieces, immediate, interrupt_pieces, letters_if as letters_if_of, long_base as long_base_of, long_pieces, long_registers, open_address, mark_if, multiply_pieces, name, number_distance, or_32 as or_32_of, read_status_pieces, second, shift_pieces, shift_text as shift_text_of, shifted, source_pieces, status_text as status_text_of, swap_pieces, transfer_base as transfer_base_of, transfer_distance, transfer_pieces, transfer_suffix as transfer_suffix_of, turned as turned_of, user_mark, write_status_pieces};
ghost use Rattle.gba_arm_table.specs.Table.{operation};
ghost use Rattle.gba_dis.specs.Pieces.{piece_text, register_name, text_of};

use crate::pieces::{add, add_digits, add_list, add_next_register, add_number, add_register};
use gba_arm_table::{
    ArmOp, CompareOp, ComputeOp, Condition, HalfKind, HalfOffset, Operand, Source, TransferOffset,
    decode,
};
use gba_word::{Shift, bit};
use std::alloc::AllocError;

/// The letters of a condition, none for always.
pub(crate) fn condition_text(cond: Condition) -> &'static [u8]
    ensures { result.now ≡ condition_text_of cond }
{
    match cond {
        Condition::Equal => b"eq",
        Condition::NotEqual => b"ne",
        Condition::CarrySet => b"cs",
        Condition::CarryClear => b"cc",
        Condition::Minus => b"mi",
        Condition::Plus => b"pl",
        Condition::Overflow => b"vs",
        Condition::NoOverflow => b"vc",
        Condition::Higher => b"hi",
        Condition::LowerOrSame => b"ls",
        Condition::GreaterOrEqual => b"ge",
        Condition::Less => b"lt",
        Condition::Greater => b"gt",
        Condition::LessOrEqual => b"le",
        Condition::Always => b"",
        Condition::Never => b"nv",
    }
}

/// A name and the blank after it: first letters, condition, suffix.
fn add_name(
    line: &mut Vec<u8>,
    base: &[u8],
    cond: Condition,
    suffix: &[u8],
) -> Result<(), AllocError>
    ensures { OnOk result (line.new.items ≡ line.old.items ++ piece_text (name base.now cond suffix.now)) }
{
    add(line, base)?;
    add(line, condition_text(cond))?;
    add(line, suffix)?;
    add(line, b" ")
}

/// These letters, or none.
fn letters_if(set: bool, letters: &'static [u8]) -> &'static [u8]
    ensures { result.now ≡ letters_if_of set letters.now }
{
    if set { letters } else { b"" }
}

fn compute_text(op: ComputeOp) -> &'static [u8]
    ensures { result.now ≡ compute_text_of op }
{
    match op {
        ComputeOp::And => b"and",
        ComputeOp::Eor => b"eor",
        ComputeOp::Sub => b"sub",
        ComputeOp::Rsb => b"rsb",
        ComputeOp::Add => b"add",
        ComputeOp::Adc => b"adc",
        ComputeOp::Sbc => b"sbc",
        ComputeOp::Rsc => b"rsc",
        ComputeOp::Orr => b"orr",
        ComputeOp::Mov => b"mov",
        ComputeOp::Bic => b"bic",
        ComputeOp::Mvn => b"mvn",
    }
}

fn compare_text(op: CompareOp) -> &'static [u8]
    ensures { result.now ≡ compare_text_of op }
{
    match op {
        CompareOp::Tst => b"tst",
        CompareOp::Teq => b"teq",
        CompareOp::Cmp => b"cmp",
        CompareOp::Cmn => b"cmn",
    }
}

fn shift_text(kind: Shift) -> &'static [u8]
    ensures { result.now ≡ shift_text_of kind }
{
    match kind {
        Shift::Lsl => b"lsl",
        Shift::Lsr => b"lsr",
        Shift::Asr => b"asr",
        Shift::Ror => b"ror",
    }
}

/// `#` and a number.
pub(crate) fn add_immediate(line: &mut Vec<u8>, number: u32) -> Result<(), AllocError>
    ensures { OnOk result (line.new.items ≡ line.old.items ++ text_of (immediate number)) }
{
    add(line, b"#")?;
    add_number(line, number)
}

/// A shift by a constant after a register.
fn add_shifted(line: &mut Vec<u8>, kind: Shift, amount: u32) -> Result<(), AllocError>
    ensures { OnOk result (line.new.items ≡ line.old.items ++ text_of (shifted kind amount)) }
{
    add(line, b", ")?;
    add(line, shift_text(kind))?;
    add(line, b" ")?;
    add_immediate(line, amount)
}

/// LSR and ASR by the five bits 0 are by 32.
pub(crate) fn or_32(amount: u32) -> u32
    ensures { result ≡ or_32_of amount }
{
    if amount == 0 { 32 } else { amount }
}

/// The shift of a register by five bits.
fn add_shift(line: &mut Vec<u8>, kind: Shift, amount: u8) -> Result<(), AllocError>
    ensures { OnOk result (line.new.items ≡ line.old.items ++ text_of (shift_pieces kind amount)) }
{
    let amount = u32::from(amount);
    match kind {
        Shift::Lsl if amount == 0 => Ok(()),
        Shift::Ror if amount == 0 => add(line, b", rrx"),
        Shift::Lsl | Shift::Ror => add_shifted(line, kind, amount),
        Shift::Lsr | Shift::Asr => add_shifted(line, kind, or_32(amount)),
    }
}

/// Eight bits rotated right by twice the turn.
fn turned(value: u8, turn: u8) -> u32
    ensures { result ≡ turned_of value turn }
{
    u32::from(value).rotate_right(2 * u32::from(turn))
}

/// The last operand of data processing.
#[tactic(auto, unfolding(crate::specs::Arm::second))]
fn add_second(line: &mut Vec<u8>, operand: Operand) -> Result<(), AllocError>
    requires { Within (operand_registers operand) }
    ensures { OnOk result (line.new.items ≡ line.old.items ++ text_of (second operand)) }
{
    match operand {
        Operand::Immediate { value, turn } => add_immediate(line, turned(value, turn)),
        Operand::Fixed { rm, kind, amount } => {
            add_register(line, rm)?;
            add_shift(line, kind, amount)
        }
        Operand::ByRegister { rm, kind, rs } => {
            add_register(line, rm)?;
            add(line, b", ")?;
            add(line, shift_text(kind))?;
            add(line, b" ")?;
            add_register(line, rs)
        }
    }
}

/// A mark, or none.
fn add_if(line: &mut Vec<u8>, set: bool, mark: u8) -> Result<(), AllocError>
    ensures { OnOk result (line.new.items ≡ line.old.items ++ text_of (mark_if set mark [])) }
{
    if set { add(line, &[mark]) } else { Ok(()) }
}

/// A number of bytes, up or down.
fn add_number_distance(line: &mut Vec<u8>, up: bool, value: u32) -> Result<(), AllocError>
    ensures { OnOk result (line.new.items ≡ line.old.items ++ text_of (number_distance up value)) }
{
    add(line, b"#")?;
    add_if(line, !up, b'-')?;
    add_number(line, value)
}

#[tactic(auto, unfolding(crate::specs::Arm::transfer_distance))]
fn add_transfer_distance(
    line: &mut Vec<u8>,
    up: bool,
    offset: TransferOffset,
) -> Result<(), AllocError>
    requires { Within (transfer_registers offset) }
    ensures { OnOk result (line.new.items ≡ line.old.items ++ text_of (transfer_distance up offset)) }
{
    match offset {
        TransferOffset::Number { value } => add_number_distance(line, up, value),
        TransferOffset::Shifted { rm, kind, amount } => {
            add_if(line, !up, b'-')?;
            add_register(line, rm)?;
            add_shift(line, kind, amount)
        }
    }
}

#[tactic(auto, unfolding(crate::specs::Arm::half_distance))]
fn add_half_distance(line: &mut Vec<u8>, up: bool, offset: HalfOffset) -> Result<(), AllocError>
    requires { Within (half_registers offset) }
    ensures { OnOk result (line.new.items ≡ line.old.items ++ text_of (half_distance up offset)) }
{
    match offset {
        HalfOffset::Number { value } => add_number_distance(line, up, value),
        HalfOffset::Plain { rm } => {
            add_if(line, !up, b'-')?;
            add_register(line, rm)
        }
    }
}

/// What stands before the distance of an address.
#[tactic(auto, unfolding(crate::specs::Arm::open_address))]
fn add_open_address(line: &mut Vec<u8>, pre: bool, rn: u8) -> Result<(), AllocError>
    requires { rn < 16 }
    ensures { OnOk result (line.new.items ≡ line.old.items ++ text_of (open_address pre rn)) }
{
    add(line, b"[")?;
    add_register(line, rn)?;
    add_if(line, !pre, b']')?;
    add(line, b", ")
}

/// What stands after the distance of an address.
#[tactic(auto, unfolding(crate::specs::Arm::close_address))]
fn add_close_address(line: &mut Vec<u8>, pre: bool, write: bool) -> Result<(), AllocError>
    ensures { OnOk result (line.new.items ≡ line.old.items ++ text_of (close_address pre write)) }
{
    if !pre {
        return Ok(());
    }
    add(line, b"]")?;
    add_if(line, write, b'!')
}

fn add_exchange(line: &mut Vec<u8>, cond: Condition, rm: u8) -> Result<(), AllocError>
    requires { rm < 16 }
    ensures { OnOk result (line.new.items ≡ line.old.items ++ text_of (exchange_pieces cond rm)) }
{
    add_name(line, b"bx", cond, b"")?;
    add_register(line, rm)
}

/// What MUL and MLA have before MLA's last register.
fn add_factors(line: &mut Vec<u8>, rd: u8, rm: u8, rs: u8) -> Result<(), AllocError>
    requires rd { rd < 16 }
    requires rm { rm < 16 }
    requires rs { rs < 16 }
    ensures { OnOk result (line.new.items
        ≡ line.old.items ++ (register_name rd ++ (44 ∷ 32 ∷ register_name rm) ++ (44 ∷ 32 ∷ register_name rs))) }
{
    add_register(line, rd)?;
    add_next_register(line, rm)?;
    add_next_register(line, rs)
}

fn add_multiply(
    line: &mut Vec<u8>,
    cond: Condition,
    set: bool,
    rd: u8,
    rs: u8,
    rm: u8,
) -> Result<(), AllocError>
    requires rd { rd < 16 }
    requires rs { rs < 16 }
    requires rm { rm < 16 }
    ensures { OnOk result (line.new.items ≡ line.old.items ++ text_of (multiply_pieces cond false set rd 0 rs rm)) }
{
    add_name(line, b"mul", cond, letters_if(set, b"s"))?;
    add_factors(line, rd, rm, rs)
}

fn add_accumulate(
    line: &mut Vec<u8>,
    cond: Condition,
    set: bool,
    rd: u8,
    rn: u8,
    rs: u8,
    rm: u8,
) -> Result<(), AllocError>
    requires rd { rd < 16 }
    requires rn { rn < 16 }
    requires rs { rs < 16 }
    requires rm { rm < 16 }
    ensures { OnOk result (line.new.items ≡ line.old.items ++ text_of (multiply_pieces cond true set rd rn rs rm)) }
{
    add_name(line, b"mla", cond, letters_if(set, b"s"))?;
    add_factors(line, rd, rm, rs)?;
    add_next_register(line, rn)
}

fn long_base(signed: bool, accumulate: bool) -> &'static [u8]
    ensures { result.now ≡ long_base_of signed accumulate }
{
    match (signed, accumulate) {
        (false, false) => b"umull",
        (false, true) => b"umlal",
        (true, false) => b"smull",
        (true, true) => b"smlal",
    }
}

/// The four registers of a long multiply.
fn add_long_registers(line: &mut Vec<u8>, lo: u8, hi: u8, rm: u8, rs: u8) -> Result<(), AllocError>
    requires lo { lo < 16 }
    requires hi { hi < 16 }
    requires rm { rm < 16 }
    requires rs { rs < 16 }
    ensures { OnOk result (line.new.items ≡ line.old.items ++ text_of (long_registers lo hi rm rs)) }
{
    add_register(line, lo)?;
    add_next_register(line, hi)?;
    add_next_register(line, rm)?;
    add_next_register(line, rs)
}

fn add_swap(
    line: &mut Vec<u8>,
    cond: Condition,
    byte: bool,
    rn: u8,
    rd: u8,
    rm: u8,
) -> Result<(), AllocError>
    requires rn { rn < 16 }
    requires rd { rd < 16 }
    requires rm { rm < 16 }
    ensures { OnOk result (line.new.items ≡ line.old.items ++ text_of (swap_pieces cond byte rn rd rm)) }
{
    add_name(line, b"swp", cond, letters_if(byte, b"b"))?;
    add_register(line, rd)?;
    add_next_register(line, rm)?;
    add(line, b", [")?;
    add_register(line, rn)?;
    add(line, b"]")
}

fn half_base(kind: HalfKind) -> &'static [u8]
    ensures { result.now ≡ half_base_of kind }
{
    match kind {
        HalfKind::StoreHalf => b"str",
        HalfKind::LoadHalf | HalfKind::LoadSignedByte | HalfKind::LoadSignedHalf => b"ldr",
    }
}

fn half_suffix(kind: HalfKind) -> &'static [u8]
    ensures { result.now ≡ half_suffix_of kind }
{
    match kind {
        HalfKind::StoreHalf | HalfKind::LoadHalf => b"h",
        HalfKind::LoadSignedByte => b"sb",
        HalfKind::LoadSignedHalf => b"sh",
    }
}

/// A register, a comma and what stands before the distance of an address.
fn add_open_transfer(line: &mut Vec<u8>, rd: u8, pre: bool, rn: u8) -> Result<(), AllocError>
    requires rd { rd < 16 }
    requires rn { rn < 16 }
    ensures { OnOk result
        (line.new.items ≡ line.old.items ++ (register_name rd ++ (44 ∷ 32 ∷ text_of (open_address pre rn)))) }
{
    add_register(line, rd)?;
    add(line, b", ")?;
    add_open_address(line, pre, rn)
}

/// LDRH and its like.
fn add_half(
    line: &mut Vec<u8>,
    cond: Condition,
    kind: HalfKind,
    pre: bool,
    up: bool,
    write: bool,
    rn: u8,
    rd: u8,
    offset: HalfOffset,
) -> Result<(), AllocError>
    requires rn { rn < 16 }
    requires rd { rd < 16 }
    requires offset { Within (half_registers offset) }
    ensures { OnOk result
        (line.new.items ≡ line.old.items ++ text_of (half_pieces cond kind pre up write rn rd offset)) }
{
    add_name(line, half_base(kind), cond, half_suffix(kind))?;
    add_open_transfer(line, rd, pre, rn)?;
    add_half_distance(line, up, offset)?;
    add_close_address(line, pre, write)
}

fn status_text(saved: bool) -> &'static [u8]
    ensures { result.now ≡ status_text_of saved }
{
    if saved { b"spsr" } else { b"cpsr" }
}

fn add_read_status(
    line: &mut Vec<u8>,
    cond: Condition,
    saved: bool,
    rd: u8,
) -> Result<(), AllocError>
    requires { rd < 16 }
    ensures { OnOk result (line.new.items ≡ line.old.items ++ text_of (read_status_pieces cond saved rd)) }
{
    add_name(line, b"mrs", cond, b"")?;
    add_register(line, rd)?;
    add(line, b", ")?;
    add(line, status_text(saved))
}

/// `_` and the letters of the fields.
fn add_fields(line: &mut Vec<u8>, fields: u8) -> Result<(), AllocError>
    ensures { OnOk result (line.new.items ≡ line.old.items ++ fields_text fields) }
{
    let fields = u32::from(fields);
    add(line, b"_")?;
    add(line, letters_if(bit(fields, 3), b"f"))?;
    add(line, letters_if(bit(fields, 2), b"s"))?;
    add(line, letters_if(bit(fields, 1), b"x"))?;
    add(line, letters_if(bit(fields, 0), b"c"))
}

fn add_source(line: &mut Vec<u8>, source: Source) -> Result<(), AllocError>
    requires { Within (source_registers source) }
    ensures { OnOk result (line.new.items ≡ line.old.items ++ text_of (source_pieces source)) }
{
    match source {
        Source::Immediate { value, turn } => add_immediate(line, turned(value, turn)),
        Source::Plain { rm } => add_register(line, rm),
    }
}

fn add_write_status(
    line: &mut Vec<u8>,
    cond: Condition,
    saved: bool,
    fields: u8,
    source: Source,
) -> Result<(), AllocError>
    requires { Within (source_registers source) }
    ensures { OnOk result (line.new.items ≡ line.old.items ++ text_of (write_status_pieces cond saved fields source)) }
{
    add_name(line, b"msr", cond, b"")?;
    add(line, status_text(saved))?;
    add_fields(line, fields)?;
    add(line, b", ")?;
    add_source(line, source)
}

/// The first operand, which MOV and MVN don't have, and a comma.
fn add_first_operand(line: &mut Vec<u8>, op: ComputeOp, rn: u8) -> Result<(), AllocError>
    requires { rn < 16 }
    ensures { OnOk result (line.new.items ≡ line.old.items ++ text_of (first_operand op rn)) }
{
    match op {
        ComputeOp::Mov | ComputeOp::Mvn => Ok(()),
        _ => {
            add_register(line, rn)?;
            add(line, b", ")
        }
    }
}

#[tactic(auto, using(crate::proofs::Texts::text_of_append))]
fn add_compute(
    line: &mut Vec<u8>,
    cond: Condition,
    op: ComputeOp,
    set: bool,
    rn: u8,
    rd: u8,
    operand: Operand,
) -> Result<(), AllocError>
    requires rn { rn < 16 }
    requires rd { rd < 16 }
    requires operand { Within (operand_registers operand) }
    ensures { OnOk result (line.new.items ≡ line.old.items ++ text_of (compute_pieces cond op set rn rd operand)) }
{
    add_name(line, compute_text(op), cond, letters_if(set, b"s"))?;
    add_register(line, rd)?;
    add(line, b", ")?;
    add_first_operand(line, op, rn)?;
    add_second(line, operand)
}

fn add_compare(
    line: &mut Vec<u8>,
    cond: Condition,
    op: CompareOp,
    rn: u8,
    operand: Operand,
) -> Result<(), AllocError>
    requires rn { rn < 16 }
    requires operand { Within (operand_registers operand) }
    ensures { OnOk result (line.new.items ≡ line.old.items ++ text_of (compare_pieces cond op rn operand)) }
{
    add_name(line, compare_text(op), cond, b"")?;
    add_register(line, rn)?;
    add(line, b", ")?;
    add_second(line, operand)
}

fn transfer_base(load: bool) -> &'static [u8]
    ensures { result.now ≡ transfer_base_of load }
{
    if load { b"ldr" } else { b"str" }
}

fn transfer_suffix(byte: bool, user: bool) -> &'static [u8]
    ensures { result.now ≡ transfer_suffix_of byte user }
{
    match (byte, user) {
        (false, false) => b"",
        (false, true) => b"t",
        (true, false) => b"b",
        (true, true) => b"bt",
    }
}

/// Whether a transfer goes by the user mode: W stands beside an offset that goes on after the access.
fn is_user(pre: bool, write: bool) -> bool
    ensures { result ≡ (not pre && write) }
{
    !pre && write
}

/// LDR and STR.
fn add_transfer(
    line: &mut Vec<u8>,
    cond: Condition,
    load: bool,
    byte: bool,
    pre: bool,
    up: bool,
    write: bool,
    rn: u8,
    rd: u8,
    offset: TransferOffset,
) -> Result<(), AllocError>
    requires rn { rn < 16 }
    requires rd { rd < 16 }
    requires offset { Within (transfer_registers offset) }
    ensures { OnOk result
        (line.new.items ≡ line.old.items ++ text_of (transfer_pieces cond load byte pre up write rn rd offset)) }
{
    add_name(
        line,
        transfer_base(load),
        cond,
        transfer_suffix(byte, is_user(pre, write)),
    )?;
    add_open_transfer(line, rd, pre, rn)?;
    add_transfer_distance(line, up, offset)?;
    add_close_address(line, pre, write)
}

fn block_base(load: bool) -> &'static [u8]
    ensures { result.now ≡ block_base_of load }
{
    if load { b"ldm" } else { b"stm" }
}

fn block_suffix(pre: bool, up: bool) -> &'static [u8]
    ensures { result.now ≡ block_suffix_of pre up }
{
    match (pre, up) {
        (false, true) => b"ia",
        (true, true) => b"ib",
        (false, false) => b"da",
        (true, false) => b"db",
    }
}

/// The base of a block, with `!` where it is written back, and a comma.
#[tactic(auto, unfolding(crate::specs::Arm::block_mark))]
fn add_block_base(line: &mut Vec<u8>, rn: u8, write: bool) -> Result<(), AllocError>
    requires { rn < 16 }
    ensures { OnOk result (line.new.items ≡ line.old.items ++ (register_name rn ++ text_of (block_mark write))) }
{
    add_register(line, rn)?;
    add_if(line, write, b'!')?;
    add(line, b", ")
}

/// `^` with the bit S.
#[tactic(auto, unfolding(crate::specs::Arm::user_mark))]
fn add_user_mark(line: &mut Vec<u8>, user: bool) -> Result<(), AllocError>
    ensures { OnOk result (line.new.items ≡ line.old.items ++ text_of (user_mark user)) }
{
    add_if(line, user, b'^')
}

/// LDM and STM.
fn add_block(
    line: &mut Vec<u8>,
    cond: Condition,
    load: bool,
    pre: bool,
    up: bool,
    user: bool,
    write: bool,
    rn: u8,
    list: u16,
) -> Result<(), AllocError>
    requires { rn < 16 }
    ensures { OnOk result
        (line.new.items ≡ line.old.items ++ text_of (block_pieces cond load pre up user write rn list)) }
{
    add_name(line, block_base(load), cond, block_suffix(pre, up))?;
    add_block_base(line, rn, write)?;
    add_list(line, list)?;
    add_user_mark(line, user)
}

/// Where a branch leads.
fn branch_target(at: u32, offset: i32) -> u32
    ensures { result ≡ branch_target_of at offset }
{
    ((u64::from(at) + 8 + 4 * u64::from(offset.cast_unsigned())) % 0x1_0000_0000) as u32
}

fn branch_base(link: bool) -> &'static [u8]
    ensures { result.now ≡ branch_base_of link }
{
    if link { b"bl" } else { b"b" }
}

fn add_branch(
    line: &mut Vec<u8>,
    at: u32,
    cond: Condition,
    link: bool,
    offset: i32,
) -> Result<(), AllocError>
    ensures { OnOk result (line.new.items ≡ line.old.items ++ text_of (branch_pieces at cond link offset)) }
{
    add_name(line, branch_base(link), cond, b"")?;
    add_digits(line, 8, branch_target(at, offset))
}

fn add_interrupt(line: &mut Vec<u8>, cond: Condition, comment: u32) -> Result<(), AllocError>
    ensures { OnOk result (line.new.items ≡ line.old.items ++ text_of (interrupt_pieces cond comment)) }
{
    add_name(line, b"swi", cond, b"")?;
    add_immediate(line, comment)
}

/// The statement of an operation at this address.
#[tactic(auto, unfolding(crate::specs::Arm::arm_pieces))]
fn add_operation(line: &mut Vec<u8>, at: u32, op: ArmOp) -> Result<(), AllocError>
    requires { Fits op }
    ensures { OnOk result (line.new.items ≡ line.old.items ++ text_of (arm_pieces at op)) }
{
    match op {
        ArmOp::Exchange { cond, rm } => add_exchange(line, cond, rm),
        ArmOp::Multiply {
            cond,
            accumulate: false,
            set,
            rd,
            rn: _,
            rs,
            rm,
        } => add_multiply(line, cond, set, rd, rs, rm),
        ArmOp::Multiply {
            cond,
            accumulate: true,
            set,
            rd,
            rn,
            rs,
            rm,
        } => add_accumulate(line, cond, set, rd, rn, rs, rm),
        ArmOp::MultiplyLong {
            cond,
            signed,
            accumulate,
            set,
            hi,
            lo,
            rs,
            rm,
        } => {
            add_name(
                line,
                long_base(signed, accumulate),
                cond,
                letters_if(set, b"s"),
            )?;
            add_long_registers(line, lo, hi, rm, rs)
        }
        ArmOp::Swap {
            cond,
            byte,
            rn,
            rd,
            rm,
        } => add_swap(line, cond, byte, rn, rd, rm),
        ArmOp::Half {
            cond,
            kind,
            pre,
            up,
            write,
            rn,
            rd,
            offset,
        } => add_half(line, cond, kind, pre, up, write, rn, rd, offset),
        ArmOp::ReadStatus { cond, saved, rd } => add_read_status(line, cond, saved, rd),
        ArmOp::WriteStatus {
            cond,
            saved,
            fields,
            source,
        } => add_write_status(line, cond, saved, fields, source),
        ArmOp::Compute {
            cond,
            op,
            set,
            rn,
            rd,
            operand,
        } => add_compute(line, cond, op, set, rn, rd, operand),
        ArmOp::Compare {
            cond,
            op,
            rn,
            operand,
        } => add_compare(line, cond, op, rn, operand),
        ArmOp::Transfer {
            cond,
            load,
            byte,
            pre,
            up,
            write,
            rn,
            rd,
            offset,
        } => add_transfer(line, cond, load, byte, pre, up, write, rn, rd, offset),
        ArmOp::Block {
            cond,
            load,
            pre,
            up,
            user,
            write,
            rn,
            list,
        } => add_block(line, cond, load, pre, up, user, write, rn, list),
        ArmOp::Branch { cond, link, offset } => add_branch(line, at, cond, link, offset),
        ArmOp::Interrupt { cond, comment } => add_interrupt(line, cond, comment),
    }
}

/// The statement of a word at this address, nothing where it is no operation.
pub(crate) fn add_arm_statement(line: &mut Vec<u8>, at: u32, word: u32) -> Result<(), AllocError>
    ensures { OnOk result (line.new.items ≡ line.old.items ++ text_of (arm_statement at (operation word))) }
{
    match decode(word) {
        Some(op) => add_operation(line, at, op),
        None => Ok(()),
    }
}
