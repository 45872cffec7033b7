//! The ARM operation that each format stands for, where there is one.

ghost use Rattle.std.specs.Prelude.{◌≡◌, ◌<◌};
ghost use Rattle.gba_arm_table.specs.Limits.{
  Fits,
  Within,
  half_offsets,
  half_registers,
  operand_immediates,
  operand_registers,
  transfer_immediates,
  transfer_offsets,
  transfer_registers,
};
ghost use Rattle.gba_thumb_exec.specs.Operations.{
  add_or_subtract,
  block,
  block_transfer,
  comparison,
  full_register,
  half_by_number,
  half_by_register,
  half_kind,
  half_transfer,
  plain,
  process_full_register,
  process_number,
  process_register,
  processing,
  push_or_pop,
  quiet_processing,
  shift_by_constant,
  shift_by_register,
  small_number,
  software_interrupt,
  stack_address,
  stack_move,
  stack_transfer,
  transfer,
  transfer_by_number,
  transfer_by_register,
  words_number,
};
ghost use Rattle.gba_arm_table.specs.Numbers.{shift_of};

use gba_arm_table::{
    ArmOp, CompareOp, ComputeOp, Condition, HalfKind, HalfOffset, Operand, TransferOffset,
};
use gba_word::Shift;

fn plain(register: u8) -> Operand
    ensures { result ≡ plain register }
{
    Operand::Fixed {
        rm: register,
        kind: Shift::Lsl,
        amount: 0,
    }
}

fn small_number(value: u8) -> Operand
    ensures { result ≡ small_number value }
{
    Operand::Immediate { value, turn: 0 }
}

fn words_number(value: u8) -> Operand
    ensures { result ≡ words_number value }
{
    Operand::Immediate { value, turn: 15 }
}

fn processing(op: ComputeOp, rn: u8, rd: u8, operand: Operand) -> ArmOp
    requires rn { rn < 16 }
    requires rd { rd < 16 }
    requires registers { Within (operand_registers operand) }
    requires immediates { Within (operand_immediates operand) }
    ensures operation { result ≡ processing op rn rd operand }
    ensures fits { Fits result }
{
    ArmOp::Compute {
        cond: Condition::Always,
        op,
        set: true,
        rn,
        rd,
        operand,
    }
}

fn quiet_processing(op: ComputeOp, rn: u8, rd: u8, operand: Operand) -> ArmOp
    requires rn { rn < 16 }
    requires rd { rd < 16 }
    requires registers { Within (operand_registers operand) }
    requires immediates { Within (operand_immediates operand) }
    ensures operation { result ≡ quiet_processing op rn rd operand }
    ensures fits { Fits result }
{
    ArmOp::Compute {
        cond: Condition::Always,
        op,
        set: false,
        rn,
        rd,
        operand,
    }
}

fn comparison(op: CompareOp, rn: u8, operand: Operand) -> ArmOp
    requires rn { rn < 16 }
    requires registers { Within (operand_registers operand) }
    requires immediates { Within (operand_immediates operand) }
    ensures operation { result ≡ comparison op rn operand }
    ensures fits { Fits result }
{
    ArmOp::Compare {
        cond: Condition::Always,
        op,
        rn,
        operand,
    }
}

fn shift_by_register(kind: Shift, rs: u8, rd: u8) -> ArmOp
    requires rs { rs < 8 }
    requires rd { rd < 8 }
    ensures operation { result ≡ shift_by_register kind rs rd }
    ensures fits { Fits result }
{
    processing(
        ComputeOp::Mov,
        0,
        rd,
        Operand::ByRegister { rm: rd, kind, rs },
    )
}

fn shift(op: u16) -> Shift
    ensures { result ≡ shift_of op }
{
    match op {
        0 => Shift::Lsl,
        1 => Shift::Lsr,
        2 => Shift::Asr,
        _ => Shift::Ror,
    }
}

/// Format 1.
pub fn shift_by_constant(op: u16, o5: u16, rs: u16, rd: u16) -> ArmOp
    requires o5 { o5 < 32 }
    requires rs { rs < 8 }
    requires rd { rd < 8 }
    ensures operation { result ≡ shift_by_constant op o5 rs rd }
    ensures fits { Fits result }
{
    let operand = Operand::Fixed {
        rm: rs as u8,
        kind: shift(op),
        amount: o5 as u8,
    };
    processing(ComputeOp::Mov, 0, rd as u8, operand)
}

/// Format 2.
pub fn add_or_subtract(i: bool, op: bool, x3: u16, rs: u16, rd: u16) -> ArmOp
    requires x3 { x3 < 8 }
    requires rs { rs < 8 }
    requires rd { rd < 8 }
    ensures operation { result ≡ add_or_subtract i op x3 rs rd }
    ensures fits { Fits result }
{
    let kind = if op { ComputeOp::Sub } else { ComputeOp::Add };
    if i {
        processing(kind, rs as u8, rd as u8, small_number(x3 as u8))
    } else {
        processing(kind, rs as u8, rd as u8, plain(x3 as u8))
    }
}

/// Format 3.
pub fn process_number(op: u16, rd: u16, n8: u16) -> ArmOp
    requires rd { rd < 8 }
    requires n8 { n8 < 256 }
    ensures operation { result ≡ process_number op rd n8 }
    ensures fits { Fits result }
{
    let rd = rd as u8;
    let number = small_number(n8 as u8);
    match op {
        0 => processing(ComputeOp::Mov, 0, rd, number),
        1 => comparison(CompareOp::Cmp, rd, number),
        2 => processing(ComputeOp::Add, rd, rd, number),
        _ => processing(ComputeOp::Sub, rd, rd, number),
    }
}

/// Format 4.
pub fn process_register(op: u16, rs: u16, rd: u16) -> ArmOp
    requires rs { rs < 8 }
    requires rd { rd < 8 }
    ensures operation { result ≡ process_register op rs rd }
    ensures fits { Fits result }
{
    let rs = rs as u8;
    let rd = rd as u8;
    match op {
        0 => processing(ComputeOp::And, rd, rd, plain(rs)),
        1 => processing(ComputeOp::Eor, rd, rd, plain(rs)),
        2 => shift_by_register(Shift::Lsl, rs, rd),
        3 => shift_by_register(Shift::Lsr, rs, rd),
        4 => shift_by_register(Shift::Asr, rs, rd),
        5 => processing(ComputeOp::Adc, rd, rd, plain(rs)),
        6 => processing(ComputeOp::Sbc, rd, rd, plain(rs)),
        7 => shift_by_register(Shift::Ror, rs, rd),
        8 => comparison(CompareOp::Tst, rd, plain(rs)),
        9 => processing(ComputeOp::Rsb, rs, rd, small_number(0)),
        10 => comparison(CompareOp::Cmp, rd, plain(rs)),
        11 => comparison(CompareOp::Cmn, rd, plain(rs)),
        12 => processing(ComputeOp::Orr, rd, rd, plain(rs)),
        13 => ArmOp::Multiply {
            cond: Condition::Always,
            accumulate: false,
            set: true,
            rd,
            rn: 0,
            rs: rd,
            rm: rs,
        },
        14 => processing(ComputeOp::Bic, rd, rd, plain(rs)),
        _ => processing(ComputeOp::Mvn, 0, rd, plain(rs)),
    }
}

/// One of the sixteen registers: `h` adds 8.
pub fn full_register(h: bool, number: u16) -> u16
    requires { number < 8 }
    ensures number { result ≡ full_register h number }
    ensures most { result < 16 }
{
    if h { number + 8 } else { number }
}

/// Format 5, with `rs` and `rd` of all sixteen registers.
pub fn process_full_register(op: u16, rs: u16, rd: u16) -> ArmOp
    requires rs { rs < 16 }
    requires rd { rd < 16 }
    ensures operation { result ≡ process_full_register op rs rd }
    ensures fits { Fits result }
{
    let source = rs as u8;
    let target = rd as u8;
    match op {
        0 => quiet_processing(ComputeOp::Add, target, target, plain(source)),
        1 => comparison(CompareOp::Cmp, target, plain(source)),
        2 => quiet_processing(ComputeOp::Mov, 0, target, plain(source)),
        _ => ArmOp::Exchange {
            cond: Condition::Always,
            rm: source,
        },
    }
}

fn transfer(load: bool, byte: bool, rn: u8, rd: u16, offset: TransferOffset) -> ArmOp
    requires rn { rn < 16 }
    requires rd { rd < 8 }
    requires registers { Within (transfer_registers offset) }
    requires immediates { Within (transfer_immediates offset) }
    requires offsets { Within (transfer_offsets offset) }
    ensures operation { result ≡ transfer load byte rn rd offset }
    ensures fits { Fits result }
{
    ArmOp::Transfer {
        cond: Condition::Always,
        load,
        byte,
        pre: true,
        up: true,
        write: false,
        rn,
        rd: rd as u8,
        offset,
    }
}

fn half_transfer(kind: HalfKind, rn: u16, rd: u16, offset: HalfOffset) -> ArmOp
    requires rn { rn < 8 }
    requires rd { rd < 8 }
    requires registers { Within (half_registers offset) }
    requires offsets { Within (half_offsets offset) }
    ensures operation { result ≡ half_transfer kind rn rd offset }
    ensures fits { Fits result }
{
    ArmOp::Half {
        cond: Condition::Always,
        kind,
        pre: true,
        up: true,
        write: false,
        rn: rn as u8,
        rd: rd as u8,
        offset,
    }
}

/// Format 7.
pub fn transfer_by_register(load: bool, byte: bool, ro: u16, rb: u16, rd: u16) -> ArmOp
    requires ro { ro < 8 }
    requires rb { rb < 8 }
    requires rd { rd < 8 }
    ensures operation { result ≡ transfer_by_register load byte ro rb rd }
    ensures fits { Fits result }
{
    let offset = TransferOffset::Shifted {
        rm: ro as u8,
        kind: Shift::Lsl,
        amount: 0,
    };
    transfer(load, byte, rb as u8, rd, offset)
}

fn half_kind(h: bool, s: bool) -> HalfKind
    ensures { result ≡ half_kind h s }
{
    match (h, s) {
        (false, false) => HalfKind::StoreHalf,
        (false, true) => HalfKind::LoadSignedByte,
        (true, false) => HalfKind::LoadHalf,
        (true, true) => HalfKind::LoadSignedHalf,
    }
}

/// Format 8.
pub fn half_by_register(h: bool, s: bool, ro: u16, rb: u16, rd: u16) -> ArmOp
    requires ro { ro < 8 }
    requires rb { rb < 8 }
    requires rd { rd < 8 }
    ensures operation { result ≡ half_by_register h s ro rb rd }
    ensures fits { Fits result }
{
    half_transfer(half_kind(h, s), rb, rd, HalfOffset::Plain { rm: ro as u8 })
}

/// Format 9.
pub fn transfer_by_number(byte: bool, load: bool, o5: u16, rb: u16, rd: u16) -> ArmOp
    requires o5 { o5 < 32 }
    requires rb { rb < 8 }
    requires rd { rd < 8 }
    ensures operation { result ≡ transfer_by_number byte load o5 rb rd }
    ensures fits { Fits result }
{
    let value = u32::from(if byte { o5 } else { 4 * o5 });
    transfer(load, byte, rb as u8, rd, TransferOffset::Number { value })
}

/// Format 10.
pub fn half_by_number(load: bool, o5: u16, rb: u16, rd: u16) -> ArmOp
    requires o5 { o5 < 32 }
    requires rb { rb < 8 }
    requires rd { rd < 8 }
    ensures operation { result ≡ half_by_number load o5 rb rd }
    ensures fits { Fits result }
{
    let kind = if load {
        HalfKind::LoadHalf
    } else {
        HalfKind::StoreHalf
    };
    let value = 2 * u32::from(o5);
    half_transfer(kind, rb, rd, HalfOffset::Number { value })
}

/// Format 11.
pub fn stack_transfer(load: bool, rd: u16, n8: u16) -> ArmOp
    requires rd { rd < 8 }
    requires n8 { n8 < 256 }
    ensures operation { result ≡ stack_transfer load rd n8 }
    ensures fits { Fits result }
{
    let value = 4 * u32::from(n8);
    transfer(load, false, 13, rd, TransferOffset::Number { value })
}

/// Format 12 with P.
pub fn stack_address(rd: u16, n8: u16) -> ArmOp
    requires rd { rd < 8 }
    requires n8 { n8 < 256 }
    ensures operation { result ≡ stack_address rd n8 }
    ensures fits { Fits result }
{
    quiet_processing(ComputeOp::Add, 13, rd as u8, words_number(n8 as u8))
}

/// Format 13.
pub fn stack_move(s: bool, n7: u16) -> ArmOp
    requires { n7 < 128 }
    ensures operation { result ≡ stack_move s n7 }
    ensures fits { Fits result }
{
    let kind = if s { ComputeOp::Sub } else { ComputeOp::Add };
    quiet_processing(kind, 13, 13, words_number(n7 as u8))
}

fn block_transfer(load: bool, pre: bool, up: bool, rn: u8, list: u16) -> ArmOp
    requires { rn < 16 }
    ensures operation { result ≡ block_transfer load pre up rn list }
    ensures fits { Fits result }
{
    ArmOp::Block {
        cond: Condition::Always,
        load,
        pre,
        up,
        user: false,
        write: true,
        rn,
        list,
    }
}

/// Format 14.
pub fn push_or_pop(load: bool, r: bool, list8: u16) -> ArmOp
    requires { list8 < 256 }
    ensures operation { result ≡ push_or_pop load r list8 }
    ensures fits { Fits result }
{
    if load {
        block_transfer(
            true,
            false,
            true,
            13,
            if r { list8 + (1 << 15) } else { list8 },
        )
    } else {
        block_transfer(
            false,
            true,
            false,
            13,
            if r { list8 + (1 << 14) } else { list8 },
        )
    }
}

/// Format 15.
pub fn block(load: bool, rb: u16, list8: u16) -> ArmOp
    requires { rb < 8 }
    ensures operation { result ≡ block load rb list8 }
    ensures fits { Fits result }
{
    block_transfer(load, false, true, rb as u8, list8)
}

/// Format 17.
pub fn software_interrupt(n8: u16) -> ArmOp
    ensures operation { result ≡ software_interrupt n8 }
    ensures fits { Fits result }
{
    ArmOp::Interrupt {
        cond: Condition::Always,
        comment: u32::from(n8),
    }
}
