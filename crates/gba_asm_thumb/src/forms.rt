//! The forms of Thumb statements: what a name says with its operands.

ghost use Rattle.std.specs.Prelude.{◌≡◌, ◌<◌, IfOk};
ghost use Rattle.gba_text.specs.Answers.{Agrees, Takes};
ghost use Rattle.gba_asm_words.specs.Readers.{register_at};
ghost use Rattle.gba_asm_thumb.specs.Forms.{access_rest, add_form, add_last, add_number, add_register, add_rest, add_third, adjust_form, block_form, branch_form, branch_if_form, by_counter as by_counter_of, by_low as by_low_of, by_number as by_number_of, by_register as by_register_of, by_stack as by_stack_of, call_form, changed_by_number, compare_form, compare_register, compare_rest, compared as compared_of, exchange_form, fixed_shift, form_of, high as high_of, interrupt_form, is_low as is_low_of, low_register_at, move_form, move_register, move_rest, next_low_register_at, number_access, number_form, register_access, scaled as scaled_of, shift_form, shift_operation as shift_operation_of, shift_rest, shifted as shifted_of, stack_form, stacked as stacked_of, subtract_form, subtract_last, subtract_number, subtract_register, subtract_rest, sum_of as sum_with, three_register_form, thumb_statement as thumb_statement_of, transfer_form, two_register_form, whole as whole_of};
ghost use Rattle.gba_asm_thumb.specs.Statement.{statement_value};

use crate::names::{Access, ThumbName, thumb_name};
use crate::statement::ThumbStatement;
use gba_asm_arm::shift_amount;
use gba_asm_words::{AsmKind, Tokens, list_at};
use gba_thumb_table::ThumbOp;
use gba_word::Shift;

/// The bit of r14 in a list.
const LINK_BIT: u16 = 0x4000;

/// The bit of r15 in a list.
const COUNTER_BIT: u16 = 0x8000;

/// An operation that stands whole.
fn whole<'a>(op: Option<ThumbOp>, tokens: &mut Tokens<'a>) -> Result<ThumbStatement<'a>, AsmKind>
    ensures { Agrees statement_value result (whole_of op tokens.old) }
{
    tokens.end()?;
    Ok(ThumbStatement::Operation(op))
}

fn is_low(register: u16) -> bool
    ensures { result ≡ is_low_of register }
{
    register < 8
}

/// A register, whichever it is.
fn take_register(tokens: &mut Tokens<'_>) -> Result<u16, AsmKind>
    ensures register { Takes (λ r. r) result tokens.new (register_at tokens.old) }
    ensures small { IfOk result (λ r. r < 16) }
{
    let register = tokens.register()?;
    Ok(u16::from(register))
}

/// A register from r0 to r7.
#[tactic(auto, unfolding(crate::specs::Forms::low_register_at))]
fn take_low_register(tokens: &mut Tokens<'_>) -> Result<u16, AsmKind>
    ensures register { Takes (λ r. r) result tokens.new (low_register_at tokens.old) }
    ensures small { IfOk result (λ r. r < 8) }
{
    let register = take_register(tokens)?;
    if !is_low(register) {
        return Err(AsmKind::Operand);
    }
    Ok(register)
}

/// A comma and a register from r0 to r7.
#[tactic(auto, unfolding(crate::specs::Forms::next_low_register_at))]
fn take_next_low_register(tokens: &mut Tokens<'_>) -> Result<u16, AsmKind>
    ensures register { Takes (λ r. r) result tokens.new (next_low_register_at tokens.old) }
    ensures small { IfOk result (λ r. r < 8) }
{
    tokens.mark(b',')?;
    take_low_register(tokens)
}

/// A number of bytes as a number of units of so many. None where it isn't whole, or too large for any field.
fn scaled(number: u32, unit: u32) -> Option<u16>
    requires { 0 < unit }
    ensures { result ≡ scaled_of number unit }
{
    if number % unit != 0 {
        return None;
    }
    let units = number / unit;
    if units < 0x1_0000 {
        Some(units as u16)
    } else {
        None
    }
}

/// The numbers of the shifts in format 4.
fn shift_operation(shift: Shift) -> u16
    ensures { result ≡ shift_operation_of shift }
{
    match shift {
        Shift::Lsl => 2,
        Shift::Lsr => 3,
        Shift::Asr => 4,
        Shift::Ror => 7,
    }
}

fn shifted(shift: Shift, rd: u16, rs: u16, amount: Option<u8>) -> Option<ThumbOp>
    ensures { result ≡ shifted_of shift rd rs amount }
{
    amount.map(|amount| {
        ThumbOp::Format1 {
            op: shift as u16,
            o5: u16::from(amount),
            rs,
            rd,
        }
    })
}

/// `rd, rs, #n`.
#[tactic(auto, unfolding(crate::specs::Forms::fixed_shift))]
fn take_fixed_shift<'a>(
    shift: Shift,
    rd: u16,
    rs: u16,
    tokens: &mut Tokens<'a>,
) -> Result<ThumbStatement<'a>, AsmKind>
    ensures { Agrees statement_value result (fixed_shift shift rd rs tokens.old) }
{
    let number = tokens.immediate()?;
    let amount = shift_amount(shift, number);
    whole(shifted(shift, rd, rs, amount), tokens)
}

fn take_shift_rest<'a>(
    shift: Shift,
    rd: u16,
    rs: u16,
    tokens: &mut Tokens<'a>,
) -> Result<ThumbStatement<'a>, AsmKind>
    ensures { Agrees statement_value result (shift_rest shift rd rs tokens.old) }
{
    if tokens.takes(b',') {
        return take_fixed_shift(shift, rd, rs, tokens);
    }
    let op = shift_operation(shift);
    whole(Some(ThumbOp::Format4 { op, rs, rd }), tokens)
}

/// `rd, rs, #n` and `rd, rs`.
#[tactic(auto, unfolding(crate::specs::Forms::shift_form))]
fn take_shift<'a>(shift: Shift, tokens: &mut Tokens<'a>) -> Result<ThumbStatement<'a>, AsmKind>
    ensures { Agrees statement_value result (shift_form shift tokens.old) }
{
    let rd = take_low_register(tokens)?;
    let rs = take_next_low_register(tokens)?;
    take_shift_rest(shift, rd, rs, tokens)
}

/// `rd, rs`.
#[tactic(auto, unfolding(crate::specs::Forms::two_register_form))]
fn take_two_registers<'a>(op: u16, tokens: &mut Tokens<'a>) -> Result<ThumbStatement<'a>, AsmKind>
    ensures { Agrees statement_value result (two_register_form op tokens.old) }
{
    let rd = take_low_register(tokens)?;
    let rs = take_next_low_register(tokens)?;
    whole(Some(ThumbOp::Format4 { op, rs, rd }), tokens)
}

/// A number after `#`.
#[tactic(auto, unfolding(crate::specs::Forms::number_form))]
fn take_number<'a>(op: u16, rd: u16, tokens: &mut Tokens<'a>) -> Result<ThumbStatement<'a>, AsmKind>
    ensures { Agrees statement_value result (number_form op rd tokens.old) }
{
    if !is_low(rd) {
        return Err(AsmKind::Operand);
    }
    let number = tokens.number()?;
    let op = scaled(number, 1).map(|n8| ThumbOp::Format3 { op, rd, n8 });
    whole(op, tokens)
}

fn high(op: u16, rd: u16, rs: u16) -> ThumbOp
    ensures { result ≡ high_of op rd rs }
{
    ThumbOp::Format5 {
        op,
        h1: rd >= 8,
        h2: rs >= 8,
        rs: rs % 8,
        rd: rd % 8,
    }
}

#[tactic(auto, unfolding(crate::specs::Forms::move_register))]
fn take_move_register<'a>(rd: u16, tokens: &mut Tokens<'a>) -> Result<ThumbStatement<'a>, AsmKind>
    ensures { Agrees statement_value result (move_register rd tokens.old) }
{
    let rs = take_register(tokens)?;
    whole(Some(high(2, rd, rs)), tokens)
}

fn take_move_rest<'a>(rd: u16, tokens: &mut Tokens<'a>) -> Result<ThumbStatement<'a>, AsmKind>
    ensures { Agrees statement_value result (move_rest rd tokens.old) }
{
    if tokens.takes(b'#') {
        return take_number(0, rd, tokens);
    }
    take_move_register(rd, tokens)
}

/// `rd, #n` and `rd, rs`.
#[tactic(auto, unfolding(crate::specs::Forms::move_form))]
fn take_move<'a>(tokens: &mut Tokens<'a>) -> Result<ThumbStatement<'a>, AsmKind>
    ensures { Agrees statement_value result (move_form tokens.old) }
{
    let rd = take_register(tokens)?;
    tokens.mark(b',')?;
    take_move_rest(rd, tokens)
}

/// Two low registers are compared by format 4.
fn compared(rd: u16, rs: u16) -> ThumbOp
    ensures { result ≡ compared_of rd rs }
{
    if is_low(rd) && is_low(rs) {
        ThumbOp::Format4 { op: 10, rs, rd }
    } else {
        high(1, rd, rs)
    }
}

#[tactic(auto, unfolding(crate::specs::Forms::compare_register))]
fn take_compare_register<'a>(
    rd: u16,
    tokens: &mut Tokens<'a>,
) -> Result<ThumbStatement<'a>, AsmKind>
    ensures { Agrees statement_value result (compare_register rd tokens.old) }
{
    let rs = take_register(tokens)?;
    whole(Some(compared(rd, rs)), tokens)
}

fn take_compare_rest<'a>(rd: u16, tokens: &mut Tokens<'a>) -> Result<ThumbStatement<'a>, AsmKind>
    ensures { Agrees statement_value result (compare_rest rd tokens.old) }
{
    if tokens.takes(b'#') {
        return take_number(1, rd, tokens);
    }
    take_compare_register(rd, tokens)
}

/// `rd, #n` and `rd, rs`.
#[tactic(auto, unfolding(crate::specs::Forms::compare_form))]
fn take_compare<'a>(tokens: &mut Tokens<'a>) -> Result<ThumbStatement<'a>, AsmKind>
    ensures { Agrees statement_value result (compare_form tokens.old) }
{
    let rd = take_register(tokens)?;
    tokens.mark(b',')?;
    take_compare_rest(rd, tokens)
}

/// `sp, #n`.
#[tactic(auto, unfolding(crate::specs::Forms::adjust_form))]
fn take_adjustment<'a>(s: bool, tokens: &mut Tokens<'a>) -> Result<ThumbStatement<'a>, AsmKind>
    ensures { Agrees statement_value result (adjust_form s tokens.old) }
{
    let number = tokens.number()?;
    let op = scaled(number, 4).map(|n7| ThumbOp::Format13 { s, n7 });
    whole(op, tokens)
}

/// A number after `rd, #`; r13 goes by format 13.
fn take_change_by_number<'a>(
    op: u16,
    down: bool,
    rd: u16,
    tokens: &mut Tokens<'a>,
) -> Result<ThumbStatement<'a>, AsmKind>
    ensures { Agrees statement_value result (changed_by_number op down rd tokens.old) }
{
    if rd == 13 {
        return take_adjustment(down, tokens);
    }
    take_number(op, rd, tokens)
}

/// `rd, rs, rn`.
#[tactic(auto, unfolding(crate::specs::Forms::three_register_form))]
fn take_three_registers<'a>(
    op: bool,
    rd: u16,
    rs: u16,
    tokens: &mut Tokens<'a>,
) -> Result<ThumbStatement<'a>, AsmKind>
    ensures { Agrees statement_value result (three_register_form op rd rs tokens.old) }
{
    if !(is_low(rd) && is_low(rs)) {
        return Err(AsmKind::Operand);
    }
    let x3 = take_low_register(tokens)?;
    let operation = ThumbOp::Format2 {
        i: false,
        op,
        x3,
        rs,
        rd,
    };
    whole(Some(operation), tokens)
}

/// A number added to a low register, to r13 or to r15.
fn sum_of(rd: u16, rs: u16, number: u32) -> Result<Option<ThumbOp>, AsmKind>
    ensures { Agrees (λ op. op) result (sum_with rd rs number) }
{
    if is_low(rs) {
        return Ok(scaled(number, 1).map(|x3| {
            ThumbOp::Format2 {
                i: true,
                op: false,
                x3,
                rs,
                rd,
            }
        }));
    }
    if rs == 13 {
        return Ok(scaled(number, 4).map(|n8| ThumbOp::Format12 { p: true, rd, n8 }));
    }
    if rs == 15 {
        return Ok(scaled(number, 4).map(|n8| ThumbOp::Format12 { p: false, rd, n8 }));
    }
    Err(AsmKind::Operand)
}

/// `rd, rs, #n`, `rd, sp, #n` and `rd, pc, #n`.
#[tactic(auto, unfolding(crate::specs::Forms::add_number))]
fn take_add_number<'a>(
    rd: u16,
    rs: u16,
    tokens: &mut Tokens<'a>,
) -> Result<ThumbStatement<'a>, AsmKind>
    ensures { Agrees statement_value result (add_number rd rs tokens.old) }
{
    if !is_low(rd) {
        return Err(AsmKind::Operand);
    }
    let number = tokens.number()?;
    let op = sum_of(rd, rs, number)?;
    whole(op, tokens)
}

fn take_add_last<'a>(
    rd: u16,
    rs: u16,
    tokens: &mut Tokens<'a>,
) -> Result<ThumbStatement<'a>, AsmKind>
    ensures { Agrees statement_value result (add_last rd rs tokens.old) }
{
    if tokens.takes(b'#') {
        return take_add_number(rd, rs, tokens);
    }
    take_three_registers(false, rd, rs, tokens)
}

fn take_add_third<'a>(
    rd: u16,
    rs: u16,
    tokens: &mut Tokens<'a>,
) -> Result<ThumbStatement<'a>, AsmKind>
    ensures { Agrees statement_value result (add_third rd rs tokens.old) }
{
    if tokens.takes(b',') {
        return take_add_last(rd, rs, tokens);
    }
    whole(Some(high(0, rd, rs)), tokens)
}

#[tactic(auto, unfolding(crate::specs::Forms::add_register))]
fn take_add_register<'a>(rd: u16, tokens: &mut Tokens<'a>) -> Result<ThumbStatement<'a>, AsmKind>
    ensures { Agrees statement_value result (add_register rd tokens.old) }
{
    let rs = take_register(tokens)?;
    take_add_third(rd, rs, tokens)
}

fn take_add_rest<'a>(rd: u16, tokens: &mut Tokens<'a>) -> Result<ThumbStatement<'a>, AsmKind>
    ensures { Agrees statement_value result (add_rest rd tokens.old) }
{
    if tokens.takes(b'#') {
        return take_change_by_number(2, false, rd, tokens);
    }
    take_add_register(rd, tokens)
}

/// `rd, #n`, `sp, #n`, `rd, rs`, `rd, rs, rn`, `rd, rs, #n`, `rd, sp, #n` and `rd, pc, #n`.
#[tactic(auto, unfolding(crate::specs::Forms::add_form))]
fn take_add<'a>(tokens: &mut Tokens<'a>) -> Result<ThumbStatement<'a>, AsmKind>
    ensures { Agrees statement_value result (add_form tokens.old) }
{
    let rd = take_register(tokens)?;
    tokens.mark(b',')?;
    take_add_rest(rd, tokens)
}

/// `rd, rs, #n`.
#[tactic(auto, unfolding(crate::specs::Forms::subtract_number))]
fn take_subtract_number<'a>(
    rd: u16,
    rs: u16,
    tokens: &mut Tokens<'a>,
) -> Result<ThumbStatement<'a>, AsmKind>
    ensures { Agrees statement_value result (subtract_number rd rs tokens.old) }
{
    if !(is_low(rd) && is_low(rs)) {
        return Err(AsmKind::Operand);
    }
    let number = tokens.number()?;
    let op = scaled(number, 1).map(|x3| {
        ThumbOp::Format2 {
            i: true,
            op: true,
            x3,
            rs,
            rd,
        }
    });
    whole(op, tokens)
}

fn take_subtract_last<'a>(
    rd: u16,
    rs: u16,
    tokens: &mut Tokens<'a>,
) -> Result<ThumbStatement<'a>, AsmKind>
    ensures { Agrees statement_value result (subtract_last rd rs tokens.old) }
{
    if tokens.takes(b'#') {
        return take_subtract_number(rd, rs, tokens);
    }
    take_three_registers(true, rd, rs, tokens)
}

#[tactic(auto, unfolding(crate::specs::Forms::subtract_register))]
fn take_subtract_register<'a>(
    rd: u16,
    tokens: &mut Tokens<'a>,
) -> Result<ThumbStatement<'a>, AsmKind>
    ensures { Agrees statement_value result (subtract_register rd tokens.old) }
{
    let rs = take_register(tokens)?;
    tokens.mark(b',')?;
    take_subtract_last(rd, rs, tokens)
}

fn take_subtract_rest<'a>(rd: u16, tokens: &mut Tokens<'a>) -> Result<ThumbStatement<'a>, AsmKind>
    ensures { Agrees statement_value result (subtract_rest rd tokens.old) }
{
    if tokens.takes(b'#') {
        return take_change_by_number(3, true, rd, tokens);
    }
    take_subtract_register(rd, tokens)
}

/// `rd, #n`, `sp, #n`, `rd, rs, rn` and `rd, rs, #n`.
#[tactic(auto, unfolding(crate::specs::Forms::subtract_form))]
fn take_subtract<'a>(tokens: &mut Tokens<'a>) -> Result<ThumbStatement<'a>, AsmKind>
    ensures { Agrees statement_value result (subtract_form tokens.old) }
{
    let rd = take_register(tokens)?;
    tokens.mark(b',')?;
    take_subtract_rest(rd, tokens)
}

/// `rs`.
#[tactic(auto, unfolding(crate::specs::Forms::exchange_form))]
fn take_exchange<'a>(tokens: &mut Tokens<'a>) -> Result<ThumbStatement<'a>, AsmKind>
    ensures { Agrees statement_value result (exchange_form tokens.old) }
{
    let rs = take_register(tokens)?;
    whole(Some(high(3, 0, rs)), tokens)
}

fn by_register(load: bool, access: Access, ro: u16, rb: u16, rd: u16) -> ThumbOp
    ensures { result ≡ by_register_of load access ro rb rd }
{
    match access {
        Access::Word => format7(load, false, ro, rb, rd),
        Access::Byte => format7(load, true, ro, rb, rd),
        Access::Half => format8(load, false, ro, rb, rd),
        Access::SignedByte => format8(false, true, ro, rb, rd),
        Access::SignedHalf => format8(true, true, ro, rb, rd),
    }
}

fn format7(l: bool, b: bool, ro: u16, rb: u16, rd: u16) -> ThumbOp
    ensures { result ≡ ThumbOp.Format7 l b ro rb rd }
{
    ThumbOp::Format7 { l, b, ro, rb, rd }
}

fn format8(h: bool, s: bool, ro: u16, rb: u16, rd: u16) -> ThumbOp
    ensures { result ≡ ThumbOp.Format8 h s ro rb rd }
{
    ThumbOp::Format8 { h, s, ro, rb, rd }
}

fn by_low(
    l: bool,
    access: Access,
    rb: u16,
    rd: u16,
    number: u32,
) -> Result<Option<ThumbOp>, AsmKind>
    ensures { Agrees (λ op. op) result (by_low_of l access rb rd number) }
{
    match access {
        Access::Word => Ok(scaled(number, 4).map(|o5| {
            ThumbOp::Format9 {
                b: false,
                l,
                o5,
                rb,
                rd,
            }
        })),
        Access::Byte => Ok(scaled(number, 1).map(|o5| {
            ThumbOp::Format9 {
                b: true,
                l,
                o5,
                rb,
                rd,
            }
        })),
        Access::Half => Ok(scaled(number, 2).map(|o5| ThumbOp::Format10 { l, o5, rb, rd })),
        Access::SignedByte | Access::SignedHalf => Err(AsmKind::Operand),
    }
}

fn by_stack(l: bool, access: Access, rd: u16, number: u32) -> Result<Option<ThumbOp>, AsmKind>
    ensures { Agrees (λ op. op) result (by_stack_of l access rd number) }
{
    match access {
        Access::Word => Ok(scaled(number, 4).map(|n8| ThumbOp::Format11 { l, rd, n8 })),
        _ => Err(AsmKind::Operand),
    }
}

fn by_counter(load: bool, access: Access, rd: u16, number: u32) -> Result<Option<ThumbOp>, AsmKind>
    ensures { Agrees (λ op. op) result (by_counter_of load access rd number) }
{
    match (load, access) {
        (true, Access::Word) => Ok(scaled(number, 4).map(|n8| ThumbOp::Format6 { rd, n8 })),
        _ => Err(AsmKind::Operand),
    }
}

fn by_number(
    load: bool,
    access: Access,
    rb: u16,
    rd: u16,
    number: u32,
) -> Result<Option<ThumbOp>, AsmKind>
    ensures { Agrees (λ op. op) result (by_number_of load access rb rd number) }
{
    if is_low(rb) {
        return by_low(load, access, rb, rd, number);
    }
    if rb == 13 {
        return by_stack(load, access, rd, number);
    }
    if rb == 15 {
        return by_counter(load, access, rd, number);
    }
    Err(AsmKind::Operand)
}

#[tactic(auto, unfolding(crate::specs::Forms::register_access))]
fn take_register_access<'a>(
    load: bool,
    access: Access,
    rd: u16,
    rb: u16,
    tokens: &mut Tokens<'a>,
) -> Result<ThumbStatement<'a>, AsmKind>
    ensures { Agrees statement_value result (register_access load access rd rb tokens.old) }
{
    if !is_low(rb) {
        return Err(AsmKind::Operand);
    }
    let ro = take_low_register(tokens)?;
    tokens.mark(b']')?;
    whole(Some(by_register(load, access, ro, rb, rd)), tokens)
}

#[tactic(auto, unfolding(crate::specs::Forms::number_access))]
fn take_number_access<'a>(
    load: bool,
    access: Access,
    rd: u16,
    rb: u16,
    tokens: &mut Tokens<'a>,
) -> Result<ThumbStatement<'a>, AsmKind>
    ensures { Agrees statement_value result (number_access load access rd rb tokens.old) }
{
    let number = tokens.number()?;
    tokens.mark(b']')?;
    let op = by_number(load, access, rb, rd, number)?;
    whole(op, tokens)
}

fn take_access_rest<'a>(
    load: bool,
    access: Access,
    rd: u16,
    rb: u16,
    tokens: &mut Tokens<'a>,
) -> Result<ThumbStatement<'a>, AsmKind>
    ensures { Agrees statement_value result (access_rest load access rd rb tokens.old) }
{
    if tokens.takes(b'#') {
        return take_number_access(load, access, rd, rb, tokens);
    }
    take_register_access(load, access, rd, rb, tokens)
}

/// `rd, [rb, ro]` and `rd, [rb, #n]`.
#[tactic(auto, unfolding(crate::specs::Forms::transfer_form))]
fn take_transfer<'a>(
    load: bool,
    access: Access,
    tokens: &mut Tokens<'a>,
) -> Result<ThumbStatement<'a>, AsmKind>
    ensures { Agrees statement_value result (transfer_form load access tokens.old) }
{
    let rd = take_low_register(tokens)?;
    tokens.mark(b',')?;
    tokens.mark(b'[')?;
    let rb = take_register(tokens)?;
    tokens.mark(b',')?;
    take_access_rest(load, access, rd, rb, tokens)
}

/// The registers from r0 to r7 in a list, and the one of this bit.
fn stacked(l: bool, bit: u16, list: u16) -> Result<Option<ThumbOp>, AsmKind>
    ensures { Agrees (λ op. op) result (stacked_of l bit list) }
{
    if list < 256 {
        return Ok(Some(ThumbOp::Format14 {
            l,
            r: false,
            list8: list,
        }));
    }
    if list < bit || list - bit >= 256 {
        return Err(AsmKind::Operand);
    }
    Ok(Some(ThumbOp::Format14 {
        l,
        r: true,
        list8: list - bit,
    }))
}

/// `{LIST}`.
#[tactic(auto, unfolding(crate::specs::Forms::stack_form))]
fn take_stack<'a>(
    load: bool,
    bit: u16,
    tokens: &mut Tokens<'a>,
) -> Result<ThumbStatement<'a>, AsmKind>
    ensures { Agrees statement_value result (stack_form load bit tokens.old) }
{
    let list = list_at(tokens)?;
    let op = stacked(load, bit, list)?;
    whole(op, tokens)
}

/// `rb!, {LIST}`.
#[tactic(auto, unfolding(crate::specs::Forms::block_form))]
fn take_block<'a>(l: bool, tokens: &mut Tokens<'a>) -> Result<ThumbStatement<'a>, AsmKind>
    ensures { Agrees statement_value result (block_form l tokens.old) }
{
    let rb = take_low_register(tokens)?;
    tokens.mark(b'!')?;
    tokens.mark(b',')?;
    let list8 = list_at(tokens)?;
    if list8 >= 256 {
        return Err(AsmKind::Operand);
    }
    whole(Some(ThumbOp::Format15 { l, rb, list8 }), tokens)
}

/// `#n`.
#[tactic(auto, unfolding(crate::specs::Forms::interrupt_form))]
fn take_interrupt<'a>(tokens: &mut Tokens<'a>) -> Result<ThumbStatement<'a>, AsmKind>
    ensures { Agrees statement_value result (interrupt_form tokens.old) }
{
    let number = tokens.immediate()?;
    let op = scaled(number, 1).map(|n8| ThumbOp::Format17 { n8 });
    whole(op, tokens)
}

/// `TARGET`.
#[tactic(auto, unfolding(crate::specs::Forms::branch_form))]
fn take_branch<'a>(tokens: &mut Tokens<'a>) -> Result<ThumbStatement<'a>, AsmKind>
    ensures { Agrees statement_value result (branch_form tokens.old) }
{
    let target = tokens.target()?;
    tokens.end()?;
    Ok(ThumbStatement::Branch { target })
}

/// `TARGET`.
#[tactic(auto, unfolding(crate::specs::Forms::branch_if_form))]
fn take_branch_if<'a>(cond: u16, tokens: &mut Tokens<'a>) -> Result<ThumbStatement<'a>, AsmKind>
    ensures { Agrees statement_value result (branch_if_form cond tokens.old) }
{
    let target = tokens.target()?;
    tokens.end()?;
    Ok(ThumbStatement::BranchIf { cond, target })
}

/// `TARGET`.
#[tactic(auto, unfolding(crate::specs::Forms::call_form))]
fn take_call<'a>(tokens: &mut Tokens<'a>) -> Result<ThumbStatement<'a>, AsmKind>
    ensures { Agrees statement_value result (call_form tokens.old) }
{
    let target = tokens.target()?;
    tokens.end()?;
    Ok(ThumbStatement::Call { target })
}

/// The form of each name. PUSH takes r14 too, and POP r15.
#[tactic(auto, unfolding(crate::specs::Forms::form_of))]
fn take_form<'a>(name: ThumbName, tokens: &mut Tokens<'a>) -> Result<ThumbStatement<'a>, AsmKind>
    ensures { Agrees statement_value result (form_of name tokens.old) }
{
    match name {
        ThumbName::Shifted(shift) => take_shift(shift, tokens),
        ThumbName::Move => take_move(tokens),
        ThumbName::Compare => take_compare(tokens),
        ThumbName::Add => take_add(tokens),
        ThumbName::Subtract => take_subtract(tokens),
        ThumbName::TwoRegisters(op) => take_two_registers(op, tokens),
        ThumbName::Exchange => take_exchange(tokens),
        ThumbName::Transfer { load, access } => take_transfer(load, access, tokens),
        ThumbName::Push => take_stack(false, LINK_BIT, tokens),
        ThumbName::Pop => take_stack(true, COUNTER_BIT, tokens),
        ThumbName::Block { load } => take_block(load, tokens),
        ThumbName::Branch => take_branch(tokens),
        ThumbName::BranchIf(cond) => take_branch_if(cond, tokens),
        ThumbName::Call => take_call(tokens),
        ThumbName::Interrupt => take_interrupt(tokens),
    }
}

/// What a Thumb statement's name says with the tokens after it. Refused is a name that no statement has (`Unknown`),
/// and then operands that aren't one of its forms (`Operand`).
#[tactic(auto, unfolding(crate::specs::Forms::thumb_statement))]
pub fn thumb_statement<'a>(
    word: &[u8],
    tokens: &mut Tokens<'a>,
) -> Result<ThumbStatement<'a>, AsmKind>
    ensures { Agrees statement_value result (thumb_statement_of word.now tokens.old) }
{
    match thumb_name(word) {
        Some(name) => take_form(name, tokens),
        None => Err(AsmKind::Unknown),
    }
}
