//! The addresses of loads and stores. Where a number has no encoding, an offset is None.

ghost use Rattle.std.specs.Prelude.{◌≡◌};
ghost use Rattle.gba_text.specs.Answers.{Takes};
ghost use Rattle.gba_asm_arm.specs.Transfers.{address as address_with, address_at, after_access, before_access, distance_at, half_offset as half_offset_of, half_transfer as half_transfer_of, in_brackets, indexed, no_distance as no_distance_of, number_distance, past_bracket, register_distance, register_offset, shifted_offset, transfer as transfer_of};

use crate::operands::{ShiftName, shift_amount, take_shift_name};
use gba_arm_table::{ArmOp, Condition, HalfKind, HalfOffset, TransferOffset};
use gba_asm_words::{AsmKind, Tokens};
use gba_word::Shift;

/// How far an access is from its base.
#[derive(Clone, Copy)]
pub(crate) struct Distance {
    /// Whether the offset is added.
    pub(crate) up: bool,
    pub(crate) offset: Option<TransferOffset>,
}

/// The address of an access.
#[derive(Clone, Copy)]
pub(crate) struct Address {
    pub(crate) rn: u8,
    /// Whether the offset goes on before the access.
    pub(crate) pre: bool,
    /// Whether `!` stands behind.
    pub(crate) write: bool,
    /// Whether the offset is added.
    pub(crate) up: bool,
    pub(crate) offset: Option<TransferOffset>,
}

/// A register shifted by `#` and a number.
#[tactic(auto, unfolding(crate::specs::Transfers::shifted_offset))]
fn take_shifted_offset(
    rm: u8,
    name: ShiftName,
    tokens: &mut Tokens<'_>,
) -> Result<Option<TransferOffset>, AsmKind>
    ensures { Takes (λ offset. offset) result tokens.new (shifted_offset rm name tokens.old) }
{
    match name {
        ShiftName::Extended => {
            Ok(Some(TransferOffset::Shifted {
                rm,
                kind: Shift::Ror,
                amount: 0,
            }))
        }
        ShiftName::By(kind) => {
            let number = tokens.immediate()?;
            let amount = shift_amount(kind, number);
            Ok(amount.map(|amount| TransferOffset::Shifted { rm, kind, amount }))
        }
    }
}

/// What follows a register: a comma and a shift where shifts may stand, or nothing.
#[tactic(auto, unfolding(crate::specs::Transfers::register_offset))]
fn take_register_offset(
    shifts: bool,
    rm: u8,
    tokens: &mut Tokens<'_>,
) -> Result<Option<TransferOffset>, AsmKind>
    ensures { Takes (λ offset. offset) result tokens.new (register_offset shifts rm tokens.old) }
{
    let plain = TransferOffset::Shifted {
        rm,
        kind: Shift::Lsl,
        amount: 0,
    };
    if !shifts {
        return Ok(Some(plain));
    }
    if tokens.takes(b',') {
        let name = take_shift_name(tokens)?;
        return take_shifted_offset(rm, name, tokens);
    }
    Ok(Some(plain))
}

/// A number after `-`, or without it.
#[tactic(auto, unfolding(crate::specs::Transfers::number_distance))]
fn take_number_distance(tokens: &mut Tokens<'_>) -> Result<Distance, AsmKind>
    ensures { Takes (λ d. d) result tokens.new (number_distance tokens.old) }
{
    let down = tokens.takes(b'-');
    let value = tokens.number()?;
    Ok(Distance {
        up: !down,
        offset: Some(TransferOffset::Number { value }),
    })
}

/// A register after `-`, or without it.
#[tactic(auto, unfolding(crate::specs::Transfers::register_distance))]
fn take_register_distance(shifts: bool, tokens: &mut Tokens<'_>) -> Result<Distance, AsmKind>
    ensures { Takes (λ d. d) result tokens.new (register_distance shifts tokens.old) }
{
    let down = tokens.takes(b'-');
    let rm = tokens.register()?;
    let offset = take_register_offset(shifts, rm, tokens)?;
    Ok(Distance { up: !down, offset })
}

/// `#` and a number, or a register.
#[tactic(auto, unfolding(crate::specs::Transfers::distance_at))]
fn take_distance(shifts: bool, tokens: &mut Tokens<'_>) -> Result<Distance, AsmKind>
    ensures { Takes (λ d. d) result tokens.new (distance_at shifts tokens.old) }
{
    if tokens.takes(b'#') {
        return take_number_distance(tokens);
    }
    take_register_distance(shifts, tokens)
}

fn no_distance() -> Distance
    ensures { result ≡ no_distance_of }
{
    Distance {
        up: true,
        offset: Some(TransferOffset::Number { value: 0 }),
    }
}

fn make_address(rn: u8, pre: bool, write: bool, distance: Distance) -> Address
    ensures { result ≡ address_with rn pre write distance }
{
    Address {
        rn,
        pre,
        write,
        up: distance.up,
        offset: distance.offset,
    }
}

/// The distance goes on before the access, and `!` writes it back.
fn take_before_access(rn: u8, distance: Distance, tokens: &mut Tokens<'_>) -> Address
    ensures { record { value = result; left = tokens.new } ≡ before_access rn distance tokens.old }
{
    let write = tokens.takes(b'!');
    make_address(rn, true, write, distance)
}

/// The distance goes on after the access.
#[tactic(auto, unfolding(crate::specs::Transfers::after_access))]
fn take_after_access(shifts: bool, rn: u8, tokens: &mut Tokens<'_>) -> Result<Address, AsmKind>
    ensures { Takes (λ a. a) result tokens.new (after_access shifts rn tokens.old) }
{
    let distance = take_distance(shifts, tokens)?;
    Ok(make_address(rn, false, false, distance))
}

/// What follows `[rn]`.
#[tactic(auto, unfolding(crate::specs::Transfers::past_bracket))]
fn take_past_bracket(shifts: bool, rn: u8, tokens: &mut Tokens<'_>) -> Result<Address, AsmKind>
    ensures { Takes (λ a. a) result tokens.new (past_bracket shifts rn tokens.old) }
{
    if tokens.takes(b',') {
        return take_after_access(shifts, rn, tokens);
    }
    Ok(take_before_access(rn, no_distance(), tokens))
}

/// What follows `[rn` where no bracket does.
#[tactic(auto, unfolding(crate::specs::Transfers::indexed))]
fn take_indexed(shifts: bool, rn: u8, tokens: &mut Tokens<'_>) -> Result<Address, AsmKind>
    ensures { Takes (λ a. a) result tokens.new (indexed shifts rn tokens.old) }
{
    tokens.mark(b',')?;
    let distance = take_distance(shifts, tokens)?;
    tokens.mark(b']')?;
    Ok(take_before_access(rn, distance, tokens))
}

#[tactic(auto, unfolding(crate::specs::Transfers::in_brackets))]
fn take_in_brackets(shifts: bool, rn: u8, tokens: &mut Tokens<'_>) -> Result<Address, AsmKind>
    ensures { Takes (λ a. a) result tokens.new (in_brackets shifts rn tokens.old) }
{
    if tokens.takes(b']') {
        return take_past_bracket(shifts, rn, tokens);
    }
    take_indexed(shifts, rn, tokens)
}

/// An address, from its `[` on. `shifts` says whether a register may be shifted in it.
#[tactic(auto, unfolding(crate::specs::Transfers::address_at))]
pub(crate) fn take_address(shifts: bool, tokens: &mut Tokens<'_>) -> Result<Address, AsmKind>
    ensures { Takes (λ a. a) result tokens.new (address_at shifts tokens.old) }
{
    tokens.mark(b'[')?;
    let rn = tokens.register()?;
    take_in_brackets(shifts, rn, tokens)
}

/// LDR and STR of a word or a byte, with `user` the forms with T.
pub(crate) fn transfer(
    cond: Condition,
    load: bool,
    byte: bool,
    user: bool,
    rd: u8,
    address: Address,
) -> Option<ArmOp>
    ensures { result ≡ transfer_of cond load byte user rd address }
{
    let offset = address.offset?;
    Some(ArmOp::Transfer {
        cond,
        load,
        byte,
        pre: address.pre,
        up: address.up,
        write: address.write || user,
        rn: address.rn,
        rd,
        offset,
    })
}

fn half_offset(offset: TransferOffset) -> HalfOffset
    ensures { result ≡ half_offset_of offset }
{
    match offset {
        TransferOffset::Number { value } => HalfOffset::Number { value },
        TransferOffset::Shifted { rm, .. } => HalfOffset::Plain { rm },
    }
}

/// LDRH and its like.
pub(crate) fn half_transfer(
    cond: Condition,
    kind: HalfKind,
    rd: u8,
    address: Address,
) -> Option<ArmOp>
    ensures { result ≡ half_transfer_of cond kind rd address }
{
    let offset = address.offset?;
    Some(ArmOp::Half {
        cond,
        kind,
        pre: address.pre,
        up: address.up,
        write: address.write,
        rn: address.rn,
        rd,
        offset: half_offset(offset),
    })
}
