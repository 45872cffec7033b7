//! The operands of ARM statements but for addresses. Where a number has no encoding, an operand is None.

ghost use Rattle.std.specs.Prelude.{◌≡◌, ◌≤◌, ◌<◌, ◌+◌, ◌^◌, IfSome, Some, option_map};
ghost use Rattle.gba_text.specs.Answers.{Takes};
ghost use Rattle.gba_asm_arm.specs.Operands.{amount_from_0 as amount_from_0_of, amount_from_1 as amount_from_1_of, amount_of, ended as ended_of, fields_c as fields_c_of, fields_of, fields_s as fields_s_of, fields_x as fields_x_of, has_letter, immediate_operand as immediate_operand_of, immediate_source as immediate_source_of, next_second_at, past_letter, register_operand, saved_at, saved_of, second_at, shift_name_at, shift_name_of, shifted_as, shifted_by, source_at, status_at, status_by, status_of, least_turn as least_turn_of};

use gba_arm_table::{Operand, Source};
use gba_asm_words::{AsmKind, Tokens};
use gba_word::{Shift, weight_byte};

/// Eight bits, and half of what they are rotated right by.
#[derive(Clone, Copy)]
pub(crate) struct Turned {
    pub(crate) value: u8,
    pub(crate) turn: u8,
}

/// The name of a shift.
#[derive(Clone, Copy)]
pub(crate) enum ShiftName {
    /// `rrx`, which rotates by one through the carry.
    Extended,
    By(Shift),
}

/// A status register with its fields. Bits 3, 2, 1 and 0 of `fields` are `f`, `s`, `x` and `c`.
#[derive(Clone, Copy)]
pub(crate) struct StatusName {
    pub(crate) saved: bool,
    pub(crate) fields: u8,
}

/// The least of the sixteen turns that gives a number (ARM Architecture Reference Manual, A5.1.3).
pub(crate) fn least_turn(number: u32) -> Option<Turned>
    ensures { result ≡ least_turn_of number }
{
    for turn in 0..16u8 {
        let value = number.rotate_left(2 * u32::from(turn));
        if value < 256 {
            return Some(Turned {
                value: value as u8,
                turn,
            });
        }
    }
    None
}

fn immediate_operand(turned: Option<Turned>) -> Option<Operand>
    ensures { result ≡ immediate_operand_of turned }
{
    turned.map(|immediate| {
        Operand::Immediate {
            value: immediate.value,
            turn: immediate.turn,
        }
    })
}

fn immediate_source(turned: Option<Turned>) -> Option<Source>
    ensures { result ≡ immediate_source_of turned }
{
    turned.map(|immediate| {
        Source::Immediate {
            value: immediate.value,
            turn: immediate.turn,
        }
    })
}

#[tactic(auto, unfolding(crate::specs::Operands::shift_name_of))]
fn shift_name_in(word: &[u8]) -> Option<ShiftName>
    ensures { result ≡ shift_name_of word.now }
{
    if word == b"lsl".as_slice() {
        Some(ShiftName::By(Shift::Lsl))
    } else if word == b"lsr".as_slice() {
        Some(ShiftName::By(Shift::Lsr))
    } else if word == b"asr".as_slice() {
        Some(ShiftName::By(Shift::Asr))
    } else if word == b"ror".as_slice() {
        Some(ShiftName::By(Shift::Ror))
    } else if word == b"rrx".as_slice() {
        Some(ShiftName::Extended)
    } else {
        None
    }
}

/// The name of a shift.
#[tactic(auto, unfolding(crate::specs::Operands::shift_name_at))]
pub(crate) fn take_shift_name(tokens: &mut Tokens<'_>) -> Result<ShiftName, AsmKind>
    ensures { Takes (λ name. name) result tokens.new (shift_name_at tokens.old) }
{
    let word = tokens.word()?;
    match shift_name_in(word) {
        Some(name) => Ok(name),
        None => Err(AsmKind::Operand),
    }
}

fn amount_from_0(number: u32) -> Option<u8>
    ensures { result ≡ amount_from_0_of number }
{
    if number < 32 {
        Some(number as u8)
    } else {
        None
    }
}

fn amount_from_1(number: u32) -> Option<u8>
    ensures { result ≡ amount_from_1_of number }
{
    if 1 <= number && number <= 32 {
        Some((number % 32) as u8)
    } else {
        None
    }
}

/// The five bits of a shift by a constant: 0 to 31 of `lsl` and `ror`, 1 to 32 of `lsr` and `asr`, of which 32 is 0 in
/// the word (ARM Architecture Reference Manual, A5.1).
pub fn shift_amount(kind: Shift, number: u32) -> Option<u8>
    ensures { result ≡ amount_of kind number }
{
    match kind {
        Shift::Lsl | Shift::Ror => amount_from_0(number),
        Shift::Lsr | Shift::Asr => amount_from_1(number),
    }
}

/// A register shifted by `#` and a number, or by a register.
#[tactic(auto, unfolding(crate::specs::Operands::shifted_by))]
fn take_shifted_by(rm: u8, kind: Shift, tokens: &mut Tokens<'_>) -> Result<Option<Operand>, AsmKind>
    ensures { Takes (λ operand. operand) result tokens.new (shifted_by rm kind tokens.old) }
{
    if tokens.takes(b'#') {
        let number = tokens.number()?;
        let amount = shift_amount(kind, number);
        return Ok(amount.map(|amount| Operand::Fixed { rm, kind, amount }));
    }
    let rs = tokens.register()?;
    Ok(Some(Operand::ByRegister { rm, kind, rs }))
}

#[tactic(auto, unfolding(crate::specs::Operands::shifted_as))]
fn take_shifted_as(
    rm: u8,
    name: ShiftName,
    tokens: &mut Tokens<'_>,
) -> Result<Option<Operand>, AsmKind>
    ensures { Takes (λ operand. operand) result tokens.new (shifted_as rm name tokens.old) }
{
    match name {
        ShiftName::Extended => Ok(Some(Operand::Fixed {
            rm,
            kind: Shift::Ror,
            amount: 0,
        })),
        ShiftName::By(kind) => take_shifted_by(rm, kind, tokens),
    }
}

/// What follows a register: a comma and a shift, or nothing.
#[tactic(auto, unfolding(crate::specs::Operands::register_operand))]
fn take_register_operand(rm: u8, tokens: &mut Tokens<'_>) -> Result<Option<Operand>, AsmKind>
    ensures { Takes (λ operand. operand) result tokens.new (register_operand rm tokens.old) }
{
    if tokens.takes(b',') {
        let name = take_shift_name(tokens)?;
        return take_shifted_as(rm, name, tokens);
    }
    Ok(Some(Operand::Fixed {
        rm,
        kind: Shift::Lsl,
        amount: 0,
    }))
}

/// The last operand of data processing.
#[tactic(auto, unfolding(crate::specs::Operands::second_at))]
fn take_second(tokens: &mut Tokens<'_>) -> Result<Option<Operand>, AsmKind>
    ensures { Takes (λ operand. operand) result tokens.new (second_at tokens.old) }
{
    if tokens.takes(b'#') {
        let number = tokens.number()?;
        return Ok(immediate_operand(least_turn(number)));
    }
    let rm = tokens.register()?;
    take_register_operand(rm, tokens)
}

/// A comma, and the last operand of data processing.
#[tactic(auto, unfolding(crate::specs::Operands::next_second_at))]
pub(crate) fn take_next_second(tokens: &mut Tokens<'_>) -> Result<Option<Operand>, AsmKind>
    ensures { Takes (λ operand. operand) result tokens.new (next_second_at tokens.old) }
{
    tokens.mark(b',')?;
    take_second(tokens)
}

/// What MSR writes.
#[tactic(auto, unfolding(crate::specs::Operands::source_at))]
pub(crate) fn take_source(tokens: &mut Tokens<'_>) -> Result<Option<Source>, AsmKind>
    ensures { Takes (λ source. source) result tokens.new (source_at tokens.old) }
{
    if tokens.takes(b'#') {
        let number = tokens.number()?;
        return Ok(immediate_source(least_turn(number)));
    }
    let rm = tokens.register()?;
    Ok(Some(Source::Plain { rm }))
}

/// Whether a letter stands first, and the letters after it.
fn split_letter(letter: u8, letters: &[u8]) -> (bool, &[u8])
    ensures has { result.0 ≡ has_letter letter letters.now }
    ensures rest { result.1.now ≡ past_letter letter letters.now }
{
    match letters.split_first() {
        Some((first, rest)) => {
            if *first == letter {
                (true, rest)
            } else {
                (false, letters)
            }
        }
        None => (false, letters),
    }
}

fn ended(fields: u8, letters: &[u8]) -> Option<u8>
    ensures { result ≡ ended_of fields letters.now }
{
    if !letters.is_empty() || fields == 0 {
        return None;
    }
    Some(fields)
}

fn fields_c(fields: u8, letters: &[u8]) -> Option<u8>
    requires { fields ≤ 14 }
    ensures { result ≡ fields_c_of fields letters.now }
{
    let (has, rest) = split_letter(b'c', letters);
    ended(fields + weight_byte(1, has), rest)
}

fn fields_x(fields: u8, letters: &[u8]) -> Option<u8>
    requires { fields ≤ 12 }
    ensures { result ≡ fields_x_of fields letters.now }
{
    let (has, rest) = split_letter(b'x', letters);
    fields_c(fields + weight_byte(2, has), rest)
}

fn fields_s(fields: u8, letters: &[u8]) -> Option<u8>
    requires { fields ≤ 8 }
    ensures { result ≡ fields_s_of fields letters.now }
{
    let (has, rest) = split_letter(b's', letters);
    fields_x(fields + weight_byte(4, has), rest)
}

/// The fields that letters name.
#[tactic(auto, unfolding(crate::specs::Operands::fields_of))]
fn fields_in(letters: &[u8]) -> Option<u8>
    ensures { result ≡ fields_of letters.now }
{
    let (has, rest) = split_letter(b'f', letters);
    fields_s(weight_byte(8, has), rest)
}

#[tactic(auto, unfolding(crate::specs::Operands::saved_of))]
fn saved_in(word: &[u8]) -> Option<bool>
    ensures { result ≡ saved_of word.now }
{
    if word == b"cpsr".as_slice() {
        Some(false)
    } else if word == b"spsr".as_slice() {
        Some(true)
    } else {
        None
    }
}

/// `cpsr` or `spsr`: whether it is the latter.
#[tactic(auto, unfolding(crate::specs::Operands::saved_at))]
pub(crate) fn take_saved(tokens: &mut Tokens<'_>) -> Result<bool, AsmKind>
    ensures { Takes (λ saved. saved) result tokens.new (saved_at tokens.old) }
{
    let word = tokens.word()?;
    match saved_in(word) {
        Some(saved) => Ok(saved),
        None => Err(AsmKind::Operand),
    }
}

fn status_with(saved: Option<bool>, letters: &[u8]) -> Option<StatusName>
    ensures { result ≡ status_by saved letters.now }
{
    let saved = saved?;
    let Some((first, rest)) = letters.split_first() else {
        return None;
    };
    if *first != b'_' {
        return None;
    }
    fields_in(rest).map(|fields| StatusName { saved, fields })
}

#[tactic(auto, unfolding(crate::specs::Operands::status_of))]
fn status_in(word: &[u8]) -> Option<StatusName>
    ensures { result ≡ status_of word.now }
{
    if word.len() < 4 {
        return None;
    }
    status_with(saved_in(&word[..4]), &word[4..])
}

/// The status register that MSR writes, with its fields.
#[tactic(auto, unfolding(crate::specs::Operands::status_at))]
pub(crate) fn take_status(tokens: &mut Tokens<'_>) -> Result<StatusName, AsmKind>
    ensures { Takes (λ status. status) result tokens.new (status_at tokens.old) }
{
    let word = tokens.word()?;
    match status_in(word) {
        Some(status) => Ok(status),
        None => Err(AsmKind::Operand),
    }
}
