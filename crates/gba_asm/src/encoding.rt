//! The bytes of statements.

ghost use Rattle.std.specs.Prelude.{◌≡◌, ◌≤◌, ◌++◌, true, replicate, option_map, OnOk};
ghost use Rattle.gba_arm_table.specs.Encoding.{encoding as arm_encoding};
ghost use Rattle.gba_thumb_table.specs.Encoding.{encoding as thumb_encoding};
ghost use Rattle.gba_asm_words.specs.Numbers.{number_of};
ghost use Rattle.gba_text.specs.Answers.{Agrees};
ghost use Rattle.gba_asm_words.specs.Readers.{target_of, target_value};
ghost use Rattle.gba_asm_words.specs.Tokens.{tokens};
ghost use Rattle.gba_asm_arm.specs.Statement.{statement_value as arm_value};
ghost use Rattle.gba_asm_thumb.specs.Statement.{statement_value as thumb_value};
ghost use Rattle.gba_asm.specs.Answers.{Adds, labels_in};
ghost use Rattle.gba_asm.specs.Encoding.{address_in as address_in_of, address_of as address_of_target, aligned as aligned_of, arm_word as arm_word_of, below as below_of, data_bytes, encoded, item_bytes, items_bytes, or_operand, statement_bytes, thumb_bytes, thumb_code};
ghost use Rattle.gba_asm.specs.Statements.{statement_value};

use crate::directives::{Width, width_size};
use crate::kinds::LineRefused;
use crate::labels::Labels;
use crate::statements::{Statement, padding};
use gba_arm_table::ArmOp;
use gba_asm_arm::ArmStatement;
use gba_asm_thumb::{ThumbOps, ThumbStatement};
use gba_asm_words::{AsmKind, Target, Token, Tokens, number_in, target_in};
use gba_thumb_table::ThumbOp;
use std::alloc::AllocError;

/// The address of a target.
fn address_of<'a>(labels: &Labels<'a>, target: Target<'a>) -> Result<u32, AsmKind>
    ensures { Agrees (λ n. n) result (address_of_target (labels_in labels.now.places) (target_value target.entry)) }
{
    match target {
        Target::Address(address) => Ok(address),
        Target::Label(name) => {
            match labels.get(name) {
                Some(place) => Ok(place.address),
                None => Err(AsmKind::Label),
            }
        }
    }
}

/// The address of a statement's target, 0 where it has none.
fn address_in<'a>(labels: &Labels<'a>, target: Option<Target<'a>>) -> Result<u32, AsmKind>
    ensures { Agrees (λ n. n) result
        (address_in_of (labels_in labels.now.places) (option_map target_value target.entry)) }
{
    match target {
        Some(target) => address_of(labels, target),
        None => Ok(0),
    }
}

/// An address is a multiple of so many bytes.
fn aligned(unit: u32, address: u32) -> Result<(), AsmKind>
    requires { 1 ≤ unit }
    ensures { Agrees (λ _. true) result (aligned_of unit address) }
{
    if address % unit != 0 {
        return Err(AsmKind::Range);
    }
    Ok(())
}

fn encode_arm(op: ArmOp) -> Result<u32, AsmKind>
    ensures { Agrees (λ w. w) result (encoded (arm_encoding op)) }
{
    match gba_arm_table::encode(&op) {
        Ok(word) => Ok(word),
        Err(_) => Err(AsmKind::Range),
    }
}

/// The word of an ARM statement at this address.
#[tactic(auto, unfolding(crate::specs::Encoding::arm_word))]
fn arm_word<'a>(
    labels: &Labels<'a>,
    address: u32,
    statement: ArmStatement<'a>,
) -> Result<u32, AsmKind>
    ensures { Agrees (λ w. w) result (arm_word_of (labels_in labels.now.places) address (arm_value statement.entry)) }
{
    let target = address_in(labels, statement.target())?;
    aligned(4, address)?;
    match statement.operation_at(address, target) {
        Some(op) => encode_arm(op),
        None => Err(AsmKind::Range),
    }
}

fn encode_thumb(op: ThumbOp) -> Result<u16, AsmKind>
    ensures { Agrees (λ h. h) result (encoded (thumb_encoding op)) }
{
    match gba_thumb_table::encode(&op) {
        Ok(half) => Ok(half),
        Err(_) => Err(AsmKind::Range),
    }
}

fn add_one(op: ThumbOp, image: &mut Vec<u8>) -> Result<(), LineRefused>
    ensures { Adds result image.old.items image.new.items (thumb_bytes (ThumbOps.One op)) }
{
    let half = encode_thumb(op)?;
    image.extend_from_slice(&half.to_le_bytes())?;
    Ok(())
}

fn add_two(first: ThumbOp, second: ThumbOp, image: &mut Vec<u8>) -> Result<(), LineRefused>
    ensures { Adds result image.old.items image.new.items (thumb_bytes (ThumbOps.Two first second)) }
{
    let first = encode_thumb(first)?;
    let second = encode_thumb(second)?;
    image.extend_from_slice(&first.to_le_bytes())?;
    image.extend_from_slice(&second.to_le_bytes())?;
    Ok(())
}

/// The bytes of a Thumb statement at this address.
#[tactic(auto, unfolding(crate::specs::Encoding::thumb_code))]
fn add_thumb<'a>(
    labels: &Labels<'a>,
    address: u32,
    statement: ThumbStatement<'a>,
    image: &mut Vec<u8>,
) -> Result<(), LineRefused>
    ensures { Adds result image.old.items image.new.items
        (thumb_code (labels_in labels.now.places) address (thumb_value statement.entry)) }
{
    let target = address_in(labels, statement.target())?;
    aligned(2, address)?;
    match statement.operations_at(address, target) {
        Some(ThumbOps::One(op)) => add_one(op, image),
        Some(ThumbOps::Two(first, second)) => add_two(first, second, image),
        None => Err(LineRefused::Kind(AsmKind::Range)),
    }
}

/// A number below a bound.
fn below(bound: u32, number: u32) -> Result<u32, AsmKind>
    ensures { Agrees (λ n. n) result (below_of bound number) }
{
    if number < bound {
        Ok(number)
    } else {
        Err(AsmKind::Range)
    }
}

fn number_of_item(word: &[u8]) -> Result<u32, AsmKind>
    ensures { Agrees (λ n. n) result (or_operand (number_of word.now)) }
{
    match number_in(word) {
        Some(number) => Ok(number),
        None => Err(AsmKind::Operand),
    }
}

fn target_of_item(word: &[u8]) -> Result<Target<'_>, AsmKind>
    ensures { Agrees target_value result (or_operand (target_of word.now)) }
{
    match target_in(word) {
        Some(target) => Ok(target),
        None => Err(AsmKind::Operand),
    }
}

/// The bytes of one item of data.
#[tactic(auto, unfolding(crate::specs::Encoding::item_bytes))]
fn add_item<'a>(
    labels: &Labels<'a>,
    width: Width,
    word: &'a [u8],
    image: &mut Vec<u8>,
) -> Result<(), LineRefused>
    ensures { Adds result image.old.items image.new.items (item_bytes (labels_in labels.now.places) width word.now) }
{
    match width {
        Width::Word => {
            let target = target_of_item(word)?;
            let number = address_of(labels, target)?;
            image.extend_from_slice(&number.to_le_bytes())?;
        }
        Width::Half => {
            let number = number_of_item(word)?;
            let half = below(0x1_0000, number)? as u16;
            image.extend_from_slice(&half.to_le_bytes())?;
        }
        Width::Byte => {
            let number = number_of_item(word)?;
            let byte = below(0x100, number)? as u8;
            image.extend_from_slice(&[byte])?;
        }
    }
    Ok(())
}

/// The bytes of items, in their order.
fn add_items<'a>(
    labels: &Labels<'a>,
    width: Width,
    items: &'a [u8],
    image: &mut Vec<u8>,
) -> Result<(), LineRefused>
    ensures { Adds result image.old.items image.new.items
        (items_bytes (labels_in labels.now.places) width (tokens items.now)) }
{
    let mut left = Tokens::new(items);
    while let Some(token) = left.next() {
        match token {
            Token::Word(word) => {
                match add_item(labels, width, word, image) {
                    Ok(()) => {}
                    Err(refusal) => return Err(refusal),
                }
            }
            Token::Mark(_) => {}
        }
    }
    Ok(())
}

/// The bytes of data at this address.
fn add_data<'a>(
    labels: &Labels<'a>,
    address: u32,
    width: Width,
    items: &'a [u8],
    image: &mut Vec<u8>,
) -> Result<(), LineRefused>
    ensures { Adds result image.old.items image.new.items
        (data_bytes (labels_in labels.now.places) address width (tokens items.now)) }
{
    add_items(labels, width, items, image)?;
    aligned(width_size(width), address)?;
    Ok(())
}

fn add_zeros(count: u32, image: &mut Vec<u8>) -> Result<(), AllocError>
    ensures { OnOk result (image.new.items ≡ image.old.items ++ replicate count 0) }
{
    for _ in 0..count {
        image.push(0)?;
    }
    Ok(())
}

/// The bytes of a statement at this address.
#[tactic(auto, unfolding(crate::specs::Encoding::statement_bytes))]
pub(crate) fn add_statement<'a>(
    labels: &Labels<'a>,
    address: u32,
    statement: Statement<'a>,
    image: &mut Vec<u8>,
) -> Result<(), LineRefused>
    ensures { Adds result image.old.items image.new.items
        (statement_bytes (labels_in labels.now.places) address (statement_value statement.entry)) }
{
    match statement {
        Statement::Nothing | Statement::Mode { .. } => Ok(()),
        Statement::Data { width, items } => add_data(labels, address, width, items, image),
        Statement::Space(count) => {
            add_zeros(count, image)?;
            Ok(())
        }
        Statement::Align => {
            add_zeros(padding(address), image)?;
            Ok(())
        }
        Statement::Arm(statement) => {
            let word = arm_word(labels, address, statement)?;
            image.extend_from_slice(&word.to_le_bytes())?;
            Ok(())
        }
        Statement::Thumb(statement) => add_thumb(labels, address, statement, image),
    }
}
