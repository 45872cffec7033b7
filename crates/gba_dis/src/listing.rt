//! The listing: a line for each word, halfword, call or byte.

ghost use Rattle.std.specs.Prelude.{◌≡◌, ◌≤◌, ◌++◌, ◌∷◌, [], IfOk, OnOk, length};
ghost use Rattle.std.specs.Str.{bytes_eq};
ghost use Rattle.gba_asm.specs.Language.{Says};
ghost use Rattle.gba_dis.specs.Listing.{data_pieces, gives, heading, line_text, lines_of, listing, statement};
ghost use Rattle.gba_dis.specs.Pieces.{text_of};
ghost use Rattle.gba_dis.specs.Units.{bytes_of, is_thumb, units};

use crate::arm::add_arm_statement;
use crate::pieces::{add, add_digits};
use crate::thumb::{add_call, add_thumb_statement};
use crate::units::{Set, Unit, first_unit};
use gba_asm::{AsmRefused, assemble_line};
use gba_terms::NoMemory;
use std::alloc::{AllocError, Global};

/// The statement of a unit at this address, nothing where it has none.
pub(crate) fn add_statement(line: &mut Vec<u8>, at: u32, unit: Unit) -> Result<(), AllocError>
    ensures { OnOk result (line.new.items ≡ line.old.items ++ text_of (statement at unit)) }
{
    match unit {
        Unit::Word(word) => add_arm_statement(line, at, word),
        Unit::Half(half) => add_thumb_statement(line, at, half),
        Unit::Call { first, second } => add_call(line, at, first, second),
        Unit::Byte(_) => Ok(()),
    }
}

/// Two halfwords as data.
fn add_two_halves(line: &mut Vec<u8>, first: u16, second: u16) -> Result<(), AllocError>
    ensures { OnOk result (line.new.items ≡ line.old.items ++ text_of (data_pieces (Unit.Call first second))) }
{
    add(line, b".half ")?;
    add_digits(line, 4, u32::from(first))?;
    add(line, b", ")?;
    add_digits(line, 4, u32::from(second))
}

/// A unit as data.
pub(crate) fn add_data(line: &mut Vec<u8>, unit: Unit) -> Result<(), AllocError>
    ensures { OnOk result (line.new.items ≡ line.old.items ++ text_of (data_pieces unit)) }
{
    match unit {
        Unit::Word(word) => {
            add(line, b".word ")?;
            add_digits(line, 8, word)
        }
        Unit::Half(half) => {
            add(line, b".half ")?;
            add_digits(line, 4, u32::from(half))
        }
        Unit::Call { first, second } => add_two_halves(line, first, second),
        Unit::Byte(byte) => {
            add(line, b".byte ")?;
            add_digits(line, 2, u32::from(byte))
        }
    }
}

/// Whether these are the bytes of a unit.
fn has_bytes(unit: Unit, bytes: &[u8]) -> bool
    ensures { result ≡ bytes_eq bytes.now (bytes_of unit) }
{
    match unit {
        Unit::Word(word) => bytes == word.to_le_bytes().as_slice(),
        Unit::Half(half) => bytes == half.to_le_bytes().as_slice(),
        Unit::Call { first, second } => {
            let [a, b] = first.to_le_bytes();
            let [c, d] = second.to_le_bytes();
            bytes == [a, b, c, d].as_slice()
        }
        Unit::Byte(byte) => bytes == [byte].as_slice(),
    }
}

/// Whether a line at this address is assembled to a unit. The image is a buffer of which nothing is kept.
pub(crate) fn comes_back(
    alloc: Global,
    set: Set,
    at: u32,
    line: &[u8],
    unit: Unit,
    image: &mut Vec<u8>,
) -> Result<bool, NoMemory>
    ensures { IfOk result (λ same. same ≡ gives (is_thumb set) at line.now (bytes_of unit)) }
{
    image.clear();
    match assemble_line(alloc, set.is_thumb(), at, line, image) {
        Ok(()) => Ok(has_bytes(unit, image.as_slice())),
        Err(AsmRefused::Source(_)) => Ok(false),
        Err(AsmRefused::NoMemory) => Err(NoMemory),
    }
}

/// The line of a unit at this address, at the end of the text.
#[tactic(auto, unfolding(crate::specs::Listing::line_pieces))]
fn add_line(
    alloc: Global,
    set: Set,
    at: u32,
    unit: Unit,
    text: &mut Vec<u8>,
    image: &mut Vec<u8>,
) -> Result<(), NoMemory>
    ensures { OnOk result (text.new.items ≡ text.old.items ++ line_text (is_thumb set) at unit) }
{
    let start = text.len();
    add_statement(text, at, unit)?;
    if !comes_back(alloc, set, at, &text.as_slice()[start..], unit, image)? {
        text.truncate(start);
        add_data(text, unit)?;
    }
    Ok(())
}

/// The lines of all units, at the end of the text.
fn add_lines(alloc: Global, set: Set, bytes: &[u8], text: &mut Vec<u8>) -> Result<(), NoMemory>
    requires { length bytes.now ≤ 33554432 }
    ensures { OnOk result (text.new.items ≡ text.old.items ++ lines_of (is_thumb set) 0 (units set bytes.now)) }
{
    let mut image = Vec::new(alloc);
    let mut at = 0;
    while let Some(unit) = first_unit(set, &bytes[at..]) {
        add_line(alloc, set, at as u32, unit, text, &mut image)?;
        add(text, b"\n")?;
        at += unit.size();
    }
    Ok(())
}

/// The line `.thumb` before Thumb code.
fn add_heading(text: &mut Vec<u8>, set: Set) -> Result<(), AllocError>
    ensures { OnOk result (text.new.items ≡ text.old.items ++ heading (is_thumb set)) }
{
    match set {
        Set::Arm => Ok(()),
        Set::Thumb => add(text, b".thumb\n"),
    }
}

/// The bytes of a unit's line as data.
fn data_length(unit: Unit) -> usize {
    match unit {
        Unit::Word(_) => 16,
        Unit::Half(_) => 12,
        Unit::Call { .. } => 20,
        Unit::Byte(_) => 10,
    }
}

/// At least as many bytes as the listing has, and a few more only where a statement is left for data. No clause says
/// so: what is said of the listing holds whatever number this is.
fn enough_room(alloc: Global, set: Set, bytes: &[u8]) -> Result<usize, AllocError>
    requires { length bytes.now ≤ 33554432 }
{
    let mut line = Vec::new(alloc);
    let mut room = 7usize;
    let mut at = 0;
    while let Some(unit) = first_unit(set, &bytes[at..]) {
        line.clear();
        add_statement(&mut line, at as u32, unit)?;
        room = room.saturating_add(line.len().max(data_length(unit)).saturating_add(1));
        at += unit.size();
    }
    Ok(room)
}

#[tactic(auto, unfolding(crate::specs::Listing::listing))]
fn list_bytes(alloc: Global, bytes: &[u8], set: Set) -> Result<Vec<u8>, NoMemory>
    requires { length bytes.now ≤ 33554432 }
    ensures { IfOk result (λ text. text.items ≡ listing set bytes.now) }
{
    let room = enough_room(alloc, set, bytes)?;
    let mut text = Vec::with_capacity(alloc, room)?;
    add_heading(&mut text, set)?;
    add_lines(alloc, set, bytes, &mut text)?;
    Ok(text)
}

/// The listing of bytes that begin at address 0, as ARM or as Thumb code: a line for each word or halfword, its
/// statement, or its data where the statement wouldn't be assembled to the same bits there. The listing's memory is
/// asked for once, and that of a line beside it. No clause says that it is enough: were it not, the text would be moved
/// and be the same.
pub fn disassemble(alloc: Global, bytes: &[u8], set: Set) -> Result<Vec<u8>, NoMemory>
    requires { length bytes.now ≤ 33554432 }
    ensures listing { IfOk result (λ text. text.items ≡ listing set bytes.now) }
    ensures comes_back { IfOk result (λ text. Says text.items (Ok bytes.now)) }
{
    list_bytes(alloc, bytes, set)
}
