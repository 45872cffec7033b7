//! The statement of a word or halfword by itself.

ghost use Rattle.std.specs.Prelude.{◌≡◌, ◌<◌, ◌^◌, ◌++◌, IfOk, OnOk};
ghost use Rattle.gba_dis.specs.Listing.{gives, statement as statement_of};
ghost use Rattle.gba_dis.specs.Lone.{lone_pieces, lone_text, unit_of as numbered};
ghost use Rattle.gba_dis.specs.Pieces.{text_of};
ghost use Rattle.gba_dis.specs.Units.{bytes_of, is_thumb};
ghost use Rattle.gba_dis.specs.declared.units.Set.TheVariants.{Thumb};

use crate::listing::{add_data, add_statement, comes_back};
use crate::units::{Set, Unit};
use gba_terms::NoMemory;
use std::alloc::Global;

/// The word or halfword of this number.
fn unit_of(set: Set, number: u32) -> Unit
    requires { set ≡ Thumb → number < 2 ^ 16 }
    ensures { result ≡ numbered set number }
{
    match set {
        Set::Arm => Unit::Word(number),
        Set::Thumb => Unit::Half(number as u16),
    }
}

/// Whether a listing that begins with a unit has its statement.
fn is_told(alloc: Global, set: Set, unit: Unit) -> Result<bool, NoMemory>
    ensures { IfOk result (λ told. told ≡ gives (is_thumb set) 0 (text_of (statement_of 0 unit)) (bytes_of unit)) }
{
    let mut line = Vec::new(alloc);
    let mut image = Vec::new(alloc);
    add_statement(&mut line, 0, unit)?;
    comes_back(alloc, set, 0, line.as_slice(), unit, &mut image)
}

/// Adds the statement of one word, or in Thumb code of one halfword, as it stands at this address, or its data where a
/// listing has its data: the half of a BL too. An address is any number of 32 bits. There is no line feed behind it.
/// What is added has at most 100 bytes.
#[tactic(auto, unfolding(crate::specs::Lone::lone_pieces))]
pub fn statement(
    alloc: Global,
    address: u32,
    unit: u32,
    set: Set,
    into: &mut Vec<u8>,
) -> Result<(), NoMemory>
    requires { set ≡ Thumb → unit < 2 ^ 16 }
    ensures { OnOk result (into.new.items ≡ into.old.items ++ lone_text set address unit) }
{
    let unit = unit_of(set, unit);
    if is_told(alloc, set, unit)? {
        add_statement(into, address, unit)?;
    } else {
        add_data(into, unit)?;
    }
    Ok(())
}
