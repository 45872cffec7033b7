//! The two passes over a source: the first finds its labels, the second makes its bytes.

ghost use Rattle.std.specs.Prelude.{◌≡◌, ◌≤◌, ℕ, List, IfOk, length};
ghost use Rattle.gba_text.specs.Answers.{IsSaid, Parses};
ghost use Rattle.gba_text.specs.Languages.{answer_of};
ghost use Rattle.gba_asm.specs.Answers.{Adds, AddsLine, labels_in, line_error, refused_at};
ghost use Rattle.gba_asm.specs.Assembly.{assembly_of, line_bytes, lone_bytes, sources};
ghost use Rattle.gba_asm.specs.Places.{labels_of, place_after, start};

use crate::encoding::add_statement;
use crate::kinds::{AsmRefused, LineRefused};
use crate::labels::{Labels, find_labels};
use crate::places::{Place, fits};
use crate::statements::read_line;
use gba_asm_words::{AsmError, AsmKind};
use gba_text::Cursor;
use std::alloc::Global;

/// The most bytes of a source.
pub const LONGEST_SOURCE: usize = 1_073_741_824;

fn make_refusal(line: u64, refused: LineRefused) -> AsmRefused
    ensures { result ≡ refused_at line refused }
{
    match refused {
        LineRefused::Kind(kind) => AsmRefused::Source(AsmError { line, kind }),
        LineRefused::NoMemory => AsmRefused::NoMemory,
    }
}

/// Adds the bytes of a line, and says where the next one stands.
#[tactic(auto, unfolding(crate::specs::Assembly::line_bytes, crate::specs::Places::place_after))]
fn add_line<'a>(
    labels: &Labels<'a>,
    number: u64,
    place: Place,
    line: &'a [u8],
    image: &mut Vec<u8>,
) -> Result<Place, LineRefused>
    ensures bytes { Adds result image.old.items image.new.items
        (line_bytes (labels_in labels.now.places) number place line.now) }
    ensures place { IfOk result (λ p. p ≡ place_after place line.now) }
{
    let read = read_line(place.thumb, place.address, line);
    let sized = read.statement?;
    if !fits(place.address, sized.size) {
        return Err(LineRefused::Kind(AsmKind::Size));
    }
    if labels.is_repeated(number, read.label) {
        return Err(LineRefused::Kind(AsmKind::Repeated));
    }
    add_statement(labels, place.address, sized.statement, image)?;
    Ok(place.after(Ok(sized)))
}

/// The bytes of a source whose labels are known.
fn add_lines<'a>(
    alloc: Global,
    labels: &Labels<'a>,
    source: &'a [u8],
) -> Result<Vec<u8>, AsmRefused>
    requires labels { (name : List ℕ) → labels_in labels.now.places name ≡ labels_of source.now name }
    requires short { length source.now ≤ 1073741824 }
    ensures { Parses line_error (λ image. image.items) result (answer_of (sources (labels_of source.now)) source.now) }
{
    let mut image = Vec::new(alloc);
    let mut place = Place::start();
    let mut cursor = Cursor::new(source);
    while let Some(line) = cursor.line() {
        match add_line(labels, cursor.line_number(), place, line, &mut image) {
            Ok(next) => place = next,
            Err(refused) => return Err(make_refusal(cursor.line_number(), refused)),
        }
    }
    Ok(image)
}

#[tactic(auto, unfolding(crate::specs::Assembly::assembly_of, gba_text::specs::Languages::answer_of))]
fn assemble_lines(alloc: Global, source: &[u8]) -> Result<Vec<u8>, AsmRefused>
    ensures { Parses line_error (λ image. image.items) result (assembly_of source.now) }
{
    if source.len() > LONGEST_SOURCE {
        return Err(AsmRefused::Source(AsmError {
            line: 0,
            kind: AsmKind::Size,
        }));
    }
    let labels = find_labels(alloc, source)?;
    add_lines(alloc, &labels, source)
}

/// The bytes of a source, or its first refused line, with line 0 where the source has more than 1,073,741,824 bytes. It
/// takes memory for the labels and for the bytes.
pub fn assemble(alloc: Global, source: &[u8]) -> Result<Vec<u8>, AsmRefused>
    ensures said { IsSaid line_error (sources (labels_of source.now)) (λ image. image.items) source.now result }
    ensures bytes { Parses line_error (λ image. image.items) result (assembly_of source.now) }
{
    assemble_lines(alloc, source)
}

/// Adds the bytes of a line by itself at this address, in ARM or in Thumb state. No label is known, and a refusal has
/// line 1. After a refusal or want of memory some bytes may have been added.
#[tactic(auto, unfolding(crate::specs::Assembly::lone_bytes))]
pub fn assemble_line(
    alloc: Global,
    thumb: bool,
    address: u32,
    line: &[u8],
    image: &mut Vec<u8>,
) -> Result<(), AsmRefused>
    ensures { AddsLine result image.old.items image.new.items (lone_bytes thumb address line.now) }
{
    let labels = Labels::new(alloc);
    match add_line(&labels, 1, Place { address, thumb }, line, image) {
        Ok(_next) => Ok(()),
        Err(refused) => Err(make_refusal(1, refused)),
    }
}
