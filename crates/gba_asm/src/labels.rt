//! The labels of a source.

ghost use Rattle.std.specs.Prelude.{◌≡◌, ◌≤◌, ℕ, List, None, IfOk, OnOk, option_map, length};
ghost use Rattle.gba_text.specs.Lines.{lines};
ghost use Rattle.gba_asm.specs.Answers.{labels_in};
ghost use Rattle.gba_asm.specs.Places.{is_repeated, labels_of, with_label};

use crate::places::Place;
use crate::statements::read_line;
use gba_text::Cursor;
use std::alloc::{AllocError, Global};
use std::collections::BTreeMap;

/// Where a label is.
#[derive(Clone, Copy)]
pub(crate) struct LabelPlace {
    /// The number of the first line that has it.
    pub(crate) line: u64,
    /// The address of what follows it.
    pub(crate) address: u32,
}

/// The labels of a source, by their names.
#[derive(Drop)]
pub(crate) struct Labels<'a> {
    places: BTreeMap<&'a [u8], LabelPlace>,
}

impl<'a> Labels<'a> {
    /// No labels.
    pub(crate) fn new(alloc: Global) -> Labels<'a>
        ensures { (name : List ℕ) → labels_in result.places name ≡ None }
    {
        Labels {
            places: BTreeMap::new(alloc),
        }
    }

    /// Where the label of this name is.
    pub(crate) fn get(&self, name: &'a [u8]) -> Option<LabelPlace>
        ensures { result ≡ labels_in self.now.places name.now }
    {
        match self.places.get(name) {
            Some(place) => Some(*place),
            None => None,
        }
    }

    /// A label more, unless an earlier line has it.
    fn add(&mut self, line: u64, address: u32, label: Option<&'a [u8]>) -> Result<(), AllocError>
        ensures { OnOk result ((name : List ℕ) → labels_in self.new.places name
            ≡ with_label line address (option_map (λ l. l.now) label.entry) (labels_in self.old.places) name) }
    {
        let Some(name) = label else {
            return Ok(());
        };
        if self.get(name).is_some() {
            return Ok(());
        }
        self.places.insert(name, LabelPlace { line, address })?;
        Ok(())
    }

    /// Whether an earlier line than the one of this number has its label.
    pub(crate) fn is_repeated(&self, line: u64, label: Option<&'a [u8]>) -> bool
        ensures { result ≡ is_repeated (labels_in self.now.places) line (option_map (λ l. l.now) label.entry) }
    {
        let Some(name) = label else {
            return false;
        };
        match self.get(name) {
            Some(place) => place.line != line,
            None => false,
        }
    }
}

/// The labels of a source.
pub(crate) fn find_labels(alloc: Global, source: &[u8]) -> Result<Labels<'_>, AllocError>
    requires { length source.now ≤ 1073741824 }
    ensures { IfOk result (λ labels. (name : List ℕ) → labels_in labels.places name ≡ labels_of source.now name) }
{
    let mut labels = Labels::new(alloc);
    let mut place = Place::start();
    let mut cursor = Cursor::new(source);
    while let Some(line) = cursor.line() {
        let read = read_line(place.thumb, place.address, line);
        labels.add(cursor.line_number(), place.address, read.label)?;
        place = place.after(read.statement);
    }
    Ok(labels)
}
