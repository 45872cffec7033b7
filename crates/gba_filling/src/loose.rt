//! A console that is being filled.

ghost use Rattle.std.specs.Prelude.{◌≡◌, ◌+◌, ◌*◌, ◌%◌, ◌≤◌, ℕ, true, IfOk, length};

use crate::drawn::Drawn;
use crate::memories::Memories;
use crate::rows::{set_queue, set_row, set_wave};
use gba_frozen::{FrozenLine, MemoryPlace};
use gba_image::Backup;
use gba_numbers::{Field, MemoryName, Numbers, fits};
use std::alloc::{AllocError, Global};
use std::marker::Model;

/// A console that is being filled. Its numbers are set one by one, each within its range; whether they go together, and
/// with the bytes of its I/O registers, is asked only of the whole. Contracts see the record of its numbers, of the
/// bytes of its memories, and of its drawn lines.
#[derive(Drop)]
pub struct Loose {
    numbers: Numbers,
    memories: Memories,
    drawn: Drawn,
}

impl Model for Loose {
    ghost use Rattle.gba_filling.specs.Loose.{LooseConsole};

    ghost Value = { LooseConsole };

    ghost view = { λ l. record { numbers = l.numbers; memories = l.memories; drawn = l.drawn } };
}

impl Loose {
    ghost use Rattle.gba_frozen.specs.Places.{backup_of};
    ghost use Rattle.gba_frozen.specs.Reading.{ConsoleDraft, console_at_first, with_line_of};
    ghost use Rattle.gba_frozen.specs.Views.{said_value};
    ghost use Rattle.gba_frozen.specs.declared.kinds.Setup.{Setup};
    ghost use Rattle.gba_frozen_read.specs.Thawed.{SaidFits};
    ghost use Rattle.gba_image.specs.declared.backup.Backup.{Backup};
    ghost use Rattle.gba_numbers.specs.Fields.{is_field, place_of};
    ghost use Rattle.gba_numbers.specs.Numbers.{is_there, value_of, with_value};
    ghost use Rattle.gba_numbers.specs.Ranges.{field_fits};
    ghost use Rattle.gba_filling.specs.Consoles.{IsFilled};
    ghost use Rattle.gba_filling.specs.Drawn.{lines_of};
    ghost use Rattle.gba_filling.specs.Loose.{with_numbers};
    ghost use Rattle.gba_filling.specs.Memories.{HaveLengths, bytes_of, with_memory};

    /// A console whose saves are kept so, of which nothing was said: its numbers are those of [`Numbers::new`], its
    /// bytes are 0, and no line is drawn. It takes all memory that it needs, about 600 kilobytes.
    pub fn new(alloc: Global, backup: Backup) -> Result<Loose, AllocError>
        ensures { IfOk result (λ loose. IsFilled backup console_at_first loose) }
    {
        Ok(Loose {
            numbers: Numbers::new(),
            memories: Memories::new(alloc, backup)?,
            drawn: Drawn::new(alloc)?,
        })
    }

    /// All numbers.
    pub fn numbers(&self) -> &Numbers
        ensures { result.now ≡ self.now.numbers }
    {
        &self.numbers
    }

    /// All memories.
    pub fn memories(&self) -> &Memories
        ensures { result.now ≡ self.now.memories }
    {
        &self.memories
    }

    /// The drawn lines.
    pub fn drawn(&self) -> &Drawn
        ensures { result.now ≡ self.now.drawn }
    {
        &self.drawn
    }

    /// A number. A byte of a queue has to be one of those that the queue holds.
    pub fn value(&self, field: Field) -> u64
        requires known { is_field field ≡ true }
        requires there { is_there (place_of field) self.now.numbers ≡ true }
        ensures { result ≡ value_of field self.now.numbers }
    {
        self.numbers.value(field)
    }

    /// Whether a value is in the range of a number, whatever the other numbers are, and whatever keeps the saves.
    pub fn fits(&self, field: Field, value: u64) -> bool
        requires { is_field field ≡ true }
        ensures { result ≡ field_fits field value }
    {
        fits(field, value)
    }

    /// Sets a number to one of its range. With the length of a queue its bytes below the new length stay, and
    /// new ones are
    /// 0. A byte of a queue has to be one of those that the queue holds.
    pub fn set(&mut self, field: Field, value: u64)
        requires known { is_field field ≡ true }
        requires there { is_there (place_of field) self.old.numbers ≡ true }
        requires fits { field_fits field value ≡ true }
        ensures { self.new ≡ with_numbers (with_value field value self.old.numbers) self.old }
    {
        self.numbers.set(field, value);
    }

    /// Puts bytes into a memory from an offset on.
    pub fn set_memory(&mut self, offset: u32, memory: MemoryName, bytes: &[u8])
        requires within { offset + length bytes.now ≤ length (bytes_of memory self.old.memories) }
        ensures put { self.new ≡ record self.old {
          memories = with_memory (record { name = memory; offset = offset }) bytes.now self.old.memories;
        } }
        ensures lengths { (backup : Backup) → HaveLengths backup self.old.memories
            → HaveLengths backup self.new.memories }
    {
        let place = MemoryPlace {
            name: memory,
            offset,
        };
        self.memories.put(place, bytes);
    }

    /// Sets all drawn lines, at most 159 of them, each of 240 colours, from the top down.
    pub fn set_drawn(&mut self, colours: &[u16])
        requires whole { length colours.now % 240 ≡ 0 }
        requires few { length colours.now ≤ 159 * 240 }
        ensures { self.new ≡ record self.old { drawn = lines_of colours.now } }
    {
        self.drawn.set(colours);
    }

    /// Keeps what a line of a frozen file says of it.
    pub(crate) fn keep(&mut self, said: &FrozenLine)
        requires { (setup : Setup) × (player : ℕ) × (draft : ConsoleDraft) × SaidFits setup player (said_value said.now)
            × IsFilled (backup_of setup player) draft self.old }
        ensures { (setup : Setup) (player : ℕ) (draft : ConsoleDraft) → SaidFits setup player (said_value said.now)
            → IsFilled (backup_of setup player) draft self.old
            → IsFilled (backup_of setup player) (with_line_of (said_value said.now) draft) self.new }
    {
        match said {
            FrozenLine::Nothing => {}
            FrozenLine::Values { row, values } => set_row(self, *row, values.as_slice()),
            FrozenLine::Queue {
                queue,
                current,
                bytes,
            } => set_queue(self, *queue, *current, bytes.as_slice()),
            FrozenLine::Wave { bank, bytes } => set_wave(self, *bank, bytes.as_slice()),
            FrozenLine::Memory { place, bytes } => {
                self.set_memory(place.offset, place.name, bytes.as_slice())
            }
            FrozenLine::Drawn { line, colours } => self.drawn.keep(*line, colours.as_slice()),
            FrozenLine::Live {
                sender: _,
                signal: _,
            } => {}
        }
    }
}
