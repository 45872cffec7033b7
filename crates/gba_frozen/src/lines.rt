//! What each line says.

ghost use Rattle.std.specs.Prelude.{◌≡◌, ◌+◌, ◌^◌, ◌<◌, ◌≤◌, ◌==◌, ◌&&◌, true, length};
ghost use Rattle.std.specs.List.{list_all};
ghost use Rattle.gba_text.specs.Answers.{Agrees};
ghost use Rattle.gba_numbers.specs.Fields.{is_field};
ghost use Rattle.gba_numbers.specs.Ranges.{field_fits};
ghost use Rattle.gba_frozen.specs.Lines.{all_zero as all_zero_of, are_bytes as are_bytes_of, digest_line as digest_line_of, drawn_said, end_line as end_line_of, line_said, live_of, memory_said, queue_name as queue_name_of, queue_said, row_said, signal_said, slot_said, version_line as version_line_of, wave_said};
ghost use Rattle.gba_frozen.specs.Places.{is_place, is_slot};
ghost use Rattle.gba_frozen.specs.Rows.{all_fit as all_fit_of, count_of, field_of, in_time as in_time_of, is_row};
ghost use Rattle.gba_frozen.specs.Spelling.{is_digit, numbers_in, pieces};
ghost use Rattle.gba_frozen.specs.Views.{said_value};

use crate::kinds::{Setup, ThawKind};
use crate::pieces::Words;
use crate::places::{MemoryPlace, Place, Slot, backup, is_behind, is_below, is_row_place};
use crate::rows::{Row, count, field, keyword, row_number, row_spelling};
use crate::words::{
    are_hex_digits, byte_at, bytes_at, bytes_in, colours_at, decimal_at, end_at, exact, hex_at,
    memory_at, number_behind, offset_at, values_at, word_at,
};
use arrayvec::ArrayVec;
use gba_image::Backup;
use gba_numbers::{Field, fits};
use itoa::Buffer;
use link_node::{Signal, unpack};

/// The most bytes of a queue.
const MOST_OF_QUEUE: u64 = 32;

/// The line of a frame from which on no drawn line is kept.
const DRAWN_END: u64 = 159;

/// What a line of a frozen file says.
#[derive(Drop)]
pub enum FrozenLine {
    /// Nothing beyond itself: the first line, the job's digest, which is that of the job, or the last line.
    Nothing,
    /// The values of a row, in its order.
    Values {
        row: Row,
        values: ArrayVec<u64, 8>,
    },
    /// The current byte of a sound queue (0 for A and 1 for B), and the bytes that it holds, oldest first.
    Queue {
        queue: u32,
        current: u8,
        bytes: ArrayVec<u8, 32>,
    },
    /// The 16 bytes of a bank of channel 3's wave.
    Wave {
        bank: u32,
        bytes: ArrayVec<u8, 32>,
    },
    /// 32 bytes of a memory.
    Memory {
        place: MemoryPlace,
        bytes: ArrayVec<u8, 32>,
    },
    /// A drawn line of the present frame, and its 240 colours.
    Drawn {
        line: u32,
        colours: ArrayVec<u16, 240>,
    },
    /// A live signal and its sender.
    Live {
        sender: u32,
        signal: Signal,
    },
}

/// The first line.
#[tactic(auto, unfolding(crate::specs::Lines::version_line))]
fn version_line(mut words: Words<'_>) -> Result<FrozenLine, ThawKind>
    ensures { Agrees said_value result (version_line_of words.entry) }
{
    exact(&mut words, b"gbalink-frozen")?;
    exact(&mut words, b"1")?;
    end_at(&mut words)?;
    Ok(FrozenLine::Nothing)
}

/// The last line.
#[tactic(auto, unfolding(crate::specs::Lines::end_line))]
fn end_line(mut words: Words<'_>) -> Result<FrozenLine, ThawKind>
    ensures { Agrees said_value result (end_line_of words.entry) }
{
    exact(&mut words, b"end")?;
    end_at(&mut words)?;
    Ok(FrozenLine::Nothing)
}

/// The digest of the job.
#[tactic(auto, unfolding(crate::specs::Lines::digest_line))]
fn digest_line(mut words: Words<'_>, digest: &[u8; 32]) -> Result<FrozenLine, ThawKind>
    ensures { Agrees said_value result (digest_line_of digest.now words.entry) }
{
    exact(&mut words, b"job")?;
    let stated = bytes_at(&mut words, 32)?;
    end_at(&mut words)?;
    if stated.as_slice() != digest.as_slice() {
        return Err(ThawKind::Job);
    }
    Ok(FrozenLine::Nothing)
}

/// Whether a clock isn't more than 511 cycles behind the end of the job's run.
fn in_time(until: u64, field: Field, value: u64) -> bool
    requires { until < 2 ^ 63 }
    ensures { result ≡ in_time_of until field value }
{
    match field {
        Field::Clock => value <= until + 511,
        Field::Was => value <= until + 511,
        _ => true,
    }
}

/// Whether a value is in the range of its field, and in time.
fn fits_in_time(until: u64, field: Field, value: u64) -> bool
    requires until { until < 2 ^ 63 }
    requires known { is_field field ≡ true }
    ensures { result ≡ (field_fits field value && in_time_of until field value) }
{
    fits(field, value) && in_time(until, field, value)
}

/// Whether each value of a row is in the range of its field.
fn all_fit(until: u64, row: Row, values: &[u64]) -> bool
    requires until { until < 2 ^ 63 }
    requires row { is_row row ≡ true }
    requires count { length values.now ≡ count_of row }
    ensures { result ≡ all_fit_of until row 0 values.now }
{
    for (part, value) in values.iter().enumerate() {
        if !fits_in_time(until, field(row, part as u32), *value) {
            return false;
        }
    }
    true
}

/// A row.
#[tactic(auto, unfolding(crate::specs::Lines::row_said))]
fn row_line(mut words: Words<'_>, until: u64, row: Row) -> Result<FrozenLine, ThawKind>
    requires until { until < 2 ^ 63 }
    requires row { is_row row ≡ true }
    ensures line { Agrees said_value result (row_said until row words.entry) }
{
    exact(&mut words, keyword(row))?;
    number_behind(&mut words, row_number(row))?;
    let values = values_at(&mut words, row_spelling(row), count(row))?;
    end_at(&mut words)?;
    if !all_fit(until, row, values.as_slice()) {
        return Err(ThawKind::Number);
    }
    Ok(FrozenLine::Values { row, values })
}

/// The letter of a sound queue.
pub fn queue_name(queue: u32) -> &'static [u8]
    ensures value { result.now ≡ queue_name_of queue }
    ensures short { length result.now ≡ 1 }
{
    if queue == 0 { b"A" } else { b"B" }
}

/// Whether a word has just so many bytes, or a dash for none.
#[tactic(auto, unfolding(crate::specs::Lines::are_bytes))]
fn are_bytes(count: u64, word: &[u8]) -> bool
    ensures { result ≡ are_bytes_of count word.now }
{
    if count == 0 {
        return word == b"-".as_slice();
    }
    word.len() % 2 == 0 && (word.len() / 2) as u64 == count && are_hex_digits(word)
}

/// The bytes of a queue, of which there are 32 at most.
fn queue_bytes(count: u64, word: &[u8]) -> ArrayVec<u8, 32>
    requires few { count ≤ 32 }
    requires bytes { are_bytes_of count word.now ≡ true }
    ensures { result.items ≡ numbers_in 2 count word.now }
{
    if count == 0 {
        return ArrayVec::new();
    }
    bytes_in(word, count as usize)
}

/// A sound queue.
#[tactic(auto, unfolding(crate::specs::Lines::queue_said))]
fn queue_line(mut words: Words<'_>, queue: u32) -> Result<FrozenLine, ThawKind>
    ensures { Agrees said_value result (queue_said queue words.entry) }
{
    exact(&mut words, b"queue")?;
    exact(&mut words, queue_name(queue))?;
    let current = byte_at(&mut words)?;
    let count = decimal_at(&mut words)?;
    let word = word_at(&mut words)?;
    end_at(&mut words)?;
    if !are_bytes(count, word) {
        return Err(ThawKind::Spelling);
    }
    if count > MOST_OF_QUEUE {
        return Err(ThawKind::Number);
    }
    let bytes = queue_bytes(count, word);
    Ok(FrozenLine::Queue {
        queue,
        current,
        bytes,
    })
}

/// A bank of the wave.
#[tactic(auto, unfolding(crate::specs::Lines::wave_said))]
fn wave_line(mut words: Words<'_>, bank: u32) -> Result<FrozenLine, ThawKind>
    ensures { Agrees said_value result (wave_said bank words.entry) }
{
    exact(&mut words, b"wave")?;
    exact(&mut words, Buffer::new().format(bank).as_bytes())?;
    let bytes = bytes_at(&mut words, 16)?;
    end_at(&mut words)?;
    Ok(FrozenLine::Wave { bank, bytes })
}

fn is_zero(bytes: &[u8]) -> bool
    ensures { result ≡ all_zero_of bytes.now }
{
    bytes.iter().all(|byte| *byte == 0)
}

/// 32 bytes of a memory.
#[tactic(auto, unfolding(crate::specs::Lines::memory_said))]
fn memory_line(
    mut words: Words<'_>,
    backup: Backup,
    last: Option<MemoryPlace>,
) -> Result<FrozenLine, ThawKind>
    ensures { Agrees said_value result (memory_said backup last words.entry) }
{
    exact(&mut words, b"mem")?;
    let name = memory_at(&mut words)?;
    let offset = offset_at(&mut words)?;
    let bytes = bytes_at(&mut words, 32)?;
    end_at(&mut words)?;
    let place = MemoryPlace { name, offset };
    if !is_behind(last, place) {
        return Err(ThawKind::Spelling);
    }
    if is_zero(bytes.as_slice()) {
        return Err(ThawKind::Spelling);
    }
    if !is_row_place(backup, place) {
        return Err(ThawKind::Number);
    }
    Ok(FrozenLine::Memory { place, bytes })
}

/// A drawn line of the present frame.
#[tactic(auto, unfolding(crate::specs::Lines::drawn_said))]
fn drawn_line(mut words: Words<'_>, last: Option<u32>) -> Result<FrozenLine, ThawKind>
    ensures { Agrees said_value result (drawn_said last words.entry) }
{
    exact(&mut words, b"drawn")?;
    let line = decimal_at(&mut words)?;
    let colours = colours_at(&mut words)?;
    end_at(&mut words)?;
    if !is_below(last, line) {
        return Err(ThawKind::Spelling);
    }
    if line >= DRAWN_END {
        return Err(ThawKind::Number);
    }
    Ok(FrozenLine::Drawn {
        line: line as u32,
        colours,
    })
}

/// A live signal.
#[tactic(auto, unfolding(crate::specs::Lines::signal_said))]
fn signal_line(mut words: Words<'_>, consoles: u32) -> Result<FrozenLine, ThawKind>
    ensures { Agrees said_value result (signal_said consoles words.entry) }
{
    exact(&mut words, b"signal")?;
    let sender = decimal_at(&mut words)?;
    let head = hex_at(&mut words, 16)?;
    let parts = hex_at(&mut words, 16)?;
    end_at(&mut words)?;
    if sender >= u64::from(consoles) {
        return Err(ThawKind::Number);
    }
    match unpack(head, parts) {
        Some(signal) => Ok(FrozenLine::Live {
            sender: sender as u32,
            signal,
        }),
        None => Err(ThawKind::Number),
    }
}

/// What a line says, without its line feed, that stands at a place of a frozen file; or why it is refused: Spelling
/// goes before Number, and Number before Job.
#[tactic(auto, unfolding(crate::specs::Lines::slot_said, crate::specs::Places::is_slot))]
pub fn read_line(setup: &Setup, at: Place, line: &[u8]) -> Result<FrozenLine, ThawKind>
    requires until { setup.now.until < 2 ^ 63 }
    requires place { is_place at ≡ true }
    ensures { Agrees said_value result (line_said setup.now at line.now) }
{
    let words = Words::new(line);
    match at.slot {
        Slot::Version => version_line(words),
        Slot::Digest => digest_line(words, &setup.digest),
        Slot::Fixed(row) => row_line(words, setup.until, row),
        Slot::Queue(queue) => queue_line(words, queue),
        Slot::Wave(bank) => wave_line(words, bank),
        Slot::Memory(last) => memory_line(words, backup(setup, at.player), last),
        Slot::Drawn(last) => drawn_line(words, last),
        Slot::Signals => signal_line(words, setup.consoles),
        Slot::End => end_line(words),
        Slot::Past => Err(ThawKind::Spelling),
    }
}
