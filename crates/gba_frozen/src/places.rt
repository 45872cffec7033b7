//! The order of the lines: which may stand where, and which one follows.

ghost use Rattle.std.specs.Prelude.{◌≡◌, ◌<◌, ◌≤◌, true};
ghost use Rattle.gba_flash.specs.Flash.{is_flash as is_flash_of};
ghost use Rattle.gba_frozen.specs.Places.{after_console as after_console_of, after_memories as after_memories_of, after_row as after_row_of, backup_of, is_place as is_place_of, is_slot, first_word as first_word_of, is_behind as is_behind_of, is_below as is_below_of, is_left as is_left_of, is_row_place as is_row_place_of, left_for as left_for_of, memory_length as memory_length_of, memory_order as memory_order_of, next_place as next_place_of, place_for as place_for_of};
ghost use Rattle.gba_frozen.specs.Rows.{is_row as is_row_of};
ghost use Rattle.gba_frozen.specs.Spelling.{pieces};
ghost use Rattle.gba_image.specs.Backups.{backup_length as backup_length_of};

use crate::kinds::Setup;
use crate::pieces::Words;
use crate::rows::{Row, is_row};
use gba_image::Backup;
use gba_numbers::MemoryName;

/// The place of a line of memory: its name, and where its 32 bytes begin.
#[derive(Clone, Copy, Debug, PartialEq, Eq)]
pub struct MemoryPlace {
    pub name: MemoryName,
    pub offset: u32,
}

/// What stands at a place of a frozen file. Lines of memory, drawn lines and signals may stand there any number of
/// times; the first two know the last one that was read.
#[derive(Clone, Copy, Debug, PartialEq, Eq)]
pub enum Slot {
    Version,
    Digest,
    Fixed(Row),
    /// The number of a sound queue, 0 for A and 1 for B.
    Queue(u32),
    /// The number of a bank of channel 3's wave.
    Wave(u32),
    Memory(Option<MemoryPlace>),
    Drawn(Option<u32>),
    Signals,
    End,
    /// Behind the last line.
    Past,
}

/// Where a frozen file is read on: the player whose console it is, and what stands there.
#[derive(Clone, Copy, Debug, PartialEq, Eq)]
pub struct Place {
    pub player: u32,
    pub slot: Slot,
}

/// Whether the numbers in a place are ones of a player, a row, a queue and a bank.
#[tactic(auto, unfolding(crate::specs::Places::is_slot))]
pub fn is_place(at: Place) -> bool
    ensures { result ≡ is_place_of at }
{
    let slot = match at.slot {
        Slot::Fixed(row) => is_row(row),
        Slot::Queue(queue) => queue < 2,
        Slot::Wave(bank) => bank < 2,
        _ => true,
    };
    at.player < 4 && slot
}

/// The place of the first line.
pub const FIRST_PLACE: Place = Place {
    player: 0,
    slot: Slot::Version,
};

fn is_flash(backup: Backup) -> bool
    ensures { result ≡ is_flash_of backup }
{
    match backup {
        Backup::Sram => false,
        Backup::Flash64 | Backup::Flash128 => true,
    }
}

/// What stands behind a row of a player's console.
#[tactic(auto, unfolding(crate::specs::Places::after_row, crate::specs::Places::is_slot, crate::specs::Rows::is_row))]
fn after_row(player: u32, row: Row) -> Slot
    requires player { player < 4 }
    requires row { is_row_of row ≡ true }
    ensures value { result ≡ after_row_of player row }
    ensures slot { is_slot result ≡ true }
{
    match row {
        Row::Heading => Slot::Fixed(Row::Console(player)),
        Row::Console(_) => Slot::Fixed(Row::Clock),
        Row::Clock => Slot::Fixed(Row::Halted),
        Row::Halted => Slot::Fixed(Row::Register(0)),
        Row::Register(register) if register < 36 => Slot::Fixed(Row::Register(register + 1)),
        Row::Register(_) => Slot::Fixed(Row::Timer(0)),
        Row::Timer(timer) if timer < 3 => Slot::Fixed(Row::Timer(timer + 1)),
        Row::Timer(_) => Slot::Fixed(Row::Dma(0)),
        Row::Dma(channel) if channel < 3 => Slot::Fixed(Row::Dma(channel + 1)),
        Row::Dma(_) => Slot::Queue(0),
        Row::Sequencer => Slot::Fixed(Row::Tone(1)),
        Row::Tone(tone) if tone < 4 => Slot::Fixed(Row::Tone(tone + 1)),
        Row::Tone(_) => Slot::Wave(0),
        Row::Position => Slot::Fixed(Row::Affine(2)),
        Row::Affine(2) => Slot::Fixed(Row::Affine(3)),
        Row::Affine(_) => Slot::Fixed(Row::Serial),
        Row::Serial => Slot::Fixed(Row::Known),
        Row::Known => Slot::Memory(None),
        Row::Flash => Slot::Fixed(Row::Was),
        Row::Was => Slot::Fixed(Row::Applied),
        Row::Applied => Slot::Fixed(Row::Counts),
        Row::Counts => Slot::Drawn(None),
    }
}

/// What stands behind the memories: the line of the flash, where there is one.
#[tactic(auto, unfolding(crate::specs::Places::is_slot, crate::specs::Rows::is_row))]
fn after_memories(backup: Backup) -> Slot
    ensures value { result ≡ after_memories_of backup }
    ensures slot { is_slot result ≡ true }
{
    if is_flash(backup) {
        Slot::Fixed(Row::Flash)
    } else {
        Slot::Fixed(Row::Was)
    }
}

#[tactic(auto, unfolding(crate::specs::Places::is_slot, crate::specs::Rows::is_row))]
fn after_console(consoles: u32, player: u32) -> Place
    requires player { player < 4 }
    requires consoles { consoles ≤ 4 }
    ensures value { result ≡ after_console_of consoles player }
    ensures place { is_place_of result ≡ true }
{
    if player + 1 < consoles {
        Place {
            player: player + 1,
            slot: Slot::Fixed(Row::Heading),
        }
    } else {
        Place {
            player,
            slot: Slot::Signals,
        }
    }
}

/// What keeps the saves of a player's console.
pub(crate) fn backup(setup: &Setup, player: u32) -> Backup
    requires { player < 4 }
    ensures { result ≡ backup_of setup.now player }
{
    setup.backups[player as usize]
}

/// The place behind one, where no further line of its kind stands.
#[tactic(auto, unfolding(crate::specs::Places::next_by, crate::specs::Places::is_slot, crate::specs::Rows::is_row))]
pub fn next_place(setup: &Setup, at: Place) -> Place
    requires consoles { setup.now.consoles ≤ 4 }
    requires place { is_place_of at ≡ true }
    ensures value { result ≡ next_place_of setup.now at }
    ensures place { is_place_of result ≡ true }
{
    let player = at.player;
    let slot = match at.slot {
        Slot::Version => Slot::Digest,
        Slot::Digest => Slot::Fixed(Row::Heading),
        Slot::Fixed(row) => after_row(player, row),
        Slot::Queue(0) => Slot::Queue(1),
        Slot::Queue(_) => Slot::Fixed(Row::Sequencer),
        Slot::Wave(0) => Slot::Wave(1),
        Slot::Wave(_) => Slot::Fixed(Row::Position),
        Slot::Memory(_) => after_memories(backup(setup, player)),
        Slot::Drawn(_) => return after_console(setup.consoles, player),
        Slot::Signals => Slot::End,
        Slot::End => Slot::Past,
        Slot::Past => Slot::Past,
    };
    Place { player, slot }
}

/// The place of a memory in the order of the file.
fn memory_order(name: MemoryName) -> u32
    ensures { result ≡ memory_order_of name }
{
    match name {
        MemoryName::Io => 0,
        MemoryName::Wram => 1,
        MemoryName::Iwram => 2,
        MemoryName::Palette => 3,
        MemoryName::Vram => 4,
        MemoryName::Oam => 5,
        MemoryName::Backup => 6,
    }
}

/// How many bytes a memory has.
fn memory_length(backup: Backup, name: MemoryName) -> usize
    ensures { result ≡ memory_length_of backup name }
{
    match name {
        MemoryName::Io => 0x400,
        MemoryName::Wram => 0x4_0000,
        MemoryName::Iwram => 0x8000,
        MemoryName::Palette => 0x400,
        MemoryName::Vram => 0x1_8000,
        MemoryName::Oam => 0x400,
        MemoryName::Backup => backup.length(),
    }
}

/// Whether a line of memory stands behind another one.
#[tactic(auto, unfolding(crate::specs::Places::is_behind))]
pub(crate) fn is_behind(last: Option<MemoryPlace>, next: MemoryPlace) -> bool
    ensures { result ≡ is_behind_of last next }
{
    match last {
        Some(last) => {
            memory_order(last.name) < memory_order(next.name)
                || (memory_order(last.name) == memory_order(next.name) && last.offset < next.offset)
        }
        None => true,
    }
}

/// Whether 32 bytes of a memory begin at an offset.
#[tactic(auto, unfolding(crate::specs::Places::is_row_place))]
pub(crate) fn is_row_place(backup: Backup, place: MemoryPlace) -> bool
    ensures { result ≡ is_row_place_of backup place }
{
    place.offset % 32 == 0 && (place.offset as usize) < memory_length(backup, place.name)
}

/// Whether a drawn line stands behind another one.
#[tactic(auto, unfolding(crate::specs::Places::is_below))]
pub(crate) fn is_below(last: Option<u32>, line: u64) -> bool
    ensures { result ≡ is_below_of last line }
{
    match last {
        Some(last) => u64::from(last) < line,
        None => true,
    }
}

/// The first word of a line.
fn first_word(line: &[u8]) -> &[u8]
    ensures { result.now ≡ first_word_of (pieces line.now) }
{
    Words::new(line).next().unwrap_or(b"")
}

/// Whether a line may stand there any number of times, and this one isn't of its kind.
#[tactic(auto, unfolding(crate::specs::Places::is_left))]
fn is_left(slot: Slot, line: &[u8]) -> bool
    ensures { result ≡ is_left_of slot (pieces line.now) }
{
    match slot {
        Slot::Memory(_) => first_word(line) != b"mem".as_slice(),
        Slot::Drawn(_) => first_word(line) != b"drawn".as_slice(),
        Slot::Signals => first_word(line) != b"signal".as_slice(),
        _ => false,
    }
}

/// The place behind a slot that the line isn't of.
fn left_for(setup: &Setup, line: &[u8], at: Place) -> Place
    requires consoles { setup.now.consoles ≤ 4 }
    requires place { is_place_of at ≡ true }
    ensures value { result ≡ left_for_of setup.now (pieces line.now) at }
    ensures place { is_place_of result ≡ true }
{
    if is_left(at.slot, line) {
        next_place(setup, at)
    } else {
        at
    }
}

/// The place of a line that is read on at a place: behind the lines of memory, the drawn lines or the signals where it
/// isn't one of these.
pub fn place_for(setup: &Setup, line: &[u8], at: Place) -> Place
    requires consoles { setup.now.consoles ≤ 4 }
    requires place { is_place_of at ≡ true }
    ensures value { result ≡ place_for_of setup.now (pieces line.now) at }
    ensures place { is_place_of result ≡ true }
{
    left_for(setup, line, left_for(setup, line, at))
}
