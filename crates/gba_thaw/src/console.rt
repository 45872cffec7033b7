//! A console of a job.

ghost use Rattle.std.specs.Prelude.{◌≡◌, ◌≤◌, ◌^◌, Some, None, true, length, if◌then◌else◌};
ghost use Rattle.gba_filling.specs.Memories.{HaveLengths, bytes_of};
ghost use Rattle.gba_numbers.specs.declared.names.MemoryName.TheVariants.{Io};
ghost use Rattle.gba_snapshot.specs.Console.{backup_in};
ghost use Rattle.gba_thaw.specs.Checks.{have_left as have_left_of};
ghost use Rattle.gba_thaw.specs.Console.{can_be_made as can_be_made_of, can_go_on as can_go_on_of};
ghost use Rattle.gba_thaw.specs.Console.{flash_thawed as flash_thawed_of, machine_thawed, parts_thawed as parts_thawed_of};
ghost use Rattle.gba_thaw.specs.Console.{state_numbered as state_numbered_of, with_memories};
ghost use Rattle.gba_thaw.specs.Loose.{loose_thawed};

use crate::checks::{
    are_applied, are_drawn, are_known, has_left, has_mode, is_aligned, is_sound_flash, is_timed,
    runs_rightly, single,
};
use crate::stored::has_stored_bits;
use gba_console::{Console, ConsoleParts};
use gba_filling::{Loose, Memories};
use gba_flash::{FlashMachine, FlashState};
use gba_io::BoardParts;
use gba_loose_devices::{are_sound_devices, board, has_status, registers};
use gba_mem::MemoryPart;
use gba_numbers::{Field, MemoryName, Numbers};
use gba_snapshot::io_bytes;

/// A state of the flash by its number.
fn state_numbered(number: u64) -> FlashState
    ensures { result ≡ state_numbered_of number }
{
    match number {
        0 => FlashState::Ready,
        1 => FlashState::First,
        2 => FlashState::Second,
        3 => FlashState::Program,
        _ => FlashState::Bank,
    }
}

/// What a flash remembers.
#[tactic(auto, unfolding(crate::specs::Console::flash_thawed, gba_numbers::specs::Fields::is_field, gba_numbers::specs::Fields::place_of))]
fn flash_thawed(numbers: &Numbers) -> FlashMachine
    ensures { result ≡ flash_thawed_of numbers.now }
{
    FlashMachine {
        state: state_numbered(single(numbers, Field::FlashState)),
        armed: single(numbers, Field::FlashArmed) == 1,
        identify: single(numbers, Field::FlashIdentify) == 1,
        bank: (single(numbers, Field::FlashBank) % 0x1_0000_0000) as u32,
    }
}

/// The bytes of the I/O registers.
fn io_of(loose: &Loose) -> [u8; 1024]
    requires { length (bytes_of Io loose.now.memories) ≡ 0x400 }
    ensures { result ≡ bytes_of Io loose.now.memories }
{
    let mut io = [0; 1024];
    io.copy_from_slice(loose.memories().bytes(MemoryName::Io));
    io
}

/// The parts of a console, where its devices, its processor and its flash can be made.
#[tactic(auto, unfolding(crate::specs::Console::can_be_made, gba_numbers::specs::Fields::is_field, gba_numbers::specs::Fields::place_of))]
fn parts_thawed(console: &Console, numbers: &Numbers, io: &[u8; 1024]) -> Option<ConsoleParts>
    ensures { result ≡ (if can_be_made_of console.now numbers.now io.now
        then Some (parts_thawed_of console.now numbers.now io.now) else None) }
{
    let core = &console.board().core;
    if !has_stored_bits(io)
        || !has_status(numbers)
        || !are_sound_devices(numbers, io)
        || !is_sound_flash(core.backup(), flash_thawed(numbers))
    {
        return None;
    }
    Some(ConsoleParts {
        registers: registers(numbers),
        board: board(core.serial().seat(), numbers, io),
        applied: single(numbers, Field::Applied) as usize,
        was: single(numbers, Field::Was),
    })
}

/// Whether all active channels have units left.
#[tactic(auto, unfolding(crate::specs::Checks::have_left, gba_loose_devices::specs::Devices::channels_poured))]
fn have_left(parts: &BoardParts) -> bool
    ensures { result ≡ have_left_of parts.now.devices.channels }
{
    let devices = parts.devices.set();
    has_left(devices.channel(0))
        && has_left(devices.channel(1))
        && has_left(devices.channel(2))
        && has_left(devices.channel(3))
}

/// Whether a run can go on from a console of these parts.
#[tactic(auto, unfolding(crate::specs::Console::can_go_on))]
fn can_go_on(
    until: u64,
    console: &Console,
    parts: &ConsoleParts,
    loose: &Loose,
    io: &[u8; 1024],
) -> bool
    requires until { until ≤ 2 ^ 39 }
    requires parts { parts.now ≡ parts_thawed_of console.now loose.now.numbers io.now }
    ensures { result ≡ can_go_on_of until console.now loose.now.numbers io.now loose.now.drawn }
{
    let numbers = loose.numbers();
    is_aligned(&parts.registers.all())
        && is_timed(until, numbers)
        && are_applied(console.keys(), io, numbers)
        && are_drawn(parts.board.devices.place(), loose.drawn())
        && have_left(&parts.board)
        && has_mode(numbers, &parts.board.serial)
        && runs_rightly(console.off(), numbers, &parts.board.serial)
        && are_known(&parts.board.serial)
}

/// Puts the bytes of memories into those of a console.
fn pour_memories(console: &mut Console, memories: &Memories)
    requires { HaveLengths (backup_in console.old) memories.now }
    ensures { console.new ≡ with_memories (λ name. bytes_of name memories.now) console.old }
{
    console.set_bytes(MemoryPart::Work, 0, memories.bytes(MemoryName::Wram));
    console.set_bytes(MemoryPart::Inner, 0, memories.bytes(MemoryName::Iwram));
    console.set_bytes(MemoryPart::Palette, 0, memories.bytes(MemoryName::Palette));
    console.set_bytes(MemoryPart::Vram, 0, memories.bytes(MemoryName::Vram));
    console.set_bytes(MemoryPart::Oam, 0, memories.bytes(MemoryName::Oam));
    console.set_bytes(MemoryPart::Backup, 0, memories.bytes(MemoryName::Backup));
}

/// Puts parts, memories and lines into a console.
#[tactic(auto, using(crate::proofs::Pours::can_pour, crate::proofs::Pours::has_flash), unfolding(gba_numbers::specs::Fields::is_field, gba_numbers::specs::Fields::place_of))]
fn pour_all(console: &mut Console, parts: ConsoleParts, loose: &Loose, io: &[u8; 1024], until: u64)
    requires lengths { HaveLengths (backup_in console.old) loose.now.memories }
    requires until { until ≤ 2 ^ 39 }
    requires parts { parts ≡ parts_thawed_of console.old loose.now.numbers io.now }
    requires io { io.now ≡ bytes_of Io loose.now.memories }
    requires made { can_be_made_of console.old loose.now.numbers io.now ≡ true }
    requires goes_on { can_go_on_of until console.old loose.now.numbers io.now loose.now.drawn ≡ true }
    ensures { console.new ≡ machine_thawed console.old loose.now.numbers (λ name. bytes_of name loose.now.memories)
        loose.now.drawn.lines }
{
    let clock = single(loose.numbers(), Field::Clock);
    pour_memories(console, loose.memories());
    console.restore_flash(flash_thawed(loose.numbers()));
    console.pour(parts, loose.drawn().lines(), clock.saturating_sub(511));
}

/// Makes a console at the start of its job the whole one that was filled, in a job of so many cycles; false where no
/// run can go on from that, and then nothing is promised of the console. It keeps its images, the changes of its keys,
/// the clock below which it is off, and which lists it keeps; these are empty, and it steps no further before they are
/// emptied for a segment. It takes no memory.
pub fn whole(loose: &Loose, console: &mut Console, until: u64) -> bool
    requires until { until ≤ 2 ^ 39 }
    requires lengths { HaveLengths (backup_in console.old) loose.now.memories }
    ensures { loose_thawed until console.old loose.now ≡ (if result then Some console.new else None) }
{
    let io = io_of(loose);
    let Some(parts) = parts_thawed(console, loose.numbers(), &io) else {
        return false;
    };
    if !can_go_on(until, console, &parts, loose, &io) {
        return false;
    }
    pour_all(console, parts, loose, &io, until);
    io_bytes(&console.board().core).as_slice() == io.as_slice()
}
