//! A console is filled by hand, number by number, and made whole.

ghost use Rattle.std.specs.Prelude.{◌≡◌, IfOk};
ghost use Rattle.gba_filling.specs.Memories.{HaveLengths};
ghost use Rattle.gba_image.specs.declared.backup.Backup.{Backup};
ghost use Rattle.gba_snapshot.specs.Console.{backup_in};

use crate::cases::ALONE;
use crate::start::{job_of, start_of};
use gba_console::Console;
use gba_filling::Loose;
use gba_numbers::{BoardField, Field, MemoryName, fits, is_field};
use gba_thaw::whole;
use std::alloc::Global;
use std::process::Abort;
use std::test::Fail;

/// The cycles of the job.
const CYCLES: u64 = 1000;

/// What a console has behind a step of 3 cycles: it is at the third line, in no mode of the cable, and knows of no
/// other's. The other numbers are those of a console of which nothing was said.
static NUMBERS: [(Field, u64); 9] = [
    (Field::Clock, 5),
    (Field::Was, 2),
    (Field::Register(3), 0x1234_5678),
    (Field::Board(BoardField::Line), 2),
    (Field::Board(BoardField::SerialMode), 3),
    (Field::Board(BoardField::Known(0)), 3),
    (Field::Board(BoardField::Known(1)), 3),
    (Field::Board(BoardField::Known(2)), 3),
    (Field::Board(BoardField::Known(3)), 3),
];

/// Bytes of its memories that aren't 0: VCOUNT, SOUNDBIAS, KEYINPUT and RCNT (GBATEK, GBA I/O Map), and some of
/// the work RAM.
static BYTES: [(u32, MemoryName, &[u8]); 5] = [
    (0x006, MemoryName::Io, &[0x02]),
    (0x088, MemoryName::Io, &[0x00, 0x02]),
    (0x130, MemoryName::Io, &[0xFF, 0x03]),
    (0x134, MemoryName::Io, &[0x00, 0x80]),
    (0x123, MemoryName::Wram, &[0x0A, 0x0B, 0x0C]),
];

fn set<R: Abort>(rt: &R, loose: &mut Loose, field: Field, value: u64)
    ensures { loose.new.memories ≡ loose.old.memories }
{
    assert!(rt; is_field(field));
    assert!(rt; loose.numbers().has(field));
    assert!(rt; fits(field, value));
    loose.set(field, value);
}

fn set_numbers<R: Abort>(rt: &R, loose: &mut Loose)
    ensures { loose.new.memories ≡ loose.old.memories }
{
    for &(field, value) in &NUMBERS {
        set(rt, loose, field, value);
    }
}

fn set_memories<R: Abort>(rt: &R, loose: &mut Loose)
    ensures { (backup : Backup) → HaveLengths backup loose.old.memories → HaveLengths backup loose.new.memories }
{
    for &(offset, memory, bytes) in &BYTES {
        let length = loose.memories().bytes(memory).len();
        assert!(rt; offset as usize + bytes.len() <= length);
        loose.set_memory(offset, memory, bytes);
    }
}

/// The console of a job at its start.
fn console_of(alloc: Global) -> Result<Console, Fail> {
    let job = job_of(alloc, ALONE.job)?;
    let (mut consoles, _) = start_of(alloc, &job)?.part();
    Ok(consoles.pop().ok_or("no console")?)
}

/// One that is filled for a console.
fn filled<R: Abort>(rt: &R, alloc: Global, console: &Console) -> Result<Loose, Fail>
    ensures { IfOk result (λ loose. HaveLengths (backup_in console.now) loose.memories) }
{
    let mut loose = Loose::new(alloc, console.board().core.backup())?;
    set_numbers(rt, &mut loose);
    set_memories(rt, &mut loose);
    loose.set_drawn(&[0x1234; 480]);
    Ok(loose)
}

#[test]
fn a_filled_console_is_made_whole(rt: HostRuntime) -> Result<(), Fail> {
    let mut console = console_of(rt.alloc())?;
    let loose = filled(&rt, rt.alloc(), &console)?;
    assert!(rt; whole(&loose, &mut console, CYCLES));
    assert_eq!(rt; (console.clock(), console.was()), (5, 2));
    assert_eq!(rt; console.all()[3], 0x1234_5678);
    let core = &console.board().core;
    assert_eq!(rt; core.lines_drawn(), 2);
    assert_eq!(rt;
        core.memory(MemoryName::Wram).get(0x123..0x126),
        Some([0x0A, 0x0B, 0x0C].as_slice())
    );
    Ok(())
}

/// The same but for one number or for its drawn lines.
#[test]
fn others_are_not_whole(rt: HostRuntime) -> Result<(), Fail> {
    for &(field, value) in &[
        (Field::Was, 6),
        (Field::Board(BoardField::Line), 1),
        (Field::Board(BoardField::Known(0)), 2),
        (Field::Register(15), 2),
    ] {
        let mut console = console_of(rt.alloc())?;
        let mut loose = filled(&rt, rt.alloc(), &console)?;
        set(&rt, &mut loose, field, value);
        assert!(rt; !whole(&loose, &mut console, CYCLES), "{field:?}");
    }
    let mut console = console_of(rt.alloc())?;
    let mut loose = filled(&rt, rt.alloc(), &console)?;
    loose.set_drawn(&[0x1234; 240]);
    assert!(rt; !whole(&loose, &mut console, CYCLES));
    Ok(())
}
