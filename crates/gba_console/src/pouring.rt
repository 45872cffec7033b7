//! A console's numbers and memories are replaced, which no step does: it goes on from where another one has come.

ghost use Rattle.std.specs.Prelude.{◌≡◌, ◌≤◌, ◌^◌};
ghost use Rattle.gba_ppu_reg.specs.Position.{IsPosition};
ghost use Rattle.gba_console.specs.Pouring.{CanPour, board_poured_at};

use crate::doing::Told;
use crate::{Console, What, due_at, first_on};
use gba_flash::FlashMachine;
use gba_io::{Board, BoardParts};
use gba_mem::MemoryPart;
use gba_psr::Registers;

/// What a console is made of beside its memories, the lines that are drawn, the changes of its keys, and the clock
/// below which it is off.
#[derive(Debug, Drop)]
pub struct ConsoleParts {
    pub registers: Registers,
    pub board: BoardParts,
    /// How many changes of the keys are applied.
    pub applied: usize,
    /// The clock at which the last step began, 0 before the first.
    pub was: u64,
}

/// What always holds of parts: the picture's place is one, and the console is one of those at its cable.
fn holds_of(parts: &BoardParts)
    ensures place { IsPosition parts.now.devices.place }
    ensures seat { 1 ≤ parts.now.serial.count }
{
    let _ = parts.devices.place();
    let _ = parts.serial.seat();
}

/// Pours parts and lines into the board of a console that is off below a clock.
fn pour_at(
    board: &mut Board,
    off: u64,
    was: u64,
    parts: BoardParts,
    lines: &[[u8; 480]],
    until: u64,
)
    requires off { off ≤ 2 ^ 39 }
    requires fit { CanPour was until parts lines.now }
    ensures { board.new ≡ board_poured_at off parts lines.now until board.old }
{
    let begin = first_on(off, parts.devices.clock());
    board.pour(parts, lines, until);
    board.begin_at(begin, until);
}

impl Console {
    ghost use Rattle.std.specs.Prelude.{◌≡◌, ◌+◌, ◌≤◌, length};
    ghost use Rattle.gba_flash.specs.Soundness.{IsSoundMachine};
    ghost use Rattle.gba_mem.specs.Backups.{backup_of};
    ghost use Rattle.gba_mem.specs.Replacing.{part_length};
    ghost use Rattle.gba_console.specs.Pouring.{CanPour, machine_cleared, machine_poured, machine_with_flash, machine_with_part};

    /// Puts these parts and lines beside the memories. The three lists are emptied and begin here, and `until` is the
    /// end of their room, as after [`Console::forget`]; which of them are kept stays. It takes no memory.
    pub fn pour(&mut self, parts: ConsoleParts, lines: &[[u8; 480]], until: u64)
        requires applied { parts.applied ≤ length self.old.keys }
        requires fit { CanPour parts.was until parts.board lines.now }
        ensures { self.new ≡ machine_poured parts lines.now until self.old }
    {
        let ConsoleParts {
            registers,
            board,
            applied,
            was,
        } = parts;
        holds_of(&board);
        let clock = board.devices.clock();
        self.registers = registers;
        pour_at(&mut self.board, self.off, was, board, lines, until);
        self.applied = applied;
        self.due = due_at(self.off, clock, self.keys.as_slice(), applied);
        self.cycles = (clock - was) as u32;
        self.told = Told::Aside;
        self.aside = What::Nothing;
    }

    /// Replaces bytes of a memory from a place on, which is no write of a program. The lines that are drawn stay.
    pub fn set_bytes(&mut self, part: MemoryPart, place: usize, bytes: &[u8])
        requires { place + length bytes.now ≤ part_length part self.old.board.core.memory }
        ensures { self.new ≡ machine_with_part part place bytes.now self.old }
    {
        self.board.core.set_bytes(part, place, bytes);
    }

    /// Makes every byte of the memories that are written 0, those of the SRAM or the flash too. The lines that are
    /// drawn stay.
    pub fn clear_memories(&mut self)
        ensures { self.new ≡ machine_cleared self.old }
    {
        self.board.core.clear_memories();
    }

    /// Lets the flash go on from where a machine has come. Nothing changes where there is none.
    pub fn restore_flash(&mut self, machine: FlashMachine)
        requires { IsSoundMachine (backup_of self.old.board.core.memory.backup) machine }
        ensures { self.new ≡ machine_with_flash machine self.old }
    {
        self.board.core.restore_flash(machine);
    }
}
