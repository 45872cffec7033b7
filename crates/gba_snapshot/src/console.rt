//! The lines of a console.

ghost use Rattle.std.specs.Prelude.{◌≡◌, ◌+◌, ◌≤◌, ◌<◌, ◌++◌, true, length, map, vec_len, vec_capacity};
ghost use Rattle.std.specs.List.{list_all};
ghost use Rattle.gba_frozen.specs.Rows.{is_row};
ghost use Rattle.gba_frozen_text.specs.Text.{row_of, rows_behind, says_text};
ghost use Rattle.gba_snapshot.specs.Console.{backup_in, console_text, state_file};
ghost use Rattle.gba_snapshot.specs.Snapshot.{numbers_of};

use crate::drawn::add_lines;
use crate::memories::{add_backup, add_memories, have_lengths};
use crate::reading::Snapshot;
use gba_console::Console;
use gba_frozen::Row;
use gba_frozen_text::{add_numbers, add_rows};
use gba_image::Backup;

/// The room of a state file in bytes: each of its rows has at most 193, each of the two queues 98, each bank of the
/// wave 49, and each of the 12,384 lines of registers and memory 84.
pub const STATE_ROOM: usize = 1_051_937;

/// The room of a console in a frozen file: beside that of a state file, at most 4,096 lines of a backup, four rows of
/// at most 193, and 160 lines of at most 978.
pub const CONSOLE_ROOM: usize = 1_553_253;

/// The rows behind the memories.
static LAST_ROWS: [Row; 3] = [Row::Was, Row::Applied, Row::Counts];

/// The same where there is a flash.
static FLASH_ROWS: [Row; 4] = [Row::Flash, Row::Was, Row::Applied, Row::Counts];

/// Adds the state file of a console: 1,051,937 bytes are enough for any.
pub fn add_state(into: &mut Vec<u8>, console: &Console)
    requires { vec_len into.old + 1051937 ≤ vec_capacity into.old }
    ensures items { into.new.items ≡ into.old.items ++ state_file console.now }
    ensures len { vec_len into.new ≤ vec_len into.old + 1051937 }
    ensures room { vec_capacity into.old ≤ vec_capacity into.new }
{
    let core = &console.board().core;
    add_numbers(into, &Snapshot::new(console), core.serial().player());
    add_memories(into, core);
}

/// The rows behind the memories of a console.
#[tactic(auto, unfolding(gba_frozen_text::specs::Text::last_rows, gba_frozen::specs::Rows::is_row))]
fn rows_of(console: &Console) -> &'static [Row]
    ensures value { result.now ≡ rows_behind (backup_in console.now) }
    ensures rows { list_all is_row result.now ≡ true }
    ensures few { length result.now ≤ 4 }
{
    match console.board().core.backup() {
        Backup::Sram => &LAST_ROWS,
        Backup::Flash64 | Backup::Flash128 => &FLASH_ROWS,
    }
}

/// Adds a player's console as it stands in a frozen file: 1,553,253 bytes are enough for any.
pub fn add_console(into: &mut Vec<u8>, player: u32, console: &Console)
    requires player { player < 4 }
    requires room { vec_len into.old + 1553253 ≤ vec_capacity into.old }
    ensures items { into.new.items ≡ into.old.items ++ console_text player console.now }
    ensures len { vec_len into.new ≤ vec_len into.old + 1553253 }
    ensures room { vec_capacity into.old ≤ vec_capacity into.new }
{
    let core = &console.board().core;
    let snapshot = Snapshot::new(console);
    have_lengths(core);
    let _few = core.lines_drawn();
    add_numbers(into, &snapshot, player);
    add_memories(into, core);
    add_backup(into, core);
    add_rows(into, &snapshot, rows_of(console));
    add_lines(into, core);
}
