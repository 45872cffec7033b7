//! The lines of the present frame that are drawn.

ghost use Rattle.std.specs.Prelude.{◌≡◌, ◌+◌, ◌*◌, ◌≤◌, ◌<◌, ◌++◌, length, map, slice_index_or, [], vec_len, vec_capacity};
ghost use Rattle.gba_frozen_text.specs.Text.{drawn_of, says_text};
ghost use Rattle.gba_frozen_print.specs.Printed.{drawn_text, ended};
ghost use Rattle.gba_loose_devices.specs.Values.{half_at};
ghost use Rattle.gba_snapshot.specs.Console.{colours_of, drawn_from};

use gba_frozen_print::add_drawn;
use gba_io::Core;

/// The colour whose bytes begin at a place.
fn colour(bytes: &[u8; 480], place: usize) -> u16
    requires { place + 1 < 480 }
    ensures { result ≡ half_at place bytes.now }
{
    u16::from_le_bytes([bytes[place], bytes[place + 1]])
}

/// The colours of a line.
fn colours(bytes: &[u8; 480]) -> [u16; 240]
    ensures { result ≡ colours_of bytes.now }
{
    let mut colours = [0; 240];
    for place in 0..240 {
        colours[place] = colour(bytes, 2 * place);
    }
    colours
}

/// Adds a line that is drawn.
fn add_line(into: &mut Vec<u8>, core: &Core, line: u32)
    requires drawn { line < length core.now.lines }
    requires room { vec_len into.old + 978 ≤ vec_capacity into.old }
    ensures items { into.new.items
        ≡ into.old.items ++ ended (drawn_text line (colours_of (slice_index_or core.now.lines line []))) }
    ensures len { vec_len into.new ≤ vec_len into.old + 978 }
    ensures room { vec_capacity into.old ≤ vec_capacity into.new }
{
    let mut bytes = [0; 480];
    core.line(line, &mut bytes);
    add_drawn(into, line, &colours(&bytes));
}

/// Adds all lines that are drawn: 978 bytes for each are enough.
pub(crate) fn add_lines(into: &mut Vec<u8>, core: &Core)
    requires { vec_len into.old + 978 * length core.now.lines ≤ vec_capacity into.old }
    ensures items { into.new.items ≡ into.old.items ++ says_text (map drawn_of (drawn_from 0 core.now.lines)) }
    ensures len { vec_len into.new ≤ vec_len into.old + 978 * length core.now.lines }
    ensures room { vec_capacity into.old ≤ vec_capacity into.new }
{
    for line in 0..core.lines_drawn() {
        add_line(into, core, line);
    }
}
