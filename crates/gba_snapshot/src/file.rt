//! The frozen file of consoles on their cable.

ghost use Rattle.std.specs.Prelude.{◌≡◌, ◌+◌, ◌*◌, ◌≤◌, ◌++◌, length, vec_len, vec_capacity};
ghost use Rattle.gba_snapshot.specs.File.{consoles_text, frozen_file, signals_text};

use crate::console::add_console;
use gba_console::Console;
use gba_frozen_print::{add_digest, add_end, add_signal, add_version};
use link_core::Cut;

/// The room of a frozen file in bytes: the first two lines and the last one have 90, each of at most four consoles
/// 1,553,253, and each of at most 10,236 signals 52.
pub const FROZEN_ROOM: usize = 6_745_374;

/// Adds the lines of the consoles.
fn add_consoles(into: &mut Vec<u8>, consoles: &[Console])
    requires few { length consoles.now ≤ 4 }
    requires room { vec_len into.old + 1553253 * length consoles.now ≤ vec_capacity into.old }
    ensures items { into.new.items ≡ into.old.items ++ consoles_text 0 consoles.now }
    ensures len { vec_len into.new ≤ vec_len into.old + 1553253 * length consoles.now }
    ensures room { vec_capacity into.old ≤ vec_capacity into.new }
{
    for player in 0..consoles.len() {
        add_console(into, player as u32, &consoles[player]);
    }
}

/// Adds the lines of all signals.
fn add_signals(into: &mut Vec<u8>, cut: &Cut<Console>)
    requires room { vec_len into.old + 52 * length cut.now.sent ≤ vec_capacity into.old }
    ensures items { into.new.items ≡ into.old.items ++ signals_text cut.now.sent }
    ensures len { vec_len into.new ≤ vec_len into.old + 52 * length cut.now.sent }
    ensures room { vec_capacity into.old ≤ vec_capacity into.new }
{
    let sent = cut.sent();
    let nodes = cut.nodes();
    for place in 0..sent.len() {
        let one = sent[place];
        let _later = nodes[one.sender as usize].clock();
        add_signal(into, one.sender, &one.signal);
    }
}

/// Adds the frozen file of consoles on their cable, for the job of a digest, which is the SHA-256 of the job's log
/// without the digests of its outputs: 6,745,374 bytes are enough for any. It takes no memory.
pub fn freeze(into: &mut Vec<u8>, digest: &[u8; 32], cut: &Cut<Console>)
    requires room { vec_len into.old + 6745374 ≤ vec_capacity into.old }
    ensures items { into.new.items ≡ into.old.items ++ frozen_file digest.now cut.now }
    ensures room { vec_capacity into.old ≤ vec_capacity into.new }
{
    let _few = cut.sent();
    add_version(into);
    add_digest(into, digest);
    add_consoles(into, cut.nodes());
    add_signals(into, cut);
    add_end(into);
}
