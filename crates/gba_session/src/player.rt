//! What is kept of a player beside its console: the bytes of the last segment.

ghost use Rattle.std.specs.Prelude.{◌≡◌, ◌*◌, ◌≤◌, [], IfOk, length, true, vec_capacity};
ghost use Rattle.gba_output.specs.StateFile.{save_file, state_file};
ghost use Rattle.gba_output.specs.TransferWords.{words_text};

use gba_console::Console;
use gba_io::SEGMENT_WORDS;
use gba_joblog::PerKind;
use gba_output::{SAVE_ROOM, STATE_ROOM, WORDS_ROOM, write_save, write_state, write_words};
use gba_serial::Transfer;
use std::alloc::{AllocError, Global};

/// A buffer with room for so many bytes where they are asked for.
fn room_if(alloc: Global, asked: bool, bytes: usize) -> Result<Vec<u8>, AllocError>
    ensures empty { IfOk result (λ room. room.items ≡ []) }
    ensures room { IfOk result (λ room. asked ≡ true → bytes ≤ vec_capacity room) }
{
    if asked {
        Vec::with_capacity(alloc, bytes)
    } else {
        Ok(Vec::new(alloc))
    }
}

/// Writes the words of transfers in place of what the buffer has, where they are asked for.
fn put_words(asked: bool, into: &mut Vec<u8>, transfers: &[Transfer])
    requires { asked ≡ true → 49 * length transfers.now ≤ vec_capacity into.old }
    ensures items { asked ≡ true → into.new.items ≡ words_text transfers.now }
    ensures room { vec_capacity into.old ≤ vec_capacity into.new }
{
    if asked {
        into.clear();
        write_words(into, transfers);
    }
}

/// Writes the state file in place of what the buffer has, where it is asked for.
fn put_state(asked: bool, into: &mut Vec<u8>, console: &Console)
    requires { asked ≡ true → 1051937 ≤ vec_capacity into.old }
    ensures items { asked ≡ true → into.new.items ≡ state_file console.now }
    ensures room { vec_capacity into.old ≤ vec_capacity into.new }
{
    if asked {
        into.clear();
        write_state(into, console);
    }
}

/// Writes the save in place of what the buffer has, where it is asked for.
fn put_save(asked: bool, into: &mut Vec<u8>, console: &Console)
    requires { asked ≡ true → 131072 ≤ vec_capacity into.old }
    ensures items { asked ≡ true → into.new.items ≡ save_file console.now }
    ensures room { vec_capacity into.old ≤ vec_capacity into.new }
{
    if asked {
        into.clear();
        write_save(into, console);
    }
}

/// What a player is asked for, and the bytes of the last segment that its console doesn't have itself.
#[derive(Drop)]
pub(crate) struct Player {
    pub(crate) asks: PerKind<bool>,
    pub(crate) words: Vec<u8>,
    pub(crate) state: Vec<u8>,
    pub(crate) save: Vec<u8>,
}

impl Player {
    ghost use Rattle.std.specs.Prelude.{◌≡◌, IfOk};
    ghost use Rattle.gba_session.specs.Held.{HasRoom, HasTaken, IsUnused};

    /// A player with nothing written, and with the room that the pieces of a segment need.
    pub(crate) fn new(alloc: Global, asks: PerKind<bool>) -> Result<Player, AllocError>
        ensures asks { IfOk result (λ player. player.asks ≡ asks) }
        ensures unused { IfOk result IsUnused }
    {
        Ok(Player {
            asks,
            words: room_if(alloc, asks.words, SEGMENT_WORDS * WORDS_ROOM)?,
            state: room_if(alloc, asks.state, STATE_ROOM)?,
            save: room_if(alloc, asks.save, SAVE_ROOM)?,
        })
    }

    /// Takes the pieces of a segment from its console, and state and save where the run is over.
    pub(crate) fn take(&mut self, console: &Console, over: bool)
        requires { HasRoom self.old }
        ensures { HasTaken over self.old console.now self.new }
    {
        put_words(self.asks.words, &mut self.words, console.words());
        if over {
            put_state(self.asks.state, &mut self.state, console);
            put_save(self.asks.save, &mut self.save, console);
        }
    }
}
