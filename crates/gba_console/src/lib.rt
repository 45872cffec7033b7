#![tactic(auto)]
//! A console: registers, a board and changes of the keys. What it is made of and how it is read stand here; how it goes
//! on stands in `one_step`, in the loops `plain_steps` and `idle_steps`, and in `many_steps`, which has the calls that
//! go through both. A call whose name begins with `step` makes one step, one that begins with `go` or `run` makes many.

ghost use Rattle.std.specs.Prelude.{◌≡◌, ◌+◌, ◌<◌, ◌≤◌, ◌^◌, All, IfOk, drop, length, vec_len, ℕ, List};
ghost use Rattle.gba_console.specs.Fixed.{Stands};
ghost use Rattle.gba_console.specs.Keys.{due_of, next_due};
ghost use Rattle.gba_console.specs.Machine.{first_on};

mod acting;
mod doing;
mod fixed;
mod hearing;
mod idle_steps;
mod keys;
pub mod laws;
mod many_steps;
mod node;
mod one_step;
mod plain_steps;
mod pouring;

use acting::{DECODED, place_of_half, place_of_word};
use doing::Told;
pub use doing::What;
use fixed::{KeptHalf, first_kept};
use gba_arm_exec::{Decoded as DecodedWord, decode_word};
use gba_image::ConsoleImages;
use gba_io::{Board, Counts, Room};
use gba_psr::Registers;
use gba_serial::Transfer;
use gba_terms::NoMemory;
pub use keys::KeyState;
pub use pouring::ConsoleParts;
use std::alloc::{AllocError, Global};
use std::marker::Model;

/// A table of the word 0, decoded.
fn words_of(alloc: Global, length: usize) -> Result<Vec<DecodedWord>, AllocError>
    ensures { IfOk result (λ table. vec_len table ≡ length) }
{
    let first = decode_word(0);
    vec![in alloc; first; length]
}

/// A table of the halfword 0, decoded.
fn halves_of(alloc: Global, length: usize) -> Result<Vec<KeptHalf>, AllocError>
    ensures length { IfOk result (λ table. vec_len table ≡ length) }
    ensures stand { IfOk result (λ table. (bios rom : List ℕ) → All (Stands bios rom) table.items) }
{
    let first = first_kept();
    vec![in alloc; first; length]
}

/// The clock of the first change that isn't applied yet, or one that no run reaches.
fn due_after(changes: &[KeyState], applied: usize) -> u64
    ensures { result ≡ due_of (drop applied changes.now) }
{
    if applied < changes.len() {
        changes[applied].clock
    } else {
        u64::MAX
    }
}

/// The same at a clock of a console that is off below another one: 0 while it is off.
fn due_at(off: u64, clock: u64, changes: &[KeyState], applied: usize) -> u64
    ensures { result ≡ next_due off clock (drop applied changes.now) }
{
    if clock < off {
        0
    } else {
        due_after(changes, applied)
    }
}

/// The clock of the first step with which a console is on that is off below a clock, from another clock: up to it its
/// clock rises by 16 at a time.
fn first_on(off: u64, clock: u64) -> u64
    requires off { off ≤ 2 ^ 39 }
    requires clock { clock ≤ 2 ^ 39 + 511 }
    ensures value { result ≡ first_on off clock }
    ensures later { clock ≤ result }
    ensures few { result ≤ 2 ^ 39 + 511 }
{
    clock + (off.saturating_sub(clock) + 15) / 16 * 16
}

/// A Game Boy Advance. Contracts see the record `Machine`.
#[derive(Drop)]
pub struct Console {
    registers: Registers,
    board: Board,
    // The key changes, how many of them are applied, and the clock of the next one, which is 0 while the console is
    // off, so that no step is plain.
    keys: Vec<KeyState>,
    applied: usize,
    due: u64,
    // The clock below which it is off.
    off: u64,
    // The cycles of the last step, and where it stands what it did: an instruction by its address and by the entry
    // there in the table of decoded words or halfwords.
    cycles: u32,
    told: Told,
    at: u32,
    aside: What,
    // Words and halfwords that were decoded at their addresses. An entry counts only where it is the one that is read,
    // or stands where nothing is written.
    words: Vec<DecodedWord>,
    halves: Vec<KeptHalf>,
}

impl Model for Console {
    ghost use Rattle.gba_console.specs.Doing.{told_by};
    ghost use Rattle.gba_console.specs.Keys.{next_due};
    ghost use Rattle.gba_console.specs.Machine.{Machine};
    ghost use Rattle.gba_console.specs.Fixed.{Stands};
    ghost use Rattle.gba_console.specs.Waiting.{IsKept};
    ghost use Rattle.std.specs.Prelude.{◌≡◌, ◌-◌, ◌≤◌, All, drop, vec_len};

    ghost Value = { Machine };

    ghost view = { λ c. record {
      registers = c.registers;
      board = c.board;
      keys = c.keys.items;
      applied = c.applied;
      off = c.off;
      was = c.board.core.devices.clock - c.cycles;
      last = told_by c.told c.at c.aside c.words.items c.halves.items;
    } };

    ghost invariant = { λ c.
        (vec_len c.words ≡ 4096) × (vec_len c.halves ≡ 4096) × (c.applied ≤ vec_len c.keys)
        × (c.due ≡ next_due c.off c.board.core.devices.clock (drop c.applied c.keys.items))
        × (c.cycles ≤ c.board.core.devices.clock) × IsKept c.off (c.board.core.devices.clock - c.cycles) c.board
        × All (Stands c.board.core.memory.bios c.board.core.memory.rom) c.halves.items };
}

impl Console {
    ghost use Rattle.std.specs.Prelude.{◌≡◌, ◌+◌, ◌≤◌, ◌<◌, ◌^◌, IfOk, length, true, false};
    ghost use Rattle.gba_console.specs.Keys.{due_of};
    ghost use Rattle.gba_console.specs.Machine.{clock_of, forgotten, left_of, limit_of, player_of, reset, without_limit};
    ghost use Rattle.gba_image.specs.Checks.{SaveFits};
    ghost use Rattle.gba_serial.specs.Apart.{next_end};

    /// A console at reset, at clock 0, of a player below `count`, on a cable of 1 to 4 consoles whose signals take
    /// `round` cycles from player 0 to player 1 and back, from 2 to 2,048, from its images, whose save was checked for
    /// their backup, and the changes of its keys; they are dropped on refusal. Below the clock `off` it is off: no
    /// device moves, due signals only tell the modes of its peers, key changes are applied, and each step takes 16
    /// cycles (this project's profile); 0 means from the start on. It takes the memory of its RAM, of the decoded
    /// instructions and of all that it keeps of what it makes in 2^24 cycles, and no more later: it runs up to
    /// `room.until`, at most 2^24, and on after a call of `forget`.
    pub fn new(
        alloc: Global,
        player: u32,
        count: u32,
        round: u64,
        off: u64,
        images: ConsoleImages,
        keys: Vec<KeyState>,
        room: Room,
    ) -> Result<Console, NoMemory>
        requires player { player < count }
        requires count { count ≤ 4 }
        requires least_round { 2 ≤ round }
        requires most_round { round ≤ 2048 }
        requires off { off ≤ 2 ^ 39 }
        requires until { room.until ≤ 16777216 }
        requires save { SaveFits images.save images.backup }
        ensures { IfOk result (λ console. console
            ≡ reset player count round off images.bios images.cart images.save images.backup keys.items room) }
    {
        let mut board = Board::new(alloc, player, count, round, images, room)?;
        board.begin_at(first_on(off, 0), room.until);
        Ok(Console {
            registers: Registers::reset(),
            board,
            due: due_at(off, 0, keys.as_slice(), 0),
            off,
            keys,
            applied: 0,
            cycles: 0,
            told: Told::Aside,
            at: 0,
            aside: What::Nothing,
            words: words_of(alloc, DECODED)?,
            halves: halves_of(alloc, DECODED)?,
        })
    }

    /// The clock: cycles of 16,777,216 Hz since reset.
    pub fn clock(&self) -> u64
        ensures value { result ≡ clock_of self.now }
        ensures small { result ≤ 2 ^ 39 + 511 }
    {
        self.board.core.clock()
    }

    /// The clock at which the last step began, 0 before the first.
    pub fn was(&self) -> u64
        ensures { result ≡ self.now.was }
    {
        self.board.core.clock() - u64::from(self.cycles)
    }

    /// The end of its room: the last step begins below this clock.
    pub fn until(&self) -> u64
        ensures value { result ≡ self.now.board.made.until }
        ensures small { result ≤ 2 ^ 39 }
    {
        self.board.made.until()
    }

    /// What the last step did: Nothing before the first one, and after a call of `forget`.
    pub fn last(&self) -> What
        ensures { result ≡ self.now.last }
    {
        match self.told {
            Told::Word => What::Arm {
                address: self.at,
                word: self.words[place_of_word(self.at)].word,
            },
            Told::Half => What::Thumb {
                address: self.at,
                half: self.halves[place_of_half(self.at)].decoded.half,
            },
            Told::Aside => self.aside,
        }
    }

    /// The changes of its keys that it was made with, in their order.
    pub fn keys(&self) -> &[KeyState]
        ensures { result.now ≡ self.now.keys }
    {
        self.keys.as_slice()
    }

    /// How many changes of its keys are applied.
    pub fn applied(&self) -> u64
        ensures value { result ≡ self.now.applied }
        ensures most { result ≤ length self.now.keys }
    {
        self.applied as u64
    }

    /// The clock below which it is off, 0 where it is on from the start.
    pub fn off(&self) -> u64
        ensures { result ≡ self.now.off }
    {
        self.off
    }

    /// The registers of the processor.
    pub fn registers(&self) -> &Registers
        ensures { result.now ≡ self.now.registers }
    {
        &self.registers
    }

    /// The player of this console, from 0.
    pub fn player(&self) -> u32
        ensures { result ≡ player_of self.now }
    {
        self.board.core.serial().player()
    }

    /// The 37 registers in the order of the state file.
    pub fn all(&self) -> [u32; 37]
        ensures { result ≡ self.now.registers }
    {
        self.registers.all()
    }

    /// The memories, the devices and what they made.
    pub fn board(&self) -> &Board
        ensures { result.now ≡ self.now.board }
    {
        &self.board
    }

    /// The pairs of samples, left then right, 16 bits each in two's complement, low byte first: 32,768 pairs a second.
    /// Empty where they aren't kept.
    pub fn samples(&self) -> &[u8]
        ensures { result.now ≡ self.now.board.made.samples }
    {
        self.board.made.samples()
    }

    /// The whole frames, each of 160 lines of 240 colours: 16 bits each, low byte first, of which the lowest five are
    /// red, the next green and then blue. Empty where they aren't kept.
    pub fn frames(&self) -> &[u8]
        ensures { result.now ≡ self.now.board.made.frames }
    {
        self.board.made.frames()
    }

    /// The transfers that ended since the last call of `forget`, in the order of their ends, which are at least 512
    /// cycles apart. Empty where they aren't kept.
    pub fn words(&self) -> &[Transfer]
        ensures words { result.now ≡ self.now.board.ended.words }
        ensures few { length result.now ≤ 32770 }
    {
        self.board.words()
    }

    /// How much was made, whether it is kept or not.
    pub fn counts(&self) -> Counts
        ensures frames { result.frames ≡ self.now.board.made.frame_count }
        ensures samples { result.samples ≡ self.now.board.made.pairs }
        ensures words { result.words ≡ self.now.board.ended.count }
    {
        self.board.counts()
    }

    /// Empties the lists of whole frames, pairs of samples and ended transfers, all of which stay counted, forgets what
    /// the last step did, and makes `until` the end of its room: the clock below which the last step begins, at most
    /// 511 cycles back, and at most 2^24 cycles on.
    pub fn forget(&mut self, until: u64)
        requires most { until ≤ 2 ^ 39 }
        requires later { clock_of self.old ≤ until + 511 }
        requires near { until ≤ clock_of self.old + 16777216 }
        ensures plain { without_limit self.new ≡ forgotten (without_limit self.old) }
        ensures limit { limit_of self.new ≡ until }
    {
        if self.is_off() {
            let begin = first_on(self.off, self.clock());
            self.board.begin_at(begin, until);
        } else {
            self.board.forget(until);
        }
        self.told = Told::Aside;
        self.aside = What::Nothing;
    }

    /// Whether the console is off.
    fn is_off(&self) -> bool
        ensures on { result ≡ false → self.now.off ≤ clock_of self.now }
        ensures off { result ≡ true → clock_of self.now < self.now.off }
    {
        self.clock() < self.off
    }

    /// The clock of the next change of the keys, or one that no run reaches; 0 while the console is off.
    fn due(&self) -> u64
        ensures on { clock_of self.now < result → self.now.off ≤ clock_of self.now }
        ensures early { result ≤ due_of (left_of self.now) }
    {
        self.due
    }

    /// The clock at which the transfer ends that runs, or one that no run reaches.
    fn next_end(&self) -> u64
        ensures { result ≡ next_end self.now.board.core.serial }
    {
        self.board.core.serial().next_end()
    }
}
