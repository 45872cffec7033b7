//! The transfers that ended.

ghost use Rattle.std.specs.Prelude.{◌≡◌, ◌+◌, ◌≤◌, ◌++◌, ◌∷◌, [], vec_len, vec_capacity};

use crate::{Base, Room};
use gba_serial::Transfer;
use gba_terms::NoMemory;
use std::alloc::Global;
use std::marker::Model;

/// The transfers that ended. The room for all that are kept of 2^24 cycles is taken at once.
#[derive(Drop)]
pub struct Ended {
    keeps_words: bool,
    until: u64,
    words: Vec<Transfer>,
    count: u64,
    base: Base,
}

impl Model for Ended {
    ghost use Rattle.std.specs.Prelude.{◌≡◌, ◌+◌, ◌≤◌, true, vec_len, vec_capacity};
    ghost use Rattle.gba_io.specs.Base.{IsBase};
    ghost use Rattle.gba_io.specs.Ended.{Ended};

    ghost Value = { Ended };

    ghost view = { λ e. record {
      keeps_words = e.keeps_words;
      until = e.until;
      words = e.words.items;
      count = e.count;
      base = e.base;
    } };

    ghost invariant = { λ e.
        (e.keeps_words ≡ true → 32770 ≤ vec_capacity e.words) × (vec_len e.words ≤ 32770)
        × (vec_len e.words + e.base.words ≤ e.count) × (e.until ≤ e.base.clock + 16777216) × IsBase e.base };
}

/// The most transfers of a segment, which is 2^24 cycles long at most.
pub const SEGMENT_WORDS: usize = 32_770;

/// Adds a transfer, for which there is room.
fn push(words: &mut Vec<Transfer>, transfer: Transfer)
    requires { vec_len words.old + 1 ≤ vec_capacity words.old }
    ensures items { words.new.items ≡ words.old.items ++ (transfer ∷ []) }
    ensures len { vec_len words.new ≡ vec_len words.old + 1 }
    ensures room { vec_capacity words.old ≤ vec_capacity words.new }
{
    if words.push(transfer).is_err() {
        unreachable!()
    }
}

impl Ended {
    ghost use Rattle.std.specs.Prelude.{◌+◌, ◌<◌, ◌≤◌, IfOk, Some, length, ◌^◌};
    ghost use Rattle.gba_io.specs.Base.{IsBase, begun_at, words_from};
    ghost use Rattle.gba_io.specs.Ended.{ended_counted, ended_emptied, ended_from, none_ended, with_transfer};

    /// None yet, with room for all that are kept of 2^24 cycles: they end at least 512 cycles apart.
    pub(crate) fn new(alloc: Global, room: Room) -> Result<Ended, NoMemory>
        requires { room.until ≤ 16777216 }
        ensures { IfOk result (λ ended. ended ≡ none_ended room) }
    {
        let most = if room.words { SEGMENT_WORDS } else { 0 };
        Ok(Ended {
            keeps_words: room.words,
            until: room.until,
            words: Vec::with_capacity(alloc, most)?,
            count: 0,
            base: Base::at_reset(),
        })
    }

    /// The clock below which the steps begin that there is room for.
    pub fn until(&self) -> u64
        ensures { result ≡ self.now.until }
    {
        self.until
    }

    /// Where those that are kept begin.
    pub fn base(&self) -> Base
        ensures value { result ≡ self.now.base }
        ensures sound { IsBase result }
        ensures begun { result.words ≤ self.now.count }
    {
        self.base
    }

    /// Empties the list of them, which begins at this base from then on, and counts as many as had ended by then. There
    /// is room for all that end in the steps which begin below `until`, at most 2^24 cycles later.
    pub(crate) fn begin_from(&mut self, base: Base, until: u64)
        requires near { until ≤ base.clock + 16777216 }
        requires sound { IsBase base }
        ensures { self.new ≡ ended_from base until (ended_emptied (ended_counted base.words self.old)) }
    {
        self.words.clear();
        self.count = base.words;
        self.until = until;
        self.base = base;
    }

    /// Empties the list of them, which begins at this base from then on, where so many have ended. There is room for
    /// all that end in the steps which begin below `until`, at most 2^24 cycles later.
    pub(crate) fn forget(&mut self, base: Base, until: u64)
        requires near { until ≤ base.clock + 16777216 }
        requires sound { IsBase base }
        requires words { base.words ≡ self.old.count }
        ensures { self.new ≡ ended_from base until (ended_emptied self.old) }
    {
        self.begin_from(base, until);
    }

    /// What is kept begins at this later clock. There is room up to `until`, at most 2^24 cycles later.
    pub(crate) fn begin_at(&mut self, clock: u64, until: u64)
        requires later { self.old.base.clock ≤ clock }
        requires few { clock ≤ 2 ^ 39 + 511 }
        requires near { until ≤ clock + 16777216 }
        ensures { self.new ≡ ended_from (begun_at clock self.old.base) until self.old }
    {
        self.base.clock = clock;
        self.until = until;
    }

    /// The transfers in the order of their ends. Empty where they aren't kept.
    pub fn words(&self) -> &[Transfer]
        ensures words { result.now ≡ self.now.words }
        ensures few { length result.now ≤ 32770 }
    {
        self.words.as_slice()
    }

    /// How many ended, whether they are kept or not.
    pub fn count(&self) -> u64
        ensures { result ≡ self.now.count }
    {
        self.count
    }

    /// Adds a transfer.
    pub(crate) fn add(&mut self, transfer: Transfer)
        requires { self.old.count < self.old.base.words + words_from self.old.base self.old.until }
        ensures { self.new ≡ with_transfer (Some transfer) self.old }
    {
        self.count += 1;
        if self.keeps_words {
            push(&mut self.words, transfer);
        }
    }
}
