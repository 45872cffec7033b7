//! What a board has made.

ghost use Rattle.std.specs.Prelude.{◌≡◌, ◌+◌, ◌*◌, ◌++◌, ◌≤◌, vec_len, vec_capacity};
ghost use Rattle.gba_io.specs.Made.{sample_bytes};

use crate::Base;
use gba_screen::Screen;
use gba_terms::NoMemory;
use std::alloc::Global;
use std::marker::Model;

/// What is kept of what a board makes, and the end of its room: `until` is the clock, in cycles since reset, below
/// which the last step begins, at most 2^24. `Board::forget` moves it on.
#[derive(Clone, Copy, Debug, PartialEq, Eq)]
pub struct Room {
    pub until: u64,
    /// Whether the whole frames are kept: 76,800 bytes each.
    pub frames: bool,
    /// Whether the pairs of samples are kept.
    pub samples: bool,
    /// Whether the transfers that ended are kept.
    pub words: bool,
}

/// How much was made, whether it is kept or not.
#[derive(Clone, Copy, Debug, PartialEq, Eq)]
pub struct Counts {
    /// The whole frames.
    pub frames: u64,
    /// The pairs of samples.
    pub samples: u64,
    /// The transfers that ended.
    pub words: u64,
}

/// What a board has made. The room for all that is kept of 2^24 cycles is taken at once.
#[derive(Drop)]
pub struct Made {
    keeps_frames: bool,
    keeps_samples: bool,
    until: u64,
    // the frames that are whole
    frames: Vec<u8>,
    frame_count: u64,
    samples: Vec<u8>,
    pairs: u64,
    base: Base,
}

impl Model for Made {
    ghost use Rattle.std.specs.Prelude.{◌≡◌, ◌+◌, ◌*◌, ◌≤◌, true, vec_len, vec_capacity};
    ghost use Rattle.gba_io.specs.Base.{IsBase};
    ghost use Rattle.gba_io.specs.Made.{Made};

    ghost Value = { Made };

    ghost view = { λ m. record {
      keeps_frames = m.keeps_frames;
      keeps_samples = m.keeps_samples;
      until = m.until;
      frames = m.frames.items;
      frame_count = m.frame_count;
      samples = m.samples.items;
      pairs = m.pairs;
      base = m.base;
    } };

    ghost invariant = { λ m.
        (m.keeps_samples ≡ true → 131076 ≤ vec_capacity m.samples)
        × (vec_len m.samples + 4 * m.base.pairs ≤ 4 * m.pairs)
        × (m.keeps_frames ≡ true → 4608000 ≤ vec_capacity m.frames)
        × (vec_len m.frames + 76800 * m.base.frames ≤ 76800 * m.frame_count)
        × (m.until ≤ m.base.clock + 16777216) × IsBase m.base };
}

/// The bytes of a frame: 160 lines of 240 colours.
const FRAME: usize = 76_800;

/// The most whole frames and pairs of samples of a segment, which is 2^24 cycles long at most.
const SEGMENT_FRAMES: usize = 60;

const SEGMENT_PAIRS: usize = 32_769;

/// Adds a sample, for which there is room.
fn add_sample(samples: &mut Vec<u8>, sample: i16)
    requires { vec_len samples.old + 2 ≤ vec_capacity samples.old }
    ensures items { samples.new.items ≡ samples.old.items ++ sample_bytes sample }
    ensures len { vec_len samples.new ≡ vec_len samples.old + 2 }
    ensures room { vec_capacity samples.old ≤ vec_capacity samples.new }
{
    if samples.extend_from_slice(&sample.to_le_bytes()).is_err() {
        unreachable!()
    }
}

impl Made {
    ghost use Rattle.std.specs.Prelude.{◌≡◌, ◌+◌, ◌<◌, ◌≤◌, length, true, false, IfOk, ◌^◌};
    ghost use Rattle.gba_io.specs.Base.{IsBase, begun_at, frames_from, pairs_from};
    ghost use Rattle.std.specs.List.{concat};
    ghost use Rattle.gba_io.specs.Made.{made_counted, made_emptied, made_from, none_made, with_frame, with_pair};

    /// Nothing yet, with room for all that is kept of 2^24 cycles and one step more.
    pub(crate) fn new(alloc: Global, room: Room) -> Result<Made, NoMemory>
        requires { room.until ≤ 16777216 }
        ensures { IfOk result (λ made. made ≡ none_made room) }
    {
        let pairs = if room.samples { SEGMENT_PAIRS } else { 0 };
        let frames = if room.frames { SEGMENT_FRAMES } else { 0 };
        Ok(Made {
            keeps_frames: room.frames,
            keeps_samples: room.samples,
            until: room.until,
            frames: Vec::with_capacity(alloc, FRAME * frames)?,
            frame_count: 0,
            samples: Vec::with_capacity(alloc, 4 * pairs)?,
            pairs: 0,
            base: Base::at_reset(),
        })
    }

    /// The clock below which the last step begins.
    pub fn until(&self) -> u64
        ensures { result ≡ self.now.until }
    {
        self.until
    }

    /// Where what is kept begins.
    pub fn base(&self) -> Base
        ensures value { result ≡ self.now.base }
        ensures sound { IsBase result }
    {
        self.base
    }

    /// Empties what is kept, which begins at this base from then on, and counts as much as was made by then. There is
    /// room up to `until`, at most 2^24 cycles later.
    pub(crate) fn begin_from(&mut self, base: Base, until: u64)
        requires near { until ≤ base.clock + 16777216 }
        requires sound { IsBase base }
        ensures { self.new ≡ made_from base until (made_emptied (made_counted base.frames base.pairs self.old)) }
    {
        self.frames.clear();
        self.samples.clear();
        self.frame_count = base.frames;
        self.pairs = base.pairs;
        self.until = until;
        self.base = base;
    }

    /// Empties what is kept, which begins at this base from then on, where the counts are these. There is room up to
    /// `until`, at most 2^24 cycles later.
    pub(crate) fn forget(&mut self, base: Base, until: u64)
        requires near { until ≤ base.clock + 16777216 }
        requires sound { IsBase base }
        requires pairs { base.pairs ≡ self.old.pairs }
        requires frames { base.frames ≡ self.old.frame_count }
        ensures { self.new ≡ made_from base until (made_emptied self.old) }
    {
        self.begin_from(base, until);
    }

    /// What is kept begins at this later clock. There is room up to `until`, at most 2^24 cycles later.
    pub(crate) fn begin_at(&mut self, clock: u64, until: u64)
        requires later { self.old.base.clock ≤ clock }
        requires few { clock ≤ 2 ^ 39 + 511 }
        requires near { until ≤ clock + 16777216 }
        ensures { self.new ≡ made_from (begun_at clock self.old.base) until self.old }
    {
        self.base.clock = clock;
        self.until = until;
    }

    /// The whole frames, each of 160 lines of 240 colours: 16 bits each, low byte first, of which the lowest five are
    /// red, the next green and then blue. Empty where they aren't kept.
    pub fn frames(&self) -> &[u8]
        ensures { result.now ≡ self.now.frames }
    {
        self.frames.as_slice()
    }

    /// The pairs of samples, left then right, 16 bits each in two's complement, low byte first: 32,768 pairs a second.
    /// Empty where they aren't kept.
    pub fn samples(&self) -> &[u8]
        ensures { result.now ≡ self.now.samples }
    {
        self.samples.as_slice()
    }

    /// How much was made, where so many transfers ended.
    pub(crate) fn counts(&self, words: u64) -> Counts
        ensures frames { result.frames ≡ self.now.frame_count }
        ensures samples { result.samples ≡ self.now.pairs }
        ensures words { result.words ≡ words }
    {
        Counts {
            frames: self.frame_count,
            samples: self.pairs,
            words,
        }
    }

    /// Adds a pair of samples.
    pub(crate) fn add_pair(&mut self, left: i16, right: i16)
        requires { self.old.pairs < self.old.base.pairs + pairs_from self.old.base self.old.until }
        ensures { self.new ≡ with_pair true left right self.old }
    {
        self.pairs += 1;
        if self.keeps_samples {
            add_sample(&mut self.samples, left);
            add_sample(&mut self.samples, right);
        }
    }

    /// Whether the pairs of samples are kept.
    pub(crate) fn keeps_samples(&self) -> bool
        ensures { result ≡ self.now.keeps_samples }
    {
        self.keeps_samples
    }

    /// Counts so many pairs of samples, where they aren't kept.
    pub(crate) fn count_pairs(&mut self, more: u64)
        requires unheard { self.old.keeps_samples ≡ false }
        requires few { self.old.pairs + more < 2 ^ 64 }
        ensures { self.new ≡ record self.old { pairs = self.old.pairs + more } }
    {
        self.pairs += more;
    }

    /// Adds a frame, the 160 lines of which are drawn on the screen.
    pub(crate) fn add_frame(&mut self, screen: &mut Screen)
        requires whole { length screen.old.lines ≡ 160 }
        requires room { self.old.frame_count < self.old.base.frames + frames_from self.old.base self.old.until }
        ensures made { self.new ≡ with_frame true (concat screen.old.lines) self.old }
        ensures screen { screen.new ≡ screen.old }
    {
        self.frame_count += 1;
        if self.keeps_frames {
            screen.add_frame(&mut self.frames);
        }
    }
}
