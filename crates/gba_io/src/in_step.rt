//! The tests that what a board has made is in step with its clock, and that the next transfer finds room.

ghost use Rattle.std.specs.Prelude.{◌≡◌, ◌<◌, ◌≤◌, IsTrue, true};
ghost use Rattle.gba_io.specs.Base.{early_at};
ghost use Rattle.gba_io.specs.Board.{IsInStep};
ghost use Rattle.gba_io.specs.Cable.{NextEndFits};
ghost use Rattle.gba_io.specs.Drawing.{cycles_early, cycles_in, is_whole, lines_drawn};

use crate::Board;
use gba_ppu_reg::Position;

fn is_whole(place: &Position) -> bool
    ensures { result ≡ is_whole place.now }
{
    160 <= place.line || (place.line == 159 && 1006 <= place.dot)
}

fn lines_drawn(place: &Position) -> u32
    requires { place.now.line < 228 }
    ensures value { result ≡ lines_drawn place.now }
    ensures most { result ≤ 228 }
{
    if is_whole(place) {
        0
    } else if 1006 <= place.dot {
        place.line + 1
    } else {
        place.line
    }
}

fn cycles_early(place: &Position) -> u128
    ensures value { result ≡ cycles_early place.now }
    ensures most { result ≤ 280896 }
{
    if is_whole(place) { 280_896 } else { 0 }
}

fn early_at(cycles: u64) -> u128
    ensures value { result ≡ early_at cycles }
    ensures most { result ≤ 280896 }
{
    if 196_894 <= cycles { 280_896 } else { 0 }
}

pub(crate) fn cycles_in(place: &Position) -> u32
    requires line { place.now.line < 228 }
    requires dot { place.now.dot < 1232 }
    ensures value { result ≡ cycles_in place.now }
    ensures most { result < 280896 }
{
    1232 * place.line + place.dot
}

impl Board {
    /// Whether what it has made is in step with its clock, as it is at reset and after each move of its devices.
    pub fn is_in_step(&self) -> bool
        ensures sound { IsTrue result → IsInStep self.now }
        ensures exact { IsInStep self.now → result ≡ true }
    {
        let place = self.core.devices().place();
        let counts = self.counts();
        let clock = self.core.clock();
        let base = self.made.base();
        let pairs = u128::from(counts.samples) + u128::from(base.clock / 512);
        let passed = u128::from(clock) + cycles_early(&place);
        let before = 280_896 * u128::from(base.frames) + u128::from(base.cycles);
        let frames = 280_896 * u128::from(counts.frames) + u128::from(cycles_in(&place));
        let begun = u128::from(base.clock) + early_at(base.cycles);
        pairs == u128::from(base.pairs) + u128::from(clock / 512)
            && passed + before == frames + begun
            && self.core.lines_drawn() == lines_drawn(&place)
    }

    /// Whether the next transfer finds room, where it ends before the end of the room.
    pub fn next_end_fits(&self) -> bool
        ensures sound { IsTrue result → NextEndFits self.now }
        ensures exact { NextEndFits self.now → result ≡ true }
    {
        let until = self.ended.until();
        let base = self.ended.base();
        let most = u128::from(base.words) + 2 + u128::from(until.saturating_sub(base.clock) / 512);
        until <= self.core.serial().next_end() || u128::from(self.ended.count()) < most
    }
}
