//! The place of the picture.

use gba_ppu_reg::Position;
use std::marker::Model;

/// How many cycles are looked at ahead: more than a line has before its HBlank.
pub(crate) const FARTHEST: u32 = 1024;

/// A place of the picture, whose line and dot are always those of one. Contracts see the position.
#[derive(Debug, Drop)]
pub(crate) struct Place {
    at: Position,
}

impl Model for Place {
    ghost use Rattle.gba_ppu_reg.specs.declared.position.Position.{Position};
    ghost use Rattle.gba_ppu_reg.specs.Position.{IsPosition};

    ghost Value = { Position };

    ghost view = { λ place. place.at };

    ghost invariant = { λ place. IsPosition place.at };
}

impl Place {
    ghost use Rattle.std.specs.Prelude.{◌≡◌, ◌≤◌};
    ghost use Rattle.gba_ppu_reg.specs.Position.{IsPosition, after_cycles, cycle};
    ghost use Rattle.gba_ppu_reg.specs.Quiet.{quiet_within};
    ghost use Rattle.gba_devices.specs.Cycles.{farthest};
    ghost use Rattle.gba_devices.specs.State.{place_at_reset};

    pub(crate) fn new() -> Place
        ensures { result ≡ place_at_reset }
    {
        Place {
            at: Position { line: 0, dot: 0 },
        }
    }

    pub(crate) fn of(at: Position) -> Place
        requires { IsPosition at }
        ensures { result ≡ at }
    {
        Place { at }
    }

    pub(crate) fn at(&self) -> Position
        ensures place { result ≡ self.now }
        ensures sound { IsPosition result }
    {
        self.at
    }

    /// Moves by a dot.
    pub(crate) fn cycle(&mut self)
        ensures { self.new ≡ cycle self.old }
    {
        self.at.cycle();
    }

    /// For how many cycles, 1,024 at most, nothing begins.
    pub(crate) fn quiet(&self) -> u32
        ensures value { result ≡ quiet_within farthest self.now }
        ensures most { result ≤ 1024 }
    {
        self.at.quiet_within(FARTHEST)
    }

    /// The position after so many quiet cycles.
    pub(crate) fn after(&self, count: u32) -> Position
        requires { quiet_within count self.now ≡ count }
        ensures place { result ≡ after_cycles count self.now }
        ensures sound { IsPosition result }
    {
        let mut at = self.at;
        at.skip(count);
        at
    }

    /// So many quiet cycles at once.
    pub(crate) fn skip(&mut self, count: u32)
        requires { quiet_within count self.old ≡ count }
        ensures { self.new ≡ after_cycles count self.old }
    {
        self.at.skip(count);
    }
}
