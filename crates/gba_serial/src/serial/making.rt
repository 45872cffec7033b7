//! A unit that is made of its numbers.

ghost use Rattle.std.specs.Prelude.{◌≡◌};
ghost use Rattle.gba_serial.specs.Making.{players_of};

use super::Serial;
use crate::timing::mode_by;
use crate::transfer::Running;
use gba_word::bit;
use link_node::LinkMode;

/// Where a console sits at the cable.
#[derive(Clone, Copy, Debug, PartialEq, Eq)]
pub struct Seat {
    /// Its player number, which is below `count`.
    pub player: u32,
    /// How many consoles there are, 4 at most.
    pub count: u32,
    /// The cycles that a signal takes from player 0 to player 1 and back, 2,048 at most.
    pub round: u64,
}

/// What stands in a unit's registers (GBATEK, GBA Communication Ports).
#[derive(Clone, Copy, Debug, PartialEq, Eq)]
pub struct SerialRegisters {
    /// SIOCNT 128h: its stored bits 0, 1, 3, 7, 12, 13 and 14.
    pub control: u16,
    /// SIOCNT's error, which is its bit 6.
    pub error: bool,
    /// RCNT 134h.
    pub select: u16,
    /// The halfword at 12Ah.
    pub send: u16,
    /// The four halfwords from 120h to 126h.
    pub words: [u16; 4],
}

/// The players whose bits are set, player j as bit j: what [`Serial::got`] says of a transfer, turned back.
#[tactic(auto, unfolding(crate::specs::Making::players_of))]
pub fn players_of_mask(mask: u32) -> [bool; 4]
    ensures { result ≡ players_of mask }
{
    [bit(mask, 0), bit(mask, 1), bit(mask, 2), bit(mask, 3)]
}

impl Serial {
    ghost use Rattle.std.specs.Prelude.{◌≡◌};
    ghost use Rattle.gba_serial.specs.Making.{IsSeat, seat_of, unit_of};

    /// The unit of a console with this seat, where these stand in its registers, these are the modes that players 0 to
    /// 3 last told, and this transfer runs, if any. Nothing is left to tell: the mode that it told last is its own.
    pub fn of(
        seat: Seat,
        registers: SerialRegisters,
        known: [LinkMode; 4],
        run: Option<Running>,
    ) -> Serial
        requires { IsSeat seat }
        ensures { result ≡ unit_of seat registers known run }
    {
        let words = registers.words;
        Serial {
            player: seat.player,
            count: seat.count,
            round: seat.round,
            control: registers.control,
            error: registers.error,
            select: registers.select,
            send: registers.send,
            words,
            known,
            run,
            start: None,
            reply: None,
            told: mode_by(registers.select, registers.control),
        }
    }

    /// Where the console sits.
    pub fn seat(&self) -> Seat
        ensures value { result ≡ seat_of self.now }
        ensures seat { IsSeat result }
    {
        Seat {
            player: self.player,
            count: self.count,
            round: self.round,
        }
    }
}
