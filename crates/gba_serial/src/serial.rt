//! One console's serial unit.

mod ending;
mod halfwords;
mod making;
mod numbers;
mod registers;
mod taking;
mod telling;
mod writing;

use crate::timing::{is_multi, mode_by};
use crate::transfer::Running;
use gba_word::bits;
use link_node::{LinkMode, Start};
pub use making::{Seat, SerialRegisters, players_of_mask};
use std::marker::Model;

/// One console's serial unit (GBATEK, GBA Communication Ports): the modes Normal (8 and 32 bits) and Multi, over a
/// cable of one to four consoles.
#[derive(Clone, Copy, Debug)]
pub struct Serial {
    player: u32,
    count: u32,
    round: u64,
    control: u16,
    error: bool,
    select: u16,
    send: u16,
    words: [u16; 4],
    known: [LinkMode; 4],
    run: Option<Running>,
    start: Option<Start>,
    reply: Option<u32>,
    told: LinkMode,
}

impl Model for Serial {
    ghost use Rattle.std.specs.Prelude.{◌<◌, ◌≤◌};
    ghost use Rattle.gba_serial.specs.SerialUnit.{SerialUnit};

    ghost Value = { SerialUnit };

    ghost view = { λ s. record {
      player = s.player;
      count = s.count;
      round = s.round;
      control = s.control;
      error = s.error;
      select = s.select;
      send = s.send;
      words = s.words;
      known = s.known;
      run = s.run;
      start = s.start;
      reply = s.reply;
      told = s.told;
    } };

    ghost inverse = { λ s. record {
      player = s.player;
      count = s.count;
      round = s.round;
      control = s.control;
      error = s.error;
      select = s.select;
      send = s.send;
      words = s.words;
      known = s.known;
      run = s.run;
      start = s.start;
      reply = s.reply;
      told = s.told;
    } };

    ghost invariant = { λ s. (s.player < s.count) × (s.count ≤ 4) × (s.round ≤ 2048) };
}

impl Serial {
    ghost use Rattle.std.specs.Prelude.{◌≡◌, ◌<◌, ◌≤◌, IsTrue};
    ghost use Rattle.gba_serial.specs.SerialUnit.{data_word, is_peer, is_wired, mode_of, own_word, serial_at_reset, speed_of};

    /// The unit at reset, of a player below `count`, on a cable of 1 to 4 consoles where a signal takes `round`
    /// cycles from player 0 to player 1 and back, from 2 to 2,048. Its mode is Other, and so is every peer's until it
    /// tells another.
    pub fn new(player: u32, count: u32, round: u64) -> Serial
        requires player { player < count }
        requires count { count ≤ 4 }
        requires least_round { 2 ≤ round }
        requires most_round { round ≤ 2048 }
        ensures { result ≡ serial_at_reset player count round }
    {
        Serial {
            player,
            count,
            round,
            control: 0,
            error: false,
            select: 0x8000,
            send: 0,
            words: [0; 4],
            known: [LinkMode::Other; 4],
            run: None,
            start: None,
            reply: None,
            told: LinkMode::Other,
        }
    }

    /// The player number, from 0 to 3.
    pub fn player(&self) -> u32
        ensures value { result ≡ self.now.player }
        ensures few { result < 4 }
    {
        self.player
    }

    /// The serial mode: by RCNT's bit 15 and SIOCNT's bits 12 and 13.
    pub fn mode(&self) -> LinkMode
        ensures { result ≡ mode_of self.now }
    {
        mode_by(self.select, self.control)
    }

    /// Whether a player is another console of the cable.
    fn is_peer(&self, player: u32) -> bool
        ensures value { result ≡ is_peer player self.now }
        ensures small { IsTrue result → player < 4 }
    {
        player < self.count && player != self.player
    }

    /// Whether the Normal modes join this console and a player.
    fn is_wired(&self, player: u32) -> bool
        requires { player < 4 }
        ensures { result ≡ is_wired player self.now }
    {
        player + self.player == 1
    }

    /// The word of this console in a mode.
    fn data_word(&self, mode: LinkMode) -> u32
        ensures { result ≡ data_word mode self.now }
    {
        match mode {
            LinkMode::Normal8 => bits(u32::from(self.send), 0, 8),
            LinkMode::Normal32 => u32::from(self.words[0]) + u32::from(self.words[1]) * (1 << 16),
            LinkMode::Multi => u32::from(self.send),
            LinkMode::Other => 0,
        }
    }

    /// The word that this console sends.
    fn own_word(&self) -> u32
        ensures { result ≡ own_word self.now }
    {
        self.data_word(self.mode())
    }

    /// The speed of a transfer that this console starts.
    fn speed(&self) -> u8
        ensures value { result ≡ speed_of self.now }
        ensures small { result < 4 }
    {
        let control = u32::from(self.control);
        if is_multi(self.mode()) {
            bits(control, 0, 2) as u8
        } else {
            bits(control, 1, 1) as u8
        }
    }
}
