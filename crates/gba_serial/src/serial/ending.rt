//! The end of a transfer.

ghost use Rattle.std.specs.Prelude.{◌≡◌, ◌-◌, ◌^◌, ◌<◌};
ghost use Rattle.gba_serial.specs.Timing.{word_width};
ghost use Rattle.gba_serial.specs.SerialUnit.{was_received};
ghost use Rattle.gba_serial.specs.End.{any_missing, any_received, is_missing, peer_word};

use super::Serial;
use crate::timing::is_multi;
use crate::transfer::{Running, Transfer};
use gba_word::{bit, bits};
use link_node::{Incoming, LinkMode};

fn was_received(got: [bool; 4], player: u32) -> bool
    requires { player < 4 }
    ensures { result ≡ was_received got player }
{
    got[player as usize]
}

fn is_missing(got: [bool; 4], count: u32, player: u32) -> bool
    requires { player < 4 }
    ensures { result ≡ is_missing got count player }
{
    player < count && !was_received(got, player)
}

fn any_missing(got: [bool; 4], count: u32) -> bool
    ensures { result ≡ any_missing got count }
{
    is_missing(got, count, 0)
        || is_missing(got, count, 1)
        || is_missing(got, count, 2)
        || is_missing(got, count, 3)
}

fn any_received(got: [bool; 4]) -> bool
    ensures { result ≡ any_received got }
{
    was_received(got, 0) || was_received(got, 1) || was_received(got, 2) || was_received(got, 3)
}

/// The word of a mode whose bits are all 1.
fn all_ones(mode: LinkMode) -> u32
    ensures { result ≡ 2 ^ word_width mode - 1 }
{
    match mode {
        LinkMode::Normal8 => 0xFF,
        LinkMode::Normal32 => u32::MAX,
        LinkMode::Multi => 0xFFFF,
        LinkMode::Other => 0,
    }
}

/// The peer's word in a Normal mode.
fn peer_word(mode: LinkMode, run: Running) -> u32
    ensures { result ≡ peer_word mode run }
{
    if run.starter && !any_received(run.got) {
        all_ones(mode)
    } else {
        run.word
    }
}

impl Serial {
    ghost use Rattle.std.specs.Prelude.{◌≡◌, ◌<◌, ◌^◌};
    ghost use Rattle.gba_serial.specs.Take.{taken};
    ghost use Rattle.gba_serial.specs.End.{ended, ending, error_after, finished, send_after, transfer_of, words_after};

    fn send_after(&self, mode: LinkMode, run: Running) -> u16
        ensures { result ≡ send_after mode run self.now }
    {
        match mode {
            LinkMode::Normal8 => bits(peer_word(mode, run), 0, 8) as u16,
            LinkMode::Normal32 | LinkMode::Multi | LinkMode::Other => self.send,
        }
    }

    fn words_after(&self, mode: LinkMode, run: Running) -> [u16; 4]
        ensures { result ≡ words_after mode run self.now }
    {
        match mode {
            LinkMode::Normal32 => {
                let word = peer_word(mode, run);
                let mut words = self.words;
                words[0] = bits(word, 0, 16) as u16;
                words[1] = bits(word, 16, 16) as u16;
                words
            }
            LinkMode::Normal8 | LinkMode::Multi | LinkMode::Other => self.words,
        }
    }

    fn error_after(&self, mode: LinkMode, run: Running) -> bool
        ensures { result ≡ error_after mode run self.now }
    {
        if is_multi(mode) {
            any_missing(run.got, self.count)
        } else {
            self.error
        }
    }

    #[tactic(auto, unfolding(crate::specs::End::finished))]
    fn finish(&mut self, run: Running)
        ensures { self.new ≡ finished run self.old }
    {
        let mode = self.mode();
        let send = self.send_after(mode, run);
        let words = self.words_after(mode, run);
        self.error = self.error_after(mode, run);
        self.control &= 0xFF7F;
        self.send = send;
        self.words = words;
        self.run = None;
    }

    #[tactic(auto, unfolding(crate::specs::End::transfer_of))]
    fn transfer_of(&self, run: Running) -> Transfer
        ensures { result ≡ transfer_of run self.now }
    {
        let mode = self.mode();
        let interrupt = bit(u32::from(self.control), 14);
        if is_multi(mode) {
            Transfer {
                end: run.end,
                mode,
                words: self.words,
                sent: run.sent,
                got: 0,
                error: any_missing(run.got, self.count),
                interrupt,
            }
        } else {
            Transfer {
                end: run.end,
                mode,
                words: [0; 4],
                sent: run.sent,
                got: peer_word(mode, run),
                error: false,
                interrupt,
            }
        }
    }

    /// Ends the transfer whose end is at or below a clock, and answers it. Some exactly where one ends.
    pub fn end_due(&mut self, clock: u64) -> Option<Transfer>
        requires { clock < 2 ^ 40 }
        ensures transfer { result ≡ ending clock self.old }
        ensures unit { self.new ≡ ended clock self.old }
    {
        match self.run {
            Some(run) => {
                if run.end > clock {
                    return None;
                }
                let transfer = self.transfer_of(run);
                self.finish(run);
                Some(transfer)
            }
            None => None,
        }
    }

    /// Takes a due signal: its sender's mode, its reply, and its start, which may be answered. A transfer whose end is
    /// at or below the arrival ends before; it is what is answered. The arrival is below 2^40, and the signal's clock
    /// is below it. A signal of this console or of a player that isn't there is ignored.
    pub fn take_signal(&mut self, due: &Incoming) -> Option<Transfer>
        requires arrival { due.now.arrival < 2 ^ 40 }
        requires in_flight { due.now.signal.clock < due.now.arrival }
        ensures transfer { result ≡ ending due.now.arrival self.old }
        ensures unit { self.new ≡ taken due.now (ended due.now.arrival self.old) }
    {
        let transfer = self.end_due(due.arrival);
        self.take(due);
        transfer
    }
}
