//! What the signals of peers do.

use super::Serial;
use super::writing::{first_words, received_from};
use crate::timing::{cut_word, is_multi, is_normal, is_same, transfer_end};
use crate::transfer::Running;
use gba_word::{bit, bits};
use link_node::{Incoming, Start};

impl Serial {
    ghost use Rattle.std.specs.Prelude.{◌≡◌, ◌<◌, ◌^◌};
    ghost use Rattle.gba_serial.specs.Take.{answered, can_answer, end_of, ends_later, is_answered, is_proper_start, learned, multi_answered, normal_answered, taken, waits, with_known, with_multi_reply, with_normal_reply, with_reply, with_reply_in, with_start};

    fn set_known(&mut self, due: &Incoming)
        requires { due.now.sender < 4 }
        ensures { self.new ≡ with_known due.now self.old }
    {
        self.known[due.sender as usize] = due.signal.mode;
    }

    fn set_multi_reply(&mut self, sender: u32, word: u32, run: Running)
        requires { sender < 4 }
        ensures { self.new ≡ with_multi_reply sender word run self.old }
    {
        let mut got = run.got;
        got[sender as usize] = true;
        self.words[sender as usize] = bits(word, 0, 16) as u16;
        self.run = Some(Running { got, ..run });
    }

    fn set_normal_reply(&mut self, sender: u32, word: u32, run: Running)
        requires { sender < 4 }
        ensures { self.new ≡ with_normal_reply sender word run self.old }
    {
        let mut got = run.got;
        got[sender as usize] = true;
        let word = cut_word(self.mode(), word);
        self.run = Some(Running { word, got, ..run });
    }

    fn take_reply_in(&mut self, sender: u32, word: u32, run: Running)
        requires { sender < 4 }
        ensures { self.new ≡ with_reply_in sender word run self.old }
    {
        if is_multi(self.mode()) {
            self.set_multi_reply(sender, word, run);
        } else if run.starter && self.is_wired(sender) {
            self.set_normal_reply(sender, word, run);
        }
    }

    #[tactic(auto, unfolding(crate::specs::Take::with_reply))]
    fn take_reply(&mut self, sender: u32, reply: Option<u32>)
        requires { sender < 4 }
        ensures { self.new ≡ with_reply sender reply self.old }
    {
        if let Some(word) = reply {
            if let Some(run) = self.run {
                self.take_reply_in(sender, word, run);
            }
        }
    }

    fn end_of(&self, due: &Incoming, start: Start) -> u64
        requires { due.now.signal.clock < 2 ^ 40 }
        ensures value { result ≡ end_of due.now start self.now }
    {
        transfer_end(
            self.count,
            self.round,
            due.signal.mode,
            start.speed,
            due.signal.clock,
        )
    }

    /// Whether a start is one that a console of the cable may make.
    fn is_proper_start(&self, due: &Incoming, start: Start) -> bool
        requires { due.now.sender < 4 }
        ensures { result ≡ is_proper_start due.now start self.now }
    {
        if is_multi(due.signal.mode) {
            return due.sender == 0 && start.speed < 4;
        }
        is_normal(due.signal.mode) && self.is_wired(due.sender) && start.speed < 2
    }

    /// Whether the transfer ends at least 512 cycles after the start arrived.
    fn ends_later(&self, due: &Incoming, start: Start) -> bool
        requires clock { due.now.signal.clock < 2 ^ 40 }
        requires arrival { due.now.arrival < 2 ^ 40 }
        ensures { result ≡ ends_later due.now start self.now }
    {
        due.arrival + 512 <= self.end_of(due, start)
    }

    /// Whether this console waits for a start with the outside clock.
    fn waits(&self) -> bool
        ensures { result ≡ waits self.now }
    {
        let control = u32::from(self.control);
        !bit(control, 0) && bit(control, 7)
    }

    fn can_answer(&self, due: &Incoming) -> bool
        ensures { result ≡ can_answer due.now self.now }
    {
        let mode = self.mode();
        !self.running() && is_same(mode, due.signal.mode) && (is_multi(mode) || self.waits())
    }

    fn answers(&self, due: &Incoming, start: Start) -> bool
        requires sender { due.now.sender < 4 }
        requires clock { due.now.signal.clock < 2 ^ 40 }
        requires arrival { due.now.arrival < 2 ^ 40 }
        ensures { result ≡ is_answered due.now start self.now }
    {
        self.is_proper_start(due, start) && self.ends_later(due, start) && self.can_answer(due)
    }

    fn answer_multi(&mut self, due: &Incoming, start: Start)
        requires { due.now.signal.clock < 2 ^ 40 }
        ensures { self.new ≡ multi_answered due.now start self.old }
    {
        let end = self.end_of(due, start);
        let word = u32::from(self.send);
        let mut words = first_words(0, bits(start.word, 0, 16) as u16);
        words[self.player as usize] = self.send;
        let mut got = received_from(0);
        got[self.player as usize] = true;
        self.control |= 0x0080;
        self.error = false;
        self.words = words;
        self.run = Some(Running {
            starter: false,
            end,
            sent: word,
            word: 0,
            got,
        });
        self.reply = Some(word);
    }

    fn answer_normal(&mut self, due: &Incoming, start: Start)
        requires sender { due.now.sender < 4 }
        requires clock { due.now.signal.clock < 2 ^ 40 }
        ensures { self.new ≡ normal_answered due.now start self.old }
    {
        let sent = self.own_word();
        self.run = Some(Running {
            starter: false,
            end: self.end_of(due, start),
            sent,
            word: cut_word(self.mode(), start.word),
            got: received_from(due.sender),
        });
        self.reply = Some(sent);
    }

    fn answer(&mut self, due: &Incoming, start: Start)
        requires sender { due.now.sender < 4 }
        requires clock { due.now.signal.clock < 2 ^ 40 }
        ensures { self.new ≡ answered due.now start self.old }
    {
        if is_multi(self.mode()) {
            self.answer_multi(due, start);
        } else {
            self.answer_normal(due, start);
        }
    }

    #[tactic(auto, unfolding(crate::specs::Take::with_start))]
    fn take_start(&mut self, due: &Incoming, start: Option<Start>)
        requires sender { due.now.sender < 4 }
        requires clock { due.now.signal.clock < 2 ^ 40 }
        requires arrival { due.now.arrival < 2 ^ 40 }
        ensures { self.new ≡ with_start due.now start self.old }
    {
        if let Some(start) = start {
            if self.answers(due, start) {
                self.answer(due, start);
            }
        }
    }

    #[tactic(auto, unfolding(crate::specs::Take::taken))]
    pub(super) fn take(&mut self, due: &Incoming)
        requires clock { due.now.signal.clock < 2 ^ 40 }
        requires arrival { due.now.arrival < 2 ^ 40 }
        ensures { self.new ≡ taken due.now self.old }
    {
        if self.is_peer(due.sender) {
            self.set_known(due);
            self.take_reply(due.sender, due.signal.reply);
            self.take_start(due, due.signal.start);
        }
    }

    /// Takes a due signal while the console is off: the mode of its sender is known from then on, and its start and its
    /// reply are lost (this project's profile). A signal of the console itself, or of a player that the job hasn't, is
    /// ignored.
    pub fn learn(&mut self, due: &Incoming)
        ensures { self.new ≡ learned due.now self.old }
    {
        if self.is_peer(due.sender) {
            self.set_known(due);
        }
    }
}
