//! The numbers of the transfer that runs, for the state file.

ghost use Rattle.std.specs.Prelude.{◌≡◌, ◌<◌, ◌≤◌};
ghost use Rattle.gba_serial.specs.Numbers.{received_mask};

use super::Serial;
use crate::transfer::Running;
use gba_word::weight_word;

fn received_mask(run: Running) -> u32
    ensures value { result ≡ received_mask run }
    ensures small { result < 16 }
{
    weight_word(1, run.got[0])
        + weight_word(2, run.got[1])
        + weight_word(4, run.got[2])
        + weight_word(8, run.got[3])
}

impl Serial {
    ghost use Rattle.std.specs.Prelude.{◌≡◌, ◌<◌};
    ghost use Rattle.gba_serial.specs.SerialUnit.{is_running};
    ghost use Rattle.gba_serial.specs.Apart.{next_end};
    ghost use Rattle.gba_serial.specs.Numbers.{end_number, is_starter, received_number, sent_number, word_number};

    /// Whether a transfer runs.
    pub fn running(&self) -> bool
        ensures { result ≡ is_running self.now }
    {
        self.run.is_some()
    }

    /// Whether a transfer runs that this console started.
    pub fn started(&self) -> bool
        ensures { result ≡ is_starter self.now }
    {
        match self.run {
            Some(run) => run.starter,
            None => false,
        }
    }

    /// The clock at which the transfer ends, 0 where none runs.
    pub fn end(&self) -> u64
        ensures { result ≡ end_number self.now }
    {
        match self.run {
            Some(run) => run.end,
            None => 0,
        }
    }

    /// The clock at which the transfer ends, or one that no console reaches where none runs.
    pub fn next_end(&self) -> u64
        ensures { result ≡ next_end self.now }
    {
        match self.run {
            Some(run) => run.end,
            None => u64::MAX,
        }
    }

    /// The players whose word was received, player j as bit j; 0 where no transfer runs. In Multi this
    /// console's bit is set.
    pub fn got(&self) -> u32
        ensures value { result ≡ received_number self.now }
        ensures small { result < 16 }
    {
        match self.run {
            Some(run) => received_mask(run),
            None => 0,
        }
    }

    /// The word that this console sends, 0 where no transfer runs.
    pub fn sent(&self) -> u32
        ensures { result ≡ sent_number self.now }
    {
        match self.run {
            Some(run) => run.sent,
            None => 0,
        }
    }

    /// The peer's word in a Normal transfer, 0 where none was received, where no transfer runs, and in Multi.
    pub fn word(&self) -> u32
        ensures { result ≡ word_number self.now }
    {
        match self.run {
            Some(run) => run.word,
            None => 0,
        }
    }
}
