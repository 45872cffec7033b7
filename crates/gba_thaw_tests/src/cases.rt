//! Frozen files that are made by hand, of consoles at their start whose lines are other ones, and what each comes to.

use gba_frozen::ThawKind;
use std::alloc::Global;
use std::test::Fail;

/// A line that begins so, and what stands in its stead: a line, or several.
pub(crate) type Change = (&'static str, &'static str);

/// What a frozen file comes to.
#[derive(Clone, Copy)]
pub(crate) enum Outcome {
    /// It is accepted, and frozen again it is the same. At the job's end the summary is this one, and this
    /// piece stands in the frozen file there.
    GoesOn {
        summary: &'static str,
        piece: &'static str,
    },
    /// It is refused at this line.
    Refused(u64, ThawKind),
    /// It is refused as a whole, at its last line.
    Unsound,
}

/// A job and a frozen file, and what that comes to.
#[derive(Clone, Copy)]
pub(crate) struct Case {
    pub(crate) name: &'static str,
    pub(crate) job: &'static str,
    pub(crate) head: &'static str,
    /// What is changed of the lines of console 0, and the numbers of its drawn lines, each of one digit.
    pub(crate) changes: &'static [Change],
    pub(crate) drawn: &'static [&'static str],
    /// What is changed of those of console 1: its number at least. Where nothing is there is no console 1.
    pub(crate) second: &'static [Change],
    /// The signals and the last line.
    pub(crate) behind: &'static str,
    pub(crate) outcome: Outcome,
}

/// The lines before the first console.
const HEAD: &str =
    "gbalink-frozen 1\njob 1111111111111111111111111111111111111111111111111111111111111111\n";

/// The lines of console 0 at its start up to those of memories, 63 of them.
pub(crate) const FRONT: &str = "gbalink-state 1\nconsole 0\nclock 0\nhalted 0\n\
r0 00000000\nr1 00000000\nr2 00000000\nr3 00000000\nr4 00000000\nr5 00000000\nr6 00000000\nr7 00000000\n\
r8 00000000\nr9 00000000\nr10 00000000\nr11 00000000\nr12 00000000\nr13 00000000\nr14 00000000\nr15 00000000\n\
r8_fiq 00000000\nr9_fiq 00000000\nr10_fiq 00000000\nr11_fiq 00000000\nr12_fiq 00000000\nr13_fiq 00000000\nr14_fiq 00000000\n\
r13_irq 00000000\nr14_irq 00000000\nr13_svc 00000000\nr14_svc 00000000\nr13_abt 00000000\nr14_abt 00000000\n\
r13_und 00000000\nr14_und 00000000\ncpsr 000000d3\n\
spsr_fiq 00000000\nspsr_irq 00000000\nspsr_svc 00000000\nspsr_abt 00000000\nspsr_und 00000000\n\
timer 0 0 0 0 0\ntimer 1 0 0 0 0\ntimer 2 0 0 0 0\ntimer 3 0 0 0 0\n\
dma 0 0 0 0 0 0\ndma 1 0 0 0 0 0\ndma 2 0 0 0 0 0\ndma 3 0 0 0 0 0\nqueue A 00 0 -\nqueue B 00 0 -\nsequencer 0\n\
tone 1 0 0 0 0 0 0 0 0\ntone 2 0 0 0 0 0 0 0 0\ntone 3 0 0 0 0 0 0 0 0\ntone 4 0 0 0 0 0 0 0 0\n\
wave 0 00000000000000000000000000000000\nwave 1 00000000000000000000000000000000\n\
position 0 0\naffine 2 00000000 00000000\naffine 3 00000000 00000000\nserial 3 0 0 0 0 0 0\nknown 3 3 3 3\n";

/// The three lines of its I/O registers. Every byte of its memories, of the SRAM too, is 0.
const REGISTERS: &str =
    "mem io 000000 0000000004000000000000000000000000000000000000000000000000000000\n\
mem io 000080 0000000000000000000200000000000000000000000000000000000000000000\n\
mem io 000120 00000000000000000000000000000000ff030000008000000000000000000000\n";

/// The three lines behind those.
pub(crate) const BEHIND: &str = "was 0\napplied 0\ncounts 0 0 0\n";

/// One console at its start.
pub(crate) const ALONE: Case = Case {
    name: "",
    job: "gbalink 2\ncycles 1000\nconsole 0\nbios b\nend\n",
    head: HEAD,
    changes: &[],
    drawn: &[],
    second: &[],
    behind: "end\n",
    outcome: Outcome::Unsound,
};

/// The same, whose key A is pressed from clock 5 on.
pub(crate) const WITH_KEY: Case = Case {
    job: "gbalink 2\ncycles 1000\nconsole 0\nbios b\nkey 5 001\nend\n",
    ..ALONE
};

/// The same, which is off below clock 1,000.
pub(crate) const ASLEEP: Case = Case {
    job: "gbalink 2\ncycles 2000\nconsole 0\nbios b\noff 1000\nend\n",
    ..ALONE
};

/// The same with a flash of 65,536 bytes.
pub(crate) const WITH_FLASH: Case = Case {
    job: "gbalink 2\ncycles 1000\nconsole 0\nbios b\nbackup flash64\nend\n",
    ..ALONE
};

/// Two consoles at their start, and the delays between them are 512 cycles.
pub(crate) const PAIR: Case = Case {
    job: "gbalink 2\ncycles 1000\nconsole 0\nbios b\nconsole 1\nbios b\nend\n",
    second: &[("console ", "console 1")],
    ..ALONE
};

/// The same, and both are at clock 600.
pub(crate) const BOTH: Case = Case {
    changes: &[("clock ", "clock 600"), ("was ", "was 597")],
    second: &[
        ("console ", "console 1"),
        ("clock ", "clock 600"),
        ("was ", "was 597"),
    ],
    ..PAIR
};

/// Two consoles at their start. A signal of console 0 takes one cycle, and one of console 1 as many as it may.
pub(crate) const UNEVEN: Case = Case {
    job: "gbalink 2\ncycles 2000\nlink 0 1 1\nlink 1 0 1024\nconsole 0\nbios b\nconsole 1\nbios b\nend\n",
    ..PAIR
};

/// Two consoles near the end of their jobs' first second at 16,777,216, and a signal of console 0 takes as
/// long as it may.
pub(crate) const LATE: Case = Case {
    job: "gbalink 2\ncycles 16780000\nlink 0 1 1024\nconsole 0\nbios b\nconsole 1\nbios b\nend\n",
    ..PAIR
};

/// Halfwords that stand in the I/O registers: key A is pressed; SIOCNT and RCNT are those of Multi at its highest
/// speed, without and with a transfer that runs; and those of Normal8 with one (GBATEK, GBA Keypad Input and GBA
/// Communication Ports).
pub(crate) const KEY_A: Change = (
    "mem io 000120",
    "mem io 000120 00000000000000000000000000000000fe030000008000000000000000000000",
);

pub(crate) const MULTI: Change = (
    "mem io 000120",
    "mem io 000120 00000000000000000320000000000000ff030000000000000000000000000000",
);

pub(crate) const MULTI_RUNS: Change = (
    "mem io 000120",
    "mem io 000120 00000000000000008320000000000000ff030000000000000000000000000000",
);

pub(crate) const NORMAL8_RUNS: Change = (
    "mem io 000120",
    "mem io 000120 00000000000000008100000000000000ff030000000000000000000000000000",
);

/// What stands in the stead of a line.
fn replaced(changes: &[Change], line: &'static str) -> &'static str {
    for &(begins, other) in changes {
        if line.starts_with(begins) {
            return other;
        }
    }
    line
}

/// Adds lines, of which some are other ones.
pub(crate) fn add_lines(
    text: &mut String,
    lines: &'static str,
    changes: &[Change],
) -> Result<(), Fail> {
    for line in lines.lines() {
        text.push_str(replaced(changes, line))?;
        text.push_str("\n")?;
    }
    Ok(())
}

fn add_console(text: &mut String, changes: &[Change]) -> Result<(), Fail> {
    add_lines(text, FRONT, changes)?;
    add_lines(text, REGISTERS, changes)?;
    add_lines(text, BEHIND, changes)
}

/// Adds 240 colours with bit 15 set.
fn add_colours(text: &mut String, number: &str) -> Result<(), Fail> {
    for _ in 0..240 {
        text.push_str("800")?;
        text.push_str(number)?;
    }
    Ok(())
}

/// Adds drawn lines of these numbers, each of one digit.
fn add_drawn(text: &mut String, numbers: &[&'static str]) -> Result<(), Fail> {
    for &number in numbers {
        text.push_str("drawn ")?;
        text.push_str(number)?;
        text.push_str(" ")?;
        add_colours(text, number)?;
        text.push_str("\n")?;
    }
    Ok(())
}

impl Case {
    /// The frozen file.
    pub(crate) fn text(&self, alloc: Global) -> Result<String, Fail> {
        let mut text = String::from_str(alloc, self.head)?;
        add_console(&mut text, self.changes)?;
        add_drawn(&mut text, self.drawn)?;
        if !self.second.is_empty() {
            add_console(&mut text, self.second)?;
        }
        text.push_str(self.behind)?;
        Ok(text)
    }
}
