//! A thousand schedules of cable jobs, each with one result.

use crate::linked::{AWAITS_BYTE, STARTS_BYTE, name_of};
use gba_link_tests::{
    AWAITS_MULTI, Answer, Content, STARTS_MULTI, call, call_through, stored, stored_all,
};
use gba_store::{Gate, StoredFile};
use std::alloc::{AllocError, Global};
use std::process::Abort;
use std::sync::atomic::{AtomicU64, Ordering};
use std::test::Fail;
use std::thread::Threads;

/// The next of a row of numbers that look random.
fn next_random(number: u64) -> u64 {
    number
        .wrapping_mul(6364136223846793005)
        .wrapping_add(1442695040888963407)
}

/// Lets other threads go first where the front of a number is 0, and turns so often where it is 1.
fn hold(front: u64, turns: u64) {
    if front == 0 {
        std::thread::yield_now();
    }
    if front == 1 {
        for _turn in 0..turns {
            std::hint::spin_loop();
        }
    }
}

/// Holds some steps for a while, by a row of numbers that look random, and counts all of them. Or, where it is open,
/// holds each of some bursts, and counts the questions whether it is open.
#[derive(Drop)]
struct Holding {
    open: bool,
    number: AtomicU64,
    count: AtomicU64,
}

impl Holding {
    fn new(open: bool, number: u64) -> Holding {
        Holding {
            open,
            number: AtomicU64::new(number),
            count: AtomicU64::new(0),
        }
    }

    /// The next number, which this one disturbs.
    fn next(&self, disturbing: u64) -> u64 {
        let number = next_random(self.number.load(Ordering::SeqCst) ^ disturbing);
        self.number.store(number, Ordering::SeqCst);
        number
    }
}

impl Gate for Holding {
    fn enter(&self, player: u32, clock: u64) {
        if !self.open {
            self.count.fetch_add(1, Ordering::SeqCst);
            let number = self.next((clock << 2) ^ u64::from(player));
            hold(number >> 58, (number >> 40) % 100);
        }
    }

    fn is_open(&self) -> bool {
        if self.open {
            let question = self.count.fetch_add(1, Ordering::SeqCst);
            let number = self.next(question);
            hold(number >> 62, (number >> 40) % 1_000);
        }
        self.open
    }
}

/// A cable: so many consoles, of which the first runs one program and the others another one, the delay, the job's
/// cycles, and the words of the first console and of each other one.
#[derive(Clone, Copy)]
struct Cable<'a> {
    consoles: u32,
    delay: u64,
    cycles: u64,
    programs: &'a [(&'a str, Content<'a>)],
    words: [&'a str; 2],
}

/// A Normal transfer starts at 408. It lasts 512 cycles, or two delays and 514 where that is more.
const BYTE: &[(&str, Content<'static>)] = &[
    ("s", Content::Code(&STARTS_BYTE)),
    ("a", Content::Code(&AWAITS_BYTE)),
];

/// A Multi transfer starts at 817.
const MULTI: &[(&str, Content<'static>)] = &[
    ("s", Content::Code(&STARTS_MULTI)),
    ("a", Content::Code(&AWAITS_MULTI)),
];

static CABLES: [Cable<'static>; 8] = [
    Cable {
        consoles: 1,
        delay: 512,
        cycles: 1_000,
        programs: MULTI,
        words: ["", ""],
    },
    Cable {
        consoles: 2,
        delay: 1,
        cycles: 1_000,
        programs: BYTE,
        words: ["924 normal8 5a a5\n", "924 normal8 a5 5a\n"],
    },
    Cable {
        consoles: 2,
        delay: 512,
        cycles: 2_000,
        programs: BYTE,
        words: ["1946 normal8 5a a5\n", "1946 normal8 a5 5a\n"],
    },
    Cable {
        consoles: 2,
        delay: 1_024,
        cycles: 3_000,
        programs: BYTE,
        words: ["2970 normal8 5a a5\n", "2970 normal8 a5 5a\n"],
    },
    Cable {
        consoles: 3,
        delay: 16,
        cycles: 1_000,
        programs: MULTI,
        words: ["", ""],
    },
    Cable {
        consoles: 3,
        delay: 1_024,
        cycles: 1_000,
        programs: MULTI,
        words: ["", ""],
    },
    Cable {
        consoles: 4,
        delay: 1,
        cycles: 1_000,
        programs: MULTI,
        words: ["", ""],
    },
    Cable {
        consoles: 4,
        delay: 1_024,
        cycles: 1_000,
        programs: MULTI,
        words: ["", ""],
    },
];

/// How many schedules each cable has.
const SCHEDULES: u64 = 125;

/// The job of a cable.
fn job_of(alloc: Global, cable: &Cable<'_>) -> Result<String, AllocError> {
    let mut job = format!(in alloc;
        "gbalink 1\ncycles {}\ndelay {}\n",
        cable.cycles, cable.delay
    )?;
    for player in 0..cable.consoles {
        let bios = if player == 0 { "s" } else { "a" };
        let lines = format!(in alloc; "console {player}\nbios {bios}\nout words\nout state\n")?;
        job.push_str(lines.as_str())?;
    }
    job.push_str("end\n")?;
    Ok(job)
}

/// The job of a cable and its images: `s` starts the transfer, and `a` awaits it.
fn files_of(alloc: Global, cable: &Cable<'_>) -> Result<Vec<StoredFile>, AllocError> {
    let job = stored(alloc, "j", job_of(alloc, cable)?.into_bytes())?;
    stored_all(alloc, job, cable.programs)
}

/// What the names of a run's files have behind OUT.
static ENDINGS: [&str; 9] = [
    ".0.words", ".0.state", ".1.words", ".1.state", ".2.words", ".2.state", ".3.words", ".3.state",
    ".log",
];

/// Two calls answered and wrote the same.
fn are_the_same<R: Abort>(rt: &R, alloc: Global, one: &Answer, other: &Answer) -> Result<(), Fail> {
    assert_eq!(rt; (one.status, one.report()), (other.status, other.report()));
    for &ending in &ENDINGS {
        let name = name_of(alloc, "g", ending)?;
        assert!(rt;
            one.bytes(name.as_str()) == other.bytes(name.as_str()),
            "in {name}"
        );
    }
    Ok(())
}

/// Each console of a cable has these words.
fn have_words<R: Abort>(
    rt: &R,
    alloc: Global,
    cable: &Cable<'_>,
    answer: &Answer,
) -> Result<(), Fail> {
    assert_eq!(rt; answer.status, 0);
    for player in 0..cable.consoles {
        let words = cable.words[if player == 0 { 0 } else { 1 }];
        let name = format!(in alloc; "g.{player}.words")?;
        assert!(rt;
            answer.bytes(name.as_str()) == Some(words.as_bytes()),
            "in {name}"
        );
    }
    Ok(())
}

/// All schedules of a cable, with a gate that is open or not, come to what it comes to without a gate. It answers the
/// sum of the gates' counts.
fn run_cable<R: Abort + Threads + Sync>(
    rt: &R,
    alloc: Global,
    cable: &Cable<'_>,
    open: bool,
) -> Result<u64, Fail> {
    let words = ["run", "j", "g"];
    let free = call(rt, alloc, &words, files_of(alloc, cable)?)?;
    have_words(rt, alloc, cable, &free)?;
    let mut sum = 0u64;
    for schedule in 0..SCHEDULES {
        let gate = Holding::new(open, next_random(schedule));
        let held = call_through(rt, alloc, &words, files_of(alloc, cable)?, &gate)?;
        are_the_same(rt, alloc, &free, &held)?;
        sum = sum.saturating_add(gate.count.load(Ordering::SeqCst));
    }
    Ok(sum)
}

/// How many lanes the rounds begin with that all schedules of a cable have: lanes are tried where a delay is
/// 256 or more.
fn lanes_of(cable: &Cable<'_>) -> u64 {
    if cable.consoles == 1 || cable.delay < 256 {
        0
    } else {
        u64::from(cable.consoles).saturating_mul(SCHEDULES)
    }
}

#[test]
fn a_thousand_schedules_write_the_same(rt: HostRuntime) -> Result<(), Fail> {
    for cable in &CABLES {
        let entries = run_cable(&rt, rt.alloc(), cable, false)?;
        // each lane goes at least one delay far by itself, and each step of it enters the gate and lasts at
        // most 16 cycles
        let steps = cable.delay.min(cable.cycles) / 16;
        assert!(rt; entries >= lanes_of(cable).saturating_mul(steps));
    }
    Ok(())
}

#[test]
fn a_thousand_schedules_of_bursts_write_the_same(rt: HostRuntime) -> Result<(), Fail> {
    for cable in &CABLES {
        let questions = run_cable(&rt, rt.alloc(), cable, true)?;
        assert!(rt; questions >= lanes_of(cable));
    }
    Ok(())
}
