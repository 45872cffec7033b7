//! Two consoles whose lanes meet: neither goes on before the other has come, in single steps and in bursts.

use gba_link_tests::{Content, call_through, stored, stored_all};
use gba_store::Gate;
use std::alloc::Global;
use std::process::Abort;
use std::sync::atomic::{AtomicBool, AtomicU32, Ordering};
use std::test::Fail;
use std::thread::Threads;

/// No wait takes more turns of its loop.
const MOST: u32 = 1 << 26;

/// Holds each of two players in its first entry with a clock of 100 or more, until the other has made such an entry.
#[derive(Drop)]
struct Meeting {
    here: [AtomicBool; 2],
    missed: AtomicBool,
}

impl Gate for Meeting {
    fn enter(&self, player: u32, clock: u64) {
        let (own, other) = if player == 0 {
            (&self.here[0], &self.here[1])
        } else {
            (&self.here[1], &self.here[0])
        };
        if clock < 100 || own.load(Ordering::SeqCst) {
            return;
        }
        own.store(true, Ordering::SeqCst);
        for _turn in 0..MOST {
            if other.load(Ordering::SeqCst) {
                return;
            }
            std::hint::spin_loop();
        }
        self.missed.store(true, Ordering::SeqCst);
    }
}

/// A branch to itself.
static LOOP: [u32; 1] = [0xEAFF_FFFE];

/// The job runs through the gate, and its report begins so.
fn runs_through<R: Abort + Threads + Sync, G: Gate + Sync>(
    rt: &R,
    alloc: Global,
    gate: &G,
    job: &str,
    report: &str,
) -> Result<(), Fail> {
    let job = stored(alloc, "j", Vec::from_slice(alloc, job.as_bytes())?)?;
    let files = stored_all(alloc, job, &[("b", Content::Code(&LOOP))])?;
    let answer = call_through(rt, alloc, &["run", "j", "g"], files, gate)?;
    assert_eq!(rt; answer.status, 0);
    assert!(rt;
        answer.report().starts_with(report.as_bytes()),
        "the report"
    );
    Ok(())
}

const JOB: &str =
    "gbalink 1\ncycles 1000\nconsole 0\nbios b\nout state\nconsole 1\nbios b\nout state\nend\n";

/// A loop of three cycles: 334 steps, and one pair of samples, at 512.
const REPORT: &str =
    "console 0 clock 1002 frames 0 samples 1 words 0\nconsole 1 clock 1002 frames 0 samples 1 words 0\nlog ";

#[test]
fn two_lanes_meet(rt: HostRuntime) -> Result<(), Fail> {
    let gate = Meeting {
        here: [AtomicBool::new(false), AtomicBool::new(false)],
        missed: AtomicBool::new(false),
    };
    runs_through(&rt, rt.alloc(), &gate, JOB, REPORT)?;
    assert!(rt; !gate.missed.load(Ordering::SeqCst), "a lane waits in vain");
    for here in &gate.here {
        assert!(rt; here.load(Ordering::SeqCst), "a player makes no entry");
    }
    Ok(())
}

/// How many questions are asked two by two.
const QUESTIONS: u32 = 8;

/// An open gate. It holds each first one of two questions whether it is open until the second one comes, so each two of
/// them are asked by two threads, each of which has come as many bursts far as the other.
#[derive(Drop)]
struct Pairing {
    asked: AtomicU32,
    missed: AtomicBool,
}

impl Gate for Pairing {
    fn enter(&self, _player: u32, _clock: u64) {}

    fn is_open(&self) -> bool {
        let number = self.asked.fetch_add(1, Ordering::SeqCst);
        if number >= QUESTIONS || number % 2 == 1 || self.missed.load(Ordering::SeqCst) {
            return true;
        }
        for _turn in 0..MOST {
            if self.asked.load(Ordering::SeqCst) > number + 1 {
                return true;
            }
            std::hint::spin_loop();
        }
        self.missed.store(true, Ordering::SeqCst);
        true
    }
}

const LONGER_JOB: &str =
    "gbalink 1\ncycles 6000\nconsole 0\nbios b\nout state\nconsole 1\nbios b\nout state\nend\n";

/// The same loop: 2,000 steps, and a pair of samples at each multiple of 512 from 512 on.
const LONGER_REPORT: &str =
    "console 0 clock 6000 frames 0 samples 11 words 0\nconsole 1 clock 6000 frames 0 samples 11 words 0\nlog ";

#[test]
fn two_bursts_meet(rt: HostRuntime) -> Result<(), Fail> {
    let gate = Pairing {
        asked: AtomicU32::new(0),
        missed: AtomicBool::new(false),
    };
    runs_through(&rt, rt.alloc(), &gate, LONGER_JOB, LONGER_REPORT)?;
    assert!(rt; !gate.missed.load(Ordering::SeqCst), "a lane asks alone");
    assert!(rt;
        gate.asked.load(Ordering::SeqCst) >= QUESTIONS,
        "no lanes go in bursts"
    );
    Ok(())
}
