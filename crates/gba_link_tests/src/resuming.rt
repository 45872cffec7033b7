//! Jobs that are run on from where they were frozen.

use crate::freezing::{BESIDE, FROZEN_AT_ONCE, JOB, STATED, first_wrong, name_of};
use crate::{
    AWAITS_MULTI, Answer, Content, Failing, STARTS_MULTI, bytes_of, call, call_with, stored,
    stored_all,
};
use Content::{Code, Filled, Text};
use Frozen::{Absent, Changed, Is};
use gba_store::StoredFile;
use std::alloc::{AllocError, Global};
use std::process::Abort;
use std::test::Fail;
use std::thread::Threads;

/// A frozen file.
#[derive(Clone, Copy)]
enum Frozen<'a> {
    /// There is none.
    Absent,
    /// It has this content.
    Is(Content<'a>),
    /// That of the job after one step, in which the first text, which stands there once, is the second one.
    Changed(&'a str, &'a str),
}

/// A call, its job `j` and its frozen file, which reads fail, its status and report, and the files under `g` by what
/// their names have behind it.
struct Case<'a> {
    words: &'a [&'a str],
    job: &'a str,
    frozen_name: &'a str,
    frozen: Frozen<'a>,
    failing: Failing<'a>,
    status: u8,
    report: &'a str,
    written: &'a [(&'a str, Option<Content<'a>>)],
}

/// From one step on to the job's end, on the way to which there are three pairs of samples.
const GOES_ON: Case<'static> = Case {
    words: &["resume", "j", "f", "g"],
    job: JOB,
    frozen_name: "f",
    frozen: Is(Text(FROZEN_AT_ONCE)),
    failing: Failing::NONE,
    status: 0,
    report: "console 0 clock 2001 frames 0 samples 3 words 0\n",
    written: &[
        (".0.samples", Some(Filled(12, 0))),
        (".0.words", Some(Text(""))),
        (".log", None),
        (".frozen", None),
    ],
};

/// Nothing is written.
const REFUSED: Case<'static> = Case {
    status: 12,
    written: &[(".0.samples", None), (".0.words", None), (".0.state", None)],
    ..GOES_ON
};

/// A digest that is stated isn't compared, and the job is the same without it; FROZEN may be named as what `freeze`
/// writes under OUT.
static ACCEPTED: [Case<'static>; 3] = [
    GOES_ON,
    Case {
        job: STATED,
        ..GOES_ON
    },
    Case {
        words: &["resume", "j", "g.frozen", "g"],
        frozen_name: "g.frozen",
        ..GOES_ON
    },
];

/// Words that are no command; FROZEN may be none of the files that a run of the job would write, and is read behind the
/// two images.
static UNREAD: [Case<'static>; 7] = [
    Case {
        words: &["resume", "j", "f"],
        status: 2,
        report: "words\n",
        ..REFUSED
    },
    Case {
        words: &["resume", "j", "-", "g"],
        status: 2,
        report: "words\n",
        ..REFUSED
    },
    Case {
        words: &["resume", "j", "f", "g", "g"],
        status: 2,
        report: "words\n",
        ..REFUSED
    },
    Case {
        words: &["resume", "j", "g.0.state", "g"],
        frozen_name: "g.0.state",
        status: 5,
        report: "job j line 0 Clash\n",
        ..REFUSED
    },
    Case {
        words: &["resume", "j", "g.log", "g"],
        frozen: Absent,
        status: 5,
        report: "job j line 0 Clash\n",
        ..REFUSED
    },
    Case {
        frozen: Absent,
        status: 3,
        report: "absent f\n",
        ..REFUSED
    },
    Case {
        failing: Failing {
            reads: &[4],
            ..Failing::NONE
        },
        status: 4,
        report: "store f\n",
        ..REFUSED
    },
];

/// The file of one step has 72 lines. That of a job with other cycles, or with other outputs, is another job's.
static UNACCEPTED: [Case<'static>; 7] = [
    Case {
        frozen: Changed("end\n", ""),
        report: "frozen f line 72 Spelling\n",
        ..REFUSED
    },
    Case {
        job: "gbalink 1\ncycles 2001\nconsole 0\nbios b\nsave s\nout samples\nout words\nout state\nend\n",
        report: "frozen f line 2 Job\n",
        ..REFUSED
    },
    Case {
        job: "gbalink 1\ncycles 2000\nconsole 0\nbios b\nsave s\nout samples\nout state\nend\n",
        report: "frozen f line 2 Job\n",
        ..REFUSED
    },
    Case {
        frozen: Changed("\nhalted 0\n", "\nhalted 2\n"),
        report: "frozen f line 6 Number\n",
        ..REFUSED
    },
    Case {
        frozen: Changed("\nwas 0\n", "\nwas 4\n"),
        report: "frozen f line 72 Unsound\n",
        ..REFUSED
    },
    Case {
        words: &["resume", "j", "j", "g"],
        frozen: Absent,
        report: "frozen j line 1 Spelling\n",
        ..REFUSED
    },
    Case {
        frozen: Is(Filled(134_217_729, b'\n')),
        report: "frozen f line 0 Spelling\n",
        ..REFUSED
    },
];

/// The bytes of the file of one step with another text in the place of one.
fn changed(alloc: Global, text: &str, other: &str) -> Result<Vec<u8>, AllocError> {
    let (front, behind) = FROZEN_AT_ONCE
        .split_once(text)
        .unwrap_or((FROZEN_AT_ONCE, ""));
    let mut bytes = Vec::from_slice(alloc, front.as_bytes())?;
    bytes.extend_from_slice(other.as_bytes())?;
    bytes.extend_from_slice(behind.as_bytes())?;
    Ok(bytes)
}

/// A job as `j`, and files beside it.
fn job_with(
    alloc: Global,
    job: &str,
    beside: &[(&str, Content<'_>)],
) -> Result<Vec<StoredFile>, AllocError> {
    let text = Vec::from_slice(alloc, job.as_bytes())?;
    stored_all(alloc, stored(alloc, "j", text)?, beside)
}

/// The files with one more.
fn with_file(
    alloc: Global,
    mut files: Vec<StoredFile>,
    name: &str,
    bytes: Vec<u8>,
) -> Result<Vec<StoredFile>, AllocError> {
    files.push(stored(alloc, name, bytes)?)?;
    Ok(files)
}

fn files_of(alloc: Global, case: &Case<'_>) -> Result<Vec<StoredFile>, AllocError> {
    let files = job_with(alloc, case.job, BESIDE)?;
    let bytes = match case.frozen {
        Absent => return Ok(files),
        Is(content) => bytes_of(alloc, content)?,
        Changed(text, other) => changed(alloc, text, other)?,
    };
    with_file(alloc, files, case.frozen_name, bytes)
}

fn play<R: Abort + Threads + Sync>(
    rt: &R,
    alloc: Global,
    case: &Case<'static>,
) -> Result<(), Fail> {
    let files = files_of(alloc, case)?;
    let answer = call_with(rt, alloc, case.words, files, case.failing)?;
    let wrong = first_wrong(alloc, &answer, case.written)?;
    assert_eq!(rt;
        (answer.status, answer.report(), wrong),
        (case.status, case.report.as_bytes(), None)
    );
    Ok(())
}

fn play_all<R: Abort + Threads + Sync>(
    rt: &R,
    alloc: Global,
    cases: &[Case<'static>],
) -> Result<(), Fail> {
    for case in cases {
        play(rt, alloc, case)?;
    }
    Ok(())
}

#[test]
fn jobs_are_resumed(rt: HostRuntime) -> Result<(), Fail> {
    play_all(&rt, rt.alloc(), &ACCEPTED)?;
    play_all(&rt, rt.alloc(), &UNREAD)?;
    play_all(&rt, rt.alloc(), &UNACCEPTED)
}

/// Counts in r1, which is the backdrop's colour.
const COUNTS_IN_COLOURS: [u32; 4] = [
    0xE3A0_0405, // 00 MOV r0, #05000000h
    0xE281_1001, // 04 ADD r1, r1, #1
    0xE1C0_10B0, // 08 STRH r1, [r0]
    0xEAFF_FFFC, // 0C B 4
];

const IMAGES: &[(&str, Content<'static>)] = &[
    ("b", Code(&STARTS_MULTI)),
    ("c", Code(&AWAITS_MULTI)),
    ("d", Code(&COUNTS_IN_COLOURS)),
];

/// The transfer starts at 817, and its END is 18 * 2 * 145 cycles later. There console 1 is between two steps, and
/// console 0 within a step from 6,036 on.
const TRANSFER: &str =
    "gbalink 1\ncycles 10000\nconsole 0\nbios b\nout samples\nout words\nout state\nconsole 1\nbios c\nout words\nout state\nout save\nend\n";

const WORDS: &str = "6037 multi 1234 abcd ffff ffff 0\n";

/// A frame is whole at 196,894 and 280,896 cycles later.
const COLOURS: &str =
    "gbalink 1\ncycles 500000\nconsole 0\nbios d\nout frames\nout samples\nout words\nout state\nout save\nend\n";

/// What a part of a job makes: the words of console 0 and of console 1, and how many bytes of frames of console 0.
struct Made<'a> {
    words: [&'a str; 2],
    frames: usize,
}

/// A job that is frozen at a clock and resumed, and what both parts make.
struct Parts<'a> {
    job: &'a str,
    clock: &'a str,
    frozen: Made<'a>,
    resumed: Made<'a>,
}

/// No words and no frames.
const NOTHING: Made<'static> = Made {
    words: ["", ""],
    frames: 0,
};

static PARTS: [Parts<'static>; 4] = [
    Parts {
        job: TRANSFER,
        clock: "1817",
        frozen: NOTHING,
        resumed: Made {
            words: [WORDS, WORDS],
            frames: 0,
        },
    },
    Parts {
        job: TRANSFER,
        clock: "6038",
        frozen: Made {
            words: ["", WORDS],
            frames: 0,
        },
        resumed: Made {
            words: [WORDS, ""],
            frames: 0,
        },
    },
    Parts {
        job: TRANSFER,
        clock: "10000",
        frozen: Made {
            words: [WORDS, WORDS],
            frames: 0,
        },
        resumed: NOTHING,
    },
    Parts {
        job: COLOURS,
        clock: "300000",
        frozen: Made {
            words: ["", ""],
            frames: 76_800,
        },
        resumed: Made {
            words: ["", ""],
            frames: 76_800,
        },
    },
];

/// What three calls with a job left.
#[derive(Drop)]
struct Calls {
    run: Answer,
    freeze: Answer,
    resume: Answer,
}

fn calls_of<R: Threads + Sync>(rt: &R, alloc: Global, parts: &Parts<'_>) -> Result<Calls, Fail> {
    let files = job_with(alloc, parts.job, IMAGES)?;
    let run = call(rt, alloc, &["run", "j", "g"], files)?;
    let files = job_with(alloc, parts.job, IMAGES)?;
    let freeze = call(rt, alloc, &["freeze", "j", parts.clock, "g"], files)?;
    let bytes = Vec::from_slice(alloc, freeze.bytes("g.frozen").ok_or("no frozen file")?)?;
    let files = with_file(alloc, job_with(alloc, parts.job, IMAGES)?, "f", bytes)?;
    let resume = call(rt, alloc, &["resume", "j", "f", "g"], files)?;
    Ok(Calls {
        run,
        freeze,
        resume,
    })
}

/// Whether bytes are those in front and those behind.
fn is_joined(whole: Option<&[u8]>, front: Option<&[u8]>, behind: Option<&[u8]>) -> bool {
    match (whole, front, behind) {
        (Some(whole), Some(front), Some(behind)) => match whole.split_at_checked(front.len()) {
            Some((one, other)) => one == front && other == behind,
            None => false,
        },
        (None, None, None) => true,
        _ => false,
    }
}

/// The outputs that grow, and those that are made at the end.
static GROWING: [&str; 4] = [".0.frames", ".0.samples", ".0.words", ".1.words"];

static LASTING: [&str; 4] = [".0.state", ".0.save", ".1.state", ".1.save"];

/// What the run writes is what it writes up to the clock, and behind that what it writes from there on.
fn are_joined<R: Abort>(rt: &R, alloc: Global, calls: &Calls) -> Result<(), Fail> {
    for &ending in &GROWING {
        let name = name_of(alloc, ending)?;
        let whole = calls.run.bytes(name.as_str());
        let front = calls.freeze.bytes(name.as_str());
        let behind = calls.resume.bytes(name.as_str());
        assert!(rt; is_joined(whole, front, behind), "{name}");
    }
    Ok(())
}

/// What the run writes at its end is written where it goes on alone.
fn are_the_last<R: Abort>(rt: &R, alloc: Global, calls: &Calls) -> Result<(), Fail> {
    for &ending in &LASTING {
        let name = name_of(alloc, ending)?;
        let last = calls.resume.bytes(name.as_str());
        assert!(rt; calls.run.bytes(name.as_str()) == last, "{name}");
        assert!(rt; calls.freeze.bytes(name.as_str()).is_none(), "{name}");
    }
    Ok(())
}

/// The summary is that of the run without its last line, which is `log` and 64 digits, and there is no log.
fn has_no_log<R: Abort>(rt: &R, calls: &Calls) {
    let lines = calls.resume.report();
    let run = calls.run.report();
    assert!(rt; run.starts_with(lines) && lines.ends_with(b"\n"));
    assert_eq!(rt; run.len(), lines.len().saturating_add(69));
    assert!(rt; calls.resume.bytes("g.log").is_none());
}

/// A file, or nothing where there is none.
fn content<'a>(answer: &'a Answer, name: &str) -> &'a [u8] {
    answer.bytes(name).unwrap_or(b"".as_slice())
}

fn has_made<R: Abort>(rt: &R, answer: &Answer, made: &Made<'_>) {
    let [first, second] = made.words;
    assert_eq!(rt; content(answer, "g.0.words"), first.as_bytes());
    assert_eq!(rt; content(answer, "g.1.words"), second.as_bytes());
    assert_eq!(rt; content(answer, "g.0.frames").len(), made.frames);
}

#[test]
fn parts_are_the_run(rt: HostRuntime) -> Result<(), Fail> {
    for parts in &PARTS {
        let calls = calls_of(&rt, rt.alloc(), parts)?;
        let statuses = [calls.run.status, calls.freeze.status, calls.resume.status];
        assert_eq!(rt; statuses, [0, 0, 0], "at {}", parts.clock);
        are_joined(&rt, rt.alloc(), &calls)?;
        are_the_last(&rt, rt.alloc(), &calls)?;
        has_no_log(&rt, &calls);
        has_made(&rt, &calls.freeze, &parts.frozen);
        has_made(&rt, &calls.resume, &parts.resumed);
    }
    Ok(())
}
