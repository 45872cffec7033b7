//! The top call over files in memory.

use crate::{Answer, Content, Expected, Failing, call_with, is_as_expected, stored, stored_all};
use Content::{Cartridge, Code, Filled, Padded, Text};
use Expected::{Absent, Holds, Is, Present};
use Report::{Exactly, Lines};
use std::alloc::Global;
use std::process::Abort;
use std::test::Fail;
use std::thread::Threads;

const BRANCH: &str = "gbalink 1\ncycles 1\nconsole 0\nbios b\nout state\nend\n";

/// A branch to itself.
const LOOP: &[u32] = &[0xEAFF_FFFE];

const STATE_OF_BRANCH: &str = "gbalink-state 1\nconsole 0\nclock 3\nhalted 0\n\
r0 00000000\nr1 00000000\nr2 00000000\nr3 00000000\nr4 00000000\nr5 00000000\nr6 00000000\nr7 00000000\n\
r8 00000000\nr9 00000000\nr10 00000000\nr11 00000000\nr12 00000000\nr13 00000000\nr14 00000000\nr15 00000000\n\
r8_fiq 00000000\nr9_fiq 00000000\nr10_fiq 00000000\nr11_fiq 00000000\nr12_fiq 00000000\nr13_fiq 00000000\nr14_fiq 00000000\n\
r13_irq 00000000\nr14_irq 00000000\nr13_svc 00000000\nr14_svc 00000000\nr13_abt 00000000\nr14_abt 00000000\n\
r13_und 00000000\nr14_und 00000000\ncpsr 000000d3\n\
spsr_fiq 00000000\nspsr_irq 00000000\nspsr_svc 00000000\nspsr_abt 00000000\nspsr_und 00000000\n\
timer 0 0 0 0 0\ntimer 1 0 0 0 0\ntimer 2 0 0 0 0\ntimer 3 0 0 0 0\n\
dma 0 0 0 0 0 0\ndma 1 0 0 0 0 0\ndma 2 0 0 0 0 0\ndma 3 0 0 0 0 0\nqueue A 00 0 -\nqueue B 00 0 -\nsequencer 0\ntone 1 0 0 0 0 0 0 0 0\ntone 2 0 0 0 0 0 0 0 0\ntone 3 0 0 0 0 0 0 0 0\ntone 4 0 0 0 0 0 0 0 0\nwave 0 00000000000000000000000000000000\nwave 1 00000000000000000000000000000000\nposition 0 3\naffine 2 00000000 00000000\naffine 3 00000000 00000000\nserial 3 0 0 0 0 0 0\nknown 3 3 3 3\n\
mem io 000000 0000000004000000000000000000000000000000000000000000000000000000\nmem io 000080 0000000000000000000200000000000000000000000000000000000000000000\n\
mem io 000120 00000000000000000000000000000000ff030000008000000000000000000000\n";

const LOG_OF_BRANCH: &str =
    "gbalink 2\ncycles 1\nlink 0 1 512\nlink 1 0 512\nconsole 0\nbios b sha256 42bc114dbdbbee2e759ce16f2cb8804ae18fefe935a14951d0e07af2a3401d8b\nout state sha256 f5635389d90d8739668892422cd55855e02eebb63ce16ebf1b2d14bf7a5c39a8\nend\n";

const SUMMARY_OF_BRANCH: &str =
    "console 0 clock 3 frames 0 samples 0 words 0\nlog f0f5c63d29f7f0304c4f4e6f373d9202368007cebc84d1f95433d2e8527c53ce\n";

const HALF_OF_STATE: &str =
    "gbalink-state 1\nconsole 0\nclock 3\nhalted 0\nr0 00000000\nr1 00000000\nr2 00000000\nr3 00000000\nr4 00000000\nr5 00000000\nr6 00000000\nr7 00000000\nr8 00000000\nr9 00000000\nr10 00000000\nr11 00000000\nr12 00000000\nr13 00000000\nr14 00000000\nr15 00000000\nr8_fiq 00000000\nr9_fiq 00000000\nr10_fiq 00000000\nr11_fiq 00000000\nr12_fiq 00000000\nr13_fiq 00000000\nr14_fiq 00000000\nr13_irq 00000000\nr14_irq 00000000\nr13_svc 00000000\nr14_svc 00000000\nr13_abt 00000000\nr14_abt 00000000\nr13_und 00000000\nr14_und 00000000\ncpsr 000000d3\nspsr_fiq 00000000\nspsr_irq 00000000\nspsr_svc 00000000\nspsr_abt 00000000\nspsr_und 00000000\ntimer 0 0 0 0 0\ntimer 1 0 0 0 0\ntimer 2 0";

const HALF_OF_LOG: &str =
    "gbalink 2\ncycles 1\nlink 0 1 512\nlink 1 0 512\nconsole 0\nbios b sha256 42bc114dbdbbee2e759ce16f2cb8804ae18fefe93";

const HALF_OF_SUMMARY_AND_REPORT: &str =
    "console 0 clock 3 frames 0 samples 0 words 0\nlog f0f5c63dsink -\n";

const NO_LAST_LINE_FEED: &str = "gbalink 1\ncycles 1\nconsole 0\nbios b\nout state\nend";

/// 180 bytes, and one more.
const LONGEST_OUT: &str =
    "oooooooooooooooooooooooooooooooooooooooooooooooooooooooooooooooooooooooooooooooooooooooooooooooooooooooooooooooooooooooooooooooooooooooooooooooooooooooooooooooooooooooooooooooooooo";

const LONG_OUT: &str =
    "ooooooooooooooooooooooooooooooooooooooooooooooooooooooooooooooooooooooooooooooooooooooooooooooooooooooooooooooooooooooooooooooooooooooooooooooooooooooooooooooooooooooooooooooooooooo";

/// What a call reports.
#[derive(Clone, Copy)]
enum Report<'a> {
    /// This text.
    Exactly(&'a str),
    /// A summary with these lines of consoles, and the log's line with 64 digits behind them.
    Lines(&'a str),
}

/// One call: its words, its job and the files beside it, which calls of the outside fail, and what must come of it,
/// with the files under an OUT by what their names have behind it.
#[derive(Clone, Copy)]
struct Case<'a> {
    words: &'a [&'a str],
    job_name: &'a str,
    job: &'a str,
    beside: &'a [(&'a str, Content<'a>)],
    failing: Failing<'a>,
    status: u8,
    report: Report<'a>,
    under: &'a str,
    written: &'a [(&'a str, Expected<'a>)],
}

/// The call `run j g` on the branch's job and image.
const PLAIN: Case<'static> = Case {
    words: &["run", "j", "g"],
    job_name: "j",
    job: BRANCH,
    beside: &[("b", Code(LOOP))],
    failing: Failing::NONE,
    status: 0,
    report: Exactly(SUMMARY_OF_BRANCH),
    under: "g",
    written: &[
        (".0.state", Is(Text(STATE_OF_BRANCH))),
        (".log", Is(Text(LOG_OF_BRANCH))),
    ],
};

/// The same, which is refused before anything is written.
const REFUSED: Case<'static> = Case {
    written: &[(".0.state", Absent), (".log", Absent)],
    ..PLAIN
};

/// A call reports this and ends with this status.
fn answered<R: Abort>(rt: &R, answer: &Answer, status: u8, report: Report<'_>) {
    let found = answer.report();
    match report {
        Exactly(text) => assert_eq!(rt; (answer.status, found), (status, text.as_bytes())),
        Lines(lines) => {
            assert_eq!(rt; (answer.status, found.len()), (status, lines.len() + 69));
            assert!(rt; found.starts_with(lines.as_bytes()), "the lines");
        }
    }
}

/// Plays a case, and compares the status, standard output and the files under its OUT.
fn play<R: Abort + Threads + Sync>(rt: &R, alloc: Global, case: &Case<'_>) -> Result<(), Fail> {
    let text = Vec::from_slice(alloc, case.job.as_bytes())?;
    let files = stored_all(alloc, stored(alloc, case.job_name, text)?, case.beside)?;
    let answer = call_with(rt, alloc, case.words, files, case.failing)?;
    answered(rt, &answer, case.status, case.report);
    for &(ending, expected) in case.written {
        let mut name = String::from_str(alloc, case.under)?;
        name.push_str(ending)?;
        let found = answer.bytes(name.as_str());
        assert!(rt; is_as_expected(alloc, found, expected)?, "of {name}");
    }
    Ok(())
}

fn play_all<R: Abort + Threads + Sync>(
    rt: &R,
    alloc: Global,
    cases: &[Case<'_>],
) -> Result<(), Fail> {
    for case in cases {
        play(rt, alloc, case)?;
    }
    Ok(())
}

#[test]
fn branch_runs_one_step(rt: HostRuntime) -> Result<(), Fail> {
    play(&rt, rt.alloc(), &BRANCHES)
}

/// One branch.
static BRANCHES: Case<'static> = PLAIN;

/// Words that are no command.
const NO_COMMAND: Case<'static> = Case {
    status: 2,
    report: Exactly("words\n"),
    ..REFUSED
};

const LINE_OF_BRANCH: &str =
    "0 0 arm 00000000 eafffffe 00000000 00000000 00000000 00000000 00000000 00000000 00000000 00000000 00000000 00000000 00000000 00000000 00000000 00000000 00000000 00000000 000000d3 ; b 0x00000000\n";

const LINES_OF_FOUR: &str =
    "3 0 arm 00000000 eafffffe 00000000 00000000 00000000 00000000 00000000 00000000 00000000 00000000 00000000 00000000 00000000 00000000 00000000 00000000 00000000 00000000 000000d3 ; b 0x00000000\n0 3 arm 00000000 eafffffe 00000000 00000000 00000000 00000000 00000000 00000000 00000000 00000000 00000000 00000000 00000000 00000000 00000000 00000000 00000000 00000000 000000d3 ; b 0x00000000\n1 3 arm 00000000 eafffffe 00000000 00000000 00000000 00000000 00000000 00000000 00000000 00000000 00000000 00000000 00000000 00000000 00000000 00000000 00000000 00000000 000000d3 ; b 0x00000000\n";

const LINES_WITH_OFF: &str =
    "0 0 arm 00000000 eafffffe 00000000 00000000 00000000 00000000 00000000 00000000 00000000 00000000 00000000 00000000 00000000 00000000 00000000 00000000 00000000 00000000 000000d3 ; b 0x00000000\n1 0 off 00000000 00000000 00000000 00000000 00000000 00000000 00000000 00000000 00000000 00000000 00000000 00000000 00000000 00000000 00000000 00000000 000000d3\n0 3 arm 00000000 eafffffe 00000000 00000000 00000000 00000000 00000000 00000000 00000000 00000000 00000000 00000000 00000000 00000000 00000000 00000000 00000000 00000000 000000d3 ; b 0x00000000\n";

/// The steps of the branch's job as lines: it writes the trace alone.
const TRACED: Case<'static> = Case {
    words: &["trace", "j", "0", "5", "g"],
    report: Exactly("trace 1\n"),
    written: &[
        (".trace", Is(Text(LINE_OF_BRANCH))),
        (".0.state", Absent),
        (".log", Absent),
    ],
    ..PLAIN
};

/// A trace that is refused writes nothing.
const NO_TRACE: Case<'static> = Case {
    status: 5,
    written: &[(".trace", Absent), (".0.state", Absent), (".log", Absent)],
    ..TRACED
};

/// All steps, none behind the end, some of four consoles whose clocks are equal, and those of a console that is off;
/// traces that would be JOB or an input, as would an output of its run; and a run for which that name is free.
static TRACES: [Case<'static>; 8] = [
    TRACED,
    Case {
        words: &["trace", "j", "1", "1000000", "g"],
        report: Exactly("trace 0\n"),
        written: &[(".trace", Is(Text("")))],
        ..TRACED
    },
    Case {
        words: &["trace", "j", "3", "3", "g"],
        job: "gbalink 1\ncycles 4\nconsole 0\nbios b\nout words\nconsole 1\nbios b\nout words\nconsole 2\nbios b\nout words\nconsole 3\nbios b\nout words\nend\n",
        report: Exactly("trace 3\n"),
        written: &[(".trace", Is(Text(LINES_OF_FOUR))), (".0.words", Absent)],
        ..TRACED
    },
    Case {
        words: &["trace", "j", "0", "9", "g"],
        job: "gbalink 2\ncycles 4\nconsole 0\nbios b\nconsole 1\nbios b\noff 16\nend\n",
        report: Exactly("trace 3\n"),
        written: &[(".trace", Is(Text(LINES_WITH_OFF)))],
        ..TRACED
    },
    Case {
        words: &["trace", "g.trace", "0", "1", "g"],
        job_name: "g.trace",
        report: Exactly("job g.trace line 0 Clash\n"),
        written: &[(".0.state", Absent), (".log", Absent)],
        ..NO_TRACE
    },
    Case {
        job: "gbalink 1\ncycles 1\nconsole 0\nbios g.trace\nend\n",
        report: Exactly("job j line 4 Clash\n"),
        ..NO_TRACE
    },
    Case {
        job: "gbalink 1\ncycles 1\nconsole 0\nbios g.0.state\nout state\nend\n",
        report: Exactly("job j line 4 Clash\n"),
        ..NO_TRACE
    },
    Case {
        words: &["run", "g.trace", "g"],
        job_name: "g.trace",
        ..PLAIN
    },
];

#[test]
fn steps_are_traced(rt: HostRuntime) -> Result<(), Fail> {
    play_all(&rt, rt.alloc(), &TRACES)
}

static WRONG_WORDS: [Case<'static>; 12] = [
    Case {
        words: &[],
        ..NO_COMMAND
    },
    Case {
        words: &["run", "j"],
        ..NO_COMMAND
    },
    Case {
        words: &["run", "j", "g", "g"],
        ..NO_COMMAND
    },
    Case {
        words: &["walk", "j", "g"],
        ..NO_COMMAND
    },
    Case {
        words: &["run", "-", "g"],
        ..NO_COMMAND
    },
    Case {
        words: &["run", "j", "-"],
        ..NO_COMMAND
    },
    Case {
        words: &["run", "", "g"],
        ..NO_COMMAND
    },
    Case {
        words: &["run", "j k", "g"],
        ..NO_COMMAND
    },
    Case {
        words: &["run", "j", "g:"],
        ..NO_COMMAND
    },
    Case {
        words: &["run", "j@", "g"],
        ..NO_COMMAND
    },
    Case {
        words: &["run", "j\u{e9}", "g"],
        ..NO_COMMAND
    },
    Case {
        words: &["run", "j", LONG_OUT],
        ..NO_COMMAND
    },
];

#[test]
fn words_are_refused(rt: HostRuntime) -> Result<(), Fail> {
    play_all(&rt, rt.alloc(), &WRONG_WORDS)
}

/// An image that is no BIOS.
const NO_BIOS: Case<'static> = Case {
    status: 6,
    report: Exactly("image b BiosLength\n"),
    ..REFUSED
};

/// Images, and what is answered for them.
static JUDGED_IMAGES: [Case<'static>; 4] = [
    Case {
        beside: &[],
        status: 3,
        report: Exactly("absent b\n"),
        ..REFUSED
    },
    Case {
        beside: &[("b", Padded(LOOP, 16_383))],
        ..NO_BIOS
    },
    Case {
        beside: &[("b", Padded(LOOP, 16_385))],
        ..NO_BIOS
    },
    Case {
        beside: &[("b", Padded(&[], 0))],
        ..NO_BIOS
    },
];

#[test]
fn images_are_judged(rt: HostRuntime) -> Result<(), Fail> {
    play_all(&rt, rt.alloc(), &JUDGED_IMAGES)
}

/// Reads that fail. The report names the file that was to be read next, and no read follows.
static FAILING_READS: [Case<'static>; 4] = [
    Case {
        failing: Failing {
            reads: &[1],
            ..Failing::NONE
        },
        status: 4,
        report: Exactly("store j\n"),
        ..REFUSED
    },
    Case {
        failing: Failing {
            reads: &[2],
            ..Failing::NONE
        },
        status: 4,
        report: Exactly("store b\n"),
        ..REFUSED
    },
    Case {
        failing: Failing {
            reads: &[1, 2],
            ..Failing::NONE
        },
        status: 4,
        report: Exactly("store j\n"),
        ..REFUSED
    },
    Case {
        failing: Failing {
            reads: &[3, 2],
            ..Failing::NONE
        },
        status: 4,
        report: Exactly("store b\n"),
        ..REFUSED
    },
];

/// Creates and appends that fail. All files are created before any has a byte, and the log is the last of them.
static FAILING_WRITES: [Case<'static>; 5] = [
    Case {
        failing: Failing {
            creates: &[1],
            ..Failing::NONE
        },
        status: 9,
        report: Exactly("sink g.0.state\n"),
        written: &[(".0.state", Absent), (".log", Absent)],
        ..PLAIN
    },
    Case {
        failing: Failing {
            creates: &[2],
            ..Failing::NONE
        },
        status: 9,
        report: Exactly("sink g.log\n"),
        written: &[(".0.state", Is(Text(""))), (".log", Absent)],
        ..PLAIN
    },
    Case {
        failing: Failing {
            appends: &[1],
            ..Failing::NONE
        },
        status: 9,
        report: Exactly("sink g.0.state\n"),
        written: &[
            (".0.state", Is(Text(HALF_OF_STATE))),
            (".log", Is(Text(""))),
        ],
        ..PLAIN
    },
    Case {
        failing: Failing {
            appends: &[2],
            ..Failing::NONE
        },
        status: 9,
        report: Exactly("sink g.log\n"),
        written: &[
            (".0.state", Is(Text(STATE_OF_BRANCH))),
            (".log", Is(Text(HALF_OF_LOG))),
        ],
        ..PLAIN
    },
    Case {
        failing: Failing {
            appends: &[3],
            ..Failing::NONE
        },
        status: 9,
        report: Exactly(HALF_OF_SUMMARY_AND_REPORT),
        written: &[
            (".0.state", Is(Text(STATE_OF_BRANCH))),
            (".log", Is(Text(LOG_OF_BRANCH))),
        ],
        ..PLAIN
    },
];

/// The reads, creates and appends that fail. A failed create leaves no file, and a failed append half of its piece.
#[test]
fn failing_calls_are_told(rt: HostRuntime) -> Result<(), Fail> {
    play_all(&rt, rt.alloc(), &FAILING_READS)?;
    play_all(&rt, rt.alloc(), &FAILING_WRITES)
}

/// A file that isn't there, a job without its last line feed, which is a job, and reports that are refused: the status
/// stays.
static REFUSALS: [Case<'static>; 4] = [
    Case {
        words: &["run", "none", "g"],
        status: 3,
        report: Exactly("absent none\n"),
        ..REFUSED
    },
    Case {
        job: NO_LAST_LINE_FEED,
        ..PLAIN
    },
    Case {
        words: &["run", "none", "g"],
        failing: Failing {
            appends: &[1],
            ..Failing::NONE
        },
        status: 3,
        report: Exactly("absent"),
        ..REFUSED
    },
    Case {
        words: &["run"],
        failing: Failing {
            appends: &[1],
            ..Failing::NONE
        },
        status: 2,
        report: Exactly("wor"),
        ..REFUSED
    },
];

#[test]
fn refusals_keep_their_status(rt: HostRuntime) -> Result<(), Fail> {
    play_all(&rt, rt.alloc(), &REFUSALS)
}

/// A file that is no job.
const NO_JOB: Case<'static> = Case {
    status: 5,
    ..REFUSED
};

/// Jobs whose run would write the job, one of their inputs, the log or another console's output, with the least such
/// line; and the longest names.
static NAMES: [Case<'static>; 5] = [
    Case {
        words: &["run", "g.0.state", "g"],
        job_name: "g.0.state",
        report: Exactly("job g.0.state line 0 Clash\n"),
        ..NO_JOB
    },
    Case {
        job: "gbalink 1\ncycles 1\nconsole 0\nbios g.0.state\nout state\nend\n",
        report: Exactly("job j line 4 Clash\n"),
        ..NO_JOB
    },
    Case {
        job: "gbalink 1\ncycles 1\nconsole 0\nbios g.log\nend\n",
        report: Exactly("job j line 4 Clash\n"),
        ..NO_JOB
    },
    Case {
        job: "gbalink 1\ncycles 1\nconsole 0\nbios b\nkeys g.1.words\nconsole 1\nsave g.1.words\nbios g.log\nout words\nend\n",
        report: Exactly("job j line 5 Clash\n"),
        ..NO_JOB
    },
    Case {
        words: &["run", "j", LONGEST_OUT],
        under: LONGEST_OUT,
        ..PLAIN
    },
];

#[test]
fn names_at_their_edges(rt: HostRuntime) -> Result<(), Fail> {
    play_all(&rt, rt.alloc(), &NAMES)
}

/// Files that are no jobs, and the report of each.
static WRONG_JOBS: [Case<'static>; 19] = [
    Case {
        job: "",
        report: Exactly("job j line 1 Missing\n"),
        ..NO_JOB
    },
    Case {
        job: "gbalink 3\n",
        report: Exactly("job j line 1 Word\n"),
        ..NO_JOB
    },
    Case {
        job: "gbalink 1\ncycles 0\n",
        report: Exactly("job j line 2 Number\n"),
        ..NO_JOB
    },
    Case {
        job: "gbalink 1\ncycles 2147483649\nconsole 0\n",
        report: Exactly("job j line 2 Number\n"),
        ..NO_JOB
    },
    Case {
        job: "gbalink 1\ncycles 1\nconsole 0\nbios b\nbios b\nout state\nend\n",
        report: Exactly("job j line 5 Repeated\n"),
        ..NO_JOB
    },
    Case {
        job: "gbalink 1\ncycles 1\nconsole 0\nbios b\nout state\n",
        report: Exactly("job j line 6 Missing\n"),
        ..NO_JOB
    },
    Case {
        job: "gbalink 1\ncycles 1\nconsole 0\nbios -\nout state\nend\n",
        report: Exactly("job j line 4 Name\n"),
        ..NO_JOB
    },
    Case {
        job: "gbalink 1\ncycles 1\nbios b\n",
        report: Exactly("job j line 3 Order\n"),
        ..NO_JOB
    },
    Case {
        job: "gbalink 1\ncycles 1\nconsole 0\nbios b c\n",
        report: Exactly("job j line 4 Word\n"),
        ..NO_JOB
    },
    Case {
        job: "gbalink 1\ncycles 1\nconsole 0\nbios b sha256\n",
        report: Exactly("job j line 4 Missing\n"),
        ..NO_JOB
    },
    Case {
        job: "gbalink 1\ncycles 1\nconsole 0\nbios b sha256 00\n",
        report: Exactly("job j line 4 Digest\n"),
        ..NO_JOB
    },
    Case {
        job: "gbalink 1\ncycles 1\nconsole 0\nbios b sha256 0000000000000000000000000000000000000000000000000000000000000000 c\n",
        report: Exactly("job j line 4 Extra\n"),
        ..NO_JOB
    },
    Case {
        job: "gbalink 1\ncycles 1\ndelay 1025\n",
        report: Exactly("job j line 3 Number\n"),
        ..NO_JOB
    },
    Case {
        job: "gbalink 1\ncycles 1\nconsole 1\n",
        report: Exactly("job j line 3 Order\n"),
        ..NO_JOB
    },
    Case {
        job: "gbalink 1\ncycles 1\nconsole 0\nbios b\nconsole 4\n",
        report: Exactly("job j line 5 Order\n"),
        ..NO_JOB
    },
    Case {
        job: "gbalink 1\ncycles 1\nconsole 0\nbios b\nout frame\n",
        report: Exactly("job j line 5 Word\n"),
        ..NO_JOB
    },
    Case {
        job: "gbalink 1\ncycles 1\x7f\n",
        report: Exactly("job j line 2 Byte\n"),
        ..NO_JOB
    },
    Case {
        job: "gbalink 1\ncycles 1\nconsole 0\nbios b\nout state\nend\nend\n",
        report: Exactly("job j line 7 Extra\n"),
        ..NO_JOB
    },
    Case {
        job: "gbalink 1\ncycles 1\nconsole 0\nout state\nend\n",
        report: Exactly("job j line 5 Missing\n"),
        ..NO_JOB
    },
];

const LOG_OF_SILENCE: &str =
    "gbalink 2\ncycles 1\nlink 0 1 512\nlink 1 0 512\nconsole 0\nbios b sha256 42bc114dbdbbee2e759ce16f2cb8804ae18fefe935a14951d0e07af2a3401d8b\nend\n";

const SUMMARY_OF_SILENCE: &str =
    "console 0 clock 3 frames 0 samples 0 words 0\nlog ac045c9b0192e3954cd28375232e13a43d0bfae63455a440a8f8b8ea5c1f04f8\n";

/// Other spellings of jobs of one branch, their logs and their summaries. The first is the log that an older
/// program wrote.
static OTHER_SPELLINGS: [Case<'static>; 5] = [
    Case {
        job: "gbalink 1\ncycles 1\ndelay 512\nconsole 0\nbios b sha256 42bc114dbdbbee2e759ce16f2cb8804ae18fefe935a14951d0e07af2a3401d8b\nout state sha256 f5635389d90d8739668892422cd55855e02eebb63ce16ebf1b2d14bf7a5c39a8\nend\n",
        ..PLAIN
    },
    Case {
        job: "gbalink 1\r\ncycles 1\r\nconsole 0\r\nbios b\r\nout state\r\nend\r\n",
        ..PLAIN
    },
    Case {
        job: "# one branch\n\n \tgbalink\t1 \ncycles 00000000000000000003\n#\nconsole 0\nout state\nbios b\nend\n\n# done",
        report: Exactly(
            "console 0 clock 3 frames 0 samples 0 words 0\nlog 28c1000a6f19d12c1d68071d0a6c8d15634d12ac9b1beb6859588e395d4570f6\n",
        ),
        written: &[
            (".0.state", Is(Text(STATE_OF_BRANCH))),
            (
                ".log",
                Is(Text(
                    "gbalink 2\ncycles 3\nlink 0 1 512\nlink 1 0 512\nconsole 0\nbios b sha256 42bc114dbdbbee2e759ce16f2cb8804ae18fefe935a14951d0e07af2a3401d8b\nout state sha256 f5635389d90d8739668892422cd55855e02eebb63ce16ebf1b2d14bf7a5c39a8\nend\n",
                )),
            ),
        ],
        ..PLAIN
    },
    Case {
        job: "gbalink 1\ncycles 1\nconsole 0\nbios b\nout state\nend",
        ..PLAIN
    },
    Case {
        job: "gbalink 1\ndelay 0512\ncycles 2\nconsole 00\nbios b\nout state\nend\n",
        report: Exactly(
            "console 0 clock 3 frames 0 samples 0 words 0\nlog feed5dc2b2c15195e7eccfb239a2678cf1f90ef0038e51bde5dd01d914312357\n",
        ),
        written: &[
            (".0.state", Is(Text(STATE_OF_BRANCH))),
            (
                ".log",
                Is(Text(
                    "gbalink 2\ncycles 2\nlink 0 1 512\nlink 1 0 512\nconsole 0\nbios b sha256 42bc114dbdbbee2e759ce16f2cb8804ae18fefe935a14951d0e07af2a3401d8b\nout state sha256 f5635389d90d8739668892422cd55855e02eebb63ce16ebf1b2d14bf7a5c39a8\nend\n",
                )),
            ),
        ],
        ..PLAIN
    },
];

/// A job that asks for nothing.
static SILENCE: Case<'static> = Case {
    job: "gbalink 1\ncycles 1\nconsole 0\nbios b\nend\n",
    report: Exactly(SUMMARY_OF_SILENCE),
    written: &[(".0.state", Absent), (".log", Is(Text(LOG_OF_SILENCE)))],
    ..PLAIN
};

#[test]
fn jobs_are_read_or_refused(rt: HostRuntime) -> Result<(), Fail> {
    play_all(&rt, rt.alloc(), &WRONG_JOBS)?;
    play_all(&rt, rt.alloc(), &OTHER_SPELLINGS)?;
    play(&rt, rt.alloc(), &SILENCE)
}

/// Programs, and what their consoles have at the end.
static PROGRAMS: [Case<'static>; 3] = [
    // MOV r1, #03000000h; MOV r2, #5; STR r2, [r1, #20h]; B to itself: the second row of the inner RAM.
    Case {
        job: "gbalink 1\ncycles 5\nconsole 0\nbios b\nout state\nend\n",
        beside: &[(
            "b",
            Code(&[0xE3A0_1403, 0xE3A0_2005, 0xE581_2020, 0xEAFF_FFFE]),
        )],
        report: Lines("console 0 clock 7 frames 0 samples 0 words 0\n"),
        written: &[(
            ".0.state",
            Holds {
                pieces: &["\nclock 7\n", "\nr1 03000000\nr2 00000005\n"],
                end: "\nspsr_und 00000000\ntimer 0 0 0 0 0\ntimer 1 0 0 0 0\ntimer 2 0 0 0 0\ntimer 3 0 0 0 0\ndma 0 0 0 0 0 0\ndma 1 0 0 0 0 0\ndma 2 0 0 0 0 0\ndma 3 0 0 0 0 0\nqueue A 00 0 -\nqueue B 00 0 -\nsequencer 0\ntone 1 0 0 0 0 0 0 0 0\ntone 2 0 0 0 0 0 0 0 0\ntone 3 0 0 0 0 0 0 0 0\ntone 4 0 0 0 0 0 0 0 0\nwave 0 00000000000000000000000000000000\nwave 1 00000000000000000000000000000000\nposition 0 7\naffine 2 00000000 00000000\naffine 3 00000000 00000000\nserial 3 0 0 0 0 0 0\nknown 3 3 3 3\nmem io 000000 0000000004000000000000000000000000000000000000000000000000000000\nmem io 000080 0000000000000000000200000000000000000000000000000000000000000000\nmem io 000120 00000000000000000000000000000000ff030000008000000000000000000000\nmem iwram 000020 0500000000000000000000000000000000000000000000000000000000000000\n",
            },
        )],
        ..PLAIN
    },
    // MOV r0, #5 and a branch to itself.
    Case {
        job: "gbalink 1\ncycles 10\nconsole 0\nbios b\nout state\nend\n",
        beside: &[("b", Code(&[0xE3A0_0005, 0xEAFF_FFFE]))],
        report: Lines("console 0 clock 10 frames 0 samples 0 words 0\n"),
        written: &[(
            ".0.state",
            Holds {
                pieces: &["\nclock 10\n", "\nr0 00000005\n", "\nr15 00000004\n"],
                end: "\nspsr_und 00000000\ntimer 0 0 0 0 0\ntimer 1 0 0 0 0\ntimer 2 0 0 0 0\ntimer 3 0 0 0 0\ndma 0 0 0 0 0 0\ndma 1 0 0 0 0 0\ndma 2 0 0 0 0 0\ndma 3 0 0 0 0 0\nqueue A 00 0 -\nqueue B 00 0 -\nsequencer 0\ntone 1 0 0 0 0 0 0 0 0\ntone 2 0 0 0 0 0 0 0 0\ntone 3 0 0 0 0 0 0 0 0\ntone 4 0 0 0 0 0 0 0 0\nwave 0 00000000000000000000000000000000\nwave 1 00000000000000000000000000000000\nposition 0 10\naffine 2 00000000 00000000\naffine 3 00000000 00000000\nserial 3 0 0 0 0 0 0\nknown 3 3 3 3\nmem io 000000 0000000004000000000000000000000000000000000000000000000000000000\nmem io 000080 0000000000000000000200000000000000000000000000000000000000000000\nmem io 000120 00000000000000000000000000000000ff030000008000000000000000000000\n",
            },
        )],
        ..PLAIN
    },
    // MOV r0, #9; BX r0; at 8 LDRSB r0, [r7, r1] of address 0 in 3 cycles, ASR r4, r6, #8 and LSL r0, r0, #0 twice.
    Case {
        job: "gbalink 1\ncycles 10\nconsole 0\nbios b\nout state\nend\n",
        beside: &[("b", Code(&[0xE3A0_0009, 0xE12F_FF10, 0x1234_5678]))],
        report: Lines("console 0 clock 10 frames 0 samples 0 words 0\n"),
        written: &[(
            ".0.state",
            Holds {
                pieces: &["\nr0 00000009\n", "\nr15 00000010\n", "\ncpsr 000000f3\n"],
                end: "",
            },
        )],
        ..PLAIN
    },
];

/// MOV r0, #5 and a branch to itself for 10 cycles; a table of two words in the inner RAM; a BIOS that enters
/// Thumb state.
#[test]
fn programs_run_to_their_states(rt: HostRuntime) -> Result<(), Fail> {
    play_all(&rt, rt.alloc(), &PROGRAMS)
}

/// A job of a console with every image, which asks for its state and its save.
const WITH_IMAGES: Case<'static> = Case {
    job: "gbalink 1\ncycles 10\nconsole 0\nsave s\ncart c\nbios b\nout save\nout state\nend\n",
    status: 6,
    written: &[(".0.state", Absent), (".0.save", Absent), (".log", Absent)],
    ..PLAIN
};

/// The images that such a console runs with.
const BIOS: (&str, Content<'static>) = ("b", Code(LOOP));

const CART: (&str, Content<'static>) = (
    "c",
    Cartridge {
        length: 192,
        fixed: 0x96,
        check: 0x51,
    },
);

const SAVE: (&str, Content<'static>) = ("s", Filled(32_768, 0xA5));

static IMAGES: [Case<'static>; 9] = [
    Case {
        beside: &[],
        status: 3,
        report: Exactly("absent b\n"),
        ..WITH_IMAGES
    },
    Case {
        beside: &[("b", Padded(LOOP, 16_383))],
        report: Exactly("image b BiosLength\n"),
        ..WITH_IMAGES
    },
    Case {
        beside: &[BIOS, SAVE],
        status: 3,
        report: Exactly("absent c\n"),
        ..WITH_IMAGES
    },
    Case {
        beside: &[
            BIOS,
            (
                "c",
                Cartridge {
                    length: 191,
                    fixed: 0x96,
                    check: 0x51,
                },
            ),
        ],
        report: Exactly("image c TooShort\n"),
        ..WITH_IMAGES
    },
    Case {
        beside: &[
            BIOS,
            (
                "c",
                Cartridge {
                    length: 192,
                    fixed: 0,
                    check: 0,
                },
            ),
            SAVE,
        ],
        report: Exactly("image c FixedByte\n"),
        ..WITH_IMAGES
    },
    Case {
        beside: &[
            BIOS,
            (
                "c",
                Cartridge {
                    length: 192,
                    fixed: 0x96,
                    check: 0,
                },
            ),
            SAVE,
        ],
        report: Exactly("image c HeaderCheck\n"),
        ..WITH_IMAGES
    },
    Case {
        beside: &[BIOS, CART],
        status: 3,
        report: Exactly("absent s\n"),
        ..WITH_IMAGES
    },
    Case {
        beside: &[BIOS, CART, ("s", Filled(32_767, 0xA5))],
        report: Exactly("image s SaveLength\n"),
        ..WITH_IMAGES
    },
    Case {
        beside: &[BIOS, CART, ("s", Filled(32_769, 0xA5))],
        report: Exactly("image s SaveLength\n"),
        ..WITH_IMAGES
    },
];

/// Each image is read and checked in its order: the BIOS, the cartridge, the save. The first refusal is told, and
/// nothing is written.
#[test]
fn images_are_checked_in_their_order(rt: HostRuntime) -> Result<(), Fail> {
    play_all(&rt, rt.alloc(), &IMAGES)
}

/// The images are right.
const WITH_SAVE: Case<'static> = Case {
    beside: &[BIOS, CART, SAVE],
    status: 0,
    report: Lines("console 0 clock 12 frames 0 samples 0 words 0\n"),
    written: &[(".0.state", Present), (".0.save", Is(Filled(32_768, 0xA5)))],
    ..WITH_IMAGES
};

/// A job of a console whose cartridge has a flash of 65,536 bytes.
const WITH_FLASH: Case<'static> = Case {
    job: "gbalink 2\ncycles 10\nconsole 0\nsave s\ncart c\nbackup flash64\nbios b\nout save\nend\n",
    ..WITH_SAVE
};

/// A save for each kind of backup, and none with the larger flash; a save for another kind, which is refused.
static SAVED: [Case<'static>; 6] = [
    WITH_SAVE,
    Case {
        beside: &[BIOS, CART, ("s", Filled(65_536, 0xA5))],
        written: &[(".0.save", Is(Filled(65_536, 0xA5)))],
        ..WITH_FLASH
    },
    Case {
        job: "gbalink 2\ncycles 10\nconsole 0\nsave s\nbackup flash128\nbios b\nout save\nend\n",
        beside: &[BIOS, ("s", Filled(131_072, 0x5A))],
        written: &[(".0.save", Is(Filled(131_072, 0x5A)))],
        ..WITH_FLASH
    },
    Case {
        job: "gbalink 2\ncycles 10\nconsole 0\nbackup flash128\nbios b\nout save\nend\n",
        beside: &[BIOS],
        written: &[(".0.save", Is(Filled(131_072, 0xFF)))],
        ..WITH_FLASH
    },
    Case {
        status: 6,
        report: Exactly("image s SaveLength\n"),
        written: &[(".0.save", Absent), (".log", Absent)],
        ..WITH_FLASH
    },
    Case {
        beside: &[BIOS, CART, ("s", Filled(131_072, 0xA5))],
        status: 6,
        report: Exactly("image s SaveLength\n"),
        written: &[(".0.save", Absent), (".log", Absent)],
        ..WITH_FLASH
    },
];

/// With all its images a console runs; its state file and its save are written, the save as it was read, and as FFh
/// where none was.
#[test]
fn a_save_is_written_as_it_was_read(rt: HostRuntime) -> Result<(), Fail> {
    play_all(&rt, rt.alloc(), &SAVED)
}

/// A job with a key file.
const WITH_KEY_FILE: Case<'static> = Case {
    job: "gbalink 1\ncycles 9\nconsole 0\nbios b\nkeys k\nout state\nend\n",
    report: Lines("console 0 clock 9 frames 0 samples 0 words 0\n"),
    ..PLAIN
};

/// The same, which is refused.
const KEYS_REFUSED: Case<'static> = Case {
    status: 5,
    written: &[(".0.state", Absent), (".log", Absent)],
    ..WITH_KEY_FILE
};

/// The lines of a console's keys and its key file, and the bytes of KEYINPUT at the end, or the refusal.
static KEYS: [Case<'static>; 9] = [
    Case {
        job: "gbalink 1\ncycles 9\nconsole 0\nbios b\nout state\nend\n",
        written: &[(
            ".0.state",
            Holds {
                pieces: &["\nmem io 000120 00000000000000000000000000000000ff030000"],
                end: "",
            },
        )],
        ..WITH_KEY_FILE
    },
    Case {
        job: "gbalink 1\ncycles 9\nconsole 0\nbios b\nkey 0 001\nkey 3 005\nkey 7 000\nout state\nend\n",
        written: &[(
            ".0.state",
            Holds {
                pieces: &["\nmem io 000120 00000000000000000000000000000000fa030000"],
                end: "",
            },
        )],
        ..WITH_KEY_FILE
    },
    Case {
        beside: &[BIOS, ("k", Text("# start\n0 001\n\n6 3FF\n"))],
        written: &[(
            ".0.state",
            Holds {
                pieces: &["\nmem io 000120 0000000000000000000000000000000000000000"],
                end: "",
            },
        )],
        ..WITH_KEY_FILE
    },
    Case {
        beside: &[BIOS, ("k", Text(""))],
        written: &[(
            ".0.state",
            Holds {
                pieces: &["\nmem io 000120 00000000000000000000000000000000ff030000"],
                end: "",
            },
        )],
        ..WITH_KEY_FILE
    },
    Case {
        status: 3,
        report: Exactly("absent k\n"),
        ..KEYS_REFUSED
    },
    Case {
        beside: &[BIOS, ("k", Text("5 001\n4 000\n"))],
        report: Exactly("job k line 2 Order\n"),
        ..KEYS_REFUSED
    },
    Case {
        beside: &[BIOS, ("k", Text("\n0 400\n"))],
        report: Exactly("job k line 2 Number\n"),
        ..KEYS_REFUSED
    },
    Case {
        job: "gbalink 1\ncycles 9\nconsole 0\nbios b\nkey 5 001\nkey 4 000\nout state\nend\n",
        report: Exactly("job j line 6 Order\n"),
        ..KEYS_REFUSED
    },
    Case {
        job: "gbalink 1\ncycles 9\nconsole 0\nbios b\nkeys g.0.state\nout state\nend\n",
        report: Exactly("job j line 5 Clash\n"),
        ..KEYS_REFUSED
    },
];

/// Changes of the keys come from the job's lines or from its key file, which is read and judged after the images; a key
/// file's refusal names the key file.
#[test]
fn keys_are_read(rt: HostRuntime) -> Result<(), Fail> {
    play_all(&rt, rt.alloc(), &KEYS)
}

static KEY_FILES: [Case<'static>; 2] = [
    Case {
        beside: &[BIOS, ("k", Filled(33_554_433, b'\n'))],
        report: Exactly("job k line 0 Long\n"),
        ..KEYS_REFUSED
    },
    Case {
        beside: &[BIOS, ("k", Text("0 001"))],
        failing: Failing {
            reads: &[3],
            ..Failing::NONE
        },
        status: 4,
        report: Exactly("store k\n"),
        ..KEYS_REFUSED
    },
];

/// A key file of 33,554,433 bytes is one too long, and one whose read fails is told by its name.
#[test]
fn long_and_failing_key_files(rt: HostRuntime) -> Result<(), Fail> {
    play_all(&rt, rt.alloc(), &KEY_FILES)
}
