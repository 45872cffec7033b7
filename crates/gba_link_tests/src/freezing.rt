//! Jobs that are frozen.

use crate::{Answer, Content, Failing, bytes_of, call_with, stored, stored_all};
use Content::{Code, Filled, Text};
use gba_snapshot::laws::frozen_is_text;
use std::alloc::{AllocError, Global};
use std::process::Abort;
use std::test::Fail;
use std::thread::Threads;

/// A branch to itself, and a save of zeros, of which a frozen file has no line.
pub(crate) const BESIDE: &[(&str, Content<'static>)] = &[
    ("b", Code(&[0xEAFF_FFFE])),
    ("s", Filled(32_768, 0)),
];

pub(crate) const JOB: &str =
    "gbalink 1\ncycles 2000\nconsole 0\nbios b\nsave s\nout samples\nout words\nout state\nend\n";

/// The same with a stated digest of the samples, which is another one's.
pub(crate) const STATED: &str =
    "gbalink 1\ncycles 2000\nconsole 0\nbios b\nsave s\nout samples sha256 0000000000000000000000000000000000000000000000000000000000000000\nout words\nout state\nend\n";

/// After one step.
pub(crate) const FROZEN_AT_ONCE: &str =
    "gbalink-frozen 1\njob 62ce591d915156529fd7aa61c8ed5a2c61f14f58b9fd747ab7f3ab9704fafd0d\ngbalink-state 1\nconsole 0\nclock 3\nhalted 0\nr0 00000000\nr1 00000000\nr2 00000000\nr3 00000000\nr4 00000000\nr5 00000000\nr6 00000000\nr7 00000000\nr8 00000000\nr9 00000000\nr10 00000000\nr11 00000000\nr12 00000000\nr13 00000000\nr14 00000000\nr15 00000000\nr8_fiq 00000000\nr9_fiq 00000000\nr10_fiq 00000000\nr11_fiq 00000000\nr12_fiq 00000000\nr13_fiq 00000000\nr14_fiq 00000000\nr13_irq 00000000\nr14_irq 00000000\nr13_svc 00000000\nr14_svc 00000000\nr13_abt 00000000\nr14_abt 00000000\nr13_und 00000000\nr14_und 00000000\ncpsr 000000d3\nspsr_fiq 00000000\nspsr_irq 00000000\nspsr_svc 00000000\nspsr_abt 00000000\nspsr_und 00000000\ntimer 0 0 0 0 0\ntimer 1 0 0 0 0\ntimer 2 0 0 0 0\ntimer 3 0 0 0 0\ndma 0 0 0 0 0 0\ndma 1 0 0 0 0 0\ndma 2 0 0 0 0 0\ndma 3 0 0 0 0 0\nqueue A 00 0 -\nqueue B 00 0 -\nsequencer 0\ntone 1 0 0 0 0 0 0 0 0\ntone 2 0 0 0 0 0 0 0 0\ntone 3 0 0 0 0 0 0 0 0\ntone 4 0 0 0 0 0 0 0 0\nwave 0 00000000000000000000000000000000\nwave 1 00000000000000000000000000000000\nposition 0 3\naffine 2 00000000 00000000\naffine 3 00000000 00000000\nserial 3 0 0 0 0 0 0\nknown 3 3 3 3\nmem io 000000 0000000004000000000000000000000000000000000000000000000000000000\nmem io 000080 0000000000000000000200000000000000000000000000000000000000000000\nmem io 000120 00000000000000000000000000000000ff030000008000000000000000000000\nwas 0\napplied 0\ncounts 0 0 0\nend\n";

/// In the HBlank of the first line, which is drawn, behind a pair of samples.
const FROZEN_IN_HBLANK: &str =
    "gbalink-frozen 1\njob 62ce591d915156529fd7aa61c8ed5a2c61f14f58b9fd747ab7f3ab9704fafd0d\ngbalink-state 1\nconsole 0\nclock 1008\nhalted 0\nr0 00000000\nr1 00000000\nr2 00000000\nr3 00000000\nr4 00000000\nr5 00000000\nr6 00000000\nr7 00000000\nr8 00000000\nr9 00000000\nr10 00000000\nr11 00000000\nr12 00000000\nr13 00000000\nr14 00000000\nr15 00000000\nr8_fiq 00000000\nr9_fiq 00000000\nr10_fiq 00000000\nr11_fiq 00000000\nr12_fiq 00000000\nr13_fiq 00000000\nr14_fiq 00000000\nr13_irq 00000000\nr14_irq 00000000\nr13_svc 00000000\nr14_svc 00000000\nr13_abt 00000000\nr14_abt 00000000\nr13_und 00000000\nr14_und 00000000\ncpsr 000000d3\nspsr_fiq 00000000\nspsr_irq 00000000\nspsr_svc 00000000\nspsr_abt 00000000\nspsr_und 00000000\ntimer 0 0 0 0 0\ntimer 1 0 0 0 0\ntimer 2 0 0 0 0\ntimer 3 0 0 0 0\ndma 0 0 0 0 0 0\ndma 1 0 0 0 0 0\ndma 2 0 0 0 0 0\ndma 3 0 0 0 0 0\nqueue A 00 0 -\nqueue B 00 0 -\nsequencer 0\ntone 1 0 0 0 0 0 0 0 0\ntone 2 0 0 0 0 0 0 0 0\ntone 3 0 0 0 0 0 0 0 0\ntone 4 0 0 0 0 0 0 0 0\nwave 0 00000000000000000000000000000000\nwave 1 00000000000000000000000000000000\nposition 0 1008\naffine 2 00000000 00000000\naffine 3 00000000 00000000\nserial 3 0 0 0 0 0 0\nknown 3 3 3 3\nmem io 000000 0000000006000000000000000000000000000000000000000000000000000000\nmem io 000080 0000000000000000000200000000000000000000000000000000000000000000\nmem io 000120 00000000000000000000000000000000ff030000008000000000000000000000\nwas 1005\napplied 0\ncounts 0 1 0\ndrawn 0 000000000000000000000000000000000000000000000000000000000000000000000000000000000000000000000000000000000000000000000000000000000000000000000000000000000000000000000000000000000000000000000000000000000000000000000000000000000000000000000000000000000000000000000000000000000000000000000000000000000000000000000000000000000000000000000000000000000000000000000000000000000000000000000000000000000000000000000000000000000000000000000000000000000000000000000000000000000000000000000000000000000000000000000000000000000000000000000000000000000000000000000000000000000000000000000000000000000000000000000000000000000000000000000000000000000000000000000000000000000000000000000000000000000000000000000000000000000000000000000000000000000000000000000000000000000000000000000000000000000000000000000000000000000000000000000000000000000000000000000000000000000000000000000000000000000000000000000000000000000000000000000000000000000000000000000000000000000000000000000000\nend\n";

/// A command, its job, its status and report, and the files under `g` by what their names have behind it.
struct Case<'a> {
    words: &'a [&'a str],
    job_name: &'a str,
    job: &'a str,
    status: u8,
    report: &'a str,
    written: &'a [(&'a str, Option<Content<'a>>)],
}

const SUMMARY: &str = "console 0 clock 3 frames 0 samples 0 words 0\n";

const ONE: Case<'static> = Case {
    words: &["freeze", "j", "1", "g"],
    job_name: "j",
    job: JOB,
    status: 0,
    report: SUMMARY,
    written: &[
        (".frozen", Some(Text(FROZEN_AT_ONCE))),
        (".0.samples", Some(Text(""))),
        (".0.words", Some(Text(""))),
        (".0.state", None),
        (".log", None),
    ],
};

/// Nothing is written.
const REFUSED: Case<'static> = Case {
    written: &[(".frozen", None), (".0.samples", None)],
    ..ONE
};

/// The clock is the least one that a step ends at or behind; a digest that is stated isn't compared, since it is of the
/// whole run, and the job is the same without it. CLOCK may be the job's last, and no later. The frozen file may be no
/// input, and neither the job.
static CASES: [Case<'static>; 9] = [
    ONE,
    Case {
        words: &["freeze", "j", "3", "g"],
        ..ONE
    },
    Case {
        words: &["freeze", "j", "1006", "g"],
        report: "console 0 clock 1008 frames 0 samples 1 words 0\n",
        written: &[
            (".frozen", Some(Text(FROZEN_IN_HBLANK))),
            (".0.samples", Some(Filled(4, 0))),
            (".0.state", None),
        ],
        ..ONE
    },
    Case { job: STATED, ..ONE },
    Case {
        words: &["freeze", "j", "2000", "g"],
        report: "console 0 clock 2001 frames 0 samples 3 words 0\n",
        written: &[(".0.samples", Some(Filled(12, 0)))],
        ..ONE
    },
    Case {
        words: &["freeze", "j", "2001", "g"],
        status: 5,
        report: "job j line 0 Number\n",
        ..REFUSED
    },
    Case {
        words: &["freeze", "g.frozen", "2001", "g"],
        job_name: "g.frozen",
        status: 5,
        report: "job g.frozen line 0 Clash\n",
        ..REFUSED
    },
    Case {
        words: &["freeze", "j", "0", "g"],
        status: 2,
        report: "words\n",
        ..REFUSED
    },
    Case {
        words: &["freeze", "j", "274877906945", "g"],
        status: 2,
        report: "words\n",
        ..REFUSED
    },
];

/// The name of a file under `g`.
pub(crate) fn name_of(alloc: Global, ending: &str) -> Result<String, AllocError> {
    let mut name = String::from_str(alloc, "g")?;
    name.push_str(ending)?;
    Ok(name)
}

/// The first file that isn't as it should be.
pub(crate) fn first_wrong(
    alloc: Global,
    answer: &Answer,
    written: &'static [(&'static str, Option<Content<'static>>)],
) -> Result<Option<&'static str>, Fail> {
    for &(ending, expected) in written {
        let name = name_of(alloc, ending)?;
        let found = answer.bytes(name.as_str());
        let is_right = match expected {
            None => found.is_none(),
            Some(content) => found == Some(bytes_of(alloc, content)?.as_slice()),
        };
        if !is_right {
            return Ok(Some(ending));
        }
    }
    Ok(None)
}

fn play<R: Abort + Threads + Sync>(
    rt: &R,
    alloc: Global,
    case: &Case<'static>,
) -> Result<(), Fail> {
    let text = Vec::from_slice(alloc, case.job.as_bytes())?;
    let files = stored_all(alloc, stored(alloc, case.job_name, text)?, BESIDE)?;
    let answer = call_with(rt, alloc, case.words, files, Failing::NONE)?;
    let wrong = first_wrong(alloc, &answer, case.written)?;
    assert_eq!(rt;
        (answer.status, answer.report(), wrong),
        (case.status, case.report.as_bytes(), None)
    );
    Ok(())
}

/// The texts are those of what they say, by a law that is called here once.
#[test]
fn jobs_are_frozen(rt: HostRuntime) -> Result<(), Fail> {
    frozen_is_text();
    for case in &CASES {
        play(&rt, rt.alloc(), case)?;
    }
    Ok(())
}
