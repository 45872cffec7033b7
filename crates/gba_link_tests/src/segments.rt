//! A console whose run goes in segments of 2^24 cycles: which calls of the sink are made, in which order, and what is
//! there where one of them fails. What is written is stated by hand, from the cycles of the programs and the formats;
//! the digests are those that `sha256sum` gives for these bytes.

use crate::calls::sink_of;
use crate::{
    Content, Expected, Failing, LoggingSink, call_into, is_as_expected, stored, stored_all,
};
use Content::{Code, Filled, Text};
use Expected::{Absent, Is};
use gba_store::NoGate;
use std::alloc::Global;
use std::process::Abort;
use std::sync::atomic::{AtomicU64, Ordering};
use std::test::Fail;
use std::thread::Threads;

/// Halts with nothing enabled, at clock 3: each step from there on idles for 16 cycles.
const HALTS: [u32; 2] = [
    0xE3A0_0301, // 00 MOV r0, #04000000h
    0xE5C0_0301, // 04 STRB r0, [r0, #301h]: the halt
];

/// The calls of a sink: all of them, or how many there are.
#[derive(Clone, Copy)]
enum Calls<'a> {
    Listed(&'a str),
    Counted(u64),
}

use Calls::{Counted, Listed};

/// A run of one console: its job, what fails, the status, the calls of the sink, and its files.
#[derive(Clone, Copy)]
struct Course<'a> {
    job: &'a str,
    failing: Failing<'a>,
    status: u8,
    calls: Calls<'a>,
    written: &'a [(&'a str, Expected<'a>)],
}

/// The sink's calls are these.
fn made_calls<R: Abort>(rt: &R, out: &LoggingSink<'_>, made: &AtomicU64, calls: Calls<'_>) {
    match calls {
        Listed(lines) => assert_eq!(rt; out.calls(), lines),
        Counted(count) => assert_eq!(rt; made.load(Ordering::SeqCst), count),
    }
}

fn follow<R: Abort + Threads + Sync>(
    rt: &R,
    alloc: Global,
    course: &Course<'_>,
) -> Result<(), Fail> {
    let job = stored(alloc, "j", Vec::from_slice(alloc, course.job.as_bytes())?)?;
    let files = stored_all(alloc, job, &[("b", Code(&HALTS))])?;
    let made = AtomicU64::new(0);
    let mut out = LoggingSink::new(alloc, sink_of(alloc, course.failing)?, &made);
    let status = call_into(rt, alloc, &["run", "j", "g"], files, &mut out, &NoGate)?;
    assert_eq!(rt; status, course.status);
    made_calls(rt, &out, &made, course.calls);
    for &(name, expected) in course.written {
        assert!(rt;
            is_as_expected(alloc, out.bytes(name), expected)?,
            "of {name}"
        );
    }
    Ok(())
}

fn follow_all<R: Abort + Threads + Sync>(
    rt: &R,
    alloc: Global,
    courses: &[Course<'_>],
) -> Result<(), Fail> {
    for course in courses {
        follow(rt, alloc, course)?;
    }
    Ok(())
}

/// A pair of samples comes at each multiple of 512, so a segment has 32,768 of them in 131,072 bytes. A frame is
/// whole at 196,894 and each 280,896 cycles from there on, and has 76,800 bytes: 60 frames in the first segment, 59
/// in the second.
static COURSES: [Course<'static>; 5] = [
    // The step that passes the end of the first segment passes that of the run too, and the second segment
    // makes nothing.
    Course {
        job: "gbalink 1\ncycles 16777217\nconsole 0\nbios b\nout samples\nend\n",
        failing: Failing::NONE,
        status: 0,
        calls: Listed(
            "create g.0.samples\ncreate g.log\nappend g.0.samples 131072\nappend g.log 229\nappend - 126\n",
        ),
        written: &[
            (
                "g.log",
                Is(Text(
                    "gbalink 2\ncycles 16777217\nlink 0 1 512\nlink 1 0 512\nconsole 0\nbios b sha256 dd445ac7aea6a84b1946353430e78f8548e64d4da914b88eccb71ccb8920e70a\nout samples sha256 fa43239bcee7b97ca62f007cc68487560a39e19f74f3dde7486db3f98df8e471\nend\n",
                )),
            ),
            (
                "-",
                Is(Text(
                    "console 0 clock 16777219 frames 60 samples 32768 words 0\nlog 429a14fc60bbfc577a07369934832c9194f179d1c4b3c7ec11991c9533dd953d\n",
                )),
            ),
            ("g.0.frames", Absent),
            ("g.0.samples", Is(Filled(131_072, 0))),
        ],
    },
    // The second segment has two pairs.
    Course {
        job: "gbalink 1\ncycles 16778240\nconsole 0\nbios b\nout samples\nend\n",
        failing: Failing::NONE,
        status: 0,
        calls: Listed(
            "create g.0.samples\ncreate g.log\nappend g.0.samples 131072\nappend g.0.samples 8\nappend g.log 229\nappend - 126\n",
        ),
        written: &[
            (
                "g.log",
                Is(Text(
                    "gbalink 2\ncycles 16778240\nlink 0 1 512\nlink 1 0 512\nconsole 0\nbios b sha256 dd445ac7aea6a84b1946353430e78f8548e64d4da914b88eccb71ccb8920e70a\nout samples sha256 aa7db7093aaece22495cdd47cd53337e361f003c48c7531b261eb6466cc8252e\nend\n",
                )),
            ),
            (
                "-",
                Is(Text(
                    "console 0 clock 16778243 frames 60 samples 32770 words 0\nlog 81e5b5f206662aab852b9a6961a5ddb6f9c04cafc2c658c8f1d7c157dc8ce7bc\n",
                )),
            ),
            ("g.0.frames", Absent),
            ("g.0.samples", Is(Filled(131_080, 0))),
        ],
    },
    // One whole segment, and no words.
    Course {
        job: "gbalink 1\ncycles 16777216\nconsole 0\nbios b\nout words\nout samples\nend\n",
        failing: Failing::NONE,
        status: 0,
        calls: Listed(
            "create g.0.samples\ncreate g.0.words\ncreate g.log\nappend g.0.samples 131072\nappend g.log 311\nappend - 126\n",
        ),
        written: &[
            (
                "g.log",
                Is(Text(
                    "gbalink 2\ncycles 16777216\nlink 0 1 512\nlink 1 0 512\nconsole 0\nbios b sha256 dd445ac7aea6a84b1946353430e78f8548e64d4da914b88eccb71ccb8920e70a\nout samples sha256 fa43239bcee7b97ca62f007cc68487560a39e19f74f3dde7486db3f98df8e471\nout words sha256 e3b0c44298fc1c149afbf4c8996fb92427ae41e4649b934ca495991b7852b855\nend\n",
                )),
            ),
            (
                "-",
                Is(Text(
                    "console 0 clock 16777219 frames 60 samples 32768 words 0\nlog 0599a50d503cbad1dbdbb49016841625046efa65ed84d7fb1dc69f68c3ae7b64\n",
                )),
            ),
            ("g.0.frames", Absent),
            ("g.0.samples", Is(Filled(131_072, 0))),
        ],
    },
    // Two whole segments.
    Course {
        job: "gbalink 1\ncycles 33554432\nconsole 0\nbios b\nout frames\nout samples\nend\n",
        failing: Failing::NONE,
        status: 0,
        calls: Listed(
            "create g.0.frames\ncreate g.0.samples\ncreate g.log\nappend g.0.frames 4608000\nappend g.0.samples 131072\nappend g.0.frames 4531200\nappend g.0.samples 131072\nappend g.log 312\nappend - 127\n",
        ),
        written: &[
            (
                "g.log",
                Is(Text(
                    "gbalink 2\ncycles 33554432\nlink 0 1 512\nlink 1 0 512\nconsole 0\nbios b sha256 dd445ac7aea6a84b1946353430e78f8548e64d4da914b88eccb71ccb8920e70a\nout frames sha256 1e248dd562bb6f825e0501746b0aa7ab220e463e70bd594134ae7a078717edec\nout samples sha256 8a39d2abd3999ab73c34db2476849cddf303ce389b35826850f9a700589b4a90\nend\n",
                )),
            ),
            (
                "-",
                Is(Text(
                    "console 0 clock 33554435 frames 119 samples 65536 words 0\nlog f0f98e314b1a67bb59e06c805cfdf7e461952c5ccf57484b1dd6751de5db152f\n",
                )),
            ),
            ("g.0.frames", Is(Filled(9_139_200, 0))),
            ("g.0.samples", Is(Filled(262_144, 0))),
        ],
    },
    // One step. What is empty is made and gets no piece.
    Course {
        job: "gbalink 1\ncycles 1\nconsole 0\nbios b\nout frames\nout samples\nout words\nout save\nend\n",
        failing: Failing::NONE,
        status: 0,
        calls: Listed(
            "create g.0.frames\ncreate g.0.samples\ncreate g.0.words\ncreate g.0.save\ncreate g.log\nappend g.0.save 32768\nappend g.log 468\nappend - 114\n",
        ),
        written: &[
            (
                "g.log",
                Is(Text(
                    "gbalink 2\ncycles 1\nlink 0 1 512\nlink 1 0 512\nconsole 0\nbios b sha256 dd445ac7aea6a84b1946353430e78f8548e64d4da914b88eccb71ccb8920e70a\nout frames sha256 e3b0c44298fc1c149afbf4c8996fb92427ae41e4649b934ca495991b7852b855\nout samples sha256 e3b0c44298fc1c149afbf4c8996fb92427ae41e4649b934ca495991b7852b855\nout words sha256 e3b0c44298fc1c149afbf4c8996fb92427ae41e4649b934ca495991b7852b855\nout save sha256 2d864c0b789a43214eee8524d3182075125e5ca2cd527f3582ec87ffd94076bc\nend\n",
                )),
            ),
            (
                "-",
                Is(Text(
                    "console 0 clock 1 frames 0 samples 0 words 0\nlog 1a669802d4ba71a8b23dc3fc3e5e52520ada309c2c2ab4cb04b6371c9c49f3d0\n",
                )),
            ),
            ("g.0.frames", Is(Filled(0, 0))),
            ("g.0.samples", Is(Filled(0, 0))),
        ],
    },
];

/// After each segment what it made is added to its file, in one call, and where it made nothing in none. All frames are
/// black, and there is no sound.
#[test]
fn pieces_come_with_their_segments(rt: HostRuntime) -> Result<(), Fail> {
    follow_all(&rt, rt.alloc(), &COURSES)
}

/// A run of two segments whose samples and save are asked for, and of which a call of the sink fails.
const FAILED: Course<'static> = Course {
    job: "gbalink 1\ncycles 16778240\nconsole 0\nbios b\nout save\nout samples\nend\n",
    failing: Failing::NONE,
    status: 9,
    calls: Counted(0),
    written: &[],
};

/// A failed create leaves no file, and a failed append half of its piece; then the report is the last call. The pieces
/// are 131,072 and 8 bytes of samples, the save, the log and the summary.
static FAILURES: [Course<'static>; 8] = [
    Course {
        failing: Failing {
            creates: &[1],
            ..Failing::NONE
        },
        calls: Counted(2),
        written: &[
            ("-", Is(Text("sink g.0.samples\n"))),
            ("g.0.samples", Absent),
            ("g.0.save", Absent),
            ("g.log", Absent),
        ],
        ..FAILED
    },
    Course {
        failing: Failing {
            creates: &[2],
            ..Failing::NONE
        },
        calls: Counted(3),
        written: &[
            ("-", Is(Text("sink g.0.save\n"))),
            ("g.0.samples", Is(Filled(0, 0))),
            ("g.0.save", Absent),
            ("g.log", Absent),
        ],
        ..FAILED
    },
    Course {
        failing: Failing {
            creates: &[3],
            ..Failing::NONE
        },
        calls: Counted(4),
        written: &[
            ("-", Is(Text("sink g.log\n"))),
            ("g.0.samples", Is(Filled(0, 0))),
            ("g.0.save", Is(Filled(0, 0xFF))),
            ("g.log", Absent),
        ],
        ..FAILED
    },
    Course {
        failing: Failing {
            appends: &[1],
            ..Failing::NONE
        },
        calls: Counted(5),
        written: &[
            ("-", Is(Text("sink g.0.samples\n"))),
            ("g.0.samples", Is(Filled(65_536, 0))),
            ("g.0.save", Is(Filled(0, 0xFF))),
            ("g.log", Is(Text(""))),
        ],
        ..FAILED
    },
    Course {
        failing: Failing {
            appends: &[2],
            ..Failing::NONE
        },
        calls: Counted(6),
        written: &[
            ("-", Is(Text("sink g.0.samples\n"))),
            ("g.0.samples", Is(Filled(131_076, 0))),
            ("g.0.save", Is(Filled(0, 0xFF))),
            ("g.log", Is(Text(""))),
        ],
        ..FAILED
    },
    Course {
        failing: Failing {
            appends: &[3],
            ..Failing::NONE
        },
        calls: Counted(7),
        written: &[
            ("-", Is(Text("sink g.0.save\n"))),
            ("g.0.samples", Is(Filled(131_080, 0))),
            ("g.0.save", Is(Filled(16_384, 0xFF))),
            ("g.log", Is(Text(""))),
        ],
        ..FAILED
    },
    Course {
        failing: Failing {
            appends: &[4],
            ..Failing::NONE
        },
        calls: Counted(8),
        written: &[
            ("-", Is(Text("sink g.log\n"))),
            ("g.0.samples", Is(Filled(131_080, 0))),
            ("g.0.save", Is(Filled(32_768, 0xFF))),
            ("g.log", Is(Text(HALF_OF_LOG))),
        ],
        ..FAILED
    },
    Course {
        failing: Failing {
            appends: &[5],
            ..Failing::NONE
        },
        calls: Counted(9),
        written: &[
            ("-", Is(Text(HALF_OF_SUMMARY_AND_REPORT))),
            ("g.0.samples", Is(Filled(131_080, 0))),
            ("g.0.save", Is(Filled(32_768, 0xFF))),
            ("g.log", Is(Text(LOG))),
        ],
        ..FAILED
    },
];

const LOG: &str =
    "gbalink 2\ncycles 16778240\nlink 0 1 512\nlink 1 0 512\nconsole 0\nbios b sha256 dd445ac7aea6a84b1946353430e78f8548e64d4da914b88eccb71ccb8920e70a\nout samples sha256 aa7db7093aaece22495cdd47cd53337e361f003c48c7531b261eb6466cc8252e\nout save sha256 2d864c0b789a43214eee8524d3182075125e5ca2cd527f3582ec87ffd94076bc\nend\n";

const HALF_OF_LOG: &str =
    "gbalink 2\ncycles 16778240\nlink 0 1 512\nlink 1 0 512\nconsole 0\nbios b sha256 dd445ac7aea6a84b1946353430e78f8548e64d4da914b88eccb71ccb8920e70a\nout samples sh";

const HALF_OF_SUMMARY_AND_REPORT: &str =
    "console 0 clock 16778243 frames 60 samples 32770 words 0\nlog acsink -\n";

#[test]
fn failing_calls_leave_fronts(rt: HostRuntime) -> Result<(), Fail> {
    follow_all(&rt, rt.alloc(), &FAILURES)
}
