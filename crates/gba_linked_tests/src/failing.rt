//! Every read and every call of the sink fails in turn, in each command. What has to be left is worked out from the
//! list of calls, as the order of creates and appends is stated, and not from what the program does.

use Content::{Cartridge, Code, Filled, Text};
use gba_link_tests::{
    Answer, Content, Failing, LoggingSink, bytes_of, call_into, call_with, stored,
};
use gba_store::{MemorySink, NoGate, StoredFile};
use std::alloc::{AllocError, Global};
use std::process::Abort;
use std::sync::atomic::AtomicU64;
use std::test::Fail;
use std::thread::Threads;

/// A call of a sink: a file is made empty, or a piece of so many bytes is added to it.
#[derive(Clone, Copy)]
enum Call<'a> {
    Create(&'a str),
    Append(&'a str, usize),
}

/// The call that a line says: `create NAME` or `append NAME LENGTH`.
fn call_of(line: &str) -> Option<Call<'_>> {
    let mut words = line.split_whitespace();
    let kind = words.next()?;
    let name = words.next()?;
    match words.next() {
        Some(length) if kind == "append" => Some(Call::Append(name, length.parse().ok()?)),
        None if kind == "create" => Some(Call::Create(name)),
        _ => None,
    }
}

/// The number of a call among those of its kind, from 1, and what it is. The calls have numbers from 0.
#[derive(Clone, Copy)]
struct Numbered<'a> {
    call: Call<'a>,
    number: u64,
}

/// The call of this number, where there is one.
fn numbered_call<'a>(calls: &'a str, place: usize) -> Option<Numbered<'a>> {
    let mut creates = 0u64;
    let mut appends = 0u64;
    for (at, line) in calls.lines().enumerate() {
        let call = call_of(line)?;
        let number = match call {
            Call::Create(_) => {
                creates = creates.saturating_add(1);
                creates
            }
            Call::Append(..) => {
                appends = appends.saturating_add(1);
                appends
            }
        };
        if at == place {
            return Some(Numbered { call, number });
        }
    }
    None
}

/// How many bytes a file has where the call of this number fails, or None where it isn't there: a failed create leaves
/// no file, and a failed append half of its piece.
fn left_of(calls: &str, failing: usize, name: &str) -> Option<usize> {
    let mut left = None;
    for (at, line) in calls.lines().enumerate() {
        if at > failing {
            return left;
        }
        match call_of(line)? {
            Call::Create(made) => {
                if made == name && at < failing {
                    left = Some(0);
                }
            }
            Call::Append(grown, length) => {
                if grown == name {
                    let more = if at == failing { length / 2 } else { length };
                    left = Some(left.unwrap_or(0usize).saturating_add(more));
                }
            }
        }
    }
    left
}

/// A command, and the files that are there.
#[derive(Clone, Copy)]
struct Command<'a> {
    words: &'a [&'a str],
    files: &'a [(&'a str, Content<'a>)],
    /// The calls of its sink begin so.
    calls: &'a str,
}

fn files_of(alloc: Global, command: &Command<'_>) -> Result<Vec<StoredFile>, AllocError> {
    let mut files = Vec::new(alloc);
    for &(name, content) in command.files {
        files.push(stored(alloc, name, bytes_of(alloc, content)?)?)?;
    }
    Ok(files)
}

/// Whether what is found of a file is a front of the whole of it, of this length, or it isn't there where it has none.
fn is_front(found: Option<&[u8]>, whole: Option<&[u8]>, length: Option<usize>) -> bool {
    let Some(length) = length else {
        return found.is_none();
    };
    match (found, whole) {
        (Some(found), Some(whole)) => found.len() == length && whole.starts_with(found),
        _ => false,
    }
}

/// Whether standard output has a front of the summary, of this length, and then the report of the file that failed.
fn is_reported(
    alloc: Global,
    found: &[u8],
    summary: &[u8],
    length: usize,
    name: &str,
) -> Result<bool, AllocError> {
    let report = format!(in alloc; "sink {name}\n")?;
    let Some((front, said)) = found.split_at_checked(length) else {
        return Ok(false);
    };
    Ok(summary.starts_with(front) && said == report.as_bytes())
}

/// All files are as the failure of the call of this number has to leave them.
fn are_left<R: Abort>(
    rt: &R,
    alloc: Global,
    whole: &LoggingSink<'_>,
    answer: &Answer,
    failing: usize,
    name: &str,
) -> Result<(), Fail> {
    for line in whole.calls().lines() {
        if let Some(Call::Create(file)) = call_of(line) {
            let length = left_of(whole.calls(), failing, file);
            assert!(rt;
                is_front(answer.bytes(file), whole.bytes(file), length),
                "{file} after call {failing}"
            );
        }
    }
    let summary = whole.bytes("-").unwrap_or(b"".as_slice());
    let said = left_of(whole.calls(), failing, "-").unwrap_or(0);
    assert!(rt;
        is_reported(alloc, answer.report(), summary, said, name)?,
        "standard output after call {failing}"
    );
    Ok(())
}

/// The command with these calls failing, of which the first is that of this number and makes or grows this file.
fn fail_with<R: Abort + Threads + Sync>(
    rt: &R,
    alloc: Global,
    command: &Command<'_>,
    whole: &LoggingSink<'_>,
    (failing, name): (usize, &str),
    calls: Failing<'_>,
) -> Result<(), Fail> {
    let files = files_of(alloc, command)?;
    let answer = call_with(rt, alloc, command.words, files, calls)?;
    assert_eq!(rt; answer.status, 9, "call {failing}");
    are_left(rt, alloc, whole, &answer, failing, name)
}

/// The command with the call of this number failing.
fn fail_call<R: Abort + Threads + Sync>(
    rt: &R,
    alloc: Global,
    command: &Command<'_>,
    whole: &LoggingSink<'_>,
    failing: usize,
) -> Result<(), Fail> {
    let Numbered { call, number } = numbered_call(whole.calls(), failing).ok_or("no such call")?;
    let numbers = [number];
    let calls = Failing::NONE;
    let (name, calls) = match call {
        Call::Create(name) => (
            name,
            Failing {
                creates: &numbers,
                ..calls
            },
        ),
        Call::Append(name, _) => (
            name,
            Failing {
                appends: &numbers,
                ..calls
            },
        ),
    };
    fail_with(rt, alloc, command, whole, (failing, name), calls)
}

/// The command as it is.
fn run_whole<R: Abort + Threads + Sync>(
    rt: &R,
    alloc: Global,
    command: &Command<'_>,
    whole: &mut LoggingSink<'_>,
) -> Result<(), Fail> {
    let there = files_of(alloc, command)?;
    let status = call_into(rt, alloc, command.words, there, whole, &NoGate)?;
    assert_eq!(rt; status, 0);
    assert!(rt; whole.calls().starts_with(command.calls));
    Ok(())
}

/// The command once as it is, and then with each call of its sink failing.
fn fail_all<R: Abort + Threads + Sync>(
    rt: &R,
    alloc: Global,
    command: &Command<'_>,
) -> Result<(), Fail> {
    let made = AtomicU64::new(0);
    let files = MemorySink::new(alloc, Vec::new(alloc), Vec::new(alloc));
    let mut whole = LoggingSink::new(alloc, files, &made);
    run_whole(rt, alloc, command, &mut whole)?;
    for failing in 0..whole.calls().lines().count() {
        fail_call(rt, alloc, command, &whole, failing)?;
    }
    Ok(())
}

/// Halts with nothing enabled, at clock 3.
const HALTS: [u32; 2] = [
    0xE3A0_0301, // 00 MOV r0, #04000000h
    0xE5C0_0301, // 04 STRB r0, [r0, #301h]: the halt
];

/// Four consoles over three segments, with all kinds of outputs. There are 119 frames and no transfer.
const JOB: &str =
    "gbalink 1\ncycles 33564432\nconsole 0\nbios b\nout frames\nout state\nconsole 1\nbios b\nout samples\nout words\nconsole 2\nbios b\nout state\nout save\nconsole 3\nbios b\nout samples\nend\n";

/// In the third segment there are 19 pairs of samples, and no frame.
const CALLS: &str =
    "create g.0.frames\ncreate g.0.state\ncreate g.1.samples\ncreate g.1.words\ncreate g.2.state\n\
create g.2.save\ncreate g.3.samples\ncreate g.log\n\
append g.0.frames 4608000\nappend g.1.samples 131072\nappend g.3.samples 131072\n\
append g.0.frames 4531200\nappend g.1.samples 131072\nappend g.3.samples 131072\n\
append g.1.samples 76\nappend g.3.samples 76\n\
append g.0.state ";

/// The files that are made of a number come first.
const GENERATED: &str =
    "create g.0.bios\ncreate g.1.bios\ncreate g.2.bios\ncreate g.3.bios\ncreate g.job\n\
create g.0.words\ncreate g.0.state\ncreate g.1.words\ncreate g.1.state\ncreate g.2.words\ncreate g.2.state\n\
create g.3.words\ncreate g.3.state\ncreate g.log\n\
append g.0.bios 16384\nappend g.1.bios 16384\nappend g.2.bios 16384\nappend g.3.bios 16384\nappend g.job 212\n\
append g.0.state ";

/// Up to a clock in the second segment there are 11 more frames and 6,294 more pairs of samples. What is written of a
/// whole run alone isn't: no state, no save, no log.
const FROZEN: &str =
    "create g.0.frames\ncreate g.1.samples\ncreate g.1.words\ncreate g.3.samples\ncreate g.frozen\n\
append g.0.frames 4608000\nappend g.1.samples 131072\nappend g.3.samples 131072\n\
append g.0.frames 844800\nappend g.1.samples 25176\nappend g.3.samples 25176\n\
append g.frozen ";

/// A console alone over the same segments.
const HALTED_JOB: &str =
    "gbalink 1\ncycles 33564432\nconsole 0\nbios b\nsave s\nout frames\nout samples\nout state\nout save\nend\n";

/// Where it is frozen at the beginning of its 73rd frame: 72 times 280,896 cycles are 20,224,512, and each step of its
/// halt ends 3 cycles past a multiple of 16. The digest is that of `sha256sum` for the log of its job.
const HALTED: &str =
    "gbalink-frozen 1\njob 0669642147f4e141bccf5d8e74c6021de575773ac69917b104ae841d0dad6610\n\
gbalink-state 1\nconsole 0\nclock 20224515\nhalted 1\n\
r0 04000000\nr1 00000000\nr2 00000000\nr3 00000000\nr4 00000000\nr5 00000000\nr6 00000000\nr7 00000000\n\
r8 00000000\nr9 00000000\nr10 00000000\nr11 00000000\nr12 00000000\nr13 00000000\nr14 00000000\nr15 00000008\n\
r8_fiq 00000000\nr9_fiq 00000000\nr10_fiq 00000000\nr11_fiq 00000000\nr12_fiq 00000000\nr13_fiq 00000000\nr14_fiq 00000000\n\
r13_irq 00000000\nr14_irq 00000000\nr13_svc 00000000\nr14_svc 00000000\nr13_abt 00000000\nr14_abt 00000000\n\
r13_und 00000000\nr14_und 00000000\ncpsr 000000d3\n\
spsr_fiq 00000000\nspsr_irq 00000000\nspsr_svc 00000000\nspsr_abt 00000000\nspsr_und 00000000\n\
timer 0 0 0 0 0\ntimer 1 0 0 0 0\ntimer 2 0 0 0 0\ntimer 3 0 0 0 0\n\
dma 0 0 0 0 0 0\ndma 1 0 0 0 0 0\ndma 2 0 0 0 0 0\ndma 3 0 0 0 0 0\nqueue A 00 0 -\nqueue B 00 0 -\nsequencer 0\n\
tone 1 0 0 0 0 0 0 0 0\ntone 2 0 0 0 0 0 0 0 0\ntone 3 0 0 0 0 0 0 0 0\ntone 4 0 0 0 0 0 0 0 0\n\
wave 0 00000000000000000000000000000000\nwave 1 00000000000000000000000000000000\n\
position 0 3\naffine 2 00000000 00000000\naffine 3 00000000 00000000\nserial 3 0 0 0 0 0 0\nknown 3 3 3 3\n\
mem io 000000 0000000004000000000000000000000000000000000000000000000000000000\n\
mem io 000080 0000000000000000000200000000000000000000000000000000000000000000\n\
mem io 000120 00000000000000000000000000000000ff030000008000000000000000000000\n\
was 20224499\napplied 0\ncounts 72 39501 0\nend\n";

/// In the second segment 47 frames and 26,035 pairs of samples are left, and in the third one there are 19 pairs. There
/// is no log.
const RESUMED: &str = "create g.0.frames\ncreate g.0.samples\ncreate g.0.state\ncreate g.0.save\n\
append g.0.frames 3609600\nappend g.0.samples 104140\nappend g.0.samples 76\nappend g.0.state ";

/// A statement is four bytes; of eight bytes FFh a listing has two lines `.word 0xffffffff`.
static COMMANDS: [Command<'static>; 7] = [
    Command {
        words: &["run", "j", "g"],
        files: &[("j", Text(JOB)), ("b", Code(&HALTS))],
        calls: CALLS,
    },
    Command {
        words: &["freeze", "j", "20000000", "g"],
        files: &[("j", Text(JOB)), ("b", Code(&HALTS))],
        calls: FROZEN,
    },
    Command {
        words: &["resume", "j", "f", "g"],
        files: &[
            ("j", Text(HALTED_JOB)),
            ("b", Code(&HALTS)),
            ("s", Filled(32_768, 0)),
            ("f", Text(HALTED)),
        ],
        calls: RESUMED,
    },
    Command {
        words: &["trace", "j", "0", "9", "g"],
        files: &[("j", Text(JOB)), ("b", Code(&HALTS))],
        calls: "create g.trace\nappend g.trace ",
    },
    Command {
        words: &["gen", "7", "1000", "g"],
        files: &[],
        calls: GENERATED,
    },
    Command {
        words: &["asm", "s", "o"],
        files: &[("s", Text("mov r0, #1\n"))],
        calls: "create o\nappend o 4\nappend - ",
    },
    Command {
        words: &["dis", "i", "o"],
        files: &[("i", Filled(8, 0xFF))],
        calls: "create o\nappend o 34\nappend - ",
    },
];

/// Each create and each append fails, of a run over three segments, of what is frozen in the second one, of what goes
/// on there, of `trace`, `gen`, `asm` and `dis`: the file of that call is told, what was added before is there, half of
/// the piece of that call, and no call comes after it but the report.
#[test]
fn each_call_of_the_sink_fails(rt: HostRuntime) -> Result<(), Fail> {
    for command in &COMMANDS {
        fail_all(&rt, rt.alloc(), command)?;
    }
    Ok(())
}

/// A file that a job reads: what it has, a front of that, and how the front is refused.
#[derive(Clone, Copy)]
struct Input<'a> {
    name: &'a str,
    whole: Content<'a>,
    front: Content<'a>,
    status: u8,
    refusal: &'a str,
}

const BIOS: Input<'static> = Input {
    name: "b0",
    whole: Code(&HALTS),
    front: Content::Padded(&HALTS, 16_383),
    status: 6,
    refusal: "image b0 BiosLength\n",
};

/// The header's check of zeros and 96h at B2h.
const CART: Input<'static> = Input {
    name: "c0",
    whole: Cartridge {
        length: 192,
        fixed: 0x96,
        check: 0x51,
    },
    front: Cartridge {
        length: 191,
        fixed: 0x96,
        check: 0x51,
    },
    status: 6,
    refusal: "image c0 TooShort\n",
};

const SAVE: Input<'static> = Input {
    name: "s0",
    whole: Filled(32_768, 1),
    front: Filled(32_767, 1),
    status: 6,
    refusal: "image s0 SaveLength\n",
};

const KEYS: Input<'static> = Input {
    name: "k0",
    whole: Text("10 001\n20 000\n"),
    front: Text("10 001\n20"),
    status: 5,
    refusal: "job k0 line 2 Missing\n",
};

/// The job of four consoles that each have all inputs, and the same without its last line.
const READS: &str =
    "gbalink 1\ncycles 100\nconsole 0\nbios b0\ncart c0\nsave s0\nkeys k0\nout state\nconsole 1\nbios b1\ncart c1\nsave s1\nkeys k1\nout state\nconsole 2\nbios b2\ncart c2\nsave s2\nkeys k2\nout state\nconsole 3\nbios b3\ncart c3\nsave s3\nkeys k3\nout state\nend\n";

const WITHOUT_END: &str =
    "gbalink 1\ncycles 100\nconsole 0\nbios b0\ncart c0\nsave s0\nkeys k0\nout state\nconsole 1\nbios b1\ncart c1\nsave s1\nkeys k1\nout state\nconsole 2\nbios b2\ncart c2\nsave s2\nkeys k2\nout state\nconsole 3\nbios b3\ncart c3\nsave s3\nkeys k3\nout state\n";

/// All inputs, in the order in which they are read.
static INPUTS: [Input<'static>; 17] = [
    Input {
        name: "j",
        whole: Text(READS),
        front: Text(WITHOUT_END),
        status: 5,
        refusal: "job j line 27 Missing\n",
    },
    BIOS,
    CART,
    SAVE,
    KEYS,
    Input {
        name: "b1",
        refusal: "image b1 BiosLength\n",
        ..BIOS
    },
    Input {
        name: "c1",
        refusal: "image c1 TooShort\n",
        ..CART
    },
    Input {
        name: "s1",
        refusal: "image s1 SaveLength\n",
        ..SAVE
    },
    Input {
        name: "k1",
        refusal: "job k1 line 2 Missing\n",
        ..KEYS
    },
    Input {
        name: "b2",
        refusal: "image b2 BiosLength\n",
        ..BIOS
    },
    Input {
        name: "c2",
        refusal: "image c2 TooShort\n",
        ..CART
    },
    Input {
        name: "s2",
        refusal: "image s2 SaveLength\n",
        ..SAVE
    },
    Input {
        name: "k2",
        refusal: "job k2 line 2 Missing\n",
        ..KEYS
    },
    Input {
        name: "b3",
        refusal: "image b3 BiosLength\n",
        ..BIOS
    },
    Input {
        name: "c3",
        refusal: "image c3 TooShort\n",
        ..CART
    },
    Input {
        name: "s3",
        refusal: "image s3 SaveLength\n",
        ..SAVE
    },
    Input {
        name: "k3",
        refusal: "job k3 line 2 Missing\n",
        ..KEYS
    },
];

/// What is wrong with a file.
#[derive(Clone, Copy)]
enum Wrong {
    Absent,
    Cut,
    Unreadable,
}

/// All inputs, of which one is absent or cut.
fn inputs_with(alloc: Global, place: usize, wrong: Wrong) -> Result<Vec<StoredFile>, AllocError> {
    let mut files = Vec::new(alloc);
    for (at, input) in INPUTS.iter().enumerate() {
        let content = match wrong {
            Wrong::Absent if at == place => continue,
            Wrong::Cut if at == place => input.front,
            _ => input.whole,
        };
        files.push(stored(alloc, input.name, bytes_of(alloc, content)?)?)?;
    }
    Ok(files)
}

/// The status, and the report of a file that goes wrong so.
fn refusal_of(alloc: Global, input: &Input<'_>, wrong: Wrong) -> Result<(u8, String), AllocError> {
    let name = input.name;
    Ok(match wrong {
        Wrong::Absent => (3, format!(in alloc; "absent {name}\n")?),
        Wrong::Unreadable => (4, format!(in alloc; "store {name}\n")?),
        Wrong::Cut => (input.status, String::from_str(alloc, input.refusal)?),
    })
}

/// A call is refused so, and writes nothing but its report.
fn is_refused<R: Abort>(rt: &R, answer: &Answer, place: usize, status: u8, report: &str) {
    assert_eq!(rt; answer.status, status, "read {place}");
    assert_eq!(rt; answer.report(), report.as_bytes(), "read {place}");
    for name in ["g.0.state", "g.1.state", "g.2.state", "g.3.state", "g.log"] {
        assert!(rt; answer.bytes(name).is_none(), "{name} after read {place}");
    }
}

/// A run of the job in which this read goes wrong.
fn run_with<R: Threads + Sync>(
    rt: &R,
    alloc: Global,
    place: usize,
    wrong: Wrong,
) -> Result<Answer, Fail> {
    let files = inputs_with(alloc, place, wrong)?;
    let number = [(place as u64).saturating_add(1)];
    let failing = Failing {
        reads: match wrong {
            Wrong::Unreadable => number.as_slice(),
            _ => &[],
        },
        ..Failing::NONE
    };
    call_with(rt, alloc, &["run", "j", "g"], files, failing)
}

/// The job with the read of this input, at this place, going wrong is refused so, and writes nothing but its report.
fn refuse<R: Abort + Threads + Sync>(
    rt: &R,
    alloc: Global,
    (place, input): (usize, &Input<'_>),
    wrong: Wrong,
) -> Result<(), Fail> {
    let answer = run_with(rt, alloc, place, wrong)?;
    let (status, report) = refusal_of(alloc, input, wrong)?;
    is_refused(rt, &answer, place, status, report.as_str());
    Ok(())
}

/// Each file that a run reads is absent, can't be read, or is cut: it is told, with what is wrong with it.
#[test]
fn each_read_goes_wrong(rt: HostRuntime) -> Result<(), Fail> {
    let well = run_with(&rt, rt.alloc(), INPUTS.len(), Wrong::Cut)?;
    assert_eq!(rt; well.status, 0);
    for one in INPUTS.iter().enumerate() {
        for wrong in [Wrong::Absent, Wrong::Unreadable, Wrong::Cut] {
            refuse(&rt, rt.alloc(), one, wrong)?;
        }
    }
    Ok(())
}
