//! Consoles on a cable whose run goes in segments of 2^24 cycles. What is written is stated by hand, from the cycles of
//! the programs, the rules of transfers and the formats; the digests are those that `sha256sum` gives for these bytes.

use Content::{Code, Filled, Text};
use Expected::Is;
use gba_link_tests::{
    Content, Expected, LoggingSink, call_into, is_as_expected, stored, stored_all,
};
use gba_store::{Gate, MemorySink, NoGate};
use std::alloc::{AllocError, Global};
use std::process::Abort;
use std::sync::atomic::{AtomicBool, AtomicU64, Ordering};
use std::test::Fail;
use std::thread::Threads;

/// Counts in r7. Timer 0 overflows at 23 + 65,456 * 64, which is 4,189,207, and then each 2^22 cycles. It wakes the
/// console, which goes on at 31 + 261,824 * 16, which is 4,189,215: 3 cycles later it writes the count as the
/// backdrop's colour, and 7 cycles later it starts a Multi transfer at speed 3 with the count. It halts again 16 cycles
/// after it went on.
const STARTS: [u32; 30] = [
    0xE3A0_5301, // 00 MOV r5, #04000000h
    0xE285_4C01, // 04 ADD r4, r5, #100h
    0xE285_3C02, // 08 ADD r3, r5, #200h
    0xE3A0_6405, // 0C MOV r6, #05000000h
    0xE285_9C03, // 10 ADD r9, r5, #300h
    0xE3A0_0000, // 14 MOV r0, #0
    0xE1C4_03B4, // 18 STRH r0, [r4, #34h]: RCNT, at 6
    0xE59F_004C, // 1C LDR r0, [r15, #4Ch]
    0xE1C4_02B8, // 20 STRH r0, [r4, #28h]: SIOCNT, at 11
    0xE59F_8048, // 24 LDR r8, [r15, #48h]
    0xE3A0_2008, // 28 MOV r2, #8
    0xE1C3_20B0, // 2C STRH r2, [r3]: IE, timer 0
    0xE3A0_0050, // 30 MOV r0, #80
    0xE1C4_00B0, // 34 STRH r0, [r4]: the reload
    0xE3A0_00C1, // 38 MOV r0, #C1h
    0xE1C4_00B2, // 3C STRH r0, [r4, #2]: the timer's control, at 23
    0xE3A0_0000, // 40 MOV r0, #0
    0xE1C4_00B0, // 44 STRH r0, [r4]: the reload from the first overflow on
    0xE3A0_7A01, // 48 MOV r7, #1000h
    0xE5C9_0001, // 4C STRB r0, [r9, #1]: the halt, at first up to 31
    0xE1C3_20B2, // 50 STRH r2, [r3, #2]: IF
    0xE287_7001, // 54 ADD r7, r7, #1
    0xE1C6_70B0, // 58 STRH r7, [r6]: the backdrop
    0xE1C4_72BA, // 5C STRH r7, [r4, #2Ah]: the send word
    0xE1C4_82B8, // 60 STRH r8, [r4, #28h]: the start
    0xE1A0_0000, // 64 MOV r0, r0
    0xE1A0_0000, // 68 MOV r0, r0
    0xEAFF_FFF6, // 6C B 4Ch
    0x0000_2003, // 70
    0x0000_2083, // 74
];

/// In Multi with its keys as its word. Halts with nothing enabled, at clock 18.
const AWAITS: [u32; 11] = [
    0xE3A0_5301, // 00 MOV r5, #04000000h
    0xE285_4C01, // 04 ADD r4, r5, #100h
    0xE3A0_0000, // 08 MOV r0, #0
    0xE1C4_03B4, // 0C STRH r0, [r4, #34h]: RCNT, at 3
    0xE1D4_03B0, // 10 LDRH r0, [r4, #30h]: KEYINPUT
    0xE1C4_02BA, // 14 STRH r0, [r4, #2Ah]: the send word
    0xE59F_0008, // 18 LDR r0, [r15, #8]
    0xE1C4_02B8, // 1C STRH r0, [r4, #28h]: SIOCNT, at 13
    0xE285_9C03, // 20 ADD r9, r5, #300h
    0xE5C9_0001, // 24 STRB r0, [r9, #1]: the halt
    0x0000_2003, // 28
];

/// The ends come 18 * 4 * 145 cycles after the starts. The fourth transfer is under way where the first segment ends,
/// and the eighth where the second one does.
const WORDS: &str = "4199662 multi 1001 03fd 03fb 03f7 0\n8393966 multi 1002 03fd 03fb 03f7 0\n\
12588270 multi 1003 03fd 03fb 03f7 0\n16782574 multi 1004 03fd 03fb 03f7 0\n\
20976878 multi 1005 03fd 03fb 03f7 0\n25171182 multi 1006 03fd 03fb 03f7 0\n\
29365486 multi 1007 03fd 03fb 03f7 0\n33559790 multi 1008 03fd 03fb 03f7 0\n";

/// The calls of the sink. Of the words three lines are of the first segment, four of the second and one of the third,
/// in which there are 19 pairs of samples and no frame.
const CALLS: &str =
    "create g.0.samples\ncreate g.0.words\ncreate g.1.words\ncreate g.2.samples\ncreate g.2.words\n\
create g.3.words\ncreate g.3.save\ncreate g.log\n\
append g.0.samples 131072\nappend g.0.words 109\nappend g.1.words 109\nappend g.2.samples 131072\n\
append g.2.words 109\nappend g.3.words 109\n\
append g.0.samples 131072\nappend g.0.words 148\nappend g.1.words 148\nappend g.2.samples 131072\n\
append g.2.words 148\nappend g.3.words 148\n\
append g.0.samples 76\nappend g.0.words 37\nappend g.1.words 37\nappend g.2.samples 76\n\
append g.2.words 37\nappend g.3.words 37\n\
append g.3.save 32768\nappend g.log 1149\nappend - 301\n";

/// The same where the frames of the first console are asked for too.
const CALLS_WITH_FRAMES: &str =
    "create g.0.frames\ncreate g.0.samples\ncreate g.0.words\ncreate g.1.words\n\
create g.2.samples\ncreate g.2.words\ncreate g.3.words\ncreate g.3.save\ncreate g.log\n\
append g.0.frames 4608000\nappend g.0.samples 131072\nappend g.0.words 109\nappend g.1.words 109\n\
append g.2.samples 131072\nappend g.2.words 109\nappend g.3.words 109\n\
append g.0.frames 4531200\nappend g.0.samples 131072\nappend g.0.words 148\nappend g.1.words 148\n\
append g.2.samples 131072\nappend g.2.words 148\nappend g.3.words 148\n\
append g.0.samples 76\nappend g.0.words 37\nappend g.1.words 37\nappend g.2.samples 76\n\
append g.2.words 37\nappend g.3.words 37\n\
append g.3.save 32768\nappend g.log 1232\nappend - 301\n";

/// The log with frames.
const LOG: &str =
    "gbalink 2\ncycles 33564432\nlink 0 1 512\nlink 0 2 512\nlink 0 3 512\nlink 1 0 512\nlink 1 2 512\nlink 1 3 512\nlink 2 0 512\nlink 2 1 512\nlink 2 3 512\nlink 3 0 512\nlink 3 1 512\nlink 3 2 512\nconsole 0\n\
bios s sha256 31183b58c32bb9a53c949fc3a02162ff40e3d54294f2c2770e236d1f89ae1767\n\
out frames sha256 2538004afa5153381b8734d2d50cbbf09724c0f04bcd6f855c265e545c13a4b1\n\
out samples sha256 f7b3186006cbea0709f0cd59f2c7c17941a495c42b145cdd6ebc6a88d546ba22\n\
out words sha256 86db31f8e313773cf69c5e68580cd3de4d015166efe2f2ab583bb673b85f1409\nconsole 1\n\
bios a sha256 93482b7b77d66eecbe4db4af9a07b512c3c29dd860163ad7fa7cafbe1270321f\nkey 0 002\n\
out words sha256 86db31f8e313773cf69c5e68580cd3de4d015166efe2f2ab583bb673b85f1409\nconsole 2\n\
bios a sha256 93482b7b77d66eecbe4db4af9a07b512c3c29dd860163ad7fa7cafbe1270321f\nkey 0 004\n\
out samples sha256 f7b3186006cbea0709f0cd59f2c7c17941a495c42b145cdd6ebc6a88d546ba22\n\
out words sha256 86db31f8e313773cf69c5e68580cd3de4d015166efe2f2ab583bb673b85f1409\nconsole 3\n\
bios a sha256 93482b7b77d66eecbe4db4af9a07b512c3c29dd860163ad7fa7cafbe1270321f\nkey 0 008\n\
out words sha256 86db31f8e313773cf69c5e68580cd3de4d015166efe2f2ab583bb673b85f1409\n\
out save sha256 2d864c0b789a43214eee8524d3182075125e5ca2cd527f3582ec87ffd94076bc\nend\n";

/// Its summary. The first console's last halt begins at 33,549,359, and each idle step lasts 16 cycles.
const REPORT: &str =
    "console 0 clock 33564447 frames 119 samples 65555 words 8\nconsole 1 clock 33564434 frames 119 samples 65555 words 8\n\
console 2 clock 33564434 frames 119 samples 65555 words 8\nconsole 3 clock 33564434 frames 119 samples 65555 words 8\n\
log 8e0a1bf8d7d05de5f262d6db9b47d386597a97d14168879d61a6db66c1fcec91\n";

/// The images of the jobs.
static IMAGES: [(&str, Content<'static>); 2] = [("s", Code(&STARTS)), ("a", Code(&AWAITS))];

/// The job of four consoles with this delay, and more lines for the first one.
fn four(alloc: Global, delay: u64, more: &str) -> Result<String, AllocError> {
    format!(in alloc;
        "gbalink 1\ncycles 33564432\ndelay {delay}\nconsole 0\nbios s\nout samples\nout words\n{more}console 1\nbios a\nkey 0 002\nout words\nconsole 2\nbios a\nkey 0 004\nout samples\nout words\nconsole 3\nbios a\nkey 0 008\nout words\nout save\nend\n"
    )
}

/// Where calls are kept, and counted in this number.
fn sink_of(alloc: Global, made: &AtomicU64) -> LoggingSink<'_> {
    let files = MemorySink::new(alloc, Vec::new(alloc), Vec::new(alloc));
    LoggingSink::new(alloc, files, made)
}

/// Runs this job with the images into a sink, and is done.
fn run<R: Abort + Threads + Sync, G: Gate + Sync>(
    rt: &R,
    alloc: Global,
    job: &[u8],
    out: &mut LoggingSink<'_>,
    gate: &G,
) -> Result<(), Fail> {
    let job = stored(alloc, "j", Vec::from_slice(alloc, job)?)?;
    let files = stored_all(alloc, job, &IMAGES)?;
    let status = call_into(rt, alloc, &["run", "j", "g"], files, out, gate)?;
    assert_eq!(rt; status, 0);
    Ok(())
}

/// All consoles have all words, no sound is heard, and the SRAM is full of FFh.
static FILES: [(&str, Expected<'static>); 7] = [
    ("g.0.words", Is(Text(WORDS))),
    ("g.1.words", Is(Text(WORDS))),
    ("g.2.words", Is(Text(WORDS))),
    ("g.3.words", Is(Text(WORDS))),
    ("g.0.samples", Is(Filled(262_220, 0))),
    ("g.2.samples", Is(Filled(262_220, 0))),
    ("g.3.save", Is(Filled(32_768, 0xFF))),
];

/// The log and the summary of the run with frames.
static LOGGED: [(&str, Expected<'static>); 2] = [("g.log", Is(Text(LOG))), ("-", Is(Text(REPORT)))];

/// A sink was called so, and has these files.
fn has_files<R: Abort>(
    rt: &R,
    alloc: Global,
    out: &LoggingSink<'_>,
    files: &[(&str, Expected<'_>)],
) -> Result<(), Fail> {
    for &(name, expected) in files {
        assert!(rt;
            is_as_expected(alloc, out.bytes(name), expected)?,
            "of {name}"
        );
    }
    Ok(())
}

/// The backdrop's colour in a cycle: how many of the writes, each 2^22 cycles from 4,189,218 on, are before it.
fn colour_in(clock: u64) -> u16 {
    let writes = clock.saturating_add(5_085) / 4_194_304;
    if writes == 0 {
        0
    } else {
        0x1000 + writes.min(0xFF) as u16
    }
}

/// All dots of a line have this colour.
fn is_coloured(line: &[u8], colour: &[u8]) -> bool {
    for dot in line.chunks_exact(2) {
        if dot != colour {
            return false;
        }
    }
    true
}

/// A line is drawn where its HBlank begins, 1,006 cycles after the line, which has 1,232; a frame has 228 of them, of
/// which 160 are drawn.
fn are_drawn<R: Abort>(rt: &R, frames: &[u8]) {
    assert_eq!(rt; frames.len(), 119 * 76_800);
    for (number, line) in frames.chunks_exact(480).enumerate() {
        let frame = (number / 160) as u64;
        let height = (number % 160) as u64;
        let clock = frame
            .saturating_mul(280_896)
            .saturating_add(height * 1_232 + 1_006);
        let colour = colour_in(clock).to_le_bytes();
        assert!(rt;
            is_coloured(line, colour.as_slice()),
            "line {height} of frame {frame}"
        );
    }
}

/// Four consoles over three segments, on threads with an open gate, and all that is written of them.
#[test]
fn four_consoles_in_three_segments(rt: HostRuntime) -> Result<(), Fail> {
    let alloc = rt.alloc();
    let made = AtomicU64::new(0);
    let mut out = sink_of(alloc, &made);
    let job = four(alloc, 512, "out frames\n")?;
    run(&rt, alloc, job.as_bytes(), &mut out, &NoGate)?;
    assert_eq!(rt; out.calls(), CALLS_WITH_FRAMES);
    has_files(&rt, alloc, &out, &FILES)?;
    has_files(&rt, alloc, &out, &LOGGED)?;
    are_drawn(&rt, out.bytes("g.0.frames").unwrap_or(b"".as_slice()));
    Ok(())
}

/// A gate that isn't open, and holds nothing.
#[derive(Clone, Copy)]
struct Told;

impl Gate for Told {
    fn enter(&self, _player: u32, _clock: u64) {}
}

/// A job, and this gate: the calls and the files of the run without frames.
fn is_without_frames<R: Abort + Threads + Sync, G: Gate + Sync>(
    rt: &R,
    alloc: Global,
    job: &[u8],
    out: &mut LoggingSink<'_>,
    gate: &G,
) -> Result<(), Fail> {
    run(rt, alloc, job, out, gate)?;
    assert_eq!(rt; out.calls(), CALLS);
    has_files(rt, alloc, out, &FILES)
}

/// The same without frames, step by step on threads; and its log, which gives the same again.
#[test]
fn single_steps_and_the_log_write_the_same(rt: HostRuntime) -> Result<(), Fail> {
    let alloc = rt.alloc();
    let made = AtomicU64::new(0);
    let mut first = sink_of(alloc, &made);
    let job = four(alloc, 512, "")?;
    is_without_frames(&rt, alloc, job.as_bytes(), &mut first, &Told)?;
    let mut second = sink_of(alloc, &made);
    let log = first.bytes("g.log").unwrap_or(b"".as_slice());
    is_without_frames(&rt, alloc, log, &mut second, &NoGate)?;
    for name in ["g.log", "-"] {
        assert!(rt; second.bytes(name) == first.bytes(name), "in {name}");
    }
    Ok(())
}

/// The same with a delay at which one thread steps all of them: a transfer ends where it does with any delay.
#[test]
fn one_thread_writes_the_same(rt: HostRuntime) -> Result<(), Fail> {
    let alloc = rt.alloc();
    let made = AtomicU64::new(0);
    let job = four(alloc, 255, "")?;
    is_without_frames(
        &rt,
        alloc,
        job.as_bytes(),
        &mut sink_of(alloc, &made),
        &NoGate,
    )
}

/// Two consoles over three segments.
const PAIR: &str =
    "gbalink 1\ncycles 33556432\ndelay 1024\nconsole 0\nbios a\nout samples\nconsole 1\nbios a\nout samples\nend\n";

/// How many calls of the sink are due before a step that begins 512 cycles or more after the end of so many segments:
/// three files are made, and each segment gives two pieces.
fn calls_due(segments: u64) -> u64 {
    if segments == 0 {
        0
    } else {
        segments.saturating_mul(2).saturating_add(3)
    }
}

/// Looks before each step at the number of calls that were made. Keeps whether a step came before a call that was due,
/// and in which segments there were steps.
#[derive(Drop)]
struct Order {
    made: AtomicU64,
    early: AtomicBool,
    stepped: [AtomicBool; 3],
}

impl Gate for Order {
    fn enter(&self, _player: u32, clock: u64) {
        let segments = clock.saturating_sub(512) / 16_777_216;
        if self.made.load(Ordering::SeqCst) < calls_due(segments) {
            self.early.store(true, Ordering::SeqCst);
        }
        if segments < 3 && !self.stepped[segments as usize].load(Ordering::SeqCst) {
            self.stepped[segments as usize].store(true, Ordering::SeqCst);
        }
    }
}

/// No step of a later segment begins before the files are made, and all pieces of the segments before it are added.
#[test]
fn a_segment_waits_for_the_pieces(rt: HostRuntime) -> Result<(), Fail> {
    let alloc = rt.alloc();
    let gate = Order {
        made: AtomicU64::new(0),
        early: AtomicBool::new(false),
        stepped: [
            AtomicBool::new(false),
            AtomicBool::new(false),
            AtomicBool::new(false),
        ],
    };
    let mut out = sink_of(alloc, &gate.made);
    run(&rt, alloc, PAIR.as_bytes(), &mut out, &gate)?;
    assert!(rt; !gate.early.load(Ordering::SeqCst), "a step comes early");
    for stepped in &gate.stepped {
        assert!(rt; stepped.load(Ordering::SeqCst), "a segment has no step");
    }
    Ok(())
}

/// The first calls of `gen`. No transfer ends within 1,000 cycles.
const GENERATED: &str =
    "create g.0.bios\ncreate g.1.bios\ncreate g.2.bios\ncreate g.3.bios\ncreate g.job\n\
create g.0.words\ncreate g.0.state\ncreate g.1.words\ncreate g.1.state\ncreate g.2.words\ncreate g.2.state\n\
create g.3.words\ncreate g.3.state\ncreate g.log\n\
append g.0.bios 16384\nappend g.1.bios 16384\nappend g.2.bios 16384\nappend g.3.bios 16384\nappend g.job 212\n\
append g.0.state ";

/// The files that are made of a number come first.
#[test]
fn what_is_generated_comes_first(rt: HostRuntime) -> Result<(), Fail> {
    let alloc = rt.alloc();
    let made = AtomicU64::new(0);
    let mut out = sink_of(alloc, &made);
    let words = ["gen", "7", "1000", "g"];
    let status = call_into(&rt, alloc, &words, Vec::new(alloc), &mut out, &NoGate)?;
    assert_eq!(rt; status, 0);
    assert!(rt; out.calls().starts_with(GENERATED));
    Ok(())
}
