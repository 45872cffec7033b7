//! Runs that are made of a number. The words of the image are those of the ARM Architecture manual's diagrams, and the
//! numbers of the sequence are reckoned by hand from its rule.

use crate::calls::{Answer, Case, Failing, NOTHING_FAILS, call, call_with};
use std::alloc::Global;
use std::process::Abort;
use std::test::Fail;
use std::thread::Threads;

/// Some words of an image by their offsets; the seeds of players 0 to 3 for the number 7, which stand at 100, are
/// 7 * 2,654,435,761 + K * 40,503 + 1 modulo 2^32.
static WORDS: [(usize, u32); 5] = [
    (0, 0xE3A0_4301), // MOV r4, #04000000h
    (36, 0xE029_8796), // MLA r9, r6, r7, r8
    (80, 0xEAFF_FFF3), // B 24h
    (84, 0x0000_2003),
    (96, 0x3C6E_F35F),
];

const SEEDS: [u32; 4] = [1_401_181_144, 1_401_221_647, 1_401_262_150, 1_401_302_653];

const IMAGES: [&str; 4] = ["g.0.bios", "g.1.bios", "g.2.bios", "g.3.bios"];

const JOB: &[u8] = b"gbalink 1\ncycles 30000\ndelay 512\n\
console 0\nbios g.0.bios\nout words\nout state\n\
console 1\nbios g.1.bios\nout words\nout state\n\
console 2\nbios g.2.bios\nout words\nout state\n\
console 3\nbios g.3.bios\nout words\nout state\nend\n";

/// The files of a run under one OUT and under another.
static WRITTEN: [(&str, &str); 9] = [
    ("g.0.words", "h.0.words"),
    ("g.0.state", "h.0.state"),
    ("g.1.words", "h.1.words"),
    ("g.1.state", "h.1.state"),
    ("g.2.words", "h.2.words"),
    ("g.2.state", "h.2.state"),
    ("g.3.words", "h.3.words"),
    ("g.3.state", "h.3.state"),
    ("g.log", "h.log"),
];

fn has_word<R: Abort>(rt: &R, image: &[u8], offset: usize, word: u32) {
    let found = image.iter().skip(offset).take(4).copied();
    assert!(rt; found.eq(word.to_le_bytes().iter().copied()), "at {offset}");
}

/// A player's image has its words, its seed, and zeros behind it.
fn is_image<R: Abort>(rt: &R, image: &[u8], seed: u32) {
    assert_eq!(rt; image.len(), 16_384);
    for &(offset, word) in &WORDS {
        has_word(rt, image, offset, word);
    }
    has_word(rt, image, 100, seed);
    assert!(rt; image.iter().skip(104).all(|byte| *byte == 0));
}

/// The images and the job, and the words that player 0 sent: the upper halves of the numbers of its sequence.
#[test]
fn files_are_made(rt: HostRuntime) -> Result<(), Fail> {
    let answer = call(&rt, rt.alloc(), &["gen", "7", "030000", "g"], &[])?;
    assert_eq!(rt; answer.status, 0);
    for player in 0..4 {
        is_image(&rt, answer.file(IMAGES[player]), SEEDS[player]);
    }
    assert_eq!(rt; answer.file("g.job"), JOB);
    let words = answer.file("g.0.words");
    for part in [b" multi 63a7 ".as_slice(), b" multi b70d "] {
        assert!(rt;
            words.windows(part.len()).any(|place| place == part),
            "{part:?}"
        );
    }
    Ok(())
}

/// Two numbers, the cycles, and whether their runs have the same summary.
static NUMBERS: [(&str, &str, &str, bool); 2] = [
    ("7", "7", "50000", true),
    ("7", "8", "30000", false),
];

/// The summary of the run of a number.
fn summary<R: Abort + Threads + Sync>(
    rt: &R,
    alloc: Global,
    number: &str,
    cycles: &str,
) -> Result<Answer, Fail> {
    let answer = call(rt, alloc, &["gen", number, cycles, "g"], &[])?;
    assert_eq!(rt; answer.status, 0, "of {number}");
    Ok(answer)
}

/// The same number twice: the same summary. Another one: another summary.
#[test]
fn numbers_say_the_run(rt: HostRuntime) -> Result<(), Fail> {
    for &(first, second, cycles, same) in &NUMBERS {
        let one = summary(&rt, rt.alloc(), first, cycles)?;
        let other = summary(&rt, rt.alloc(), second, cycles)?;
        assert!(rt;
            (one.report() == other.report()) == same,
            "of {first}, {:?}, and of {second}, {:?}",
            one.report(),
            other.report()
        );
    }
    Ok(())
}

/// A run over the files that another call made, and over a job that it wrote.
fn run_made<R: Abort + Threads + Sync>(
    rt: &R,
    alloc: Global,
    made: &Answer,
    job: &str,
) -> Result<Answer, Fail> {
    let files = [
        (job, made.file(job)),
        (IMAGES[0], made.file(IMAGES[0])),
        (IMAGES[1], made.file(IMAGES[1])),
        (IMAGES[2], made.file(IMAGES[2])),
        (IMAGES[3], made.file(IMAGES[3])),
    ];
    call(rt, alloc, &["run", job, "h"], &files)
}

/// Another call's report and files, but under other names.
fn is_again<R: Abort>(rt: &R, job: &str, again: &Answer, made: &Answer) {
    again.is(rt, Case(&["run", job, "h"], b""), 0, made.report());
    for &(first, second) in &WRITTEN {
        assert_eq!(rt;
            again.file(second),
            made.file(first),
            "of {job}, in {second}"
        );
    }
}

/// The job that was made and the log of its run, run again over the images.
#[test]
fn made_jobs_are_run(rt: HostRuntime) -> Result<(), Fail> {
    let made = call(&rt, rt.alloc(), &["gen", "3", "60000", "g"], &[])?;
    for job in ["g.job", "g.log"] {
        let again = run_made(&rt, rt.alloc(), &made, job)?;
        is_again(&rt, job, &again, &made);
    }
    Ok(())
}

/// Numbers of creates and of appends that fail, and the file that is told. No transfer ends within 1,000 cycles, so
/// that the files of the words get no append.
static FAILURES: [(&[u64], &[u64], &[u8]); 9] = [
    (&[1], &[], b"sink g.0.bios\n"),
    (&[4], &[], b"sink g.3.bios\n"),
    (&[5], &[], b"sink g.job\n"),
    (&[6], &[], b"sink g.0.words\n"),
    (&[14], &[], b"sink g.log\n"),
    (&[], &[5], b"sink g.job\n"),
    (&[], &[6], b"sink g.0.state\n"),
    (&[], &[9], b"sink g.3.state\n"),
    (&[], &[10], b"sink g.log\n"),
];

/// The order of the files: the images, the job, and those of the run.
#[test]
fn failures_are_told(rt: HostRuntime) -> Result<(), Fail> {
    for &(creates, appends, report) in &FAILURES {
        let failing = Failing {
            creates,
            appends,
            ..NOTHING_FAILS
        };
        let words = ["gen", "7", "1000", "g"];
        let answer = call_with(&rt, rt.alloc(), &words, &[], failing)?;
        answer.is(&rt, Case(&words, b""), 9, report);
    }
    Ok(())
}
