//! Key changes, in jobs and in key files.

use crate::helpers::{
    HEAD, Padded, assert_key_files, assert_refused, changes_of, is_file, job_of, refuses,
    refuses_keys, repeated,
};
use gba_joblog::{Job, JobKind, KeyChange, LONGEST_KEYS, laws};
use std::alloc::Global;
use std::process::Abort;
use std::test::Fail;

/// Whether these are the changes, each with its clock and its keys.
fn are_changes(changes: &[KeyChange], want: &[(u64, u16)]) -> bool {
    changes.len() == want.len()
        && changes.iter().zip(want).all(|(change, (clock, keys))| change.clock == *clock
            && change.keys == *keys)
}

/// Jobs of one console, each with its changes and the line of its key file `k`, which is 0 where it has none.
static KEYS: [(&[u8], &[(u64, u16)], u64); 5] = [
    (
        b"gbalink 1\ncycles 1\nconsole 0\nkey 100 001\nbios b\nend\n",
        &[(100, 0x001)],
        0,
    ),
    (
        b"gbalink 1\ncycles 1\nconsole 0\nkey 0 000\nbios b\n\tkey 0  3fF \r\n# key 9 001\nkey 274877906943 2A0\nend\n",
        &[(0, 0), (0, 0x3ff), (274_877_906_943, 0x2a0)],
        0,
    ),
    (
        b"gbalink 1\ncycles 1\nconsole 0\nbios b\nkey 00000000000000000007 010\nout state\nkey 7 020\nend\n",
        &[(7, 0x010), (7, 0x020)],
        0,
    ),
    (
        b"gbalink 1\ncycles 1\nconsole 0\nbios b\nkeys k\nend\n",
        &[],
        5,
    ),
    (
        b"gbalink 1\ncycles 1\nconsole 0\nkeys k\nbios b\nend\n",
        &[],
        4,
    ),
];

/// Whether a job has one console with these changes, or with the key file `k` at this line.
fn has_keys(job: &Job, want: &[(u64, u16)], line: u64) -> bool {
    let [console] = job.consoles.as_slice() else {
        return false;
    };
    let file = (line != 0).then_some(("k", line));
    are_changes(&console.changes, want) && is_file(&console.keys, file)
}

/// Whether the text is a job with these changes, or with the key file `k` at this line.
fn says_keys(alloc: Global, text: &[u8], want: &[(u64, u16)], line: u64) -> bool {
    match job_of(alloc, text) {
        Some(job) => has_keys(&job, want, line),
        None => false,
    }
}

#[test]
fn keys_are_read(rt: HostRuntime) {
    for &(text, want, line) in &KEYS {
        assert!(rt; says_keys(rt.alloc(), text, want, line), "of {text:?}");
    }
}

// Lines of a console, the first of which is the job's fourth.
static REFUSED_KEYS: [(&[u8], u64, JobKind); 38] = [
    (b"key 5 001\nkey 4 000", 5, JobKind::Order),
    (b"key 5 001\nkey 4 xyz", 5, JobKind::Order),
    (b"key 5 001\nkey 4", 5, JobKind::Order),
    (
        b"key 5 001\nkey 6 000\nbios b\n\nkey 5 001",
        8,
        JobKind::Order,
    ),
    (b"key 5 001\nkey x 000", 5, JobKind::Number),
    (b"key", 4, JobKind::Missing),
    (b"key 5", 4, JobKind::Missing),
    (b"key 5 001 x", 4, JobKind::Extra),
    (b"key 5 001 sha256", 4, JobKind::Extra),
    (b"key 274877906944 000", 4, JobKind::Number),
    (b"key 18446744073709551616 000", 4, JobKind::Number),
    (b"key 000000000000000000005 000", 4, JobKind::Number),
    (b"key -1 000", 4, JobKind::Number),
    (b"key 5 400", 4, JobKind::Number),
    (b"key 5 fff x", 4, JobKind::Number),
    (b"key 5 00", 4, JobKind::Number),
    (b"key 5 0001", 4, JobKind::Number),
    (b"key 5 3fg", 4, JobKind::Number),
    (b"key 5 +01", 4, JobKind::Number),
    (b"key 5 0x1", 4, JobKind::Number),
    (b"key 5 -", 4, JobKind::Number),
    (b"keys k\nkey 5 001", 5, JobKind::Order),
    (b"keys k\nkey", 5, JobKind::Order),
    (b"key 5 001\nkeys k", 5, JobKind::Order),
    (b"key 5 001\nkeys -", 5, JobKind::Order),
    (b"keys k\nkeys k", 5, JobKind::Repeated),
    (b"keys k\nbios b\nkeys -", 6, JobKind::Repeated),
    (b"keys k\nkeys", 5, JobKind::Repeated),
    (b"keys", 4, JobKind::Missing),
    (b"keys -", 4, JobKind::Name),
    (b"keys a*b", 4, JobKind::Name),
    (b"keys k sha256", 4, JobKind::Missing),
    (b"bios b\nend\nkey 5 001", 6, JobKind::Extra),
    (b"bios b\nend\nkeys k", 6, JobKind::Extra),
    (b"key 5 001\nend", 5, JobKind::Missing),
    (b"key 5 001\nbios b\n", 6, JobKind::Missing),
    (b"key 5 001\x80", 4, JobKind::Byte),
    (b"key 5 001\rend", 4, JobKind::Byte),
];

static OUTSIDE: [(&[u8], u64, JobKind); 5] = [
    (b"key 5 001", 1, JobKind::Order),
    (b"keys k", 1, JobKind::Order),
    (b"gbalink 1\nkey x", 2, JobKind::Order),
    (b"gbalink 1\ncycles 1\nkey 5 001", 3, JobKind::Order),
    (b"gbalink 1\ncycles 1\nkeys -", 3, JobKind::Order),
];

#[test]
fn keys_are_refused(rt: HostRuntime) -> Result<(), Fail> {
    assert_refused(&rt, rt.alloc(), HEAD, &REFUSED_KEYS)?;
    assert_refused(&rt, rt.alloc(), b"", &OUTSIDE)?;
    Ok(())
}

static KEY_FILES: [(&[u8], &[(u64, u16)]); 6] = [
    (b"", &[]),
    (b"\n# \xff\x00 5 001\n \t\n#", &[]),
    (b"0 000", &[(0, 0)]),
    (
        b"5 001\n5 3ff\r\n\t6  3FF \n#7 000\n\n274877906943 000\n",
        &[(5, 1), (5, 0x3ff), (6, 0x3ff), (274_877_906_943, 0)],
    ),
    (b"00000000000000000012 0aB\n", &[(12, 0x0ab)]),
    (b"1 200\n2 100\n", &[(1, 0x200), (2, 0x100)]),
];

/// Whether the text is a key file with these changes.
fn says_changes(alloc: Global, text: &[u8], want: &[(u64, u16)]) -> bool {
    match changes_of(alloc, text) {
        Some(changes) => are_changes(&changes, want),
        None => false,
    }
}

#[test]
fn key_files_are_read(rt: HostRuntime) {
    for &(text, want) in &KEY_FILES {
        assert!(rt; says_changes(rt.alloc(), text, want), "of {text:?}");
    }
}

static REFUSED_KEY_FILES: [(&[u8], u64, JobKind); 26] = [
    (b"5 001\n4 000", 2, JobKind::Order),
    (b"5 001\n4 x", 2, JobKind::Order),
    (b"5 001\n4", 2, JobKind::Order),
    (b"5 001\n\n#\n6 000\n5 000\n", 5, JobKind::Order),
    (b"5 001\nx 001", 2, JobKind::Number),
    (b"5 001\n4 000\nx", 2, JobKind::Order),
    (b"5", 1, JobKind::Missing),
    (b"\n \n5 \n", 3, JobKind::Missing),
    (b"5 001 2", 1, JobKind::Extra),
    (b"5 001 sha256", 1, JobKind::Extra),
    (b"5 400", 1, JobKind::Number),
    (b"5 400 x", 1, JobKind::Number),
    (b"5 0001", 1, JobKind::Number),
    (b"5 01", 1, JobKind::Number),
    (b"5 0g0", 1, JobKind::Number),
    (b"274877906944 000", 1, JobKind::Number),
    (b"18446744073709551621 000", 1, JobKind::Number),
    (b"000000000000000000005 000", 1, JobKind::Number),
    (b"key 5 001", 1, JobKind::Number),
    (b"gbalink 1", 1, JobKind::Number),
    (b" #\n", 1, JobKind::Number),
    (b"end", 1, JobKind::Number),
    (b"5 001\n5 \x80", 2, JobKind::Byte),
    (b"\xef\xbb\xbf5 001", 1, JobKind::Byte),
    (b"5 001\r", 1, JobKind::Byte),
    (b"x\n5 \x80", 1, JobKind::Number),
];

/// Lines of 400 bytes and more of key files.
static LONG_LINES: [Padded; 4] = [
    Padded {
        front: b"#",
        byte: b' ',
        count: 400,
        back: b"\n4",
        refused: Some((1, JobKind::Long)),
    },
    Padded {
        front: b" ",
        byte: b' ',
        count: 400,
        back: b"\n4",
        refused: Some((1, JobKind::Long)),
    },
    Padded {
        front: b"\xff",
        byte: b' ',
        count: 400,
        back: b"\n4",
        refused: Some((1, JobKind::Long)),
    },
    Padded {
        front: b"5",
        byte: b' ',
        count: 396,
        back: b"001\r\n",
        refused: None,
    },
];

#[test]
fn key_files_are_refused(rt: HostRuntime) -> Result<(), Fail> {
    for &(text, line, kind) in &REFUSED_KEY_FILES {
        assert!(rt; refuses_keys(rt.alloc(), text, line, kind), "of {text:?}");
    }
    assert_key_files(&rt, rt.alloc(), &LONG_LINES)
}

/// Whether the text is a job of one console with so many changes.
fn counts_job_changes(alloc: Global, text: &[u8], count: usize) -> bool {
    match job_of(alloc, text) {
        Some(job) => match job.consoles.as_slice() {
            [console] => console.changes.len() == count,
            _ => false,
        },
        None => false,
    }
}

/// Whether the text is a key file with so many changes.
fn counts_changes(alloc: Global, text: &[u8], count: usize) -> bool {
    match changes_of(alloc, text) {
        Some(changes) => changes.len() == count,
        None => false,
    }
}

/// What follows 1,000,000 changes of a key file, and why it is refused.
static MORE: [(&[u8], JobKind); 5] = [
    (b"7 001\n8", JobKind::Long),
    (b"6 001", JobKind::Order),
    (b"7 400", JobKind::Number),
    (b"7", JobKind::Missing),
    (b"7 001 7", JobKind::Extra),
];

fn assert_files_changes(rt: &impl Abort, alloc: Global) -> Result<(), Fail> {
    let text = repeated(alloc, b"", b"7 001\n", 1_000_000, b"\n# 7 001\n")?;
    assert!(rt; counts_changes(alloc, &text, 1_000_000));
    for &(back, kind) in &MORE {
        let text = repeated(alloc, b"", b"7 001\n", 1_000_000, back)?;
        assert!(rt; refuses_keys(alloc, &text, 1_000_001, kind), "of {back:?}");
    }
    Ok(())
}

fn assert_jobs_changes(rt: &impl Abort, alloc: Global) -> Result<(), Fail> {
    let head: &[u8] = b"gbalink 1\ncycles 1\nconsole 0\nbios b\n";
    let text = repeated(alloc, head, b"key 7 001\n", 1_000_000, b"end\n")?;
    assert!(rt; counts_job_changes(alloc, &text, 1_000_000));
    let text = repeated(alloc, head, b"key 7 001\n", 1_000_001, b"end\n")?;
    assert!(rt; refuses(alloc, &text, 1_000_005, JobKind::Long));
    Ok(())
}

#[test]
fn a_console_has_1000000_changes(rt: HostRuntime) -> Result<(), Fail> {
    assert_files_changes(&rt, rt.alloc())?;
    assert_jobs_changes(&rt, rt.alloc())
}

static LONG_FILES: [Padded; 3] = [
    Padded {
        front: b"5 001\n",
        byte: b'\n',
        count: 33_554_432 - 6,
        back: b"",
        refused: None,
    },
    Padded {
        front: b"5 001\n",
        byte: b'\n',
        count: 33_554_433 - 6,
        back: b"",
        refused: Some((0, JobKind::Long)),
    },
    Padded {
        front: b"x",
        byte: b'\xff',
        count: 33_554_432,
        back: b"",
        refused: Some((0, JobKind::Long)),
    },
];

#[test]
fn a_key_file_has_33554432_bytes(rt: HostRuntime) -> Result<(), Fail> {
    assert_eq!(rt; LONGEST_KEYS, 33_554_432);
    assert_key_files(&rt, rt.alloc(), &LONG_FILES)
}

// A law answers nothing: that it holds is its contract.
#[test]
fn the_laws_are_stated() {
    laws::answered();
    laws::one_answer();
    laws::sound();
    laws::keys_answered();
    laws::keys_one_answer();
    laws::keys_sound();
    laws::digests_sound();
}
