//! Jobs that are refused, each at a line for a cause.

use crate::helpers::{
    FIRST, HEAD, OF_NOTHING, Padded, assert_jobs, assert_refused, joined, refuses,
};
use gba_joblog::{JobError, JobKind, is_name};
use std::alloc::{AllocError, Global};
use std::process::Abort;
use std::test::Fail;

static REFUSED_LINES: [(&[u8], u64, JobKind); 30] = [
    (b"", 1, JobKind::Missing),
    (b"\n", 2, JobKind::Missing),
    (
        b"gbalink 1\ncycles 1\nconsole 0\nbios b\nout state\n",
        6,
        JobKind::Missing,
    ),
    (
        b"gbalink 1\ncycles 1\nconsole 0\nbios b\nout state",
        6,
        JobKind::Missing,
    ),
    (b"gbalink 1\n# more\n\n", 4, JobKind::Missing),
    (b"gbalink", 1, JobKind::Missing),
    (b"gbalink 1\ncycles ", 2, JobKind::Missing),
    (b"gbalink 1\ncycles 1\nconsole", 3, JobKind::Missing),
    (b"gbalink 1\ncycles 1\nconsole 0\nbios", 4, JobKind::Missing),
    (b"gbalink 1\ncycles 1\nconsole 0\nout", 4, JobKind::Missing),
    (
        b"gbalink 1\ncycles 1\nconsole 0\nout state\nend",
        5,
        JobKind::Missing,
    ),
    (
        b"gbalink 1\ncycles 1\nconsole 0\nend x",
        4,
        JobKind::Missing,
    ),
    (b"gbalink 1 1", 1, JobKind::Extra),
    (b"gbalink 1\ncycles 1 1", 2, JobKind::Extra),
    (b"gbalink 1\ncycles 1\nconsole 0 0", 3, JobKind::Extra),
    (
        b"gbalink 1\ncycles 1\nconsole 0\nbios b sha256",
        4,
        JobKind::Missing,
    ),
    (
        b"gbalink 1\ncycles 1\nconsole 0\nout state x",
        4,
        JobKind::Word,
    ),
    (
        b"gbalink 1\ncycles 1\nconsole 0\nbios b\nend end",
        5,
        JobKind::Extra,
    ),
    (
        b"gbalink 1\ncycles 1\nconsole 0\nbios b\nend\nend",
        6,
        JobKind::Extra,
    ),
    (
        b"gbalink 1\ncycles 1\nconsole 0\nbios b\nend\n\n#\nhello",
        8,
        JobKind::Extra,
    ),
    (
        b"gbalink 1\ncycles 1\nconsole 0\nbios b\nend\ngbalink 1",
        6,
        JobKind::Extra,
    ),
    (
        b"gbalink 1\ncycles 1\nconsole 0\nbios b\nend\ncycles 0",
        6,
        JobKind::Extra,
    ),
    (
        b"gbalink 1\ncycles 1\nconsole 0\nbios b\nend\nhello\x80",
        6,
        JobKind::Byte,
    ),
    (b"gbalink 1\n\xef\xbb\xbf\n", 2, JobKind::Byte),
    (b"gbalink 1\ncycles 1\rconsole 0\n", 2, JobKind::Byte),
    (b"gbalink 1\nhello \x7f", 2, JobKind::Byte),
    (b"gbalink 1\ncycles x\x1f\n", 2, JobKind::Byte),
    (b"gbalink 1\n\r", 2, JobKind::Byte),
    (b"hello\nworld", 1, JobKind::Word),
    (b"gbalink 1\ncycles 1\nhello\ncycles 1\n", 3, JobKind::Word),
];

#[test]
fn the_first_refused_line_is_named(rt: HostRuntime) -> Result<(), Fail> {
    assert_refused(&rt, rt.alloc(), b"", &REFUSED_LINES)?;
    Ok(())
}

static TESTS_IN_ORDER: [(&[u8], u64, JobKind); 49] = [
    (b" #\n", 1, JobKind::Word),
    (b"GBALINK 1\n", 1, JobKind::Word),
    (b"gbalink 01", 1, JobKind::Word),
    (b"gbalink 2 3", 1, JobKind::Extra),
    (b"gbalink 3", 1, JobKind::Word),
    (b"gbalink 02", 1, JobKind::Word),
    (b"cart c", 1, JobKind::Order),
    (b"carts c", 1, JobKind::Word),
    (b"gbalink 1\ncycles 1\nconsole 0\nKeys k", 4, JobKind::Word),
    (
        b"gbalink 1\ncycles 1\nconsole 0\nkeyz 1 000",
        4,
        JobKind::Word,
    ),
    (b"gbalink 1\ncycles 1\ncart c", 3, JobKind::Order),
    (b"gbalink 1\nsave s", 2, JobKind::Order),
    (b"gbalink 1\ncycles 1\nconsole 0\ncart", 4, JobKind::Missing),
    (
        b"gbalink 1\ncycles 1\nconsole 0\nsave s t",
        4,
        JobKind::Word,
    ),
    (b"gbalink 1\ncycles 1\nconsole 0\ncart -", 4, JobKind::Name),
    (
        b"gbalink 1\ncycles 1\nconsole 0\ncart c\nsave s\ncart -",
        6,
        JobKind::Repeated,
    ),
    (
        b"gbalink 1\ncycles 1\nconsole 0\nsave s\nbios b\nsave s",
        6,
        JobKind::Repeated,
    ),
    (
        b"gbalink 1\ncycles 1\nconsole 0\nout save\nout state\nout save x",
        6,
        JobKind::Repeated,
    ),
    (
        b"gbalink 1\ncycles 1\nconsole 0\ncart c\nsave s\nend",
        6,
        JobKind::Missing,
    ),
    (
        b"gbalink 1\ncycles 1\nconsole 0\nout State x",
        4,
        JobKind::Word,
    ),
    (b"cycles 1", 1, JobKind::Order),
    (b"cycles x", 1, JobKind::Order),
    (b"console 9", 1, JobKind::Order),
    (b"bios -", 1, JobKind::Order),
    (b"out", 1, JobKind::Order),
    (b"end", 1, JobKind::Order),
    (b"gbalink 1\nconsole 0", 2, JobKind::Order),
    (b"gbalink 1\nbios b", 2, JobKind::Order),
    (b"gbalink 1\nout state", 2, JobKind::Order),
    (b"gbalink 1\ncycles 1\nend", 3, JobKind::Order),
    (
        b"gbalink 1\ncycles 1\nconsole 99999999999999999999 x",
        3,
        JobKind::Order,
    ),
    (
        b"gbalink 1\ncycles 1\nconsole 0\ncycles 1",
        4,
        JobKind::Order,
    ),
    (b"gbalink 1\ngbalink 2", 2, JobKind::Repeated),
    (
        b"gbalink 1\ncycles 1\nconsole 0\ngbalink",
        4,
        JobKind::Repeated,
    ),
    (b"gbalink 1\ncycles 1\ncycles x", 3, JobKind::Repeated),
    (
        b"gbalink 1\ncycles 1\nconsole 0\nbios b\nbios b\nend",
        5,
        JobKind::Repeated,
    ),
    (
        b"gbalink 1\ncycles 1\nconsole 0\nbios b\nbios -",
        5,
        JobKind::Repeated,
    ),
    (
        b"gbalink 1\ncycles 1\nconsole 0\nout state\nout state x",
        5,
        JobKind::Repeated,
    ),
    (b"gbalink 1\ncycles 0", 2, JobKind::Number),
    (b"gbalink 1\ncycles 2147483649", 2, JobKind::Number),
    (
        b"gbalink 1\ncycles 000000000000000000001",
        2,
        JobKind::Number,
    ),
    (
        b"gbalink 1\ncycles 18446744073709551617",
        2,
        JobKind::Number,
    ),
    (b"gbalink 1\ncycles +1 x", 2, JobKind::Number),
    (
        b"gbalink 1\ncycles 1\nconsole 000000000000000000000",
        3,
        JobKind::Number,
    ),
    (b"gbalink 1\ncycles 1\nconsole x", 3, JobKind::Number),
    (b"gbalink 1\ncycles 1\nconsole 0\nbios -", 4, JobKind::Name),
    (
        b"gbalink 1\ncycles 1\nconsole 0\nbios a*b c",
        4,
        JobKind::Name,
    ),
    (b"gbalink 1\ncycles 1\nconsole 0\nbios a~", 4, JobKind::Name),
    (
        b"gbalink 1\ncycles 1\nconsole 0\nbios a\\b",
        4,
        JobKind::Name,
    ),
];

#[test]
fn the_tests_of_a_line_have_their_order(rt: HostRuntime) -> Result<(), Fail> {
    assert_refused(&rt, rt.alloc(), b"", &TESTS_IN_ORDER)?;
    Ok(())
}

static DELAYS: [(&[u8], u64, JobKind); 15] = [
    (b"delay 5", 1, JobKind::Order),
    (b"delay x", 1, JobKind::Order),
    (b"gbalink 1\nDelay 5", 2, JobKind::Word),
    (b"gbalink 1\ndelay 0", 2, JobKind::Number),
    (b"gbalink 1\ndelay 1025", 2, JobKind::Number),
    (b"gbalink 1\ndelay x 5", 2, JobKind::Number),
    (b"gbalink 1\ndelay 18446744073709551617", 2, JobKind::Number),
    (b"gbalink 1\ndelay", 2, JobKind::Missing),
    (b"gbalink 1\ndelay 5 5", 2, JobKind::Extra),
    (b"gbalink 1\ndelay 5\ndelay 5", 3, JobKind::Repeated),
    (
        b"gbalink 1\ndelay 5\ncycles 1\ndelay 0",
        4,
        JobKind::Repeated,
    ),
    (
        b"gbalink 1\ncycles 1\nconsole 0\ndelay 5",
        4,
        JobKind::Order,
    ),
    (
        b"gbalink 1\ndelay 5\ncycles 1\nconsole 0\ndelay 5",
        5,
        JobKind::Order,
    ),
    (b"gbalink 1\ndelay 5\nconsole 0", 3, JobKind::Order),
    (
        b"gbalink 1\ncycles 1\nconsole 0\nbios b\nend\ndelay 5",
        6,
        JobKind::Extra,
    ),
];

// The lines that version 2 added, and its limits; in version 1 they are no lines, and its limits stay.
static OF_VERSION_2: [(&[u8], u64, JobKind); 52] = [
    (b"link 0 1 1", 1, JobKind::Word),
    (b"off 1", 1, JobKind::Word),
    (b"backup sram", 1, JobKind::Word),
    (
        b"gbalink 1\ncycles 1\nconsole 0\nbackup sram",
        4,
        JobKind::Word,
    ),
    (b"gbalink 2\nbackup flash64", 2, JobKind::Order),
    (b"gbalink 2\ncycles 1\nbackup eeprom", 3, JobKind::Order),
    (
        b"gbalink 2\ncycles 1\nconsole 0\nBackup sram",
        4,
        JobKind::Word,
    ),
    (
        b"gbalink 2\ncycles 1\nconsole 0\nbackup",
        4,
        JobKind::Missing,
    ),
    (
        b"gbalink 2\ncycles 1\nconsole 0\nbackup flash",
        4,
        JobKind::Word,
    ),
    (
        b"gbalink 2\ncycles 1\nconsole 0\nbackup flash512",
        4,
        JobKind::Word,
    ),
    (
        b"gbalink 2\ncycles 1\nconsole 0\nbackup SRAM",
        4,
        JobKind::Word,
    ),
    (
        b"gbalink 2\ncycles 1\nconsole 0\nbackup none sram",
        4,
        JobKind::Word,
    ),
    (
        b"gbalink 2\ncycles 1\nconsole 0\nbackup sram sram",
        4,
        JobKind::Extra,
    ),
    (
        b"gbalink 2\ncycles 1\nconsole 0\nbackup sram\nbackup x",
        5,
        JobKind::Repeated,
    ),
    (
        b"gbalink 2\ncycles 1\nconsole 0\nbackup flash64\nbios b\nbackup flash64",
        6,
        JobKind::Repeated,
    ),
    (b"gbalink 1\nlink 0 1 1", 2, JobKind::Word),
    (b"gbalink 1\ncycles 1\nconsole 0\noff 1", 4, JobKind::Word),
    (
        b"gbalink 1\ncycles 1\nconsole 0\nlink 0 1 1",
        4,
        JobKind::Word,
    ),
    (b"gbalink 1\ncycles 274877906944", 2, JobKind::Number),
    (b"gbalink 2\ncycles 274877906945", 2, JobKind::Number),
    (b"gbalink 2\ncycles 0", 2, JobKind::Number),
    (b"gbalink 2\ngbalink 2", 2, JobKind::Repeated),
    (b"gbalink 2\nLink 0 1 1", 2, JobKind::Word),
    (b"gbalink 2\nlinks 0 1 1", 2, JobKind::Word),
    (b"gbalink 2\nlink", 2, JobKind::Missing),
    (b"gbalink 2\nlink 0", 2, JobKind::Missing),
    (b"gbalink 2\nlink 0 1", 2, JobKind::Missing),
    (b"gbalink 2\nlink 4", 2, JobKind::Number),
    (b"gbalink 2\nlink x 1 1", 2, JobKind::Number),
    (b"gbalink 2\nlink 0 4 1", 2, JobKind::Number),
    (b"gbalink 2\nlink 2 2", 2, JobKind::Number),
    (
        b"gbalink 2\nlink 3 00000000000000000003 1 1",
        2,
        JobKind::Number,
    ),
    (b"gbalink 2\nlink 0 1 0", 2, JobKind::Number),
    (b"gbalink 2\nlink 0 1 1025", 2, JobKind::Number),
    (b"gbalink 2\nlink 0 1 1 1", 2, JobKind::Extra),
    (b"gbalink 2\nlink 0 1 1\nlink 0 1", 3, JobKind::Repeated),
    (
        b"gbalink 2\nlink 0 1 1\nlink 1 0 1\nlink 00 01 x 1",
        4,
        JobKind::Repeated,
    ),
    (
        b"gbalink 2\nlink 3 2 1\ncycles 1\nlink 3 2 1",
        4,
        JobKind::Repeated,
    ),
    (b"gbalink 2\nlink 0 1 1\nlink 1 1 1", 3, JobKind::Number),
    (b"gbalink 2\ncycles 1\nconsole 0\nlink x", 4, JobKind::Order),
    (b"gbalink 2\noff 1", 2, JobKind::Order),
    (b"gbalink 2\ncycles 1\noff", 3, JobKind::Order),
    (b"gbalink 2\nlink 0 1 1\nconsole 0", 3, JobKind::Order),
    (b"gbalink 2\ncycles 1\nconsole 0\noff", 4, JobKind::Missing),
    (b"gbalink 2\ncycles 1\nconsole 0\noff 0", 4, JobKind::Number),
    (
        b"gbalink 2\ncycles 1\nconsole 0\noff 274877906944",
        4,
        JobKind::Number,
    ),
    (
        b"gbalink 2\ncycles 1\nconsole 0\noff 1 1",
        4,
        JobKind::Extra,
    ),
    (
        b"gbalink 2\ncycles 1\nconsole 0\noff 1\noff x",
        5,
        JobKind::Repeated,
    ),
    (
        b"gbalink 2\ncycles 1\nconsole 0\noff 1\nconsole 1",
        5,
        JobKind::Missing,
    ),
    (
        b"gbalink 2\ncycles 1\nconsole 0\nbios b\noff 1\nconsole 1\noff 1\nend",
        8,
        JobKind::Missing,
    ),
    (
        b"gbalink 2\ncycles 1\nconsole 0\nbios b\nend\noff 1",
        6,
        JobKind::Extra,
    ),
    (
        b"gbalink 2\ncycles 1\nconsole 0\nbios b\nend\nlink 0 1 1",
        6,
        JobKind::Extra,
    ),
];

#[test]
fn version_1_has_no_lines_of_version_2(rt: HostRuntime) -> Result<(), Fail> {
    assert_refused(&rt, rt.alloc(), b"", &OF_VERSION_2)?;
    Ok(())
}

// What follows the first lines of a job, up to `cycles`: the next line is the third.
static CONSOLES: [(&[u8], u64, JobKind); 22] = [
    (b"console 1", 3, JobKind::Order),
    (b"console 3 x", 3, JobKind::Order),
    (b"console 4", 3, JobKind::Order),
    (b"console 00000000000000000004 x", 3, JobKind::Order),
    (b"console -0", 3, JobKind::Number),
    (b"console 0\nconsole 1", 4, JobKind::Missing),
    (b"console 0\nconsole 1 x", 4, JobKind::Missing),
    (b"console 0\nconsole 2", 4, JobKind::Order),
    (b"console 0\nconsole 4", 4, JobKind::Order),
    (b"console 0\nconsole", 4, JobKind::Missing),
    (b"console 0\nbios b\nconsole 0", 5, JobKind::Order),
    (b"console 0\nbios b\nconsole 2", 5, JobKind::Order),
    (b"console 0\nbios b\nconsole 1 x", 5, JobKind::Extra),
    (b"console 0\nbios b\nconsole 1\nend", 6, JobKind::Missing),
    (
        b"console 0\nbios b\nconsole 1\ncart c\nend x",
        7,
        JobKind::Missing,
    ),
    (
        b"console 0\nbios b\nconsole 1\nconsole 1",
        6,
        JobKind::Order,
    ),
    (
        b"console 0\nbios b\nconsole 1\nbios b\nbios b",
        7,
        JobKind::Repeated,
    ),
    (
        b"console 0\nbios b\nconsole 1\nbios b\ncycles 1",
        7,
        JobKind::Order,
    ),
    (
        b"console 0\nbios b\nconsole 1\nbios b\ngbalink 1",
        7,
        JobKind::Repeated,
    ),
    (
        b"console 0\nbios b\nconsole 1\nbios b\nconsole 2\nbios b\nconsole 3\nbios b\nconsole 3",
        11,
        JobKind::Order,
    ),
    (
        b"console 0\nbios b\nconsole 1\nbios b\nconsole 2\nbios b\nconsole 3\nbios b\nconsole 4",
        11,
        JobKind::Order,
    ),
    (
        b"console 0\nbios b\nconsole 1\nbios b\nend\nconsole 2",
        8,
        JobKind::Extra,
    ),
];

#[test]
fn delays_and_consoles_are_refused(rt: HostRuntime) -> Result<(), Fail> {
    assert_refused(&rt, rt.alloc(), b"", &DELAYS)?;
    assert_refused(&rt, rt.alloc(), b"gbalink 1\ncycles 1\n", &CONSOLES)?;
    Ok(())
}

// What follows a name or an output: where `true`, the 64 digits stand between the two texts.
static DIGESTS: [(&[u8], bool, &[u8], JobKind); 14] = [
    (b" sha256", false, b"", JobKind::Missing),
    (b" sha256 ", false, b"", JobKind::Missing),
    (b" SHA256 ", true, b"", JobKind::Word),
    (b" sha-256 ", true, b"", JobKind::Word),
    (b" ", true, b"", JobKind::Word),
    (b" sha256 sha256 ", true, b"", JobKind::Digest),
    (b" sha256 0", true, b"", JobKind::Digest),
    (b" sha256 00", true, b" x", JobKind::Digest),
    (b" sha256 0", false, b"", JobKind::Digest),
    (b" sha256 ", true, b"00", JobKind::Digest),
    (b" sha256 0x", true, b"", JobKind::Digest),
    (b" sha256 ", true, b" ", JobKind::Missing),
    (b" sha256 ", true, b" x", JobKind::Extra),
    (b" sha256 ", true, b" sha256", JobKind::Extra),
];

static LINES: [&[u8]; 6] = [
    b"bios b",
    b"cart c",
    b"save s",
    b"keys k",
    b"out frames",
    b"out save",
];

/// Whether a line is refused with this digest after it.
fn refuses_digest(
    alloc: Global,
    line: &[u8],
    &(before, stated, after, kind): &(&[u8], bool, &[u8], JobKind),
) -> Result<bool, AllocError> {
    let digits: &[u8] = if stated { OF_NOTHING } else { b"" };
    let text = joined(alloc, &[HEAD, line, before, digits, after])?;
    // a line that is right is the last, and then the job ends too early
    let right = stated && before == b" sha256 ".as_slice() && kind == JobKind::Missing;
    let at = if right { 5 } else { 4 };
    Ok(refuses(alloc, &text, at, kind))
}

/// Asserts of a line that it is refused with each of these digests after it.
fn assert_digests(rt: &impl Abort, alloc: Global, line: &[u8]) -> Result<(), AllocError> {
    for row in &DIGESTS {
        assert!(rt;
            refuses_digest(alloc, line, row)?,
            "of {line:?} and {:?}",
            row.0
        );
    }
    Ok(())
}

static SHORT: [&[u8]; 3] = [
    b"e3b0c44298fc1c149afbf4c8996fb92427ae41e4649b934ca495991b7852b85",
    b"e3b0c44298fc1c149afbf4c8996fb92427ae41e4649b934ca495991b7852b8",
    b"e3b0c44298fc1c149afbf4c8996fb92427ae41e4649b934ca495991b7852b85g",
];

#[test]
fn digests_are_refused(rt: HostRuntime) -> Result<(), Fail> {
    for &line in &LINES {
        assert_digests(&rt, rt.alloc(), line)?;
    }
    for &digits in &SHORT {
        let text = joined(rt.alloc(), &[HEAD, b"bios b sha256 ", digits, b" x"])?;
        assert!(rt;
            refuses(rt.alloc(), &text, 4, JobKind::Digest),
            "of {digits:?}"
        );
    }
    Ok(())
}

static LONG_LINES: [Padded; 12] = [
    Padded {
        front: b"gbalink 1\ncycles 1\nconsole 0\nbios ",
        byte: b'n',
        count: 200,
        back: b"\nend\n",
        refused: None,
    },
    Padded {
        front: b"gbalink 1\ncycles 1\nconsole 0\nbios ",
        byte: b'n',
        count: 201,
        back: b"\nend\n",
        refused: Some((4, JobKind::Name)),
    },
    Padded {
        front: b"gbalink 1\ncycles 1\nconsole 0\nbios ",
        byte: b' ',
        count: 394,
        back: b"b\r\nend\n",
        refused: None,
    },
    Padded {
        front: b"gbalink 1\ncycles 1\nconsole 0\nbios ",
        byte: b' ',
        count: 395,
        back: b"b\r\nend\n",
        refused: Some((4, JobKind::Long)),
    },
    Padded {
        front: b"#",
        byte: b'x',
        count: 400,
        back: b"\ngbalink 1\n",
        refused: Some((1, JobKind::Long)),
    },
    Padded {
        front: b"#",
        byte: 0xff,
        count: 400,
        back: b"\ngbalink 1\n",
        refused: Some((1, JobKind::Long)),
    },
    Padded {
        front: b"\t",
        byte: b' ',
        count: 400,
        back: b"\ngbalink 1\n",
        refused: Some((1, JobKind::Long)),
    },
    Padded {
        front: b"x",
        byte: 0xff,
        count: 400,
        back: b"\ngbalink 1\n",
        refused: Some((1, JobKind::Long)),
    },
    Padded {
        front: b"#",
        byte: 0xff,
        count: 399,
        back: b"\ngbalink 1\n",
        refused: Some((3, JobKind::Missing)),
    },
    Padded {
        front: b"\t",
        byte: b' ',
        count: 399,
        back: b"\ngbalink 1\n",
        refused: Some((3, JobKind::Missing)),
    },
    Padded {
        front: b"gbalink 1\ncycles 1\nconsole 0\nbios b\nend\n",
        byte: b'x',
        count: 401,
        back: b"\n",
        refused: Some((6, JobKind::Long)),
    },
    Padded {
        front: HEAD,
        byte: b'#',
        count: 401,
        back: b"\xff",
        refused: Some((4, JobKind::Long)),
    },
];

#[test]
fn lines_have_400_bytes_and_names_200(rt: HostRuntime) -> Result<(), Fail> {
    assert_jobs(&rt, rt.alloc(), &LONG_LINES)
}

static LONG_JOBS: [Padded; 2] = [
    Padded {
        front: FIRST,
        byte: b'\n',
        count: 134_217_728 - FIRST.len(),
        back: b"",
        refused: None,
    },
    Padded {
        front: FIRST,
        byte: b'\n',
        count: 134_217_729 - FIRST.len(),
        back: b"",
        refused: Some((0, JobKind::Long)),
    },
];

// The longest job is read in seconds, and one byte more is refused as a whole.
#[test]
fn a_job_has_134217728_bytes(rt: HostRuntime) -> Result<(), Fail> {
    assert_jobs(&rt, rt.alloc(), &LONG_JOBS)
}

static KINDS: [(JobKind, &str); 11] = [
    (JobKind::Byte, "Byte"),
    (JobKind::Word, "Word"),
    (JobKind::Number, "Number"),
    (JobKind::Name, "Name"),
    (JobKind::Digest, "Digest"),
    (JobKind::Order, "Order"),
    (JobKind::Repeated, "Repeated"),
    (JobKind::Missing, "Missing"),
    (JobKind::Extra, "Extra"),
    (JobKind::Long, "Long"),
    (JobKind::Clash, "Clash"),
];

/// Whether a kind has this name, and is printed so.
fn is_told(alloc: Global, kind: JobKind, name: &str) -> Result<bool, Fail> {
    let text = format!(in alloc; "{kind}")?;
    Ok(kind.name() == name && text.as_str() == name)
}

fn printed(alloc: Global, refusal: JobError) -> Result<String, Fail> {
    Ok(format!(in alloc; "{refusal}")?)
}

#[test]
fn refusals_are_told_by_line_and_kind(rt: HostRuntime) -> Result<(), Fail> {
    for &(kind, name) in &KINDS {
        assert!(rt; is_told(rt.alloc(), kind, name)?, "of {name}");
    }
    let refusal = JobError {
        line: 5,
        kind: JobKind::Repeated,
    };
    assert_eq!(rt; printed(rt.alloc(), refusal)?.as_str(), "line 5 Repeated");
    assert!(rt; is_name(b"a/b.c"));
    assert!(rt; !is_name(b"-"));
    Ok(())
}
