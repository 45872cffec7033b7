//! Sources that are assembled, and images that are listed. Words and halfwords are those of the ARM Architecture
//! manual's diagrams.

use crate::calls::{Case, Failing, NOTHING_FAILS, call, call_with};
use std::test::Fail;

/// What is read, and what must be written and reported.
type Translation<'a> = (&'a str, &'a [u8], &'a [u8], &'a [u8]);

/// A branch to the next line, and then back; eight bytes that are no code, and their listing assembled again; the two
/// halves of BL; a word, a halfword and a byte at the end.
static TRANSLATIONS: [Translation<'static>; 7] = [
    (
        "asm",
        b"b x\nx: bx lr\n",
        b"\xff\xff\xff\xea\x1e\xff\x2f\xe1",
        b"asm 8\n",
    ),
    (
        "dis",
        b"\xff\xff\xff\xff\xff\xff\xff\xff",
        b".word 0xffffffff\n.word 0xffffffff\n",
        b"dis 34\n",
    ),
    (
        "asm",
        b".word 0xffffffff\n.word 0xffffffff\n",
        b"\xff\xff\xff\xff\xff\xff\xff\xff",
        b"asm 8\n",
    ),
    (
        "tdis",
        b"\x00\xf0\x02\xf8",
        b".thumb\nbl 0x00000008\n",
        b"dis 21\n",
    ),
    (
        "dis",
        b"\x1e\xff\x2f\xe1\x01",
        b"bx r14\n.byte 0x01\n",
        b"dis 18\n",
    ),
    ("asm", b"", b"", b"asm 0\n"),
    ("dis", b"", b"", b"dis 0\n"),
];

#[test]
fn files_are_translated(rt: HostRuntime) -> Result<(), Fail> {
    for &(command, read, written, report) in &TRANSLATIONS {
        let words = [command, "s", "o"];
        let answer = call(&rt, rt.alloc(), &words, &[("s", read)])?;
        answer.is(&rt, Case(&words, read), 0, report);
        answer.has(&rt, Case(&words, read), "o", Some(written));
    }
    Ok(())
}

/// Sources that aren't of the language, and their reports.
static REFUSED: [(&[u8], &[u8]); 5] = [
    (b"b nowhere\n", b"source s line 1 Label\n"),
    (b"mov r0\n", b"source s line 1 Operand\n"),
    (b"mov r0, #0x101\n", b"source s line 1 Range\n"),
    (b"bx lr\n\nnop\n", b"source s line 3 Unknown\n"),
    (b"x:\nx: bx lr\n", b"source s line 2 Repeated\n"),
];

#[test]
fn sources_are_refused(rt: HostRuntime) -> Result<(), Fail> {
    for &(source, report) in &REFUSED {
        let words = ["asm", "s", "o"];
        let answer = call(&rt, rt.alloc(), &words, &[("s", source)])?;
        answer.is(&rt, Case(&words, source), 8, report);
        answer.has(&rt, Case(&words, source), "o", None);
    }
    Ok(())
}

/// The file that isn't there, and calls that fail: the status, the report, and what OUT has then.
static FAILURES: [Failure<'static>; 5] = [
    ("asm", "t", NOTHING_FAILS, 3, b"absent t\n", None),
    ("tdis", "t", NOTHING_FAILS, 3, b"absent t\n", None),
    (
        "dis",
        "s",
        Failing {
            reads: &[1],
            ..NOTHING_FAILS
        },
        4,
        b"store s\n",
        None,
    ),
    (
        "asm",
        "s",
        Failing {
            creates: &[1],
            ..NOTHING_FAILS
        },
        9,
        b"sink o\n",
        None,
    ),
    (
        "asm",
        "s",
        Failing {
            appends: &[1],
            ..NOTHING_FAILS
        },
        9,
        b"sink o\n",
        Some(b"\x1e\xff"),
    ),
];

type Failure<'a> = (
    &'a str,
    &'a str,
    Failing<'a>,
    u8,
    &'a [u8],
    Option<&'a [u8]>,
);

#[test]
fn failures_are_told(rt: HostRuntime) -> Result<(), Fail> {
    for &(command, name, failing, status, report, written) in &FAILURES {
        let words = [command, name, "o"];
        let files = [("s", b"bx lr\n".as_slice())];
        let answer = call_with(&rt, rt.alloc(), &words, &files, failing)?;
        answer.is(&rt, Case(&words, b"bx lr\n"), status, report);
        answer.has(&rt, Case(&words, b"bx lr\n"), "o", written);
    }
    Ok(())
}

/// One byte more than an image may have.
#[test]
fn long_images_are_refused(rt: HostRuntime) -> Result<(), Fail> {
    let mut image = Vec::new(rt.alloc());
    image.resize(33_554_433, 0)?;
    for command in ["dis", "tdis"] {
        let words = [command, "i", "o"];
        let answer = call(&rt, rt.alloc(), &words, &[("i", image.as_slice())])?;
        answer.is(
            &rt,
            Case(&words, b"33,554,433 zeros"),
            6,
            b"image i TooLong\n",
        );
        answer.has(&rt, Case(&words, b"33,554,433 zeros"), "o", None);
    }
    Ok(())
}
