//! The words of the commands: one too few, one too many, and names and numbers at and past their edges.

use crate::calls::{Case, call};
use std::test::Fail;

/// What every call here may read.
const SOURCE: &[u8] = b"bx lr\n";

/// 180 bytes, and one more.
const LONGEST: &str =
    "oooooooooooooooooooooooooooooooooooooooooooooooooooooooooooooooooooooooooooooooooooooooooooooooooooooooooooooooooooooooooooooooooooooooooooooooooooooooooooooooooooooooooooooooooooo";

const LONG: &str =
    "ooooooooooooooooooooooooooooooooooooooooooooooooooooooooooooooooooooooooooooooooooooooooooooooooooooooooooooooooooooooooooooooooooooooooooooooooooooooooooooooooooooooooooooooooooooo";

/// Words that are no command.
static WRONG: [&[&str]; 40] = [
    &["asm"],
    &["asm", "s"],
    &["asm", "s", "o", "o"],
    &["asm", "s", "s"],
    &["asm", "s", "-"],
    &["asm", "-", "o"],
    &["asm", "s", LONG],
    &["asm", "s t", "o"],
    &["Asm", "s", "o"],
    &["dis", "s"],
    &["dis", "s", "o", "o"],
    &["dis", "s", "s"],
    &["dis", "s", LONG],
    &["tdis", "s"],
    &["tdis", "s", "o", "o"],
    &["tdis", "s", "s"],
    &["tdis", "", "o"],
    &["gen"],
    &["gen", "1", "1"],
    &["gen", "1", "1", "g", "g"],
    &["gen", "4294967296", "1", "g"],
    &["gen", "1", "0", "g"],
    &["gen", "1", "2147483649", "g"],
    &["gen", "000000000000000000001", "1", "g"],
    &["gen", "+1", "1", "g"],
    &["gen", "-1", "1", "g"],
    &["gen", "1", "", "g"],
    &["gen", "1", "0x1", "g"],
    &["gen", "1", "1", "-"],
    &["gen", "1", "1", LONG],
    &["trace"],
    &["trace", "s", "0", "1"],
    &["trace", "s", "0", "1", "o", "o"],
    &["trace", "s", "1099511627776", "1", "o"],
    &["trace", "s", "0", "0", "o"],
    &["trace", "s", "0", "1000001", "o"],
    &["trace", "s", "", "1", "o"],
    &["trace", "-", "0", "1", "o"],
    &["trace", "s", "0", "1", LONG],
    &["Trace", "s", "0", "1", "o"],
];

#[test]
fn words_are_refused(rt: HostRuntime) -> Result<(), Fail> {
    for &words in &WRONG {
        let answer = call(&rt, rt.alloc(), words, &[("s", SOURCE)])?;
        answer.is(&rt, Case(words, SOURCE), 2, b"words\n");
        answer.has(&rt, Case(words, SOURCE), "o", None);
    }
    Ok(())
}

/// Words that are a command, and the front of what it reports. The bytes of the source are listed as a word that is no
/// operation and two bytes, and as a load of a byte, a load of a word and a shift.
static RIGHT: [(&[&str], &[u8]); 7] = [
    (&["asm", "s", "s.o"], b"asm 4\n"),
    (&["dis", "s", "a/o"], b"dis 39\n"),
    (&["tdis", "s", "o"], b"dis 64\n"),
    (&["asm", "s", LONGEST], b"asm 4\n"),
    (&["gen", "4294967295", "1", "g"], b"console 0 clock "),
    (
        &["gen", "0", "00000000000000000001", "g"],
        b"console 0 clock ",
    ),
    (&["gen", "1", "1", LONGEST], b"console 0 clock "),
];

#[test]
fn words_are_commands(rt: HostRuntime) -> Result<(), Fail> {
    for &(words, report) in &RIGHT {
        let answer = call(&rt, rt.alloc(), words, &[("s", SOURCE)])?;
        let front = answer
            .report()
            .get(..report.len())
            .unwrap_or(answer.report());
        assert_eq!(rt; (answer.status, front), (0, report), "of {words:?}");
    }
    Ok(())
}
