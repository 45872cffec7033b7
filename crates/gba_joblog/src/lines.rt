//! Which lines of a file say anything.

ghost use Rattle.std.specs.Prelude.{◌≡◌, ◌<◌, IfOk, IsTrue, None};
ghost use Rattle.gba_text.specs.Words.{fault_of, words};
ghost use Rattle.gba_text.specs.Answers.{Agrees};
ghost use Rattle.gba_joblog.specs.Lines.{is_comment as is_comment_of, is_said as is_said_of};

use crate::kinds::{JobError, JobKind, ParseRefused};
use gba_text::{Cursor, LONGEST_LINE, TextKind};

pub(crate) fn make_refusal(line: u64, kind: JobKind) -> ParseRefused
    ensures { result ≡ ParseRefused.Job (record { line = line; kind = kind }) }
{
    ParseRefused::Job(JobError { line, kind })
}

fn is_comment(line: &[u8]) -> bool
    ensures { result ≡ is_comment_of line.now }
{
    match line.first() {
        Some(byte) => *byte == b'#',
        None => false,
    }
}

/// Whether the line that the cursor gave last says anything, or else is skipped.
#[tactic(auto, unfolding(crate::specs::Lines::is_said, gba_text::specs::Reading::next_word, gba_text::specs::Words::fault_of))]
pub(crate) fn is_said(line: &[u8], cursor: &Cursor<'_>) -> Result<bool, JobKind>
    requires given { 0 < cursor.now.number }
    requires current { cursor.now.line ≡ line.now }
    requires fresh { cursor.now.words ≡ words line.now }
    ensures said { Agrees (λ said. said) result (is_said_of line.now) }
    ensures sound { IfOk result (λ said. IsTrue said → fault_of line.now ≡ None) }
{
    if line.len() > LONGEST_LINE {
        return Err(JobKind::Long);
    }
    if is_comment(line) {
        return Ok(false);
    }
    match cursor.peek() {
        Ok(_) => Ok(true),
        Err(refusal) => match refusal.kind {
            TextKind::Missing => Ok(false),
            _ => Err(JobKind::Byte),
        },
    }
}
