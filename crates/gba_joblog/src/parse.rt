//! The lines of a job, one after another.

ghost use Rattle.std.specs.Prelude.{◌≡◌, ◌<◌, IfOk, None, option_map};
ghost use Rattle.gba_text.specs.Words.{fault_of, words};
ghost use Rattle.gba_text.specs.Answers.{Agrees, IsSaid, Parses, Reads};
ghost use Rattle.gba_joblog.specs.Answers.{line_error};
ghost use Rattle.gba_joblog.specs.Language.{job_of, jobs, line_says as line_says_of, said_with, words_say as words_say_of};
ghost use Rattle.gba_joblog.specs.Soundness.{IsJob};
ghost use Rattle.gba_joblog.specs.Views.{draft_value, job_value, statement_value};

use crate::draft::{DraftJob, Place};
use crate::job::Job;
use crate::kinds::{JobKind, ParseRefused};
use crate::lines::{is_said, make_refusal};
use crate::operands::word_at;
use crate::statement::{Line, arguments, keyword_in, refusal_at};
use gba_text::Cursor;
use std::alloc::Global;

/// The most bytes of a job.
pub const LONGEST_JOB: usize = 134_217_728;

/// What the words of a line say, the first of which is the keyword.
fn words_say<'a>(draft: &DraftJob, cursor: &mut Cursor<'a>) -> Result<Option<Line<'a>>, JobKind>
    requires given { 0 < cursor.old.number }
    requires sound { fault_of cursor.old.line ≡ None }
    ensures says { Agrees (option_map statement_value) result
        (words_say_of (draft_value draft.now) cursor.old.words) }
    ensures number { cursor.new.number ≡ cursor.old.number }
    ensures lines { cursor.new.lines ≡ cursor.old.lines }
{
    let word = word_at(cursor)?;
    if matches!(draft.place, Place::Ended) {
        return Err(JobKind::Extra);
    }
    let Some(keyword) = keyword_in(draft.version, word) else {
        return Err(JobKind::Word);
    };
    if let Some(refusal) = refusal_at(draft, keyword) {
        return Err(refusal);
    }
    let line = arguments(draft, keyword, cursor)?;
    Ok(Some(line))
}

/// What the line that the cursor gave last says after the lines before it; None where it is skipped.
#[tactic(auto, unfolding(crate::specs::Language::line_says))]
fn line_says<'a>(
    draft: &DraftJob,
    line: &[u8],
    cursor: &mut Cursor<'a>,
) -> Result<Option<Line<'a>>, JobKind>
    requires given { 0 < cursor.old.number }
    requires current { cursor.old.line ≡ line.now }
    requires fresh { cursor.old.words ≡ words line.now }
    ensures says { Agrees (option_map statement_value) result (line_says_of (draft_value draft.now) line.now) }
    ensures number { cursor.new.number ≡ cursor.old.number }
    ensures lines { cursor.new.lines ≡ cursor.old.lines }
{
    if !is_said(line, cursor)? {
        return Ok(None);
    }
    words_say(draft, cursor)
}

/// Reads one line more, the line that the cursor gave last.
#[tactic(auto, unfolding(crate::specs::Language::said_with))]
fn read_line(
    draft: &mut DraftJob,
    alloc: Global,
    line: &[u8],
    cursor: &mut Cursor<'_>,
) -> Result<(), ParseRefused>
    requires given { 0 < cursor.old.number }
    requires current { cursor.old.line ≡ line.now }
    requires fresh { cursor.old.words ≡ words line.now }
    ensures says { Reads line_error result cursor.old.number (draft_value draft.new)
        (said_with cursor.old.number (draft_value draft.old) line.now) }
    ensures number { cursor.new.number ≡ cursor.old.number }
    ensures lines { cursor.new.lines ≡ cursor.old.lines }
{
    match line_says(draft, line, cursor) {
        Ok(Some(statement)) => {
            draft.add(alloc, statement, cursor.line_number())?;
            Ok(())
        }
        Ok(None) => Ok(()),
        Err(kind) => Err(make_refusal(cursor.line_number(), kind)),
    }
}

/// The job that the bytes say.
#[tactic(auto, unfolding(crate::specs::Language::job_of, gba_text::specs::Languages::answer_of))]
fn read_job(alloc: Global, bytes: &[u8]) -> Result<Job, ParseRefused>
    ensures job { Parses line_error job_value result (job_of bytes.now) }
{
    if bytes.len() > LONGEST_JOB {
        return Err(make_refusal(0, JobKind::Long));
    }
    let mut cursor = Cursor::new(bytes);
    let mut draft = DraftJob::new(alloc);
    while let Some(line) = cursor.line() {
        match read_line(&mut draft, alloc, line, &mut cursor) {
            Ok(()) => {}
            Err(refusal) => return Err(refusal),
        }
    }
    match draft.finish(cursor.line_number()) {
        Ok(job) => Ok(job),
        Err(refusal) => Err(ParseRefused::Job(refusal)),
    }
}

impl Job {
    /// Reads a job. Refused is the first line that isn't of the language, or the whole file with line 0 where it has
    /// more than 134,217,728 bytes. It takes memory for the consoles, the names and the key changes alone. A job that
    /// is read has one to four consoles, each with its BIOS image, and each name has 1 to 200 bytes.
    pub fn parse(alloc: Global, bytes: &[u8]) -> Result<Job, ParseRefused>
        ensures said { IsSaid line_error jobs job_value bytes.now result }
        ensures job { Parses line_error job_value result (job_of bytes.now) }
        ensures sound { IfOk result (λ job. IsJob (job_value job)) }
    {
        read_job(alloc, bytes)
    }
}
