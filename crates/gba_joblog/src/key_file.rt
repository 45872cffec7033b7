//! Key files, line by line.

ghost use Rattle.std.specs.Prelude.{◌≡◌, ◌<◌, [], ◌∷◌, ◌++◌, IfOk, OnOk};
ghost use Rattle.gba_text.specs.Words.{words};
ghost use Rattle.gba_text.specs.Answers.{Agrees, IsSaid, Parses, Reads};
ghost use Rattle.gba_joblog.specs.Answers.{line_error};
ghost use Rattle.gba_joblog.specs.KeyFile.{changes_with, key_files, key_line_says, keys_of};
ghost use Rattle.gba_joblog.specs.Soundness.{AreChanges};

use crate::changes::change_at;
use crate::job::KeyChange;
use crate::kinds::{JobKind, ParseRefused};
use crate::lines::{is_said, make_refusal};
use gba_text::Cursor;
use std::alloc::{AllocError, Global};

/// The most bytes of a key file.
pub const LONGEST_KEYS: usize = 33_554_432;

/// The change that the line which the cursor gave last says after those before it; None where it is skipped.
#[tactic(auto, unfolding(crate::specs::KeyFile::key_line_says))]
fn line_says(
    before: &[KeyChange],
    line: &[u8],
    cursor: &mut Cursor<'_>,
) -> Result<Option<KeyChange>, JobKind>
    requires given { 0 < cursor.old.number }
    requires current { cursor.old.line ≡ line.now }
    requires fresh { cursor.old.words ≡ words line.now }
    ensures says { Agrees (λ change. change) result (key_line_says before.now line.now) }
    ensures number { cursor.new.number ≡ cursor.old.number }
    ensures lines { cursor.new.lines ≡ cursor.old.lines }
{
    if !is_said(line, cursor)? {
        return Ok(None);
    }
    let change = change_at(before, cursor)?;
    Ok(Some(change))
}

fn add(changes: &mut Vec<KeyChange>, change: KeyChange) -> Result<(), AllocError>
    ensures { OnOk result (changes.new.items ≡ changes.old.items ++ change ∷ []) }
{
    changes.push(change)?;
    Ok(())
}

/// Reads one line more, the line that the cursor gave last.
#[tactic(auto, unfolding(crate::specs::KeyFile::changes_with))]
fn read_line(
    changes: &mut Vec<KeyChange>,
    line: &[u8],
    cursor: &mut Cursor<'_>,
) -> Result<(), ParseRefused>
    requires given { 0 < cursor.old.number }
    requires current { cursor.old.line ≡ line.now }
    requires fresh { cursor.old.words ≡ words line.now }
    ensures says { Reads line_error result cursor.old.number changes.new.items
        (changes_with changes.old.items line.now) }
    ensures number { cursor.new.number ≡ cursor.old.number }
    ensures lines { cursor.new.lines ≡ cursor.old.lines }
{
    match line_says(changes, line, cursor) {
        Ok(Some(change)) => {
            add(changes, change)?;
            Ok(())
        }
        Ok(None) => Ok(()),
        Err(kind) => Err(make_refusal(cursor.line_number(), kind)),
    }
}

/// The changes that the bytes say.
#[tactic(auto, unfolding(crate::specs::KeyFile::keys_of, gba_text::specs::Languages::answer_of))]
fn read_keys(alloc: Global, bytes: &[u8]) -> Result<Vec<KeyChange>, ParseRefused>
    ensures keys { Parses line_error (λ changes. changes.items) result (keys_of bytes.now) }
{
    if bytes.len() > LONGEST_KEYS {
        return Err(make_refusal(0, JobKind::Long));
    }
    let mut cursor = Cursor::new(bytes);
    let mut changes = Vec::new(alloc);
    while let Some(line) = cursor.line() {
        match read_line(&mut changes, line, &mut cursor) {
            Ok(()) => {}
            Err(refusal) => return Err(refusal),
        }
    }
    Ok(changes)
}

/// Reads a key file of this project's profile: on each line a change's clock and keys, in the order of the lines.
/// Refused is the first line that isn't so, or the whole file with line 0 where it has more than 33,554,432 bytes. The
/// 1,000,001st change is refused as `Long` where its line is otherwise right. An empty file has no change.
pub fn parse_keys(alloc: Global, bytes: &[u8]) -> Result<Vec<KeyChange>, ParseRefused>
    ensures said { IsSaid line_error key_files (λ changes. changes.items) bytes.now result }
    ensures keys { Parses line_error (λ changes. changes.items) result (keys_of bytes.now) }
    ensures sound { IfOk result (λ changes. AreChanges changes.items) }
{
    read_keys(alloc, bytes)
}
