//! The words after a line's first one.

ghost use Rattle.std.specs.Prelude.{◌≡◌, ◌<◌, true};
ghost use Rattle.gba_text.specs.Numbers.{is_number as is_number_of};
ghost use Rattle.gba_text.specs.Words.{fault_of};
ghost use Rattle.gba_text.specs.Answers.{Agrees, Takes};
ghost use Rattle.gba_joblog.specs.Operands.{backup_at as backup_at_of, digest_at as digest_at_of, digits_at as digits_at_of, end_at as end_at_of, has_words as has_words_of, keys_at as keys_at_of, name_at as name_at_of, number_at as number_at_of, out_kind_at as out_kind_at_of, pair_at as pair_at_of, player_at as player_at_of, version_at as version_at_of, version_of, word_at as word_at_of};

use crate::backup::backup_named;
use crate::cable::Pair;
use crate::draft::JobVersion;
use crate::kinds::JobKind;
use crate::names::{is_name, name_text};
use crate::outputs::OutKind;
use gba_image::Backup;
use gba_text::{Cursor, are_digits};
use hex::FromHex;

/// The greatest number of a console.
const LAST_PLAYER: u64 = 3;

/// The most digits of a number.
const LONGEST_NUMBER: usize = 20;

/// The digits of pressed keys.
const KEY_DIGITS: u32 = 3;

/// One more than the greatest value of pressed keys, which are ten bits.
const KEYS_END: u64 = 0x400;

/// The next word of the line.
#[tactic(auto, unfolding(gba_text::specs::Reading::next_word))]
pub(crate) fn word_at<'a>(cursor: &mut Cursor<'a>) -> Result<&'a [u8], JobKind>
    requires given { 0 < cursor.old.number }
    requires sound { fault_of cursor.old.line ≡ None }
    ensures word { Takes (λ w. w.now) result cursor.new.words (word_at_of cursor.old.words) }
    ensures number { cursor.new.number ≡ cursor.old.number }
    ensures line { cursor.new.line ≡ cursor.old.line }
    ensures lines { cursor.new.lines ≡ cursor.old.lines }
{
    match cursor.word() {
        Ok(word) => Ok(word),
        Err(refusal) => Err(JobKind::of_text(refusal.kind)),
    }
}

/// The next word as a number from `least` to `most`.
#[tactic(auto, unfolding(gba_text::specs::Reading::next_word, gba_text::specs::Reading::next_number, crate::specs::Operands::number_at))]
pub(crate) fn number_at(cursor: &mut Cursor<'_>, least: u64, most: u64) -> Result<u64, JobKind>
    requires given { 0 < cursor.old.number }
    requires sound { fault_of cursor.old.line ≡ None }
    ensures word { Takes (λ n. n) result cursor.new.words (number_at_of least most cursor.old.words) }
    ensures number { cursor.new.number ≡ cursor.old.number }
    ensures line { cursor.new.line ≡ cursor.old.line }
    ensures lines { cursor.new.lines ≡ cursor.old.lines }
{
    match cursor.number(least, most) {
        Ok(number) => Ok(number),
        Err(refusal) => Err(JobKind::of_text(refusal.kind)),
    }
}

/// The next word as pressed keys: three hexadecimal digits, below 400h.
#[tactic(auto, unfolding(gba_text::specs::Reading::next_word, gba_text::specs::Reading::next_hex_number, crate::specs::Operands::keys_at))]
pub(crate) fn keys_at(cursor: &mut Cursor<'_>) -> Result<u16, JobKind>
    requires given { 0 < cursor.old.number }
    requires sound { fault_of cursor.old.line ≡ None }
    ensures word { Takes (λ keys. keys) result cursor.new.words (keys_at_of cursor.old.words) }
    ensures number { cursor.new.number ≡ cursor.old.number }
    ensures line { cursor.new.line ≡ cursor.old.line }
    ensures lines { cursor.new.lines ≡ cursor.old.lines }
{
    match cursor.hex_number(KEY_DIGITS) {
        Ok(keys) if keys < KEYS_END => Ok(keys as u16),
        Ok(_) => Err(JobKind::Number),
        Err(refusal) => Err(JobKind::of_text(refusal.kind)),
    }
}

/// The next word as a file's name.
#[tactic(auto, unfolding(crate::specs::Operands::name_at))]
pub(crate) fn name_at<'a>(cursor: &mut Cursor<'a>) -> Result<&'a str, JobKind>
    requires given { 0 < cursor.old.number }
    requires sound { fault_of cursor.old.line ≡ None }
    ensures word { Takes (λ w. w.now) result cursor.new.words (name_at_of cursor.old.words) }
    ensures number { cursor.new.number ≡ cursor.old.number }
    ensures line { cursor.new.line ≡ cursor.old.line }
    ensures lines { cursor.new.lines ≡ cursor.old.lines }
{
    let word = word_at(cursor)?;
    if !is_name(word) {
        return Err(JobKind::Name);
    }
    Ok(name_text(word))
}

/// The version of the language that a word is, `1` or `2`.
fn version_named(word: &[u8]) -> Option<JobVersion>
    ensures { result ≡ version_of word.now }
{
    if word == b"1".as_slice() {
        Some(JobVersion::One)
    } else if word == b"2".as_slice() {
        Some(JobVersion::Two)
    } else {
        None
    }
}

/// The next word as the version of the language.
#[tactic(auto, unfolding(crate::specs::Operands::version_at))]
pub(crate) fn version_at(cursor: &mut Cursor<'_>) -> Result<JobVersion, JobKind>
    requires given { 0 < cursor.old.number }
    requires sound { fault_of cursor.old.line ≡ None }
    ensures word { Takes (λ version. version) result cursor.new.words (version_at_of cursor.old.words) }
    ensures number { cursor.new.number ≡ cursor.old.number }
    ensures line { cursor.new.line ≡ cursor.old.line }
    ensures lines { cursor.new.lines ≡ cursor.old.lines }
{
    let word = word_at(cursor)?;
    version_named(word).ok_or(JobKind::Word)
}

/// The next word as what a cartridge keeps its saves in.
#[tactic(auto, unfolding(crate::specs::Operands::backup_at))]
pub(crate) fn backup_at(cursor: &mut Cursor<'_>) -> Result<Backup, JobKind>
    requires given { 0 < cursor.old.number }
    requires sound { fault_of cursor.old.line ≡ None }
    ensures word { Takes (λ backup. backup) result cursor.new.words (backup_at_of cursor.old.words) }
    ensures number { cursor.new.number ≡ cursor.old.number }
    ensures line { cursor.new.line ≡ cursor.old.line }
    ensures lines { cursor.new.lines ≡ cursor.old.lines }
{
    let word = word_at(cursor)?;
    backup_named(word).ok_or(JobKind::Word)
}

/// The next word as the kind of an output.
#[tactic(auto, unfolding(crate::specs::Operands::out_kind_at))]
pub(crate) fn out_kind_at(cursor: &mut Cursor<'_>) -> Result<OutKind, JobKind>
    requires given { 0 < cursor.old.number }
    requires sound { fault_of cursor.old.line ≡ None }
    ensures word { Takes (λ out. out) result cursor.new.words (out_kind_at_of cursor.old.words) }
    ensures number { cursor.new.number ≡ cursor.old.number }
    ensures line { cursor.new.line ≡ cursor.old.line }
    ensures lines { cursor.new.lines ≡ cursor.old.lines }
{
    let word = word_at(cursor)?;
    OutKind::named(word).ok_or(JobKind::Word)
}

/// Whether a word is spelled as a number: 1 to 20 decimal digits.
fn is_number(word: &[u8]) -> bool
    ensures { result ≡ is_number_of word.now }
{
    1 <= word.len() && word.len() <= LONGEST_NUMBER && are_digits(word)
}

/// The next word as the number of a console, which has to be this one.
#[tactic(auto, unfolding(gba_text::specs::Reading::next_word, gba_text::specs::Reading::next_number, crate::specs::Operands::player_at))]
pub(crate) fn player_at(cursor: &mut Cursor<'_>, next: u64) -> Result<u64, JobKind>
    requires given { 0 < cursor.old.number }
    requires sound { fault_of cursor.old.line ≡ None }
    ensures word { Takes (λ player. player) result cursor.new.words (player_at_of next cursor.old.words) }
    ensures number { cursor.new.number ≡ cursor.old.number }
    ensures line { cursor.new.line ≡ cursor.old.line }
    ensures lines { cursor.new.lines ≡ cursor.old.lines }
{
    if let Ok(player) = cursor.number(0, LAST_PLAYER) {
        if player != next {
            return Err(JobKind::Order);
        }
        return Ok(player);
    }
    let word = word_at(cursor)?;
    if is_number(word) {
        return Err(JobKind::Order);
    }
    Err(JobKind::Number)
}

/// The next two words as a pair of players, of which the second isn't the first.
#[tactic(auto, unfolding(crate::specs::Operands::pair_at))]
pub(crate) fn pair_at(cursor: &mut Cursor<'_>) -> Result<Pair, JobKind>
    requires given { 0 < cursor.old.number }
    requires sound { fault_of cursor.old.line ≡ None }
    ensures words { Takes (λ pair. pair) result cursor.new.words (pair_at_of cursor.old.words) }
    ensures number { cursor.new.number ≡ cursor.old.number }
    ensures line { cursor.new.line ≡ cursor.old.line }
    ensures lines { cursor.new.lines ≡ cursor.old.lines }
{
    let sender = number_at(cursor, 0, LAST_PLAYER)?;
    let receiver = number_at(cursor, 0, LAST_PLAYER)?;
    if sender == receiver {
        return Err(JobKind::Number);
    }
    Ok(Pair {
        sender: sender as usize,
        receiver: receiver as usize,
    })
}

/// Whether words are left in the line.
#[tactic(auto, unfolding(gba_text::specs::Reading::next_word))]
fn has_words(cursor: &Cursor<'_>) -> bool
    requires given { 0 < cursor.now.number }
    requires sound { fault_of cursor.now.line ≡ None }
    ensures { result ≡ has_words_of cursor.now.words }
{
    cursor.peek().is_ok()
}

/// The next word as the digits of a digest.
#[tactic(auto, unfolding(crate::specs::Operands::digits_at))]
fn digits_at(cursor: &mut Cursor<'_>) -> Result<[u8; 32], JobKind>
    requires given { 0 < cursor.old.number }
    requires sound { fault_of cursor.old.line ≡ None }
    ensures word { Takes (λ digest. digest) result cursor.new.words (digits_at_of cursor.old.words) }
    ensures number { cursor.new.number ≡ cursor.old.number }
    ensures line { cursor.new.line ≡ cursor.old.line }
    ensures lines { cursor.new.lines ≡ cursor.old.lines }
{
    let word = word_at(cursor)?;
    match <[u8; 32] as FromHex>::from_hex(word) {
        Ok(digest) => Ok(digest),
        Err(_) => Err(JobKind::Digest),
    }
}

/// The digest that the rest of the line states, if it states one.
#[tactic(auto, unfolding(crate::specs::Operands::digest_at))]
pub(crate) fn digest_at(cursor: &mut Cursor<'_>) -> Result<Option<[u8; 32]>, JobKind>
    requires given { 0 < cursor.old.number }
    requires sound { fault_of cursor.old.line ≡ None }
    ensures word { Takes (λ digest. digest) result cursor.new.words (digest_at_of cursor.old.words) }
    ensures number { cursor.new.number ≡ cursor.old.number }
    ensures line { cursor.new.line ≡ cursor.old.line }
    ensures lines { cursor.new.lines ≡ cursor.old.lines }
{
    if !has_words(cursor) {
        return Ok(None);
    }
    let word = word_at(cursor)?;
    if word != b"sha256".as_slice() {
        return Err(JobKind::Word);
    }
    let digest = digits_at(cursor)?;
    Ok(Some(digest))
}

/// The end of the line.
pub(crate) fn end_at(cursor: &mut Cursor<'_>) -> Result<(), JobKind>
    requires given { 0 < cursor.old.number }
    requires sound { fault_of cursor.old.line ≡ None }
    ensures end { Agrees (λ _. true) result (end_at_of cursor.old.words) }
    ensures number { cursor.new.number ≡ cursor.old.number }
    ensures line { cursor.new.line ≡ cursor.old.line }
    ensures lines { cursor.new.lines ≡ cursor.old.lines }
{
    match word_at(cursor) {
        Ok(_) => Err(JobKind::Extra),
        Err(_) => Ok(()),
    }
}
