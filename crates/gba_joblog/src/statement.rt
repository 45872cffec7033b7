//! The table of statements: keywords, places and operands.

ghost use Rattle.std.specs.Prelude.{◌≡◌, ◌<◌};
ghost use Rattle.gba_text.specs.Words.{fault_of};
ghost use Rattle.gba_text.specs.Answers.{Agrees};
ghost use Rattle.gba_joblog.specs.Statements.{arguments as arguments_of, file_refusal as file_refusal_of, has_image as has_image_of, keyword_in as keyword_in_of, keyword_of as keyword_spelled, most_cycles as most_cycles_of, once as once_of, refusal_at as refusal_at_of};
ghost use Rattle.gba_joblog.specs.declared.statement.Keyword.TheVariants as keyword;
ghost use Rattle.gba_joblog.specs.Views.{draft_console_value, draft_value, statement_value};

use crate::cable::{Link, link_for};
use crate::changes::change_at;
use crate::console::DraftConsole;
use crate::draft::{DraftJob, JobVersion, Place};
use crate::job::{FileKind, KeyChange};
use crate::kinds::JobKind;
use crate::operands::{
    backup_at, digest_at, end_at, name_at, number_at, out_kind_at, pair_at, player_at, version_at,
};
use crate::outputs::OutKind;
use gba_image::Backup;
use gba_text::Cursor;

/// The most cycles of a job of version 1.
const MOST_CYCLES: u64 = 2_147_483_648;

/// The most cycles of a job of version 2.
const MOST_CYCLES_TWO: u64 = 274_877_906_944;

/// The greatest clock at which a console goes on, in cycles: one less than 2^38.
const MOST_OFF: u64 = 274_877_906_943;

/// The longest delay of the cable, in cycles.
const MOST_DELAY: u64 = 1_024;

/// What the first word of a line is.
#[derive(Clone, Copy, Debug, PartialEq, Eq)]
pub(crate) enum Keyword {
    Version,
    Cycles,
    Delay,
    Link,
    Console,
    File(FileKind),
    Key,
    Backup,
    Off,
    Out,
    End,
}

/// What a line says.
#[derive(Clone, Copy)]
pub(crate) enum Line<'a> {
    Version(JobVersion),
    Cycles(u64),
    /// The delay of all pairs that have no link.
    Delay(u64),
    /// The delay of one pair.
    Link(Link),
    /// The console of this number begins.
    Console(u64),
    /// An input, its name, and the digest stated with it.
    File(FileKind, &'a str, Option<[u8; 32]>),
    Key(KeyChange),
    /// The cartridge keeps its saves in this.
    Backup(Backup),
    /// The console is off before this clock.
    Off(u64),
    /// An output, and the digest stated for it.
    Out(OutKind, Option<[u8; 32]>),
    End,
}

/// The keyword that a word spells.
#[tactic(auto, unfolding(crate::specs::Statements::keyword_of))]
fn keyword_of(word: &[u8]) -> Option<Keyword>
    ensures { result ≡ keyword_spelled word.now }
{
    if word == b"gbalink".as_slice() {
        Some(Keyword::Version)
    } else if word == b"cycles".as_slice() {
        Some(Keyword::Cycles)
    } else if word == b"delay".as_slice() {
        Some(Keyword::Delay)
    } else if word == b"link".as_slice() {
        Some(Keyword::Link)
    } else if word == b"console".as_slice() {
        Some(Keyword::Console)
    } else if word == b"bios".as_slice() {
        Some(Keyword::File(FileKind::Bios))
    } else if word == b"cart".as_slice() {
        Some(Keyword::File(FileKind::Cart))
    } else if word == b"save".as_slice() {
        Some(Keyword::File(FileKind::Save))
    } else if word == b"keys".as_slice() {
        Some(Keyword::File(FileKind::Keys))
    } else if word == b"key".as_slice() {
        Some(Keyword::Key)
    } else if word == b"backup".as_slice() {
        Some(Keyword::Backup)
    } else if word == b"off".as_slice() {
        Some(Keyword::Off)
    } else if word == b"out".as_slice() {
        Some(Keyword::Out)
    } else if word == b"end".as_slice() {
        Some(Keyword::End)
    } else {
        None
    }
}

/// The keyword that a word spells in a version of the language.
pub(crate) fn keyword_in(version: JobVersion, word: &[u8]) -> Option<Keyword>
    ensures { result ≡ keyword_in_of version word.now }
{
    match (version, keyword_of(word)) {
        (JobVersion::One, Some(Keyword::Link | Keyword::Backup | Keyword::Off)) => None,
        (_, keyword) => keyword,
    }
}

/// The most cycles of a job, by the version of the language.
fn most_cycles(version: JobVersion) -> u64
    ensures { result ≡ most_cycles_of version }
{
    match version {
        JobVersion::One => MOST_CYCLES,
        JobVersion::Two => MOST_CYCLES_TWO,
    }
}

fn once(said: bool) -> Option<JobKind>
    ensures { result ≡ once_of said }
{
    if said { Some(JobKind::Repeated) } else { None }
}

/// Why a console's line of an input may not stand here, if so.
fn file_refusal(kind: FileKind, console: &DraftConsole) -> Option<JobKind>
    ensures { result ≡ file_refusal_of kind (draft_console_value console.now) }
{
    match kind {
        FileKind::Bios => once(console.bios.is_some()),
        FileKind::Cart => once(console.cart.is_some()),
        FileKind::Save => once(console.save.is_some()),
        FileKind::Keys => {
            if !console.changes.is_empty() {
                return Some(JobKind::Order);
            }
            once(console.keys.is_some())
        }
    }
}

/// Why a line may not stand here, if so.
#[tactic(auto, unfolding(crate::specs::Statements::refusal_at))]
pub(crate) fn refusal_at(draft: &DraftJob, keyword: Keyword) -> Option<JobKind>
    ensures { result ≡ refusal_at_of (draft_value draft.now) keyword }
{
    match (keyword, draft.place) {
        (Keyword::Version, Place::Start) => None,
        (Keyword::Version, _) => Some(JobKind::Repeated),
        (Keyword::Cycles, Place::Head) => once(draft.cycles.is_some()),
        (Keyword::Delay, Place::Head) => once(draft.delay.is_some()),
        (Keyword::Link, Place::Head) => None,
        (Keyword::Console, Place::Inside) => None,
        (Keyword::Console, Place::Head) if draft.cycles.is_some() => None,
        (Keyword::File(kind), Place::Inside) => file_refusal(kind, &draft.last),
        (Keyword::Key, Place::Inside) if draft.last.keys.is_some() => Some(JobKind::Order),
        (Keyword::Backup, Place::Inside) => once(draft.last.backup.is_some()),
        (Keyword::Off, Place::Inside) => once(draft.last.off != 0),
        (Keyword::Key | Keyword::Out | Keyword::End, Place::Inside) => None,
        _ => Some(JobKind::Order),
    }
}

/// Whether the console whose lines stand here has its BIOS image.
fn has_image(draft: &DraftJob) -> bool
    ensures { result ≡ has_image_of draft.now.place (draft_console_value draft.now.last) }
{
    match draft.place {
        Place::Inside => draft.last.bios.is_some(),
        Place::Start | Place::Head | Place::Ended => true,
    }
}

/// What a line `link` says.
#[tactic(auto, unfolding(crate::specs::Statements::arguments))]
fn link_line<'a>(draft: &DraftJob, cursor: &mut Cursor<'a>) -> Result<Line<'a>, JobKind>
    requires given { 0 < cursor.old.number }
    requires sound { fault_of cursor.old.line ≡ None }
    ensures says { Agrees statement_value result (arguments_of (draft_value draft.now) keyword.Link cursor.old.words) }
    ensures number { cursor.new.number ≡ cursor.old.number }
    ensures line { cursor.new.line ≡ cursor.old.line }
    ensures lines { cursor.new.lines ≡ cursor.old.lines }
{
    let pair = pair_at(cursor)?;
    if link_for(pair, &draft.links).is_some() {
        return Err(JobKind::Repeated);
    }
    let delay = number_at(cursor, 1, MOST_DELAY)?;
    end_at(cursor)?;
    Ok(Line::Link(Link { pair, delay }))
}

/// What a line `console` says.
#[tactic(auto, unfolding(crate::specs::Statements::arguments))]
fn console_line<'a>(draft: &DraftJob, cursor: &mut Cursor<'a>) -> Result<Line<'a>, JobKind>
    requires given { 0 < cursor.old.number }
    requires sound { fault_of cursor.old.line ≡ None }
    ensures says { Agrees statement_value result (arguments_of (draft_value draft.now) keyword.Console cursor.old.words) }
    ensures number { cursor.new.number ≡ cursor.old.number }
    ensures line { cursor.new.line ≡ cursor.old.line }
    ensures lines { cursor.new.lines ≡ cursor.old.lines }
{
    let player = player_at(cursor, draft.next_player())?;
    if !has_image(draft) {
        return Err(JobKind::Missing);
    }
    end_at(cursor)?;
    Ok(Line::Console(player))
}

/// What a line `out` says.
#[tactic(auto, unfolding(crate::specs::Statements::arguments))]
fn out_line<'a>(draft: &DraftJob, cursor: &mut Cursor<'a>) -> Result<Line<'a>, JobKind>
    requires given { 0 < cursor.old.number }
    requires sound { fault_of cursor.old.line ≡ None }
    ensures says { Agrees statement_value result (arguments_of (draft_value draft.now) keyword.Out cursor.old.words) }
    ensures number { cursor.new.number ≡ cursor.old.number }
    ensures line { cursor.new.line ≡ cursor.old.line }
    ensures lines { cursor.new.lines ≡ cursor.old.lines }
{
    let out = out_kind_at(cursor)?;
    if draft.last.asks_for(out) {
        return Err(JobKind::Repeated);
    }
    let digest = digest_at(cursor)?;
    end_at(cursor)?;
    Ok(Line::Out(out, digest))
}

/// What a line says with its operands.
#[tactic(auto, unfolding(crate::specs::Statements::arguments))]
pub(crate) fn arguments<'a>(
    draft: &DraftJob,
    keyword: Keyword,
    cursor: &mut Cursor<'a>,
) -> Result<Line<'a>, JobKind>
    requires given { 0 < cursor.old.number }
    requires sound { fault_of cursor.old.line ≡ None }
    ensures says { Agrees statement_value result (arguments_of (draft_value draft.now) keyword cursor.old.words) }
    ensures number { cursor.new.number ≡ cursor.old.number }
    ensures line { cursor.new.line ≡ cursor.old.line }
    ensures lines { cursor.new.lines ≡ cursor.old.lines }
{
    match keyword {
        Keyword::Version => {
            let version = version_at(cursor)?;
            end_at(cursor)?;
            Ok(Line::Version(version))
        }
        Keyword::Cycles => {
            let cycles = number_at(cursor, 1, most_cycles(draft.version))?;
            end_at(cursor)?;
            Ok(Line::Cycles(cycles))
        }
        Keyword::Delay => {
            let delay = number_at(cursor, 1, MOST_DELAY)?;
            end_at(cursor)?;
            Ok(Line::Delay(delay))
        }
        Keyword::Link => link_line(draft, cursor),
        Keyword::Console => console_line(draft, cursor),
        Keyword::File(kind) => {
            let name = name_at(cursor)?;
            let digest = digest_at(cursor)?;
            end_at(cursor)?;
            Ok(Line::File(kind, name, digest))
        }
        Keyword::Key => {
            let change = change_at(&draft.last.changes, cursor)?;
            Ok(Line::Key(change))
        }
        Keyword::Backup => {
            let backup = backup_at(cursor)?;
            end_at(cursor)?;
            Ok(Line::Backup(backup))
        }
        Keyword::Off => {
            let off = number_at(cursor, 1, MOST_OFF)?;
            end_at(cursor)?;
            Ok(Line::Off(off))
        }
        Keyword::Out => out_line(draft, cursor),
        Keyword::End => {
            if draft.last.bios.is_none() {
                return Err(JobKind::Missing);
            }
            end_at(cursor)?;
            Ok(Line::End)
        }
    }
}
