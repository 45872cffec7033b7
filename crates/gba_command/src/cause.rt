//! Why a command is refused, as its words and the files say.

ghost use Rattle.std.specs.Prelude.{◌≡◌, ◌≤◌, ◌++◌, codes, decimal, length};
ghost use Rattle.hex.specs.Hex.{encode_lower};
ghost use Rattle.gba_asm_words.specs.Kinds.{kind_name as asm_kind_name};
ghost use Rattle.gba_frozen.specs.Told.{kind_text as thaw_kind_name};
ghost use Rattle.gba_image.specs.Names.{error_name};
ghost use Rattle.gba_joblog.specs.Kinds.{kind_name};

use crate::refusal::{Name, line_about};
use gba_asm_words::{AsmError, AsmKind};
use gba_frozen::{ThawError, ThawKind};
use gba_image::ImageError;
use gba_joblog::{JobError, JobKind, digits_of};
use gba_text::{Line, add_text, line_of};
use itoa::Buffer;

/// Why a command is refused, as its words and the files say. Each cause has a status and one line of report.
#[derive(Drop)]
pub enum Cause {
    /// The words are no command: 2.
    NoCommand,
    /// The job of this name isn't of the language, or an output file would be the job or one of its inputs: 5.
    Job(Name, JobError),
    /// The image of this name is refused for this: 6.
    Image(Name, ImageError),
    /// The digest that the job states of the file of this name, and that of the file, which is another: 7.
    Digest {
        name: Name,
        stated: [u8; 32],
        got: [u8; 32],
    },
    /// The source of this name isn't of the assembly language: 8.
    Source(Name, AsmError),
    /// No run of the job goes on from the frozen file of this name: 12.
    Frozen(Name, ThawError),
}

#[tactic(auto, using(crate::proofs::KindNames::kind_name_short))]
fn kind_text(kind: JobKind) -> &'static [u8]
    ensures text { result.now ≡ kind_name kind }
    ensures short { length result.now ≤ 8 }
{
    kind.name().as_bytes()
}

#[tactic(auto, using(crate::proofs::KindNames::error_name_short))]
fn error_text(error: ImageError) -> &'static [u8]
    ensures text { result.now ≡ error_name error }
    ensures short { length result.now ≤ 11 }
{
    error.name().as_bytes()
}

#[tactic(auto, using(crate::proofs::KindNames::asm_kind_name_short))]
fn asm_kind_text(kind: AsmKind) -> &'static [u8]
    ensures text { result.now ≡ asm_kind_name kind }
    ensures short { length result.now ≤ 8 }
{
    kind.name().as_bytes()
}

fn thaw_kind_text(kind: ThawKind) -> &'static [u8]
    ensures text { result.now ≡ thaw_kind_name kind }
    ensures short { length result.now ≤ 8 }
{
    match kind {
        ThawKind::Spelling => "Spelling".as_bytes(),
        ThawKind::Number => "Number".as_bytes(),
        ThawKind::Job => "Job".as_bytes(),
        ThawKind::Unsound => "Unsound".as_bytes(),
    }
}

fn image_line(name: &Name, error: ImageError) -> Line
    ensures { result.items ≡ codes "image " ++ name.now.items ++ codes " " ++ error_name error ++ codes "\n" }
{
    let mut line = line_about(b"image ", name, b" ");
    add_text(&mut line, error_text(error));
    add_text(&mut line, b"\n");
    line
}

/// A file's first refused line, and the name of its kind.
fn refused_line(before: &[u8], name: &Name, number: u64, kind: &[u8]) -> Line
    requires before { length before.now ≤ 8 }
    requires kind { length kind.now ≤ 8 }
    ensures { result.items
        ≡ before.now ++ name.now.items ++ codes " line " ++ decimal number ++ codes " " ++ kind.now ++ codes "\n" }
{
    let mut buffer = Buffer::new();
    let mut line = line_about(before, name, b" line ");
    add_text(&mut line, buffer.format(number).as_bytes());
    add_text(&mut line, b" ");
    add_text(&mut line, kind);
    add_text(&mut line, b"\n");
    line
}

fn digest_line(name: &Name, stated: &[u8; 32], got: &[u8; 32]) -> Line
    ensures { result.items
        ≡ codes "digest " ++ name.now.items ++ codes " stated " ++ encode_lower stated.now ++ codes " got "
        ++ encode_lower got.now ++ codes "\n" }
{
    let mut line = line_about(b"digest ", name, b" stated ");
    add_text(&mut line, &digits_of(stated));
    add_text(&mut line, b" got ");
    add_text(&mut line, &digits_of(got));
    add_text(&mut line, b"\n");
    line
}

impl Cause {
    ghost use Rattle.std.specs.Prelude.{◌≡◌};
    ghost use Rattle.gba_command.specs.Cause.{status_of, report_of};
    ghost use Rattle.gba_command.specs.Views.{cause_value};

    /// The exit status.
    pub fn status(&self) -> u8
        ensures { result ≡ status_of (cause_value self.now) }
    {
        match self {
            Cause::NoCommand => 2,
            Cause::Job(..) => 5,
            Cause::Image(..) => 6,
            Cause::Digest { .. } => 7,
            Cause::Source(..) => 8,
            Cause::Frozen(..) => 12,
        }
    }

    /// The line of report, with its line feed.
    pub fn report(&self) -> Line
        ensures { result.items ≡ report_of (cause_value self.now) }
    {
        match self {
            Cause::NoCommand => line_of(b"words\n"),
            Cause::Job(name, error) => refused_line(
                b"job ",
                name,
                error.line,
                kind_text(error.kind),
            ),
            Cause::Image(name, error) => image_line(name, *error),
            Cause::Digest { name, stated, got } => digest_line(name, stated, got),
            Cause::Source(name, error) => refused_line(
                b"source ",
                name,
                error.line,
                asm_kind_text(error.kind),
            ),
            Cause::Frozen(name, error) => refused_line(
                b"frozen ",
                name,
                error.line,
                thaw_kind_text(error.kind),
            ),
        }
    }
}
