//! What a line says: a label, and a statement.

ghost use Rattle.std.specs.Prelude.{◌≡◌, ◌+◌, ◌≤◌, ◌<◌, ◌^◌, IfOk, length, option_map};
ghost use Rattle.gba_asm_words.specs.Tokens.{tokens};
ghost use Rattle.gba_asm.specs.Answers.{SaysSized};
ghost use Rattle.gba_asm.specs.Directives.{directive_of};
ghost use Rattle.gba_asm.specs.Statements.{directed, directive_form, label_of, line_says, machine_form, padding as padding_of, split_label as split_label_of, statement_of};

use crate::directives::{Directive, Width, are_items, count_words, directive_in, width_size};
use gba_asm_arm::{ArmStatement, arm_statement};
use gba_asm_thumb::{ThumbStatement, thumb_statement};
use gba_asm_words::{AsmKind, Token, Tokens, code_of, fault_in, is_label};

/// What a line says after its label.
#[derive(Clone, Copy)]
pub(crate) enum Statement<'a> {
    Nothing,
    /// `.arm` and `.thumb`.
    Mode { thumb: bool },
    /// `.word`, `.half` and `.byte`, with the bytes of their items.
    Data { width: Width, items: &'a [u8] },
    Space(u32),
    Align,
    Arm(ArmStatement<'a>),
    Thumb(ThumbStatement<'a>),
}

/// A statement and its bytes in the image.
#[derive(Clone, Copy)]
pub(crate) struct SizedStatement<'a> {
    pub(crate) statement: Statement<'a>,
    pub(crate) size: u64,
}

/// What a line says. Its label is known also where its statement is refused.
#[derive(Clone, Copy)]
pub(crate) struct ReadLine<'a> {
    pub(crate) label: Option<&'a [u8]>,
    pub(crate) statement: Result<SizedStatement<'a>, AsmKind>,
}

/// The label that a line begins with, and the bytes after it.
#[tactic(auto, unfolding(crate::specs::Statements::split_label))]
fn split_label(code: &[u8]) -> (Option<&[u8]>, &[u8])
    ensures label { option_map (λ l. l.now) result.0 ≡ (split_label_of (tokens code.now)).label }
    ensures rest { tokens result.1.now ≡ (split_label_of (tokens code.now)).rest }
{
    let mut tokens = Tokens::new(code);
    let Some(Token::Word(word)) = tokens.next() else {
        return (None, code);
    };
    if !is_label(word) {
        return (None, code);
    }
    if !tokens.takes(b':') {
        return (None, code);
    }
    (Some(word), tokens.rest())
}

fn sized(statement: Statement<'_>, size: u64) -> SizedStatement<'_>
    ensures { result ≡ record { statement = statement.entry; size = size } }
{
    SizedStatement { statement, size }
}

/// The bytes up to the next multiple of 4.
pub(crate) fn padding(address: u32) -> u32
    ensures value { result ≡ padding_of address }
    ensures small { result < 4 }
{
    (4 - address % 4) % 4
}

#[tactic(auto, unfolding(crate::specs::Statements::directive_form, crate::specs::Statements::size_of))]
fn data<'a>(width: Width, tokens: &mut Tokens<'a>) -> Result<SizedStatement<'a>, AsmKind>
    requires { length tokens.old ≤ 400 }
    ensures says { SaysSized 0 result (directive_form (Directive.Data width) tokens.old) }
    ensures small { IfOk result (λ s. s.size < 2 ^ 32) }
{
    let items = tokens.rest();
    if !are_items(width, tokens) {
        return Err(AsmKind::Operand);
    }
    let count = count_words(&mut Tokens::new(items));
    Ok(sized(
        Statement::Data { width, items },
        u64::from(width_size(width) * count),
    ))
}

/// What a directive says with its operands.
#[tactic(auto, unfolding(crate::specs::Statements::directive_form, crate::specs::Statements::size_of))]
fn directed_by<'a>(
    directive: Directive,
    address: u32,
    tokens: &mut Tokens<'a>,
) -> Result<SizedStatement<'a>, AsmKind>
    requires { length tokens.old ≤ 400 }
    ensures says { SaysSized address result (directive_form directive tokens.old) }
    ensures small { IfOk result (λ s. s.size < 2 ^ 32) }
{
    match directive {
        Directive::Mode { thumb } => {
            tokens.end()?;
            Ok(sized(Statement::Mode { thumb }, 0))
        }
        Directive::Data(width) => data(width, tokens),
        Directive::Space => {
            let count = tokens.number()?;
            tokens.end()?;
            Ok(sized(Statement::Space(count), u64::from(count)))
        }
        Directive::Align => {
            tokens.end()?;
            Ok(sized(Statement::Align, u64::from(padding(address))))
        }
    }
}

/// What an ARM or a Thumb statement says.
#[tactic(auto, unfolding(crate::specs::Statements::size_of))]
fn machine<'a>(
    thumb: bool,
    address: u32,
    word: &[u8],
    tokens: &mut Tokens<'a>,
) -> Result<SizedStatement<'a>, AsmKind>
    ensures says { SaysSized address result (machine_form thumb word.now tokens.old) }
    ensures small { IfOk result (λ s. s.size < 2 ^ 32) }
{
    if thumb {
        let statement = thumb_statement(word, tokens)?;
        let size = u64::from(statement.size());
        return Ok(sized(Statement::Thumb(statement), size));
    }
    let statement = arm_statement(word, tokens)?;
    Ok(sized(Statement::Arm(statement), 4))
}

fn named<'a>(
    thumb: bool,
    address: u32,
    word: &[u8],
    tokens: &mut Tokens<'a>,
) -> Result<SizedStatement<'a>, AsmKind>
    requires { length tokens.old ≤ 400 }
    ensures says { SaysSized address result (directed thumb word.now (directive_of word.now) tokens.old) }
    ensures small { IfOk result (λ s. s.size < 2 ^ 32) }
{
    match directive_in(word) {
        Some(directive) => directed_by(directive, address, tokens),
        None => machine(thumb, address, word, tokens),
    }
}

/// What the tokens after a label say, in ARM or in Thumb state.
#[tactic(auto, unfolding(crate::specs::Statements::statement_of, crate::specs::Statements::size_of))]
fn read_statement<'a>(
    thumb: bool,
    address: u32,
    tokens: &mut Tokens<'a>,
) -> Result<SizedStatement<'a>, AsmKind>
    requires { length tokens.old ≤ 401 }
    ensures says { SaysSized address result (statement_of thumb tokens.old) }
    ensures small { IfOk result (λ s. s.size < 2 ^ 32) }
{
    match tokens.next() {
        None => Ok(sized(Statement::Nothing, 0)),
        Some(Token::Word(word)) => named(thumb, address, word, tokens),
        Some(Token::Mark(_)) => Err(AsmKind::Unknown),
    }
}

/// What a line says at this address, in ARM or in Thumb state.
#[tactic(auto, unfolding(crate::specs::Statements::line_says, crate::specs::Statements::label_of))]
pub(crate) fn read_line(thumb: bool, address: u32, line: &[u8]) -> ReadLine<'_>
    ensures label { option_map (λ l. l.now) result.label ≡ label_of line.now }
    ensures says { SaysSized address result.statement (line_says thumb line.now) }
    ensures small { IfOk result.statement (λ s. s.size < 2 ^ 32) }
{
    if let Some(kind) = fault_in(line) {
        return ReadLine {
            label: None,
            statement: Err(kind),
        };
    }
    let (label, rest) = split_label(code_of(line));
    ReadLine {
        label,
        statement: read_statement(thumb, address, &mut Tokens::new(rest)),
    }
}
