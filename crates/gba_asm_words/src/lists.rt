//! Lists of registers in braces.

ghost use Rattle.std.specs.Prelude.{◌≡◌, ◌+◌, ◌-◌, ◌^◌, ◌<◌, ◌≤◌};
ghost use Rattle.gba_text.specs.Answers.{Agrees, Takes};
ghost use Rattle.gba_asm_words.specs.Lists.{by_mark as by_mark_of, by_word as by_word_of, closes as closes_of, is_closed as is_closed_of, list_at, list_from, list_step as list_step_of, parts as parts_of, with_range as with_range_of, with_register as with_register_of};
ghost use Rattle.gba_asm_words.specs.Names.{register_of};
ghost use Rattle.gba_asm_words.specs.Tokens.{token_value};

use crate::kinds::AsmKind;
use crate::registers::register_in;
use crate::tokens::{Token, Tokens};

/// Where in a list the next token stands.
#[derive(Clone, Copy)]
pub(crate) enum ListPlace {
    /// After `{`.
    Opened,
    /// After a comma.
    Parted,
    /// After a register, which may begin a range.
    AfterRegister(u8),
    /// After a range's first register and `-`.
    InRange(u8),
    /// After a range.
    AfterRange,
    /// After `}`.
    Closed,
}

/// A list as far as it is read. Bit n is register n.
#[derive(Clone, Copy)]
pub(crate) struct ListState {
    pub(crate) list: u16,
    pub(crate) place: ListPlace,
}

/// The bit of a register.
fn register_bit(register: u8) -> u16
    requires { register < 16 }
    ensures { result ≡ 2 ^ register }
{
    1 << register
}

/// The bits of the registers from the first to the last.
fn range_bits(first: u8, last: u8) -> u16
    requires order { first ≤ last }
    requires small { last < 16 }
    ensures { result ≡ 2 ^ (last + 1) - 2 ^ first }
{
    let top = register_bit(last);
    top - register_bit(first) + top
}

fn with_register(list: u16, word: &[u8]) -> Result<ListState, AsmKind>
    ensures { Agrees (λ s. s) result (with_register_of list (register_of word.now)) }
{
    let Some(register) = register_in(word) else {
        return Err(AsmKind::Operand);
    };
    Ok(ListState {
        list: list | register_bit(register),
        place: ListPlace::AfterRegister(register),
    })
}

fn with_range(list: u16, first: u8, word: &[u8]) -> Result<ListState, AsmKind>
    ensures { Agrees (λ s. s) result (with_range_of list first (register_of word.now)) }
{
    let Some(last) = register_in(word) else {
        return Err(AsmKind::Operand);
    };
    if last < first {
        return Err(AsmKind::Operand);
    }
    Ok(ListState {
        list: list | range_bits(first, last),
        place: ListPlace::AfterRange,
    })
}

fn by_word(state: ListState, word: &[u8]) -> Result<ListState, AsmKind>
    ensures { Agrees (λ s. s) result (by_word_of state word.now state.place) }
{
    match state.place {
        ListPlace::Opened | ListPlace::Parted => with_register(state.list, word),
        ListPlace::InRange(first) => with_range(state.list, first, word),
        ListPlace::AfterRegister(_) | ListPlace::AfterRange | ListPlace::Closed => {
            Err(AsmKind::Operand)
        }
    }
}

fn closes(state: ListState, mark: u8) -> Result<ListState, AsmKind>
    ensures { Agrees (λ s. s) result (closes_of state mark) }
{
    if mark == b'}' {
        return Ok(ListState {
            list: state.list,
            place: ListPlace::Closed,
        });
    }
    Err(AsmKind::Operand)
}

fn parts(state: ListState, mark: u8) -> Result<ListState, AsmKind>
    ensures { Agrees (λ s. s) result (parts_of state mark) }
{
    if mark == b',' {
        return Ok(ListState {
            list: state.list,
            place: ListPlace::Parted,
        });
    }
    closes(state, mark)
}

fn after_register(state: ListState, register: u8, mark: u8) -> Result<ListState, AsmKind>
    ensures { Agrees (λ s. s) result (by_mark_of state mark (ListPlace.AfterRegister register)) }
{
    if mark == b'-' {
        return Ok(ListState {
            list: state.list,
            place: ListPlace::InRange(register),
        });
    }
    parts(state, mark)
}

fn by_mark(state: ListState, mark: u8) -> Result<ListState, AsmKind>
    ensures { Agrees (λ s. s) result (by_mark_of state mark state.place) }
{
    match state.place {
        ListPlace::Opened => closes(state, mark),
        ListPlace::AfterRegister(register) => after_register(state, register, mark),
        ListPlace::AfterRange => parts(state, mark),
        ListPlace::Parted | ListPlace::InRange(_) | ListPlace::Closed => Err(AsmKind::Operand),
    }
}

/// One token more of a list that isn't closed yet.
#[tactic(auto, unfolding(crate::specs::Lists::list_step))]
fn list_step(state: ListState, token: Token<'_>) -> Result<ListState, AsmKind>
    ensures { Agrees (λ s. s) result (list_step_of state (token_value token.entry)) }
{
    match token {
        Token::Word(word) => by_word(state, word),
        Token::Mark(mark) => by_mark(state, mark),
    }
}

fn is_closed(place: ListPlace) -> bool
    ensures { result ≡ is_closed_of place }
{
    matches!(place, ListPlace::Closed)
}

/// The rest of a list, up to its `}`.
fn list_from(tokens: &mut Tokens<'_>) -> Result<u16, AsmKind>
    ensures { Takes (λ list. list) result tokens.new
        (list_from (record { list = 0; place = ListPlace.Opened }) tokens.old) }
{
    let mut state = ListState {
        list: 0,
        place: ListPlace::Opened,
    };
    while !is_closed(state.place) {
        let Some(token) = tokens.next() else {
            return Err(AsmKind::Operand);
        };
        match list_step(state, token) {
            Ok(next) => state = next,
            Err(kind) => return Err(kind),
        }
    }
    Ok(state.list)
}

/// A list of registers in braces, as `{r0, r2-r4, lr}`, which may be empty. Registers may stand in any order and more
/// than once, but a range may not fall. Bit n of the list is register n.
#[tactic(auto, unfolding(crate::specs::Lists::list_at))]
pub fn list_at(tokens: &mut Tokens<'_>) -> Result<u16, AsmKind>
    ensures { Takes (λ list. list) result tokens.new (list_at tokens.old) }
{
    tokens.mark(b'{')?;
    list_from(tokens)
}
