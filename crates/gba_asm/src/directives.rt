//! The directives of a source.

ghost use Rattle.std.specs.Prelude.{◌≡◌, ◌≤◌, true, length};
ghost use Rattle.gba_asm_words.specs.Tokens.{token_value};
ghost use Rattle.gba_asm.specs.Directives.{are_items as are_items_of, width_size as width_size_of, count_words as count_words_of, directive_of, is_item as is_item_of, next_due as next_due_of};

use gba_asm_words::{Token, Tokens, number_in, target_in};

/// The width of an item of data.
#[derive(Clone, Copy)]
pub(crate) enum Width {
    Word,
    Half,
    Byte,
}

/// What a directive's name says.
#[derive(Clone, Copy)]
pub(crate) enum Directive {
    /// `.arm` and `.thumb`.
    Mode { thumb: bool },
    /// `.word`, `.half` and `.byte`.
    Data(Width),
    Space,
    Align,
}

/// The directive that a word names.
#[tactic(auto, unfolding(crate::specs::Directives::directive_of))]
pub(crate) fn directive_in(word: &[u8]) -> Option<Directive>
    ensures { result ≡ directive_of word.now }
{
    if word == b".arm".as_slice() {
        Some(Directive::Mode { thumb: false })
    } else if word == b".thumb".as_slice() {
        Some(Directive::Mode { thumb: true })
    } else if word == b".word".as_slice() {
        Some(Directive::Data(Width::Word))
    } else if word == b".half".as_slice() {
        Some(Directive::Data(Width::Half))
    } else if word == b".byte".as_slice() {
        Some(Directive::Data(Width::Byte))
    } else if word == b".space".as_slice() {
        Some(Directive::Space)
    } else if word == b".align".as_slice() {
        Some(Directive::Align)
    } else {
        None
    }
}

/// The bytes of one item.
pub(crate) fn width_size(width: Width) -> u32
    ensures value { result ≡ width_size_of width }
    ensures some { 1 ≤ result }
    ensures few { result ≤ 4 }
{
    match width {
        Width::Word => 4,
        Width::Half => 2,
        Width::Byte => 1,
    }
}

/// An item is a number, and in `.word` it may be a label.
fn is_item(width: Width, word: &[u8]) -> bool
    ensures { result ≡ is_item_of width word.now }
{
    match width {
        Width::Word => target_in(word).is_some(),
        Width::Half | Width::Byte => number_in(word).is_some(),
    }
}

fn next_due(width: Width, due: bool, token: Token<'_>) -> Option<bool>
    ensures { result ≡ next_due_of width due (token_value token.entry) }
{
    match token {
        Token::Word(word) => {
            if due && is_item(width, word) {
                Some(false)
            } else {
                None
            }
        }
        Token::Mark(mark) => {
            if !due && mark == b',' {
                Some(true)
            } else {
                None
            }
        }
    }
}

/// Whether the tokens are one item or more, parted by commas.
pub(crate) fn are_items(width: Width, tokens: &mut Tokens<'_>) -> bool
    ensures { result ≡ are_items_of width true tokens.old }
{
    let mut due = true;
    while let Some(token) = tokens.next() {
        match next_due(width, due, token) {
            Some(next) => due = next,
            None => return false,
        }
    }
    !due
}

/// How many words there are among the tokens.
pub(crate) fn count_words(tokens: &mut Tokens<'_>) -> u32
    requires { length tokens.old ≤ 400 }
    ensures value { result ≡ count_words_of tokens.old }
    ensures few { result ≤ 400 }
{
    let mut count = 0;
    while let Some(token) = tokens.next() {
        match token {
            Token::Word(_) => count += 1,
            Token::Mark(_) => {}
        }
    }
    count
}
