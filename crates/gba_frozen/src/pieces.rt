//! The words of a line of a frozen file: what stands between its spaces.

ghost use Rattle.std.specs.Prelude.{◌≡◌, ◌≤◌, ◌==◌, [], ◌∷◌, not, length, option_map, MatchOption};
ghost use Rattle.std.specs.List.{prefix_len};
ghost use Rattle.gba_text.specs.Reading.{first_of, rest_of};
ghost use Rattle.gba_frozen.specs.Spelling.{pieces};

use std::marker::Model;

fn word_length(line: &[u8]) -> usize
    ensures value { result ≡ prefix_len (λ b. not (b == 32)) line.now }
    ensures within { result ≤ length line.now }
{
    line.iter().take_while(|byte| **byte != b' ').count()
}

/// The first word, and what follows its space, if it has one.
fn split_word(line: &[u8]) -> (&[u8], Option<&[u8]>)
    ensures { MatchOption result.1 (pieces line.now ≡ result.0.now ∷ [])
        (λ rest. pieces line.now ≡ result.0.now ∷ pieces rest.now) }
{
    let (word, rest) = line.split_at(word_length(line));
    if rest.is_empty() {
        return (word, None);
    }
    (word, Some(&rest[1..]))
}

/// A line that is read word by word. Words are parted by one space, so that two spaces have an empty word between them.
/// Contracts see the words that aren't taken yet.
#[derive(Drop)]
pub(crate) struct Words<'a> {
    rest: &'a [u8],
    more: bool,
}

impl<'a> Model for Words<'a> {
    ghost use Rattle.std.specs.Prelude.{ℕ, List, [], if◌then◌else◌};
    ghost use Rattle.gba_frozen.specs.Spelling.{pieces};

    ghost Value = { List (List ℕ) };

    ghost view = { λ w. if w.more then pieces w.rest.now else [] };
}

impl<'a> Words<'a> {
    /// All words of a line.
    pub(crate) fn new(line: &'a [u8]) -> Words<'a>
        ensures { result ≡ pieces line.now }
    {
        Words {
            rest: line,
            more: true,
        }
    }

    /// The next word; None at the end.
    pub(crate) fn next(&mut self) -> Option<&'a [u8]>
        ensures word { option_map (λ w. w.now) result ≡ first_of self.old }
        ensures state { self.new ≡ rest_of self.old }
    {
        if !self.more {
            return None;
        }
        let (word, rest) = split_word(self.rest);
        match rest {
            Some(rest) => self.rest = rest,
            None => self.more = false,
        }
        Some(word)
    }
}
