//! The reader of whole files.

ghost use Rattle.std.specs.Prelude.{◌≡◌, ◌≤◌, ◌<◌, ◌^◌};
ghost use Rattle.gba_frozen.specs.Reading.{nothing_read};
ghost use Rattle.gba_frozen_read.specs.Thawed.{IsThawed};

use crate::lines::split_line;
use crate::thawing::Thawing;
use gba_frozen::{FIRST_PLACE, Setup, ThawError, ThawKind, is_over, read_next};

/// The most bytes of a frozen file.
pub const LONGEST_FILE: usize = 134_217_728;

fn refused(line: u64, kind: ThawKind) -> ThawError
    ensures { result ≡ record { line = line; kind = kind } }
{
    ThawError { line, kind }
}

/// Hands on what each line of a frozen file says, and answers how many lines it has. Refused is a file of more than
/// 134,217,728 bytes, with line 0; then its first line that isn't one that may stand there; and one that ends before
/// its last line, with the number of its lines plus 1. A line is ended by LF alone, and by nothing else; a last one
/// that isn't is refused. What was handed on before a refusal stays. Whether the whole is sound isn't asked here. It
/// takes no memory.
pub fn read_frozen<T: Thawing>(setup: &Setup, bytes: &[u8], into: &mut T) -> Result<u64, ThawError>
    requires some { 1 ≤ setup.now.consoles }
    requires consoles { setup.now.consoles ≤ 4 }
    requires until { setup.now.until < 2 ^ 63 }
    requires empty { T.Holds into.old setup.now nothing_read }
    ensures { IsThawed (λ d. T.Holds into.new setup.now d) T.Whole setup.now bytes.now result }
{
    if bytes.len() > LONGEST_FILE {
        return Err(refused(0, ThawKind::Spelling));
    }
    let mut rest = bytes;
    let mut number: u64 = 0;
    let mut at = FIRST_PLACE;
    while !rest.is_empty() {
        let (line, left) = split_line(rest);
        rest = left;
        number += 1;
        match read_next(setup, &mut at, line) {
            Ok(said) => into.take(setup, at, &said),
            Err(kind) => return Err(refused(number, kind)),
        }
    }
    if !is_over(at) {
        return Err(refused(number + 1, ThawKind::Spelling));
    }
    Ok(number)
}
