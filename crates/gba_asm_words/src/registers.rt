//! Registers and labels.

ghost use Rattle.std.specs.Prelude.{◌≡◌, ◌<◌, IfSome};
ghost use Rattle.std.specs.List.{list_all};
ghost use Rattle.gba_asm_words.specs.Names.{begins_as_label as begins_as_label_of, high_register_of, is_label as is_label_of, is_label_byte as is_label_byte_of, low_register_of, register_of};

/// The most bytes of a label.
const LONGEST_LABEL: usize = 32;

#[tactic(auto, unfolding(crate::specs::Names::low_register_of))]
fn low_register_in(word: &[u8]) -> Option<u8>
    ensures register { result ≡ low_register_of word.now }
    ensures small { IfSome result (λ register. register < 16) }
{
    if word == b"r0".as_slice() {
        Some(0)
    } else if word == b"r1".as_slice() {
        Some(1)
    } else if word == b"r2".as_slice() {
        Some(2)
    } else if word == b"r3".as_slice() {
        Some(3)
    } else if word == b"r4".as_slice() {
        Some(4)
    } else if word == b"r5".as_slice() {
        Some(5)
    } else if word == b"r6".as_slice() {
        Some(6)
    } else if word == b"r7".as_slice() {
        Some(7)
    } else {
        None
    }
}

#[tactic(auto, unfolding(crate::specs::Names::high_register_of))]
fn high_register_in(word: &[u8]) -> Option<u8>
    ensures register { result ≡ high_register_of word.now }
    ensures small { IfSome result (λ register. register < 16) }
{
    if word == b"r8".as_slice() {
        Some(8)
    } else if word == b"r9".as_slice() {
        Some(9)
    } else if word == b"r10".as_slice() {
        Some(10)
    } else if word == b"r11".as_slice() {
        Some(11)
    } else if word == b"r12".as_slice() {
        Some(12)
    } else if word == b"r13".as_slice() {
        Some(13)
    } else if word == b"r14".as_slice() {
        Some(14)
    } else if word == b"r15".as_slice() {
        Some(15)
    } else if word == b"sp".as_slice() {
        Some(13)
    } else if word == b"lr".as_slice() {
        Some(14)
    } else if word == b"pc".as_slice() {
        Some(15)
    } else {
        None
    }
}

/// The register that a word names: `r0` to `r15`, or `sp`, `lr` or `pc`, which are r13, r14 and r15.
#[tactic(auto, unfolding(crate::specs::Names::register_of))]
pub fn register_in(word: &[u8]) -> Option<u8>
    ensures register { result ≡ register_of word.now }
    ensures small { IfSome result (λ register. register < 16) }
{
    match low_register_in(word) {
        Some(register) => Some(register),
        None => high_register_in(word),
    }
}

fn is_label_byte(byte: u8) -> bool
    ensures { result ≡ is_label_byte_of byte }
{
    byte.is_ascii_alphanumeric() || byte == b'_'
}

fn begins_as_label(word: &[u8]) -> bool
    ensures { result ≡ begins_as_label_of word.now }
{
    match word.first() {
        Some(first) => first.is_ascii_alphabetic() || *first == b'_',
        None => false,
    }
}

fn all_label_bytes(word: &[u8]) -> bool
    ensures { result ≡ list_all is_label_byte_of word.now }
{
    word.iter().all(|byte| is_label_byte(*byte))
}

/// Whether a word may be a label: a letter or `_`, and up to 31 letters, digits or `_`.
#[tactic(auto, unfolding(crate::specs::Names::is_label))]
pub fn is_label(word: &[u8]) -> bool
    ensures { result ≡ is_label_of word.now }
{
    begins_as_label(word) && word.len() <= LONGEST_LABEL && all_label_bytes(word)
}
