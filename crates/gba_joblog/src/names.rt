//! Names of files.

ghost use Rattle.std.specs.Prelude.{◌≡◌, true};
ghost use Rattle.std.specs.List.{list_all};
ghost use Rattle.std.specs.Str.{IsAscii};
ghost use Rattle.gba_joblog.specs.Names.{is_name as is_name_of, is_name_byte};

/// The longest name of a file, in bytes.
const LONGEST_NAME: usize = 200;

fn may_stand_in_name(byte: u8) -> bool
    ensures { result ≡ is_name_byte byte }
{
    byte.is_ascii_alphanumeric() || (b'-' <= byte && byte <= b'/') || byte == b'_'
}

fn all_may_stand(name: &[u8]) -> bool
    ensures { result ≡ list_all is_name_byte name.now }
{
    name.iter().all(|byte| may_stand_in_name(*byte))
}

/// Whether these bytes are a file's name: 1 to 200 letters, digits, `.`, `_`, `-` and `/`, and not `-` alone.
#[tactic(auto, unfolding(crate::specs::Names::is_name))]
pub fn is_name(name: &[u8]) -> bool
    ensures { result ≡ is_name_of name.now }
{
    !name.is_empty() && name.len() <= LONGEST_NAME && all_may_stand(name) && name != b"-".as_slice()
}

/// A name as text.
pub(crate) fn name_text(name: &[u8]) -> &str
    requires { is_name_of name.now ≡ true }
    ensures { result.now ≡ name.now }
{
    match str::from_utf8(name) {
        Ok(text) => text,
        Err(_) => unreachable!(),
    }
}
