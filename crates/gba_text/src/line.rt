//! Lines in buffers of a fixed size.

ghost use Rattle.std.specs.Prelude.{◌≡◌, ◌+◌, ◌≤◌, ◌++◌, length};
ghost use Rattle.arrayvec.specs.ArrayVec.{array_vec_len};

use arrayvec::ArrayVec;

/// A line of a report, or the lines of a summary, with their line feeds: at most 1,024 bytes, and it takes no memory.
pub type Line = ArrayVec<u8, 1024>;

/// Adds bytes to a line that has room for them.
pub fn add_text(line: &mut Line, bytes: &[u8])
    requires { array_vec_len line.old + length bytes.now ≤ 1024 }
    ensures items { line.new.items ≡ line.old.items ++ bytes.now }
    ensures len { array_vec_len line.new ≡ array_vec_len line.old + length bytes.now }
{
    if line.try_extend_from_slice(bytes).is_err() {
        unreachable!()
    }
}

/// A line that is this text.
pub fn line_of(text: &[u8]) -> Line
    requires { length text.now ≤ 1024 }
    ensures { result.items ≡ text.now }
{
    let mut line = Line::new();
    add_text(&mut line, text);
    line
}
