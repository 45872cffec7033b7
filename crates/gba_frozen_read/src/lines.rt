//! The lines of a file, each with its line feed.

ghost use Rattle.std.specs.Prelude.{◌≡◌, ◌≤◌, ◌<◌, ◌==◌, ◌∷◌, not, length};
ghost use Rattle.std.specs.List.{prefix_len};
ghost use Rattle.gba_frozen.specs.Reading.{fed_lines};

/// How many bytes stand before the first line feed.
fn feed_place(bytes: &[u8]) -> usize
    ensures value { result ≡ prefix_len (λ b. not (b == 10)) bytes.now }
    ensures within { result ≤ length bytes.now }
{
    bytes.iter().take_while(|byte| **byte != b'\n').count()
}

/// The first line with its line feed, which only the last one may lack, and what follows it.
pub(crate) fn split_line(bytes: &[u8]) -> (&[u8], &[u8])
    requires some { 0 < length bytes.now }
    ensures line { fed_lines bytes.now ≡ result.0.now ∷ fed_lines result.1.now }
    ensures less { length result.1.now < length bytes.now }
{
    let place = feed_place(bytes);
    if place == bytes.len() {
        return bytes.split_at(place);
    }
    bytes.split_at(place + 1)
}
