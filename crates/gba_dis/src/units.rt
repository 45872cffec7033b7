//! What the lines of a listing stand for.

ghost use Rattle.std.specs.Prelude.{◌≡◌, ◌<◌, ◌≤◌, ◌∷◌, [], length, drop, IfSome, MatchOption};
ghost use Rattle.gba_dis.specs.Units.{arm_units, is_call as is_call_of, is_thumb as is_thumb_of, size_of, thumb_units, units};

/// The set of instructions that bytes are read as.
#[derive(Clone, Copy, Debug, PartialEq, Eq)]
pub enum Set {
    /// Words, from an address that is a multiple of 4.
    Arm,
    /// Halfwords, from an address that is a multiple of 2.
    Thumb,
}

impl Set {
    pub(crate) fn is_thumb(self) -> bool
        ensures { result ≡ is_thumb_of self }
    {
        match self {
            Set::Arm => false,
            Set::Thumb => true,
        }
    }
}

/// What one line stands for.
#[derive(Clone, Copy)]
pub(crate) enum Unit {
    Word(u32),
    Half(u16),
    /// The two halves of a BL.
    Call { first: u16, second: u16 },
    Byte(u8),
}

impl Unit {
    /// How many bytes it has.
    pub(crate) fn size(self) -> usize
        ensures { result ≡ size_of self }
    {
        match self {
            Unit::Word(_) | Unit::Call { .. } => 4,
            Unit::Half(_) => 2,
            Unit::Byte(_) => 1,
        }
    }
}

/// Whether these are the two halves of a BL.
fn is_call(first: u16, second: u16) -> bool
    ensures { result ≡ is_call_of first second }
{
    first / 2048 == 30 && second / 2048 == 31
}

fn first_arm(bytes: &[u8]) -> Option<Unit>
    ensures unit { MatchOption result (arm_units bytes.now ≡ [])
        (λ u. arm_units bytes.now ≡ u ∷ arm_units (drop (size_of u) bytes.now)) }
    ensures some { MatchOption result (length bytes.now ≡ 0) (λ u. 0 < size_of u) }
    ensures within { IfSome result (λ u. size_of u ≤ length bytes.now) }
{
    match bytes {
        [a, b, c, d, ..] => Some(Unit::Word(u32::from_le_bytes([*a, *b, *c, *d]))),
        [a, ..] => Some(Unit::Byte(*a)),
        [] => None,
    }
}

fn first_thumb(bytes: &[u8]) -> Option<Unit>
    ensures unit { MatchOption result (thumb_units bytes.now ≡ [])
        (λ u. thumb_units bytes.now ≡ u ∷ thumb_units (drop (size_of u) bytes.now)) }
    ensures some { MatchOption result (length bytes.now ≡ 0) (λ u. 0 < size_of u) }
    ensures within { IfSome result (λ u. size_of u ≤ length bytes.now) }
{
    match bytes {
        [a, b, c, d, ..] => {
            let first = u16::from_le_bytes([*a, *b]);
            let second = u16::from_le_bytes([*c, *d]);
            if is_call(first, second) {
                Some(Unit::Call { first, second })
            } else {
                Some(Unit::Half(first))
            }
        }
        [a, b, ..] => Some(Unit::Half(u16::from_le_bytes([*a, *b]))),
        [a] => Some(Unit::Byte(*a)),
        [] => None,
    }
}

/// The unit that bytes begin with.
pub(crate) fn first_unit(set: Set, bytes: &[u8]) -> Option<Unit>
    ensures unit { MatchOption result (units set bytes.now ≡ [])
        (λ u. units set bytes.now ≡ u ∷ units set (drop (size_of u) bytes.now)) }
    ensures some { MatchOption result (length bytes.now ≡ 0) (λ u. 0 < size_of u) }
    ensures within { IfSome result (λ u. size_of u ≤ length bytes.now) }
{
    match set {
        Set::Arm => first_arm(bytes),
        Set::Thumb => first_thumb(bytes),
    }
}
