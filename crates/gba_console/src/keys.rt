//! Changes of the keys.

ghost use Rattle.std.specs.Prelude.{◌≡◌, ◌+◌, ◌≤◌, drop, length, vec_len};
ghost use Rattle.gba_console.specs.Keys.{after_keys, due_count};

use gba_io::Core;

/// A change of the keys: from its clock on, in cycles since reset, these are pressed, 1 for pressed: A, B, Select,
/// Start, Right, Left, Up, Down, R, L are bits 0 to 9.
#[derive(Clone, Copy, Debug, PartialEq, Eq)]
pub struct KeyState {
    pub clock: u64,
    pub keys: u16,
}

/// Applies the changes that a step which begins at `clock` applies, of those from `applied` on. Answers how many of all
/// are applied then.
pub(crate) fn apply(clock: u64, changes: &[KeyState], applied: usize, core: &mut Core) -> usize
    requires { applied ≤ length changes.now }
    ensures core { core.new ≡ after_keys clock (drop applied changes.now) core.old }
    ensures count { result ≡ applied + due_count clock (drop applied changes.now) }
    ensures most { result ≤ length changes.now }
{
    let mut next = applied;
    while next < changes.len() {
        let change = changes[next];
        if change.clock > clock {
            return next;
        }
        core.set_keys(change.keys);
        next += 1;
    }
    next
}
