//! Lists that have room.

ghost use Rattle.std.specs.Prelude.{◌≡◌, ◌+◌, ◌<◌, ◌≤◌, ◌++◌, ◌∷◌, []};
ghost use Rattle.std.specs.Vec.{vec_len, vec_capacity};

/// Puts a value behind the others of a list that has room for it. It takes no memory.
pub fn keep<T>(list: &mut Vec<T>, one: T)
    requires { vec_len list.old < vec_capacity list.old }
    ensures items { list.new.items ≡ list.old.items ++ one ∷ [] }
    ensures room { vec_capacity list.old ≤ vec_capacity list.new }
    ensures len { vec_len list.new ≡ vec_len list.old + 1 }
{
    match list.push(one) {
        Ok(()) => {}
        Err(_) => unreachable!(),
    }
}
