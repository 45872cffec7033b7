//! Lists that have room.

ghost use Rattle.std.specs.Prelude.{◌≡◌, ◌+◌, ◌<◌, ◌≤◌, ◌++◌, ◌∷◌, []};
ghost use Rattle.std.specs.Vec.{vec_capacity, vec_len};

/// Puts a value behind the others of a list that has room for it. It takes no memory.
pub fn put_behind<T>(list: &mut Vec<T>, one: T)
    requires { vec_len list.old < vec_capacity list.old }
    ensures items { list.new.items ≡ list.old.items ++ one ∷ [] }
    ensures room { vec_capacity list.old ≤ vec_capacity list.new }
{
    match list.push(one) {
        Ok(()) => {}
        Err(_) => unreachable!(),
    }
}
