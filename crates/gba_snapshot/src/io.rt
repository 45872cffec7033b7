//! The bytes of the I/O registers.

ghost use Rattle.std.specs.Prelude.{◌≡◌, ◌+◌, ◌*◌, ◌/◌, ◌%◌, ◌≤◌, ◌++◌, [], ◌∷◌};
ghost use Rattle.arrayvec.specs.ArrayVec.{array_vec_len};
ghost use Rattle.gba_snapshot.specs.Io.{io_bytes as io_bytes_of};

use arrayvec::ArrayVec;
use gba_io::Core;

/// How many halfwords the I/O registers have.
const IO_HALVES: u32 = 512;

/// Adds the bytes of a halfword, the low one first.
fn add_half(bytes: &mut ArrayVec<u8, 1024>, half: u16)
    requires { array_vec_len bytes.old + 2 ≤ 1024 }
    ensures items { bytes.new.items ≡ bytes.old.items ++ (half % 256 ∷ half / 256 ∷ []) }
    ensures len { array_vec_len bytes.new ≡ array_vec_len bytes.old + 2 }
{
    let pair = [(half % 0x100) as u8, (half / 0x100) as u8];
    if bytes.try_extend_from_slice(&pair).is_err() {
        unreachable!()
    }
}

/// The bytes of the I/O registers from 04000000h up: what is stored there, and of bits that are only read
/// what they read.
pub fn io_bytes(core: &Core) -> ArrayVec<u8, 1024>
    ensures items { result.items ≡ io_bytes_of 512 core.now }
    ensures len { array_vec_len result ≡ 1024 }
{
    let mut bytes = ArrayVec::new();
    for half in 0..IO_HALVES {
        add_half(&mut bytes, core.io_half(2 * half));
    }
    bytes
}
