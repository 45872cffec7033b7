//! Whole listings, and listings that are assembled again.

use crate::listed::{comes_back, lists};
use gba_dis::Set;
use std::test::Fail;

// Bytes that make no whole word or halfword stand at the end, and a Thumb listing begins with its directive.
#[test]
fn left_bytes_stand_at_the_end(rt: HostRuntime) {
    static CASES: [(Set, &[u8], &[u8]); 9] = [
        (Set::Arm, b"", b""),
        (Set::Arm, b"\x1e", b".byte 0x1e\n"),
        (
            Set::Arm,
            b"\x00\x10\xff",
            b".byte 0x00\n.byte 0x10\n.byte 0xff\n",
        ),
        (Set::Arm, b"\x1e\xff\x2f\xe1\x07", b"bx r14\n.byte 0x07\n"),
        (Set::Thumb, b"", b".thumb\n"),
        (Set::Thumb, b"\x0a", b".thumb\n.byte 0x0a\n"),
        (Set::Thumb, b"\x70\x47", b".thumb\nbx r14\n"),
        (Set::Thumb, b"\x70\x47\x70", b".thumb\nbx r14\n.byte 0x70\n"),
        (
            Set::Thumb,
            b"\xf0\xde\x00\x20\x05",
            b".thumb\n.half 0xdef0\nmov r0, #0x0\n.byte 0x05\n",
        ),
    ];
    for &(set, bytes, text) in &CASES {
        assert!(rt; lists(rt.alloc(), set, bytes, text), "{set:?} {bytes:?}");
    }
}

// The two halves of BL are one line, at an address that is no multiple of 4 too. A half that stands alone, comes first
// twice or second first, or is the last halfword is data.
#[test]
fn the_halves_of_a_call_are_one_line(rt: HostRuntime) {
    static CASES: [(&[u8], &[u8]); 9] = [
        (b"\x00\xf0\x02\xf8", b".thumb\nbl 0x00000008\n"),
        (b"\xff\xf7\xfe\xff", b".thumb\nbl 0x00000000\n"),
        (b"\xff\xf3\xff\xff", b".thumb\nbl 0x00400002\n"),
        (b"\x00\xf4\x00\xf8", b".thumb\nbl 0xffc00004\n"),
        (
            b"\x00\x20\x00\xf0\x00\xf8",
            b".thumb\nmov r0, #0x0\nbl 0x00000006\n",
        ),
        (
            b"\x00\xf0\x00\xf0\x00\xf8",
            b".thumb\n.half 0xf000\nbl 0x00000006\n",
        ),
        (
            b"\x00\xf8\x00\xf0\x00\x20",
            b".thumb\n.half 0xf800\n.half 0xf000\nmov r0, #0x0\n",
        ),
        (
            b"\x00\xf0\x00\xf8\x00\xf8",
            b".thumb\nbl 0x00000004\n.half 0xf800\n",
        ),
        (b"\x00\x20\x00\xf0", b".thumb\nmov r0, #0x0\n.half 0xf000\n"),
    ];
    for &(bytes, text) in &CASES {
        assert!(rt; lists(rt.alloc(), Set::Thumb, bytes, text), "{bytes:?}");
    }
}

// A branch is told from its own address: the second of two branches to one place has another offset.
#[test]
fn targets_are_told_from_the_address(rt: HostRuntime) {
    let arm = b"\xfe\xff\xff\xea\xfd\xff\xff\xea\x00\x00\x00\x0b".as_slice();
    let arm_text = b"b 0x00000000\nb 0x00000000\nbleq 0x00000010\n".as_slice();
    assert!(rt; lists(rt.alloc(), Set::Arm, arm, arm_text));
    let thumb = b"\xfe\xe7\xfd\xe7\xfc\xd0".as_slice();
    let thumb_text = b".thumb\nb 0x00000000\nb 0x00000000\nbeq 0x00000000\n".as_slice();
    assert!(rt; lists(rt.alloc(), Set::Thumb, thumb, thumb_text));
}

// Words from all over the set, by the steps of a generator, at addresses one after another, with a byte left.
#[test]
fn listings_are_assembled_to_the_same_bytes(rt: HostRuntime) -> Result<(), Fail> {
    let mut bytes = Vec::new(rt.alloc());
    let mut word = 1u32;
    for _ in 0..1_000 {
        word = word.wrapping_mul(1_664_525).wrapping_add(1_013_904_223);
        bytes.extend_from_slice(&word.to_be_bytes())?;
    }
    bytes.push(7)?;
    assert!(rt; comes_back(rt.alloc(), Set::Arm, &bytes));
    assert!(rt; comes_back(rt.alloc(), Set::Thumb, &bytes));
    Ok(())
}
