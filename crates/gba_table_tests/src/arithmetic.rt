//! Arithmetic of words by hand, from the equations of the ARM Architecture Reference Manual.

use gba_word::*;
use std::process::Abort;

// What the ARM manual's equations give, by hand: kind, word, amount, shifted word, carry out. The carry in
// doesn't count.
static SHIFTS: [(Shift, u32, u8, u32, bool); 56] = [
    (Shift::Lsl, 0x8000_0001, 1, 0x0000_0002, true),
    (Shift::Lsl, 0x8000_0001, 31, 0x8000_0000, false),
    (Shift::Lsl, 0x8000_0001, 32, 0, true),
    (Shift::Lsl, 0x8000_0001, 33, 0, false),
    (Shift::Lsl, 0x8000_0001, 64, 0, false),
    (Shift::Lsl, 0x8000_0001, 96, 0, false),
    (Shift::Lsl, 0x8000_0001, 255, 0, false),
    (Shift::Lsr, 0x8000_0001, 1, 0x4000_0000, true),
    (Shift::Lsr, 0x8000_0001, 31, 0x0000_0001, false),
    (Shift::Lsr, 0x8000_0001, 32, 0, true),
    (Shift::Lsr, 0x8000_0001, 33, 0, false),
    (Shift::Lsr, 0x8000_0001, 64, 0, false),
    (Shift::Lsr, 0x8000_0001, 96, 0, false),
    (Shift::Lsr, 0x8000_0001, 255, 0, false),
    (Shift::Asr, 0x8000_0001, 1, 0xc000_0000, true),
    (Shift::Asr, 0x8000_0001, 31, 0xffff_ffff, false),
    (Shift::Asr, 0x8000_0001, 32, 0xffff_ffff, true),
    (Shift::Asr, 0x8000_0001, 33, 0xffff_ffff, true),
    (Shift::Asr, 0x8000_0001, 64, 0xffff_ffff, true),
    (Shift::Asr, 0x8000_0001, 96, 0xffff_ffff, true),
    (Shift::Asr, 0x8000_0001, 255, 0xffff_ffff, true),
    (Shift::Ror, 0x8000_0001, 1, 0xc000_0000, true),
    (Shift::Ror, 0x8000_0001, 31, 0x0000_0003, false),
    (Shift::Ror, 0x8000_0001, 32, 0x8000_0001, true),
    (Shift::Ror, 0x8000_0001, 33, 0xc000_0000, true),
    (Shift::Ror, 0x8000_0001, 64, 0x8000_0001, true),
    (Shift::Ror, 0x8000_0001, 96, 0x8000_0001, true),
    (Shift::Ror, 0x8000_0001, 255, 0x0000_0003, false),
    (Shift::Lsl, 0x4000_0002, 1, 0x8000_0004, false),
    (Shift::Lsl, 0x4000_0002, 31, 0, true),
    (Shift::Lsl, 0x4000_0002, 32, 0, false),
    (Shift::Lsl, 0x4000_0002, 33, 0, false),
    (Shift::Lsl, 0x4000_0002, 64, 0, false),
    (Shift::Lsl, 0x4000_0002, 96, 0, false),
    (Shift::Lsl, 0x4000_0002, 255, 0, false),
    (Shift::Lsr, 0x4000_0002, 1, 0x2000_0001, false),
    (Shift::Lsr, 0x4000_0002, 31, 0, true),
    (Shift::Lsr, 0x4000_0002, 32, 0, false),
    (Shift::Lsr, 0x4000_0002, 33, 0, false),
    (Shift::Lsr, 0x4000_0002, 64, 0, false),
    (Shift::Lsr, 0x4000_0002, 96, 0, false),
    (Shift::Lsr, 0x4000_0002, 255, 0, false),
    (Shift::Asr, 0x4000_0002, 1, 0x2000_0001, false),
    (Shift::Asr, 0x4000_0002, 31, 0, true),
    (Shift::Asr, 0x4000_0002, 32, 0, false),
    (Shift::Asr, 0x4000_0002, 33, 0, false),
    (Shift::Asr, 0x4000_0002, 64, 0, false),
    (Shift::Asr, 0x4000_0002, 96, 0, false),
    (Shift::Asr, 0x4000_0002, 255, 0, false),
    (Shift::Ror, 0x4000_0002, 1, 0x2000_0001, false),
    (Shift::Ror, 0x4000_0002, 31, 0x8000_0004, true),
    (Shift::Ror, 0x4000_0002, 32, 0x4000_0002, false),
    (Shift::Ror, 0x4000_0002, 33, 0x2000_0001, false),
    (Shift::Ror, 0x4000_0002, 64, 0x4000_0002, false),
    (Shift::Ror, 0x4000_0002, 96, 0x4000_0002, false),
    (Shift::Ror, 0x4000_0002, 255, 0x8000_0004, true),
];

// The same for a written amount of 0, which some kinds read otherwise: kind, word, carry in, shifted word, carry out.
static WRITTEN_ZEROS: [(Shift, u32, bool, u32, bool); 10] = [
    (Shift::Lsl, 0x8000_0001, false, 0x8000_0001, false),
    (Shift::Lsl, 0x8000_0001, true, 0x8000_0001, true),
    (Shift::Lsr, 0x8000_0001, false, 0, true),
    (Shift::Lsr, 0x4000_0002, true, 0, false),
    (Shift::Asr, 0x8000_0001, false, 0xffff_ffff, true),
    (Shift::Asr, 0x4000_0002, true, 0, false),
    (Shift::Ror, 0x8000_0001, false, 0x4000_0000, true),
    (Shift::Ror, 0x8000_0001, true, 0xc000_0000, true),
    (Shift::Ror, 0x4000_0002, false, 0x2000_0001, false),
    (Shift::Ror, 0x4000_0002, true, 0xa000_0001, false),
];

// The shift by a number, where a number says this amount: with its carry, and without.
fn shifted_by_number(kind: Shift, word: u32, amount: u8, carry: bool) -> Option<(u32, bool, u32)> {
    if 0 < amount && amount < 32 {
        let (shifted, out) = shift_fixed(kind, word, amount, carry);
        Some((shifted, out, shift_within(kind, word, amount)))
    } else {
        None
    }
}

// The shift by a register.
fn shifted_by_register(kind: Shift, word: u32, amount: u8, carry: bool) -> (u32, bool) {
    shift(kind, word, amount, carry)
}

fn agrees(rt: &impl Abort, case: &(Shift, u32, u8, u32, bool), carry: bool) {
    let &(kind, word, amount, shifted, out) = case;
    assert_eq!(rt;
        shifted_by_register(kind, word, amount, carry),
        (shifted, out),
        "{kind:?} {word:x} {amount}"
    );
    let by_number = if 0 < amount && amount < 32 {
        Some((shifted, out, shifted))
    } else {
        None
    };
    assert_eq!(rt;
        shifted_by_number(kind, word, amount, carry),
        by_number,
        "{kind:?} {word:x} {amount}"
    );
}

#[test]
fn shifts_by_registers_and_numbers(rt: HostRuntime) {
    for case in &SHIFTS {
        agrees(&rt, case, false);
        agrees(&rt, case, true);
    }
}

// The shift by a written 0.
fn shifted_by_written_zero(kind: Shift, word: u32, carry: bool) -> (u32, bool) {
    shift_fixed(kind, word, 0, carry)
}

#[test]
fn shifts_by_zero(rt: HostRuntime) {
    for &(kind, word, carry, shifted, out) in &WRITTEN_ZEROS {
        assert_eq!(rt;
            shifted_by_register(kind, word, 0, carry),
            (word, carry),
            "{kind:?} {word:x} by a register"
        );
        assert_eq!(rt;
            shifted_by_written_zero(kind, word, carry),
            (shifted, out),
            "{kind:?} {word:x}"
        );
    }
}

// Two words and a carry; their sum, its carry and its overflow.
static SUMS: [(u32, u32, bool, u32, bool, bool); 15] = [
    (0, 0, false, 0, false, false),
    (0, 0, true, 1, false, false),
    (0xffff_ffff, 0, true, 0, true, false),
    (0xffff_ffff, 1, false, 0, true, false),
    (0xffff_ffff, 0xffff_ffff, true, 0xffff_ffff, true, false),
    (0x7fff_ffff, 1, false, 0x8000_0000, false, true),
    (0x7fff_ffff, 0, true, 0x8000_0000, false, true),
    (0x7fff_fffe, 0, true, 0x7fff_ffff, false, false),
    (0x8000_0000, 0x8000_0000, false, 0, true, true),
    (0x8000_0000, 0xffff_ffff, false, 0x7fff_ffff, true, true),
    (0x8000_0000, 0xffff_ffff, true, 0x8000_0000, true, false),
    (0x8000_0000, 0x7fff_ffff, false, 0xffff_ffff, false, false),
    (0x8000_0000, 0x7fff_ffff, true, 0, true, false),
    (5, 0xffff_fffa, true, 0, true, false),
    (3, 0xffff_fffa, true, 0xffff_fffe, false, false),
];

// The sum, and the same by the function that knows the carry.
fn added_twice(a: u32, b: u32, carry: bool) -> (Sum, Sum) {
    let known = if carry {
        subtract(a, !b)
    } else {
        add_plain(a, b)
    };
    (add_carry(a, b, carry), known)
}

#[test]
fn sums_at_the_edges(rt: HostRuntime) {
    for &(a, b, carry, value, out, overflow) in &SUMS {
        let want = Sum {
            value,
            carry: out,
            overflow,
        };
        assert_eq!(rt;
            added_twice(a, b, carry),
            (want, want),
            "{a:x} + {b:x} + {carry}"
        );
    }
}

// The sign extension from a width that there is.
fn extended(value: u32, width: u32) -> Option<u32> {
    if 0 < width && width <= 32 {
        Some(sign_extend(value, width))
    } else {
        None
    }
}

#[test]
fn signs_are_extended(rt: HostRuntime) {
    for &(value, width, want) in &[
        (0x80, 8, 0xffff_ff80),
        (0x7f, 8, 0x7f),
        (0x1280, 8, 0xffff_ff80),
        (1, 1, 0xffff_ffff),
        (0x80_0000, 24, 0xff80_0000),
        (0x8000_0000, 32, 0x8000_0000),
        (0x7fff_ffff, 32, 0x7fff_ffff),
    ] {
        assert_eq!(rt;
            extended(value, width),
            Some(want),
            "{value:x} from {width} bits"
        );
    }
}

// The byte, turned by twice the number.
fn turned(value: u8, turn: u8, carry: bool) -> (u32, bool) {
    rotate_immediate(value, turn, carry)
}

#[test]
fn bytes_are_turned(rt: HostRuntime) {
    for &(value, turn, carry, want, out) in &[
        (0xff, 0, false, 0xff, false),
        (0xff, 0, true, 0xff, true),
        (0xff, 1, false, 0xc000_003f, true),
        (0xff, 4, false, 0xff00_0000, true),
        (0x01, 15, true, 0x0000_0004, false),
        (0x02, 1, false, 0x8000_0000, true),
        (0x04, 1, true, 0x0000_0001, false),
    ] {
        assert_eq!(rt;
            turned(value, turn, carry),
            (want, out),
            "{value:x} turned by {turn}"
        );
    }
}

// The highest four bits of a word, all of them, and none.
fn fields_of(word: u32) -> [u32; 3] {
    [bits(word, 28, 4), bits(word, 0, 32), bits(word, 32, 0)]
}

// The two highest bits of a word, and the word turned by 24 places.
fn ends_of(word: u32) -> (bool, bool, u32) {
    (bit(word, 31), bit(word, 30), rotate(word, 24))
}

#[test]
fn words_and_their_fields(rt: HostRuntime) {
    assert_eq!(rt; fields_of(0xe59f_1234), [0xe, 0xe59f_1234, 0]);
    assert_eq!(rt; ends_of(0x8000_0000), (true, false, 0x0000_0080));
    assert_eq!(rt; ends_of(0x4433_2211), (false, true, 0x3322_1144));
}
