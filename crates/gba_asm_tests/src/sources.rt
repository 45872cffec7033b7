//! Whole sources.

use crate::assembled::{gives, gives_words};
use gba_asm::assemble;
use std::alloc::{AllocError, Global};
use std::test::Fail;

/// A program that sends words over the cable for ever, with its words.
const SENDER: &[u8] = b"\
        mov r4, #0x04000000
        add r5, r4, #0x100
        mov r0, #0
        strh r0, [r5, #0x34]
        ldr r0, mode
        strh r0, [r5, #0x28]
        ldr r6, seed
        ldr r7, factor
        ldr r8, adder
again:  mla r9, r6, r7, r8
        mov r6, r9
        mov r0, r6, lsr #16
        strh r0, [r5, #0x2a]
hold:   ldrh r0, [r5, #0x28]
        tst r0, #0x80
        bne hold
        tst r0, #8
        beq hold
        ldr r0, go
        strh r0, [r5, #0x28]
        b again
mode:   .word 0x2003
go:     .word 0x2083
factor: .word 1664525
adder:  .word 1013904223
seed:   .word 305419896
";

static SENDER_WORDS: [u32; 26] = [
    0xE3A04301, 0xE2845C01, 0xE3A00000, 0xE1C503B4, 0xE59F003C, 0xE1C502B8, 0xE59F6044, 0xE59F7038,
    0xE59F8038, 0xE0298796, 0xE1A06009, 0xE1A00826, 0xE1C502BA, 0xE1D502B8, 0xE3100080, 0x1AFFFFFC,
    0xE3100008, 0x0AFFFFFA, 0xE59F0008, 0xE1C502B8, 0xEAFFFFF3, 0x00002003, 0x00002083, 0x0019660D,
    0x3C6EF35F, 0x12345678,
];

#[test]
fn a_whole_program_is_assembled(rt: HostRuntime) -> Result<(), Fail> {
    assert!(rt; gives_words(rt.alloc(), SENDER, &SENDER_WORDS)?);
    Ok(())
}

// Labels of earlier and of later lines, on lines of their own, in either case, up to 32 letters; two states.
#[test]
fn labels_lead_to_what_follows_them(rt: HostRuntime) -> Result<(), Fail> {
    static CASES: [(&[u8], &[u32]); 12] = [
        (b"b x\nx: bx lr\n", &[0xEAFFFFFF, 0xE12FFF1E]),
        (b"x: b x", &[0xEAFFFFFE]),
        (b"x:\ny:\n  b x\n  b y", &[0xEAFFFFFE, 0xEAFFFFFD]),
        (b"bl end\n.space 8\nend:", &[0xEB000001, 0, 0]),
        (b"X: b x\nx: b X", &[0xEAFFFFFF, 0xEAFFFFFD]),
        (
            b"b abcdefghijklmnopqrstuvwxyz012345\nabcdefghijklmnopqrstuvwxyz012345:",
            &[0xEAFFFFFF],
        ),
        (b"_1 : b _1", &[0xEAFFFFFE]),
        (b"mov: b mov\nr0: ldr r0, r0", &[0xEAFFFFFE, 0xE51F0008]),
        (
            b"ldr r1, x\nstr r1, [r2]\nx: .word x",
            &[0xE59F1000, 0xE5821000, 8],
        ),
        (b".word x, 7, x\nx:", &[12, 7, 12]),
        (
            b".thumb\nb x\nbl x\n.half 0\nx: .arm\nb x",
            &[0xF000E002, 0x0000F801, 0xEAFFFFFE],
        ),
        (b"a: .word b\nb: .word a", &[4, 0]),
    ];
    for &(source, words) in &CASES {
        assert!(rt; gives_words(rt.alloc(), source, words)?, "{source:?}");
    }
    Ok(())
}

#[test]
fn directives_give_their_bytes(rt: HostRuntime) {
    static CASES: [(&[u8], &[u8]); 19] = [
        (b"", b""),
        (b"\n\r\n \t\n", b""),
        (b"; all \xff\x00\r\n", b""),
        (b".arm\n.thumb\n.arm", b""),
        (b".word 0x12345678", b"\x78\x56\x34\x12"),
        (b".word 4294967295, 0XFF", b""),
        (b".half 1, 0xFFfF , 258", b"\x01\x00\xff\xff\x02\x01"),
        (b".byte 0, 255,0x0a", b"\x00\xff\x0a"),
        (b".space 3", b"\0\0\0"),
        (b".space 0", b""),
        (b".align", b""),
        (b".byte 1\n.align\n.byte 2", b"\x01\0\0\0\x02"),
        (b".half 1\n.align\n.byte 2", b"\x01\0\0\0\x02"),
        (b".space 3\n.align\n.byte 2", b"\0\0\0\0\x02"),
        (b".space 4\n.align\n.byte 2", b"\0\0\0\0\x02"),
        (b".byte 1 ; \xff $ ; x\n.byte 2", b"\x01\x02"),
        (b"x:.byte 1;x:\n.byte 2", b"\x01\x02"),
        (b".thumb\n.byte 1\n.half 2\n", b""),
        (b".word 0000000000000000000001", b"\x01\0\0\0"),
    ];
    for &(source, bytes) in &CASES {
        let refused = source == b".word 4294967295, 0XFF".as_slice()
            || source == b".thumb\n.byte 1\n.half 2\n".as_slice();
        assert!(rt; refused != gives(rt.alloc(), source, bytes), "{source:?}");
    }
}

// Blanks stand between any two tokens, or nowhere.
#[test]
fn blanks_stand_where_they_like(rt: HostRuntime) -> Result<(), Fail> {
    static CASES: [(&[u8], &[u32]); 7] = [
        (b"\tldr\tr0 , [ r1 , # - 4 ] !\t", &[0xE5310004]),
        (b"ldr r0,[r1,#-4]!", &[0xE5310004]),
        (b" x\t: mov r0,r1,lsl#2", &[0xE1A00101]),
        (b"ldmia r1 ! , { r0 - r2 , lr } ^", &[0xE8F14007]),
        (b"ldmia r1!,{lr,r0-r2,r1}^", &[0xE8F14007]),
        (b"mov r0, #0xAb", &[0xE3A000AB]),
        (b"mov r0, r1;mov r0", &[0xE1A00001]),
    ];
    for &(source, words) in &CASES {
        assert!(rt; gives_words(rt.alloc(), source, words)?, "{source:?}");
    }
    Ok(())
}

/// `l`, seven digits, `: b l`, seven digits of the next number, and a line feed.
fn push_jump(source: &mut Vec<u8>, number: u32) -> Result<(), AllocError> {
    source.push(b'l')?;
    push_digits(source, number)?;
    source.extend_from_slice(b": b l")?;
    push_digits(source, number.wrapping_add(1))?;
    source.push(b'\n')?;
    Ok(())
}

fn push_digits(source: &mut Vec<u8>, number: u32) -> Result<(), AllocError> {
    for place in [1_000_000, 100_000, 10_000, 1_000, 100, 10, 1u32] {
        source.push(b'0' + (number / place % 10) as u8)?;
    }
    Ok(())
}

fn chain(alloc: Global, jumps: u32) -> Result<Vec<u8>, AllocError> {
    let mut source = Vec::new(alloc);
    for number in 0..jumps {
        push_jump(&mut source, number)?;
    }
    source.extend_from_slice(b"l")?;
    push_digits(&mut source, jumps)?;
    source.extend_from_slice(b":")?;
    Ok(source)
}

// Each of a million lines has a label and leads to the next one.
#[test]
fn a_million_labels_are_found(rt: HostRuntime) -> Result<(), Fail> {
    let source = chain(rt.alloc(), 1_000_000)?;
    let image = match assemble(rt.alloc(), &source) {
        Ok(image) => image,
        Err(_) => Vec::new(rt.alloc()),
    };
    assert_eq!(rt; image.len(), 4_000_000);
    for byte in 0..image.len() {
        assert!(rt; image[byte] == if byte % 4 == 3 { 0xEA } else { 0xFF });
    }
    Ok(())
}

// An image may have 33,554,432 bytes.
#[test]
fn the_largest_image_is_made(rt: HostRuntime) {
    let source = b".space 33554428\nmov r0, r1\nend: .align\n";
    let image = match assemble(rt.alloc(), source) {
        Ok(image) => image,
        Err(_) => Vec::new(rt.alloc()),
    };
    assert_eq!(rt; image.len(), 33_554_432);
    assert_eq!(rt; image.iter().filter(|byte| **byte != 0).count(), 3);
}
