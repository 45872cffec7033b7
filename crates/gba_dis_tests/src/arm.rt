//! ARM words to their lines. Words and statements are the manual's, the spelling is that of listings.

use crate::listed::lists_word;
use std::test::Fail;

// Each class of operation, with its flags, forms and conditions (ARM Architecture Reference Manual, A3 to A5).
#[test]
fn each_class_has_its_statement(rt: HostRuntime) -> Result<(), Fail> {
    static CASES: [(u32, &[u8]); 30] = [
        (0xE12FFF1E, b"bx r14"),
        (0x012FFF13, b"bxeq r3"),
        (0xE0010392, b"mul r1, r2, r3"),
        (0x10314392, b"mlanes r1, r2, r3, r4"),
        (0xE0821493, b"umull r1, r2, r3, r4"),
        (0x20B21493, b"umlalcss r1, r2, r3, r4"),
        (0xE0C21493, b"smull r1, r2, r3, r4"),
        (0x00E21493, b"smlaleq r1, r2, r3, r4"),
        (0xE1021093, b"swp r1, r3, [r2]"),
        (0x31421093, b"swpccb r1, r3, [r2]"),
        (0xE10F1000, b"mrs r1, cpsr"),
        (0x414F1000, b"mrsmi r1, spsr"),
        (0xE129F001, b"msr cpsr_fc, r1"),
        (0xE162F00A, b"msr spsr_x, r10"),
        (0xE32FF0FF, b"msr cpsr_fsxc, #0xff"),
        (0x5368F20F, b"msrpl spsr_f, #0xf0000000"),
        (0xEF123456, b"swi #0x123456"),
        (0x6F000000, b"swivs #0x0"),
        (0xE8B10003, b"ldmia r1!, {r0, r1}"),
        (0xE92D4010, b"stmdb r13!, {r4, r14}"),
        (0xE9D18000, b"ldmib r1, {r15}^"),
        (0x78010000, b"stmvcda r1, {}"),
        (
            0x88FFFFFF,
            b"ldmhiia r15!, {r0, r1, r2, r3, r4, r5, r6, r7, r8, r9, r10, r11, r12, r13, r14, r15}^",
        ),
        (0xEAFFFFFE, b"b 0x00000000"),
        (0xEB000000, b"bl 0x00000008"),
        (0x9A000001, b"bls 0x0000000c"),
        (0xABFFFFFD, b"blge 0xfffffffc"),
        (0xBA7FFFFF, b"blt 0x02000004"),
        (0xCB800000, b"blgt 0xfe000008"),
        (0xD0000000, b"andle r0, r0, r0"),
    ];
    for &(word, line) in &CASES {
        assert!(rt;
            lists_word(rt.alloc(), word, line)?,
            "{word:08x} isn't {line:?}"
        );
    }
    Ok(())
}

// Data processing with every kind of operand (A5.1): immediates by their least turn, shifts by constants and by
// registers.
#[test]
fn data_processing_has_its_operands(rt: HostRuntime) -> Result<(), Fail> {
    static CASES: [(u32, &[u8]); 34] = [
        (0xE0010002, b"and r0, r1, r2"),
        (0xE0310002, b"eors r0, r1, r2"),
        (0xE0410002, b"sub r0, r1, r2"),
        (0xE0710002, b"rsbs r0, r1, r2"),
        (0xE0810002, b"add r0, r1, r2"),
        (0xE0B10002, b"adcs r0, r1, r2"),
        (0xE0C10002, b"sbc r0, r1, r2"),
        (0xE0F10002, b"rscs r0, r1, r2"),
        (0xE1110002, b"tst r1, r2"),
        (0x01310002, b"teqeq r1, r2"),
        (0xE15F0000, b"cmp r15, r0"),
        (0xE1710002, b"cmn r1, r2"),
        (0xE1810002, b"orr r0, r1, r2"),
        (0xE1A0D00E, b"mov r13, r14"),
        (0xE1D10002, b"bics r0, r1, r2"),
        (0xE1E00002, b"mvn r0, r2"),
        (0xE3A00CFF, b"mov r0, #0xff00"),
        (0xE3E00000, b"mvn r0, #0x0"),
        (0xE3A004FF, b"mov r0, #0xff000000"),
        (0xE28F1FF1, b"add r1, r15, #0x3c4"),
        (0xE3510102, b"cmp r1, #0x80000000"),
        (0xE0910182, b"adds r0, r1, r2, lsl #0x3"),
        (0xE1A00F81, b"mov r0, r1, lsl #0x1f"),
        (0xE1B00021, b"movs r0, r1, lsr #0x20"),
        (0xE1A000A1, b"mov r0, r1, lsr #0x1"),
        (0xE1A00041, b"mov r0, r1, asr #0x20"),
        (0xE1A00FC1, b"mov r0, r1, asr #0x1f"),
        (0xE1A00061, b"mov r0, r1, rrx"),
        (0xE1A002E1, b"mov r0, r1, ror #0x5"),
        (0xE1A00312, b"mov r0, r2, lsl r3"),
        (0xE1A00332, b"mov r0, r2, lsr r3"),
        (0xE1A00352, b"mov r0, r2, asr r3"),
        (0xE1A00372, b"mov r0, r2, ror r3"),
        (0xE1510412, b"cmp r1, r2, lsl r4"),
    ];
    for &(word, line) in &CASES {
        assert!(rt;
            lists_word(rt.alloc(), word, line)?,
            "{word:08x} isn't {line:?}"
        );
    }
    Ok(())
}

// Loads and stores (A5.2, A5.3) with every kind of address. A load from r15 is no target, and U 0 with offset 0
// has its sign.
#[test]
fn transfers_have_their_addresses(rt: HostRuntime) -> Result<(), Fail> {
    static CASES: [(u32, &[u8]); 27] = [
        (0xE5910000, b"ldr r0, [r1, #0x0]"),
        (0xE5110000, b"ldr r0, [r1, #-0x0]"),
        (0xE59F0004, b"ldr r0, [r15, #0x4]"),
        (0xE51F0008, b"ldr r0, [r15, #-0x8]"),
        (0xE5810004, b"str r0, [r1, #0x4]"),
        (0xE5E10FFF, b"strb r0, [r1, #0xfff]!"),
        (0xE5710010, b"ldrb r0, [r1, #-0x10]!"),
        (0xE4910004, b"ldr r0, [r1], #0x4"),
        (0xE4010000, b"str r0, [r1], #-0x0"),
        (0xE4B10004, b"ldrt r0, [r1], #0x4"),
        (0x04E10004, b"streqbt r0, [r1], #0x4"),
        (0xE4210004, b"strt r0, [r1], #-0x4"),
        (0xE7910002, b"ldr r0, [r1, r2]"),
        (0xE7910182, b"ldr r0, [r1, r2, lsl #0x3]"),
        (0xE7110062, b"ldr r0, [r1, -r2, rrx]"),
        (0xE7B10022, b"ldr r0, [r1, r2, lsr #0x20]!"),
        (0xE6810102, b"str r0, [r1], r2, lsl #0x2"),
        (0xE6510EC2, b"ldrb r0, [r1], -r2, asr #0x1d"),
        (0xE6F10362, b"ldrbt r0, [r1], r2, ror #0x6"),
        (0xE1D210B4, b"ldrh r1, [r2, #0x4]"),
        (0xE15210B0, b"ldrh r1, [r2, #-0x0]"),
        (0xE1C210B0, b"strh r1, [r2, #0x0]"),
        (0xE11210D3, b"ldrsb r1, [r2, -r3]"),
        (0xE1B210F3, b"ldrsh r1, [r2, r3]!"),
        (0xE0D21FFF, b"ldrsh r1, [r2], #0xff"),
        (0xE00210B3, b"strh r1, [r2], -r3"),
        (0x01FF10DF, b"ldreqsb r1, [r15, #0xf]!"),
    ];
    for &(word, line) in &CASES {
        assert!(rt;
            lists_word(rt.alloc(), word, line)?,
            "{word:08x} isn't {line:?}"
        );
    }
    Ok(())
}

// Words without an operation, under condition 15, or with bits that no statement gives: bits that should be one or
// zero, fields that a statement leaves out, a turn that isn't the least.
#[test]
fn other_words_are_data(rt: HostRuntime) -> Result<(), Fail> {
    static CASES: [(u32, &[u8]); 21] = [
        (0xE7F000F0, b".word 0xe7f000f0"),
        (0xEE000000, b".word 0xee000000"),
        (0xEC000000, b".word 0xec000000"),
        (0xE0400090, b".word 0xe0400090"),
        (0xF1A00000, b".word 0xf1a00000"),
        (0xFAFFFFFE, b".word 0xfafffffe"),
        (0xE12FEF1E, b".word 0xe12fef1e"),
        (0xE1021193, b".word 0xe1021193"),
        (0xE10E1000, b".word 0xe10e1000"),
        (0xE10F1001, b".word 0xe10f1001"),
        (0xE129E001, b".word 0xe129e001"),
        (0xE129F101, b".word 0xe129f101"),
        (0xE120F001, b".word 0xe120f001"),
        (0xE1A10001, b".word 0xe1a10001"),
        (0xE1511002, b".word 0xe1511002"),
        (0xE0013492, b".word 0xe0013492"),
        (0xE3A00F01, b".word 0xe3a00f01"),
        (0xE3A00100, b".word 0xe3a00100"),
        (0xE328F100, b".word 0xe328f100"),
        (0xE0F210B4, b".word 0xe0f210b4"),
        (0xE19211B3, b".word 0xe19211b3"),
    ];
    for &(word, line) in &CASES {
        assert!(rt;
            lists_word(rt.alloc(), word, line)?,
            "{word:08x} isn't {line:?}"
        );
    }
    Ok(())
}
