//! Thumb halfwords to their lines. Halfwords and statements are GBATEK's, the spelling is that of listings.

use crate::listed::lists_half;
use std::test::Fail;

// Each format (GBATEK, THUMB.1 to THUMB.5). A shift by 0 and every number stand there.
#[test]
fn each_format_has_its_statement(rt: HostRuntime) -> Result<(), Fail> {
    static CASES: [(u16, &[u8]); 43] = [
        (0x0011, b"lsl r1, r2, #0x0"),
        (0x0051, b"lsl r1, r2, #0x1"),
        (0x07D1, b"lsl r1, r2, #0x1f"),
        (0x0811, b"lsr r1, r2, #0x20"),
        (0x0851, b"lsr r1, r2, #0x1"),
        (0x1011, b"asr r1, r2, #0x20"),
        (0x17D1, b"asr r1, r2, #0x1f"),
        (0x18D1, b"add r1, r2, r3"),
        (0x1BAC, b"sub r4, r5, r6"),
        (0x1C11, b"add r1, r2, #0x0"),
        (0x1FEC, b"sub r4, r5, #0x7"),
        (0x2100, b"mov r1, #0x0"),
        (0x27FF, b"mov r7, #0xff"),
        (0x29FF, b"cmp r1, #0xff"),
        (0x31C8, b"add r1, #0xc8"),
        (0x39FF, b"sub r1, #0xff"),
        (0x4011, b"and r1, r2"),
        (0x4051, b"eor r1, r2"),
        (0x4091, b"lsl r1, r2"),
        (0x40D1, b"lsr r1, r2"),
        (0x4111, b"asr r1, r2"),
        (0x4151, b"adc r1, r2"),
        (0x4191, b"sbc r1, r2"),
        (0x41D1, b"ror r1, r2"),
        (0x4211, b"tst r1, r2"),
        (0x4251, b"neg r1, r2"),
        (0x4291, b"cmp r1, r2"),
        (0x42D1, b"cmn r1, r2"),
        (0x4311, b"orr r1, r2"),
        (0x4351, b"mul r1, r2"),
        (0x4391, b"bic r1, r2"),
        (0x43D1, b"mvn r1, r2"),
        (0x4488, b"add r8, r1"),
        (0x4441, b"add r1, r8"),
        (0x4411, b"add r1, r2"),
        (0x44A5, b"add r13, r4"),
        (0x4588, b"cmp r8, r1"),
        (0x45D1, b"cmp r9, r10"),
        (0x4611, b"mov r1, r2"),
        (0x46F7, b"mov r15, r14"),
        (0x4700, b"bx r0"),
        (0x4770, b"bx r14"),
        (0x4778, b"bx r15"),
    ];
    for &(half, line) in &CASES {
        assert!(rt;
            lists_half(rt.alloc(), half, line)?,
            "{half:04x} isn't {line:?}"
        );
    }
    Ok(())
}

// Loads, stores, sums and branches (GBATEK, THUMB.6 to THUMB.18), with offsets in bytes, and branches from address 0.
#[test]
fn the_other_formats_have_their_statements(rt: HostRuntime) -> Result<(), Fail> {
    static CASES: [(u16, &[u8]); 43] = [
        (0x4900, b"ldr r1, [r15, #0x0]"),
        (0x49FF, b"ldr r1, [r15, #0x3fc]"),
        (0x58D1, b"ldr r1, [r2, r3]"),
        (0x5CD1, b"ldrb r1, [r2, r3]"),
        (0x50D1, b"str r1, [r2, r3]"),
        (0x54D1, b"strb r1, [r2, r3]"),
        (0x5AD1, b"ldrh r1, [r2, r3]"),
        (0x52D1, b"strh r1, [r2, r3]"),
        (0x56D1, b"ldrsb r1, [r2, r3]"),
        (0x5ED1, b"ldrsh r1, [r2, r3]"),
        (0x6811, b"ldr r1, [r2, #0x0]"),
        (0x6FF7, b"ldr r7, [r6, #0x7c]"),
        (0x6051, b"str r1, [r2, #0x4]"),
        (0x7FF7, b"ldrb r7, [r6, #0x1f]"),
        (0x7011, b"strb r1, [r2, #0x0]"),
        (0x8851, b"ldrh r1, [r2, #0x2]"),
        (0x87F7, b"strh r7, [r6, #0x3e]"),
        (0x99FF, b"ldr r1, [r13, #0x3fc]"),
        (0x9101, b"str r1, [r13, #0x4]"),
        (0xA1FF, b"add r1, r15, #0x3fc"),
        (0xA901, b"add r1, r13, #0x4"),
        (0xB000, b"add r13, #0x0"),
        (0xB0FF, b"sub r13, #0x1fc"),
        (0xB401, b"push {r0}"),
        (0xB5FF, b"push {r0, r1, r2, r3, r4, r5, r6, r7, r14}"),
        (0xB400, b"push {}"),
        (0xBD05, b"pop {r0, r2, r15}"),
        (0xBC80, b"pop {r7}"),
        (0xC90C, b"ldmia r1!, {r2, r3}"),
        (0xC77F, b"stmia r7!, {r0, r1, r2, r3, r4, r5, r6}"),
        (0xC000, b"stmia r0!, {}"),
        (0xDF00, b"swi #0x0"),
        (0xDFFF, b"swi #0xff"),
        (0xE000, b"b 0x00000004"),
        (0xE7FE, b"b 0x00000000"),
        (0xE3FF, b"b 0x00000802"),
        (0xE400, b"b 0xfffff804"),
        (0xD000, b"beq 0x00000004"),
        (0xD17F, b"bne 0x00000102"),
        (0xDD80, b"ble 0xffffff04"),
        (0xD2FE, b"bcs 0x00000000"),
        (0xD9FE, b"bls 0x00000000"),
        (0xDBFE, b"blt 0x00000000"),
    ];
    for &(half, line) in &CASES {
        assert!(rt;
            lists_half(rt.alloc(), half, line)?,
            "{half:04x} isn't {line:?}"
        );
    }
    Ok(())
}

// Halfwords without an operation, or that the assembler writes otherwise: CMP of two low registers by format 5, BX with
// bits of a register that it hasn't, and a half of BL.
#[test]
fn other_halfwords_are_data(rt: HostRuntime) -> Result<(), Fail> {
    static CASES: [(u16, &[u8]); 10] = [
        (0xDE00, b".half 0xde00"),
        (0xB100, b".half 0xb100"),
        (0xB600, b".half 0xb600"),
        (0xE800, b".half 0xe800"),
        (0xBE00, b".half 0xbe00"),
        (0x4511, b".half 0x4511"),
        (0x4701, b".half 0x4701"),
        (0x4780, b".half 0x4780"),
        (0xF000, b".half 0xf000"),
        (0xF801, b".half 0xf801"),
    ];
    for &(half, line) in &CASES {
        assert!(rt;
            lists_half(rt.alloc(), half, line)?,
            "{half:04x} isn't {line:?}"
        );
    }
    Ok(())
}
