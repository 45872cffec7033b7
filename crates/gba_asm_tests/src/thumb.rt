//! Thumb statements to their halfwords. The halfwords are GNU as's, but where this language chooses another format.

use crate::assembled::{gives_half, gives_halves};

// Each statement with every form of its operands, numbers at both ends.
#[test]
fn thumb_statements_are_encoded(rt: HostRuntime) {
    static CASES: [(&[u8], u16); 60] = [
        (b"lsl r1, r2, #0", 0x0011),
        (b"lsl r1, r2, #1", 0x0051),
        (b"lsl r1, r2, #31", 0x07D1),
        (b"lsr r1, r2, #1", 0x0851),
        (b"lsr r1, r2, #31", 0x0FD1),
        (b"lsr r1, r2, #32", 0x0811),
        (b"asr r1, r2, #1", 0x1051),
        (b"asr r1, r2, #31", 0x17D1),
        (b"asr r1, r2, #32", 0x1011),
        (b"add r1, r2, r3", 0x18D1),
        (b"sub r4, r5, r6", 0x1BAC),
        (b"add r1, r2, #0", 0x1C11),
        (b"add r1, r2, #7", 0x1DD1),
        (b"sub r4, r5, #7", 0x1FEC),
        (b"mov r1, #0", 0x2100),
        (b"mov r7, #255", 0x27FF),
        (b"cmp r1, #255", 0x29FF),
        (b"add r1, #200", 0x31C8),
        (b"sub r1, #255", 0x39FF),
        (b"and r1, r2", 0x4011),
        (b"eor r1, r2", 0x4051),
        (b"lsl r1, r2", 0x4091),
        (b"lsr r1, r2", 0x40D1),
        (b"asr r1, r2", 0x4111),
        (b"adc r1, r2", 0x4151),
        (b"sbc r1, r2", 0x4191),
        (b"ror r1, r2", 0x41D1),
        (b"tst r1, r2", 0x4211),
        (b"neg r1, r2", 0x4251),
        (b"cmp r1, r2", 0x4291),
        (b"cmn r1, r2", 0x42D1),
        (b"orr r1, r2", 0x4311),
        (b"mul r1, r2", 0x4351),
        (b"bic r1, r2", 0x4391),
        (b"mvn r1, r2", 0x43D1),
        (b"add r8, r1", 0x4488),
        (b"add r1, r8", 0x4441),
        (b"add r8, r9", 0x44C8),
        (b"cmp r8, r1", 0x4588),
        (b"cmp r1, r8", 0x4541),
        (b"cmp r9, r10", 0x45D1),
        (b"mov r8, r1", 0x4688),
        (b"mov r1, r8", 0x4641),
        (b"mov pc, lr", 0x46F7),
        (b"add sp, r4", 0x44A5),
        (b"bx r0", 0x4700),
        (b"bx lr", 0x4770),
        (b"bx pc", 0x4778),
        (b"ldr r1, [pc, #0]", 0x4900),
        (b"ldr r1, [pc, #1020]", 0x49FF),
        (b"ldr r1, [r2, r3]", 0x58D1),
        (b"ldrb r1, [r2, r3]", 0x5CD1),
        (b"str r1, [r2, r3]", 0x50D1),
        (b"strb r1, [r2, r3]", 0x54D1),
        (b"ldrh r1, [r2, r3]", 0x5AD1),
        (b"strh r1, [r2, r3]", 0x52D1),
        (b"ldrsb r1, [r2, r3]", 0x56D1),
        (b"ldrsh r1, [r2, r3]", 0x5ED1),
        (b"ldr r1, [r2, #0]", 0x6811),
        (b"ldr r1, [r2, #4]", 0x6851),
    ];
    for &(source, half) in &CASES {
        assert!(rt;
            gives_half(rt.alloc(), source, half),
            "{source:?} isn't {half:04x}"
        );
    }
}

// Each statement with every form of its operands, numbers at both ends.
#[test]
fn the_other_thumb_statements_are_encoded(rt: HostRuntime) {
    static CASES: [(&[u8], u16); 36] = [
        (b"ldr r7, [r6, #124]", 0x6FF7),
        (b"str r1, [r2, #0]", 0x6011),
        (b"str r1, [r2, #4]", 0x6051),
        (b"str r7, [r6, #124]", 0x67F7),
        (b"ldrb r1, [r2, #0]", 0x7811),
        (b"ldrb r1, [r2, #1]", 0x7851),
        (b"ldrb r7, [r6, #31]", 0x7FF7),
        (b"strb r1, [r2, #0]", 0x7011),
        (b"strb r1, [r2, #1]", 0x7051),
        (b"strb r7, [r6, #31]", 0x77F7),
        (b"ldrh r1, [r2, #0]", 0x8811),
        (b"ldrh r1, [r2, #2]", 0x8851),
        (b"ldrh r7, [r6, #62]", 0x8FF7),
        (b"strh r1, [r2, #0]", 0x8011),
        (b"strh r1, [r2, #2]", 0x8051),
        (b"strh r7, [r6, #62]", 0x87F7),
        (b"ldr r1, [sp, #0]", 0x9900),
        (b"ldr r1, [sp, #1020]", 0x99FF),
        (b"str r1, [sp, #4]", 0x9101),
        (b"add r1, pc, #1020", 0xA1FF),
        (b"add r1, sp, #4", 0xA901),
        (b"add r1, sp, #1020", 0xA9FF),
        (b"add sp, #0", 0xB000),
        (b"add sp, #508", 0xB07F),
        (b"sub sp, #4", 0xB081),
        (b"sub sp, #508", 0xB0FF),
        (b"push {r0}", 0xB401),
        (b"push {r0-r7, lr}", 0xB5FF),
        (b"push {lr}", 0xB500),
        (b"pop {r7}", 0xBC80),
        (b"pop {r0, r2, pc}", 0xBD05),
        (b"pop {pc}", 0xBD00),
        (b"ldmia r1!, {r2, r3}", 0xC90C),
        (b"stmia r7!, {r0-r6}", 0xC77F),
        (b"swi #0", 0xDF00),
        (b"swi #255", 0xDFFF),
    ];
    for &(source, half) in &CASES {
        assert!(rt;
            gives_half(rt.alloc(), source, half),
            "{source:?} isn't {half:04x}"
        );
    }
}

// Two low registers are added and moved by format 5 and compared by format 4; branches to numbers, reckoned by hand
// from address 0.
#[test]
fn the_form_as_written_picks_the_format(rt: HostRuntime) {
    static CASES: [(&[u8], u16); 21] = [
        (b"mov r1, r2", 0x4611),
        (b"add r1, r2", 0x4411),
        (b"mov r8, r9", 0x46C8),
        (b"b 4", 0xE000),
        (b"b 0", 0xE7FE),
        (b"b 0x802", 0xE3FF),
        (b"b 0xfffff804", 0xE400),
        (b"beq 4", 0xD000),
        (b"bne 0x102", 0xD17F),
        (b"ble 0xffffff04", 0xDD80),
        (b"bcs 0", 0xD2FE),
        (b"bcc 0", 0xD3FE),
        (b"bmi 0", 0xD4FE),
        (b"bpl 0", 0xD5FE),
        (b"bvs 0", 0xD6FE),
        (b"bvc 0", 0xD7FE),
        (b"bhi 0", 0xD8FE),
        (b"bls 0", 0xD9FE),
        (b"bge 0", 0xDAFE),
        (b"blt 0", 0xDBFE),
        (b"bgt 0", 0xDCFE),
    ];
    for &(source, half) in &CASES {
        assert!(rt;
            gives_half(rt.alloc(), source, half),
            "{source:?} isn't {half:04x}"
        );
    }
}

// BL's two halves: the high eleven bits of the distance, and the low ones.
#[test]
fn calls_are_two_halfwords(rt: HostRuntime) {
    static CASES: [(&[u8], [u16; 2]); 5] = [
        (b"bl 4", [0xF000, 0xF800]),
        (b"bl 0", [0xF7FF, 0xFFFE]),
        (b"bl 0x1236", [0xF001, 0xF919]),
        (b"bl 0x400002", [0xF3FF, 0xFFFF]),
        (b"bl 0xffc00004", [0xF400, 0xF800]),
    ];
    for &(source, halves) in &CASES {
        assert!(rt; gives_halves(rt.alloc(), source, halves), "{source:?}");
    }
}
