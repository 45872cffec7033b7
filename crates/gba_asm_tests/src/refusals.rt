//! Sources that are refused: each kind, and the order of the kinds on a line.

use crate::assembled::{refuses, refuses_thumb};
use gba_asm::AsmKind;
use std::test::Fail;

// Bytes that no form uses, and names that no statement has.
#[test]
fn what_isnt_of_the_language_is_unknown(rt: HostRuntime) {
    static CASES: [&[u8]; 61] = [
        b"mov r0, r1 @ x",
        b"mov r0, =1",
        b"mov r0, 'a'",
        b"mov r0, r1 \xff",
        b"mov r0, (1)",
        b"mov r0, 1+1",
        b"mov r0, r1 /",
        b"$",
        b"MOV r0, r1",
        b"moveqeq r0, r1",
        b"moveqseq r0, r1",
        b"movseq r0, r1",
        b"movhs r0, r1",
        b"movlo r0, r1",
        b"movnv r0, r1",
        b"moveqss r0, r1",
        b"nop",
        b"foo",
        b"foo r0",
        b"cmps r0, r1",
        b"tsts r0, r1",
        b"umullseq r0, r1, r2, r3",
        b"strsb r0, [r1]",
        b"strsh r0, [r1]",
        b"ldrhs r0, [r1]",
        b"ldrbeq r0, [r1]",
        b"ldrtb r0, [r1], #1",
        b"ldm r0, {r1}",
        b"ldmea r0, {r1}",
        b"ldmiaeq r0, {r1}",
        b"swpt r0, r1, [r2]",
        b"bxs r0",
        b"blx r0",
        b"bll 0",
        b"swis #1",
        b"mrss r0, cpsr",
        b"msrs cpsr_f, r0",
        b"bi r0, r1, r2",
        b"an r0",
        b"push {r0}",
        b"neg r0, r1",
        b"lsl r0, r1",
        b"add.w r0, r1, r2",
        b".foo",
        b".ARM",
        b".Thumb",
        b".words 1",
        b".",
        b"..",
        b", mov",
        b"#1",
        b"[r0]",
        b": mov r0, r1",
        b"1: mov r0, r1",
        b"1x: mov r0, r1",
        b"a.b: mov r0, r1",
        b"abcdefghijklmnopqrstuvwxyz0123456: mov r0, r1",
        b"x: foo",
        b"x: , mov",
        b"x: y",
        b"mov r0, r1 \x00",
    ];
    for &source in &CASES {
        assert!(rt;
            refuses(rt.alloc(), source, 1, AsmKind::Unknown),
            "{source:?}"
        );
    }
}

// Names that no Thumb statement has.
#[test]
fn names_of_the_other_state_are_unknown(rt: HostRuntime) {
    static CASES: [&[u8]; 18] = [
        b"bal 0",
        b"beqal 0",
        b"moveq r0, r1",
        b"ands r0, r1",
        b"rsb r0, r1",
        b"rsc r0, r1",
        b"ldmib r0!, {r1}",
        b"stmdb r0!, {r1}",
        b"blx r0",
        b"bleq 0",
        b"swieq #1",
        b"ldrt r0, [r1]",
        b"mla r0, r1, r2, r3",
        b"mrs r0, cpsr",
        b"swp r0, r1, [r2]",
        b"rrx r0, r1",
        b"LSL r0, r1",
        b"bnv 0",
    ];
    for &source in &CASES {
        assert!(rt;
            refuses_thumb(rt.alloc(), source, AsmKind::Unknown),
            "{source:?}"
        );
    }
}

// Operands that aren't one of the statement's forms.
#[test]
fn operands_of_no_form_are_refused(rt: HostRuntime) {
    static CASES: [&[u8]; 68] = [
        b"mov r0",
        b"mov",
        b"mov r0,",
        b"mov r0 r1",
        b"mov r0, r16",
        b"mov r0, r01",
        b"mov R0, r1",
        b"mov r0, #",
        b"mov r0, #-1",
        b"mov r0, #0x",
        b"mov r0, #0X1",
        b"mov r0, #1x",
        b"mov r0, #0xg",
        b"mov r0, #4294967296",
        b"mov r0, #0x100000000",
        b"mov r0, 1",
        b"mov r0, r1, lsl",
        b"mov r0, r1, lsl 1",
        b"mov r0, r1, lsl #",
        b"mov r0, r1, rrx #1",
        b"mov r0, r1, foo #1",
        b"mov r0, r1, LSL #1",
        b"mov r0, r1, r2",
        b"mov r0, r1,",
        b"mov r0, r1, lsl #1,",
        b"mov r0, #1, lsl #1",
        b"mov r0, x",
        b"add r0, r1",
        b"add r0, #1",
        b"add r0, r1, r2, r3",
        b"cmp r0",
        b"cmp r0, r1, r2",
        b"mul r0, r1",
        b"mul r0, r1, #2",
        b"mul r0, r1, r2, r3",
        b"mla r0, r1, r2",
        b"umull r0, r1, r2",
        b"umull r0, r1, r2, r3, r4",
        b"ldr r0",
        b"ldr r0, [",
        b"ldr r0, [r1",
        b"ldr r0, [r1,",
        b"ldr r0, []",
        b"ldr r0, [r1, #4]]",
        b"ldr r0, [r1, 4]",
        b"ldr r0, [r1, #--4]",
        b"ldr r0, [r1, - #4]",
        b"ldr r0, [r1, r2, lsl r3]",
        b"ldr r0, [r1, r2, lsl]",
        b"ldr r0, [r1, #4, lsl #1]",
        b"ldr r0, [r1]!, #4",
        b"ldr r0, [r1], #4!",
        b"ldr r0, [r1, #4], #4",
        b"ldr r0, [#4]",
        b"ldrh r0, [r1, r2, lsl #1]",
        b"ldrh r0, [r1, r2, lsl #0]",
        b"ldrh r0, x",
        b"ldrsb r0, [r1], r2, rrx",
        b"ldrt r0, [r1]",
        b"ldrt r0, [r1]!",
        b"ldrt r0, [r1, #4]",
        b"ldrt r0, [r1, #4]!",
        b"strbt r0, [r1, r2]",
        b"ldrt r0, x",
        b"str r0, x",
        b"ldrb r0, x",
        b"ldrb r0, 8",
        b"strh r0, 8",
    ];
    for &source in &CASES {
        assert!(rt;
            refuses(rt.alloc(), source, 1, AsmKind::Operand),
            "{source:?}"
        );
    }
}

// Operands that aren't one of the statement's forms.
#[test]
fn other_operands_of_no_form_are_refused(rt: HostRuntime) {
    static CASES: [&[u8]; 68] = [
        b"ldmia r0, {r3-r1}",
        b"ldmia r0, {r1",
        b"ldmia r0, r1}",
        b"ldmia r0, {r1,}",
        b"ldmia r0, {,r1}",
        b"ldmia r0, {-r1}",
        b"ldmia r0 {r1}",
        b"ldmia r0, {r0-}",
        b"ldmia r0, {r0-r2-r4}",
        b"ldmia r0, {r1 r2}",
        b"ldmia r0, {x}",
        b"ldmia r0, {}}",
        b"ldmia r0^, {r1}",
        b"ldmia r0, {r1}!",
        b"ldmia #1, {r1}",
        b"swp r0, r1, r2",
        b"swp r0, r1",
        b"swp r0, r1, [r2]!",
        b"swp r0, r1, [r2, #0]",
        b"mrs r0, cpsr_f",
        b"mrs r0, r1",
        b"mrs cpsr, r0",
        b"msr cpsr, r0",
        b"msr cpsr_, r0",
        b"msr cpsr_cf, r0",
        b"msr cpsr_ff, r0",
        b"msr cpsr_fz, r0",
        b"msr cpsrf, r0",
        b"msr cpsr_f, r0, lsl #1",
        b"msr xpsr_f, r0",
        b"msr cpsr_f",
        b"b",
        b"b #4",
        b"b [r0]",
        b"b x, y",
        b"b -4",
        b"b abcdefghijklmnopqrstuvwxyz0123456",
        b"b a.b",
        b"bx",
        b"bx 4",
        b"bx x",
        b"swi",
        b"swi 1",
        b"swi r0",
        b"x: mov r0",
        b"x: b: mov r0, r1",
        b".word",
        b".word 1,",
        b".word ,1",
        b".word 1 2",
        b".word #1",
        b".word -1",
        b".word 1,,2",
        b".word 4294967296",
        b".half",
        b".half x",
        b".byte x",
        b".byte 1,",
        b".space",
        b".space x",
        b".space #1",
        b".space 1, 2",
        b".align 4",
        b".align x",
        b".thumb 1",
        b".arm x",
        b"mov r0, r1 mov r0, r1",
        b"mov! r0, r1",
    ];
    for &source in &CASES {
        assert!(rt;
            refuses(rt.alloc(), source, 1, AsmKind::Operand),
            "{source:?}"
        );
    }
}

// Operands that aren't one of the Thumb statement's forms.
#[test]
fn thumb_operands_of_no_form_are_refused(rt: HostRuntime) {
    static CASES: [&[u8]; 78] = [
        b"lsl r8, r1, #1",
        b"lsl r0, r8, #1",
        b"lsl r0, r1, r2",
        b"lsl r0, r1, 1",
        b"lsl r0, r1, #-1",
        b"lsl r0",
        b"ror r0, r1, #1",
        b"add r0, r8, r1",
        b"add r8, r0, r1",
        b"add r0, r1, r8",
        b"add r8, #1",
        b"add r0, r8, #1",
        b"add r8, sp, #4",
        b"add r0, r14, #4",
        b"add r0",
        b"add r0, r1,",
        b"add r0, r1, #-1",
        b"add pc, #4",
        b"sub r0, r1",
        b"sub r8, #1",
        b"sub r0, sp, #4",
        b"sub r0, pc, #4",
        b"sub r8, r0, r1",
        b"sub r0, r8, #1",
        b"mov r8, #1",
        b"mov r0, r1, lsl #1",
        b"mov r0, 1",
        b"cmp r8, #1",
        b"cmp r0",
        b"and r0, r8",
        b"and r8, r0",
        b"and r0, r1, r2",
        b"and r0, #1",
        b"neg r0",
        b"mul r0, r1, r2",
        b"bx 4",
        b"bx",
        b"ldr r0, [r1]",
        b"ldr r0, x",
        b"ldr r0, 8",
        b"ldr r8, [r1, #4]",
        b"ldr r0, [r8, #4]",
        b"ldr r0, [r8, r1]",
        b"ldr r0, [r1, r8]",
        b"ldr r0, [pc, r1]",
        b"ldr r0, [r1, #-4]",
        b"ldr r0, [r1, -r2]",
        b"ldr r0, [r1, #4]!",
        b"ldr r0, [r1], #4",
        b"ldr r0, [r1, r2, lsl #2]",
        b"str r0, [pc, #4]",
        b"ldrb r0, [sp, #4]",
        b"ldrb r0, [pc, #4]",
        b"strh r0, [sp, #4]",
        b"ldrsb r0, [r1, #1]",
        b"ldrsh r0, [r1, #2]",
        b"push {r8}",
        b"push {pc}",
        b"push {lr-pc}",
        b"push r0",
        b"push {r0}!",
        b"pop {lr}",
        b"pop {r8}",
        b"pop {sp}",
        b"ldmia r0, {r1}",
        b"ldmia r8!, {r1}",
        b"ldmia r0!, {r8}",
        b"ldmia r0!, {lr}",
        b"stmia r0!, r1",
        b"stmia r0!, {r1}^",
        b"b",
        b"b #4",
        b"beq",
        b"beq r0, r1",
        b"bl #4",
        b"bl",
        b"swi 1",
        b"swi",
    ];
    for &source in &CASES {
        assert!(rt;
            refuses_thumb(rt.alloc(), source, AsmKind::Operand),
            "{source:?}"
        );
    }
}

// Numbers one past each end, from address 0.
#[test]
fn numbers_without_an_encoding_are_out_of_range(rt: HostRuntime) {
    static CASES: [&[u8]; 36] = [
        b"mov r0, #0x101",
        b"mov r0, #0x102",
        b"mov r0, #0x1fe00",
        b"mov r0, #0xffffffff",
        b"cmp r0, #257",
        b"add r0, r1, #0x80000101",
        b"mov r0, r1, lsl #32",
        b"mov r0, r1, ror #32",
        b"mov r0, r1, lsr #0",
        b"mov r0, r1, asr #0",
        b"mov r0, r1, lsr #33",
        b"mov r0, r1, asr #33",
        b"mov r0, r1, lsl #256",
        b"ldr r0, [r1, #4096]",
        b"ldr r0, [r1, #-4096]",
        b"ldr r0, [r1], #4096",
        b"str r0, [r1, #4096]!",
        b"ldrh r0, [r1, #256]",
        b"ldrh r0, [r1, #-256]",
        b"strh r0, [r1], #256",
        b"ldr r0, [r1, r2, lsl #32]",
        b"ldr r0, [r1, r2, lsr #0]",
        b"ldr r0, [r1], -r2, asr #33",
        b"swi #0x1000000",
        b"msr cpsr_f, #0x101",
        b"b 2",
        b"b 0x2000008",
        b"b 0xfe000004",
        b"bl 9",
        b"ldr r0, 0x1008",
        b"ldr r0, 0xfffff008",
        b"ldr r0, 0x80000000",
        b".half 65536",
        b".half 1, 65536",
        b".byte 256",
        b".byte 1, 256",
    ];
    for &source in &CASES {
        assert!(rt;
            refuses(rt.alloc(), source, 1, AsmKind::Range),
            "{source:?}"
        );
    }
}

// Numbers one past each end, or no multiple of their unit, from address 0.
#[test]
fn thumb_numbers_without_an_encoding_are_out_of_range(rt: HostRuntime) {
    static CASES: [&[u8]; 39] = [
        b"lsl r0, r1, #32",
        b"lsr r0, r1, #0",
        b"lsr r0, r1, #33",
        b"asr r0, r1, #0",
        b"add r0, r1, #8",
        b"add r0, r0, #8",
        b"sub r0, r1, #8",
        b"mov r0, #256",
        b"mov r0, #65536",
        b"cmp r0, #256",
        b"add r0, #256",
        b"sub r0, #256",
        b"ldr r0, [r1, #128]",
        b"ldr r0, [r1, #2]",
        b"str r0, [r1, #1]",
        b"ldrb r0, [r1, #32]",
        b"ldrh r0, [r1, #64]",
        b"ldrh r0, [r1, #1]",
        b"ldr r0, [sp, #1024]",
        b"ldr r0, [sp, #2]",
        b"ldr r0, [pc, #1024]",
        b"ldr r0, [pc, #3]",
        b"add r0, sp, #1024",
        b"add r0, sp, #2",
        b"add r0, pc, #1024",
        b"add r0, pc, #1",
        b"add sp, #512",
        b"add sp, #3",
        b"sub sp, #512",
        b"swi #256",
        b"b 0x804",
        b"b 1",
        b"b 0xfffff802",
        b"beq 0x104",
        b"beq 0xffffff02",
        b"beq 3",
        b"bl 0x400004",
        b"bl 0xffc00002",
        b"bl 1",
    ];
    for &source in &CASES {
        assert!(rt;
            refuses_thumb(rt.alloc(), source, AsmKind::Range),
            "{source:?}"
        );
    }
}

// The first refused line decides, and on it Size, Unknown, Operand, Repeated, Label, Range in this order; the image's
// size is tested where a statement has a form.
#[test]
fn the_first_refused_line_decides(rt: HostRuntime) {
    static CASES: [(&[u8], u64, AsmKind); 46] = [
        (b"mov r0, r0\nfoo", 2, AsmKind::Unknown),
        (b"mov r0, r0\r\n\r\n mov r0", 3, AsmKind::Operand),
        (b"b nowhere\n", 1, AsmKind::Label),
        (b"mov r0\n", 1, AsmKind::Operand),
        (b"mov r0, #0x101", 1, AsmKind::Range),
        (b"x:\nx:", 2, AsmKind::Repeated),
        (b"x: mov r0, r0\ny:\nx: mov r0, r0", 3, AsmKind::Repeated),
        (b"x:\nx: mov r0", 2, AsmKind::Operand),
        (b"x:\nx: foo", 2, AsmKind::Unknown),
        (b"x:\nx: b nowhere", 2, AsmKind::Repeated),
        (b"x:\nx: mov r0, #0x101", 2, AsmKind::Repeated),
        (b"x: mov r0\nx:", 1, AsmKind::Operand),
        (b"x:\nx: $", 2, AsmKind::Unknown),
        (b"ldr r0, nowhere", 1, AsmKind::Label),
        (b".word 1, nowhere", 1, AsmKind::Label),
        (b".byte 0\n.word nowhere", 2, AsmKind::Label),
        (b".byte 0\nb nowhere", 2, AsmKind::Label),
        (b".thumb\n.byte 0\nbl nowhere", 3, AsmKind::Label),
        (b".thumb\nbeq nowhere", 2, AsmKind::Label),
        (b"b X\nx:", 1, AsmKind::Label),
        (b"b x\nfoo\nx:", 2, AsmKind::Unknown),
        (b"b x\nx: foo", 2, AsmKind::Unknown),
        (b"b x\nx: mov r0", 2, AsmKind::Operand),
        (b"b x\nmov r0, #0x101\nx:", 2, AsmKind::Range),
        (b"b x\nx: $", 1, AsmKind::Label),
        (b"b x\nx:\nx:", 3, AsmKind::Repeated),
        (b".space 33554433", 1, AsmKind::Size),
        (b".space 4294967295", 1, AsmKind::Size),
        (b".space 33554432\n.byte 1", 2, AsmKind::Size),
        (b".space 33554431\n.half 1", 2, AsmKind::Size),
        (
            b".space 33554428\nmov r0, r0\n.align\nmov r0, r0",
            4,
            AsmKind::Size,
        ),
        (b".space 33554432\nmov r0", 2, AsmKind::Operand),
        (b".space 33554432\nfoo", 2, AsmKind::Unknown),
        (b".space 33554432\n.word nowhere", 2, AsmKind::Size),
        (b".space 33554432\nmov r0, #0x101", 2, AsmKind::Size),
        (b"x: .space 33554432\nx: .byte 1", 2, AsmKind::Size),
        (b".space 33554429\n.align\n.byte 1", 3, AsmKind::Size),
        (b".thumb\n.space 33554430\nbl 0", 3, AsmKind::Size),
        (b".byte 0\nmov r0, r0", 2, AsmKind::Range),
        (b".half 0\nmov r0, r0", 2, AsmKind::Range),
        (b".byte 0\n.word 1", 2, AsmKind::Range),
        (b".half 1\n.word 1", 2, AsmKind::Range),
        (b".byte 1\n.half 1", 2, AsmKind::Range),
        (b".thumb\n.byte 1\nmov r0, r0", 3, AsmKind::Range),
        (b".thumb\n.space 3\nbl 0", 3, AsmKind::Range),
        (b".thumb\nmov r0, r0\n.arm\nmov r0, r0", 4, AsmKind::Range),
    ];
    for &(source, line, kind) in &CASES {
        assert!(rt; refuses(rt.alloc(), source, line, kind), "{source:?}");
    }
}

// A line of 400 bytes is read and one of 401 isn't, whatever they are.
#[test]
fn lines_have_at_most_400_bytes(rt: HostRuntime) -> Result<(), Fail> {
    for byte in [b' ', b';', b'$'] {
        let longest = vec![in rt.alloc(); byte; 400]?;
        let long = vec![in rt.alloc(); byte; 401]?;
        assert!(rt; !refuses(rt.alloc(), &longest, 1, AsmKind::Size));
        assert!(rt; refuses(rt.alloc(), &long, 1, AsmKind::Size));
    }
    Ok(())
}
