//! ARM statements to their words. The words are GNU as's, but where it can't say them.

use crate::assembled::gives_word;

// Each operation with every form of its operand, and numbers by their least turn.
#[test]
fn data_processing_is_encoded(rt: HostRuntime) {
    static CASES: [(&[u8], u32); 70] = [
        (b"and r1, r2, #255", 0xE20210FF),
        (b"ands r3, r4, r5", 0xE0143005),
        (b"andeqs r6, r7, r8, lsl #31", 0x00176F88),
        (b"andal r9, r10, r11, ror r12", 0xE00A9C7B),
        (b"eor r1, r2, #255", 0xE22210FF),
        (b"eors r3, r4, r5", 0xE0343005),
        (b"eoreqs r6, r7, r8, lsl #31", 0x00376F88),
        (b"eoral r9, r10, r11, ror r12", 0xE02A9C7B),
        (b"sub r1, r2, #255", 0xE24210FF),
        (b"subs r3, r4, r5", 0xE0543005),
        (b"subeqs r6, r7, r8, lsl #31", 0x00576F88),
        (b"subal r9, r10, r11, ror r12", 0xE04A9C7B),
        (b"rsb r1, r2, #255", 0xE26210FF),
        (b"rsbs r3, r4, r5", 0xE0743005),
        (b"rsbeqs r6, r7, r8, lsl #31", 0x00776F88),
        (b"rsbal r9, r10, r11, ror r12", 0xE06A9C7B),
        (b"add r1, r2, #255", 0xE28210FF),
        (b"adds r3, r4, r5", 0xE0943005),
        (b"addeqs r6, r7, r8, lsl #31", 0x00976F88),
        (b"addal r9, r10, r11, ror r12", 0xE08A9C7B),
        (b"adc r1, r2, #255", 0xE2A210FF),
        (b"adcs r3, r4, r5", 0xE0B43005),
        (b"adceqs r6, r7, r8, lsl #31", 0x00B76F88),
        (b"adcal r9, r10, r11, ror r12", 0xE0AA9C7B),
        (b"sbc r1, r2, #255", 0xE2C210FF),
        (b"sbcs r3, r4, r5", 0xE0D43005),
        (b"sbceqs r6, r7, r8, lsl #31", 0x00D76F88),
        (b"sbcal r9, r10, r11, ror r12", 0xE0CA9C7B),
        (b"rsc r1, r2, #255", 0xE2E210FF),
        (b"rscs r3, r4, r5", 0xE0F43005),
        (b"rsceqs r6, r7, r8, lsl #31", 0x00F76F88),
        (b"rscal r9, r10, r11, ror r12", 0xE0EA9C7B),
        (b"orr r1, r2, #255", 0xE38210FF),
        (b"orrs r3, r4, r5", 0xE1943005),
        (b"orreqs r6, r7, r8, lsl #31", 0x01976F88),
        (b"orral r9, r10, r11, ror r12", 0xE18A9C7B),
        (b"bic r1, r2, #255", 0xE3C210FF),
        (b"bics r3, r4, r5", 0xE1D43005),
        (b"biceqs r6, r7, r8, lsl #31", 0x01D76F88),
        (b"bical r9, r10, r11, ror r12", 0xE1CA9C7B),
        (b"mov r1, #0xff000000", 0xE3A014FF),
        (b"movs r2, r3", 0xE1B02003),
        (b"movne r4, r5, lsr #32", 0x11A04025),
        (b"movnes r4, r5, rrx", 0x11B04065),
        (b"mvn r1, #0xff000000", 0xE3E014FF),
        (b"mvns r2, r3", 0xE1F02003),
        (b"mvnne r4, r5, lsr #32", 0x11E04025),
        (b"mvnnes r4, r5, rrx", 0x11F04065),
        (b"tst r1, #0x3fc00", 0xE3110BFF),
        (b"tstlt r2, r3, asr #1", 0xB11200C3),
        (b"tst sp, lr, lsl r0", 0xE11D001E),
        (b"teq r1, #0x3fc00", 0xE3310BFF),
        (b"teqlt r2, r3, asr #1", 0xB13200C3),
        (b"teq sp, lr, lsl r0", 0xE13D001E),
        (b"cmp r1, #0x3fc00", 0xE3510BFF),
        (b"cmplt r2, r3, asr #1", 0xB15200C3),
        (b"cmp sp, lr, lsl r0", 0xE15D001E),
        (b"cmn r1, #0x3fc00", 0xE3710BFF),
        (b"cmnlt r2, r3, asr #1", 0xB17200C3),
        (b"cmn sp, lr, lsl r0", 0xE17D001E),
        (b"moveq r0, r1", 0x01A00001),
        (b"movne r0, r1", 0x11A00001),
        (b"movcs r0, r1", 0x21A00001),
        (b"movcc r0, r1", 0x31A00001),
        (b"movmi r0, r1", 0x41A00001),
        (b"movpl r0, r1", 0x51A00001),
        (b"movvs r0, r1", 0x61A00001),
        (b"movvc r0, r1", 0x71A00001),
        (b"movhi r0, r1", 0x81A00001),
        (b"movls r0, r1", 0x91A00001),
    ];
    for &(source, word) in &CASES {
        assert!(rt;
            gives_word(rt.alloc(), source, word),
            "{source:?} isn't {word:08x}"
        );
    }
}

// Each operation with every form of its operand, and numbers by their least turn.
#[test]
fn comparisons_and_moves_are_encoded(rt: HostRuntime) {
    static CASES: [(&[u8], u32); 38] = [
        (b"movge r0, r1", 0xA1A00001),
        (b"movlt r0, r1", 0xB1A00001),
        (b"movgt r0, r1", 0xC1A00001),
        (b"movle r0, r1", 0xD1A00001),
        (b"moval r0, r1", 0xE1A00001),
        (b"mov r0, #0", 0xE3A00000),
        (b"mov r0, #1", 0xE3A00001),
        (b"mov r0, #255", 0xE3A000FF),
        (b"mov r0, #256", 0xE3A00C01),
        (b"mov r0, #0x3fc", 0xE3A00FFF),
        (b"mov r0, #0xff0", 0xE3A00EFF),
        (b"mov r0, #0x104", 0xE3A00F41),
        (b"mov r0, #0xff0000", 0xE3A008FF),
        (b"mov r0, #0x80000000", 0xE3A00102),
        (b"mov r0, #0xf000000f", 0xE3A002FF),
        (b"mov r0, #0xc000003f", 0xE3A001FF),
        (b"mov r0, #4080", 0xE3A00EFF),
        (b"mov r0, #0x40000000", 0xE3A00101),
        (b"mov r0, #0x4000000", 0xE3A00301),
        (b"mov r0, r1, lsl #0", 0xE1A00001),
        (b"mov r0, r1, lsl #1", 0xE1A00081),
        (b"mov r0, r1, lsl #31", 0xE1A00F81),
        (b"mov r0, r1, ror #1", 0xE1A000E1),
        (b"mov r0, r1, ror #31", 0xE1A00FE1),
        (b"mov r0, r1, lsr #1", 0xE1A000A1),
        (b"mov r0, r1, lsr #31", 0xE1A00FA1),
        (b"mov r0, r1, lsr #32", 0xE1A00021),
        (b"mov r0, r1, asr #1", 0xE1A000C1),
        (b"mov r0, r1, asr #31", 0xE1A00FC1),
        (b"mov r0, r1, asr #32", 0xE1A00041),
        (b"mov r0, r1, lsl r2", 0xE1A00211),
        (b"mov r0, r1, lsr r2", 0xE1A00231),
        (b"mov r0, r1, asr r2", 0xE1A00251),
        (b"mov r0, r1, ror r2", 0xE1A00271),
        (b"mov pc, lr", 0xE1A0F00E),
        (b"mov r0, r1, rrx", 0xE1A00061),
        (b"add sp, sp, #16", 0xE28DD010),
        (b"add r0, r15, #8", 0xE28F0008),
    ];
    for &(source, word) in &CASES {
        assert!(rt;
            gives_word(rt.alloc(), source, word),
            "{source:?} isn't {word:08x}"
        );
    }
}

// Both multiplies and the four long ones, with conditions and the set letter.
#[test]
fn multiplies_are_encoded(rt: HostRuntime) {
    static CASES: [(&[u8], u32); 18] = [
        (b"mul r1, r2, r3", 0xE0010392),
        (b"muls r1, r2, r3", 0xE0110392),
        (b"muleqs r4, r5, r6", 0x00140695),
        (b"mla r1, r2, r3, r4", 0xE0214392),
        (b"mlas r1, r2, r3, r4", 0xE0314392),
        (b"mlagt r1, r2, r3, r4", 0xC0214392),
        (b"umull r1, r2, r3, r4", 0xE0821493),
        (b"umulls r1, r2, r3, r4", 0xE0921493),
        (b"umullges r5, r6, r7, r8", 0xA0965897),
        (b"umlal r1, r2, r3, r4", 0xE0A21493),
        (b"umlals r1, r2, r3, r4", 0xE0B21493),
        (b"umlalges r5, r6, r7, r8", 0xA0B65897),
        (b"smull r1, r2, r3, r4", 0xE0C21493),
        (b"smulls r1, r2, r3, r4", 0xE0D21493),
        (b"smullges r5, r6, r7, r8", 0xA0D65897),
        (b"smlal r1, r2, r3, r4", 0xE0E21493),
        (b"smlals r1, r2, r3, r4", 0xE0F21493),
        (b"smlalges r5, r6, r7, r8", 0xA0F65897),
    ];
    for &(source, word) in &CASES {
        assert!(rt;
            gives_word(rt.alloc(), source, word),
            "{source:?} isn't {word:08x}"
        );
    }
}

// Every form of an address, forward and backward, up to the greatest offset.
#[test]
fn words_and_bytes_are_loaded(rt: HostRuntime) {
    static CASES: [(&[u8], u32); 50] = [
        (b"ldr r0, [r1]", 0xE5910000),
        (b"ldr r0, [r1]!", 0xE5B10000),
        (b"ldr r0, [r1, #4]", 0xE5910004),
        (b"ldr r0, [r1, #-4]", 0xE5110004),
        (b"ldr r0, [r1, #4095]", 0xE5910FFF),
        (b"ldr r0, [r1, #-4095]!", 0xE5310FFF),
        (b"ldr r0, [r1, #0]", 0xE5910000),
        (b"ldr r0, [r1, r2]", 0xE7910002),
        (b"ldr r0, [r1, -r2]", 0xE7110002),
        (b"ldr r0, [r1, r2]!", 0xE7B10002),
        (b"ldr r0, [r1, r2, lsl #3]", 0xE7910182),
        (b"ldr r0, [r1, -r2, asr #32]!", 0xE7310042),
        (b"ldr r0, [r1, r2, rrx]", 0xE7910062),
        (b"ldr r0, [r1, r2, ror #7]", 0xE79103E2),
        (b"ldr r0, [r1], #4", 0xE4910004),
        (b"ldr r0, [r1], #-4095", 0xE4110FFF),
        (b"ldr r0, [r1], r2", 0xE6910002),
        (b"ldr r0, [r1], -r2, lsr #1", 0xE61100A2),
        (b"ldr r0, [r1], r2, rrx", 0xE6910062),
        (b"ldrb r0, [r1, #1]", 0xE5D10001),
        (b"ldrhib r0, [r1, r2]!", 0x87F10002),
        (b"ldrt r0, [r1], #4", 0xE4B10004),
        (b"ldreqt r0, [r1], r2, lsl #2", 0x06B10102),
        (b"ldrbt r0, [r1], #-1", 0xE4710001),
        (b"ldrmibt r0, [r1], -r2", 0x46710002),
        (b"str r0, [r1]", 0xE5810000),
        (b"str r0, [r1]!", 0xE5A10000),
        (b"str r0, [r1, #4]", 0xE5810004),
        (b"str r0, [r1, #-4]", 0xE5010004),
        (b"str r0, [r1, #4095]", 0xE5810FFF),
        (b"str r0, [r1, #-4095]!", 0xE5210FFF),
        (b"str r0, [r1, #0]", 0xE5810000),
        (b"str r0, [r1, r2]", 0xE7810002),
        (b"str r0, [r1, -r2]", 0xE7010002),
        (b"str r0, [r1, r2]!", 0xE7A10002),
        (b"str r0, [r1, r2, lsl #3]", 0xE7810182),
        (b"str r0, [r1, -r2, asr #32]!", 0xE7210042),
        (b"str r0, [r1, r2, rrx]", 0xE7810062),
        (b"str r0, [r1, r2, ror #7]", 0xE78103E2),
        (b"str r0, [r1], #4", 0xE4810004),
        (b"str r0, [r1], #-4095", 0xE4010FFF),
        (b"str r0, [r1], r2", 0xE6810002),
        (b"str r0, [r1], -r2, lsr #1", 0xE60100A2),
        (b"str r0, [r1], r2, rrx", 0xE6810062),
        (b"strb r0, [r1, #1]", 0xE5C10001),
        (b"strhib r0, [r1, r2]!", 0x87E10002),
        (b"strt r0, [r1], #4", 0xE4A10004),
        (b"streqt r0, [r1], r2, lsl #2", 0x06A10102),
        (b"strbt r0, [r1], #-1", 0xE4610001),
        (b"strmibt r0, [r1], -r2", 0x46610002),
    ];
    for &(source, word) in &CASES {
        assert!(rt;
            gives_word(rt.alloc(), source, word),
            "{source:?} isn't {word:08x}"
        );
    }
}

// Every form of an address, forward and backward, up to the greatest offset.
#[test]
fn the_other_transfers_are_encoded(rt: HostRuntime) {
    static CASES: [(&[u8], u32); 28] = [
        (b"ldrh r0, [r1]", 0xE1D100B0),
        (b"ldrh r0, [r1]!", 0xE1F100B0),
        (b"ldrh r0, [r1, #255]", 0xE1D10FBF),
        (b"ldrh r0, [r1, #-255]!", 0xE1710FBF),
        (b"ldrh r0, [r1, r2]", 0xE19100B2),
        (b"ldrh r0, [r1, -r2]!", 0xE13100B2),
        (b"ldrh r0, [r1], #2", 0xE0D100B2),
        (b"ldrh r0, [r1], #-2", 0xE05100B2),
        (b"ldrh r0, [r1], r2", 0xE09100B2),
        (b"ldrh r0, [r1], -r2", 0xE01100B2),
        (b"strh r0, [r1]", 0xE1C100B0),
        (b"strh r0, [r1]!", 0xE1E100B0),
        (b"strh r0, [r1, #255]", 0xE1C10FBF),
        (b"strh r0, [r1, #-255]!", 0xE1610FBF),
        (b"strh r0, [r1, r2]", 0xE18100B2),
        (b"strh r0, [r1, -r2]!", 0xE12100B2),
        (b"strh r0, [r1], #2", 0xE0C100B2),
        (b"strh r0, [r1], #-2", 0xE04100B2),
        (b"strh r0, [r1], r2", 0xE08100B2),
        (b"strh r0, [r1], -r2", 0xE00100B2),
        (b"ldrsb r0, [r1, #1]", 0xE1D100D1),
        (b"ldrsh r0, [r1, #-2]", 0xE15100F2),
        (b"ldreqsb r0, [r1], r2", 0x009100D2),
        (b"ldrlssh r0, [r1, r2]!", 0x91B100F2),
        (b"ldrcch r3, [r4]", 0x31D430B0),
        (b"strvsh r3, [r4]", 0x61C430B0),
        (b"ldr r1, [pc, #8]", 0xE59F1008),
        (b"str r15, [r0]", 0xE580F000),
    ];
    for &(source, word) in &CASES {
        assert!(rt;
            gives_word(rt.alloc(), source, word),
            "{source:?} isn't {word:08x}"
        );
    }
}

// Blocks in their four orders, swaps, the status registers, BX and SWI.
#[test]
fn blocks_swaps_and_status_are_encoded(rt: HostRuntime) {
    static CASES: [(&[u8], u32); 48] = [
        (b"ldmia r1, {r0, r2}", 0xE8910005),
        (b"ldmia r1!, {r0-r3, lr}", 0xE8B1400F),
        (b"ldmhiia sp!, {r4-r11}^", 0x88FD0FF0),
        (b"ldmib r1, {r0, r2}", 0xE9910005),
        (b"ldmib r1!, {r0-r3, lr}", 0xE9B1400F),
        (b"ldmhiib sp!, {r4-r11}^", 0x89FD0FF0),
        (b"ldmda r1, {r0, r2}", 0xE8110005),
        (b"ldmda r1!, {r0-r3, lr}", 0xE831400F),
        (b"ldmhida sp!, {r4-r11}^", 0x887D0FF0),
        (b"ldmdb r1, {r0, r2}", 0xE9110005),
        (b"ldmdb r1!, {r0-r3, lr}", 0xE931400F),
        (b"ldmhidb sp!, {r4-r11}^", 0x897D0FF0),
        (b"stmia r1, {r0, r2}", 0xE8810005),
        (b"stmia r1!, {r0-r3, lr}", 0xE8A1400F),
        (b"stmhiia sp!, {r4-r11}^", 0x88ED0FF0),
        (b"stmib r1, {r0, r2}", 0xE9810005),
        (b"stmib r1!, {r0-r3, lr}", 0xE9A1400F),
        (b"stmhiib sp!, {r4-r11}^", 0x89ED0FF0),
        (b"stmda r1, {r0, r2}", 0xE8010005),
        (b"stmda r1!, {r0-r3, lr}", 0xE821400F),
        (b"stmhida sp!, {r4-r11}^", 0x886D0FF0),
        (b"stmdb r1, {r0, r2}", 0xE9010005),
        (b"stmdb r1!, {r0-r3, lr}", 0xE921400F),
        (b"stmhidb sp!, {r4-r11}^", 0x896D0FF0),
        (b"ldmia r0, {r15}", 0xE8908000),
        (b"ldmia r13!, {r0-r12, pc}^", 0xE8FD9FFF),
        (b"stmdb sp!, {r0}", 0xE92D0001),
        (b"stmia r2, {r5, r1, r3}", 0xE882002A),
        (b"swp r0, r1, [r2]", 0xE1020091),
        (b"swpb r0, r1, [r2]", 0xE1420091),
        (b"swpeqb r3, r4, [r5]", 0x01453094),
        (b"swple r3, r4, [r5]", 0xD1053094),
        (b"mrs r0, cpsr", 0xE10F0000),
        (b"mrseq r1, spsr", 0x014F1000),
        (b"msr cpsr_f, r0", 0xE128F000),
        (b"msr cpsr_c, r0", 0xE121F000),
        (b"msr cpsr_x, r1", 0xE122F001),
        (b"msr cpsr_s, r1", 0xE124F001),
        (b"msr spsr_fsxc, r2", 0xE16FF002),
        (b"msrne cpsr_fc, r3", 0x1129F003),
        (b"msr cpsr_f, #0xf0000000", 0xE328F20F),
        (b"msr spsr_c, #0x1f", 0xE361F01F),
        (b"msr cpsr_sx, #0xff00", 0xE326FCFF),
        (b"bx lr", 0xE12FFF1E),
        (b"bxeq r0", 0x012FFF10),
        (b"swi #0", 0xEF000000),
        (b"swi #0xffffff", 0xEFFFFFFF),
        (b"swieq #0x123456", 0x0F123456),
    ];
    for &(source, word) in &CASES {
        assert!(rt;
            gives_word(rt.alloc(), source, word),
            "{source:?} isn't {word:08x}"
        );
    }
}

// Targets that are numbers, reckoned by hand from address 0: both ends of a branch and of a load, and lists as sets.
#[test]
fn what_numbers_lead_to_is_encoded(rt: HostRuntime) {
    static CASES: [(&[u8], u32); 43] = [
        (b"beq 0x100", 0x0A00003E),
        (b"bleq 0x100", 0x0B00003E),
        (b"bne 0x100", 0x1A00003E),
        (b"blne 0x100", 0x1B00003E),
        (b"bcs 0x100", 0x2A00003E),
        (b"blcs 0x100", 0x2B00003E),
        (b"bcc 0x100", 0x3A00003E),
        (b"blcc 0x100", 0x3B00003E),
        (b"bmi 0x100", 0x4A00003E),
        (b"blmi 0x100", 0x4B00003E),
        (b"bpl 0x100", 0x5A00003E),
        (b"blpl 0x100", 0x5B00003E),
        (b"bvs 0x100", 0x6A00003E),
        (b"blvs 0x100", 0x6B00003E),
        (b"bvc 0x100", 0x7A00003E),
        (b"blvc 0x100", 0x7B00003E),
        (b"bhi 0x100", 0x8A00003E),
        (b"blhi 0x100", 0x8B00003E),
        (b"bls 0x100", 0x9A00003E),
        (b"blls 0x100", 0x9B00003E),
        (b"bge 0x100", 0xAA00003E),
        (b"blge 0x100", 0xAB00003E),
        (b"blt 0x100", 0xBA00003E),
        (b"bllt 0x100", 0xBB00003E),
        (b"bgt 0x100", 0xCA00003E),
        (b"blgt 0x100", 0xCB00003E),
        (b"ble 0x100", 0xDA00003E),
        (b"blle 0x100", 0xDB00003E),
        (b"bal 0x100", 0xEA00003E),
        (b"blal 0x100", 0xEB00003E),
        (b"b 8", 0xEA000000),
        (b"b 0", 0xEAFFFFFE),
        (b"bl 0x2000004", 0xEB7FFFFF),
        (b"b 0xfe000008", 0xEA800000),
        (b"bl 0", 0xEBFFFFFE),
        (b"ldr r0, 8", 0xE59F0000),
        (b"ldr r0, 0x1007", 0xE59F0FFF),
        (b"ldrne r1, 0", 0x151F1008),
        (b"ldr r2, 0xfffff009", 0xE51F2FFF),
        (b"mov r0, r1, ror #0", 0xE1A00061),
        (b"ldmia r1, {}", 0xE8910000),
        (b"stmdb sp!, {}", 0xE92D0000),
        (b"ldmia r1, {r3-r3, r3, r0}", 0xE8910009),
    ];
    for &(source, word) in &CASES {
        assert!(rt;
            gives_word(rt.alloc(), source, word),
            "{source:?} isn't {word:08x}"
        );
    }
}
