//! Programs of two consoles on a cable, which end a transfer with each other.

/// Multi at speed 3 with 1234h, started at 817: 16 + 200 * 4 - 2 + 3 cycles. Then a loop of 3 cycles from 819 on.
pub const STARTS_MULTI: [u32; 17] = [
    0xE3A0_5301, // 00 MOV r5, #04000000h
    0xE285_5C01, // 04 ADD r5, r5, #100h
    0xE3A0_0000, // 08 MOV r0, #0
    0xE1C5_03B4, // 0C STRH r0, [r5, #34h]: RCNT, at 3
    0xE59F_0020, // 10 LDR r0, [r15, #20h]
    0xE1C5_02BA, // 14 STRH r0, [r5, #2Ah]: the send word
    0xE59F_001C, // 18 LDR r0, [r15, #1Ch]
    0xE1C5_02B8, // 1C STRH r0, [r5, #28h]: SIOCNT, at 13
    0xE3A0_10C8, // 20 MOV r1, #200
    0xE251_1001, // 24 SUBS r1, r1, #1
    0x1AFF_FFFD, // 28 BNE 24h
    0xE59F_000C, // 2C LDR r0, [r15, #0Ch]
    0xE1C5_02B8, // 30 STRH r0, [r5, #28h]: the start
    0xEAFF_FFFE, // 34 B to itself
    0x0000_1234, // 38
    0x0000_6003, // 3C
    0x0000_6083, // 40
];

/// In Multi from 13 on with ABCDh. Then a loop of 3 cycles from 16 on.
pub const AWAITS_MULTI: [u32; 12] = [
    0xE3A0_5301, // 00 MOV r5, #04000000h
    0xE285_5C01, // 04 ADD r5, r5, #100h
    0xE3A0_0000, // 08 MOV r0, #0
    0xE1C5_03B4, // 0C STRH r0, [r5, #34h]: RCNT, at 3
    0xE59F_0010, // 10 LDR r0, [r15, #10h]
    0xE1C5_02BA, // 14 STRH r0, [r5, #2Ah]
    0xE59F_000C, // 18 LDR r0, [r15, #0Ch]
    0xE1C5_02B8, // 1C STRH r0, [r5, #28h]
    0xE3A0_1000, // 20 MOV r1, #0
    0xEAFF_FFFE, // 24 B to itself
    0x0000_ABCD, // 28
    0x0000_2003, // 2C
];
