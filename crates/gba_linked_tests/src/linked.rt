//! Consoles on a cable, and their logs: what is written is stated by hand, from the formats, the cycles of the programs
//! and the rules of transfers. The digests are those that `sha256sum` gives for these bytes.

use gba_link_tests::{
    AWAITS_MULTI, Answer, Content, Expected, STARTS_MULTI, bytes_of, call, is_as_expected, stored,
};
use gba_store::StoredFile;
use std::alloc::{AllocError, Global};
use std::process::Abort;
use std::test::Fail;
use std::thread::Threads;

/// The same start as that of [`STARTS_MULTI`], of KEYINPUT; only that of player 0 is one.
const SENDS_KEYS: [u32; 16] = [
    0xE3A0_5301, // 00 MOV r5, #04000000h
    0xE285_5C01, // 04 ADD r5, r5, #100h
    0xE3A0_0000, // 08 MOV r0, #0
    0xE1C5_03B4, // 0C STRH r0, [r5, #34h]: RCNT, at 3
    0xE1D5_03B0, // 10 LDRH r0, [r5, #30h]
    0xE1C5_02BA, // 14 STRH r0, [r5, #2Ah]
    0xE59F_0018, // 18 LDR r0, [r15, #18h]
    0xE1C5_02B8, // 1C STRH r0, [r5, #28h]
    0xE3A0_10C8, // 20 MOV r1, #200
    0xE251_1001, // 24 SUBS r1, r1, #1
    0x1AFF_FFFD, // 28 BNE 24h
    0xE59F_0008, // 2C LDR r0, [r15, #8]
    0xE1C5_02B8, // 30 STRH r0, [r5, #28h]: the start
    0xEAFF_FFFE, // 34 B to itself
    0x0000_2003, // 38
    0x0000_2083, // 3C
];

/// Normal8 with 5Ah, started at 408: 6 + 100 * 4 - 2 + 4 cycles. Then a loop from 410 on.
pub(crate) const STARTS_BYTE: [u32; 12] = [
    0xE3A0_5301, // 00 MOV r5, #04000000h
    0xE285_5C01, // 04 ADD r5, r5, #100h
    0xE3A0_0000, // 08 MOV r0, #0
    0xE1C5_03B4, // 0C STRH r0, [r5, #34h]: RCNT, at 3
    0xE3A0_1064, // 10 MOV r1, #100
    0xE251_1001, // 14 SUBS r1, r1, #1
    0x1AFF_FFFD, // 18 BNE 14h
    0xE3A0_005A, // 1C MOV r0, #5Ah
    0xE1C5_02BA, // 20 STRH r0, [r5, #2Ah]
    0xE3A0_0081, // 24 MOV r0, #81h
    0xE1C5_02B8, // 28 STRH r0, [r5, #28h]: the start
    0xEAFF_FFFE, // 2C B to itself
];

/// Normal8 with A5h and the outside clock. Then a loop from 11 on.
pub(crate) const AWAITS_BYTE: [u32; 9] = [
    0xE3A0_5301, // 00 MOV r5, #04000000h
    0xE285_5C01, // 04 ADD r5, r5, #100h
    0xE3A0_0000, // 08 MOV r0, #0
    0xE1C5_03B4, // 0C STRH r0, [r5, #34h]: RCNT, at 3
    0xE3A0_00A5, // 10 MOV r0, #A5h
    0xE1C5_02BA, // 14 STRH r0, [r5, #2Ah]
    0xE3A0_0080, // 18 MOV r0, #80h
    0xE1C5_02B8, // 1C STRH r0, [r5, #28h]
    0xEAFF_FFFE, // 20 B to itself
];

/// Normal32 with 01234567h, started at 13. Then a loop from 15 on.
const STARTS_WORD: [u32; 11] = [
    0xE3A0_5301, // 00 MOV r5, #04000000h
    0xE285_5C01, // 04 ADD r5, r5, #100h
    0xE3A0_0000, // 08 MOV r0, #0
    0xE1C5_03B4, // 0C STRH r0, [r5, #34h]: RCNT, at 3
    0xE59F_000C, // 10 LDR r0, [r15, #0Ch]
    0xE585_0020, // 14 STR r0, [r5, #20h]
    0xE59F_0008, // 18 LDR r0, [r15, #8]
    0xE1C5_02B8, // 1C STRH r0, [r5, #28h]: the start
    0xEAFF_FFFE, // 20 B to itself
    0x0123_4567, // 24
    0x0000_1081, // 28
];

/// Two consoles in Multi, in another spelling than the log's.
const TWO: &str =
    "# a cable\ngbalink 1\n\ncycles 010000\nconsole 0\nout state\nbios b\nout words\n#\nconsole 1\nkeys k\nout words\nbios c\nout state\nend";

/// The key file of console 1. At the end its keys are 201h.
const KEYS: &str = "# pressed\n5 001\n\n9000\t201\r\n20000 000";

/// The end comes 18 * 2 * 145 cycles after the start.
const TWO_WORDS: &str = "6037 multi 1234 abcd ffff ffff 0\n";

/// The first step at or past 10,000 ends at 819 + 3,061 * 3. SIOCNT is 6003h, and its interrupt is requested.
const FIRST_STATE: &str =
    "gbalink-state 1\nconsole 0\nclock 10002\nhalted 0\nr0 00006083\nr1 00000000\nr2 00000000\nr3 00000000\n\
r4 00000000\nr5 04000100\nr6 00000000\nr7 00000000\nr8 00000000\nr9 00000000\nr10 00000000\nr11 00000000\n\
r12 00000000\nr13 00000000\nr14 00000000\nr15 00000034\nr8_fiq 00000000\nr9_fiq 00000000\nr10_fiq 00000000\n\
r11_fiq 00000000\nr12_fiq 00000000\nr13_fiq 00000000\nr14_fiq 00000000\nr13_irq 00000000\nr14_irq 00000000\n\
r13_svc 00000000\nr14_svc 00000000\nr13_abt 00000000\nr14_abt 00000000\nr13_und 00000000\nr14_und 00000000\n\
cpsr 600000d3\nspsr_fiq 00000000\nspsr_irq 00000000\nspsr_svc 00000000\nspsr_abt 00000000\nspsr_und 00000000\n\
timer 0 0 0 0 0\ntimer 1 0 0 0 0\ntimer 2 0 0 0 0\ntimer 3 0 0 0 0\ndma 0 0 0 0 0 0\ndma 1 0 0 0 0 0\n\
dma 2 0 0 0 0 0\ndma 3 0 0 0 0 0\nqueue A 00 0 -\nqueue B 00 0 -\nsequencer 0\ntone 1 0 0 0 0 0 0 0 0\ntone 2 0 0 0 0 0 0 0 0\ntone 3 0 0 0 0 0 0 0 0\ntone 4 0 0 0 0 0 0 0 0\nwave 0 00000000000000000000000000000000\nwave 1 00000000000000000000000000000000\nposition 8 146\naffine 2 00000000 00000000\n\
affine 3 00000000 00000000\nserial 2 0 0 0 0 0 0\nknown 3 2 3 3\n\
mem io 000000 0000000000000800000000000000000000000000000000000000000000000000\n\
mem io 000080 0000000000000000000200000000000000000000000000000000000000000000\n\
mem io 000120 3412cdabffffffff0360341200000000ff030000000000000000000000000000\n\
mem io 000200 0000800000000000000000000000000000000000000000000000000000000000\n";

/// The step ends at 16 + 3,328 * 3. SIOCNT has the player's number, and isn't the first console's.
const SECOND_STATE: &str =
    "gbalink-state 1\nconsole 1\nclock 10000\nhalted 0\nr0 00002003\nr1 00000000\nr2 00000000\nr3 00000000\n\
r4 00000000\nr5 04000100\nr6 00000000\nr7 00000000\nr8 00000000\nr9 00000000\nr10 00000000\nr11 00000000\n\
r12 00000000\nr13 00000000\nr14 00000000\nr15 00000024\nr8_fiq 00000000\nr9_fiq 00000000\nr10_fiq 00000000\n\
r11_fiq 00000000\nr12_fiq 00000000\nr13_fiq 00000000\nr14_fiq 00000000\nr13_irq 00000000\nr14_irq 00000000\n\
r13_svc 00000000\nr14_svc 00000000\nr13_abt 00000000\nr14_abt 00000000\nr13_und 00000000\nr14_und 00000000\n\
cpsr 000000d3\nspsr_fiq 00000000\nspsr_irq 00000000\nspsr_svc 00000000\nspsr_abt 00000000\nspsr_und 00000000\n\
timer 0 0 0 0 0\ntimer 1 0 0 0 0\ntimer 2 0 0 0 0\ntimer 3 0 0 0 0\ndma 0 0 0 0 0 0\ndma 1 0 0 0 0 0\n\
dma 2 0 0 0 0 0\ndma 3 0 0 0 0 0\nqueue A 00 0 -\nqueue B 00 0 -\nsequencer 0\ntone 1 0 0 0 0 0 0 0 0\ntone 2 0 0 0 0 0 0 0 0\ntone 3 0 0 0 0 0 0 0 0\ntone 4 0 0 0 0 0 0 0 0\nwave 0 00000000000000000000000000000000\nwave 1 00000000000000000000000000000000\nposition 8 144\naffine 2 00000000 00000000\n\
affine 3 00000000 00000000\nserial 2 0 0 0 0 0 0\nknown 2 3 3 3\n\
mem io 000000 0000000000000800000000000000000000000000000000000000000000000000\n\
mem io 000080 0000000000000000000200000000000000000000000000000000000000000000\n\
mem io 000120 3412cdabffffffff1720cdab00000000fe010000000000000000000000000000\n";

/// The log of the two consoles.
const TWO_LOG: &str = "gbalink 2\ncycles 10000\nlink 0 1 512\nlink 1 0 512\nconsole 0\n\
bios b sha256 05cde85c2cd4f991045b48b9a2bca9a139c000f6c72d424ac6a7b46e5fe9adf5\n\
out words sha256 4cee999209fc00d1e7484c00cd09baa8f06250c103e845adfe296696a21d373d\n\
out state sha256 93161088378da68b56390d9ff786dcb5f00451272328744bef0538d2a1c3a3a3\nconsole 1\n\
bios c sha256 043edf6bcebf0b42da22d4b153cbc220ef528093fbc5ad92c215d6018e71b97b\nkey 5 001\nkey 9000 201\n\
key 20000 000\nout words sha256 4cee999209fc00d1e7484c00cd09baa8f06250c103e845adfe296696a21d373d\n\
out state sha256 12e5c3d66a2132fefa093f2bfae1aa068194994ec4d34738778ee29adf2a78ef\nend\n";

/// Their summary.
const TWO_REPORT: &str =
    "console 0 clock 10002 frames 0 samples 19 words 1\nconsole 1 clock 10000 frames 0 samples 19 words 1\n\
log f58841f6a4400cbc3c9bd036280949b70356d851b956fc92698b9a2b995c3962\n";

/// Four consoles, whose words are their keys.
const FOUR: &str =
    "gbalink 1\ncycles 12000\ndelay 1000\nconsole 0\nbios b\nkey 0 001\nout words\nconsole 1\nbios b\nkey 0 002\n\
out samples\nout words\nconsole 2\nbios b\nkey 0 004\nout frames\nout words\nconsole 3\nbios b\nkey 0 008\n\
out save\nout words\nend\n";

/// The end comes 18 * 4 * 145 cycles after the start.
const FOUR_WORDS: &str = "11257 multi 03fe 03fd 03fb 03f7 0\n";

/// The log of the four consoles. Console 2 has no whole frame.
const FOUR_LOG: &str =
    "gbalink 2\ncycles 12000\nlink 0 1 1000\nlink 0 2 1000\nlink 0 3 1000\nlink 1 0 1000\nlink 1 2 1000\nlink 1 3 1000\nlink 2 0 1000\nlink 2 1 1000\nlink 2 3 1000\nlink 3 0 1000\nlink 3 1 1000\nlink 3 2 1000\nconsole 0\n\
bios b sha256 89364a8ce0fb5104679526389974a096ee083c01a13f8cd59e220a9be0020072\nkey 0 001\n\
out words sha256 d11bd10d0c0aa1f6b9f6b0b2b8f6063d76ab8bbfd96b2b47eb08594d81c0bc81\nconsole 1\n\
bios b sha256 89364a8ce0fb5104679526389974a096ee083c01a13f8cd59e220a9be0020072\nkey 0 002\n\
out samples sha256 62b14867e4e79d50673d2f7474335229f54c478f56d2a910235e1953c6d29206\n\
out words sha256 d11bd10d0c0aa1f6b9f6b0b2b8f6063d76ab8bbfd96b2b47eb08594d81c0bc81\nconsole 2\n\
bios b sha256 89364a8ce0fb5104679526389974a096ee083c01a13f8cd59e220a9be0020072\nkey 0 004\n\
out frames sha256 e3b0c44298fc1c149afbf4c8996fb92427ae41e4649b934ca495991b7852b855\n\
out words sha256 d11bd10d0c0aa1f6b9f6b0b2b8f6063d76ab8bbfd96b2b47eb08594d81c0bc81\nconsole 3\n\
bios b sha256 89364a8ce0fb5104679526389974a096ee083c01a13f8cd59e220a9be0020072\nkey 0 008\n\
out words sha256 d11bd10d0c0aa1f6b9f6b0b2b8f6063d76ab8bbfd96b2b47eb08594d81c0bc81\n\
out save sha256 2d864c0b789a43214eee8524d3182075125e5ca2cd527f3582ec87ffd94076bc\nend\n";

/// Their summary: 819 + 3,727 * 3 is 12,000.
const FOUR_REPORT: &str =
    "console 0 clock 12000 frames 0 samples 23 words 1\nconsole 1 clock 12000 frames 0 samples 23 words 1\n\
console 2 clock 12000 frames 0 samples 23 words 1\nconsole 3 clock 12000 frames 0 samples 23 words 1\n\
log 4a45939ab3009e5cd54cf4cc3e14e82b4f6c4b37a7add38dccd22da7ffcd234a\n";

/// The log of a byte over the shortest delay.
const BYTE_LOG: &str = "gbalink 2\ncycles 3000\nlink 0 1 1\nlink 1 0 1\nconsole 0\n\
bios b sha256 e1ce6b6a88418e87da36e9a668019c3d7e70fb2510aaaf5de7583768a4446ebe\n\
out words sha256 dec946359235e1c75e59e83e6c40ffdb670b8fb694a686c3b0a441ff8315cfd9\nconsole 1\n\
bios c sha256 2229f53b78afe0f30febb2e13738d9311b1663b0bcc223fce9b279540b8b9ad6\n\
out words sha256 718fadf919307721700dc50330bae99c022cf21f4eae7d7af158e32545804cf1\nend\n";

/// Its summary.
const BYTE_REPORT: &str =
    "console 0 clock 3002 frames 0 samples 5 words 1\nconsole 1 clock 3002 frames 0 samples 5 words 1\n\
log adec26164570b4682c029a09788c1d7ecdb79aa45e9e51c46cadaf6d43b124a6\n";

/// The log of two starts in Normal32.
const WORD_LOG: &str = "gbalink 2\ncycles 3000\nlink 0 1 512\nlink 1 0 512\nconsole 0\n\
bios b sha256 f3a102aea9e772cbd2e57f90385d14e24616a9766001503992913e3e90bd205b\n\
out words sha256 86d0c91863cfea7afa0a9875e39c896433990212487a7da9be5d74537bb4391a\nconsole 1\n\
bios b sha256 f3a102aea9e772cbd2e57f90385d14e24616a9766001503992913e3e90bd205b\n\
out words sha256 86d0c91863cfea7afa0a9875e39c896433990212487a7da9be5d74537bb4391a\nend\n";

/// Its summary.
const WORD_REPORT: &str =
    "console 0 clock 3000 frames 0 samples 5 words 1\nconsole 1 clock 3000 frames 0 samples 5 words 1\n\
log d373d30ae07d067fd3b2f3fa956a3a2d0ddfb097543215be159060c0d75373b7\n";

/// Normal8 with 5Ah at 2 MHz, started at 408, as above but for the speed.
const STARTS_FAST: [u32; 12] = [
    0xE3A0_5301,
    0xE285_5C01,
    0xE3A0_0000,
    0xE1C5_03B4,
    0xE3A0_1064,
    0xE251_1001,
    0x1AFF_FFFD,
    0xE3A0_005A,
    0xE1C5_02BA,
    0xE3A0_0083, // MOV r0, #83h
    0xE1C5_02B8,
    0xEAFF_FFFE,
];

/// Branches to itself from the first step on.
const LOOPS: [u32; 1] = [0xEAFF_FFFE];

/// The log of a byte over a cable with a short way and a long way back.
const UNEVEN_LOG: &str = "gbalink 2\n\
cycles 3000\n\
link 0 1 1\n\
link 1 0 1024\n\
console 0\n\
bios b sha256 332d1a88bd1f0f5459845e7c3b7419c22c21752135208fc0a4a48428aa00ab55\n\
out words sha256 11c022a726e53cb7752fe65d6d1710969550f46e2768e9852dd0cec48bfbda80\n\
console 1\n\
bios c sha256 2229f53b78afe0f30febb2e13738d9311b1663b0bcc223fce9b279540b8b9ad6\n\
out words sha256 6a239b23d6a8986d80a84baaaec1b593b47f7c2cea14aedbfbc6be1daf542515\n\
end\n";

/// Its summary.
const UNEVEN_REPORT: &str = "console 0 clock 3002 frames 0 samples 5 words 1\n\
console 1 clock 3002 frames 0 samples 5 words 1\n\
log a206af0093e57008ec02f1b2de9e432f66c74a064e2ceaae048c496317d37076\n";

/// The log of a transfer in which a reply comes before its start.
const EARLY_LOG: &str = "gbalink 2\n\
cycles 9000\n\
link 0 1 1\n\
link 0 2 1024\n\
link 1 0 512\n\
link 1 2 1\n\
link 2 0 512\n\
link 2 1 512\n\
console 0\n\
bios b sha256 05cde85c2cd4f991045b48b9a2bca9a139c000f6c72d424ac6a7b46e5fe9adf5\n\
out words sha256 883af0dc7b2949ea0634bd1c5e100a15c6a17dbfadbb1b48280dd194e7472149\n\
console 1\n\
bios c sha256 043edf6bcebf0b42da22d4b153cbc220ef528093fbc5ad92c215d6018e71b97b\n\
out words sha256 883af0dc7b2949ea0634bd1c5e100a15c6a17dbfadbb1b48280dd194e7472149\n\
console 2\n\
bios c sha256 043edf6bcebf0b42da22d4b153cbc220ef528093fbc5ad92c215d6018e71b97b\n\
out words sha256 e2494c59a642920793b3f66e5b6a27b681ae8bea9ea83afe71a63331cc27be13\n\
end\n";

/// Its summary.
const EARLY_REPORT: &str = "console 0 clock 9000 frames 0 samples 17 words 1\n\
console 1 clock 9001 frames 0 samples 17 words 1\n\
console 2 clock 9001 frames 0 samples 17 words 1\n\
log e0540a4ebced3ab9ba4dbe22e29656be23da57ac05863ac64f8975895599e665\n";

/// The log of a console that is off below 1,000.
const OFF_LOG: &str = "gbalink 2\n\
cycles 1009\n\
link 0 1 512\n\
link 1 0 512\n\
console 0\n\
bios b sha256 42bc114dbdbbee2e759ce16f2cb8804ae18fefe935a14951d0e07af2a3401d8b\n\
off 1000\n\
out samples sha256 e3b0c44298fc1c149afbf4c8996fb92427ae41e4649b934ca495991b7852b855\n\
end\n";

/// Its summary.
const OFF_REPORT: &str = "console 0 clock 1011 frames 0 samples 0 words 0\n\
log 3359e615ce13d5a8b1a375ff7cf77f13024d77792a7a0450c19e6bd044340cef\n";

/// The log of a console alone, with the delays between it and the player that it hasn't.
const ONE_LOG: &str = "gbalink 2\n\
cycles 3000\n\
link 0 1 1\n\
link 1 0 1\n\
console 0\n\
bios b sha256 332d1a88bd1f0f5459845e7c3b7419c22c21752135208fc0a4a48428aa00ab55\n\
out words sha256 c02da1bcfc419932b0f423c519ea1aaf17cc1b6a0b430a225a3e33bc3c656f43\n\
end\n";

/// Its summary.
const ONE_REPORT: &str = "console 0 clock 3002 frames 0 samples 5 words 1\n\
log 0f5268a12c92919ff8c2f02df60b72d723bb2267383b2f93f05a20c59b30c784\n";

use Content::{Code, Filled, Text};

/// A job with its other inputs, and what its run reports and writes, by what the names of its files have behind OUT.
#[derive(Clone, Copy)]
struct Linked<'a> {
    job: &'a str,
    inputs: &'a [(&'a str, Content<'a>)],
    report: &'a str,
    written: &'a [(&'a str, Content<'a>)],
}

const TWO_INPUTS: &[(&str, Content<'static>)] = &[
    ("b", Code(&STARTS_MULTI)),
    ("c", Code(&AWAITS_MULTI)),
    ("k", Text(KEYS)),
];

/// Both have both words.
const TWO_FILES: &[(&str, Content<'static>)] = &[
    (".0.words", Text(TWO_WORDS)),
    (".0.state", Text(FIRST_STATE)),
    (".1.words", Text(TWO_WORDS)),
    (".1.state", Text(SECOND_STATE)),
    (".log", Text(TWO_LOG)),
];

/// The run of two consoles, whose states are told too. It stands by itself, since a list with so much text in it is
/// checked slowly.
static LINKED_PAIR: Linked<'static> = Linked {
    job: TWO,
    inputs: TWO_INPUTS,
    report: TWO_REPORT,
    written: TWO_FILES,
};

fn linked_pair() -> &'static Linked<'static> {
    &LINKED_PAIR
}

static LINKED: [Linked<'static>; 7] = [
    // All have all words. There are 23 pairs of samples, and the SRAM is full of FFh.
    Linked {
        job: FOUR,
        inputs: &[("b", Code(&SENDS_KEYS))],
        report: FOUR_REPORT,
        written: &[
            (".0.words", Text(FOUR_WORDS)),
            (".1.samples", Filled(92, 0)),
            (".1.words", Text(FOUR_WORDS)),
            (".2.frames", Filled(0, 0)),
            (".2.words", Text(FOUR_WORDS)),
            (".3.words", Text(FOUR_WORDS)),
            (".3.save", Filled(32_768, 0xFF)),
            (".log", Text(FOUR_LOG)),
        ],
    },
    // Each has the other's byte. The transfer takes 2 cycles of the delay and 514, which are more than 8 times 64.
    Linked {
        job: "gbalink 1\ncycles 3000\ndelay 1\nconsole 0\nbios b\nout words\nconsole 1\nbios c\nout words\nend\n",
        inputs: &[("b", Code(&STARTS_BYTE)), ("c", Code(&AWAITS_BYTE))],
        report: BYTE_REPORT,
        written: &[
            (".0.words", Text("924 normal8 5a a5\n")),
            (".1.words", Text("924 normal8 a5 5a\n")),
            (".log", Text(BYTE_LOG)),
        ],
    },
    // Both start at 13, and neither answers. The transfer takes 32 times 64 cycles.
    Linked {
        job: "gbalink 1\ncycles 3000\nconsole 0\nbios b\nout words\nconsole 1\nbios b\nout words\nend\n",
        inputs: &[("b", Code(&STARTS_WORD))],
        report: WORD_REPORT,
        written: &[
            (".0.words", Text("2061 normal32 01234567 ffffffff\n")),
            (".1.words", Text("2061 normal32 01234567 ffffffff\n")),
            (".log", Text(WORD_LOG)),
        ],
    },
    // The ways there and back are 1 and 1,024 cycles, and 514 more are the end.
    Linked {
        job: "gbalink 2\ncycles 3000\nlink 1 0 1024\nlink 0 1 1\nconsole 0\nbios b\nout words\nconsole 1\nbios c\nout words\nend\n",
        inputs: &[("b", Code(&STARTS_FAST)), ("c", Code(&AWAITS_BYTE))],
        report: UNEVEN_REPORT,
        written: &[
            (".0.words", Text("1947 normal8 5a a5\n")),
            (".1.words", Text("1947 normal8 a5 5a\n")),
            (".log", Text(UNEVEN_LOG)),
        ],
    },
    // Player 1's reply comes to player 2 before the start does, and is lost there. The end comes 18 * 3 * 145 cycles
    // after the start.
    Linked {
        job: "gbalink 2\ncycles 9000\nlink 0 1 1\nlink 1 2 1\nlink 0 2 1024\nconsole 0\nbios b\nout words\nconsole 1\nbios c\nout words\nconsole 2\nbios c\nout words\nend\n",
        inputs: &[("b", Code(&STARTS_MULTI)), ("c", Code(&AWAITS_MULTI))],
        report: EARLY_REPORT,
        written: &[
            (".0.words", Text("8647 multi 1234 abcd abcd ffff 0\n")),
            (".1.words", Text("8647 multi 1234 abcd abcd ffff 0\n")),
            (".2.words", Text("8647 multi 1234 ffff abcd ffff 1\n")),
            (".log", Text(EARLY_LOG)),
        ],
    },
    // Its first step begins at 1,008.
    Linked {
        job: "gbalink 2\ncycles 1009\nconsole 0\noff 1000\nbios b\nout samples\nend\n",
        inputs: &[("b", Code(&LOOPS))],
        report: OFF_REPORT,
        written: &[(".0.samples", Filled(0, 0)), (".log", Text(OFF_LOG))],
    },
    // A job of version 1. The transfer takes 2 cycles of the delay and 514, and nobody answers.
    Linked {
        job: "gbalink 1\ncycles 3000\ndelay 1\nconsole 0\nbios b\nout words\nend\n",
        inputs: &[("b", Code(&STARTS_FAST))],
        report: ONE_REPORT,
        written: &[
            (".0.words", Text("924 normal8 5a ff\n")),
            (".log", Text(ONE_LOG)),
        ],
    },
];

/// All others.
fn more_linked() -> &'static [Linked<'static>] {
    &LINKED
}

/// A job, and the inputs beside it but for the one of this name.
fn files_of(
    alloc: Global,
    job: StoredFile,
    inputs: &[(&str, Content<'_>)],
    left_out: &str,
) -> Result<Vec<StoredFile>, AllocError> {
    let mut files = vec![in alloc; job]?;
    for &(name, content) in inputs {
        if name != left_out {
            files.push(stored(alloc, name, bytes_of(alloc, content)?)?)?;
        }
    }
    Ok(files)
}

/// A run of a job with OUT `g`.
fn run_job<R: Abort + Threads + Sync>(
    rt: &R,
    alloc: Global,
    job: &str,
    inputs: &[(&str, Content<'_>)],
) -> Result<Answer, Fail> {
    let job = stored(alloc, "j", Vec::from_slice(alloc, job.as_bytes())?)?;
    let files = files_of(alloc, job, inputs, "")?;
    call(rt, alloc, &["run", "j", "g"], files)
}

/// The name of a run's file with this ending.
pub(crate) fn name_of(alloc: Global, out: &str, ending: &str) -> Result<String, AllocError> {
    let mut name = String::from_str(alloc, out)?;
    name.push_str(ending)?;
    Ok(name)
}

/// What the names of a run's files have behind OUT.
static ENDINGS: [&str; 21] = [
    ".0.frames",
    ".0.samples",
    ".0.words",
    ".0.state",
    ".0.save",
    ".1.frames",
    ".1.samples",
    ".1.words",
    ".1.state",
    ".1.save",
    ".2.frames",
    ".2.samples",
    ".2.words",
    ".2.state",
    ".2.save",
    ".3.frames",
    ".3.samples",
    ".3.words",
    ".3.state",
    ".3.save",
    ".log",
];

/// What the file with this ending is to have, where just these are written.
fn expected_of<'a>(written: &[(&str, Content<'a>)], ending: &str) -> Expected<'a> {
    for &(one, content) in written {
        if one == ending {
            return Expected::Is(content);
        }
    }
    Expected::Absent
}

/// A call wrote these files, and no others of a run with OUT `g`.
fn wrote<R: Abort>(
    rt: &R,
    alloc: Global,
    answer: &Answer,
    written: &[(&str, Content<'_>)],
) -> Result<(), Fail> {
    for &ending in &ENDINGS {
        let name = name_of(alloc, "g", ending)?;
        let expected = expected_of(written, ending);
        let found = answer.bytes(name.as_str());
        assert!(rt; is_as_expected(alloc, found, expected)?, "in {name}");
    }
    Ok(())
}

/// A call with OUT `g` ended so, and wrote these files.
fn came_to<R: Abort>(
    rt: &R,
    alloc: Global,
    answer: &Answer,
    status: u8,
    report: &str,
    written: &[(&str, Content<'_>)],
) -> Result<(), Fail> {
    assert_eq!(rt; answer.status, status);
    assert_eq!(rt; answer.report(), report.as_bytes());
    wrote(rt, alloc, answer, written)
}

/// A run comes to what is told of it.
fn writes_as_told<R: Abort + Threads + Sync>(
    rt: &R,
    alloc: Global,
    one: &Linked<'_>,
) -> Result<(), Fail> {
    let answer = run_job(rt, alloc, one.job, one.inputs)?;
    came_to(rt, alloc, &answer, 0, one.report, one.written)
}

/// Runs of one to four consoles, and what they write.
#[test]
fn consoles_are_linked(rt: HostRuntime) -> Result<(), Fail> {
    writes_as_told(&rt, rt.alloc(), linked_pair())?;
    for one in more_linked() {
        writes_as_told(&rt, rt.alloc(), one)?;
    }
    Ok(())
}

/// The bytes that a call wrote under a name, as a file of the next call's.
fn written_as(
    alloc: Global,
    answer: &Answer,
    name: &str,
    kept: &str,
) -> Result<StoredFile, AllocError> {
    let bytes = answer.bytes(name).unwrap_or(b"".as_slice());
    stored(alloc, kept, Vec::from_slice(alloc, bytes)?)
}

/// A call with OUT `h` wrote the same files as one with OUT `g`.
fn wrote_the_same<R: Abort>(
    rt: &R,
    alloc: Global,
    first: &Answer,
    second: &Answer,
) -> Result<(), Fail> {
    assert_eq!(rt; second.status, 0);
    assert_eq!(rt; second.report(), first.report());
    for &ending in &ENDINGS {
        let one = name_of(alloc, "g", ending)?;
        let other = name_of(alloc, "h", ending)?;
        assert!(rt;
            second.bytes(other.as_str()) == first.bytes(one.as_str()),
            "in {other}"
        );
    }
    Ok(())
}

/// The log of a run is a job, whose run writes the same files and the same log, though the key file is gone.
fn is_run_again<R: Abort + Threads + Sync>(
    rt: &R,
    alloc: Global,
    one: &Linked<'_>,
) -> Result<(), Fail> {
    let first = run_job(rt, alloc, one.job, one.inputs)?;
    let log = written_as(alloc, &first, "g.log", "l")?;
    let files = files_of(alloc, log, one.inputs, "k")?;
    let second = call(rt, alloc, &["run", "l", "h"], files)?;
    wrote_the_same(rt, alloc, &first, &second)
}

#[test]
fn logs_are_run_again(rt: HostRuntime) -> Result<(), Fail> {
    is_run_again(&rt, rt.alloc(), linked_pair())?;
    for one in more_linked() {
        is_run_again(&rt, rt.alloc(), one)?;
    }
    Ok(())
}

/// Digests that the job of two consoles states of an input and of two outputs, and what its run answers and writes.
#[derive(Clone, Copy)]
struct Stated<'a> {
    image: &'a str,
    state: &'a str,
    words: &'a str,
    status: u8,
    report: &'a str,
    written: &'a [(&'a str, Content<'a>)],
}

static STATED: [Stated<'static>; 5] = [
    Stated {
        image: " sha256 043EDF6BCEBF0B42DA22D4B153CBC220EF528093FBC5AD92C215D6018E71B97B",
        state: " sha256 93161088378da68b56390d9ff786dcb5f00451272328744bef0538d2a1c3a3a3",
        words: " sha256 4CEE999209FC00D1E7484C00CD09BAA8F06250C103E845ADFE296696A21D373D",
        status: 0,
        report: TWO_REPORT,
        written: TWO_FILES,
    },
    Stated {
        image: "",
        state: " sha256 1111111111111111111111111111111111111111111111111111111111111111",
        words: "",
        status: 7,
        report: "digest g.0.state stated 1111111111111111111111111111111111111111111111111111111111111111 got 93161088378da68b56390d9ff786dcb5f00451272328744bef0538d2a1c3a3a3\n",
        written: TWO_FILES,
    },
    Stated {
        image: "",
        state: "",
        words: " sha256 93161088378DA68B56390D9FF786DCB5F00451272328744BEF0538D2A1C3A3A3",
        status: 7,
        report: "digest g.1.words stated 93161088378da68b56390d9ff786dcb5f00451272328744bef0538d2a1c3a3a3 got 4cee999209fc00d1e7484c00cd09baa8f06250c103e845adfe296696a21d373d\n",
        written: TWO_FILES,
    },
    Stated {
        image: "",
        state: " sha256 1111111111111111111111111111111111111111111111111111111111111111",
        words: " sha256 1111111111111111111111111111111111111111111111111111111111111111",
        status: 7,
        report: "digest g.0.state stated 1111111111111111111111111111111111111111111111111111111111111111 got 93161088378da68b56390d9ff786dcb5f00451272328744bef0538d2a1c3a3a3\n",
        written: TWO_FILES,
    },
    Stated {
        image: " sha256 93161088378da68b56390d9ff786dcb5f00451272328744bef0538d2a1c3a3a3",
        state: " sha256 1111111111111111111111111111111111111111111111111111111111111111",
        words: "",
        status: 7,
        report: "digest c stated 93161088378da68b56390d9ff786dcb5f00451272328744bef0538d2a1c3a3a3 got 043edf6bcebf0b42da22d4b153cbc220ef528093fbc5ad92c215d6018e71b97b\n",
        written: &[],
    },
];

/// The job of two consoles with these digests.
fn job_of(alloc: Global, one: &Stated<'_>) -> Result<String, AllocError> {
    let (image, state, words) = (one.image, one.state, one.words);
    format!(in alloc;
        "gbalink 1\ncycles 10000\nconsole 0\nbios b\nout words\nout state{state}\nconsole 1\nkeys k\nbios c{image}\nout state\nout words{words}\nend\n"
    )
}

fn is_compared<R: Abort + Threads + Sync>(
    rt: &R,
    alloc: Global,
    one: &Stated<'_>,
) -> Result<(), Fail> {
    let job = job_of(alloc, one)?;
    let answer = run_job(rt, alloc, job.as_str(), TWO_INPUTS)?;
    came_to(rt, alloc, &answer, one.status, one.report, one.written)
}

/// A stated digest that differs: of an input before anything is written, and of an output once all files are whole, the
/// log with the digests of what was written. Of several outputs the first is told, and no summary comes.
#[test]
fn stated_digests_are_compared(rt: HostRuntime) -> Result<(), Fail> {
    for one in &STATED {
        is_compared(&rt, rt.alloc(), one)?;
    }
    Ok(())
}
