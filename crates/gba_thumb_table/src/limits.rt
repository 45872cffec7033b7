//! Whether the fields of an operation fit their bits.

ghost use Rattle.std.specs.Prelude.{◌≡◌};
ghost use Rattle.gba_arm_table.specs.Limits.{within};
ghost use Rattle.gba_thumb_table.specs.Limits.{immediates_of, offsets_of, registers_of};

use crate::operation::ThumbOp;

pub fn registers_fit(op: ThumbOp) -> bool
    ensures { result ≡ within (registers_of op) }
{
    match op {
        ThumbOp::Format2 { i, x3, rs, rd, .. } => (i || x3 < 8) && rs < 8 && rd < 8,
        ThumbOp::Format1 { rs, rd, .. }
        | ThumbOp::Format4 { rs, rd, .. }
        | ThumbOp::Format5 { rs, rd, .. } => rs < 8 && rd < 8,
        ThumbOp::Format7 { ro, rb, rd, .. } | ThumbOp::Format8 { ro, rb, rd, .. } => ro < 8
            && rb < 8
            && rd < 8,
        ThumbOp::Format9 { rb, rd, .. } | ThumbOp::Format10 { rb, rd, .. } => rb < 8 && rd < 8,
        ThumbOp::Format3 { rd, .. }
        | ThumbOp::Format6 { rd, .. }
        | ThumbOp::Format11 { rd, .. }
        | ThumbOp::Format12 { rd, .. } => rd < 8,
        ThumbOp::Format15 { rb, .. } => rb < 8,
        _ => true,
    }
}

pub fn immediates_fit(op: ThumbOp) -> bool
    ensures { result ≡ within (immediates_of op) }
{
    match op {
        ThumbOp::Format1 { op, o5, .. } => op < 3 && o5 < 32,
        ThumbOp::Format2 { i, x3, .. } => !i || x3 < 8,
        ThumbOp::Format3 { op, n8, .. } => op < 4 && n8 < 256,
        ThumbOp::Format4 { op, .. } => op < 16,
        ThumbOp::Format5 { op, .. } => op < 4,
        ThumbOp::Format12 { n8, .. } | ThumbOp::Format17 { n8 } => n8 < 256,
        ThumbOp::Format13 { n7, .. } => n7 < 128,
        ThumbOp::Format14 { list8, .. } | ThumbOp::Format15 { list8, .. } => list8 < 256,
        ThumbOp::Format16 { cond, .. } => cond < 14,
        _ => true,
    }
}

pub fn offsets_fit(op: ThumbOp) -> bool
    ensures { result ≡ within (offsets_of op) }
{
    match op {
        ThumbOp::Format6 { n8, .. } | ThumbOp::Format11 { n8, .. } | ThumbOp::Format16 { n8, .. } =>
            n8 < 256,
        ThumbOp::Format9 { o5, .. } | ThumbOp::Format10 { o5, .. } => o5 < 32,
        ThumbOp::Format18 { n11 } | ThumbOp::Format19 { n11, .. } => n11 < 2048,
        _ => true,
    }
}
