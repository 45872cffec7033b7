//! The arithmetic of colours, part by part.

/// Part `number` of a colour: red is 0, green 1, blue 2.
fn part(colour: u16, number: usize) -> u16 {
    match number {
        0 => colour % 32,
        1 => colour / 32 % 32,
        _ => colour / 1024 % 32,
    }
}

fn joined(parts: [u16; 3]) -> u16 {
    parts[0] % 32 + parts[1] % 32 * 32 + parts[2] % 32 * 1024
}

fn alpha_part(top: u16, below: u16, eva: u8, evb: u8) -> u16 {
    let front = top.wrapping_mul(u16::from(eva));
    let back = below.wrapping_mul(u16::from(evb));
    (front.wrapping_add(back) / 16).min(31)
}

fn brighter_part(part: u16, evy: u8) -> u16 {
    let room = 31u16.saturating_sub(part);
    part.wrapping_add(room.wrapping_mul(u16::from(evy)) / 16)
}

fn darker_part(part: u16, evy: u8) -> u16 {
    part.wrapping_sub(part.wrapping_mul(u16::from(evy)) / 16)
}

/// A colour and the one behind it, blended by coefficients from 0 to 16.
pub(crate) fn alpha_of(top: u16, below: u16, eva: u8, evb: u8) -> u16 {
    let mut parts = [0; 3];
    for number in 0..3 {
        parts[number] = alpha_part(part(top, number), part(below, number), eva, evb);
    }
    joined(parts)
}

/// A brighter colour, by a coefficient from 0 to 16.
pub(crate) fn brighter_of(colour: u16, evy: u8) -> u16 {
    let mut parts = [0; 3];
    for number in 0..3 {
        parts[number] = brighter_part(part(colour, number), evy);
    }
    joined(parts)
}

/// A darker colour, by a coefficient from 0 to 16.
pub(crate) fn darker_of(colour: u16, evy: u8) -> u16 {
    let mut parts = [0; 3];
    for number in 0..3 {
        parts[number] = darker_part(part(colour, number), evy);
    }
    joined(parts)
}
