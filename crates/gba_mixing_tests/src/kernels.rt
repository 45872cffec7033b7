//! Lines of colours, blended.

use crate::arithmetic::{alpha_of, brighter_of, darker_of};
use gba_ppu_mix::{blend_alpha, brighten, darken};
use std::process::Abort;

/// Some colours, with bit 15 set in some, the first of them by a number.
fn colours_from(first: u16) -> [u16; 70] {
    let mut colours = [0; 70];
    let mut next = first;
    for colour in colours.iter_mut() {
        *colour = next;
        next = next.wrapping_mul(25173).wrapping_add(13849);
    }
    colours
}

fn blend<R: Abort>(rt: &R, a: &[u16], b: &[u16], eva: u8, evb: u8, out: &mut [u16]) {
    assert!(rt; a.len() == out.len());
    assert!(rt; b.len() == out.len());
    assert!(rt; eva <= 16 && evb <= 16);
    blend_alpha(a, b, eva, evb, out);
}

fn make_brighter<R: Abort>(rt: &R, a: &[u16], evy: u8, out: &mut [u16]) {
    assert!(rt; a.len() == out.len());
    assert!(rt; evy <= 16);
    brighten(a, evy, out);
}

fn make_darker<R: Abort>(rt: &R, a: &[u16], evy: u8, out: &mut [u16]) {
    assert!(rt; a.len() == out.len());
    assert!(rt; evy <= 16);
    darken(a, evy, out);
}

/// Seventeen places: two vectors of eight, and one place after them.
#[test]
fn worked_colours_are_blended(rt: HostRuntime) {
    let mut out = [0; 17];
    blend(&rt, &[0x001F; 17], &[0x7C00; 17], 8, 8, &mut out);
    assert_eq!(rt; out, [0x3C0F; 17]);
    make_brighter(&rt, &[0x3DEF; 17], 16, &mut out);
    assert_eq!(rt; out, [0x7FFF; 17]);
    make_darker(&rt, &[0x3DEF; 17], 16, &mut out);
    assert_eq!(rt; out, [0; 17]);
}

fn assert_place<R: Abort>(rt: &R, out: &[u16], x: usize, colour: u16) {
    assert_eq!(rt; out.get(x).copied(), Some(colour), "place {x} of {out:?}");
}

fn try_alpha<R: Abort>(rt: &R, a: &[u16], b: &[u16], eva: u8, evb: u8, out: &mut [u16]) {
    blend(rt, a, b, eva, evb, out);
    for (x, (a, b)) in a.iter().zip(b).enumerate() {
        assert_place(rt, out, x, alpha_of(*a, *b, eva, evb));
    }
}

fn try_brighter<R: Abort>(rt: &R, a: &[u16], evy: u8, out: &mut [u16]) {
    make_brighter(rt, a, evy, out);
    for (x, colour) in a.iter().enumerate() {
        assert_place(rt, out, x, brighter_of(*colour, evy));
    }
}

fn try_darker<R: Abort>(rt: &R, a: &[u16], evy: u8, out: &mut [u16]) {
    make_darker(rt, a, evy, out);
    for (x, colour) in a.iter().enumerate() {
        assert_place(rt, out, x, darker_of(*colour, evy));
    }
}

/// Blends, brightens and darkens lines of one length.
fn try_length<R: Abort>(rt: &R, a: &[u16], b: &[u16], out: &mut [u16]) {
    for (eva, evb) in [(0, 0), (16, 16), (8, 8), (16, 0), (5, 13)] {
        try_alpha(rt, a, b, eva, evb, out);
    }
    for evy in [0, 1, 8, 16] {
        try_brighter(rt, a, evy, out);
        try_darker(rt, a, evy, out);
    }
}

#[test]
fn every_length_is_blended_by_the_formula(rt: HostRuntime) {
    let a = colours_from(0x7FFF);
    let b = colours_from(0x1234);
    let mut out = [0; 70];
    for length in 0..71 {
        try_length(&rt, &a[..length], &b[..length], &mut out[..length]);
    }
}
