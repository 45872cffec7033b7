#![tactic(auto)]
//! Tests of the picture: worked lines of text and affine backgrounds and of bitmaps.

#[cfg(test)]
mod affine;
#[cfg(test)]
mod bitmap;
#[cfg(test)]
mod layers;
#[cfg(test)]
mod text;
