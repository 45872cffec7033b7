//! The layers behind one another, eight places at a time.

ghost use Rattle.std.specs.Prelude.{◌≡◌, ℕ, ◌+◌, ◌<◌, ◌≤◌, nat_lt, Bool, slice_index, if◌then◌else◌};
ghost use Rattle.gba_terms.specs.Bits.{bit};
ghost use Rattle.gba_ppu_blend.specs.Lanes.{HasLanes};
ghost use Rattle.gba_ppu_mix.specs.Blending.{alone as alone_by};
ghost use Rattle.gba_ppu_mix.specs.Painting.{HasCandidates, HasStacks, candidate_at, constants_of, painted_bottom, painted_candidate, painted_front_of, painted_stack_colour, painted_stack_of, place_at, seen_rank as rank_seen, stack_at, with_painted_candidate};

use crate::blending::{Blending, Effect};
use crate::paints::PaintedLines;
use crate::stacks::{BACKDROP_RANK, Layer, NOTHING_RANK, Ranks};
use gba_ppu_blend::{both_lanes, brighter_lanes, darker_lanes, eight_from, if_bit, if_less};
use gba_ppu_dot::CLEAR_PAINT;
use std::simd::prelude::*;

/// The place in the order of a layer that isn't seen: behind everything.
const UNSEEN_RANK: u16 = 0xFFFF;

/// What all places of a line have in common: the ranks and marks of the backgrounds, and the backdrop's
/// colour and marks.
#[derive(Clone, Copy)]
pub struct LineConstants {
    pub ranks: Ranks,
    pub marks0: u16,
    pub marks1: u16,
    pub marks2: u16,
    pub marks3: u16,
    pub backdrop: u16,
    pub backdrop_marks: u16,
}

/// What a layer has in eight places.
#[derive(Clone, Copy)]
pub struct EightCandidates {
    pub rank: u16x8,
    pub colour: u16x8,
    pub marks: u16x8,
}

/// What is in front in eight places, and behind it.
#[derive(Clone, Copy)]
pub struct EightStacks {
    pub top: EightCandidates,
    pub second: EightCandidates,
}

impl LineConstants {
    /// Those of the registers.
    pub fn of(b: &Blending, ranks: Ranks, backdrop: u16) -> LineConstants
        ensures { result ≡ constants_of b.now ranks backdrop }
    {
        LineConstants {
            ranks,
            marks0: b.marks_of(Layer::Background0, false),
            marks1: b.marks_of(Layer::Background1, false),
            marks2: b.marks_of(Layer::Background2, false),
            marks3: b.marks_of(Layer::Background3, false),
            backdrop,
            backdrop_marks: b.marks_of(Layer::Backdrop, false),
        }
    }
}

#[inline(always)]
fn seen_rank(paint: u16x8, shows: u16x8, place: u16, rank: u16x8) -> u16x8
    requires { place < 16 }
    ensures { HasLanes result (λ i. rank_seen (slice_index paint i) (slice_index shows i) place (slice_index rank i)) }
{
    let unseen = u16x8::splat(UNSEEN_RANK);
    let shown = if_bit(shows, place, rank, unseen);
    if_less(paint, u16x8::splat(CLEAR_PAINT), shown, unseen)
}

impl EightCandidates {
    #[inline(always)]
    fn of_layer(
        paint: u16x8,
        shows: u16x8,
        place: u16,
        rank: u16x8,
        marks: u16x8,
    ) -> EightCandidates
        requires { place < 16 }
        ensures { HasCandidates result
            (λ i. painted_candidate (slice_index shows i) place (slice_index rank i) (slice_index marks i)
            (slice_index paint i)) }
    {
        EightCandidates {
            rank: seen_rank(paint, shows, place, rank),
            colour: paint,
            marks,
        }
    }

    /// That of a background.
    #[inline(always)]
    fn of_background(
        paint: u16x8,
        shows: u16x8,
        place: u16,
        rank: u16,
        marks: u16,
    ) -> EightCandidates
        requires { place < 16 }
        ensures { HasCandidates result
            (λ i. painted_candidate (slice_index shows i) place rank marks (slice_index paint i)) }
    {
        EightCandidates::of_layer(paint, shows, place, u16x8::splat(rank), u16x8::splat(marks))
    }

    /// One or the other, by which of two ranks is less.
    #[inline(always)]
    fn nearer(
        rank: u16x8,
        than: u16x8,
        new: EightCandidates,
        old: EightCandidates,
    ) -> EightCandidates
        ensures { HasCandidates result
            (λ i. if nat_lt (slice_index rank i) (slice_index than i) then candidate_at new i else candidate_at old i) }
    {
        EightCandidates {
            rank: if_less(rank, than, new.rank, old.rank),
            colour: if_less(rank, than, new.colour, old.colour),
            marks: if_less(rank, than, new.marks, old.marks),
        }
    }
}

impl EightStacks {
    /// The backdrop alone.
    #[inline(always)]
    fn bare(c: &LineConstants) -> EightStacks
        ensures { HasStacks result (λ _. painted_bottom c.now) }
    {
        let colour = u16x8::splat(c.backdrop);
        EightStacks {
            top: EightCandidates {
                rank: u16x8::splat(BACKDROP_RANK),
                colour,
                marks: u16x8::splat(c.backdrop_marks),
            },
            second: EightCandidates {
                rank: u16x8::splat(NOTHING_RANK),
                colour,
                marks: u16x8::splat(0),
            },
        }
    }

    /// With the candidates of a layer.
    #[inline(always)]
    #[tactic(auto, unfolding(crate::specs::Painting::with_painted_candidate))]
    fn with(self, new: EightCandidates) -> EightStacks
        ensures { HasStacks result (λ i. with_painted_candidate (candidate_at new i) (stack_at self i)) }
    {
        let behind = EightCandidates::nearer(new.rank, self.second.rank, new, self.second);
        EightStacks {
            top: EightCandidates::nearer(new.rank, self.top.rank, new, self.top),
            second: EightCandidates::nearer(new.rank, self.top.rank, self.top, behind),
        }
    }
}

/// The sprites and backgrounds 0 and 1 behind one another.
#[inline(always)]
#[tactic(auto, unfolding(crate::specs::Painting::painted_front_of))]
fn front_eight(c: &LineConstants, lines: &PaintedLines, shows: u16x8, at: usize) -> EightStacks
    requires place { at + 8 ≤ 240 }
    requires shows { HasLanes shows (λ i. slice_index lines.now.shows (at + i)) }
    ensures { HasStacks result (λ i. painted_front_of c.now (place_at lines.now (at + i))) }
{
    let sprites = EightCandidates::of_layer(
        eight_from(&lines.sprites, at),
        shows,
        4,
        eight_from(&lines.sprite_ranks, at),
        eight_from(&lines.sprite_marks, at),
    );
    let paint0 = eight_from(&lines.background0, at);
    let paint1 = eight_from(&lines.background1, at);
    EightStacks::bare(c)
        .with(sprites)
        .with(EightCandidates::of_background(paint0, shows, 0, c.ranks.background0, c.marks0))
        .with(EightCandidates::of_background(paint1, shows, 1, c.ranks.background1, c.marks1))
}

/// The layers behind one another.
#[inline(always)]
#[tactic(auto, unfolding(crate::specs::Painting::painted_stack_of))]
pub fn stack_eight(c: &LineConstants, lines: &PaintedLines, shows: u16x8, at: usize) -> EightStacks
    requires place { at + 8 ≤ 240 }
    requires shows { HasLanes shows (λ i. slice_index lines.now.shows (at + i)) }
    ensures { HasStacks result (λ i. painted_stack_of c.now (place_at lines.now (at + i))) }
{
    let paint2 = eight_from(&lines.background2, at);
    let paint3 = eight_from(&lines.background3, at);
    front_eight(c, lines, shows, at)
        .with(EightCandidates::of_background(paint2, shows, 2, c.ranks.background2, c.marks2))
        .with(EightCandidates::of_background(paint3, shows, 3, c.ranks.background3, c.marks3))
}

/// Colours under an effect on a single one.
#[inline(always)]
#[tactic(auto, unfolding(crate::specs::Blending::alone))]
fn alone_lanes(effect: Effect, evy: u16, colours: u16x8) -> u16x8
    requires { evy ≤ 16 }
    ensures { HasLanes result (λ i. alone_by effect evy (slice_index colours i)) }
{
    match effect {
        Effect::Unchanged | Effect::Alpha => colours,
        Effect::Brighter => brighter_lanes(colours, evy),
        Effect::Darker => darker_lanes(colours, evy),
    }
}

/// One colour where effects show and the foremost layer is a first target, and another elsewhere.
#[inline(always)]
fn where_changed(shows: u16x8, marks: u16x8, changed: u16x8, other: u16x8) -> u16x8
    ensures { HasLanes result
        (λ i. if bit (slice_index shows i) 5 then
        (if bit (slice_index marks i) 0 then slice_index changed i else slice_index other i) else slice_index other i) }
{
    if_bit(shows, 5, if_bit(marks, 0, changed, other), other)
}

#[inline(always)]
fn where_alpha(alpha: bool, shows: u16x8, marks: u16x8, blended: u16x8, other: u16x8) -> u16x8
    ensures { HasLanes result
        (λ i. if alpha then (if bit (slice_index shows i) 5 then
        (if bit (slice_index marks i) 0 then slice_index blended i else slice_index other i) else slice_index other i)
        else slice_index other i) }
{
    if alpha {
        where_changed(shows, marks, blended, other)
    } else {
        other
    }
}

/// The colours of stacks.
#[inline(always)]
pub fn coloured(b: &Blending, shows: u16x8, stack: EightStacks) -> u16x8
    requires eva { b.now.eva ≤ 16 }
    requires evb { b.now.evb ≤ 16 }
    requires evy { b.now.evy ≤ 16 }
    ensures { HasLanes result (λ i. painted_stack_colour b.now (slice_index shows i) (stack_at stack i)) }
{
    let top = stack.top.colour;
    let marks = stack.top.marks;
    let blended = both_lanes(top, stack.second.colour, b.eva as u16, b.evb as u16);
    let alone = alone_lanes(b.effect, b.evy as u16, top);
    let changed = where_changed(shows, marks, alone, top);
    let alpha = where_alpha(b.effect.is_alpha(), shows, marks, blended, changed);
    if_bit(
        stack.second.marks,
        1,
        if_bit(marks, 2, blended, alpha),
        changed,
    )
}
