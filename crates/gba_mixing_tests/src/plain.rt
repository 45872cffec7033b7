//! A line of the picture, coloured place by place: the layers that are on and show there, the foremost two of them, and
//! what an effect makes of their colours.

ghost use Rattle.std.specs.Prelude.{◌≡◌, ◌<◌, ◌≤◌, length};

use crate::arithmetic::{alpha_of, brighter_of, darker_of};
use gba_ppu_affine::{affine_line, bitmap_line};
use gba_ppu_dot::{Dot, DotKind, clear_line, half_at};
use gba_ppu_obj::sprite_line;
use gba_ppu_reg::PictureRegisters;
use gba_ppu_text::text_line;
use gba_word::{bit, bits};

pub(crate) const DISPCNT: u32 = 0x000;

pub(crate) const WININ: u32 = 0x048;

pub(crate) const WINOUT: u32 = 0x04A;

pub(crate) const BLDCNT: u32 = 0x050;

const BLDALPHA: u32 = 0x052;

const BLDY: u32 = 0x054;

/// The bit of the effects in WININ and WINOUT.
const EFFECTS_BIT: u32 = 5;

#[derive(Clone, Copy)]
enum Layer {
    Sprites,
    Background0,
    Background1,
    Background2,
    Background3,
    Backdrop,
}

/// The part of the screen that a place is in (GBATEK, LCD I/O Window Feature).
#[derive(Clone, Copy)]
pub enum Region {
    /// The whole screen, where no window is on.
    Screen,
    Window0,
    Window1,
    SpriteWindow,
    Outside,
}

/// What is done to the foremost colour (GBATEK, LCD I/O Color Special Effects).
#[derive(Clone, Copy)]
pub enum Effect {
    Unchanged,
    Alpha,
    /// The alpha blending of a semi-transparent sprite.
    SemiTransparent,
    Brighter,
    Darker,
}

/// A place of the line: its colour, and how it came to be.
#[derive(Clone, Copy)]
pub struct Pixel {
    pub colour: u16,
    pub region: Region,
    pub effect: Effect,
}

/// What a layer has at a place where it is opaque.
#[derive(Clone, Copy)]
struct Surface {
    layer: Layer,
    colour: u16,
    semi_transparent: bool,
}

/// The foremost surface and the one behind it.
#[derive(Clone, Copy)]
struct Stack {
    top: Option<Surface>,
    second: Option<Surface>,
}

/// The dots of the layers in a line. A layer that is off has none.
#[derive(Clone, Copy)]
struct LayerLines {
    sprites: [Dot; 240],
    background0: [Dot; 240],
    background1: [Dot; 240],
    background2: [Dot; 240],
    background3: [Dot; 240],
}

/// The layers from the front, where their priorities are the same. The backdrop is behind all of them.
static FROM_FRONT: [Layer; 5] = [
    Layer::Sprites,
    Layer::Background0,
    Layer::Background1,
    Layer::Background2,
    Layer::Background3,
];

/// A place of a line that is blanked.
const WHITE: Pixel = Pixel {
    colour: 0x7FFF,
    region: Region::Screen,
    effect: Effect::Unchanged,
};

impl Layer {
    /// The layer's bit in WININ, WINOUT and BLDCNT.
    fn bit(self) -> u32
        ensures { result ≤ 5 }
    {
        match self {
            Layer::Background0 => 0,
            Layer::Background1 => 1,
            Layer::Background2 => 2,
            Layer::Background3 => 3,
            Layer::Sprites => 4,
            Layer::Backdrop => 5,
        }
    }
}

fn is_layer_on(r: &PictureRegisters, layer: Layer) -> bool {
    bit(u32::from(r.kept(DISPCNT)), 8 + layer.bit())
}

/// Draws a background from 0 to 3 by the mode (GBATEK, LCD I/O Display Control).
fn draw_background(
    r: &PictureRegisters,
    vram: &[u8],
    background: u32,
    line: u32,
    dots: &mut [Dot; 240],
)
    requires vram { length vram.now ≡ 98304 }
    requires background { background < 4 }
    requires line { line < 160 }
{
    match (r.mode(), background) {
        (0, _) | (1, 0 | 1) => text_line(r, vram, background, line, dots),
        (1, 2) | (2, 2 | 3) => affine_line(r, vram, background, line, dots),
        (3 | 4 | 5, 2) => bitmap_line(r, vram, background, line, dots),
        _ => clear_line(dots),
    }
}

impl LayerLines {
    const CLEAR: LayerLines = LayerLines {
        sprites: [Dot::CLEAR; 240],
        background0: [Dot::CLEAR; 240],
        background1: [Dot::CLEAR; 240],
        background2: [Dot::CLEAR; 240],
        background3: [Dot::CLEAR; 240],
    };

    fn draw(&mut self, r: &PictureRegisters, vram: &[u8], oam: &[u8; 1024], line: u32, layer: Layer)
        requires vram { length vram.now ≡ 98304 }
        requires line { line < 160 }
    {
        match layer {
            Layer::Sprites => sprite_line(r, vram, oam, line, &mut self.sprites),
            Layer::Background0 => draw_background(r, vram, 0, line, &mut self.background0),
            Layer::Background1 => draw_background(r, vram, 1, line, &mut self.background1),
            Layer::Background2 => draw_background(r, vram, 2, line, &mut self.background2),
            Layer::Background3 => draw_background(r, vram, 3, line, &mut self.background3),
            Layer::Backdrop => {}
        }
    }

    /// The lines of the layers that are on.
    fn of(r: &PictureRegisters, vram: &[u8], oam: &[u8; 1024], line: u32) -> LayerLines
        requires vram { length vram.now ≡ 98304 }
        requires line { line < 160 }
    {
        let mut lines = LayerLines::CLEAR;
        for &layer in &FROM_FRONT {
            if is_layer_on(r, layer) {
                lines.draw(r, vram, oam, line, layer);
            }
        }
        lines
    }

    fn dot_at(&self, layer: Layer, x: usize) -> Dot
        requires { x < 240 }
    {
        match layer {
            Layer::Sprites => self.sprites[x],
            Layer::Background0 => self.background0[x],
            Layer::Background1 => self.background1[x],
            Layer::Background2 => self.background2[x],
            Layer::Background3 => self.background3[x],
            Layer::Backdrop => Dot::CLEAR,
        }
    }
}

/// Whether a place is between the sides of a window. An end past the edge of the screen, or before the start, counts
/// as the edge.
fn is_between(sides: u16, edge: u32, place: u32) -> bool {
    let start = u32::from(sides / 0x100);
    let end = u32::from(sides % 0x100);
    let end = if end > edge || start > end { edge } else { end };
    start <= place && place < end
}

/// Whether window 0 or 1 is on and has a place.
fn is_in_window(r: &PictureRegisters, number: u32, line: u32, x: u32) -> bool
    requires { number < 2 }
{
    bit(u32::from(r.kept(DISPCNT)), 13 + number)
        && is_between(r.kept(0x044 + 2 * number), 160, line)
        && is_between(r.kept(0x040 + 2 * number), 240, x)
}

/// The region of a place, by whether a dot of the sprite window is there.
fn region_at(r: &PictureRegisters, line: u32, x: u32, has_window_dot: bool) -> Region {
    let control = u32::from(r.kept(DISPCNT));
    if bits(control, 13, 3) == 0 {
        Region::Screen
    } else if is_in_window(r, 0, line, x) {
        Region::Window0
    } else if is_in_window(r, 1, line, x) {
        Region::Window1
    } else if bit(control, 15) && has_window_dot {
        Region::SpriteWindow
    } else {
        Region::Outside
    }
}

/// Whether a region shows a layer, or the effects, by their bit in WININ and WINOUT.
fn shows(r: &PictureRegisters, region: Region, place: u32) -> bool
    requires { place ≤ 5 }
{
    let inside = u32::from(r.kept(WININ));
    let outside = u32::from(r.kept(WINOUT));
    match region {
        Region::Screen => true,
        Region::Window0 => bit(inside, place),
        Region::Window1 => bit(inside, 8 + place),
        Region::SpriteWindow => bit(outside, 8 + place),
        Region::Outside => bit(outside, place),
    }
}

fn entry_colour(palette: &[u8; 1024], entry: u16) -> u16 {
    half_at(palette, 2 * usize::from(entry % 512)) % 0x8000
}

fn surface_of(palette: &[u8; 1024], layer: Layer, dot: Dot) -> Surface {
    let colour = if dot.direct {
        dot.entry
    } else {
        entry_colour(palette, dot.entry)
    };
    Surface {
        layer,
        colour,
        semi_transparent: dot.kind == DotKind::Semi,
    }
}

fn backdrop_of(palette: &[u8; 1024]) -> Surface {
    Surface {
        layer: Layer::Backdrop,
        colour: entry_colour(palette, 0),
        semi_transparent: false,
    }
}

impl Stack {
    const EMPTY: Stack = Stack {
        top: None,
        second: None,
    };

    /// With a surface behind those that it has. A third one isn't seen.
    fn with_behind(self, surface: Surface) -> Stack {
        match (self.top, self.second) {
            (None, _) => Stack {
                top: Some(surface),
                second: None,
            },
            (Some(top), None) => Stack {
                top: Some(top),
                second: Some(surface),
            },
            _ => self,
        }
    }

    /// With the layers of a priority that are opaque at a place and show there.
    fn with_priority(
        self,
        r: &PictureRegisters,
        palette: &[u8; 1024],
        lines: &LayerLines,
        x: usize,
        region: Region,
        priority: u8,
    ) -> Stack
        requires { x < 240 }
    {
        let mut stack = self;
        for &layer in &FROM_FRONT {
            let dot = lines.dot_at(layer, x);
            if dot.opaque && dot.priority == priority && shows(r, region, layer.bit()) {
                stack = stack.with_behind(surface_of(palette, layer, dot));
            }
        }
        stack
    }

    /// The layers at a place, and the backdrop.
    fn at(
        r: &PictureRegisters,
        palette: &[u8; 1024],
        lines: &LayerLines,
        x: usize,
        region: Region,
    ) -> Stack
        requires { x < 240 }
    {
        let mut stack = Stack::EMPTY;
        for priority in 0..4u8 {
            stack = stack.with_priority(r, palette, lines, x, region, priority);
        }
        stack.with_behind(backdrop_of(palette))
    }
}

fn is_first_target(r: &PictureRegisters, layer: Layer) -> bool {
    bit(u32::from(r.kept(BLDCNT)), layer.bit())
}

fn is_second_target(r: &PictureRegisters, second: Option<Surface>) -> bool {
    match second {
        Some(surface) => bit(u32::from(r.kept(BLDCNT)), 8 + surface.layer.bit()),
        None => false,
    }
}

/// The effect on a surface over another. A semi-transparent sprite over a second target is blended even where it is no
/// first target and where no effects show.
fn effect_on(
    r: &PictureRegisters,
    region: Region,
    top: Surface,
    second: Option<Surface>,
) -> Effect {
    let over_target = is_second_target(r, second);
    if top.semi_transparent && over_target {
        return Effect::SemiTransparent;
    }
    if !shows(r, region, EFFECTS_BIT) || !is_first_target(r, top.layer) {
        return Effect::Unchanged;
    }
    match bits(u32::from(r.kept(BLDCNT)), 6, 2) {
        1 if over_target => Effect::Alpha,
        2 => Effect::Brighter,
        3 => Effect::Darker,
        _ => Effect::Unchanged,
    }
}

/// A coefficient in sixteenths, whose lowest bit is `low`. More than 16 counts as 16.
fn coefficient(half: u16, low: u32) -> u8
    requires { low ≤ 8 }
{
    bits(u32::from(half), low, 5).min(16) as u8
}

fn blended(r: &PictureRegisters, top: u16, second: Option<Surface>) -> u16 {
    let eva = coefficient(r.kept(BLDALPHA), 0);
    let evb = coefficient(r.kept(BLDALPHA), 8);
    match second {
        Some(surface) => alpha_of(top, surface.colour, eva, evb),
        None => top,
    }
}

fn colour_under(r: &PictureRegisters, effect: Effect, top: u16, second: Option<Surface>) -> u16 {
    let evy = coefficient(r.kept(BLDY), 0);
    match effect {
        Effect::Unchanged => top,
        Effect::Alpha | Effect::SemiTransparent => blended(r, top, second),
        Effect::Brighter => brighter_of(top, evy),
        Effect::Darker => darker_of(top, evy),
    }
}

fn pixel_at(
    r: &PictureRegisters,
    palette: &[u8; 1024],
    lines: &LayerLines,
    line: u32,
    x: usize,
) -> Pixel
    requires { x < 240 }
{
    let region = region_at(r, line, x as u32, lines.sprites[x].window);
    let stack = Stack::at(r, palette, lines, x, region);
    let top = stack.top.unwrap_or(backdrop_of(palette));
    let effect = effect_on(r, region, top, stack.second);
    Pixel {
        colour: colour_under(r, effect, top.colour, stack.second),
        region,
        effect,
    }
}

/// The places of a line from 0 to 159, from left to right. Video memory has 98,304 bytes.
pub fn pixel_line(
    r: &PictureRegisters,
    palette: &[u8; 1024],
    vram: &[u8],
    oam: &[u8; 1024],
    line: u32,
) -> [Pixel; 240]
    requires vram { length vram.now ≡ 98304 }
    requires line { line < 160 }
{
    let mut pixels = [WHITE; 240];
    if bit(u32::from(r.kept(DISPCNT)), 7) {
        return pixels;
    }
    let lines = LayerLines::of(r, vram, oam, line);
    for x in 0..240usize {
        pixels[x] = pixel_at(r, palette, &lines, line, x);
    }
    pixels
}
