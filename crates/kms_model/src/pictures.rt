//! What a CRTC shows.
use crate::layers::Layers;
use crate::objects::{Format, Gamma, Mode};

/// A rectangle, in pixels (a destination) or in 16.16 fixed point (a source).
#[derive(Clone, Copy, PartialEq, Eq)]
pub struct Rect {
    /// The left edge: from -2147483648 to 2147483647 pixels, or from 0 to 4294967295 in 16.16.
    pub x: i64,
    /// The upper edge, in the range of `x`.
    pub y: i64,
    /// The width: from 0 to 2147483647 pixels, or from 0 to 4294967295 in 16.16.
    pub w: i64,
    /// The height, in the range of `w`.
    pub h: i64,
}

impl Rect {
    /// No pixel: the empty rectangle at the upper left corner.
    pub const EMPTY: Rect = Rect {
        x: 0,
        y: 0,
        w: 0,
        h: 0,
    };
}

/// A framebuffer.
#[derive(Clone, Copy, PartialEq, Eq)]
pub struct FbInfo {
    /// Its id, from 1000 on.
    pub id: u32,
    /// Its width in pixels.
    pub width: u32,
    /// Its height in pixels.
    pub height: u32,
    /// The format of its words.
    pub format: Format,
}

/// A plane that a CRTC shows. (Kernel: "Plane Composition Properties".)
#[derive(Clone, Copy, PartialEq, Eq)]
pub struct Layer {
    /// The plane's id.
    pub plane: u32,
    /// The framebuffer that it shows.
    pub fb: FbInfo,
    /// Where on the CRTC it is shown, in pixels.
    pub dst: Rect,
    /// Which part of the framebuffer is shown, in 16.16 fixed point.
    pub src: Rect,
    /// The destination clipped to the mode, in pixels; none where nothing of it is visible.
    pub visible: Option<Rect>,
    /// The plane's alpha, from 0 to 65535.
    pub alpha: u32,
    /// The blend mode: 0 Pre-multiplied, 1 Coverage, 2 None.
    pub blend: u32,
}

impl Layer {
    /// What an unused place of a list of layers holds.
    pub const BLANK: Layer = Layer {
        plane: 0,
        fb: FbInfo {
            id: 0,
            width: 0,
            height: 0,
            format: Format::Xr24,
        },
        dst: Rect::EMPTY,
        src: Rect::EMPTY,
        visible: None,
        alpha: 0,
        blend: 0,
    };
}

/// What a CRTC that is on shows.
#[derive(Clone, Copy, PartialEq, Eq)]
pub struct Shown {
    /// The mode.
    pub mode: Mode,
    /// The id of the connector that is routed to the CRTC, or 0.
    pub conn: u32,
    /// The table that the colours of its layers go through once they are composed, if any.
    pub gamma: Option<Gamma>,
    /// The layers from the lowest to the highest.
    pub layers: Layers,
}

/// What a CRTC shows.
#[derive(Clone, Copy, PartialEq, Eq)]
pub enum Picture {
    /// Nothing: the CRTC is off.
    Off,
    /// Layers over black, in the size of a mode.
    On(Shown),
}

/// A pixel's colour, with its alpha. Each channel is from 0 to 255.
#[derive(Clone, Copy, PartialEq, Eq)]
pub struct Colour {
    /// From 0 (transparent) to 255 (opaque).
    pub alpha: u8,
    /// From 0 to 255.
    pub red: u8,
    /// From 0 to 255.
    pub green: u8,
    /// From 0 to 255.
    pub blue: u8,
}
