//! The world of the one-thread device: a flat list of settings, and the things that were made.
use crate::list::Seq;
use crate::objects::{Format, Gamma, Mode};
use crate::pictures::FbInfo;
use crate::scripts::Pattern;

/// The value of one property of one object.
#[derive(Clone, Copy, PartialEq, Eq)]
pub struct Setting {
    /// The object's id.
    pub object: u32,
    /// The property's id (see `properties`).
    pub prop: u32,
    /// The number that it has: for a thing or a CRTC its id.
    pub number: i64,
}

/// What a thing is.
#[derive(PartialEq, Eq, Drop)]
pub enum Content {
    /// A buffer of `width` by `height` pixels.
    Buffer {
        width: u32,
        height: u32,
        format: Format,
        pattern: Pattern,
    },
    /// A framebuffer, and the id of its buffer.
    Framebuffer {
        info: FbInfo,
        buffer: u32,
    },
    /// A blob that holds a mode.
    Mode(Mode),
    /// A blob of bytes.
    Blob(Seq<u8>),
    /// A fence that a `fence` command made; a `signal` command signals it.
    Fence,
    /// A fence that a commit made for a CRTC (`OUT_FENCE_PTR`); the commit's latch signals it.
    OutFence,
}

/// A thing that a command made. It stays in the world after it was closed.
#[derive(PartialEq, Eq, Drop)]
pub struct Thing {
    /// Its label, as an index in the script's names.
    pub label: u32,
    /// Its id: things are numbered from 1000 on in the order in which they were made.
    pub id: u32,
    /// The client that made it, counted from 1.
    pub owner: u32,
    /// What it is.
    pub content: Content,
    /// Whether its label still names it.
    pub is_open: bool,
}

/// The state of the one-thread device.
#[derive(PartialEq, Eq, Drop)]
pub struct World {
    /// Each property of each object, in the order of the device's objects.
    pub values: Seq<Setting>,
    /// The things that were made, the oldest first.
    pub things: Seq<Thing>,
    /// The id of the next thing.
    pub next_id: u32,
    /// How many requests were committed.
    pub commits: u32,
}

/// What a label names, with its id.
#[derive(Clone, Copy, PartialEq, Eq)]
pub enum Look {
    /// Nothing was made under it yet.
    Missing,
    /// What it named is closed.
    Closed,
    /// A framebuffer.
    Fb(FbInfo),
    /// A blob that holds a legal mode, and the blob's id.
    Mode(Mode, u32),
    /// A blob of neither a legal mode nor 2048 bytes, by its id.
    Blob(u32),
    /// A blob of 2048 bytes, as a gamma table, and the blob's id.
    Gamma(Gamma, u32),
    /// A fence, by its id.
    Fence(u32),
    /// A buffer, by its id.
    Buffer(u32),
}
