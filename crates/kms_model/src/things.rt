//! What is kept of blobs, buffers and framebuffers, beside the ids.
use crate::list::Seq;
use crate::objects::Format;
use crate::pictures::FbInfo;

/// A blob of bytes. (Header: `drm_mode.h`, `struct drm_mode_create_blob`.)
#[derive(Drop)]
pub struct Blob {
    /// The client that made it, counted from 1.
    pub owner: u32,
    /// Its bytes.
    pub bytes: Seq<u8>,
}

/// A buffer with its words. (Kernel: "Dumb Buffer Objects".)
#[derive(Drop)]
pub struct Buffer {
    /// The client that made it, counted from 1.
    pub owner: u32,
    /// Its width, from 1 to 4096 pixels.
    pub width: u32,
    /// Its height, from 1 to 4096 pixels.
    pub height: u32,
    /// The format of its words.
    pub format: Format,
    /// One number for each word, row by row.
    pub words: Seq<u32>,
}

/// A framebuffer with its references. (Kernel: "Frame Buffer Abstraction", `drm_framebuffer_get`.)
#[derive(Clone, Copy, PartialEq, Eq)]
pub struct Framebuffer {
    /// The client that made it, counted from 1.
    pub owner: u32,
    /// The id of its buffer.
    pub buffer: u32,
    /// Its id, size and format.
    pub info: FbInfo,
    /// Whether its client has not closed it yet.
    pub is_open: bool,
    /// How many refer to it, from 1 to 4294967295: one by being open, and each that took one.
    pub references: u32,
}

/// A buffer as others read it.
#[derive(Clone, Copy)]
pub struct Image<'a> {
    /// Its width in pixels.
    pub width: u32,
    /// Its height in pixels.
    pub height: u32,
    /// The format of its words.
    pub format: Format,
    /// One number for each word, row by row.
    pub words: &'a [u32],
}

/// Why bytes are no legal mode.
#[derive(Clone, Copy, Debug, PartialEq, Eq)]
pub enum BadMode {
    /// They are not 68.
    Length,
    /// Not 0 < `hdisplay` <= `hsync_start` <= `hsync_end` <= `htotal`.
    Horizontal,
    /// Not 0 < `vdisplay` <= `vsync_start` <= `vsync_end` <= `vtotal`.
    Vertical,
    /// The clock is 0.
    Clock,
    /// More than 4096 pixels in a row, or more than 4096 rows.
    Size,
}
