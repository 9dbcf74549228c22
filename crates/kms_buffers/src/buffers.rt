//! The store of buffers.
ghost use Rattle.std.specs.Prelude.{ℕ, ◌≡◌, ◌<◌, ◌≤◌, [], ◌∷◌, ◌++◌, IsOkUnless, IfOk, Ok, OnOk, OnErr, IfSome, IfNone, false, true};
ghost use Rattle.kms_model.specs.Things.Tables.{AreBelow, slot};
ghost use Rattle.kms_model.specs.declared.worlds.Content.TheVariants as content;
ghost use Rattle.kms_model.specs.declared.worlds.World.{World};
ghost use Rattle.kms_model.specs.Device.Execution.{make};
ghost use Rattle.kms_buffers.specs.Things.{buffers_of};
ghost use Rattle.kms_model.specs.Things.Kept.{buffer, Fills, is_bad_side, is_bad_size, bytes_with, area_bytes, largest_bytes, seen_with_id};

use crate::patterns;
use kms_model::{Buffer, Format, IdTable, Image, NoMemory, Pattern};
use std::alloc::Global;
use std::marker::Model;

/// The largest side of a buffer, in pixels.
pub const LARGEST_SIDE: u32 = 4096;

/// How many bytes all buffers may have together: 4 for each pixel of XR24 and AR24, 2 of RG16.
pub const LARGEST_BYTES: u64 = 268435456;

/// Why a buffer is not made.
#[derive(Clone, Copy, PartialEq, Eq)]
pub enum MakeError {
    /// `INVALID_SIZE`: a side is 0 or above 4096 pixels.
    BadSize,
    /// `NO_BUFFER_SPACE`: all buffers would have more than 268435456 bytes together, 4 for each pixel of XR24 and AR24
    /// and 2 for each of RG16.
    Space {
        /// The bytes of all buffers with the new one.
        total: u64,
    },
    /// Memory ran out.
    NoMemory,
}

impl From<NoMemory> for MakeError {
    ghost use Rattle.std.specs.Prelude.{◌≡◌};
    ghost use Rattle.kms_buffers.specs.declared.buffers.MakeError.TheVariants as error;

    ghost from_gives = { λ _ e. e ≡ error.NoMemory };

    fn from(_e: NoMemory) -> MakeError {
        MakeError::NoMemory
    }
}

/// All buffers. Contracts see them as their list with their ids, in the order in which they were made.
/// (Kernel: "Dumb Buffer Objects".)
#[derive(Drop)]
pub struct Buffers {
    buffers: IdTable<Buffer>,
    // The bytes of all buffers.
    bytes: u64,
}

impl Model for Buffers {
    ghost use Rattle.std.specs.Prelude.{List, ◌≡◌, ◌≤◌};
    ghost use Rattle.kms_model.specs.declared.tables.Slot.{Slot};
    ghost use Rattle.kms_model.specs.declared.things.Buffer.{Buffer};
    ghost use Rattle.kms_model.specs.Things.Kept.{bytes_of};
    ghost use Rattle.kms_buffers.specs.Within.{IsCounted};

    ghost Value = { List (Slot Buffer) };

    ghost view = { λ s. s.buffers };

    ghost invariant = { λ s. IsCounted s.bytes s.buffers };
}

impl Buffers {
    /// The store without buffers. It takes no memory until the first `create`.
    pub fn new(alloc: Global) -> Self
        ensures { result ≡ [] }
    {
        Buffers {
            buffers: IdTable::new(alloc),
            bytes: 0,
        }
    }

    /// Makes a buffer of 1 to 4096 by 1 to 4096 pixels for a client, by its number from 1, and fills it with a pattern:
    /// of pixels, exactly as many as the buffer has; of a checker, of a side above 0. The buffer's id is greater than
    /// those of all buffers before. Refused, in this order, with `BadSize` and `Space`, and with `NoMemory` last; the
    /// store then stays as it was. (Kernel: "Dumb Buffer Objects", `drm_mode_create_dumb`.)
    pub fn create(
        &mut self,
        alloc: Global,
        owner: u32,
        id: u32,
        width: u32,
        height: u32,
        format: Format,
        pattern: &Pattern,
    ) -> Result<(), MakeError>
        requires fresh { AreBelow id self.old }
        requires fills { Fills pattern.now width height }
        ensures bad_size { is_bad_size width height ≡ true → result ≡ Err MakeError.BadSize }
        ensures space { is_bad_size width height ≡ false
            → largest_bytes < bytes_with self.old width height format
            → result ≡ Err (MakeError.Space (bytes_with self.old width height format)) }
        ensures else_made { is_bad_size width height ≡ false
            → bytes_with self.old width height format ≤ largest_bytes
            → IsOkUnless result MakeError.NoMemory }
        ensures made { OnOk result (self.new ≡ self.old
            ++ slot id (buffer owner width height format pattern.now) ∷ []) }
        ensures unchanged { OnErr result (self.new ≡ self.old) }
        ensures thing { OnOk result ((w : World) (label : ℕ) → buffers_of w.things ≡ self.old
            → w.next_id ≡ id
            → buffers_of (make w owner label
            (content.Buffer width height format pattern.now)).world.things ≡ self.new) }
    {
        let total = self.total_with(width, height, format)?;
        let words = patterns::words(alloc, pattern, format, width, height)?;
        self.buffers.push(
            id,
            Buffer {
                owner,
                width,
                height,
                format,
                words,
            },
        )?;
        self.bytes = total;
        Ok(())
    }

    /// The bytes that all buffers would have with one more, of a width and a height in pixels. Refused with `BadSize` and
    /// `Space`, as `create` is, and never with `NoMemory`.
    pub fn total_with(&self, width: u32, height: u32, format: Format) -> Result<u64, MakeError>
        ensures bad_size { is_bad_size width height ≡ true → result ≡ Err MakeError.BadSize }
        ensures space { is_bad_size width height ≡ false
            → largest_bytes < bytes_with self.now width height format
            → result ≡ Err (MakeError.Space (bytes_with self.now width height format)) }
        ensures fits { is_bad_size width height ≡ false
            → bytes_with self.now width height format ≤ largest_bytes
            → result ≡ Ok (bytes_with self.now width height format) }
        ensures total { IfOk result (λ total. total ≡ bytes_with self.now width height format) }
        ensures within { IfOk result (λ total. total ≤ largest_bytes) }
    {
        if is_bad(width) || is_bad(height) {
            return Err(MakeError::BadSize);
        }
        let total = self.bytes + area(width, height, format);
        if total > LARGEST_BYTES {
            return Err(MakeError::Space { total });
        }
        Ok(total)
    }

    /// The buffer with this id; none where there is no such buffer.
    pub fn image(&self, id: u32) -> Option<Image<'_>>
        ensures none { IfNone result (seen_with_id self.now id ≡ None) }
        ensures some { IfSome result (λ image. seen_with_id self.now id ≡ Some (record {
          width = image.width;
          height = image.height;
          format = image.format;
          words = image.words.now;
        })) }
    {
        match self.buffers.get(id) {
            Some(buffer) => Some(Image {
                width: buffer.width,
                height: buffer.height,
                format: buffer.format,
                words: buffer.words.as_slice(),
            }),
            None => None,
        }
    }
}

// Whether a side is 0 or too large.
fn is_bad(side: u32) -> bool
    ensures { result ≡ is_bad_side side }
{
    side == 0 || side > LARGEST_SIDE
}

// The bytes of a buffer whose sides are not too large.
fn area(width: u32, height: u32, format: Format) -> u64
    requires wide { width ≤ 4096 }
    requires high { height ≤ 4096 }
    ensures exact { result ≡ area_bytes width height format }
    ensures bounded { result ≤ 67108864 }
{
    let bytes = match format {
        Format::Xr24 | Format::Ar24 => 4,
        Format::Rg16 => 2,
    };
    u64::from(width * height) * bytes
}
