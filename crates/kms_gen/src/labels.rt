//! Labels, as numbers of names. Each client makes five, and its numbers follow each other.
ghost use Rattle.std.specs.Prelude.{◌≡◌, ◌<◌, ◌++◌, [], ◌∷◌, OnOk};
ghost use Rattle.kms_model.specs.Script.Generated.{drawn_framebuffer, label, names_of_client};

use kms_model::{NoMemory, Seq};
use std::alloc::Global;

/// The place, among the labels of a client, of the buffer behind the framebuffer that its CRTC is lit with.
pub const BUFFER_B: u32 = 0;
/// The place of that framebuffer.
pub const FRAMEBUFFER_F: u32 = 1;
/// The place of the buffer behind the other framebuffer.
pub const BUFFER_G: u32 = 2;
/// The place of the other framebuffer.
pub const FRAMEBUFFER_H: u32 = 3;
/// The place of the mode.
pub const MODE_M: u32 = 4;

/// How many labels a client makes.
const LABELS: u32 = 5;

/// The label, by its number from 0, at a place, from 0 to 4, among those of the client that drives the CRTC with an
/// index, 0 or 1.
pub fn label(crtc: u32, place: u32) -> u32
    requires client { crtc < 2 }
    requires among { place < LABELS }
    ensures { result ≡ label crtc place }
{
    LABELS * crtc + place
}

/// The label, by its number from 0, of the framebuffer that a commit of a number shows on the CRTC with an index, 0 or
/// 1: f where the number is even, else h.
pub fn drawn_framebuffer(crtc: u32, number: u64) -> u32
    requires { crtc < 2 }
    ensures { result ≡ drawn_framebuffer crtc number }
{
    if number % 2 == 0 {
        label(crtc, FRAMEBUFFER_F)
    } else {
        label(crtc, FRAMEBUFFER_H)
    }
}

/// Adds the names of the labels that a client makes. Each is a letter and the client's digit, as a byte.
pub fn push_names(alloc: Global, names: &mut Vec<Seq<u8>>, digit: u8) -> Result<(), NoMemory>
    ensures { OnOk result (names.new.items ≡ names.old.items ++ names_of_client (digit ∷ [])) }
{
    for letter in b"bfghm" {
        let name = Vec::from_array(alloc, [*letter, digit])?;
        names.push(Seq::from_vec(name))?;
    }
    Ok(())
}
