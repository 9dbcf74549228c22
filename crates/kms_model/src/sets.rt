//! What a request sets, with its labels looked up.
use crate::list::Seq;
use crate::objects::{Gamma, Mode, ObjId};
use crate::pictures::FbInfo;
use crate::worlds::Look;

/// Labels, by their numbers from 0, each with what it names. The first entry of a label counts, and a label without one
/// is missing.
pub type Lookups = Seq<(u32, Look)>;

/// What a property of an object is set to.
#[derive(Clone, Copy)]
pub enum SetValue {
    /// A number, from -2147483648 to 4294967295: every property but those below.
    Num(i64),
    /// `FB_ID`: a framebuffer, or none.
    Fb(Option<FbInfo>),
    /// `MODE_ID`: a mode, or none.
    Mode(Option<Mode>),
    /// `GAMMA_LUT`: a gamma table, or none.
    Gamma(Option<Gamma>),
    /// `CRTC_ID`: the id of a CRTC, or 0.
    Crtc(u32),
    /// `IN_FENCE_FD` or `OUT_FENCE_PTR`, whatever the value: these belong to the request alone and change no state.
    Fence,
}

/// A property of an object that a request sets, with its last value.
#[derive(Clone, Copy)]
pub struct Set {
    /// The object.
    pub object: ObjId,
    /// The property's id.
    pub prop: u32,
    /// Its value.
    pub value: SetValue,
}

/// What an accepted request asks for, with its labels looked up. (Kernel: `struct drm_atomic_state`.)
#[derive(Drop)]
pub struct Resolved {
    /// The request's flags, of the bits 0x703.
    pub flags: u32,
    /// The request's user data.
    pub user_data: u64,
    /// One entry for each object and property that the request sets, with its last value, in the order of those last
    /// assignments.
    pub sets: Seq<Set>,
    /// The id of each plane for which the request names a fence, with that fence's id, in order of planes.
    pub in_fences: Seq<(ObjId, u32)>,
    /// The id of each CRTC whose last `OUT_FENCE_PTR` asks for a fence, with the number, from 0, of that fence's label,
    /// in order of CRTCs.
    pub out_fences: Seq<(ObjId, u32)>,
}
