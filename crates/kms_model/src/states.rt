//! The states of display objects, typed.
use crate::objects::{Gamma, Mode};
use crate::pictures::{FbInfo, Rect};

/// A plane's state. (Kernel: `struct drm_plane_state`.)
#[derive(Clone, Copy, PartialEq, Eq)]
pub struct PlaneState {
    /// Its framebuffer, if any.
    pub fb: Option<FbInfo>,
    /// The id of its CRTC, or 0.
    pub crtc: u32,
    /// Where on the CRTC it is shown, in pixels.
    pub dst: Rect,
    /// Which part of the framebuffer is shown, in 16.16 fixed point.
    pub src: Rect,
    /// Its opacity, a number from 0 (transparent) to 65535 (opaque).
    pub alpha: u32,
    /// Its blend mode, a number: 0 Pre-multiplied, 1 Coverage, 2 None.
    pub blend: u32,
    /// Its place in the order of layers, a number from 0 (lowest) to 255.
    pub zpos: u32,
}

impl PlaneState {
    /// The lowest plane of a device before its first command: on no CRTC, and opaque.
    pub const OFF: PlaneState = PlaneState {
        fb: None,
        crtc: 0,
        dst: Rect::EMPTY,
        src: Rect::EMPTY,
        alpha: 65535,
        blend: 0,
        zpos: 0,
    };
}

/// A CRTC's state. (Kernel: `struct drm_crtc_state`.)
#[derive(Clone, Copy, PartialEq, Eq)]
pub struct CrtcState {
    /// Whether it is on.
    pub active: bool,
    /// Its mode, if any; it is enabled where it has one.
    pub mode: Option<Mode>,
    /// The table that its colours go through, if any. (Kernel: `drm_crtc_state.gamma_lut`.)
    pub gamma: Option<Gamma>,
    /// The planes whose CRTC it is, a mask: bit i stands for plane index i.
    pub planes: u32,
    /// The connectors whose CRTC it is, a mask: bit i stands for connector index i.
    pub conns: u32,
}

impl CrtcState {
    /// A CRTC that is off, without a mode, a plane or a connector.
    pub const OFF: CrtcState = CrtcState {
        active: false,
        mode: None,
        gamma: None,
        planes: 0,
        conns: 0,
    };
}

/// A connector's state. (Kernel: `struct drm_connector_state`.)
#[derive(Clone, Copy, PartialEq, Eq)]
pub struct ConnState {
    /// The id of its CRTC, or 0.
    pub crtc: u32,
}

impl ConnState {
    /// A connector that is on no CRTC.
    pub const OFF: ConnState = ConnState { crtc: 0 };
}

/// The state of an object with a lock.
#[derive(Clone, Copy, PartialEq, Eq)]
pub enum ObjState {
    /// A plane's.
    Plane(PlaneState),
    /// A CRTC's.
    Crtc(CrtcState),
    /// A connector's.
    Conn(ConnState),
}

/// The state of an object before and after a request. (Kernel: `struct __drm_planes_state` and its like.)
#[derive(Clone, Copy)]
pub struct Both<T> {
    /// The state before the request.
    pub old: T,
    /// The state after what the request has set so far.
    pub new: T,
}

/// The duplicated states of objects, in place: the place in each array is the object's index, and an object that
/// was not duplicated is absent. (Kernel: `struct drm_atomic_state`.) It takes a few kilobytes.
#[derive(Clone, Copy)]
pub struct Duplicates {
    /// The CRTCs, by index.
    pub crtcs: [Option<Both<CrtcState>>; 4],
    /// The planes, by index.
    pub planes: [Option<Both<PlaneState>>; 16],
    /// The connectors, by index.
    pub conns: [Option<Both<ConnState>>; 8],
}

/// A set of objects, each field a mask: bit i of a field stands for the object of that kind with index i.
#[derive(Clone, Copy, PartialEq, Eq)]
pub struct Mask {
    /// The CRTCs.
    pub crtcs: u32,
    /// The planes.
    pub planes: u32,
    /// The connectors.
    pub conns: u32,
}

/// What a check accepted. (Kernel: `drm_atomic_check_only`.)
#[derive(Clone, Copy)]
pub struct Checked {
    /// The states before and after the request.
    pub states: Duplicates,
    /// The CRTCs that the request names, a mask: bit i stands for CRTC index i.
    pub named: u32,
    /// The objects that the request touches.
    pub touched: Mask,
}
