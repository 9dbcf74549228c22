//! Display objects, their ids and limits, modes and the device's topology.
ghost use Rattle.std.specs.Prelude.{◌≡◌, ◌<◌, ◌≤◌, ◌+◌, ◌&&◌, nat_le, nat_lt};
ghost use Rattle.kms_model.specs.declared.objects.Kind.TheVariants as kind;
ghost use Rattle.kms_model.specs.Device.Objects.{first_id, index_of, is_id_of, kind_of, object_id};
ghost use Rattle.kms_model.specs.Script.Grammar.{format_bit};

use crate::list::Seq;

/// The most CRTCs of a device, and so of a set of CRTCs.
pub const MAX_CRTCS: u32 = 4;

/// The most planes of a device.
pub const MAX_PLANES: u32 = 16;

/// The most connectors of a device.
pub const MAX_CONNECTORS: u32 = 8;

/// The most objects of a device that have a lock and that a commit can touch, a count: CRTCs, planes and connectors.
pub const MAX_LOCKABLE: u32 = MAX_CRTCS + MAX_PLANES + MAX_CONNECTORS;

/// The most clients of a script. They are counted from 1.
pub const MAX_CLIENTS: u32 = 16;

/// The id of the first thing that is made; the next ones have the next ids.
pub const FIRST_THING_ID: u32 = 1000;

/// The id of the CRTC with index 0; the next ones have the next ids, as the objects of the other kinds have.
pub const FIRST_CRTC_ID: u32 = 100;

/// The id of the plane with index 0.
pub const FIRST_PLANE_ID: u32 = 200;

/// The id of the connector with index 0.
pub const FIRST_CONNECTOR_ID: u32 = 300;

/// The id of the encoder with index 0.
pub const FIRST_ENCODER_ID: u32 = 400;

/// The id of a display object: CRTC index i has 100 + i, plane 200 + i, connector 300 + i and encoder
/// 400 + i. (Kernel: "Modeset Base Object Abstraction", `struct drm_mode_object`; the numbers are this device's.)
#[derive(Clone, Copy, Debug, PartialEq, Eq)]
pub struct ObjId(pub u32);

impl ObjId {
    /// The id of the object of a kind with an index.
    pub fn of(kind: Kind, index: u32) -> ObjId
        requires { index ≤ 255 }
        ensures { result.0 ≡ object_id kind index }
    {
        ObjId(kind.first_id() + index)
    }

    /// The kind of object that the id is of: ids below 200 are those of CRTCs, below 300 of planes, below 400 of
    /// connectors, and the others of encoders.
    pub fn kind(self) -> Kind
        ensures { result ≡ kind_of self.0 }
    {
        if self.0 < Kind::Plane.first_id() {
            Kind::Crtc
        } else if self.0 < Kind::Conn.first_id() {
            Kind::Plane
        } else if self.0 < Kind::Enc.first_id() {
            Kind::Conn
        } else {
            Kind::Enc
        }
    }

    /// The index of the object among those of its kind; 0 of an id that no object has.
    pub fn index(self) -> u32
        ensures { result ≡ index_of self.0 }
    {
        self.0.saturating_sub(self.kind().first_id())
    }

    /// Whether it is the id of a CRTC of the largest device: from 100 to 103.
    pub fn is_crtc(self) -> bool
        ensures { result ≡ is_id_of kind.Crtc self.0 }
    {
        is_among(Kind::Crtc.first_id(), MAX_CRTCS, self.0)
    }

    /// Whether it is the id of a plane of the largest device: from 200 to 215.
    pub fn is_plane(self) -> bool
        ensures { result ≡ is_id_of kind.Plane self.0 }
    {
        is_among(Kind::Plane.first_id(), MAX_PLANES, self.0)
    }

    /// Whether it is the id of a connector of the largest device: from 300 to 307.
    pub fn is_connector(self) -> bool
        ensures { result ≡ is_id_of kind.Conn self.0 }
    {
        is_among(Kind::Conn.first_id(), MAX_CONNECTORS, self.0)
    }
}

/// Whether a number is one of so many from a first one on.
fn is_among(first: u32, count: u32, number: u32) -> bool
    requires { first + count ≤ 1000 }
    ensures { result ≡ (nat_le first number && nat_lt number (first + count)) }
{
    first <= number && number < first + count
}

/// The ticket of an acquire context, counted from 0 in the order in which contexts begin. The smaller
/// ticket is the older one. (Kernel: "KMS Locking", `struct drm_modeset_acquire_ctx`.)
#[derive(Clone, Copy, Debug, PartialEq, Eq)]
pub struct Ticket(pub u32);

/// The kind of a display object.
#[derive(Clone, Copy, PartialEq, Eq)]
pub enum Kind {
    /// A CRTC, which latches frames.
    Crtc,
    /// A plane, which a CRTC shows.
    Plane,
    /// A connector, with one fixed encoder.
    Conn,
    /// An encoder. It has no property.
    Enc,
}

impl Kind {
    /// The id of the object of this kind with index 0.
    pub fn first_id(self) -> u32
        ensures { result ≡ first_id self }
    {
        match self {
            Kind::Crtc => FIRST_CRTC_ID,
            Kind::Plane => FIRST_PLANE_ID,
            Kind::Conn => FIRST_CONNECTOR_ID,
            Kind::Enc => FIRST_ENCODER_ID,
        }
    }
}

/// A pixel format. (Header: `drm_fourcc.h`.)
#[derive(Clone, Copy, PartialEq, Eq)]
pub enum Format {
    /// `DRM_FORMAT_XRGB8888`: 32 bits a pixel, no alpha.
    Xr24,
    /// `DRM_FORMAT_ARGB8888`: 32 bits a pixel, alpha in bits 24 to 31.
    Ar24,
    /// `DRM_FORMAT_RGB565`: 16 bits a pixel, no alpha.
    Rg16,
}

impl Format {
    /// The bit of the format in a plane's formats.
    pub fn bit(self) -> u32
        ensures value { result ≡ format_bit self }
        ensures most { result < 3 }
    {
        match self {
            Format::Xr24 => 0,
            Format::Ar24 => 1,
            Format::Rg16 => 2,
        }
    }
}

/// A display mode. (Header: `drm_mode.h`, `struct drm_mode_modeinfo`.)
#[derive(Clone, Copy, PartialEq, Eq)]
pub struct Mode {
    /// The pixel clock in kHz, at least 1 in a legal mode.
    pub clock: u32,
    /// Pixels shown in a row, from 1 to 4096 in a legal mode.
    pub hdisplay: u16,
    /// Where the horizontal sync begins, in pixels; at least `hdisplay` in a legal mode.
    pub hsync_start: u16,
    /// Where it ends; at least `hsync_start` in a legal mode.
    pub hsync_end: u16,
    /// Pixels of a whole row; at least `hsync_end` in a legal mode.
    pub htotal: u16,
    /// The horizontal skew, of any value.
    pub hskew: u16,
    /// Rows shown, from 1 to 4096 in a legal mode.
    pub vdisplay: u16,
    /// Where the vertical sync begins, in rows; at least `vdisplay` in a legal mode.
    pub vsync_start: u16,
    /// Where it ends; at least `vsync_start` in a legal mode.
    pub vsync_end: u16,
    /// Rows of a whole frame; at least `vsync_end` in a legal mode.
    pub vtotal: u16,
    /// The vertical scan, of any value.
    pub vscan: u16,
    /// The refresh rate in Hz, of any value.
    pub vrefresh: u32,
    /// The flags, of any value.
    pub flags: u32,
    /// The type, of any value.
    pub kind: u32,
    /// The name, filled with zeros.
    pub name: [u8; 32],
}

/// What a plane is. (Kernel: "Plane Abstraction", `struct drm_plane`.)
#[derive(Clone, Copy, PartialEq, Eq)]
pub struct PlaneInfo {
    /// The value of its property `type`: 0 overlay, 1 primary, 2 cursor.
    pub kind: u32,
    /// Its possible CRTCs, a mask: bit i stands for CRTC index i.
    pub crtcs: u32,
    /// Its formats, a mask: bit 0 XR24, bit 1 AR24, bit 2 RG16.
    pub formats: u32,
}

/// A gamma table: what a channel's value becomes. The place in each list is the value before, from 0 to 255.
/// (Header: `drm_mode.h`, `struct drm_color_lut`, of which the upper 8 of 16 bits are kept.)
#[derive(Clone, Copy, PartialEq, Eq)]
pub struct Gamma {
    /// What each value of red becomes, from 0 to 255.
    pub red: [u8; 256],
    /// What each value of green becomes.
    pub green: [u8; 256],
    /// What each value of blue becomes.
    pub blue: [u8; 256],
}

/// The display objects of a device.
#[derive(PartialEq, Eq, Drop)]
pub struct Topology {
    /// The profile of the device, which is the version of its script: 1, or 2 where planes may scale and begin between
    /// pixels, and CRTCs have gamma tables.
    pub profile: u32,
    /// The number of CRTCs, from 1 to 4.
    pub crtcs: u32,
    /// The planes by index, from 1 to 16.
    pub planes: Seq<PlaneInfo>,
    /// The connectors by index, from 1 to 8, each as the mask of its possible CRTCs.
    pub conns: Seq<u32>,
}
