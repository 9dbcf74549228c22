//! Scripts of clients' calls.
ghost use Rattle.std.specs.Prelude.{◌≡◌};
ghost use Rattle.kms_model.specs.Script.Generated.{assigns_to};

use crate::list::Seq;
use crate::objects::{Format, Kind, Mode, Topology};

/// Which property an assignment names.
#[derive(Clone, Copy, PartialEq, Eq)]
pub enum PropRef {
    /// A property of the device, by its id (see `properties`).
    Known(u32),
    /// A name that no property of the device has, as its index in the script's names.
    Unknown(u32),
}

/// A value that an assignment gives. Labels are indices in the script's names.
#[derive(Clone, Copy, PartialEq, Eq)]
pub enum Value {
    /// A number, from -9223372036854775808 to 18446744073709551615.
    Num(i128),
    /// `@LABEL`: the thing that the label names.
    Named(u32),
    /// `+LABEL`: the fence that an `OUT_FENCE_PTR` makes under this label.
    New(u32),
    /// `crtcN`: the CRTC with this index, from 0 to 255.
    Crtc(u32),
}

/// One assignment of a request. (Kernel: "Atomic Mode Setting".)
#[derive(Clone, Copy, PartialEq, Eq)]
pub struct Assign {
    /// The kind of the object that is set.
    pub kind: Kind,
    /// Its index, from 0 to 255; it need not be on the device.
    pub index: u32,
    /// The property that is set.
    pub prop: PropRef,
    /// What it is set to.
    pub value: Value,
}

impl Assign {
    /// Sets a property of the device, by its id, of the object of a kind with an index.
    pub fn known(kind: Kind, index: u32, prop: u32, value: Value) -> Assign
        ensures { result ≡ assigns_to kind index prop value }
    {
        Assign {
            kind,
            index,
            prop: PropRef::Known(prop),
            value,
        }
    }
}

/// An atomic request. (Header: `drm_mode.h`, `struct drm_mode_atomic`.)
#[derive(PartialEq, Eq, Drop)]
pub struct Request {
    /// `DRM_MODE_PAGE_FLIP_EVENT` 0x1, `DRM_MODE_PAGE_FLIP_ASYNC` 0x2, `DRM_MODE_ATOMIC_TEST_ONLY` 0x100,
    /// `DRM_MODE_ATOMIC_NONBLOCK` 0x200, `DRM_MODE_ATOMIC_ALLOW_MODESET` 0x400.
    pub flags: u32,
    /// A number that an event of this request hands back.
    pub user_data: u64,
    /// The assignments, at most 256; later ones win.
    pub assigns: Seq<Assign>,
}

/// What a buffer is filled with. A word is a pixel in the buffer's format: 32 bits for XR24 and AR24, 16 for
/// RG16.
#[derive(PartialEq, Eq, Drop)]
pub enum Pattern {
    /// The same word everywhere.
    Solid(u32),
    /// Squares of two words in turn.
    Checker {
        /// The word of the square at (0, 0).
        p: u32,
        /// The word of the squares beside it.
        q: u32,
        /// The side of a square, from 1 to 4096 pixels.
        n: u32,
    },
    /// Colours that change with the place.
    Ramp,
    /// Each word, row by row, from 1 to 256 of them.
    Pixels(Seq<u32>),
}

/// One call of a client. Labels are indices in the script's names, below 2^32.
#[derive(PartialEq, Eq, Drop)]
pub enum Command {
    /// Makes a buffer. (Kernel: "Dumb Buffer Objects".)
    Buffer {
        /// The label that it makes.
        label: u32,
        /// Its width in pixels, of any value; from 1 to 4096 where it is accepted.
        width: u32,
        /// Its height in pixels, of any value; from 1 to 4096 where it is accepted.
        height: u32,
        /// The format of its words.
        format: Format,
        /// What it is filled with.
        pattern: Pattern,
    },
    /// Makes a framebuffer of a buffer, in its size and format. (Kernel: "Frame Buffer Abstraction".)
    AddFb {
        /// The label that it makes.
        label: u32,
        /// The label of the buffer.
        buffer: u32,
    },
    /// Makes a blob that holds a mode.
    Mode {
        /// The label that it makes.
        label: u32,
        /// The mode; it need not be legal.
        mode: Mode,
    },
    /// Makes a blob. (Header: `drm_mode.h`, `struct drm_mode_create_blob`.)
    Blob {
        /// The label that it makes.
        label: u32,
        /// From 1 to 2048 bytes.
        bytes: Seq<u8>,
    },
    /// Destroys a blob: its label is refused from then on.
    Destroy {
        /// The blob's label.
        label: u32,
    },
    /// Closes a framebuffer: its label is refused from then on. (Header: `DRM_IOCTL_MODE_CLOSEFB`.)
    CloseFb {
        /// The framebuffer's label.
        label: u32,
    },
    /// Makes a fence that `Signal` signals.
    Fence {
        /// The label that it makes.
        label: u32,
    },
    /// Signals a fence.
    Signal {
        /// The fence's label.
        label: u32,
    },
    /// An atomic request.
    Atomic(Request),
    /// Waits for the client's next event.
    Wait,
}

/// A script: the device and what each client calls.
#[derive(PartialEq, Eq, Drop)]
pub struct Script {
    /// The version of its first line, 1 or 2: the profile of its device.
    pub version: u32,
    /// The device.
    pub topology: Topology,
    /// Each label and each unknown property name once, in order of first occurrence.
    pub names: Seq<Seq<u8>>,
    /// The commands of each client, at most 16 clients of at most 4096 commands. Both are counted from 1.
    pub clients: Seq<Seq<Command>>,
}

/// Why a line of an input may not stand where it stands.
#[derive(Clone, Copy, Debug, PartialEq, Eq)]
pub enum Why {
    /// A byte outside 0x20 to 0x7e.
    Bytes,
    /// The last line has no line feed.
    Cut,
    /// The line is not one that may stand there.
    Form,
    /// The line makes a label that an earlier line or word makes.
    Label,
    /// A limit is passed with this line, or, at line 0, by the size of the whole input.
    Limit,
}

/// What may follow the script in an input.
#[derive(Clone, Copy, PartialEq, Eq)]
pub enum Part {
    /// Nothing.
    Script,
    /// A line `schedule` and the steps of a history, a line each; or nothing, which is a schedule without steps.
    Schedule,
    /// A line `report`, and a report behind it, whose bytes may be any.
    Report,
}
