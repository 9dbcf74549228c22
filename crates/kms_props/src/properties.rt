//! The table of properties. (Kernel: "KMS Properties".)
ghost use Rattle.std.specs.Prelude.{◌≡◌, Some, IfSome, IsTrue, is_some, map, option_map};
ghost use Rattle.kms_model.specs.Device.Properties.{is_in_profile, is_named, is_property, range_of, immutable_of};
ghost use Rattle.kms_model.specs.Device.Properties.{name_of, property, property_id, property_in, property_named};
ghost use Rattle.kms_model.specs.Device.Properties.{properties as property_rows};
ghost use Rattle.kms_props.specs.Rows.{property_of};

use crate::first_row;
use crate::table::Table;
use kms_model::properties::{
    ACTIVE, ALPHA, BLEND, CRTC_H, CRTC_ID, CRTC_W, CRTC_X, CRTC_Y, FB_ID, GAMMA_LUT, IN_FENCE_FD,
    MODE_ID, OUT_FENCE_PTR, SRC_H, SRC_W, SRC_X, SRC_Y, TYPE, ZPOS,
};
use kms_model::{Kind, Range};

/// A row of the table of properties.
#[derive(Clone, Copy, PartialEq, Eq)]
pub struct PropertyRow {
    /// The id, from 1 to 19 (see `kms_model::properties`).
    pub id: u32,
    /// The kernel's name, with `_` for a blank.
    pub name: &'static [u8],
    /// The kinds of object that have it.
    pub kinds: &'static [Kind],
    /// Whether no request may set it.
    pub immutable: bool,
    /// What it may be set to.
    pub range: Range,
    /// The first profile of the device that has it: 1 or 2.
    pub since: u32,
}

const PLANES: &[Kind] = &[Kind::Plane];

const PLANES_CONNS: &[Kind] = &[Kind::Plane, Kind::Conn];

const CRTCS: &[Kind] = &[Kind::Crtc];

macro_rules! numbers {
    ($low:literal, $high:literal) => { Range::Numbers { low: $low, high: $high } };
}

/// A place on the screen in pixels, which may lie outside of it.
const COORDINATE: Range = numbers!(-2147483648, 2147483647);

/// A width or a height in pixels.
const SIZE: Range = numbers!(0, 2147483647);

/// A number in 16.16 fixed point.
const FIXED: Range = numbers!(0, 4294967295);

/// An id, or 0 for none.
const NO_ID: Range = Range::Thing { none: 0 };

/// A file descriptor, or -1 for none.
const NO_FILE: Range = Range::Thing { none: -1 };

/// A row: id, name, kinds of object and values, `immutable` where no request may set it, and the first profile that has
/// it where that is not 1.
macro_rules! row {
    ($id:ident, $name:literal, $kinds:ident, $range:expr) => {
        row!($id, $name, $kinds, $range, since 1)
    };
    ($id:ident, $name:literal, $kinds:ident, $range:expr, since $since:literal) => {
        PropertyRow { id: $id, name: $name, kinds: $kinds, immutable: false, range: $range, since: $since }
    };
    ($id:ident, $name:literal, $kinds:ident, $range:expr, immutable) => {
        PropertyRow { id: $id, name: $name, kinds: $kinds, immutable: true, range: $range, since: 1 }
    };
}

const PROPERTIES: Table<PropertyRow, 19> = Table {
    rows: [
        row!(TYPE, b"type", PLANES, numbers!(0, 2), immutable),
        row!(FB_ID, b"FB_ID", PLANES, NO_ID),
        row!(CRTC_ID, b"CRTC_ID", PLANES_CONNS, Range::CrtcName),
        row!(CRTC_X, b"CRTC_X", PLANES, COORDINATE),
        row!(CRTC_Y, b"CRTC_Y", PLANES, COORDINATE),
        row!(CRTC_W, b"CRTC_W", PLANES, SIZE),
        row!(CRTC_H, b"CRTC_H", PLANES, SIZE),
        row!(SRC_X, b"SRC_X", PLANES, FIXED),
        row!(SRC_Y, b"SRC_Y", PLANES, FIXED),
        row!(SRC_W, b"SRC_W", PLANES, FIXED),
        row!(SRC_H, b"SRC_H", PLANES, FIXED),
        row!(IN_FENCE_FD, b"IN_FENCE_FD", PLANES, NO_FILE),
        row!(ALPHA, b"alpha", PLANES, numbers!(0, 65535)),
        row!(BLEND, b"pixel_blend_mode", PLANES, numbers!(0, 2)),
        row!(ZPOS, b"zpos", PLANES, numbers!(0, 255)),
        row!(ACTIVE, b"ACTIVE", CRTCS, numbers!(0, 1)),
        row!(MODE_ID, b"MODE_ID", CRTCS, NO_ID),
        row!(OUT_FENCE_PTR, b"OUT_FENCE_PTR", CRTCS, NO_ID),
        row!(GAMMA_LUT, b"GAMMA_LUT", CRTCS, NO_ID, since 2),
    ],
};

/// The table of properties, in order of their ids.
pub fn property_table() -> Table<PropertyRow, 19>
    ensures { map property_of result.rows ≡ property_rows }
{
    PROPERTIES
}

/// Whether a device of a profile has the property of a row.
fn is_row_in(row: &PropertyRow, profile: u32) -> bool
    ensures { result ≡ is_in_profile profile (property_of row.now) }
{
    row.since <= profile
}

/// Whether a row is of a kind of object, has a name, byte by byte, and is in a profile.
fn is_row_named(row: &PropertyRow, profile: u32, kind: Kind, name: &[u8]) -> bool
    ensures { result ≡ is_named profile kind name.now (property_of row.now) }
{
    row.kinds.contains(&kind) && row.name == name && is_row_in(row, profile)
}

/// The row of the property with this name that objects of a kind have in a profile.
fn row_named(profile: u32, kind: Kind, name: &[u8]) -> Option<PropertyRow>
    ensures { option_map property_of result ≡ property_named profile kind name.now }
{
    first_row!(property_table(), row if is_row_named(row, profile, kind, name) => *row)
}

/// The row of the property of an id; `None` where the table has no such row.
pub fn row_of(prop: u32) -> Option<PropertyRow>
    ensures { option_map property_of result ≡ property prop }
{
    first_row!(property_table(), row if row.id == prop => *row)
}

/// The row of the property of an id; `None` where the table has no such row, or a device of this profile has no such
/// property.
pub fn row_in(profile: u32, prop: u32) -> Option<PropertyRow>
    ensures row { option_map property_of result ≡ property_in profile prop }
    ensures in_table { IfSome result (λ row. Some (property_of row) ≡ property prop) }
{
    first_row!(property_table(), row if row.id == prop && is_row_in(row, profile) => *row)
}

/// The id of the property with this name that objects of a kind have in a profile, 1 or 2; `None` where they have none.
/// The name is the kernel's, in its case, with `_` for a blank.
pub fn lookup(profile: u32, kind: Kind, name: &[u8]) -> Option<u32>
    ensures row { result ≡ property_id profile kind name.now }
    ensures in_table { IfSome result (λ id. IsTrue (is_property id)) }
    ensures in_profile { IfSome result (λ id. IsTrue (is_some (property_in profile id))) }
{
    Some(row_named(profile, kind, name)?.id)
}

/// What the property of an id, from 1 to 19, may be set to.
pub fn range(prop: u32) -> Range
    requires { IsTrue (is_property prop) }
    ensures { Some result ≡ range_of prop }
{
    match row_of(prop) {
        Some(row) => row.range,
        None => unreachable!(),
    }
}

/// Whether no request may set the property of an id, from 1 to 19.
pub fn is_immutable(prop: u32) -> bool
    requires { IsTrue (is_property prop) }
    ensures { Some result ≡ immutable_of prop }
{
    match row_of(prop) {
        Some(row) => row.immutable,
        None => unreachable!(),
    }
}

/// The name of the property of an id, from 1 to 19, as `lookup` takes it.
pub fn name(prop: u32) -> &'static [u8]
    requires { IsTrue (is_property prop) }
    ensures { Some result.now ≡ name_of prop }
{
    match row_of(prop) {
        Some(row) => row.name,
        None => unreachable!(),
    }
}
