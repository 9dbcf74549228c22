//! The table of properties.

use crate::rows::{self, AtStart, SettableValues};
use kms_model::properties::{
    ACTIVE, ALPHA, BLEND, CRTC_H, CRTC_W, CRTC_X, CRTC_Y, FB_ID, GAMMA_LUT, IN_FENCE_FD, MODE_ID,
    SRC_H, SRC_W, SRC_X, SRC_Y, TYPE, ZPOS,
};
use kms_model::{Kind, Range};
use kms_props::{PropertyRow, Register, Start, property_table, register_table};
use std::{io, str};

/// Prints the rows of the properties that objects of a kind have.
pub fn print_of(rt: &impl Print, kind: Kind) -> io::Result<()> {
    for row in property_table().rows {
        if row.kinds.contains(&kind) {
            print_row(rt, kind, &row)?;
        }
    }
    Ok(())
}

fn print_row(rt: &impl Print, kind: Kind, row: &PropertyRow) -> io::Result<()> {
    let Ok(name) = str::from_utf8(row.name) else {
        return Ok(());
    };
    rt.println(rows::PropertyRow {
        kind,
        name,
        values: SettableValues {
            things: things(row.id),
            range: row.range,
        },
        unit: unit(row.id),
        start: at_start(row),
    })
}

/// Which things a property takes, where it takes things.
fn things(prop: u32) -> &'static str {
    match prop {
        FB_ID => "`@LABEL` of an open framebuffer",
        MODE_ID => "`@LABEL` of an open blob that holds a legal mode",
        GAMMA_LUT => "`@LABEL` of an open blob of 2048 bytes",
        IN_FENCE_FD => "`@LABEL` of a fence",
        _ => "`+LABEL` of a fence that the commit makes",
    }
}

/// In what a property's number is counted, or what its numbers stand for.
fn unit(prop: u32) -> &'static str {
    match prop {
        TYPE => "0 overlay, 1 primary, 2 cursor; immutable",
        CRTC_X | CRTC_Y | CRTC_W | CRTC_H => "pixel of the screen",
        SRC_X | SRC_Y | SRC_W | SRC_H => "1/65536 of a pixel of the framebuffer",
        ALPHA => "1/65535, from transparent to opaque",
        BLEND => "0 Pre-multiplied, 1 Coverage, 2 None",
        ZPOS => "from the lowest to the highest layer",
        ACTIVE => "0 off, 1 on",
        GAMMA_LUT =>
            "256 entries of red, green, blue and a reserved number, each of 16 bits; in profile 2 alone",
        _ => "",
    }
}

/// The value of a property before the first command.
fn at_start(row: &PropertyRow) -> AtStart {
    match (register_of(row.id), row.range) {
        (Some(register), _) => in_register(register),
        (None, Range::Thing { none }) => AtStart::Number(none),
        (None, Range::CrtcName) => AtStart::Number(0),
        (None, Range::Numbers { .. }) => AtStart::Script,
    }
}

/// The register that holds a property's number, where one does: both begin with the same value.
fn register_of(prop: u32) -> Option<Register> {
    Some(match prop {
        CRTC_X => Register::X,
        CRTC_Y => Register::Y,
        CRTC_W => Register::WIDTH,
        CRTC_H => Register::HEIGHT,
        SRC_X => Register::SRC_X,
        SRC_Y => Register::SRC_Y,
        SRC_W => Register::SRC_WIDTH,
        SRC_H => Register::SRC_HEIGHT,
        ALPHA => Register::ALPHA,
        BLEND => Register::BLEND,
        ZPOS => Register::ZPOS,
        ACTIVE => Register::ACTIVE,
        _ => return None,
    })
}

/// The number in a register before the first command.
fn in_register(register: Register) -> AtStart {
    for row in register_table().rows {
        if row.register == register {
            return match row.start {
                Start::Word(word) => AtStart::Number(i128::from(word)),
                Start::Index => AtStart::Index,
            };
        }
    }
    AtStart::Script
}
