//! The table of registers. (Kernel: "Plane Helper Reference", "Vertical Blanking"; the registers and their order are
//! this device's own.)
ghost use Rattle.std.specs.Prelude.{◌≡◌, IsTrue};
ghost use Rattle.kms_props.specs.Registers.{first_word, is_register, registers, start_of};

use crate::first_row;
use crate::table::Table;
use kms_model::Kind;

/// A register of a plane or of a CRTC: a number from 0 to 20, its place in the table. Each of its words has 32 bits;
/// signed values stand in two's complement.
#[derive(Clone, Copy, PartialEq, Eq)]
pub struct Register(pub u32);

impl Register {
    /// A plane's CRTC: its id, or 0.
    pub const PLANE_CRTC: Register = Register(0);

    /// A plane's framebuffer: its id, or 0.
    pub const FB: Register = Register(1);

    /// The framebuffer's width in pixels.
    pub const FB_WIDTH: Register = Register(2);

    /// The framebuffer's height in pixels.
    pub const FB_HEIGHT: Register = Register(3);

    /// The code of the framebuffer's format.
    pub const FB_FORMAT: Register = Register(4);

    /// The destination's left edge in pixels, signed.
    pub const X: Register = Register(5);

    /// The destination's upper edge in pixels, signed.
    pub const Y: Register = Register(6);

    /// The destination's width in pixels.
    pub const WIDTH: Register = Register(7);

    /// The destination's height in pixels.
    pub const HEIGHT: Register = Register(8);

    /// The source's left edge in 16.16 fixed point.
    pub const SRC_X: Register = Register(9);

    /// The source's upper edge in 16.16 fixed point.
    pub const SRC_Y: Register = Register(10);

    /// The source's width in 16.16 fixed point.
    pub const SRC_WIDTH: Register = Register(11);

    /// The source's height in 16.16 fixed point.
    pub const SRC_HEIGHT: Register = Register(12);

    /// A plane's alpha, a number from 0 to 65535.
    pub const ALPHA: Register = Register(13);

    /// A plane's blend mode, a number from 0 to 2.
    pub const BLEND: Register = Register(14);

    /// A plane's zpos, a number from 0 to 255.
    pub const ZPOS: Register = Register(15);

    /// 1 where a CRTC is on, else 0.
    pub const ACTIVE: Register = Register(16);

    /// The id of the connector whose CRTC it is, or 0.
    pub const CONNECTOR: Register = Register(17);

    /// The 68 bytes of a CRTC's mode as little-endian words, 0 without a mode.
    pub const MODE: Register = Register(18);

    /// 1 where a CRTC has a gamma table, else 0.
    pub const GAMMA_ON: Register = Register(19);

    /// The 256 values of red, of green and of blue of a CRTC's table as little-endian words, 0 without a table.
    pub const GAMMA: Register = Register(20);
}

/// What the words of a register are before anything is written.
#[derive(Clone, Copy, PartialEq, Eq)]
pub enum Start {
    /// A number.
    Word(u32),
    /// The index of the object among those of its kind.
    Index,
}

/// A row of the table of registers.
#[derive(Clone, Copy, PartialEq, Eq)]
pub struct RegisterRow {
    /// The register.
    pub register: Register,
    /// The kind of object that has it.
    pub kind: Kind,
    /// The count of its words.
    pub words: u32,
    /// What each of them is at the start.
    pub start: Start,
}

/// A row of a plane's register of one word.
macro_rules! plane {
    ($register:ident, $start:expr) => {
        RegisterRow { register: Register::$register, kind: Kind::Plane, words: 1, start: $start }
    };
}

/// A row of a CRTC's register, which is 0 at the start.
macro_rules! crtc {
    ($register:ident, $words:literal) => {
        RegisterRow { register: Register::$register, kind: Kind::Crtc, words: $words, start: Start::Word(0) }
    };
}

const REGISTERS: Table<RegisterRow, 21> = Table {
    rows: [
        plane!(PLANE_CRTC, Start::Word(0)),
        plane!(FB, Start::Word(0)),
        plane!(FB_WIDTH, Start::Word(0)),
        plane!(FB_HEIGHT, Start::Word(0)),
        plane!(FB_FORMAT, Start::Word(0)),
        plane!(X, Start::Word(0)),
        plane!(Y, Start::Word(0)),
        plane!(WIDTH, Start::Word(0)),
        plane!(HEIGHT, Start::Word(0)),
        plane!(SRC_X, Start::Word(0)),
        plane!(SRC_Y, Start::Word(0)),
        plane!(SRC_WIDTH, Start::Word(0)),
        plane!(SRC_HEIGHT, Start::Word(0)),
        plane!(ALPHA, Start::Word(65535)),
        plane!(BLEND, Start::Word(0)),
        plane!(ZPOS, Start::Index),
        crtc!(ACTIVE, 1),
        crtc!(CONNECTOR, 1),
        crtc!(MODE, 17),
        crtc!(GAMMA_ON, 1),
        crtc!(GAMMA, 192),
    ],
};

/// The table of registers, those of planes before those of CRTCs.
pub fn register_table() -> Table<RegisterRow, 21>
    ensures { result.rows ≡ registers }
{
    REGISTERS
}

/// What the words of a register are at the start.
fn start_of(register: Register) -> Option<Start>
    ensures { result ≡ start_of register }
{
    first_row!(register_table(), row if row.register.0 == register.0 => row.start)
}

/// A word of a register, one of the table, at the start, of the object with an index among those of its kind.
pub fn first_word(register: Register, index: u32) -> u32
    requires { IsTrue (is_register register) }
    ensures { result ≡ first_word register index }
{
    match start_of(register) {
        Some(Start::Word(word)) => word,
        Some(Start::Index) => index,
        None => unreachable!(),
    }
}
