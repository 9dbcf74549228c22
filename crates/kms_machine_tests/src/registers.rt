//! Latches as a caller sees them. The words of states that were worked out by hand are in the proofs of `kms_regs`
//! (`WordRows`), as no call tells a word.
ghost use Rattle.std.specs.Prelude.{◌<◌, ◌≤◌, length};
ghost use Rattle.kms_model.specs.Device.Sound.{IsPlaneInRange};

use crate::rows::assert_row;
use kms_model::{
    CrtcState, FbInfo, Format, Gamma, Layer, Mode, NoMemory, Picture, PlaneState, Rect, Shown,
    Topology,
};
use kms_regs::RegFile;
use kms_samples::{CONN, CRTC, PLANE, SECOND_CRTC, full_hd, mixed_gamma, split, tiny};
use std::process::Abort;

/// A state of a CRTC.
#[derive(Clone, Copy)]
enum Crtc {
    Off,
    /// On, in the mode of one pixel.
    Lit,
    /// On in that mode, with a gamma table.
    Coloured,
    /// On, in the mode of 1920x1080.
    FullHd,
}

/// A state of a plane: on no CRTC, as at the start, with a zpos; or one that shows the framebuffer 1000 of a pixel, above all
/// others, on a CRTC at a place.
#[derive(Clone, Copy)]
enum Plane {
    Nowhere(u8),
    On(u32, i32, i32),
}

/// A call for a CRTC or a plane, and what it answers.
#[derive(Clone, Copy)]
enum Call {
    /// A CRTC's state changes, which has the connector with an id then.
    WriteCrtc(u32, Crtc, Crtc),
    /// A plane's state changes.
    WritePlane(Plane, Plane),
    /// A flush latches nothing yet.
    Flush,
    /// It latches at once, and shows nothing.
    FlushOff,
    /// A vblank latches nothing.
    Rests,
    /// It latches what is shown then.
    Latches,
    /// The CRTC shows nothing.
    IsOff,
    /// It shows the planes with these ids from the lowest, with a connector, in the mode and with the table of a state.
    Shows(u32, Crtc, &'static [u32]),
    /// It shows one plane at a place.
    ShowsAt(i64, i64),
    /// Whether it latches at its next vblank.
    HasGo(bool),
    /// How many vblanks it has had.
    Counts(u64),
}

/// The index of a CRTC or a plane, and a call for it.
type Row = (u32, Call);

/// The place of most planes.
const PLACED: Plane = Plane::On(CRTC.0, 0, 0);

/// The same on the other CRTC.
const MOVED: Plane = Plane::On(SECOND_CRTC.0, 0, 0);

/// A CRTC latches at its vblank alone.
const LATCHING: [Row; 17] = [
    (0, Call::WriteCrtc(CONN.0, Crtc::Off, Crtc::Lit)),
    (1, Call::WritePlane(Plane::Nowhere(1), PLACED)),
    (0, Call::Rests),
    (0, Call::IsOff),
    (0, Call::Flush),
    (0, Call::HasGo(true)),
    (1, Call::HasGo(false)),
    (1, Call::Rests),
    (0, Call::IsOff),
    (0, Call::Latches),
    (0, Call::Shows(CONN.0, Crtc::Lit, &[PLANE.0 + 1])),
    (0, Call::ShowsAt(0, 0)),
    (1, Call::IsOff),
    (0, Call::HasGo(false)),
    (0, Call::Rests),
    (0, Call::Counts(3)),
    (1, Call::Counts(1)),
];

/// A plane moves over two latches.
const MOVING: [Row; 19] = [
    (0, Call::WriteCrtc(CONN.0, Crtc::Off, Crtc::Lit)),
    (1, Call::WriteCrtc(0, Crtc::Off, Crtc::Lit)),
    (0, Call::WritePlane(Plane::Nowhere(0), PLACED)),
    (0, Call::Flush),
    (1, Call::Flush),
    (0, Call::Latches),
    (1, Call::Latches),
    (0, Call::Shows(CONN.0, Crtc::Lit, &[PLANE.0])),
    (1, Call::Shows(0, Crtc::Lit, &[])),
    (0, Call::WritePlane(PLACED, Plane::Nowhere(0))),
    (0, Call::Flush),
    (0, Call::Shows(CONN.0, Crtc::Lit, &[PLANE.0])),
    (0, Call::Latches),
    (0, Call::Shows(CONN.0, Crtc::Lit, &[])),
    (0, Call::WritePlane(Plane::Nowhere(0), MOVED)),
    (1, Call::Flush),
    (1, Call::Latches),
    (0, Call::Shows(CONN.0, Crtc::Lit, &[])),
    (1, Call::Shows(0, Crtc::Lit, &[PLANE.0])),
];

/// Layers stand by zpos, and then by plane.
const LAYERS: [Row; 6] = [
    (0, Call::WriteCrtc(CONN.0, Crtc::Off, Crtc::Lit)),
    (0, Call::WritePlane(Plane::Nowhere(0), PLACED)),
    (1, Call::WritePlane(Plane::Nowhere(1), PLACED)),
    (0, Call::Flush),
    (0, Call::Latches),
    (0, Call::Shows(CONN.0, Crtc::Lit, &[PLANE.0, PLANE.0 + 1])),
];

/// A CRTC that is off latches at once, and its count goes on.
const GOING_OFF: [Row; 14] = [
    (1, Call::WriteCrtc(CONN.0, Crtc::Off, Crtc::Lit)),
    (1, Call::Flush),
    (1, Call::Latches),
    (1, Call::Rests),
    (1, Call::WriteCrtc(0, Crtc::Lit, Crtc::Off)),
    (1, Call::Shows(CONN.0, Crtc::Lit, &[])),
    (1, Call::FlushOff),
    (1, Call::IsOff),
    (1, Call::HasGo(false)),
    (1, Call::Counts(2)),
    (1, Call::WriteCrtc(CONN.0, Crtc::Off, Crtc::Lit)),
    (1, Call::Flush),
    (1, Call::Latches),
    (1, Call::Counts(3)),
];

/// A changed table is shown from its latch on.
const COLOURING: [Row; 14] = [
    (1, Call::WriteCrtc(CONN.0, Crtc::Off, Crtc::Lit)),
    (1, Call::Flush),
    (1, Call::Latches),
    (1, Call::Shows(CONN.0, Crtc::Lit, &[])),
    (1, Call::WriteCrtc(CONN.0, Crtc::Lit, Crtc::Coloured)),
    (1, Call::Shows(CONN.0, Crtc::Lit, &[])),
    (1, Call::Flush),
    (1, Call::Shows(CONN.0, Crtc::Lit, &[])),
    (1, Call::Latches),
    (1, Call::Shows(CONN.0, Crtc::Coloured, &[])),
    (1, Call::WriteCrtc(CONN.0, Crtc::Coloured, Crtc::Lit)),
    (1, Call::Flush),
    (1, Call::Latches),
    (1, Call::Shows(CONN.0, Crtc::Lit, &[])),
];

/// A mode and the least places come back as they were.
const LEAST: [Row; 6] = [
    (0, Call::WriteCrtc(CONN.0, Crtc::Off, Crtc::FullHd)),
    (
        0,
        Call::WritePlane(Plane::Nowhere(0), Plane::On(CRTC.0, -1, -2147483648)),
    ),
    (0, Call::Flush),
    (0, Call::Latches),
    (0, Call::Shows(CONN.0, Crtc::FullHd, &[PLANE.0])),
    (0, Call::ShowsAt(-1, -2147483648)),
];

const TABLES: [(&str, &[Row]); 6] = [
    ("latching", &LATCHING),
    ("moving", &MOVING),
    ("layers", &LAYERS),
    ("going off", &GOING_OFF),
    ("colouring", &COLOURING),
    ("least places", &LEAST),
];

fn mode_of(crtc: Crtc) -> Mode {
    match crtc {
        Crtc::FullHd => full_hd(),
        _ => tiny(),
    }
}

fn gamma_of(crtc: Crtc) -> Option<Gamma> {
    match crtc {
        Crtc::Coloured => Some(mixed_gamma()),
        _ => None,
    }
}

fn crtc_state(crtc: Crtc) -> CrtcState {
    if let Crtc::Off = crtc {
        return CrtcState::OFF;
    }
    CrtcState {
        active: true,
        mode: Some(mode_of(crtc)),
        gamma: gamma_of(crtc),
        ..CrtcState::OFF
    }
}

/// A plane on no CRTC.
fn no_plane(zpos: u8) -> PlaneState
    ensures { IsPlaneInRange result }
{
    PlaneState {
        zpos: u32::from(zpos),
        ..PlaneState::OFF
    }
}

/// A plane that shows a pixel.
fn placed(crtc: u32, x: i32, y: i32) -> PlaneState
    ensures { IsPlaneInRange result }
{
    PlaneState {
        fb: Some(FbInfo {
            id: 1000,
            width: 1,
            height: 1,
            format: Format::Ar24,
        }),
        crtc,
        dst: Rect {
            x: i64::from(x),
            y: i64::from(y),
            w: 1,
            h: 1,
        },
        src: Rect {
            x: 0,
            y: 0,
            w: 65536,
            h: 65536,
        },
        alpha: 65535,
        blend: 1,
        zpos: 7,
    }
}

fn plane_state(plane: Plane) -> PlaneState
    ensures { IsPlaneInRange result }
{
    match plane {
        Plane::Nowhere(zpos) => no_plane(zpos),
        Plane::On(crtc, x, y) => placed(crtc, x, y),
    }
}

/// Writes a plane. True where its words were those of the old state, and are those of the new one then.
fn writes_plane(regs: &mut RegFile, index: u32, old: Plane, new: Plane) -> bool
    requires { index < 16 }
{
    let old = plane_state(old);
    let new = plane_state(new);
    let was = regs.has_plane(index, &old);
    regs.write_plane(index, &old, &new);
    was && regs.has_plane(index, &new)
}

/// The same of a CRTC.
fn writes_crtc(regs: &mut RegFile, index: u32, conn: u32, old: Crtc, new: Crtc) -> bool
    requires { index < 4 }
{
    let old = crtc_state(old);
    let new = crtc_state(new);
    let was = regs.has_crtc(index, &old);
    regs.write_crtc(index, conn, &old, &new);
    was && regs.has_crtc(index, &new) && regs.is_on_in_shadow(index) == new.active
}

/// Meets a vblank. True where it latches, or not, and gives what is shown then.
fn blanks(regs: &mut RegFile, crtc: u32, latches: bool) -> bool
    requires { crtc < 4 }
{
    if regs.count(crtc) > 100 {
        return false;
    }
    match regs.vblank(crtc) {
        Some(picture) => latches && picture == regs.decode_live(crtc),
        None => !latches,
    }
}

/// Whether a CRTC is off.
fn is_off(regs: &RegFile, crtc: u32) -> bool
    requires { crtc < 4 }
{
    !regs.is_on(crtc) && regs.live_layers(crtc).len() == 0 && regs.decode_live(crtc) == Picture::Off
}

/// What a CRTC shows, if it is on.
fn shown(regs: &RegFile, crtc: u32) -> Option<Shown>
    requires { crtc < 4 }
{
    match regs.decode_live(crtc) {
        Picture::Off => None,
        Picture::On(shown) => Some(shown),
    }
}

/// Whether layers are those of the planes with these ids, and show the framebuffer of all planes.
fn are_of(layers: &[Layer], planes: &[u32]) -> bool {
    for (layer, plane) in layers.iter().zip(planes) {
        if layer.plane != *plane || layer.fb.id != 1000 {
            return false;
        }
    }
    layers.len() == planes.len()
}

/// Whether a CRTC shows these planes, in the mode and with the table of a state.
fn shows(regs: &RegFile, crtc: u32, conn: u32, state: Crtc, planes: &[u32]) -> bool
    requires { crtc < 4 }
{
    let Some(shown) = shown(regs, crtc) else {
        return false;
    };
    regs.is_on(crtc)
        && shown.conn == conn
        && shown.mode == mode_of(state)
        && shown.gamma == gamma_of(state)
        && are_of(shown.layers.as_slice(), planes)
        && are_of(regs.live_layers(crtc).as_slice(), planes)
        && regs.shows(crtc, 1000) == !planes.is_empty()
        && !regs.shows(crtc, 0)
}

/// Whether a CRTC shows one plane, at a place and in its format.
fn shows_at(regs: &RegFile, crtc: u32, x: i64, y: i64) -> bool
    requires { crtc < 4 }
{
    match regs.live_layers(crtc).as_slice() {
        [layer] => layer.dst.x == x && layer.dst.y == y && layer.fb.format == Format::Ar24,
        _ => false,
    }
}

/// Whether the registers of a CRTC answer what a row says.
fn tells(regs: &RegFile, crtc: u32, call: Call) -> bool
    requires { crtc < 4 }
{
    match call {
        Call::IsOff => is_off(regs, crtc),
        Call::Shows(conn, state, planes) => shows(regs, crtc, conn, state, planes),
        Call::ShowsAt(x, y) => shows_at(regs, crtc, x, y),
        Call::HasGo(want) => regs.has_go(crtc) == want,
        Call::Counts(want) => regs.count(crtc) == want,
        _ => false,
    }
}

/// Makes a call for a CRTC. True where it answers what the row says.
fn answers(regs: &mut RegFile, crtc: u32, call: Call) -> bool
    requires { crtc < 4 }
{
    match call {
        Call::WriteCrtc(conn, old, new) => writes_crtc(regs, crtc, conn, old, new),
        Call::Flush => regs.flush(crtc).is_none(),
        Call::FlushOff => regs.flush(crtc) == Some(Picture::Off),
        Call::Rests => blanks(regs, crtc, false),
        Call::Latches => blanks(regs, crtc, true),
        other => tells(regs, crtc, other),
    }
}

/// Makes the call of a row. True where it answers what the row says.
fn answers_row(regs: &mut RegFile, index: u32, call: Call) -> bool {
    if let Call::WritePlane(old, new) = call {
        return index < 16 && writes_plane(regs, index, old, new);
    }
    index < 4 && answers(regs, index, call)
}

/// Makes the calls of a table.
fn follow(rt: &impl Abort, regs: &mut RegFile, table: &str, rows: &[Row]) {
    for (row, (index, call)) in rows.iter().enumerate() {
        assert_row(rt, answers_row(regs, *index, *call), table, row);
    }
}

/// Makes the calls of a table on new registers.
fn follow_new(rt: &impl Abort, device: &Topology, table: &str, rows: &[Row])
    requires { length device.now.planes ≤ 16 }
{
    let mut regs = RegFile::new(device);
    follow(rt, &mut regs, table, rows);
}

#[test]
fn latches_show_what_was_written(rt: HostRuntime) -> Result<(), NoMemory> {
    let device = split(rt.alloc())?;
    for (table, rows) in TABLES {
        follow_new(&rt, &device, table, rows);
    }
    Ok(())
}
