//! Duplicated states that sets change, each set with what it leaves.
ghost use Rattle.std.specs.Prelude.{All, IsTrue};
ghost use Rattle.kms_model.specs.declared.properties.TheConstants as properties;
ghost use Rattle.kms_model.specs.declared.sets.SetValue.TheVariants as to;
ghost use Rattle.kms_model.specs.Request.SetRanges.{may_set};
ghost use Rattle.kms_model.specs.Device.Objects.{kind_of};

use kms_model::properties::{
    ACTIVE, ALPHA, BLEND, CRTC_H, CRTC_ID, CRTC_W, CRTC_X, CRTC_Y, FB_ID, GAMMA_LUT, IN_FENCE_FD,
    MODE_ID, OUT_FENCE_PTR, SRC_H, SRC_W, SRC_X, SRC_Y, ZPOS,
};
use kms_model::{
    ConnState, CrtcState, Duplicates, FIRST_CONNECTOR_ID, FIRST_CRTC_ID, FIRST_ENCODER_ID,
    FIRST_PLANE_ID, FbInfo, Format, ObjId, ObjState, PlaneState, Rect, Set, SetValue,
};
use kms_samples::{full_hd, mixed_gamma};
use kms_state::Duplicating;
use std::process::Abort;

/// The ids of the first objects of each kind.
const CRTC: u32 = FIRST_CRTC_ID;

const PLANE: u32 = FIRST_PLANE_ID;

const CONN: u32 = FIRST_CONNECTOR_ID;

const ENC: u32 = FIRST_ENCODER_ID;

fn a_plane(crtc: u32) -> ObjState {
    ObjState::Plane(PlaneState {
        crtc,
        zpos: 1,
        ..PlaneState::OFF
    })
}

fn a_crtc(planes: u32, conns: u32) -> ObjState {
    ObjState::Crtc(CrtcState {
        planes,
        conns,
        ..CrtcState::OFF
    })
}

fn a_conn(crtc: u32) -> ObjState {
    ObjState::Conn(ConnState { crtc })
}

/// Duplicates states that may be duplicated.
fn add_all(rt: &impl Abort, states: &mut Duplicates, all: &[(u32, ObjState)]) {
    for (id, state) in all {
        assert!(rt; states.may_duplicate(ObjId(*id), state), "{id}");
        states.duplicate(ObjId(*id), *state);
    }
}

/// Sets a property of an object that is duplicated.
fn put(rt: &impl Abort, states: &mut Duplicates, object: u32, prop: u32, value: SetValue)
    requires { IsTrue (may_set (kind_of object) prop value) }
{
    let object = ObjId(object);
    assert!(rt; states.is_duplicated(object), "{}", object.0);
    states.set(&Set {
        object,
        prop,
        value,
    });
}

/// The planes and the connectors of a CRTC, old and new.
fn masks(states: &Duplicates, index: u32) -> Option<[u32; 4]> {
    let both = states.crtc(index)?;
    Some([
        both.old.planes,
        both.old.conns,
        both.new.planes,
        both.new.conns,
    ])
}

/// Puts planes and connectors on CRTCs, by the ids, and asserts each time what is then on the first and on the last CRTC.
fn assert_moves(rt: &impl Abort, states: &mut Duplicates, moves: &[(u32, u32, [u32; 4], [u32; 4])])
    requires { All (λ m. IsTrue (may_set (kind_of m.0) properties.CRTC_ID (to.Crtc m.1))) moves.now }
{
    for (object, crtc, first, last) in moves {
        put(rt, states, *object, CRTC_ID, SetValue::Crtc(*crtc));
        assert!(rt;
            masks(states, 0) == Some(*first),
            "{object} on {crtc}: the first CRTC"
        );
        assert!(rt;
            masks(states, 3) == Some(*last),
            "{object} on {crtc}: the last CRTC"
        );
    }
}

/// Plane 0 and connector 0 are on CRTC 0, plane 15 and connector 7 are on the last CRTC.
fn device(rt: &impl Abort) -> Duplicates {
    let mut states = Duplicates::empty();
    let all = [
        (CRTC, a_crtc(0x1, 0x1)),
        (CRTC + 3, a_crtc(0x8000, 0x80)),
        (PLANE, a_plane(CRTC)),
        (PLANE + 15, a_plane(CRTC + 3)),
        (CONN, a_conn(CRTC)),
        (CONN + 7, a_conn(CRTC + 3)),
    ];
    add_all(rt, &mut states, &all);
    states
}

#[test]
fn what_moves_is_on_its_new_crtc_alone(rt: HostRuntime) {
    let mut states = device(&rt);
    let moves = [
        (PLANE, CRTC + 3, [1, 1, 0, 1], [0x8000, 0x80, 0x8001, 0x80]),
        (PLANE + 15, 0, [1, 1, 0, 1], [0x8000, 0x80, 1, 0x80]),
        (PLANE, CRTC, [1, 1, 1, 1], [0x8000, 0x80, 0, 0x80]),
        (PLANE, CRTC, [1, 1, 1, 1], [0x8000, 0x80, 0, 0x80]),
        (CONN + 7, CRTC, [1, 1, 1, 0x81], [0x8000, 0x80, 0, 0]),
        (CONN, 0, [1, 1, 1, 0x80], [0x8000, 0x80, 0, 0]),
    ];
    assert_moves(&rt, &mut states, &moves);
    assert!(rt;
        states
            .plane(15)
            .is_some_and(|b| b.old.crtc == CRTC + 3 && b.new.crtc == 0)
    );
    assert!(rt;
        states
            .conn(7)
            .is_some_and(|b| b.old.crtc == CRTC + 3 && b.new.crtc == CRTC)
    );
    assert!(rt; states.new_conn(0).is_some_and(|c| c.crtc == 0));
}

/// A CRTC keeps what is in its sets that no device has, and only CRTCs that are duplicated have sets.
#[test]
fn sets_change_by_one_object(rt: HostRuntime) {
    let mut states = Duplicates::empty();
    let all = [
        (CRTC, a_crtc(0xFFFF_0000, 2)),
        (CRTC + 3, a_crtc(0x1, 0)),
        (PLANE, a_plane(CRTC)),
        (PLANE + 1, a_plane(CRTC + 1)),
    ];
    add_all(&rt, &mut states, &all);
    let moves = [
        (PLANE, CRTC, [0xFFFF_0000, 2, 0xFFFF_0001, 2], [1, 0, 1, 0]),
        (
            PLANE + 1,
            CRTC + 2,
            [0xFFFF_0000, 2, 0xFFFF_0001, 2],
            [1, 0, 1, 0],
        ),
        (
            PLANE + 1,
            CRTC,
            [0xFFFF_0000, 2, 0xFFFF_0003, 2],
            [1, 0, 1, 0],
        ),
    ];
    assert_moves(&rt, &mut states, &moves);
    assert!(rt; masks(&states, 1).is_none() && masks(&states, 2).is_none());
}

/// Sets numbers of the first plane.
fn put_numbers(rt: &impl Abort, states: &mut Duplicates, numbers: &[(u32, i64)])
    requires { All (λ n. IsTrue (may_set (kind_of 200) n.0 (to.Num n.1))) numbers.now }
{
    for (prop, number) in numbers {
        put(rt, states, PLANE, *prop, SetValue::Num(*number));
    }
}

const FB: FbInfo = FbInfo {
    id: 1001,
    width: 3,
    height: 2,
    format: Format::Rg16,
};

/// The plane after each of its properties was set.
const WHOLE: PlaneState = PlaneState {
    fb: Some(FB),
    crtc: CRTC,
    dst: Rect {
        x: -2147483648,
        y: 2147483647,
        w: 4,
        h: 5,
    },
    src: Rect {
        x: 4294967295,
        y: 7,
        w: 8,
        h: 9,
    },
    alpha: 10,
    blend: 2,
    zpos: 255,
};

#[test]
fn each_property_of_a_plane_is_set_by_itself(rt: HostRuntime) {
    let mut states = device(&rt);
    put(&rt, &mut states, PLANE, FB_ID, SetValue::Fb(Some(FB)));
    let destination = [
        (CRTC_X, -2147483648),
        (CRTC_Y, 2147483647),
        (CRTC_W, 4),
        (CRTC_H, 5),
    ];
    put_numbers(&rt, &mut states, &destination);
    let source = [(SRC_X, 4294967295), (SRC_Y, 7), (SRC_W, 8), (SRC_H, 9)];
    put_numbers(&rt, &mut states, &source);
    put_numbers(&rt, &mut states, &[(ALPHA, 10), (BLEND, 2), (ZPOS, 255)]);
    put(&rt, &mut states, PLANE, IN_FENCE_FD, SetValue::Fence);
    assert!(rt; states.new_plane(0) == Some(WHOLE));
    assert!(rt; states.plane(0).is_some_and(|b| b.old.zpos == 1));
    assert!(rt; states.new_plane(15).is_some_and(|p| p.zpos == 1));
    assert!(rt; masks(&states, 0) == Some([1, 1, 1, 1]));
}

/// A CRTC that is lit with a mode and a table; it keeps the table while it is off.
#[test]
fn each_property_of_a_crtc_is_set_by_itself(rt: HostRuntime) {
    let mut states = device(&rt);
    let (mode, gamma) = (Some(full_hd()), Some(mixed_gamma()));
    put(&rt, &mut states, CRTC + 3, ACTIVE, SetValue::Num(1));
    put(&rt, &mut states, CRTC + 3, MODE_ID, SetValue::Mode(mode));
    put(
        &rt,
        &mut states,
        CRTC + 3,
        GAMMA_LUT,
        SetValue::Gamma(gamma),
    );
    put(&rt, &mut states, CRTC + 3, OUT_FENCE_PTR, SetValue::Fence);
    let on = CrtcState {
        active: true,
        mode,
        gamma,
        planes: 0x8000,
        conns: 0x80,
    };
    assert!(rt; states.new_crtc(3) == Some(on));
    put(&rt, &mut states, CRTC + 3, ACTIVE, SetValue::Num(0));
    put(&rt, &mut states, CRTC + 3, MODE_ID, SetValue::Mode(None));
    let off = CrtcState {
        active: false,
        mode: None,
        ..on
    };
    assert!(rt; states.new_crtc(3) == Some(off));
    put(&rt, &mut states, CRTC + 3, GAMMA_LUT, SetValue::Gamma(None));
    assert!(rt; states.new_crtc(3) == Some(CrtcState { gamma: None, ..off }));
    assert!(rt;
        states
            .crtc(3)
            .is_some_and(|b| b.old == CrtcState { gamma: None, ..off })
    );
    assert!(rt;
        states
            .new_crtc(0)
            .is_some_and(|c| !c.active && c.gamma.is_none())
    );
}

/// Asserts of each id whether it is that of a duplicated object, and whether the state of a plane, of a CRTC and of a
/// connector may be duplicated there.
fn assert_places(rt: &impl Abort, states: &Duplicates, places: &[(u32, [bool; 4])]) {
    for (id, want) in places {
        let id = ObjId(*id);
        let found = [
            states.is_duplicated(id),
            states.may_duplicate(id, &a_plane(0)),
            states.may_duplicate(id, &a_crtc(0, 0)),
            states.may_duplicate(id, &a_conn(0)),
        ];
        assert!(rt; found == *want, "{}", id.0);
    }
}

#[test]
fn ids_that_are_no_objects_have_no_place(rt: HostRuntime) {
    let none = [false; 4];
    let there = [true, false, false, false];
    let of_crtc = [false, false, true, false];
    let of_plane = [false, true, false, false];
    let of_conn = [false, false, false, true];
    let places = [
        (0, none),
        (CRTC - 1, none),
        (CRTC, there),
        (CRTC + 1, of_crtc),
        (CRTC + 3, there),
        (CRTC + 4, none),
        (PLANE - 1, none),
        (PLANE, there),
        (PLANE + 1, of_plane),
        (PLANE + 14, of_plane),
        (PLANE + 15, there),
        (PLANE + 16, none),
        (CONN - 1, none),
        (CONN, there),
        (CONN + 1, of_conn),
        (CONN + 7, there),
        (CONN + 8, none),
        (ENC - 1, none),
        (ENC, none),
    ];
    assert_places(&rt, &device(&rt), &places);
}
