//! Pictures of duplicated states.
use kms_model::{
    Both, CrtcState, Duplicates, FIRST_CONNECTOR_ID, FIRST_CRTC_ID, FIRST_PLANE_ID, FbInfo, Format,
    Layer, Picture, PlaneState, Rect, Shown,
};
use kms_picture::{may_picture, picture};
use kms_samples::{FLAT_GAMMA, sized_mode};
use kms_state::Duplicating;
use std::process::Abort;

const SOURCE: Rect = Rect {
    x: 0,
    y: 65536,
    w: 262144,
    h: 262144,
};

fn a_framebuffer(id: u32) -> FbInfo {
    FbInfo {
        id,
        width: 4,
        height: 5,
        format: Format::Ar24,
    }
}

/// A plane that shows a framebuffer, which had none before.
fn a_plane(crtc: u32, id: u32, x: i64, zpos: u32) -> Option<Both<PlaneState>> {
    let new = PlaneState {
        fb: Some(a_framebuffer(id)),
        crtc,
        dst: Rect {
            x,
            y: 6,
            w: 4,
            h: 4,
        },
        src: SOURCE,
        alpha: 32768,
        blend: 1,
        zpos,
    };
    let old = PlaneState {
        fb: None,
        crtc: 0,
        ..new
    };
    Some(Both { old, new })
}

/// A CRTC with these planes and the connector with index 6, before it goes on.
const OFF: CrtcState = CrtcState {
    planes: 0x8019,
    conns: 0x40,
    ..CrtcState::OFF
};

/// Planes 0, 3, 4 and 15 are on CRTC 1, which goes on, and so is connector 6; plane 1 is on another CRTC.
fn device() -> Duplicates {
    let crtc = FIRST_CRTC_ID + 1;
    let on = CrtcState {
        active: true,
        mode: Some(sized_mode(10, 8)),
        ..OFF
    };
    let mut states = Duplicates::empty();
    states.crtcs[1] = Some(Both { old: OFF, new: on });
    states.planes[0] = a_plane(crtc, 1000, -2, 7);
    states.planes[1] = a_plane(FIRST_CRTC_ID, 1001, 0, 0);
    states.planes[3] = a_plane(crtc, 1003, 7, 5);
    states.planes[4] = a_plane(crtc, 1004, 12, 7);
    states.planes[15] = a_plane(crtc, 1015, 1, 5);
    states
}

/// What a CRTC shows, which can be told.
fn show(rt: &impl Abort, states: &Duplicates, crtc: u32) -> Option<Shown> {
    assert!(rt; may_picture(states, crtc));
    match picture(states, crtc) {
        Picture::On(shown) => Some(shown),
        Picture::Off => None,
    }
}

/// A rectangle of so many columns and two rows, where destinations end below the mode.
fn two_rows(x: i64, w: i64) -> Option<Rect> {
    Some(Rect { x, y: 6, w, h: 2 })
}

/// Whether a layer is that of a plane, by its index, with its framebuffer, and is seen there.
fn is_layer(layer: &Layer, index: u32, visible: Option<Rect>) -> bool {
    layer.plane == FIRST_PLANE_ID.saturating_add(index)
        && layer.fb == a_framebuffer(1000u32.saturating_add(index))
        && layer.src == SOURCE
        && layer.alpha == 32768
        && layer.blend == 1
        && layer.visible == visible
}

/// Asserts which layers there are, from the lowest.
fn assert_layers(rt: &impl Abort, layers: &[Layer], wants: &[(u32, Option<Rect>)]) {
    assert!(rt; layers.len() == wants.len());
    for (layer, (index, visible)) in layers.iter().zip(wants) {
        assert!(rt; is_layer(layer, *index, *visible), "plane {index}");
    }
}

/// Layers stand by zpos and then by plane, each with its destination as far as it is in the mode.
#[test]
fn a_crtc_shows_its_planes(rt: HostRuntime) {
    let Some(shown) = show(&rt, &device(), 1) else {
        assert!(rt; false, "it is on");
        return;
    };
    assert!(rt; shown.mode == sized_mode(10, 8));
    assert!(rt; shown.conn == FIRST_CONNECTOR_ID + 6);
    assert!(rt; shown.gamma.is_none());
    let wants = [
        (3, two_rows(7, 3)),
        (15, two_rows(1, 4)),
        (0, two_rows(0, 2)),
        (4, None),
    ];
    assert_layers(&rt, shown.layers.as_slice(), &wants);
}

/// States in which one CRTC alone is duplicated, old and new alike.
fn with_crtc(index: usize, state: CrtcState) -> Duplicates {
    let mut states = Duplicates::empty();
    if let Some(place) = states.crtcs.get_mut(index) {
        *place = Some(Both {
            old: state,
            new: state,
        });
    }
    states
}

/// A CRTC that is off or has no mode shows nothing, one without planes and connectors is black, and one with a table shows
/// through it.
#[test]
fn a_picture_is_that_of_its_crtc(rt: HostRuntime) {
    let empty = CrtcState {
        active: true,
        mode: Some(sized_mode(10, 8)),
        ..CrtcState::OFF
    };
    let black = show(&rt, &with_crtc(3, empty), 3);
    assert!(rt;
        black.is_some_and(|s| s.mode == sized_mode(10, 8)
            && s.conn == 0
            && s.layers.len() == 0
            && s.gamma.is_none())
    );
    let with_table = CrtcState {
        gamma: Some(FLAT_GAMMA),
        ..empty
    };
    let seen = show(&rt, &with_crtc(3, with_table), 3);
    assert!(rt; seen.is_some_and(|s| s.gamma == Some(FLAT_GAMMA)));
    for off in [
        CrtcState {
            mode: None,
            ..empty
        },
        CrtcState {
            active: false,
            ..empty
        },
    ] {
        assert!(rt; show(&rt, &with_crtc(0, off), 0).is_none());
    }
}

/// The table is that of the new state.
#[test]
fn a_table_that_goes_is_not_shown(rt: HostRuntime) {
    let mut states = device();
    if let Some(both) = &mut states.crtcs[1] {
        both.old.gamma = Some(FLAT_GAMMA);
    }
    assert!(rt; show(&rt, &states, 1).is_some_and(|s| s.gamma.is_none()));
}

/// Asserts whether the pictures of a CRTC that is there, of one that is not duplicated and of one beyond all can be told.
fn assert_may(rt: &impl Abort, states: &Duplicates, want: bool) {
    assert!(rt; may_picture(states, 1) == want);
    assert!(rt; !may_picture(states, 0));
    assert!(rt; !may_picture(states, 4));
}

#[test]
fn all_planes_of_a_crtc_are_to_be_there(rt: HostRuntime) {
    let mut states = device();
    assert_may(&rt, &states, true);
    states.planes[1] = None;
    assert_may(&rt, &states, true);
    states.planes[15] = a_plane(FIRST_CRTC_ID + 1, 1015, 2147483648, 5);
    assert_may(&rt, &states, false);
    states.planes[15] = None;
    assert_may(&rt, &states, false);
}
