//! The framebuffers that states and layers name.
ghost use Rattle.std.specs.Prelude.{◌≤◌};
ghost use Rattle.arrayvec.specs.ArrayVec.{array_vec_len};

use crate::rows::{assert_row, assert_rows};
use arrayvec::ArrayVec;
use kms_core::{any_names, both_name, put_both, shown_ids};
use kms_model::{Both, FbInfo, Format, Layer, PlaneState};

/// A framebuffer with an id.
fn fb(id: u32) -> FbInfo {
    FbInfo {
        id,
        width: 1,
        height: 1,
        format: Format::Xr24,
    }
}

/// A plane that shows the framebuffer with an id.
fn plane(id: u32) -> PlaneState {
    PlaneState {
        fb: Some(fb(id)),
        ..PlaneState::OFF
    }
}

/// The states of a plane that showed one framebuffer, and shows another.
fn both(old: u32, new: u32) -> Option<Both<PlaneState>> {
    Some(Both {
        old: plane(old),
        new: plane(new),
    })
}

/// A layer that shows the framebuffer with an id.
fn layer(id: u32) -> Layer {
    Layer {
        fb: fb(id),
        ..Layer::BLANK
    }
}

/// The framebuffers of three planes, of which the second has no states.
fn named() -> ArrayVec<u32, 32> {
    let mut ids = ArrayVec::new();
    put_both(&mut ids, both(1004, 1002));
    put_both(&mut ids, None);
    put_both(&mut ids, both(1002, 1003));
    ids
}

#[test]
fn framebuffers_stand_in_order_of_id(rt: HostRuntime) {
    let shown = shown_ids(&[layer(1003), layer(1001), layer(1003)]);
    let rows = [
        shown.as_slice() == [1001, 1003].as_slice(),
        shown_ids(&[]).as_slice().is_empty(),
        named().as_slice() == [1002, 1003, 1004].as_slice(),
    ];
    assert_rows(&rt, &rows, "layers, no layers, planes");
}

/// Framebuffers, whether a plane that showed 1001 and shows 1002 names each by its new state, and by one of both.
const NAMES: [(u32, bool, bool); 3] = [
    (1001, false, true),
    (1002, true, true),
    (1003, false, false),
];

#[test]
fn a_plane_names_its_new_framebuffer_and_a_commit_its_old_one_too(rt: HostRuntime) {
    let states = [None, both(1001, 1002)];
    for (row, (id, by_new, by_both)) in NAMES.iter().enumerate() {
        let holds = any_names(&states, *id) == *by_new
            && both_name(states[1], *id) == *by_both
            && !both_name(None, *id);
        assert_row(&rt, holds, "framebuffers", row);
    }
}
