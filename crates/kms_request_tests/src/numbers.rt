//! Values that no script spells.
ghost use Rattle.kms_model.specs.Device.Sound.{IsDevice};

use kms_model::properties::{
    ACTIVE, ALPHA, BLEND, CRTC_ID, CRTC_W, CRTC_X, FB_ID, GAMMA_LUT, MODE_ID, OUT_FENCE_PTR, SRC_W,
    SRC_X, ZPOS,
};
use kms_model::{Assign, Kind, NoMemory, Refusal, Seq, Topology, Value};
use kms_request::early;
use kms_samples::{on_crtc, on_plane, request, set, split};
use std::alloc::Global;
use std::process::Abort;

/// Asserts which refusal one assignment meets on a device, where labels name nothing.
#[tactic(auto, using(crate::proofs::Standing::stands_limits))]
fn assert_refused<R: Abort>(
    rt: &R,
    alloc: Global,
    topology: &Topology,
    assign: Assign,
    want: Refusal,
) -> Result<(), NoMemory>
    requires { IsDevice topology.now }
{
    let request = request(alloc, 0, &[assign], &[])?;
    let refusal = early(topology, &request, &Seq::new(alloc));
    assert!(rt; refusal == Some(want), "{}", want.0);
    Ok(())
}

/// Each of these numbers is 0 or 1 in its lower 64 bits.
#[test]
fn numbers_are_not_cut_to_64_bits(rt: HostRuntime) -> Result<(), NoMemory> {
    let a = rt.alloc();
    let device = split(a)?;
    for number in [
        18446744073709551616,
        18446744073709551617,
        -18446744073709551616,
    ] {
        for prop in [
            FB_ID, CRTC_ID, CRTC_X, CRTC_W, SRC_X, SRC_W, ALPHA, BLEND, ZPOS,
        ] {
            let assign = on_plane(prop, Value::Num(number));
            assert_refused(&rt, a, &device, assign, Refusal::INVALID_VALUE)?;
        }
        for prop in [ACTIVE, MODE_ID, OUT_FENCE_PTR] {
            let assign = on_crtc(prop, Value::Num(number));
            assert_refused(&rt, a, &device, assign, Refusal::INVALID_VALUE)?;
        }
    }
    Ok(())
}

/// CRTCs beyond all indices, and a property that this profile has not, by its id.
#[test]
fn indices_and_ids_are_not_cut(rt: HostRuntime) -> Result<(), NoMemory> {
    let a = rt.alloc();
    let device = split(a)?;
    for (kind, prop, value, want) in [
        (
            Kind::Plane,
            CRTC_ID,
            Value::Crtc(u32::MAX),
            Refusal::INVALID_VALUE,
        ),
        (
            Kind::Conn,
            CRTC_ID,
            Value::Crtc(u32::MAX),
            Refusal::INVALID_VALUE,
        ),
        (Kind::Crtc, GAMMA_LUT, Value::Num(0), Refusal::NO_PROPERTY),
        (Kind::Plane, GAMMA_LUT, Value::Num(0), Refusal::NO_PROPERTY),
    ] {
        assert_refused(&rt, a, &device, set(kind, 0, prop, value), want)?;
    }
    Ok(())
}
