//! Devices.
ghost use Rattle.std.specs.Prelude.{◌≡◌, IfOk};
ghost use Rattle.kms_model.specs.Device.Sound.{IsDevice};
ghost use Rattle.kms_samples.specs.Samples.{cloned, device_with, double, in_profile_2, pair, plane_of, single, split};

use kms_model::{NoMemory, PlaneInfo, Seq, Topology};
use std::alloc::Global;

/// A primary plane that takes XR24 alone. `crtcs` is the mask of its possible CRTCs.
pub fn plane_of(crtcs: u32) -> PlaneInfo
    ensures { result ≡ plane_of crtcs }
{
    PlaneInfo {
        kind: 1,
        crtcs,
        formats: 1,
    }
}

/// A device of profile 1, of this many CRTCs, these planes and connectors, each of which is the mask of its possible CRTCs.
fn device_with(
    alloc: Global,
    crtcs: u32,
    planes: &[PlaneInfo],
    conns: &[u32],
) -> Result<Topology, NoMemory>
    ensures { IfOk result (λ t. t ≡ device_with crtcs planes.now conns.now) }
{
    Ok(Topology {
        profile: 1,
        crtcs,
        planes: Seq::from_vec(planes.to_vec(alloc)?),
        conns: Seq::from_vec(conns.to_vec(alloc)?),
    })
}

/// The smallest device: one CRTC, a plane of it and a connector of it.
pub fn single(alloc: Global) -> Result<Topology, NoMemory>
    ensures value { IfOk result (λ t. t ≡ single) }
    ensures device { IfOk result IsDevice }
{
    device_with(alloc, 1, &[plane_of(1)], &[1])
}

/// One CRTC, a plane and two connectors of it.
pub fn cloned(alloc: Global) -> Result<Topology, NoMemory>
    ensures value { IfOk result (λ t. t ≡ cloned) }
    ensures device { IfOk result IsDevice }
{
    device_with(alloc, 1, &[plane_of(1)], &[1, 1])
}

/// Two CRTCs, a plane of both, one of the first alone and a connector of the first alone.
pub fn pair(alloc: Global) -> Result<Topology, NoMemory>
    ensures value { IfOk result (λ t. t ≡ pair) }
    ensures device { IfOk result IsDevice }
{
    device_with(alloc, 2, &[plane_of(3), plane_of(1)], &[1])
}

/// As [`pair`], with a second connector of the first CRTC alone.
pub fn double(alloc: Global) -> Result<Topology, NoMemory>
    ensures value { IfOk result (λ t. t ≡ double) }
    ensures device { IfOk result IsDevice }
{
    device_with(alloc, 2, &[plane_of(3), plane_of(1)], &[1, 1])
}

/// Two CRTCs, and two planes and a connector that go on each of them; the planes take every format.
pub fn split(alloc: Global) -> Result<Topology, NoMemory>
    ensures value { IfOk result (λ t. t ≡ split) }
    ensures device { IfOk result IsDevice }
{
    let plane = PlaneInfo {
        formats: 7,
        ..plane_of(3)
    };
    device_with(alloc, 2, &[plane, plane], &[3])
}

/// The same device in profile 2: its planes may scale, and its CRTCs have gamma tables.
pub fn in_profile_2(topology: Topology) -> Topology
    requires { IsDevice topology }
    ensures value { result ≡ in_profile_2 topology }
    ensures device { IsDevice result }
{
    Topology {
        profile: 2,
        ..topology
    }
}
