//! The states of a device's objects before the first command.
ghost use Rattle.std.specs.Prelude.{◌≡◌, ◌≤◌};
ghost use Rattle.kms_model.specs.Device.Places.{alike};
ghost use Rattle.kms_model.specs.Device.Sound.{IsDevice};
ghost use Rattle.kms_model.specs.Device.World.{start};
ghost use Rattle.kms_things.specs.Present.{IsPresent};
ghost use Rattle.kms_things.specs.Starting.{off_conn, off_crtc, off_plane, start_states, states_below};

use kms_model::{Both, ConnState, CrtcState, Duplicates, PlaneState, Topology};

/// A plane before the first command.
fn off_plane(index: u32) -> PlaneState
    ensures { result ≡ off_plane index }
{
    PlaneState {
        zpos: index,
        ..PlaneState::OFF
    }
}

/// The states of the first CRTCs.
fn start_crtcs(count: usize) -> [Option<Both<CrtcState>>; 4]
    requires { count ≤ 4 }
    ensures { result ≡ states_below 4 (λ index. off_crtc) count }
{
    let mut states = [None; 4];
    for index in 0..count {
        states[index] = Some(alike(CrtcState::OFF));
    }
    states
}

/// The states of the first planes.
fn start_planes(count: usize) -> [Option<Both<PlaneState>>; 16]
    requires { count ≤ 16 }
    ensures { result ≡ states_below 16 off_plane count }
{
    let mut states = [None; 16];
    for index in 0..count {
        states[index] = Some(alike(off_plane(index as u32)));
    }
    states
}

/// The states of the first connectors.
fn start_conns(count: usize) -> [Option<Both<ConnState>>; 8]
    requires { count ≤ 8 }
    ensures { result ≡ states_below 8 (λ index. off_conn) count }
{
    let mut states = [None; 8];
    for index in 0..count {
        states[index] = Some(alike(ConnState::OFF));
    }
    states
}

/// The states of all objects of a device before the first command, old and new alike.
pub fn start_states(topology: &Topology) -> Duplicates
    requires { IsDevice topology.now }
    ensures states { result ≡ start_states topology.now }
    ensures present { IsPresent topology.now (start topology.now) result }
{
    Duplicates {
        crtcs: start_crtcs(topology.crtcs as usize),
        planes: start_planes(topology.planes.len()),
        conns: start_conns(topology.conns.len()),
    }
}

/// A state, old and new alike.
fn alike<S: Copy>(state: S) -> Both<S>
    ensures { result ≡ alike state }
{
    Both {
        old: state,
        new: state,
    }
}
