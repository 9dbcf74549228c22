//! The device at the front of an input.
ghost use Rattle.std.specs.Prelude.{◌≡◌, ◌≤◌, ℕ, IfOk};
ghost use Rattle.kms_model.specs.Device.Sound.{IsDevice};
ghost use Rattle.kms_model.specs.Script.WholeInput.{device_of};
ghost use Rattle.kms_script.specs.Stated.{GivesDevice, device_in};
ghost use Rattle.kms_script.specs.Drafted.{draft_in};

use crate::draft::Draft;
use crate::faults::ParseError;
use crate::rows::split_line;
use kms_model::{Topology, Why};
use std::alloc::Global;

/// A device at the front of an input.
#[derive(PartialEq, Eq, Drop)]
pub struct TopologyRead {
    /// The version of the input's first line, 1 or 2, which is the device's profile.
    pub version: u32,
    /// The device.
    pub topology: Topology,
    /// The place behind the line of its last connector, in bytes.
    pub rest: usize,
}

fn device_in(draft: Draft) -> TopologyRead
    ensures { result ≡ device_in (draft_in draft) }
{
    let (topology, rest) = draft.into_device();
    TopologyRead {
        version: topology.profile,
        topology,
        rest,
    }
}

/// The device at the front of an input, up to the last connector in a row. A fault comes exactly where no front of
/// the input is a whole device, or where a ninth connector follows; it is then the input's first fault (see `parse`),
/// of which the size of the whole input is not tried.
pub fn read_topology(alloc: Global, bytes: &[u8]) -> Result<TopologyRead, ParseError>
    ensures value { GivesDevice result (device_of bytes.now) }
    ensures legal { IfOk result (λ read. IsDevice read.topology) }
{
    let mut draft = Draft::new(alloc);
    let mut number = 1u32;
    let mut rest = bytes;
    'lines: while !rest.is_empty() {
        let (row, after) = split_line(rest);
        if draft.is_done(&row) {
            return Ok(device_in(draft));
        }
        if let Err(stop) = draft.line(alloc, &row) {
            return Err(stop.at(number));
        }
        number += 1;
        rest = after;
    }
    if draft.lacks_connectors() {
        return Err(ParseError::Fault {
            line: number,
            why: Why::Form,
        });
    }
    Ok(device_in(draft))
}
