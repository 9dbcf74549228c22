//! Whole scripts.
ghost use Rattle.std.specs.Prelude.{◌≡◌, ◌≤◌, ◌++◌, IfOk, codes};
ghost use Rattle.kms_model.specs.Script.Generated.{generated, generated_device, names_of_client};

use crate::commands::commands_for;
use crate::labels::push_names;
use kms_model::{Command, NoMemory, PlaneInfo, Script, Seq, Topology};
use std::alloc::Global;

/// Two CRTCs, each with a primary plane that takes XR24 and a connector of its own.
fn generated_device(alloc: Global) -> Result<Topology, NoMemory>
    ensures { IfOk result (λ t. t ≡ generated_device) }
{
    let planes = [1, 2].map(|crtcs| PlaneInfo {
        kind: 1,
        crtcs,
        formats: 1,
    });
    Ok(Topology {
        profile: 1,
        crtcs: 2,
        planes: Seq::from_vec(Vec::from_array(alloc, planes)?),
        conns: Seq::from_vec(Vec::from_array(alloc, [1, 2])?),
    })
}

/// The names of all labels.
fn generated_names(alloc: Global) -> Result<Seq<Seq<u8>>, NoMemory>
    ensures { IfOk result (λ names. names
        ≡ names_of_client (codes "1") ++ names_of_client (codes "2")) }
{
    let mut names = Vec::new(alloc);
    push_names(alloc, &mut names, b'1')?;
    push_names(alloc, &mut names, b'2')?;
    Ok(Seq::from_vec(names))
}

/// The script of a seed with this many commits, from 1 to 4000. Two clients each light a CRTC with 64 by 64 pixels, and
/// then take turns, a commit each. A commit shows one of two framebuffers, with an alpha from 0 to 65535 and from 0 to 63
/// pixels from the left, by a number of the generator; its user data is its place from 1, and the wait for its event
/// follows it. Some text spells it (`kms_script`: `generated_scripts_are_well_formed`). The only error is want of memory.
pub fn generate(alloc: Global, seed: u64, n: u32) -> Result<Script, NoMemory>
    requires some { 1 ≤ n }
    requires few { n ≤ 4000 }
    ensures { IfOk result (λ s. s ≡ generated seed n) }
{
    let clients = [
        commands_for(alloc, 0, seed, n)?,
        commands_for(alloc, 1, seed, n)?,
    ];
    Ok(Script {
        version: 1,
        topology: generated_device(alloc)?,
        names: generated_names(alloc)?,
        clients: Seq::from_vec(Vec::from_array(alloc, clients)?),
    })
}
