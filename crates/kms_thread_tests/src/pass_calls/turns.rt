//! Clients that commit, and do the tails of the commits too. A client's next commit begins only after its last is over, so
//! that a commit waits only for others which somebody works on.
ghost use Rattle.std.specs.Prelude.{◌≡◌};
ghost use Rattle.kms_histlock.specs.Passes.{IsSamePass};

use crate::pass_calls::calls::{commit, make, return_from};
use kms_device::{Device, Pass};
use kms_model::{MAX_CRTCS, NoMemory, Reply, Step};
use std::alloc::Global;
use std::sync::Wait;

/// How often a client looks whether its commit is over, at most.
const MOST_LOOKS: u32 = 1_000_000;

/// How many steps the tail of a commit has, at most.
const MOST_STEPS: u32 = 31;

/// Makes things for the client of a pass until it is at none, so many at most.
pub fn prepare<W: Wait>(
    rt: &W,
    alloc: Global,
    device: &Device,
    pass: &mut Pass,
    most: u32,
) -> Result<(), NoMemory>
    requires own { pass.old.lock ≡ device.now.lock }
    ensures same { IsSamePass pass.old pass.new }
{
    for _thing in 0..most {
        if make(rt, alloc, device, pass)?.is_none() {
            return Ok(());
        }
    }
    Ok(())
}

/// Commits the next request of the client of a pass, and works until that commit is over. Tells whether it is: it is not where
/// the client is at no request, or the request is refused or a test.
pub fn commit_and_finish<W: Wait>(
    rt: &W,
    alloc: Global,
    device: &Device,
    pass: &mut Pass,
) -> Result<bool, NoMemory>
    requires own { pass.old.lock ≡ device.now.lock }
    ensures same { IsSamePass pass.old pass.new }
{
    match commit(rt, alloc, device, pass)? {
        Some(Reply::Commit { commit }) => finish(rt, device, pass, commit),
        _ => Ok(false),
    }
}

/// Works until the commit that the client of a pass waits for is over, and lets the client go on.
fn finish<W: Wait>(rt: &W, device: &Device, pass: &mut Pass, commit: u32) -> Result<bool, NoMemory>
    requires own { pass.old.lock ≡ device.now.lock }
    ensures same { IsSamePass pass.old pass.new }
{
    for _look in 0..MOST_LOOKS {
        if let Some(claimed) = device.claim(rt, pass) {
            work(rt, device, pass, claimed);
        }
        if return_from(rt, device, pass)? {
            return Ok(true);
        }
        vblank_each(rt, device, pass);
        work(rt, device, pass, commit);
    }
    Ok(false)
}

/// Does what is left of a commit's tail and may be done.
fn work<W: Wait>(rt: &W, device: &Device, pass: &mut Pass, commit: u32)
    requires own { pass.old.lock ≡ device.now.lock }
    ensures same { IsSamePass pass.old pass.new }
{
    for _step in 0..MOST_STEPS {
        match device.work_on(rt, pass, commit) {
            None | Some(Step::Cleanup { .. }) => return,
            Some(_) => {}
        }
    }
}

/// A vblank of each CRTC that goes.
fn vblank_each<W: Wait>(rt: &W, device: &Device, pass: &mut Pass)
    requires own { pass.old.lock ≡ device.now.lock }
    ensures same { IsSamePass pass.old pass.new }
{
    for crtc in 0..MAX_CRTCS {
        let _went = device.vblank(rt, pass, crtc);
    }
}
