//! What a client does after its CRTC is lit: commits that change its plane, each with the wait for its event.
ghost use Rattle.std.specs.Prelude.{◌≡◌, ◌<◌, ◌≤◌, ◌++◌, [], ◌∷◌, OnOk, IfOk};
ghost use Rattle.kms_model.specs.declared.scripts.Command.TheVariants.{Atomic, Wait};
ghost use Rattle.kms_model.specs.Script.Generated.{flip, flips_of, on_plane};

use crate::labels::drawn_framebuffer;
use kms_model::flags::PAGE_FLIP_EVENT;
use kms_model::properties::{ALPHA, CRTC_X, FB_ID};
use kms_model::{Assign, Command, Kind, NoMemory, Request, Seq, Value};
use std::alloc::Global;

/// An assignment to a property, by its id, of the plane of the CRTC with an index, 0 or 1.
pub fn on_plane(crtc: u32, prop: u32, value: Value) -> Assign
    ensures { result ≡ on_plane crtc prop value }
{
    Assign::known(Kind::Plane, crtc, prop, value)
}

/// A commit with this user data, of this number, that asks for an event.
fn commit(alloc: Global, crtc: u32, index: u32, number: u64) -> Result<Request, NoMemory>
    requires { crtc < 2 }
    ensures { IfOk result (λ r. Atomic r ∷ Wait ∷ []
        ≡ flip crtc (record { index = index; number = number })) }
{
    let assigns = Vec::from_array(
        alloc,
        [
            on_plane(crtc, FB_ID, Value::Named(drawn_framebuffer(crtc, number))),
            on_plane(crtc, ALPHA, Value::Num(i128::from(number / 2 % 65536))),
            on_plane(crtc, CRTC_X, Value::Num(i128::from(number / 131072 % 64))),
        ],
    )?;
    Ok(Request {
        flags: PAGE_FLIP_EVENT,
        user_data: u64::from(index),
        assigns: Seq::from_vec(assigns),
    })
}

/// Adds a commit, by its place from 1 among all, and the wait for its event, where the commit is one of the client that
/// drives the CRTC with an index, 0 or 1: clients take turns.
pub fn push_flip(
    alloc: Global,
    commands: &mut Vec<Command>,
    crtc: u32,
    index: u32,
    number: u64,
) -> Result<(), NoMemory>
    requires client { crtc < 2 }
    requires counted { 1 ≤ index }
    ensures { OnOk result (commands.new.items
        ≡ commands.old.items ++ flips_of crtc (record { index = index; number = number })) }
{
    if (index - 1) % 2 == crtc {
        commands.push(Command::Atomic(commit(alloc, crtc, index, number)?))?;
        commands.push(Command::Wait)?;
    }
    Ok(())
}
