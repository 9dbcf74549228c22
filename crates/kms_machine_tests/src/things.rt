//! Commands that make and close things.
ghost use Rattle.kms_model.specs.Script.WellFormed.{IsFitCommand};
ghost use Rattle.kms_things.specs.Commands.{IsNoRequest};

use crate::rows::assert_row;
use kms_model::{Command, Denied, FbInfo, Format, Look, NoMemory, Pattern, Reply};
use kms_things::Things;
use std::alloc::Global;
use std::process::Abort;

/// The labels of a buffer, of a framebuffer of it and of a fence.
const BUFFER: u32 = 0;

const FB: u32 = 1;

const FENCE: u32 = 2;

/// The id of the framebuffer.
const FB_ID: u32 = 1001;

/// A command.
#[derive(Clone, Copy)]
enum Asked {
    Buffer,
    Framebuffer,
    Fence,
    CloseFb,
    /// Destroys the fence.
    Destroy,
    /// Signals what is under a label.
    Signal(u32),
}

/// A command of a client or a question, and what is answered.
#[derive(Clone, Copy)]
enum Call {
    Ask(u32, Asked, Reply),
    /// A label names nothing, whether closed things count or not.
    IsMissing(u32),
    /// The label of the framebuffer names it.
    IsOpen,
    /// It is closed, and names it still where closed things count.
    IsClosed,
    /// Whether the framebuffer is stored, as something refers to it.
    IsStored(bool),
    /// Whether the thing with an id has an image.
    HasImage(u32, bool),
}

const NOT_FOUND: Reply = Reply::Denied(Denied::NOT_FOUND.0);

/// What a label names, and what an id has, before and after the thing is closed.
const CLOSING: [Call; 16] = [
    Call::Ask(1, Asked::Buffer, Reply::Made { id: 1000 }),
    Call::Ask(1, Asked::Framebuffer, Reply::Made { id: FB_ID }),
    Call::Ask(2, Asked::Fence, Reply::Made { id: 1002 }),
    Call::IsOpen,
    Call::IsMissing(3),
    Call::IsStored(true),
    Call::Ask(2, Asked::CloseFb, NOT_FOUND),
    Call::Ask(1, Asked::CloseFb, Reply::Done),
    Call::Ask(1, Asked::CloseFb, NOT_FOUND),
    Call::Ask(1, Asked::Destroy, NOT_FOUND),
    Call::Ask(1, Asked::Signal(FENCE), Reply::Done),
    Call::Ask(
        1,
        Asked::Signal(FB),
        Reply::Denied(Denied::NOT_SIGNALLABLE.0),
    ),
    Call::IsClosed,
    Call::IsStored(false),
    Call::HasImage(FB_ID, true),
    Call::HasImage(1002, false),
];

/// The command that is asked for.
fn command(asked: Asked) -> Command
    ensures fit { IsFitCommand result }
    ensures other { IsNoRequest result }
{
    match asked {
        Asked::Buffer => Command::Buffer {
            label: BUFFER,
            width: 2,
            height: 1,
            format: Format::Rg16,
            pattern: Pattern::Solid(7),
        },
        Asked::Framebuffer => Command::AddFb {
            label: FB,
            buffer: BUFFER,
        },
        Asked::Fence => Command::Fence { label: FENCE },
        Asked::CloseFb => Command::CloseFb { label: FB },
        Asked::Destroy => Command::Destroy { label: FENCE },
        Asked::Signal(label) => Command::Signal { label },
    }
}

/// Executes a command. True where it answers this, and `preview` told it before.
fn executes(
    things: &mut Things,
    alloc: Global,
    client: u32,
    asked: Asked,
    want: Reply,
) -> Result<bool, NoMemory> {
    let command = command(asked);
    if !things.has_ids() || things.preview(client, &command) != want {
        return Ok(false);
    }
    Ok(things.execute(alloc, client, &command)? == want)
}

/// What the label of the framebuffer is looked up as.
fn framebuffer() -> Look {
    Look::Fb(FbInfo {
        id: FB_ID,
        width: 2,
        height: 1,
        format: Format::Rg16,
    })
}

/// Makes a call. True where it answers what the row says.
fn answers(things: &mut Things, alloc: Global, call: Call) -> Result<bool, NoMemory> {
    Ok(match call {
        Call::Ask(client, asked, want) => executes(things, alloc, client, asked, want)?,
        Call::IsMissing(label) => {
            things.look(label) == Look::Missing && things.look_any(label) == Look::Missing
        }
        Call::IsOpen => {
            things.look(FB) == framebuffer() && things.framebuffer(FB_ID) == Some((FB, true))
        }
        Call::IsClosed => {
            things.look(FB) == Look::Closed
                && things.look_any(FB) == framebuffer()
                && things.framebuffer(FB_ID) == Some((FB, false))
        }
        Call::IsStored(want) => things.stored_framebuffer(FB_ID).is_some() == want,
        Call::HasImage(id, want) => things.image(id).is_some() == want,
    })
}

/// Makes the calls of a table.
fn follow(
    rt: &(impl Abort + AllocGlobal),
    things: &mut Things,
    calls: &[Call],
) -> Result<(), NoMemory> {
    for (row, call) in calls.iter().enumerate() {
        let holds = answers(things, rt.alloc(), *call)?;
        assert_row(rt, holds, "a framebuffer that is closed", row);
    }
    Ok(())
}

#[test]
fn a_closed_framebuffer_has_its_image(rt: HostRuntime) -> Result<(), NoMemory> {
    let mut things = Things::new(rt.alloc());
    follow(&rt, &mut things, &CLOSING)
}
