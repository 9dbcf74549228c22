//! What a command would be answered.
ghost use Rattle.std.specs.Prelude.{◌≡◌};
ghost use Rattle.kms_model.specs.declared.objects.Topology.{Topology};
ghost use Rattle.kms_model.specs.declared.worlds.World.{World};
ghost use Rattle.kms_model.specs.Device.Execution.{buffer_of, execute};
ghost use Rattle.kms_things.specs.Commands.{IsNoRequest, done_unless, framebuffer_refusal, made_unless};
ghost use Rattle.kms_things.specs.Made.{with_made};

use crate::making::{new_framebuffer, signal};
use crate::refusals::{close_refusal, destroy_refusal};
use crate::things::Things;
use kms_model::{Command, Denied, Reply};

/// What is answered where a thing with an id is made, unless a number refuses it.
fn made_unless(id: u32, refusal: Option<u32>) -> Reply
    ensures { result ≡ made_unless id refusal }
{
    match refusal {
        Some(number) => Reply::Denied(number),
        None => Reply::Made { id },
    }
}

/// What is answered where something is done, unless a number refuses it.
fn done_unless(refusal: Option<u32>) -> Reply
    ensures { result ≡ done_unless refusal }
{
    match refusal {
        Some(number) => Reply::Denied(number),
        None => Reply::Done,
    }
}

/// What is wrong with a framebuffer: `NOT_FOUND`, its label is no buffer of this client.
fn framebuffer_refusal(things: &Things, client: u32, buffer: u32) -> Option<u32>
    ensures { result ≡ framebuffer_refusal (buffer_of things.now.things client buffer) }
{
    match new_framebuffer(things, client, buffer) {
        Some(_) => None,
        None => Some(Denied::NOT_FOUND.0),
    }
}

impl Things {
    /// What `execute` would answer to a command of a client, by its number from 1, that is no atomic request. Nothing
    /// changes.
    #[tactic(auto, unfolding(kms_model::specs::Device::Execution::execute))]
    pub fn preview(&self, client: u32, command: &Command) -> Reply
        requires { IsNoRequest command.now }
        ensures { (t : Topology) (w : World)
            → (execute t (with_made w self.now) client command.now).reply ≡ result }
    {
        let id = self.next_id();
        match command {
            Command::Buffer {
                width,
                height,
                format,
                ..
            } => made_unless(id, self.new_buffer_refusal(*width, *height, *format)),
            Command::AddFb { buffer, .. } => made_unless(
                id,
                framebuffer_refusal(self, client, *buffer),
            ),
            Command::Mode { .. } | Command::Blob { .. } | Command::Fence { .. } => Reply::Made {
                id,
            },
            Command::Destroy { label } => done_unless(destroy_refusal(
                client,
                self.thing_labelled(*label),
            )),
            Command::CloseFb { label } => done_unless(close_refusal(
                client,
                self.thing_labelled(*label),
            )),
            Command::Signal { label } => signal(self, *label),
            Command::Atomic(_) | Command::Wait => Reply::NoEvent,
        }
    }
}
