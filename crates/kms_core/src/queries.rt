//! What a machine tells of itself. None of these calls takes memory.
ghost use Rattle.std.specs.Prelude.{◌≡◌, ◌≤◌, ◌<◌, IfNone, IfSome, None, Some, is_some, length, map, option_copied, reverse, true};
ghost use Rattle.kms_model.specs.declared.objects.Kind.TheVariants.{Crtc};
ghost use Rattle.kms_model.specs.Device.Objects.{object_id};
ghost use Rattle.kms_model.specs.Device.States.{framebuffer_of};
ghost use Rattle.kms_model.specs.Device.World.{thing_with_id};
ghost use Rattle.kms_model.specs.Frames.Images.{image_of};
ghost use Rattle.kms_model.specs.Machine.Framebuffers as framebuffers;
ghost use Rattle.kms_model.specs.Machine.Histories as told;
ghost use Rattle.kms_model.specs.Machine.Histories.{is_at_end, is_history};
ghost use Rattle.kms_model.specs.Machine.State.{doing_at, go_at, place_at};
ghost use Rattle.kms_model.specs.Order.Suspending.{open_label, open_mode_label};
ghost use Rattle.kms_model.specs.Script.WellFormed.{IsWellFormed};
ghost use Rattle.kms_laws.specs.TailsLeft.{all_left};
ghost use Rattle.kms_core.specs.Calls.{idle_command_at};
ghost use Rattle.kms_core.specs.Freeing.{label_and_id};
ghost use Rattle.kms_core.specs.Run.{machine};
ghost use Rattle.kms_core.specs.Stands.{entry_pair};
ghost use Rattle.kms_things.specs.Present.{IsPresent};

use crate::machine::Core;
use crate::next::has_client;
use crate::spare::Spare;
use kms_model::{
    Answered, Command, Doing, Duplicates, FbInfo, Image, Latch, Mode, Place, Script, Step,
    command_of,
};

impl Core {
    /// The script.
    pub fn script(&self) -> &Script
        ensures { result.now ≡ self.now.script }
    {
        &self.stores.script
    }

    /// The steps so far, the oldest first.
    pub fn history(&self) -> &[Step]
        ensures { result.now ≡ self.now.steps }
    {
        self.lawful_steps()
    }

    /// Those steps, each of which was legal after those before it.
    fn lawful_steps(&self) -> &[Step]
        ensures steps { result.now ≡ self.now.steps }
        ensures formed { IsWellFormed self.now.script }
        ensures history { is_history self.now.script self.now.steps ≡ true }
    {
        self.stores.steps.as_slice()
    }

    /// The script is well formed, and the steps so far are a history of it: each was legal after those before it.
    pub fn is_a_history(&self)
        ensures formed { IsWellFormed self.now.script }
        ensures history { is_history self.now.script self.now.steps ≡ true }
    {
        self.lawful_steps();
    }

    /// The accepted commands in order of time, each by its client and its number, both counted from 1.
    pub fn journal(&self) -> &[(u32, u32)]
        ensures { result.now ≡ map entry_pair (told.journal (machine self.now)) }
    {
        self.stores.journal.as_slice()
    }

    /// The replies in order of time.
    pub fn replies(&self) -> &[Answered]
        ensures { result.now ≡ told.replies (machine self.now) }
    {
        self.stores.replies.as_slice()
    }

    /// The latches in order of time.
    pub fn latched(&self) -> &[Latch]
        ensures { result.now ≡ reverse (machine self.now).records.latches }
    {
        self.stores.latches.as_slice()
    }

    /// The framebuffers that were freed, in order of time, each by its label, a number from 0, and its id, from 1000 on;
    /// those of one step in order of id. A framebuffer is freed by the step after which nothing needs it any more: it is
    /// closed, and no plane, no picture that a CRTC shows and no commit that is not cleaned up names it. (Kernel:
    /// `drm_framebuffer_put`.)
    pub fn freed(&self) -> &[(u32, u32)]
        ensures { result.now
            ≡ map label_and_id (framebuffers.freed self.now.script self.now.steps) }
    {
        self.stores.freed.as_slice()
    }

    /// Where a client stands, given by its number from 1 to that of the clients. At its end it is idle at the number after
    /// its last command.
    pub fn place(&self, client: u32) -> Place
        requires low { 1 ≤ client }
        requires high { client ≤ length self.now.script.clients }
        ensures { result ≡ place_at (machine self.now) client }
    {
        self.stores.clients.place(client)
    }

    /// What a client, by its number from 1, does; one that the script does not have is idle.
    pub fn doing(&self, client: u32) -> Doing
        ensures { result ≡ doing_at (machine self.now) client }
    {
        let stores = &*self.stores;
        if has_client(self, client) {
            stores.clients.place(client).doing
        } else {
            Doing::Idle
        }
    }

    /// The command at which a client, by its number from 1, is idle; none where it is at its end, has an acquire
    /// context or returns, and where there is no such client.
    pub fn idle_command(&self, client: u32) -> Option<&Command>
        ensures { option_copied result ≡ idle_command_at self.now client }
    {
        let stores = &*self.stores;
        if !has_client(self, client) {
            return None;
        }
        let place = stores.clients.place(client);
        match place.doing {
            Doing::Idle => command_of(&stores.script, client, place.command),
            _ => None,
        }
    }

    /// Whether a client, given by its number from 1 to that of the clients, is at its end: idle, with no command left.
    pub fn is_at_end(&self, client: u32) -> bool
        requires low { 1 ≤ client }
        requires high { client ≤ length self.now.script.clients }
        ensures { result ≡ is_at_end self.now.script (machine self.now) client }
    {
        let place = self.place(client);
        match place.doing {
            Doing::Idle => command_of(self.script(), client, place.command).is_none(),
            _ => false,
        }
    }

    /// The present states of all objects, old and new alike.
    pub fn states(&self) -> Duplicates
        ensures { IsPresent self.now.script.topology (machine self.now).device.world result }
    {
        self.stores.present
    }

    /// The label, by its number from 0, of the open thing with an id; none exactly where no open thing has the id. It does
    /// not go over the things.
    pub fn label_of(&self, id: u32) -> Option<u32>
        ensures { result ≡ open_label (machine self.now).device.world.things id }
    {
        self.stores.things.label_of(id)
    }

    /// The label, by its number from 0, of the open blob of least id that decodes to a mode, all 68 bytes of it; none
    /// exactly where there is none. A blob counts where MODE_ID would take it, so none decodes to a mode that is not
    /// legal. It goes over the things from the first on.
    pub fn mode_label(&self, mode: &Mode) -> Option<u32>
        ensures { result ≡ open_mode_label (machine self.now).device.world.things mode.now }
    {
        self.stores.things.mode_label(mode)
    }

    /// For how many further steps and latches memory was taken: at least for all that the tails of commits which are not cleaned
    /// have left, so that these take none.
    pub fn spare(&self) -> Spare<'_>
        ensures steps { result.steps.now.items ≡ self.now.steps }
        ensures latches { result.latches.now.items ≡ reverse (machine self.now).records.latches }
        ensures room_for_steps { all_left self.now.script.topology (machine self.now)
            ≤ result.steps.now.room }
        ensures room_for_latches { all_left self.now.script.topology (machine self.now)
            ≤ result.latches.now.room }
    {
        Spare {
            steps: &self.stores.steps,
            latches: &self.stores.latches,
        }
    }

    /// Whether the history was ended: no step is legal any more.
    pub fn is_stalled(&self) -> bool
        ensures { result ≡ (machine self.now).stalled }
    {
        self.stores.stalled
    }

    /// Whether the CRTC with an index, from 0 to 3, latches a commit at its next vblank.
    pub fn has_go(&self, crtc: u32) -> bool
        requires { crtc < 4 }
        ensures { result ≡ is_some (go_at (machine self.now).device (object_id Crtc crtc)) }
    {
        self.stores.goes[crtc as usize].is_some()
    }

    /// What the framebuffer with an id is, while the machine has it: while it is open, or the present state of a plane, a
    /// picture that a CRTC shows or a commit that is not cleaned up names it. None exactly where nothing needs it: no
    /// framebuffer had the id, or it was freed. (Kernel: "Frame Buffer Abstraction"; `drm_framebuffer_put`.)
    pub fn framebuffer(&self, id: u32) -> Option<FbInfo>
        ensures { result
            ≡ framebuffers.stored_framebuffer self.now.script.topology (machine self.now) id }
    {
        let stores = &*self.stores;
        stores.things.stored_framebuffer(id)
    }

    /// The words of a framebuffer's buffer, also after the framebuffer was closed; none exactly where no framebuffer ever
    /// had the id.
    pub fn image(&self, fb: u32) -> Option<Image<'_>>
        ensures some { IfSome result (λ image.
            image_of (machine self.now).device.world.things fb ≡ Some (record {
              width = image.width;
              height = image.height;
              format = image.format;
              words = image.words.now;
            })) }
        ensures none { IfNone result
            (framebuffer_of (thing_with_id (machine self.now).device.world.things fb) ≡ None) }
    {
        self.stores.things.image(fb)
    }
}
