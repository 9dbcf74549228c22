//! Steps of each kind, of which a machine is asked whether they are legal.
use crate::kinds::kind_bit;
use kms_core::Core;
use kms_course::{Object, crtc, flush, lock, plane, vblank, write};
use kms_model::{FIRST_CRTC_ID, FIRST_PLANE_ID, Kind, NoMemory, Step};
use std::alloc::Global;

/// The index of a CRTC whose id would be that of the first plane.
const AT_PLANE: u32 = FIRST_PLANE_ID - FIRST_CRTC_ID;

/// Each object of the device, and others that it does not have.
pub(crate) fn objects(alloc: Global) -> Result<Vec<Object>, NoMemory> {
    let mut objects = Vec::new(alloc);
    for index in 0..6 {
        objects.push(crtc(index))?;
        objects.push(plane(index))?;
        let kind = Kind::Conn;
        objects.push(Object { kind, index })?;
    }
    let (kind, index) = (Kind::Enc, 0);
    objects.push(Object { kind, index })?;
    objects.push(crtc(AT_PLANE))?;
    Ok(objects)
}

fn steps_of_client(client: u32) -> [Step; 10] {
    [
        Step::Begin { client },
        Step::BackOff { client },
        Step::Relock { client },
        Step::Refuse { client },
        Step::Test { client },
        Step::Swap { client },
        Step::Make { client },
        Step::Signal { client },
        Step::Read { client },
        Step::Return { client },
    ]
}

/// The commits of a walk.
#[derive(Drop)]
pub(crate) struct Commits {
    /// How many were made.
    pub(crate) count: u32,
    /// All before it are cleaned.
    pub(crate) first: u32,
    /// Those that are cleaned.
    pub(crate) cleaned: Vec<u32>,
}

impl Commits {
    /// Tells that a step was done.
    pub(crate) fn did(&mut self, step: Step) -> Result<(), NoMemory> {
        match step {
            Step::Swap { .. } => self.count = self.count.saturating_add(1),
            Step::Cleanup { commit } => self.cleaned.push(commit)?,
            _ => {}
        }
        if self.cleaned.contains(&self.first) {
            self.first = self.first.saturating_add(1);
        }
        Ok(())
    }
}

/// What a machine answered.
#[derive(Drop)]
pub(crate) struct Asked {
    /// The steps that are legal.
    pub(crate) legal: Vec<Step>,
    /// The kinds of those that are not.
    pub(crate) refused: u32,
}

impl Asked {
    /// Asks for a step.
    fn ask(&mut self, core: &Core, step: Step) -> Result<(), NoMemory> {
        if core.legal(&step) {
            self.legal.push(step)?;
        } else {
            self.refused |= kind_bit(&step);
        }
        Ok(())
    }

    /// Asks for those of so many clients, and of one more on each side.
    fn ask_clients(
        &mut self,
        core: &Core,
        clients: u32,
        objects: &[Object],
    ) -> Result<(), NoMemory> {
        for client in 0..clients.saturating_add(2) {
            for step in &steps_of_client(client) {
                self.ask(core, *step)?;
            }
            for object in objects {
                self.ask(core, lock(client, *object))?;
            }
        }
        Ok(())
    }

    /// Asks for those of commits, from the last that is cleaned like all before it to one that is not made.
    fn ask_commits(
        &mut self,
        core: &Core,
        commits: &Commits,
        objects: &[Object],
    ) -> Result<(), NoMemory> {
        for commit in commits.first.saturating_sub(1)..commits.count.saturating_add(1) {
            self.ask(core, Step::Claim { commit })?;
            self.ask(core, Step::HwDone { commit })?;
            self.ask(core, Step::Cleanup { commit })?;
            for object in objects {
                self.ask(core, write(commit, *object))?;
                self.ask(core, flush(commit, *object))?;
            }
        }
        Ok(())
    }
}

/// Asks for all steps after a history with these commits.
pub(crate) fn ask_all(
    core: &Core,
    alloc: Global,
    commits: &Commits,
    objects: &[Object],
) -> Result<Asked, NoMemory> {
    let mut asked = Asked {
        legal: Vec::new(alloc),
        refused: 0,
    };
    asked.ask_clients(core, 4, objects)?;
    asked.ask_commits(core, commits, objects)?;
    for object in objects {
        asked.ask(core, vblank(*object))?;
    }
    asked.ask(core, Step::Stall)?;
    Ok(asked)
}
