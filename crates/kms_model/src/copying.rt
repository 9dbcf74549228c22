//! Copies that take memory.
ghost use Rattle.std.specs.Prelude.{◌≡◌, IfOk};

use crate::list::Seq;
use crate::objects::Topology;
use crate::scripts::{Command, Pattern, Request, Script};
use crate::worlds::{Content, Thing, World};
use std::alloc::{AllocError, AllocFailed, Global};

/// Memory ran out. Where a call answers it, the call's objects are as they were, unless its own text says
/// otherwise.
#[derive(Clone, Copy, Debug, PartialEq, Eq)]
pub struct NoMemory;

impl From<AllocError> for NoMemory {
    fn from(_e: AllocError) -> NoMemory {
        NoMemory
    }
}

impl<T: Drop> From<AllocFailed<T>> for NoMemory {
    fn from(_e: AllocFailed<T>) -> NoMemory {
        NoMemory
    }
}

/// A value that can be copied with memory of an allocator.
pub trait Duplicate: Sized + Drop {
    /// An equal value. The only error is want of memory.
    fn copy(&self, alloc: Global) -> Result<Self, NoMemory>
        ensures { IfOk result (λ other. other ≡ self.now) };
}

impl<T: Copy> Duplicate for T {
    fn copy(&self, _alloc: Global) -> Result<Self, NoMemory> {
        Ok(*self)
    }
}

impl<T: Duplicate> Duplicate for Seq<T> {
    fn copy(&self, alloc: Global) -> Result<Self, NoMemory> {
        copy_items(alloc, self.as_slice())
    }
}

fn copy_items<T: Duplicate>(alloc: Global, items: &[T]) -> Result<Seq<T>, NoMemory>
    ensures { IfOk result (λ other. other ≡ items.now) }
{
    let mut all = Seq::new(alloc);
    for item in items {
        all.push(item.copy(alloc)?)?;
    }
    Ok(all)
}

impl Duplicate for Topology {
    fn copy(&self, alloc: Global) -> Result<Self, NoMemory> {
        Ok(Topology {
            profile: self.profile,
            crtcs: self.crtcs,
            planes: self.planes.copy(alloc)?,
            conns: self.conns.copy(alloc)?,
        })
    }
}

impl Duplicate for Request {
    fn copy(&self, alloc: Global) -> Result<Self, NoMemory> {
        Ok(Request {
            flags: self.flags,
            user_data: self.user_data,
            assigns: self.assigns.copy(alloc)?,
        })
    }
}

impl Duplicate for Pattern {
    fn copy(&self, alloc: Global) -> Result<Self, NoMemory> {
        match self {
            Pattern::Solid(p) => Ok(Pattern::Solid(*p)),
            Pattern::Checker { p, q, n } => Ok(Pattern::Checker {
                p: *p,
                q: *q,
                n: *n,
            }),
            Pattern::Ramp => Ok(Pattern::Ramp),
            Pattern::Pixels(words) => Ok(Pattern::Pixels(words.copy(alloc)?)),
        }
    }
}

impl Duplicate for Command {
    fn copy(&self, alloc: Global) -> Result<Self, NoMemory> {
        match self {
            Command::Buffer {
                label,
                width,
                height,
                format,
                pattern,
            } => Ok(Command::Buffer {
                label: *label,
                width: *width,
                height: *height,
                format: *format,
                pattern: pattern.copy(alloc)?,
            }),
            Command::AddFb { label, buffer } => Ok(Command::AddFb {
                label: *label,
                buffer: *buffer,
            }),
            Command::Mode { label, mode } => Ok(Command::Mode {
                label: *label,
                mode: *mode,
            }),
            Command::Blob { label, bytes } => Ok(Command::Blob {
                label: *label,
                bytes: bytes.copy(alloc)?,
            }),
            Command::Destroy { label } => Ok(Command::Destroy { label: *label }),
            Command::CloseFb { label } => Ok(Command::CloseFb { label: *label }),
            Command::Fence { label } => Ok(Command::Fence { label: *label }),
            Command::Signal { label } => Ok(Command::Signal { label: *label }),
            Command::Atomic(request) => Ok(Command::Atomic(request.copy(alloc)?)),
            Command::Wait => Ok(Command::Wait),
        }
    }
}

impl Duplicate for Script {
    fn copy(&self, alloc: Global) -> Result<Self, NoMemory> {
        Ok(Script {
            version: self.version,
            topology: self.topology.copy(alloc)?,
            names: self.names.copy(alloc)?,
            clients: self.clients.copy(alloc)?,
        })
    }
}

impl Duplicate for Content {
    fn copy(&self, alloc: Global) -> Result<Self, NoMemory> {
        match self {
            Content::Buffer {
                width,
                height,
                format,
                pattern,
            } => Ok(Content::Buffer {
                width: *width,
                height: *height,
                format: *format,
                pattern: pattern.copy(alloc)?,
            }),
            Content::Framebuffer { info, buffer } => Ok(Content::Framebuffer {
                info: *info,
                buffer: *buffer,
            }),
            Content::Mode(mode) => Ok(Content::Mode(*mode)),
            Content::Blob(bytes) => Ok(Content::Blob(bytes.copy(alloc)?)),
            Content::Fence => Ok(Content::Fence),
            Content::OutFence => Ok(Content::OutFence),
        }
    }
}

impl Duplicate for Thing {
    fn copy(&self, alloc: Global) -> Result<Self, NoMemory> {
        Ok(Thing {
            label: self.label,
            id: self.id,
            owner: self.owner,
            content: self.content.copy(alloc)?,
            is_open: self.is_open,
        })
    }
}

impl Duplicate for World {
    fn copy(&self, alloc: Global) -> Result<Self, NoMemory> {
        Ok(World {
            values: self.values.copy(alloc)?,
            things: self.things.copy(alloc)?,
            next_id: self.next_id,
            commits: self.commits,
        })
    }
}
