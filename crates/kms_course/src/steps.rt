//! Display objects, and the steps that name one, in short.
ghost use Rattle.std.specs.Prelude.{◌≡◌};
ghost use Rattle.kms_model.specs.declared.objects.Kind.TheVariants.{Crtc, Plane};
ghost use Rattle.kms_model.specs.declared.replies.Step.TheVariants as step;

use kms_model::{Kind, Step};

/// A display object, by its kind and its index.
#[derive(Clone, Copy)]
pub struct Object {
    /// Its kind.
    pub kind: Kind,
    /// Its index, of any size.
    pub index: u32,
}

/// The CRTC with an index.
pub fn crtc(index: u32) -> Object
    ensures { result ≡ record { kind = Crtc; index = index } }
{
    Object {
        kind: Kind::Crtc,
        index,
    }
}

/// The plane with an index.
pub fn plane(index: u32) -> Object
    ensures { result ≡ record { kind = Plane; index = index } }
{
    Object {
        kind: Kind::Plane,
        index,
    }
}

/// The client of a number, from 1, asks for the lock of an object.
pub fn lock(client: u32, object: Object) -> Step
    ensures { result ≡ step.Lock client object.kind object.index }
{
    Step::Lock {
        client,
        kind: object.kind,
        index: object.index,
    }
}

/// A commit, by its number from 0, writes the registers of an object.
pub fn write(commit: u32, object: Object) -> Step
    ensures { result ≡ step.Write commit object.kind object.index }
{
    Step::Write {
        commit,
        kind: object.kind,
        index: object.index,
    }
}

/// A commit, by its number from 0, flushes a CRTC.
pub fn flush(commit: u32, object: Object) -> Step
    ensures { result ≡ step.Flush commit object.kind object.index }
{
    Step::Flush {
        commit,
        kind: object.kind,
        index: object.index,
    }
}

/// A CRTC has a vblank.
pub fn vblank(object: Object) -> Step
    ensures { result ≡ step.Vblank object.kind object.index }
{
    Step::Vblank {
        kind: object.kind,
        index: object.index,
    }
}
