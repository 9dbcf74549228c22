//! The commits that touched each object last.
ghost use Rattle.std.specs.Prelude.{◌≡◌, ◌≤◌, ℕ, None, length, slice_index_or};
ghost use Rattle.kms_audit.specs.Touching.{IsNotedRow, is_touched_in, last_in, noted};
ghost use Rattle.kms_model.specs.Machine.State.{has_value};

use kms_model::{Mask, ObjId, has_bit};

/// The number of the last commit that touched each object, if any, at the object's index among those of its kind.
#[derive(Clone, Copy)]
pub struct Touches {
    crtcs: [Option<u32>; 4],
    planes: [Option<u32>; 16],
    conns: [Option<u32>; 8],
}

/// The last commit that touched an object, after one that may touch it.
fn touch(last: Option<u32>, is_touched: bool, commit: u32) -> Option<u32>
    ensures { result ≡ noted last is_touched commit }
{
    if is_touched { Some(commit) } else { last }
}

/// Whether an object is one of a set: a CRTC, a plane or a connector of the largest device.
pub fn is_touched(mask: &Mask, object: ObjId) -> bool
    ensures { result ≡ is_touched_in mask.now object.0 }
{
    if object.is_crtc() {
        has_bit(mask.crtcs, object.index())
    } else if object.is_plane() {
        has_bit(mask.planes, object.index())
    } else if object.is_connector() {
        has_bit(mask.conns, object.index())
    } else {
        false
    }
}

/// What a row of the table tells at an index: nothing beyond its end.
fn entry(row: &[Option<u32>], index: u32) -> Option<u32>
    ensures { result ≡ slice_index_or row.now index None }
{
    row.get(index as usize).copied().unwrap_or(None)
}

/// Notes in a row of the table that a commit touched the objects of a set.
fn note_row(row: &mut [Option<u32>], touched: u32, commit: u32)
    requires { length row.old ≤ 16 }
    ensures { IsNotedRow row.old row.new touched commit }
{
    for index in 0..row.len() {
        let last = row[index];
        row[index] = touch(last, has_bit(touched, index as u32), commit);
    }
}

impl Touches {
    /// No object was touched.
    pub fn none() -> Touches
        ensures { (object : ℕ) → last_in result object ≡ None }
    {
        Touches {
            crtcs: [None; 4],
            planes: [None; 16],
            conns: [None; 8],
        }
    }

    /// Notes that a commit, by its number from 0, touched the objects of a set.
    pub fn note(&mut self, touched: &Mask, commit: u32)
        ensures { (object : ℕ) → last_in self.new object
            ≡ noted (last_in self.old object) (is_touched_in touched.now object) commit }
    {
        note_row(&mut self.crtcs, touched.crtcs, commit);
        note_row(&mut self.planes, touched.planes, commit);
        note_row(&mut self.conns, touched.conns, commit);
    }

    /// The number of the last commit that touched an object; none of what is no object with a lock.
    fn last(&self, object: ObjId) -> Option<u32>
        ensures { result ≡ last_in self.now object.0 }
    {
        if object.is_crtc() {
            entry(self.crtcs.as_slice(), object.index())
        } else if object.is_plane() {
            entry(self.planes.as_slice(), object.index())
        } else if object.is_connector() {
            entry(self.conns.as_slice(), object.index())
        } else {
            None
        }
    }

    /// Whether a commit is the last one that touched an object.
    pub fn is_last(&self, object: ObjId, commit: u32) -> bool
        ensures { result ≡ has_value commit (last_in self.now object.0) }
    {
        match self.last(object) {
            Some(last) => last == commit,
            None => false,
        }
    }
}
