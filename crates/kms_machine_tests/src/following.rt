//! What a test asks to hold.
use kms_core::Core;
use kms_course::follow;
use std::alloc::Global;
use std::test::Fail;

/// Fails with what does not hold.
pub(crate) fn holds(is: bool, what: &str) -> Result<(), Fail> {
    if is { Ok(()) } else { Err(Fail::new(what)) }
}

/// Follows a course on a machine, or fails with the line that is not met.
pub(crate) fn follow_all(core: &mut Core, alloc: Global, course: &str) -> Result<(), Fail> {
    match follow(core, alloc, course)? {
        Some(line) => Err(Fail::new(line)),
        None => Ok(()),
    }
}
