//! The law of what a history frees.
ghost use Rattle.kms_model.specs.Promises.{FreedOnce};

/// What a history frees has no framebuffer twice, and has each framebuffer that was made exactly where it is not needed; a step
/// adds those that are needed before it and not after it.
pub fn each_framebuffer_is_freed_once()
    ensures { FreedOnce }
{}
