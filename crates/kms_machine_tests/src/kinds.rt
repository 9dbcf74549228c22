//! The kinds of steps, as bits.
use kms_model::Step;

/// The bit of the step that ends a history.
pub(crate) const STALL: u32 = 0x20000;

/// The bits of all other kinds of steps.
pub(crate) const BUT_STALL: u32 = 0x1ffff;

/// The bit of a step's kind.
pub(crate) fn kind_bit(step: &Step) -> u32 {
    match step {
        Step::Begin { .. } => 0x1,
        Step::Lock { .. } => 0x2,
        Step::BackOff { .. } => 0x4,
        Step::Relock { .. } => 0x8,
        Step::Refuse { .. } => 0x10,
        Step::Test { .. } => 0x20,
        Step::Swap { .. } => 0x40,
        Step::Make { .. } => 0x80,
        Step::Signal { .. } => 0x100,
        Step::Claim { .. } => 0x200,
        Step::Write { .. } => 0x400,
        Step::Flush { .. } => 0x800,
        Step::HwDone { .. } => 0x1000,
        Step::Vblank { .. } => 0x2000,
        Step::Cleanup { .. } => 0x4000,
        Step::Read { .. } => 0x8000,
        Step::Return { .. } => 0x10000,
        Step::Stall => STALL,
    }
}

/// The kinds of the steps of a history.
pub(crate) fn kinds_in(steps: &[Step]) -> u32 {
    let mut kinds = 0;
    for step in steps {
        kinds |= kind_bit(step);
    }
    kinds
}
