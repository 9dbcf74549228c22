//! The flags of an atomic request. (Header: `drm_mode.h`.)
ghost use Rattle.std.specs.Prelude.{⊤, ◌≡◌, option_map};
ghost use Rattle.kms_model.specs.Firsts.{number_if};
ghost use Rattle.kms_model.specs.Request.Flags.{has_flag, is_nonblock, is_test, wants_event};
ghost use Rattle.kms_model.specs.Device.Properties.{are_flags};
ghost use Rattle.kms_model.specs.Device.Properties.{flags as flag_rows};
ghost use Rattle.kms_props.specs.Flags.{bits_of};

use bitflags::{Flag, Flags, bitflag_items};
use kms_model::flags;

/// The flags of an atomic request. Contracts see their bits, `bits_of`.
#[derive(Clone, Copy, PartialEq, Eq)]
pub struct AtomicFlags(u32);

bitflag_items! {
    impl AtomicFlags: u32 {
        /// `DRM_MODE_PAGE_FLIP_EVENT`: an event for each CRTC that the request names.
        const PAGE_FLIP_EVENT = flags::PAGE_FLIP_EVENT;
        /// `DRM_MODE_PAGE_FLIP_ASYNC`: this device refuses it.
        const PAGE_FLIP_ASYNC = flags::PAGE_FLIP_ASYNC;
        /// `DRM_MODE_ATOMIC_TEST_ONLY`: check and change nothing.
        const TEST_ONLY = flags::TEST_ONLY;
        /// `DRM_MODE_ATOMIC_NONBLOCK`: do not wait for the commit.
        const NONBLOCK = flags::NONBLOCK;
        /// `DRM_MODE_ATOMIC_ALLOW_MODESET`: the commit may be a modeset.
        const ALLOW_MODESET = flags::ALLOW_MODESET;
    }
}

impl Flags for AtomicFlags {
    type Bits = u32;

    ghost exact = { ⊤ };

    ghost table = { flag_rows };

    ghost set_of = { bits_of };

    fn flags<'a>() -> &'a [Flag<AtomicFlags>] {
        AtomicFlags::FLAGS
    }

    fn bits(&self) -> u32 {
        self.0
    }

    fn from_bits_retain(bits: u32) -> AtomicFlags {
        AtomicFlags(bits)
    }
}

impl AtomicFlags {
    /// The flags of a request, also where a bit outside 0x703 is set.
    pub fn of_request(flags: u32) -> AtomicFlags
        ensures { bits_of result ≡ flags }
    {
        AtomicFlags(flags)
    }

    /// Whether each bit of a flag is set.
    pub fn contains(self, flag: AtomicFlags) -> bool
        ensures { result ≡ has_flag (bits_of self) (bits_of flag) }
    {
        Flags::contains(&self, flag)
    }
}

/// The flags with these bits; `None` where a bit outside 0x703 is set.
pub fn from_bits(flags: u32) -> Option<AtomicFlags>
    ensures { option_map bits_of result ≡ number_if flags (are_flags flags) }
{
    AtomicFlags::from_bits(flags)
}

/// Whether a request with these flags is only tested.
pub fn is_test(flags: u32) -> bool
    ensures { result ≡ is_test flags }
{
    AtomicFlags::of_request(flags).contains(AtomicFlags::TEST_ONLY)
}

/// Whether a request with these flags asks for events.
pub fn wants_event(flags: u32) -> bool
    ensures { result ≡ wants_event flags }
{
    AtomicFlags::of_request(flags).contains(AtomicFlags::PAGE_FLIP_EVENT)
}

/// Whether a request with these flags does not wait for its commit.
pub fn is_nonblock(flags: u32) -> bool
    ensures { result ≡ is_nonblock flags }
{
    AtomicFlags::of_request(flags).contains(AtomicFlags::NONBLOCK)
}
