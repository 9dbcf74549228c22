//! Flip events, and their bytes.
ghost use Rattle.std.specs.Prelude.{◌≡◌, ◌%◌, ◌^◌};
ghost use Rattle.kms_model.specs.Report.EventBytes.{event_bytes};

use kms_model::Event;

/// How many bytes an event has. (Header: `drm.h`, `struct drm_event_vblank`.)
pub const EVENT_BYTES: u32 = 32;

/// The type of a flip event. (Header: `drm.h`, `DRM_EVENT_FLIP_COMPLETE`.)
const FLIP_COMPLETE: u32 = 2;

/// The bytes of an event as a client reads them: its type, its length, the user data, two words of time that are 0, the
/// sequence and the CRTC's id. (Header: `drm.h`, `struct drm_event_vblank`.)
pub fn event_bytes(event: &Event) -> [u8; 32]
    ensures { result ≡ event_bytes event.now }
{
    let mut bytes = [0; 32];
    bytes[0..4].copy_from_slice(&FLIP_COMPLETE.to_le_bytes());
    bytes[4..8].copy_from_slice(&EVENT_BYTES.to_le_bytes());
    bytes[8..16].copy_from_slice(&event.user_data.to_le_bytes());
    bytes[24..28].copy_from_slice(&event.sequence.to_le_bytes());
    bytes[28..32].copy_from_slice(&event.crtc.to_le_bytes());
    bytes
}

/// The event of a latch at the CRTC of an id, with the user data of its request. Its sequence is the CRTC's count of
/// vblanks without what is above 32 bits. (Header: `drm.h`, `struct drm_event_vblank`; kernel:
/// `drm_vblank.c`, `send_vblank_event`.)
pub fn flip_event(user_data: u64, count: u64, crtc: u32) -> Event
    ensures { result ≡ record { user_data = user_data; sequence = count % 2 ^ 32; crtc = crtc } }
{
    Event {
        user_data,
        sequence: (count % 0x1_0000_0000) as u32,
        crtc,
    }
}
