//! The plain types of the display device, and the definitions that every contract cites.
//!
//! The types stand in this crate's modules; the definitions stand in `specs/`, one file a topic, and are
//! listed with their sources in the repository's `docs/DEFINITIONS.md`.
#![tactic(auto)]

mod copying;
pub mod flags;
mod laws;
mod layers;
mod legacy;
mod list;
mod masks;
mod numbered;
mod objects;
mod pictures;
mod printing;
pub mod properties;
mod ranges;
mod refusals;
mod replies;
mod reports;
mod runs;
mod scripts;
mod sets;
mod shown;
mod states;
mod tables;
mod things;
mod worlds;

pub use copying::{Duplicate, NoMemory};
pub use laws::{accepted_in_profile_1_is_unscaled, execution_keeps_lawful, start_is_lawful};
pub use layers::Layers;
pub use legacy::{LegacyCall, LegacyCommand, LegacyRefusal, LegacyScript, legacy_rule_of};
pub use list::Seq;
pub use masks::has_bit;
pub use numbered::{command_of, request_of};
pub use objects::{
    FIRST_CONNECTOR_ID, FIRST_CRTC_ID, FIRST_ENCODER_ID, FIRST_PLANE_ID, FIRST_THING_ID, Format,
    Gamma, Kind, MAX_CLIENTS, MAX_CONNECTORS, MAX_CRTCS, MAX_LOCKABLE, MAX_PLANES, Mode, ObjId,
    PlaneInfo, Ticket, Topology,
};
pub use pictures::{Colour, FbInfo, Layer, Picture, Rect, Shown};
pub use ranges::Range;
pub use refusals::{Rule, rule_of};
pub use replies::{Answered, Denied, Event, Refusal, Reply, Step};
pub use reports::{End, Report, ReportLine};
pub use runs::{Doing, Latch, Place};
pub use scripts::{Assign, Command, Part, Pattern, PropRef, Request, Script, Value, Why};
pub use sets::{Lookups, Resolved, Set, SetValue};
pub use shown::{framebuffers_have_their_buffers, what_is_shown_can_be_composed};
pub use states::{Both, Checked, ConnState, CrtcState, Duplicates, Mask, ObjState, PlaneState};
pub use tables::{IdTable, Slot, place_in};
pub use things::{BadMode, Blob, Buffer, Framebuffer, Image};
pub use worlds::{Content, Look, Setting, Thing, World};
