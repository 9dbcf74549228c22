//! Reports without pixmaps as values: what each line says, line by line and together. The forms are this device's own.
//! Clients and commands are counted from 1; CRTCs, by their index, and commits from 0.
use crate::list::Seq;
use crate::replies::{Event, Reply, Step};

/// How a history ended, as a report's line `D` tells it.
#[derive(PartialEq, Eq, Drop)]
pub enum End {
    /// `drained`: every client is at its end, and every commit is cleaned.
    Drained,
    /// `stalled`: no step is left but `stall` and vblanks that latch nothing; the label of the fence that the
    /// history waits for.
    Stalled(Seq<u8>),
    /// `open`: neither; how many steps the history has.
    Open(u64),
}

/// A report without pixmaps, with a list for each letter of its lines. What it says need not be true: lines of a letter are
/// as they stood.
#[derive(PartialEq, Eq, Drop)]
pub struct Report {
    /// The lines `J`: client and command of an accepted command.
    pub journal: Seq<(u32, u32)>,
    /// The lines `R`: client, command, how many commands had been accepted before, and the reply.
    pub replies: Seq<(u32, u32, u32, Reply)>,
    /// The lines `L`: the CRTC's index, the commit, the CRTC's count of vblanks, and the SHA-256 of the frame's
    /// bytes (FIPS 180-4), none where the CRTC is off.
    pub latches: Seq<(u32, u32, u64, Option<[u8; 32]>)>,
    /// The lines `E`: a client, and an event that it read.
    pub events: Seq<(u32, Event)>,
    /// The lines `X`: label and id of a framebuffer that was freed.
    pub freed: Seq<(Seq<u8>, u32)>,
    /// The line `D`.
    pub end: End,
    /// The lines `T`: steps.
    pub steps: Seq<Step>,
}

/// One line of a report without pixmaps.
#[derive(PartialEq, Eq, Drop)]
pub enum ReportLine {
    /// `J CLIENT COMMAND`: a command was accepted.
    Entry {
        /// The client, counted from 1.
        client: u32,
        /// The command's number in the client, counted from 1.
        command: u32,
    },
    /// `R CLIENT COMMAND PLACE REPLY`: what was answered to a command.
    Answer {
        /// The client, counted from 1.
        client: u32,
        /// The command's number in the client, counted from 1.
        command: u32,
        /// How many commands had been accepted before.
        place: u32,
        /// The reply.
        reply: Reply,
    },
    /// `L CRTC COMMIT COUNT DIGEST`: a CRTC latched a picture.
    Latch {
        /// The CRTC's index, from 0.
        crtc: u32,
        /// The number of the commit that latched, counted from 0.
        commit: u32,
        /// The CRTC's count of vblanks after the latch.
        count: u64,
        /// The SHA-256 of the frame's bytes (FIPS 180-4); none where the CRTC is off.
        digest: Option<[u8; 32]>,
    },
    /// `E CLIENT USERDATA SEQUENCE CRTCID`: a client read an event.
    Event {
        /// The client, counted from 1.
        client: u32,
        /// The event.
        event: Event,
    },
    /// `X LABEL ID`: a framebuffer was freed.
    Freed {
        /// Its label.
        label: Seq<u8>,
        /// Its id.
        id: u32,
    },
    /// `D` and how the history ended.
    Ended(End),
    /// `T` and a step.
    Stepped(Step),
}
