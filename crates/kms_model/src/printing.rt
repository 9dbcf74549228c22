//! Objects and replies as text, in the words of a report.
ghost use Rattle.std.specs.Prelude.{Some};
ghost use Rattle.kms_model.specs.Report.Replies.{kind_name, object_name, reply_words, spaced};

use crate::objects::{Kind, ObjId};
use crate::refusals::errno_of;
use crate::replies::{Refusal, Reply};
use std::fmt;

/// `crtc`, `plane`, `conn` or `enc`.
impl fmt::Display for Kind {
    ghost output = { λ kind. Some (kind_name kind) };

    fn fmt<W: fmt::Write>(&self, f: &mut fmt::Formatter<W>) -> fmt::Result {
        match self {
            Kind::Crtc => f.write_str("crtc"),
            Kind::Plane => f.write_str("plane"),
            Kind::Conn => f.write_str("conn"),
            Kind::Enc => f.write_str("enc"),
        }
    }
}

/// The kind and the index, as `crtc0` or `plane3`.
impl fmt::Display for ObjId {
    ghost output = { λ id. Some (object_name id.0) };

    fn fmt<W: fmt::Write>(&self, f: &mut fmt::Formatter<W>) -> fmt::Result {
        let kind = self.kind();
        let index = self.index();
        write!(f, "{kind}{index}")
    }
}

/// The words of a reply, as `commit 0` or `EINVAL 24`.
impl fmt::Display for Reply {
    ghost output = { λ reply. Some (spaced (reply_words reply)) };

    fn fmt<W: fmt::Write>(&self, f: &mut fmt::Formatter<W>) -> fmt::Result {
        match self {
            Reply::Made { id } => write!(f, "made {id}"),
            Reply::Done => f.write_str("done"),
            Reply::Commit { commit } => write!(f, "commit {commit}"),
            Reply::Tested => f.write_str("tested"),
            Reply::Refused(refusal) => write!(f, "{refusal}"),
            Reply::Space { used } => {
                let number = Refusal::NO_EVENT_SPACE.0;
                write!(f, "{} events {number} {used}", errno_of(number))
            }
            Reply::Busy { object, commit } => write!(f, "{} {object} {commit}", Refusal::BUSY),
            Reply::Denied(number) => write!(f, "{} {number}", errno_of(*number)),
            Reply::Event(event) => {
                let user_data = event.user_data;
                let sequence = event.sequence;
                let crtc = event.crtc;
                write!(f, "event {user_data} {sequence} {crtc}")
            }
            Reply::NoEvent => f.write_str("none"),
        }
    }
}
