//! How a request is judged for which a client takes locks.
ghost use Rattle.std.specs.Prelude.{◌≡◌, ◌&&◌, ◌||◌, not, is_none, is_some};

use kms_model::{Refusal, Reply};

/// The judgement of a request for which no early refusal is due.
#[derive(Clone, Copy)]
pub(crate) struct Judged {
    /// The client's context holds what the request touches.
    pub(crate) holds: bool,
    /// The first late refusal that is due.
    pub(crate) late: Option<Refusal>,
    /// The answer where there is no space for its events, or where it does not wait and is busy.
    pub(crate) hindered: Option<Reply>,
    /// Its commit would wait for no other.
    pub(crate) ready: bool,
}

impl Judged {
    /// Whether the request is refused by 9 to 24, or, where it is no test, by what hinders it.
    pub(crate) fn is_refused(self, is_test: bool) -> bool
        ensures { result ≡ (self.holds && (is_some self.late
            || (not is_test && is_some self.hindered))) }
    {
        self.holds && (self.late.is_some() || (!is_test && self.hindered.is_some()))
    }

    /// Whether the request is a test, and no late refusal is due, with what it touches held.
    pub(crate) fn is_accepted(self, is_test: bool) -> bool
        ensures { result ≡ (is_test && (self.holds && is_none self.late)) }
    {
        is_test && self.holds && self.late.is_none()
    }

    /// Whether the request is no test, no late refusal is due, with what it touches held, nothing hinders its
    /// commit, and it waits for no other.
    pub(crate) fn is_committed(self, is_test: bool) -> bool
        ensures { result ≡ (not is_test && (self.holds && (is_none self.late
            && (is_none self.hindered && self.ready)))) }
    {
        !is_test && self.holds && self.late.is_none() && self.hindered.is_none() && self.ready
    }
}
