//! Whole reports.
ghost use Rattle.std.specs.Prelude.{◌≡◌, ◌<◌, [], OnOk, length, true};
ghost use Rattle.kms_model.specs.Report.ReportLines.{report_lines_read, report_read};
ghost use Rattle.kms_reading.specs.Reports.{Reads, continued, is_sound, no_lines, with_said};

use crate::report_lines::{least_behind, read_row};
use kms_model::{End, Event, NoMemory, Reply, Report, ReportLine, Seq, Step};
use kms_script::split_line;
use std::alloc::Global;

/// Why bytes are no report.
#[derive(Clone, Copy, Debug, PartialEq, Eq)]
pub enum ReportError {
    /// The first line that may not stand where it stands, counted from 1. Where the bytes end without a line `D`, it is the
    /// number after the last line.
    BadLine {
        /// Its number.
        line: u32,
    },
    /// Memory ran out. This says nothing of the bytes.
    NoMemory,
}

impl From<NoMemory> for ReportError {
    ghost use Rattle.std.specs.Prelude.{◌≡◌};
    ghost use Rattle.kms_reading.specs.declared.reports.ReportError.TheVariants as errors;

    ghost from_gives = { λ _ e. e ≡ errors.NoMemory };

    fn from(_e: NoMemory) -> ReportError {
        ReportError::NoMemory
    }
}

/// What the lines so far say, and which letters may follow.
#[derive(Drop)]
pub struct Said {
    /// The place of the least letter that may follow, in the order J, R, L, E, X, D and T, from 0.
    least: u8,
    journal: Seq<(u32, u32)>,
    replies: Seq<(u32, u32, u32, Reply)>,
    latches: Seq<(u32, u32, u64, Option<[u8; 32]>)>,
    events: Seq<(u32, Event)>,
    freed: Seq<(Seq<u8>, u32)>,
    /// What the D line says, once there was one.
    end: Option<End>,
    steps: Seq<Step>,
}

impl Said {
    /// What no line says.
    fn new(alloc: Global) -> Said
        ensures { result ≡ no_lines }
    {
        Said {
            least: 0,
            journal: Seq::new(alloc),
            replies: Seq::new(alloc),
            latches: Seq::new(alloc),
            events: Seq::new(alloc),
            freed: Seq::new(alloc),
            end: None,
            steps: Seq::new(alloc),
        }
    }

    /// A line more.
    fn push(&mut self, line: ReportLine) -> Result<(), NoMemory>
        ensures { OnOk result (self.new ≡ with_said self.old line) }
    {
        self.least = least_behind(&line);
        match line {
            ReportLine::Entry { client, command } => Ok(self.journal.push((client, command))?),
            ReportLine::Answer {
                client,
                command,
                place,
                reply,
            } => Ok(self.replies.push((client, command, place, reply))?),
            ReportLine::Latch {
                crtc,
                commit,
                count,
                digest,
            } => Ok(self.latches.push((crtc, commit, count, digest))?),
            ReportLine::Event { client, event } => Ok(self.events.push((client, event))?),
            ReportLine::Freed { label, id } => Ok(self.freed.push((label, id))?),
            ReportLine::Ended(end) => {
                self.end = Some(end);
                Ok(())
            }
            ReportLine::Stepped(step) => Ok(self.steps.push(step)?),
        }
    }

    /// The report of all lines, where one of them is a D line; the next line has this number.
    #[tactic(auto, unfolding(kms_model::specs::Report::ReportLines::report_lines_read))]
    fn finish(self, line: u32) -> Result<Report, ReportError>
        requires { is_sound self ≡ true }
        ensures { Reads result (continued self (report_lines_read self.least line [])) }
    {
        let Said {
            journal,
            replies,
            latches,
            events,
            freed,
            end,
            steps,
            ..
        } = self;
        match end {
            Some(end) => Ok(Report {
                journal,
                replies,
                latches,
                events,
                freed,
                end,
                steps,
            }),
            None => Err(ReportError::BadLine { line }),
        }
    }
}

/// The report that bytes spell, or their first line that may not stand.
///
/// A report has lines of the letters J, R, L, E, X, D and T in this order, with one line D, and each line as a history's
/// report has it; a pixmap may not stand there. Numbers are within the widths of their fields, a digest has lower-case
/// digits, and the name of an error number is that of its refusal. A last line without its line feed may not stand, and
/// where there is no line D, the fault is at the number after the last line; so an empty text is told by line 1. A busy
/// reply may name any object of the grammar; one beyond index 99 is read as the id 0, which no object has.
#[tactic(auto, unfolding(kms_model::specs::Report::ReportLines::report_read))]
pub fn parse_report(alloc: Global, bytes: &[u8]) -> Result<Report, ReportError>
    requires { length bytes.now < 4294967295 }
    ensures { Reads result (report_read bytes.now) }
{
    let mut said = Said::new(alloc);
    let mut line = 1u32;
    let mut rest = bytes;
    'lines: while !rest.is_empty() {
        let (row, after) = split_line(rest);
        let Some(one) = read_row(alloc, said.least, &row)? else {
            return Err(ReportError::BadLine { line });
        };
        said.push(one)?;
        line += 1;
        rest = after;
    }
    said.finish(line)
}
