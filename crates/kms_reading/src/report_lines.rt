//! One line of a report.
ghost use Rattle.std.specs.Prelude.{◌≡◌, IfOk, length, option_copied, option_map};
ghost use Rattle.kms_model.specs.Report.ReportLines.{answer_read, client_event_read, digest_in, end_read, entry_read, freed_read, if_it_may_stand, latch_read, least_behind, letter_place, may_stand, open_read, report_line_read, report_row_read};
ghost use Rattle.kms_model.specs.Script.CommandLines.{label_alone};
ghost use Rattle.kms_reading.specs.Reading.{IsDigest, drained_read, end_of_word, ended_read, freed_words, latch_words, later_line_read, stalled_read, stepped_read};
ghost use Rattle.kms_script.specs.Drafted.{row_in};

use crate::report_replies::{event_fields, lone_number, read_reply, take_word};
use kms_model::{End, NoMemory, ReportLine, Seq};
use kms_script::{Row, read_step};
use kms_words::{read_blob, split_at_byte, take_dec, take_end, take_field, take_label};
use std::alloc::Global;

/// How many hexadecimal digits a digest has.
const DIGITS: usize = 64;

/// `CLIENT COMMAND`
#[tactic(auto, unfolding(kms_model::specs::Report::ReportLines::entry_read))]
fn entry_read(bytes: &[u8]) -> Option<ReportLine>
    ensures { result ≡ entry_read bytes.now }
{
    let (client, rest) = take_word(bytes)?;
    let command = lone_number(rest)?;
    Some(ReportLine::Entry { client, command })
}

/// `CLIENT COMMAND PLACE REPLY`
#[tactic(auto, unfolding(kms_model::specs::Report::ReportLines::answer_read))]
fn answer_read(bytes: &[u8]) -> Option<ReportLine>
    ensures { result ≡ answer_read bytes.now }
{
    let (client, rest) = take_word(bytes)?;
    let (command, rest) = take_word(rest)?;
    let (place, rest) = take_word(rest)?;
    let reply = read_reply(rest)?;
    Some(ReportLine::Answer {
        client,
        command,
        place,
        reply,
    })
}

/// Bytes as a digest.
fn digest_of_bytes(bytes: &[u8]) -> [u8; 32]
    requires { length bytes.now ≡ 32 }
    ensures { result ≡ bytes.now }
{
    let mut digest = [0u8; 32];
    digest.copy_from_slice(bytes);
    digest
}

/// The digest of 64 lower-case hexadecimal digits.
fn read_digits(alloc: Global, word: &[u8]) -> Result<Option<[u8; 32]>, NoMemory>
    requires { length word.now ≡ 64 }
    ensures { IfOk result (IsDigest word.now) }
{
    let Some(bytes) = read_blob(alloc, word)? else {
        return Ok(None);
    };
    Ok(Some(digest_of_bytes(bytes.as_slice())))
}

/// `off`, which is no digest, or 64 digits.
#[tactic(auto, unfolding(kms_model::specs::Report::ReportLines::digest_in))]
fn read_digest(alloc: Global, word: &[u8]) -> Result<Option<Option<[u8; 32]>>, NoMemory>
    ensures { IfOk result (λ digest. digest ≡ digest_in word.now) }
{
    if word == b"off".as_slice() {
        return Ok(Some(None));
    }
    if word.len() != DIGITS {
        return Ok(None);
    }
    match read_digits(alloc, word)? {
        Some(digest) => Ok(Some(Some(digest))),
        None => Ok(None),
    }
}

/// The fields of an L line before its digest, and the word of the digest.
type LatchWords<'a> = (u32, u32, u64, &'a [u8]);

/// `CRTC COMMIT COUNT`, and the word at the end of the line.
#[tactic(auto, unfolding(crate::specs::Reading::latch_words))]
fn latch_words(bytes: &[u8]) -> Option<LatchWords<'_>>
    ensures { option_map (λ x. (x.0, x.1, x.2, x.3.now)) result ≡ latch_words bytes.now }
{
    let (crtc, rest) = take_word(bytes)?;
    let (commit, rest) = take_word(rest)?;
    let (count, rest) = take_dec(rest, u64::MAX)?;
    let (word, rest) = take_field(rest)?;
    take_end(rest)?;
    Some((crtc, commit, count, word))
}

/// `CRTC COMMIT COUNT DIGEST`
#[tactic(auto, unfolding(kms_model::specs::Report::ReportLines::latch_read, crate::specs::Reading::latch_words))]
fn latch_read(alloc: Global, bytes: &[u8]) -> Result<Option<ReportLine>, NoMemory>
    ensures { IfOk result (λ line. line ≡ latch_read bytes.now) }
{
    let Some((crtc, commit, count, word)) = latch_words(bytes) else {
        return Ok(None);
    };
    let Some(digest) = read_digest(alloc, word)? else {
        return Ok(None);
    };
    Ok(Some(ReportLine::Latch {
        crtc,
        commit,
        count,
        digest,
    }))
}

/// `CLIENT` and an event
#[tactic(auto, unfolding(kms_model::specs::Report::ReportLines::client_event_read))]
fn client_event_read(bytes: &[u8]) -> Option<ReportLine>
    ensures { result ≡ client_event_read bytes.now }
{
    let (client, rest) = take_word(bytes)?;
    let event = event_fields(rest)?;
    Some(ReportLine::Event { client, event })
}

/// A label with memory of its own.
fn kept_label(alloc: Global, word: &[u8]) -> Result<Seq<u8>, NoMemory>
    ensures { IfOk result (λ label. label ≡ word.now) }
{
    Ok(Seq::from_vec(Vec::from_slice(alloc, word)?))
}

/// The label and the number at the end of a line.
#[tactic(auto, unfolding(crate::specs::Reading::freed_words))]
fn freed_words(bytes: &[u8]) -> Option<(&[u8], u32)>
    ensures { option_map (λ x. (x.0.now, x.1)) result ≡ freed_words bytes.now }
{
    let (label, rest) = take_label(bytes)?;
    let id = lone_number(rest)?;
    Some((label, id))
}

/// `LABEL ID`
#[tactic(auto, unfolding(kms_model::specs::Report::ReportLines::freed_read, crate::specs::Reading::freed_words))]
fn freed_read(alloc: Global, bytes: &[u8]) -> Result<Option<ReportLine>, NoMemory>
    ensures { IfOk result (λ line. line ≡ freed_read bytes.now) }
{
    let Some((label, id)) = freed_words(bytes) else {
        return Ok(None);
    };
    let label = kept_label(alloc, label)?;
    Ok(Some(ReportLine::Freed { label, id }))
}

/// The label at the end of a line.
#[tactic(auto, unfolding(kms_model::specs::Script::CommandLines::label_alone))]
fn label_alone(bytes: &[u8]) -> Option<&[u8]>
    ensures { option_copied result ≡ label_alone bytes.now }
{
    let (label, rest) = take_label(bytes)?;
    take_end(rest)?;
    Some(label)
}

/// The label of the fence that a history waits for.
fn stalled_read(alloc: Global, bytes: &[u8]) -> Result<Option<End>, NoMemory>
    ensures { IfOk result (λ end. end ≡ stalled_read bytes.now) }
{
    let Some(label) = label_alone(bytes) else {
        return Ok(None);
    };
    Ok(Some(End::Stalled(kept_label(alloc, label)?)))
}

/// How many steps there were, at the end of a line.
#[tactic(auto, unfolding(kms_model::specs::Report::ReportLines::open_read))]
fn open_read(bytes: &[u8]) -> Option<End>
    ensures { result ≡ open_read bytes.now }
{
    let (count, rest) = take_dec(bytes, u64::MAX)?;
    take_end(rest)?;
    Some(End::Open(count))
}

/// `drained`
fn drained_read(bytes: &[u8]) -> Option<End>
    ensures { result ≡ drained_read bytes.now }
{
    match take_end(bytes) {
        Some(()) => Some(End::Drained),
        None => None,
    }
}

/// How a history ended, by a word and the fields behind it.
fn end_of_word(alloc: Global, word: &[u8], rest: &[u8]) -> Result<Option<End>, NoMemory>
    ensures { IfOk result (λ end. end ≡ end_of_word word.now rest.now) }
{
    if word == b"drained".as_slice() {
        Ok(drained_read(rest))
    } else if word == b"stalled".as_slice() {
        stalled_read(alloc, rest)
    } else if word == b"open".as_slice() {
        Ok(open_read(rest))
    } else {
        Ok(None)
    }
}

/// `drained`, `stalled LABEL` or `open N`
#[tactic(auto, unfolding(kms_model::specs::Report::ReportLines::end_read))]
fn end_read(alloc: Global, bytes: &[u8]) -> Result<Option<End>, NoMemory>
    ensures { IfOk result (λ end. end ≡ end_read bytes.now) }
{
    let Some((word, rest)) = take_field(bytes) else {
        return Ok(None);
    };
    end_of_word(alloc, word, rest)
}

/// What a line says that tells how a history ended, by the fields behind its letter.
fn ended_read(alloc: Global, fields: &[u8]) -> Result<Option<ReportLine>, NoMemory>
    ensures { IfOk result (λ line. line ≡ ended_read fields.now) }
{
    match end_read(alloc, fields)? {
        Some(end) => Ok(Some(ReportLine::Ended(end))),
        None => Ok(None),
    }
}

/// What the line of a step says.
fn stepped_read(text: &[u8]) -> Option<ReportLine>
    ensures { result ≡ stepped_read text.now }
{
    match read_step(text) {
        Some(step) => Some(ReportLine::Stepped(step)),
        None => None,
    }
}

/// What a line says that is none of the first four letters.
fn later_line(
    alloc: Global,
    letter: &[u8],
    fields: &[u8],
    text: &[u8],
) -> Result<Option<ReportLine>, NoMemory>
    ensures { IfOk result (λ line. line ≡ later_line_read letter.now fields.now text.now) }
{
    if letter == b"X".as_slice() {
        freed_read(alloc, fields)
    } else if letter == b"D".as_slice() {
        ended_read(alloc, fields)
    } else {
        Ok(stepped_read(text))
    }
}

/// What a line says, without its line feed. Its letter tells which line it is: `J`, `R`, `L`, `E`, `X`, `D` or `T`.
#[tactic(auto, unfolding(kms_model::specs::Report::ReportLines::report_line_read))]
pub fn read_line(alloc: Global, text: &[u8]) -> Result<Option<ReportLine>, NoMemory>
    ensures { IfOk result (λ line. line ≡ report_line_read text.now) }
{
    let (letter, fields) = split_at_byte(text, b' ');
    if letter == b"J".as_slice() {
        Ok(entry_read(fields))
    } else if letter == b"R".as_slice() {
        Ok(answer_read(fields))
    } else if letter == b"L".as_slice() {
        latch_read(alloc, fields)
    } else if letter == b"E".as_slice() {
        Ok(client_event_read(fields))
    } else {
        later_line(alloc, letter, fields, text)
    }
}

/// The place of a line's letter in the order J, R, L, E, X, D and T, from 0.
fn letter_place(line: &ReportLine) -> u8
    ensures { result ≡ letter_place line.now }
{
    match line {
        ReportLine::Entry { .. } => 0,
        ReportLine::Answer { .. } => 1,
        ReportLine::Latch { .. } => 2,
        ReportLine::Event { .. } => 3,
        ReportLine::Freed { .. } => 4,
        ReportLine::Ended(_) => 5,
        ReportLine::Stepped(_) => 6,
    }
}

/// The place of the least letter that may stand behind a line: no second D line follows.
pub fn least_behind(line: &ReportLine) -> u8
    ensures { result ≡ least_behind line.now }
{
    match line {
        ReportLine::Ended(_) => 6,
        _ => letter_place(line),
    }
}

/// Whether a line may stand where that letter is the least: a T line behind the D line alone.
fn may_stand(least: u8, line: &ReportLine) -> bool
    ensures { result ≡ may_stand least line.now }
{
    match line {
        ReportLine::Stepped(_) => least == 6,
        _ => least <= letter_place(line),
    }
}

/// The line, where it may stand.
fn if_it_may_stand(least: u8, line: Option<ReportLine>) -> Option<ReportLine>
    ensures { result ≡ if_it_may_stand least line }
{
    match line {
        Some(line) if may_stand(least, &line) => Some(line),
        _ => None,
    }
}

/// What a line says, where it may stand and a line feed ends it.
#[tactic(auto, unfolding(kms_model::specs::Report::ReportLines::report_row_read))]
pub fn read_row(alloc: Global, least: u8, row: &Row<'_>) -> Result<Option<ReportLine>, NoMemory>
    ensures { IfOk result (λ line. line ≡ report_row_read least (row_in row.now)) }
{
    if !row.is_ended {
        return Ok(None);
    }
    Ok(if_it_may_stand(least, read_line(alloc, row.text)?))
}
