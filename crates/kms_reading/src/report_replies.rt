//! The replies at the ends of lines, each by the fields behind the word that begins it.
ghost use Rattle.std.specs.Prelude.{◌≡◌, option_map};
ghost use Rattle.kms_model.specs.Report.ReplyFields.{busy_read, event_fields, lone_number, lone_reply, named_id, numbered_reply, refusal_numbered, refusal_read, reply_of_word, reply_read, space_read, word32_at};
ghost use Rattle.kms_model.specs.Report.Rules.{errno_of};
ghost use Rattle.kms_model.specs.declared.replies.Reply.TheVariants as reply;
ghost use Rattle.kms_reading.specs.Reading.{refused_reply};

use kms_model::{Event, Kind, ObjId, Refusal, Reply, rule_of};
use kms_words::{MOST, read_object, strip, take_dec, take_end, take_field};

/// From this index on, ids of one kind of object would be those of another.
const MOST_OF_A_KIND: u32 = 100;

/// A number below 2^32, and the bytes behind it.
#[tactic(auto, unfolding(kms_model::specs::Report::ReplyFields::word32_at))]
pub fn take_word(bytes: &[u8]) -> Option<(u32, &[u8])>
    ensures { option_map (λ x. (x.0, x.1.now)) result ≡ word32_at bytes.now }
{
    let (number, rest) = take_dec(bytes, MOST)?;
    Some((number as u32, rest))
}

/// A number below 2^32 at the end of a line.
#[tactic(auto, unfolding(kms_model::specs::Report::ReplyFields::lone_number))]
pub fn lone_number(bytes: &[u8]) -> Option<u32>
    ensures { result ≡ lone_number bytes.now }
{
    let (number, rest) = take_word(bytes)?;
    take_end(rest)?;
    Some(number)
}

/// `USERDATA SEQUENCE CRTCID` at the end of a line.
#[tactic(auto, unfolding(kms_model::specs::Report::ReplyFields::event_fields))]
pub fn event_fields(bytes: &[u8]) -> Option<Event>
    ensures { result ≡ event_fields bytes.now }
{
    let (user_data, rest) = take_dec(bytes, u64::MAX)?;
    let (sequence, rest) = take_word(rest)?;
    let crtc = lone_number(rest)?;
    Some(Event {
        user_data,
        sequence,
        crtc,
    })
}

/// A reply of one word, at the end of a line.
#[tactic(auto, unfolding(kms_model::specs::Report::ReplyFields::lone_reply))]
fn lone_reply(answer: Reply, bytes: &[u8]) -> Option<Reply>
    ensures { result ≡ lone_reply answer bytes.now }
{
    take_end(bytes)?;
    Some(answer)
}

/// `events 25 USED`, behind the name of the error number.
#[tactic(auto, unfolding(kms_model::specs::Report::ReplyFields::space_read, kms_model::specs::Report::ReplyFields::numbered_reply))]
fn read_space(bytes: &[u8]) -> Option<Reply>
    ensures { result ≡ space_read bytes.now }
{
    let fields = strip(b" events 25", bytes)?;
    let used = lone_number(fields)?;
    Some(Reply::Space { used })
}

/// The id of the object of a kind with an index; 0, which no object has, where ids of kinds would meet.
fn named_id(kind: Kind, index: u32) -> ObjId
    ensures { result ≡ named_id kind index }
{
    if index < MOST_OF_A_KIND {
        ObjId::of(kind, index)
    } else {
        ObjId(0)
    }
}

/// `26 OBJ COMMIT`, behind the name of the error number. Any object of the grammar may stand there.
#[tactic(auto, unfolding(kms_model::specs::Report::ReplyFields::busy_read, kms_model::specs::Report::ReplyFields::numbered_reply))]
fn read_busy(bytes: &[u8]) -> Option<Reply>
    ensures { result ≡ busy_read bytes.now }
{
    let fields = strip(b" 26", bytes)?;
    let (word, rest) = take_field(fields)?;
    let (kind, index) = read_object(word)?;
    let commit = lone_number(rest)?;
    Some(Reply::Busy {
        object: named_id(kind, index),
        commit,
    })
}

/// The name of the error number of a rule; `EINVAL` where no rule has the number.
fn errno_of(number: u32) -> &'static str
    ensures { result.now ≡ errno_of number }
{
    match rule_of(number) {
        Some(rule) => rule.errno,
        None => "EINVAL",
    }
}

/// A refusal by its number alone: 1 to 24 of a request, 31 to 35 of another command.
fn refusal_of(number: u32) -> Option<Reply>
    ensures { result ≡ refusal_numbered number }
{
    if number >= 1 && number <= 24 {
        Some(Reply::Refused(Refusal(number)))
    } else if number >= 31 && number <= 35 {
        Some(Reply::Denied(number))
    } else {
        None
    }
}

/// The number of a refusal, behind the name of its error number and no other.
#[tactic(auto, unfolding(kms_model::specs::Report::ReplyFields::refusal_read))]
fn read_refusal(errno: &[u8], bytes: &[u8]) -> Option<Reply>
    ensures { result ≡ refusal_read errno.now bytes.now }
{
    let number = lone_number(bytes)?;
    if errno == errno_of(number).as_bytes() {
        refusal_of(number)
    } else {
        None
    }
}

/// `made ID`, behind its word.
#[tactic(auto, unfolding(kms_model::specs::Report::ReplyFields::numbered_reply))]
fn read_made(bytes: &[u8]) -> Option<Reply>
    ensures { result ≡ numbered_reply (λ id. reply.Made id) bytes.now }
{
    let id = lone_number(bytes)?;
    Some(Reply::Made { id })
}

/// `commit K`, behind its word.
#[tactic(auto, unfolding(kms_model::specs::Report::ReplyFields::numbered_reply))]
fn read_commit(bytes: &[u8]) -> Option<Reply>
    ensures { result ≡ numbered_reply (λ k. reply.Commit k) bytes.now }
{
    let commit = lone_number(bytes)?;
    Some(Reply::Commit { commit })
}

/// `event USERDATA SEQUENCE CRTCID`, behind its word.
fn read_event(bytes: &[u8]) -> Option<Reply>
    ensures { result ≡ option_map (λ e. reply.Event e) (event_fields bytes.now) }
{
    match event_fields(bytes) {
        Some(event) => Some(Reply::Event(event)),
        None => None,
    }
}

/// The reply that begins with the name of an error number.
fn read_error(word: &[u8], fields: &[u8]) -> Option<Reply>
    ensures { result ≡ refused_reply word.now fields.now }
{
    if word == b"ENOMEM".as_slice() {
        read_space(fields)
    } else if word == b"EBUSY".as_slice() {
        read_busy(fields)
    } else {
        read_refusal(word, fields)
    }
}

/// The reply that a word and the fields behind it spell.
#[tactic(auto, unfolding(kms_model::specs::Report::ReplyFields::reply_of_word))]
fn reply_of_word(word: &[u8], fields: &[u8]) -> Option<Reply>
    ensures { result ≡ reply_of_word word.now fields.now }
{
    if word == b"made".as_slice() {
        read_made(fields)
    } else if word == b"done".as_slice() {
        lone_reply(Reply::Done, fields)
    } else if word == b"commit".as_slice() {
        read_commit(fields)
    } else if word == b"tested".as_slice() {
        lone_reply(Reply::Tested, fields)
    } else if word == b"event".as_slice() {
        read_event(fields)
    } else if word == b"none".as_slice() {
        lone_reply(Reply::NoEvent, fields)
    } else {
        read_error(word, fields)
    }
}

/// The reply that the fields at the end of a line spell: `made ID`, `done`, `commit K`, `tested`, an error number's name with
/// the number of its refusal, `ENOMEM events 25 USED`, `EBUSY 26 OBJ K`, `event USERDATA SEQUENCE CRTCID` or `none`.
#[tactic(auto, unfolding(kms_model::specs::Report::ReplyFields::reply_read))]
pub fn read_reply(bytes: &[u8]) -> Option<Reply>
    ensures { result ≡ reply_read bytes.now }
{
    let (word, fields) = take_field(bytes)?;
    reply_of_word(word, fields)
}
