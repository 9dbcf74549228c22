//! The lines of a schedule, each with a step.
ghost use Rattle.std.specs.Prelude.{◌≡◌, ◌≤◌, ℕ, Some, IfSome, IfNone, option_map};
ghost use Rattle.std.specs.Option.{ForSome};
ghost use Rattle.kms_model.specs.declared.replies.Step.{Step};
ghost use Rattle.kms_model.specs.Script.Schedules.{IsFitStep, IsSpeltOnce, object_at, step_of_word, step_read, worker_step};
ghost use Rattle.kms_script.specs.Scheduled.{IsStepLine, index_in_step, last_number, number_and_object, step_text};

use kms_model::{Kind, Step};
use kms_words::{MOST, read_object, strip, take_dec, take_end, take_field};

/// The number of a client or a commit, at the end of a line.
#[tactic(auto, unfolding(crate::specs::Scheduled::last_number))]
fn last_number(bytes: &[u8]) -> Option<u32>
    ensures { result ≡ last_number bytes.now }
{
    let (number, rest) = take_dec(bytes, MOST)?;
    take_end(rest)?;
    Some(number as u32)
}

/// The object at the end of a line.
#[tactic(auto, unfolding(kms_model::specs::Script::Schedules::object_at))]
fn last_object(bytes: &[u8]) -> Option<(Kind, u32)>
    ensures { result ≡ object_at bytes.now }
{
    let (word, rest) = take_field(bytes)?;
    take_end(rest)?;
    read_object(word)
}

/// The number of a client or a commit, and the object behind it, at the end of a line.
#[tactic(auto, unfolding(crate::specs::Scheduled::number_and_object))]
fn number_and_object(bytes: &[u8]) -> Option<(u32, Kind, u32)>
    ensures { result ≡ number_and_object bytes.now }
{
    let (number, rest) = take_dec(bytes, MOST)?;
    let (kind, index) = last_object(rest)?;
    Some((number as u32, kind, index))
}

/// A step of a worker or of the hardware, or one that a client waits for, by its word and the fields behind it.
#[tactic(auto, using(crate::proofs::StepFields::numbered_map, crate::proofs::StepFields::with_object_map, crate::proofs::StepFields::on_object_map, crate::proofs::StepFields::lone_map))]
fn worker_step(word: &[u8], fields: &[u8]) -> Option<Step>
    ensures { result ≡ worker_step word.now fields.now }
{
    if word == b"claim".as_slice() {
        last_number(fields).map(|commit| Step::Claim { commit })
    } else if word == b"write".as_slice() {
        number_and_object(fields).map(|(commit, kind, index)| Step::Write {
            commit,
            kind,
            index,
        })
    } else if word == b"flush".as_slice() {
        number_and_object(fields).map(|(commit, kind, index)| Step::Flush {
            commit,
            kind,
            index,
        })
    } else if word == b"hwdone".as_slice() {
        last_number(fields).map(|commit| Step::HwDone { commit })
    } else if word == b"vblank".as_slice() {
        last_object(fields).map(|(kind, index)| Step::Vblank { kind, index })
    } else if word == b"cleanup".as_slice() {
        last_number(fields).map(|commit| Step::Cleanup { commit })
    } else if word == b"read".as_slice() {
        last_number(fields).map(|client| Step::Read { client })
    } else if word == b"return".as_slice() {
        last_number(fields).map(|client| Step::Return { client })
    } else if word == b"stall".as_slice() {
        take_end(fields).map(|()| Step::Stall)
    } else {
        None
    }
}

/// The step of a word and the fields behind it.
#[tactic(auto, using(crate::proofs::StepFields::numbered_map, crate::proofs::StepFields::with_object_map), unfolding(kms_model::specs::Script::Schedules::step_of_word))]
fn step_of_word(word: &[u8], fields: &[u8]) -> Option<Step>
    ensures { result ≡ step_of_word word.now fields.now }
{
    if word == b"begin".as_slice() {
        last_number(fields).map(|client| Step::Begin { client })
    } else if word == b"lock".as_slice() {
        number_and_object(fields).map(|(client, kind, index)| Step::Lock {
            client,
            kind,
            index,
        })
    } else if word == b"backoff".as_slice() {
        last_number(fields).map(|client| Step::BackOff { client })
    } else if word == b"relock".as_slice() {
        last_number(fields).map(|client| Step::Relock { client })
    } else if word == b"refuse".as_slice() {
        last_number(fields).map(|client| Step::Refuse { client })
    } else if word == b"test".as_slice() {
        last_number(fields).map(|client| Step::Test { client })
    } else if word == b"swap".as_slice() {
        last_number(fields).map(|client| Step::Swap { client })
    } else if word == b"make".as_slice() {
        last_number(fields).map(|client| Step::Make { client })
    } else if word == b"signal".as_slice() {
        last_number(fields).map(|client| Step::Signal { client })
    } else {
        worker_step(word, fields)
    }
}

/// The step that a line of the schedule of a script spells, without its line feed: `T`, and the step's words with one
/// blank before each. A number of a client or a commit is at most 4294967295, and an object is `crtc`, `plane`, `conn`
/// or `enc` with an index to 255; whether there is such a client, commit or object is no matter of the line. None
/// where no step has this line. Each step has one line, which `print_step` writes.
#[tactic(auto, unfolding(kms_model::specs::Script::Schedules::step_read))]
pub fn read_step(line: &[u8]) -> Option<Step>
    ensures value { result ≡ step_read line.now }
    ensures line { IfSome result (λ step. IsStepLine line.now step) }
    ensures no_line { IfNone result ((step : Step) → ¬ IsStepLine line.now step) }
    ensures small { IfSome result (λ step. ForSome (index_in_step step) (λ index. index ≤ 255)) }
{
    let fields = strip(b"T", line)?;
    let (word, rest) = take_field(fields)?;
    step_of_word(word, rest)
}

/// Each step that a line can spell has one line, and is read of it alone; so steps with one line are one step.
pub fn steps_have_one_line()
    ensures once { IsSpeltOnce }
    ensures same { (a b : Step) → IsFitStep a → IsFitStep b → step_text a ≡ step_text b → a ≡ b }
{}
