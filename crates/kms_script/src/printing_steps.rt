//! The text of a step.
ghost use Rattle.std.specs.Prelude.{◌≡◌, ◌≤◌, ◌++◌, ◌∷◌, [], Some, IfOk, OnOk};
ghost use Rattle.std.specs.Fmt.{decimal};
ghost use Rattle.std.specs.Option.{ForSome};
ghost use Rattle.kms_model.specs.Report.History.{named_object, step_line, step_words};
ghost use Rattle.kms_model.specs.Script.Schedules.{IsFitStep, step_read};
ghost use Rattle.kms_words.specs.Printed.{fields};
ghost use Rattle.kms_script.specs.Scheduled.{index_in_step, step_text};

use kms_model::{Kind, NoMemory, Seq, Step};
use kms_words::{kind_word, push_decimal, push_number, push_word};
use std::alloc::Global;

/// Adds an object with a blank before it.
fn push_object(text: &mut Vec<u8>, kind: Kind, index: u32) -> Result<(), NoMemory>
    ensures { OnOk result (text.new.items
        ≡ text.old.items ++ 32 ∷ named_object kind index) }
{
    push_word(text, kind_word(kind))?;
    push_decimal(text, u64::from(index))
}

/// Adds a word, and a number behind it.
fn push_numbered(text: &mut Vec<u8>, word: &[u8], number: u32) -> Result<(), NoMemory>
    ensures { OnOk result (text.new.items
        ≡ text.old.items ++ fields (word.now ∷ decimal number ∷ [])) }
{
    push_word(text, word)?;
    push_number(text, u64::from(number))
}

/// Adds a word, and a number and an object behind it.
fn push_with_object(
    text: &mut Vec<u8>,
    word: &[u8],
    number: u32,
    kind: Kind,
    index: u32,
) -> Result<(), NoMemory>
    ensures { OnOk result (text.new.items ≡ text.old.items
        ++ fields (word.now ∷ decimal number ∷ named_object kind index ∷ [])) }
{
    push_numbered(text, word, number)?;
    push_object(text, kind, index)
}

/// Adds a word, and an object behind it.
fn push_on_object(text: &mut Vec<u8>, word: &[u8], kind: Kind, index: u32) -> Result<(), NoMemory>
    ensures { OnOk result (text.new.items
        ≡ text.old.items ++ fields (word.now ∷ named_object kind index ∷ [])) }
{
    push_word(text, word)?;
    push_object(text, kind, index)
}

/// Adds a step's words with a blank before each.
fn push_step(text: &mut Vec<u8>, step: &Step) -> Result<(), NoMemory>
    requires { ForSome (index_in_step step.now) (λ index. index ≤ 255) }
    ensures text { OnOk result (text.new.items
        ≡ text.old.items ++ fields (step_words step.now)) }
    ensures fits { IsFitStep step.now }
{
    match *step {
        Step::Begin { client } => push_numbered(text, b"begin", client),
        Step::Lock {
            client,
            kind,
            index,
        } => push_with_object(text, b"lock", client, kind, index),
        Step::BackOff { client } => push_numbered(text, b"backoff", client),
        Step::Relock { client } => push_numbered(text, b"relock", client),
        Step::Refuse { client } => push_numbered(text, b"refuse", client),
        Step::Test { client } => push_numbered(text, b"test", client),
        Step::Swap { client } => push_numbered(text, b"swap", client),
        Step::Make { client } => push_numbered(text, b"make", client),
        Step::Signal { client } => push_numbered(text, b"signal", client),
        Step::Claim { commit } => push_numbered(text, b"claim", commit),
        Step::Write {
            commit,
            kind,
            index,
        } => push_with_object(text, b"write", commit, kind, index),
        Step::Flush {
            commit,
            kind,
            index,
        } => push_with_object(text, b"flush", commit, kind, index),
        Step::HwDone { commit } => push_numbered(text, b"hwdone", commit),
        Step::Vblank { kind, index } => push_on_object(text, b"vblank", kind, index),
        Step::Cleanup { commit } => push_numbered(text, b"cleanup", commit),
        Step::Read { client } => push_numbered(text, b"read", client),
        Step::Return { client } => push_numbered(text, b"return", client),
        Step::Stall => push_word(text, b"stall"),
    }
}

/// The line of a step in the schedule of a script, without its line feed, which `read_step` reads as the same step.
/// The only error is want of memory.
///
/// The index of the step's object, where it names one, must be at most 255.
pub fn print_step(alloc: Global, step: &Step) -> Result<Seq<u8>, NoMemory>
    requires { ForSome (index_in_step step.now) (λ index. index ≤ 255) }
    ensures line { IfOk result (λ line. line ≡ step_text step.now) }
    ensures ended { IfOk result (λ line. line ++ 10 ∷ [] ≡ step_line step.now) }
    ensures again { IfOk result (λ line. step_read line ≡ Some step.now) }
{
    let mut text = Vec::new(alloc);
    text.push(b'T')?;
    push_step(&mut text, step)?;
    Ok(Seq::from_vec(text))
}
