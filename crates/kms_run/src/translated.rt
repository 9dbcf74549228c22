//! What the program says to a script with older calls.
ghost use Rattle.kms_run.specs.Translation.{TellsTranslation};

use kms_legacy::{parse_legacy, translate_script};
use kms_model::Seq;
use kms_script::{ParseError, print};
use std::alloc::Global;

/// The text of the script that says by atomic requests what an input says with older calls, or the input's first fault. The
/// input's bytes are given up before anything is translated.
pub fn answer_legacy(alloc: Global, input: Vec<u8>) -> Result<Seq<u8>, ParseError>
    ensures { TellsTranslation input.items result }
{
    let script = parse_legacy(alloc, &input)?;
    drop(input);
    let translation = translate_script(alloc, &script)?;
    Ok(print(alloc, &translation)?)
}

/// The same of an input that its owner keeps.
pub fn answer_legacy_to(alloc: Global, input: &[u8]) -> Result<Seq<u8>, ParseError>
    ensures { TellsTranslation input.now result }
{
    let script = parse_legacy(alloc, input)?;
    let translation = translate_script(alloc, &script)?;
    Ok(print(alloc, &translation)?)
}
