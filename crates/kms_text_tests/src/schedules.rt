//! Inputs in which a report follows the script, and a printed script with its steps.
ghost use Rattle.std.specs.Prelude.{◌≤◌, All};
ghost use Rattle.std.specs.Option.{ForSome};
ghost use Rattle.kms_script.specs.Scheduled.{index_in_step};

use crate::reading::{HEAD, part_fault, repeated, script};
use kms_model::{Kind, Part, Script, Step};
use kms_script::{Parsed, Why, parse, print, print_step};
use std::alloc::{AllocError, Global};
use std::process::Abort;
use std::test::Fail;

/// What an input without a fault has.
fn parsed(alloc: Global, text: &[u8], part: Part) -> Result<Parsed, AllocError> {
    parse(alloc, text, part).map_err(|_| AllocError)
}

#[test]
fn the_last_line_of_a_script_may_begin_a_report(rt: HostRuntime) -> Result<(), Fail> {
    let alloc = rt.alloc();
    for (behind, fault) in [
        (b"".as_slice(), Some((5, Why::Form))),
        (b"report", Some((5, Why::Cut))),
        (b"schedule\n", Some((5, Why::Form))),
        (b"report\n", None),
        (b"report\n\xff\n\nreport", None),
    ] {
        let text = repeated(alloc, HEAD.as_bytes(), behind, 1)?;
        let found = part_fault(alloc, text.as_slice(), Part::Report)?;
        assert!(rt; found == fault, "{behind:?}");
    }
    let text = repeated(alloc, HEAD.as_bytes(), b"report\nreport\n", 1)?;
    let parsed = parsed(alloc, text.as_slice(), Part::Report)?;
    assert!(rt; parsed.rest == HEAD.len() + 7);
    Ok(())
}

/// The text of a script, with a schedule behind it.
fn printed_with(alloc: Global, script: &Script, steps: &[Step]) -> Result<Vec<u8>, AllocError>
    requires { All (λ step. ForSome (index_in_step step) (λ index. index ≤ 255)) steps.now }
{
    let mut text = print(alloc, script).map_err(|_| AllocError)?.into_vec();
    text.extend_from_slice(b"schedule\n")?;
    for step in steps {
        let line = print_step(alloc, step).map_err(|_| AllocError)?;
        text.extend_from_slice(line.as_slice())?;
        text.push(b'\n')?;
    }
    Ok(text)
}

/// Asserts that a text of so many bytes was read to its end, as this script and these steps.
fn assert_read(rt: &impl Abort, again: &Parsed, script: &Script, steps: &[Step], size: usize) {
    assert!(rt; again.script == *script);
    assert!(rt; again.steps.as_slice() == steps);
    assert!(rt; again.rest == size);
}

/// Asserts that a printed script, with steps, is read back.
fn assert_read_back(
    rt: &impl Abort,
    alloc: Global,
    script: &Script,
    steps: &[Step],
) -> Result<(), AllocError>
    requires { All (λ step. ForSome (index_in_step step) (λ index. index ≤ 255)) steps.now }
{
    let text = printed_with(alloc, script, steps)?;
    let again = parsed(alloc, text.as_slice(), Part::Schedule)?;
    assert_read(rt, &again, script, steps, text.len());
    Ok(())
}

#[test]
fn a_printed_script_is_read_back_with_its_steps(rt: HostRuntime) -> Result<(), Fail> {
    let script = script(rt.alloc(), HEAD.as_bytes())?;
    let lock = Step::Lock {
        client: 1,
        kind: Kind::Plane,
        index: 0,
    };
    let steps = [lock, Step::Claim { commit: 65535 }, Step::Stall];
    Ok(assert_read_back(&rt, rt.alloc(), &script, &steps)?)
}
