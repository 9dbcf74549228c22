//! What a reader answers: a worked script, limits that no case can spell, devices and lines alone, and numbers at their edges.
ghost use Rattle.std.specs.Prelude.{◌<◌, length};

use kms_model::{Part, Script, Seq, Topology};
use kms_script::{
    LineError, NameIndex, ParseError, Why, is_label, parse, print, read_command, read_command_with,
    read_dec, read_int, read_topology,
};
use std::alloc::{AllocError, AllocGlobal, Global};
use std::process::Abort;
use std::test::Fail;

/// The lines of a small device.
pub(crate) const HEAD: &str = kms_samples::script!(single);

/// The same device, of profile 2.
const HEAD_2: &str = kms_samples::script!(single(2));

/// A client that lights its CRTC, and one that waits.
const EXAMPLE: &str = kms_samples::script!(single "client\n" made lights "client\nwait\n");

/// A text with a piece so many times behind it.
pub(crate) fn repeated(
    alloc: Global,
    front: &[u8],
    piece: &[u8],
    count: usize,
) -> Result<Vec<u8>, AllocError> {
    let mut text = Vec::new(alloc);
    text.extend_from_slice(front)?;
    for _ in 0..count {
        text.extend_from_slice(piece)?;
    }
    Ok(text)
}

/// The line and the cause of a fault: none for a script.
fn fault(alloc: Global, text: &[u8]) -> Result<Option<(u32, Why)>, AllocError> {
    part_fault(alloc, text, Part::Script)
}

/// The same of an input of a part.
pub(crate) fn part_fault(
    alloc: Global,
    text: &[u8],
    part: Part,
) -> Result<Option<(u32, Why)>, AllocError> {
    match parse(alloc, text, part) {
        Ok(_) => Ok(None),
        Err(ParseError::Fault { line, why }) => Ok(Some((line, why))),
        Err(ParseError::NoMemory) => Err(AllocError),
    }
}

/// Asserts that this is the fault of a script, or that it has none.
fn assert_fault(
    rt: &(impl Abort + AllocGlobal),
    case: &str,
    text: &[u8],
    want: Option<(u32, Why)>,
) -> Result<(), Fail> {
    assert!(rt; fault(rt.alloc(), text)? == want, "{case}");
    Ok(())
}

pub(crate) fn script(alloc: Global, text: &[u8]) -> Result<Script, AllocError> {
    match parse(alloc, text, Part::Script) {
        Ok(parsed) => Ok(parsed.script),
        Err(_) => Err(AllocError),
    }
}

/// Whether a script has names, in this order.
fn has_names(script: &Script, names: &[&str]) -> bool {
    script.names.len() == names.len()
        && script
            .names
            .as_slice()
            .iter()
            .zip(names)
            .all(|(name, want)| name.as_slice() == want.as_bytes())
}

#[test]
fn the_example_is_a_script(rt: HostRuntime) -> Result<(), Fail> {
    let script = script(rt.alloc(), EXAMPLE.as_bytes())?;
    assert!(rt; script.version == 1 && script.topology.crtcs == 1);
    assert!(rt; has_names(&script, &["b", "f", "m"]));
    let counts = script
        .clients
        .as_slice()
        .iter()
        .map(|commands| commands.len());
    assert!(rt; counts.eq([4, 1]));
    Ok(())
}

/// Whether a script that is a device alone has a version, which is its profile, and is printed again.
fn has_version(alloc: Global, head: &str, version: u32) -> Result<bool, AllocError> {
    let script = script(alloc, head.as_bytes())?;
    let text = print(alloc, &script).map_err(|_| AllocError)?;
    let device = read_topology(alloc, head.as_bytes()).map_err(|_| AllocError)?;
    Ok(
        script.version == version
            && script.topology.profile == version
            && device.version == version
            && device.topology.profile == version
            && text.as_slice() == head.as_bytes(),
    )
}

#[test]
fn the_version_of_a_script_is_its_profile(rt: HostRuntime) -> Result<(), Fail> {
    for (version, head) in [(1, HEAD), (2, HEAD_2)] {
        assert!(rt; has_version(rt.alloc(), head, version)?, "{version}");
    }
    Ok(())
}

/// How many names a line says alone, on a device of a profile: a name of a property that it has is none of them.
fn names_of(alloc: Global, head: &str, line: &[u8]) -> Result<usize, AllocError>
    requires { length line.now < 1024 }
{
    let device = script(alloc, head.as_bytes())?.topology;
    line_alone(alloc, &device, line).map_err(|_| AllocError)
}

#[test]
fn a_gamma_table_is_known_from_profile_2_on(rt: HostRuntime) -> Result<(), Fail> {
    let line = b"atomic 0x0 0 crtc0.GAMMA_LUT=0";
    assert!(rt; names_of(rt.alloc(), HEAD, line)? == 1);
    assert!(rt; names_of(rt.alloc(), HEAD_2, line)? == 0);
    Ok(())
}

/// A client that makes so many fences, `a` and their number.
fn fences(alloc: Global, count: u32) -> Result<Vec<u8>, AllocError> {
    let mut text = repeated(alloc, HEAD.as_bytes(), b"client\n", 1)?;
    for i in 0..count {
        let line = format!(in alloc; "fence a{i}\n")?;
        text.extend_from_slice(line.as_bytes())?;
        if i == 2047 {
            text.extend_from_slice(b"client\n")?;
        }
    }
    Ok(text)
}

#[test]
fn a_script_makes_4096_labels(rt: HostRuntime) -> Result<(), Fail> {
    let alloc = rt.alloc();
    let most = fences(alloc, 4096)?;
    assert_fault(&rt, "4096 labels", most.as_slice(), None)?;
    let more = fences(alloc, 4097)?;
    assert_fault(&rt, "4097", more.as_slice(), Some((4103, Why::Limit)))?;
    let twice = repeated(alloc, most.as_slice(), b"fence a4095\n", 1)?;
    assert_fault(
        &rt,
        "the last one again",
        twice.as_slice(),
        Some((4103, Why::Label)),
    )
}

#[test]
fn an_input_has_67_108_864_bytes(rt: HostRuntime) -> Result<(), Fail> {
    let alloc = rt.alloc();
    let piece = repeated(alloc, b"", b"aaaaaaaaaaaaaaaa", 256)?;
    let most = repeated(alloc, b"", piece.as_slice(), 16_384)?;
    assert!(rt; most.len() == 67_108_864);
    assert_fault(
        &rt,
        "the longest input",
        most.as_slice(),
        Some((1, Why::Cut)),
    )?;
    let more = repeated(alloc, most.as_slice(), b"a", 1)?;
    assert_fault(&rt, "a longer one", more.as_slice(), Some((0, Why::Limit)))
}

/// The place behind a device; none for a fault.
fn place_behind(alloc: Global, text: &[u8]) -> Option<usize> {
    match read_topology(alloc, text) {
        Ok(read) => Some(read.rest),
        Err(_) => None,
    }
}

#[test]
fn a_device_is_read_up_to_its_last_connector(rt: HostRuntime) -> Result<(), Fail> {
    let alloc = rt.alloc();
    for (behind, count, want) in [
        ("", 0, Some(42)),
        ("conn 1\n", 1, Some(42)),
        ("conn 0 \n", 1, Some(42)),
        ("client\n", 1, Some(42)),
        ("\n", 1, Some(42)),
        ("conn 0", 1, Some(42)),
        ("conn 0\n", 7, Some(91)),
        ("conn 0\n", 8, None),
    ] {
        let text = repeated(alloc, HEAD.as_bytes(), behind.as_bytes(), count)?;
        assert!(rt;
            place_behind(alloc, text.as_slice()) == want,
            "{count} of {behind:?}"
        );
    }
    let alone = b"kms 1\ncrtcs 1\nplane cursor 0 AR24\n";
    assert!(rt; place_behind(alloc, alone).is_none());
    Ok(())
}

/// What a line alone answers, behind no names: how many names there are then, or why it is refused.
fn line_alone(alloc: Global, device: &Topology, line: &[u8]) -> Result<usize, LineError>
    requires { length line.now < 1024 }
{
    let mut names = Seq::new(alloc);
    read_command(alloc, device, &mut names, line)?;
    Ok(names.len())
}

#[test]
fn a_line_alone_puts_its_names_behind_the_others(rt: HostRuntime) -> Result<(), Fail> {
    let alloc = rt.alloc();
    let device = script(alloc, HEAD.as_bytes())?.topology;
    assert!(rt; line_alone(alloc, &device, b"fence a") == Ok(1));
    assert!(rt; line_alone(alloc, &device, b"atomic 0x0 0 crtc0.x=@y crtc0.x=+y") == Ok(2));
    assert!(rt;
        line_alone(alloc, &device, b"atomic 0x0 0 crtc0.x=+y crtc0.x=+y") == Err(LineError::Label)
    );
    assert!(rt; line_alone(alloc, &device, b"fence b\n") == Err(LineError::Form));
    Ok(())
}

/// How many names there are behind two lines alone, one after the other.
fn two_lines(
    alloc: Global,
    device: &Topology,
    first: &[u8],
    second: &[u8],
) -> Result<usize, LineError>
    requires first { length first.now < 1024 }
    requires second { length second.now < 1024 }
{
    let mut names = Seq::new(alloc);
    read_command(alloc, device, &mut names, first)?;
    read_command(alloc, device, &mut names, second)?;
    Ok(names.len())
}

/// How many names an index has behind two lines, the second of which may be refused.
fn two_indexed(alloc: Global, first: &[u8], second: &[u8]) -> Result<usize, LineError>
    requires first { length first.now < 1024 }
    requires second { length second.now < 1024 }
{
    let mut index = NameIndex::new(alloc, 1);
    read_command_with(alloc, &mut index, first)?;
    let _ = read_command_with(alloc, &mut index, second);
    Ok(index.into_names().len())
}

#[test]
fn an_index_keeps_the_names_of_lines_that_are_not_refused(rt: HostRuntime) -> Result<(), Fail> {
    let alloc = rt.alloc();
    assert!(rt; two_indexed(alloc, b"fence a", b"fence a") == Ok(1));
    assert!(rt; two_indexed(alloc, b"addfb a b", b"addfb b c") == Ok(3));
    assert!(rt; two_indexed(alloc, b"fence a", b"addfb c d e") == Ok(1));
    assert!(rt; two_indexed(alloc, b"fence a", b"atomic 0x0 0 crtc0.x=+y crtc0.x=+y") == Ok(1));
    Ok(())
}

#[test]
fn a_line_alone_does_not_look_at_the_labels_of_earlier_lines(rt: HostRuntime) -> Result<(), Fail> {
    let alloc = rt.alloc();
    let device = script(alloc, HEAD.as_bytes())?.topology;
    assert!(rt; two_lines(alloc, &device, b"fence a", b"fence a") == Ok(1));
    assert!(rt;
        two_lines(
            alloc,
            &device,
            b"addfb a b",
            b"atomic 0x0 0 crtc0.x=@b crtc0.x=+y"
        ) == Ok(4)
    );
    assert!(rt; two_lines(alloc, &device, b"fence a", b"wait 1") == Err(LineError::Form));
    Ok(())
}

#[test]
fn integers_at_their_edges(rt: HostRuntime) {
    for (word, want) in [
        ("0", Some(0)),
        ("-0", None),
        ("+1", None),
        ("01", None),
        ("-01", None),
        ("-1", Some(-1)),
        ("-9223372036854775808", Some(-9_223_372_036_854_775_808)),
        ("-9223372036854775809", None),
        ("18446744073709551615", Some(18_446_744_073_709_551_615)),
        ("18446744073709551616", None),
        ("", None),
        ("-", None),
        ("--1", None),
    ] {
        assert!(rt; read_int(word.as_bytes()) == want, "{word}");
    }
}

#[test]
fn numbers_and_labels_at_their_edges(rt: HostRuntime) {
    for (word, want) in [
        ("0", Some(0)),
        ("00", None),
        ("01", None),
        ("18446744073709551615", Some(u64::MAX)),
        ("18446744073709551616", None),
        ("", None),
        ("1a", None),
    ] {
        assert!(rt; read_dec(word.as_bytes(), u64::MAX) == want, "{word}");
    }
    for (word, want) in [
        ("", false),
        ("a", true),
        ("abcdefghijklmno1", true),
        ("abcdefghijklmnop1", false),
        ("a_1", true),
        ("A", false),
        ("1a", false),
    ] {
        assert!(rt; is_label(word.as_bytes()) == want, "{word}");
    }
}
