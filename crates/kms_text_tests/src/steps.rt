//! The lines of steps: each kind read and printed, and lines that are nearly such lines.
use kms_model::{Kind, Step};
use kms_script::{print_step, read_step};
use std::alloc::{AllocError, Global};
use std::test::Fail;

/// Whether a line is read as a step, and this step is printed as the line.
fn is_line_of(alloc: Global, line: &str, want: Step) -> Result<bool, AllocError> {
    let Some(step) = read_step(line.as_bytes()) else {
        return Ok(false);
    };
    let text = print_step(alloc, &step).map_err(|_| AllocError)?;
    Ok(step == want && text.as_slice() == line.as_bytes())
}

#[test]
fn a_step_of_a_client_has_its_line(rt: HostRuntime) -> Result<(), Fail> {
    let alloc = rt.alloc();
    for (line, step) in [
        ("T begin 1", Step::Begin { client: 1 }),
        ("T backoff 16", Step::BackOff { client: 16 }),
        ("T relock 10", Step::Relock { client: 10 }),
        ("T refuse 0", Step::Refuse { client: 0 }),
        ("T test 4294967295", Step::Test { client: u32::MAX }),
        ("T swap 2", Step::Swap { client: 2 }),
        ("T make 3", Step::Make { client: 3 }),
        ("T signal 4", Step::Signal { client: 4 }),
        ("T read 5", Step::Read { client: 5 }),
        ("T return 6", Step::Return { client: 6 }),
    ] {
        assert!(rt; is_line_of(alloc, line, step)?, "{line}");
    }
    Ok(())
}

#[test]
fn a_step_of_a_commit_has_its_line(rt: HostRuntime) -> Result<(), Fail> {
    let alloc = rt.alloc();
    for (line, step) in [
        ("T claim 0", Step::Claim { commit: 0 }),
        ("T hwdone 4294967295", Step::HwDone { commit: u32::MAX }),
        ("T cleanup 100", Step::Cleanup { commit: 100 }),
        ("T stall", Step::Stall),
    ] {
        assert!(rt; is_line_of(alloc, line, step)?, "{line}");
    }
    Ok(())
}

#[test]
fn a_step_with_an_object_has_its_line(rt: HostRuntime) -> Result<(), Fail> {
    let alloc = rt.alloc();
    let (client, commit) = (1, 20);
    for (line, step) in [
        (
            "T lock 1 crtc0",
            Step::Lock {
                client,
                kind: Kind::Crtc,
                index: 0,
            },
        ),
        (
            "T lock 1 enc0",
            Step::Lock {
                client,
                kind: Kind::Enc,
                index: 0,
            },
        ),
        (
            "T write 20 plane15",
            Step::Write {
                commit,
                kind: Kind::Plane,
                index: 15,
            },
        ),
        (
            "T flush 20 crtc255",
            Step::Flush {
                commit,
                kind: Kind::Crtc,
                index: 255,
            },
        ),
        (
            "T vblank conn7",
            Step::Vblank {
                kind: Kind::Conn,
                index: 7,
            },
        ),
    ] {
        assert!(rt; is_line_of(alloc, line, step)?, "{line}");
    }
    Ok(())
}

/// Lines of no step.
const NO_STEPS: &str = "
T
T 
Tbegin 1
t begin 1
 T begin 1
TT begin 1
T  begin 1
T begin  1
T begin 1 
T begin
T begin 
T begin 01
T begin 00
T begin +1
T begin -1
T begin 0x1
T begin 4294967296
T begin 18446744073709551617
T begin 1 2
T begin crtc0
T Begin 1
T BEGIN 1
T begins 1
T begi 1
T wait 1
T 1 begin
begin 1
T lock 1
T lock crtc0
T lock 1 crtc
T lock 1 crtc01
T lock 1 crtc256
T lock 1 crtc 0
T lock 1 Crtc0
T lock 1 encoder0
T lock 1 0
T lock 1 crtc0 
T lock 1 crtc0 crtc1
T lock 4294967296 crtc0
T write 1
T flush crtc0 1
T vblank
T vblank 0
T vblank 1 crtc0
T vblank crtc0 1
T hw_done 1
T stall 1
T stall 
T stalled
T ";

#[test]
fn a_line_of_another_form_has_no_step(rt: HostRuntime) -> Result<(), Fail> {
    for line in NO_STEPS.lines() {
        assert!(rt; read_step(line.as_bytes()).is_none(), "{line}");
    }
    for line in [
        b"T begin 1\n".as_slice(),
        b"T begin 1\r",
        b"T\tbegin 1",
        b"T begin\t1",
        b"T begin 1\0",
    ] {
        assert!(rt; read_step(line).is_none(), "{line:?}");
    }
    Ok(())
}
