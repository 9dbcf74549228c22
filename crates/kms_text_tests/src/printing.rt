//! What `print` writes: texts that were read, and a script that no text spells.
use crate::reading::script;
use kms_model::{
    Assign, Command, Format, Kind, Pattern, PlaneInfo, PropRef, Request, Script, Seq, Topology,
    Value,
};
use kms_script::print;
use std::alloc::{AllocError, Global};
use std::test::Fail;

const EXAMPLE: &str = kms_samples::script!(single "client\n" made lights "client\nwait\n");

const NO_CLIENT: &[u8] = b"kms 1
crtcs 4
plane overlay 0,1,2,3 XR24,AR24,RG16
plane primary 1,3 RG16
plane cursor 2 XR24,RG16
conn 0,3
conn 1
";

const EACH_FORM: &[u8] = b"kms 1
crtcs 1
plane primary 0 XR24
conn 0
client
buffer a 4294967295 0 RG16 solid abcd
buffer b 2 2 AR24 checker 00000000 ffffffff 4096
buffer c 64 64 XR24 ramp
buffer d 2 1 RG16 pixels 0001 0020
buffer e 1 2 XR24 pixels 00000001 00200000
addfb f later
mode m 4294967295 1 2 3 4 5 6 7 8 9 10 11 12 13 A-1.b_
blob g 00ff10
destroy never
closefb f
fence h
signal h
atomic 0xffffffff 18446744073709551615
atomic 0x0 10 crtc255.ACTIVE=-9223372036854775808 plane7.IN_FENCE_FD=@h crtc1.OUT_FENCE_PTR=+o enc0.GAMMA_LUT=18446744073709551615 conn3.CRTC_ID=crtc255 plane0.pixel_blend_mode=-1
wait
client
client
wait
";

/// What `legacy` writes: the requests of `setcrtc`, `pageflip`, `cursor` and `setcrtc` with `off`.
const TRANSLATED: &[u8] = b"kms 1
crtcs 2
plane primary 0,1 XR24
plane cursor 0,1 XR24
conn 0,1
conn 0,1
client
addfb f b
atomic 0x400 0 crtc0.ACTIVE=1 crtc0.MODE_ID=@m conn1.CRTC_ID=0 conn0.CRTC_ID=crtc0 plane0.FB_ID=@f plane0.CRTC_ID=crtc0 plane0.CRTC_X=0 plane0.CRTC_Y=0 plane0.CRTC_W=0 plane0.CRTC_H=0 plane0.SRC_X=131072 plane0.SRC_Y=4294901760 plane0.SRC_W=0 plane0.SRC_H=0
atomic 0x201 18446744073709551615 plane0.FB_ID=@f
atomic 0x0 0 plane1.CRTC_X=-2147483648 plane1.CRTC_Y=2147483647
atomic 0x400 0 crtc0.ACTIVE=0 crtc0.MODE_ID=0 conn0.CRTC_ID=0 plane0.FB_ID=0 plane0.CRTC_ID=0
";

fn printed(alloc: Global, text: &[u8]) -> Result<Seq<u8>, AllocError> {
    let script = script(alloc, text)?;
    print(alloc, &script).map_err(|_| AllocError)
}

#[test]
fn a_text_that_was_read_is_printed(rt: HostRuntime) -> Result<(), Fail> {
    let alloc = rt.alloc();
    for text in [EXAMPLE.as_bytes(), NO_CLIENT, EACH_FORM, TRANSLATED] {
        assert!(rt; printed(alloc, text)?.as_slice() == text);
    }
    Ok(())
}

#[test]
fn a_printed_script_is_read_again(rt: HostRuntime) -> Result<(), Fail> {
    let alloc = rt.alloc();
    let first = script(alloc, EACH_FORM)?;
    let text = print(alloc, &first).map_err(|_| AllocError)?;
    assert!(rt; script(alloc, text.as_slice())? == first);
    Ok(())
}

/// One client's commands with numbers beyond all names and tables.
fn strange_commands(alloc: Global) -> Result<Seq<Command>, AllocError> {
    let assign = Assign {
        kind: Kind::Enc,
        index: 256,
        prop: PropRef::Known(20),
        value: Value::Named(7),
    };
    let request = Request {
        flags: 16,
        user_data: 0,
        assigns: Seq::from_vec(Vec::from_array(alloc, [assign])?),
    };
    let buffer = Command::Buffer {
        label: 0,
        width: 0,
        height: 0,
        format: Format::Rg16,
        pattern: Pattern::Solid(0x12345678),
    };
    let commands = [
        buffer,
        Command::Atomic(request),
        Command::Fence { label: 9 },
    ];
    Ok(Seq::from_vec(Vec::from_array(alloc, commands)?))
}

const STRANGE: &[u8] = b"kms 2
crtcs 0
plane cursor 1 
client
buffer  0 0 RG16 solid 5678
atomic 0x10 0 enc256.=@
fence 
";

#[test]
fn a_script_that_no_text_spells_is_printed(rt: HostRuntime) -> Result<(), Fail> {
    let alloc = rt.alloc();
    let plane = PlaneInfo {
        kind: 3,
        crtcs: 0x12,
        formats: 8,
    };
    let clients = [strange_commands(alloc)?];
    let script = Script {
        version: 2,
        topology: Topology {
            profile: 1,
            crtcs: 0,
            planes: Seq::from_vec(Vec::from_array(alloc, [plane])?),
            conns: Seq::new(alloc),
        },
        names: Seq::new(alloc),
        clients: Seq::from_vec(Vec::from_array(alloc, clients)?),
    };
    let text = print(alloc, &script).map_err(|_| AllocError)?;
    assert!(rt; text.as_slice() == STRANGE);
    Ok(())
}
