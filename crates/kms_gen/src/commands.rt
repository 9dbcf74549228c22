//! The commands of a client.
ghost use Rattle.std.specs.Prelude.{◌≡◌, ◌<◌, ◌≤◌, [], IfOk};
ghost use Rattle.kms_model.specs.declared.objects.Format.TheVariants.{Xr24};
ghost use Rattle.kms_model.specs.declared.scripts.Command.TheVariants.{Buffer};
ghost use Rattle.kms_model.specs.Script.Generated.{commands_for, drawn_from, generated_mode, lights};

use crate::flips::{on_plane, push_flip};
use crate::labels::{BUFFER_B, BUFFER_G, FRAMEBUFFER_F, FRAMEBUFFER_H, MODE_M, label};
use crate::numbers::{next_number, upper_bits};
use kms_model::flags::ALLOW_MODESET;
use kms_model::properties::{ACTIVE, CRTC_H, CRTC_ID, CRTC_W, FB_ID, MODE_ID, SRC_H, SRC_W};
use kms_model::{Assign, Command, Format, Kind, Mode, NoMemory, Pattern, Request, Seq, Value};
use std::alloc::Global;

/// The width and the height of all there is, in pixels.
const SIDE: u16 = 64;

/// The same in 16.16 fixed point, as a plane's source has it.
const FIXED_SIDE: i128 = 4194304;

/// The mode of 64 by 64 pixels. (Header: `drm_mode.h`, `struct drm_mode_modeinfo`.)
fn generated_mode() -> Mode
    ensures { result ≡ generated_mode }
{
    Mode {
        clock: 1000,
        hdisplay: SIDE,
        hsync_start: SIDE,
        hsync_end: SIDE,
        htotal: SIDE,
        hskew: 0,
        vdisplay: SIDE,
        vsync_start: SIDE,
        vsync_end: SIDE,
        vtotal: SIDE,
        vscan: 0,
        vrefresh: 60,
        flags: 0,
        kind: 0,
        name: [
            b'g', b'e', b'n', 0, 0, 0, 0, 0, 0, 0, 0, 0, 0, 0, 0, 0, 0, 0, 0, 0, 0, 0, 0, 0, 0, 0,
            0, 0, 0, 0, 0, 0,
        ],
    }
}

/// What lights a CRTC, with the connector and the plane of its index.
fn lights(crtc: u32) -> [Assign; 9]
    requires { crtc < 2 }
    ensures { result ≡ lights crtc }
{
    let side = Value::Num(i128::from(SIDE));
    [
        Assign::known(Kind::Crtc, crtc, ACTIVE, Value::Num(1)),
        Assign::known(Kind::Crtc, crtc, MODE_ID, Value::Named(label(crtc, MODE_M))),
        Assign::known(Kind::Conn, crtc, CRTC_ID, Value::Crtc(crtc)),
        on_plane(crtc, FB_ID, Value::Named(label(crtc, FRAMEBUFFER_F))),
        on_plane(crtc, CRTC_ID, Value::Crtc(crtc)),
        on_plane(crtc, CRTC_W, side),
        on_plane(crtc, CRTC_H, side),
        on_plane(crtc, SRC_W, Value::Num(FIXED_SIDE)),
        on_plane(crtc, SRC_H, Value::Num(FIXED_SIDE)),
    ]
}

/// A buffer of 64 by 64 pixels.
fn buffer(label: u32, pattern: Pattern) -> Command
    ensures { result ≡ Buffer label 64 64 Xr24 pattern }
{
    Command::Buffer {
        label,
        width: u32::from(SIDE),
        height: u32::from(SIDE),
        format: Format::Xr24,
        pattern,
    }
}

/// The commands before the first drawn commit.
fn opening(alloc: Global, crtc: u32) -> Result<Vec<Command>, NoMemory>
    requires { crtc < 2 }
    ensures { IfOk result (λ commands. commands.items ≡ commands_for [] crtc) }
{
    let light = Request {
        flags: ALLOW_MODESET,
        user_data: 0,
        assigns: Seq::from_vec(Vec::from_array(alloc, lights(crtc))?),
    };
    let commands = [
        buffer(label(crtc, BUFFER_B), Pattern::Ramp),
        Command::AddFb {
            label: label(crtc, FRAMEBUFFER_F),
            buffer: label(crtc, BUFFER_B),
        },
        buffer(label(crtc, BUFFER_G), Pattern::Solid(0x00204060)),
        Command::AddFb {
            label: label(crtc, FRAMEBUFFER_H),
            buffer: label(crtc, BUFFER_G),
        },
        Command::Mode {
            label: label(crtc, MODE_M),
            mode: generated_mode(),
        },
        Command::Atomic(light),
    ];
    Ok(Vec::from_array(alloc, commands)?)
}

/// The commands of the client that drives the CRTC with an index, 0 or 1, where there are `n` commits in all.
pub fn commands_for(alloc: Global, crtc: u32, seed: u64, n: u32) -> Result<Seq<Command>, NoMemory>
    requires client { crtc < 2 }
    requires few { n ≤ 4000 }
    ensures { IfOk result (λ commands. commands ≡ commands_for (drawn_from 1 seed n) crtc) }
{
    let mut commands = opening(alloc, crtc)?;
    let mut x = seed;
    for index in 1..n + 1 {
        x = next_number(x);
        push_flip(alloc, &mut commands, crtc, index, upper_bits(x))?;
    }
    Ok(Seq::from_vec(commands))
}
