//! The scripts of four clients that random walks start from.
use kms_model::NoMemory;
use std::alloc::Global;

/// A device of four CRTCs, with a plane and a connector for each, and a plane for all.
const DEVICE: &str =
    "kms 1\ncrtcs 4\nplane primary 0 XR24\nplane primary 1 XR24\nplane primary 2 XR24\nplane primary 3 XR24\nplane overlay 0,1,2,3 XR24\nconn 0\nconn 1\nconn 2\nconn 3\n";

/// A client's things, and the request that lights its CRTC with its plane. Here and below, `#` stands for the client's
/// number, `%` for the next one's, and `$` for the letter of the round.
const LIGHTS: &str =
    "buffer b#$ 2 2 XR24 ramp\naddfb f#$ b#$\nbuffer c#$ 2 2 XR24 solid 00204060\naddfb g#$ c#$\nmode m#$ 1 2 2 2 2 0 2 2 2 2 0 60 0 0 small\natomic 0x400 0 crtc#.ACTIVE=1 crtc#.MODE_ID=@m#$ conn#.CRTC_ID=crtc# plane#.FB_ID=@f#$ plane#.CRTC_ID=crtc# plane#.CRTC_W=2 plane#.CRTC_H=2 plane#.SRC_W=131072 plane#.SRC_H=131072\n";

/// A client's flips, fences and tests, with its own plane and another client's. `!` stands for what it does with the fence
/// that its commit waits for.
const CHANGES: &str =
    "atomic 0x1 1 plane#.FB_ID=@g#$\nwait\nfence n#$\natomic 0x200 0 plane#.alpha=9 plane#.IN_FENCE_FD=@n#$ crtc#.OUT_FENCE_PTR=+o#$\n! n#$\natomic 0x100 0 plane#.alpha=1 plane%.alpha=2\natomic 0x101 0\natomic 0x201 2 plane#.alpha=3 plane%.alpha=4\natomic 0x1 3 plane%.alpha=7 plane#.alpha=6\nwait\nwait\nwait\n";

/// What a client does with the plane for all and with its things, which it closes, and how it goes dark.
const CLOSES: &str =
    "atomic 0x0 0 plane4.FB_ID=@f%$ plane4.CRTC_ID=crtc# plane4.CRTC_W=2 plane4.CRTC_H=2 plane4.SRC_W=131072 plane4.SRC_H=131072\nclosefb f#$\ndestroy m#$\ndestroy m%$\natomic 0x0 0 plane4.FB_ID=0 plane4.CRTC_ID=0\natomic 0x0 0 plane#.FB_ID=@f#$\natomic 0x0 0 plane#.alpha=65536\natomic 0x401 4 crtc#.ACTIVE=0 crtc#.MODE_ID=0 conn#.CRTC_ID=0 plane#.FB_ID=0 plane#.CRTC_ID=0\nwait\n";

/// Writes lines of a client in a round behind a text.
fn write_lines(
    text: &mut String,
    lines: &str,
    own: char,
    next: char,
    round: char,
    after: &str,
) -> Result<(), NoMemory> {
    for sign in lines.chars() {
        match sign {
            '#' => text.push(own)?,
            '%' => text.push(next)?,
            '$' => text.push(round)?,
            '!' => text.push_str(after)?,
            _ => text.push(sign)?,
        }
    }
    Ok(())
}

/// Writes the rounds of a client behind a text.
fn write_client(
    text: &mut String,
    own: char,
    next: char,
    rounds: &str,
    after: &str,
) -> Result<(), NoMemory> {
    text.push_str("client\n")?;
    for round in rounds.chars() {
        for lines in [LIGHTS, CHANGES, CLOSES] {
            write_lines(text, lines, own, next, round, after)?;
        }
    }
    Ok(())
}

/// The script of four clients, each of which lights a CRTC, changes what is shown, and goes dark, once in each round. A round
/// is named by a letter. `after` stands before the name of the fence that a commit of each round waits for.
pub(crate) fn crowd(alloc: Global, rounds: &str, after: &str) -> Result<String, NoMemory> {
    let mut text = String::from_str(alloc, DEVICE)?;
    for (own, next) in [('0', '1'), ('1', '2'), ('2', '3'), ('3', '0')] {
        write_client(&mut text, own, next, rounds, after)?;
    }
    Ok(text)
}
