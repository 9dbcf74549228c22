//! The script of the crowd.
use kms_samples::script;
use std::alloc::Global;
use std::test::Fail;

/// How many commits each client makes, a count.
pub(crate) const COMMITS: u32 = 100;

/// How many clients there are. Each has a plane that CRTCs show, whose index is its number less one, and one that is off.
pub(crate) const CLIENTS: u32 = 8;

/// Every how many requests of a client meet those of others.
const MEETING: u32 = 5;

/// How many CRTCs there are, each with a connector. Two clients move planes on each.
const CRTCS: u32 = 4;

/// The device: two planes for each client, which each CRTC can show.
fn device(alloc: Global) -> Result<String, Fail> {
    let mut text = format!(in alloc; "kms 1\ncrtcs {CRTCS}\n")?;
    for _plane in 0..2 * CLIENTS {
        text.push_str("plane overlay 0,1,2,3 XR24\n")?;
    }
    for index in 0..CRTCS {
        text.push_str(format!(in alloc; "conn {index}\n")?.as_str())?;
    }
    Ok(text)
}

/// The commands of the first client that light all CRTCs, with a plane of each client on them: its first commit.
fn light(alloc: Global) -> Result<String, Fail> {
    let mut text = String::from_str(alloc, script!(made "atomic 0x400 0"))?;
    for index in 0..CRTCS {
        let one = format!(in alloc;
            " crtc{index}.ACTIVE=1 crtc{index}.MODE_ID=@m conn{index}.CRTC_ID=crtc{index}"
        )?;
        text.push_str(one.as_str())?;
    }
    for index in 0..CLIENTS {
        let crtc = index % CRTCS;
        let one = format!(in alloc;
            " plane{index}.FB_ID=@f plane{index}.CRTC_ID=crtc{crtc} plane{index}.CRTC_W=1 plane{index}.CRTC_H=1 plane{index}.SRC_W=65536 plane{index}.SRC_H=65536"
        )?;
        text.push_str(one.as_str())?;
    }
    text.push_str("\n")?;
    Ok(text)
}

/// A request that dims a plane of a client. Mostly that is the plane that is off, so that no other client wants the same
/// objects. Some dim the plane that is shown, and name another CRTC too, which is locked before the plane's own: there
/// contexts meet from both sides.
fn dim(alloc: Global, client: u32, number: u32) -> Result<String, Fail> {
    let shown = client.saturating_sub(1);
    let off = shown.saturating_add(CLIENTS);
    if number % MEETING != 1 {
        return Ok(format!(in alloc; "atomic 0x0 0 plane{off}.alpha={number}\n")?);
    }
    let other = client.saturating_add(number / MEETING) % CRTCS;
    Ok(format!(in alloc; "atomic 0x0 0 plane{shown}.alpha={number} crtc{other}.ACTIVE=1\n")?)
}

/// The script: each client makes so many commits, the first of which lights everything.
pub(crate) fn script(alloc: Global) -> Result<String, Fail> {
    let mut text = device(alloc)?;
    for client in 1..CLIENTS + 1 {
        text.push_str("client\n")?;
        if client == 1 {
            text.push_str(light(alloc)?.as_str())?;
        }
        for number in u32::from(client == 1)..COMMITS {
            text.push_str(dim(alloc, client, number)?.as_str())?;
        }
    }
    Ok(text)
}
