//! What requests ask for, with their labels looked up.
use crate::courses::play;
use crate::devices::{ALL_MADE, MADE, SPLIT_2};
use crate::early::table_made;
use std::test::Fail;

/// Of several sets of a property the last one counts. Fences stand in order of their objects; none behind a fence to be made
/// takes it back. The labels of this device have the numbers 0 to 6, so that `+o` has 7 and `+p` has 8.
const RESOLVED: &str =
    "sets 7 200.2=1001 201.15=6 200.15=9 100.17=60 100.19=71 200.3=101: atomic 0x0 7 plane0.zpos=5 plane0.FB_ID=@f plane1.zpos=6 plane0.zpos=9 crtc0.MODE_ID=@m crtc0.GAMMA_LUT=@g plane0.CRTC_ID=crtc1
fences  200=1004 201=1004, 100=8: atomic 0x0 0 plane1.IN_FENCE_FD=@e plane0.IN_FENCE_FD=-1 crtc1.OUT_FENCE_PTR=+o crtc0.OUT_FENCE_PTR=+p plane0.IN_FENCE_FD=@e crtc1.OUT_FENCE_PTR=0
sets 0 201.12=-1 100.18=-1 200.12=-1 101.18=-1: atomic 0x0 0 plane1.IN_FENCE_FD=@e plane0.IN_FENCE_FD=-1 crtc1.OUT_FENCE_PTR=0 crtc0.OUT_FENCE_PTR=0 plane0.IN_FENCE_FD=@e crtc1.OUT_FENCE_PTR=0
";

#[test]
fn the_last_of_several_sets_counts(rt: HostRuntime) -> Result<(), Fail> {
    let table = table_made(rt.alloc(), "made 1006: blob g ")?;
    play(&rt, SPLIT_2, &[MADE, ALL_MADE, table.as_str(), RESOLVED])
}
