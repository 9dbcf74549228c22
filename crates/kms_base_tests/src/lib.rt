//! Tests of the crates below the machine, by their public calls: sources and sinks, rectangles, blended channels, the device's
//! tables, blobs, and buffers with their framebuffers.
#![tactic(auto)]

#[cfg(test)]
mod blending;
#[cfg(test)]
mod blobs;
#[cfg(test)]
mod buffers;
#[cfg(test)]
mod rectangles;
#[cfg(test)]
mod streams;
#[cfg(test)]
mod tables;
