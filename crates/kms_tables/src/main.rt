//! `kms_tables`: prints the device's tables as Markdown, for the manual.
//!
//! Each table stands behind a line `<!-- NAME -->` and before a line `<!-- end -->`. `checks/device_tables.sh` puts
//! them into the page `docs/DEVICE.md`, between the same lines.
#![tactic(auto)]

mod properties;
mod rows;

use bitflags::Flags;
use kms_buffers::{LARGEST_BYTES, LARGEST_SIDE};
use kms_model::{
    FIRST_THING_ID, Kind, MAX_CLIENTS, MAX_CONNECTORS, MAX_CRTCS, MAX_PLANES, rule_of,
};
use kms_props::{AtomicFlags, format_table};
use kms_script::{MAX_ASSIGNS, MAX_BLOB, MAX_COMMANDS, MAX_INPUT, MAX_LABELS, MAX_SCRIPT};
use kms_signal::{EVENT_BYTES, EVENT_SPACE};
use rows::{ObjectRow, RefusalRow};
use std::{io, str};

/// The greatest number that a rule has.
const LAST_RULE: u32 = 35;

/// Prints the line before a table, and its head.
fn print_head(rt: &impl Print, name: &str, columns: &[&str]) -> io::Result<()> {
    println!(rt; "<!-- {name} -->")?;
    for column in columns {
        print!(rt; "| {column} ")?;
    }
    println!(rt; "|")?;
    for _ in columns {
        print!(rt; "|---")?;
    }
    println!(rt; "|")
}

/// Prints the line behind a table.
fn print_end(rt: &impl Print) -> io::Result<()> {
    println!(rt; "<!-- end -->\n")
}

fn print_objects(rt: &impl Print) -> io::Result<()> {
    print_head(rt, "objects", &["kind", "ids", "at most"])?;
    let kinds = [
        (Kind::Crtc, MAX_CRTCS),
        (Kind::Plane, MAX_PLANES),
        (Kind::Conn, MAX_CONNECTORS),
        (Kind::Enc, MAX_CONNECTORS),
    ];
    for (kind, most) in kinds {
        rt.println(ObjectRow { kind, most })?;
    }
    println!(rt; "| thing | from {FIRST_THING_ID} | |")?;
    println!(rt; "| client | from 1 | {MAX_CLIENTS} |")?;
    print_end(rt)
}

fn print_properties(rt: &impl Print) -> io::Result<()> {
    print_head(
        rt,
        "properties",
        &["of", "property", "values", "unit", "at the start"],
    )?;
    for kind in [Kind::Crtc, Kind::Plane, Kind::Conn] {
        properties::print_of(rt, kind)?;
    }
    print_end(rt)
}

fn print_formats(rt: &impl Print) -> io::Result<()> {
    print_head(rt, "formats", &["format", "code"])?;
    for row in format_table().rows {
        if let Ok(name) = str::from_utf8(&row.code.to_le_bytes()) {
            let code = row.code;
            println!(rt; "| {name} | {code:#010x} |")?;
        }
    }
    print_end(rt)
}

fn print_flags(rt: &impl Print) -> io::Result<()> {
    print_head(rt, "flags", &["flag", "bit"])?;
    for flag in AtomicFlags::FLAGS {
        let name = flag.name();
        let bit = flag.value().bits();
        println!(rt; "| {name} | {bit:#x} |")?;
    }
    print_end(rt)
}

fn print_refusals(rt: &impl Print) -> io::Result<()> {
    print_head(
        rt,
        "refusals",
        &[
            "number",
            "errno",
            "name",
            "it refuses where",
            "kernel function",
        ],
    )?;
    for number in 1..=LAST_RULE {
        if let Some(rule) = rule_of(number) {
            rt.println(RefusalRow(rule))?;
        }
    }
    print_end(rt)
}

fn print_limits(rt: &impl Print) -> io::Result<()> {
    let events = EVENT_SPACE / EVENT_BYTES;
    print_head(rt, "limits", &["what", "limit"])?;
    println!(rt; "| commands of a client | {MAX_COMMANDS} |")?;
    println!(rt; "| assignments of a request | {MAX_ASSIGNS} |")?;
    println!(rt; "| labels that a script makes | {MAX_LABELS} |")?;
    println!(rt; "| a script | {MAX_SCRIPT} bytes |")?;
    println!(rt; "| an input, with its schedule | {MAX_INPUT} bytes |")?;
    println!(rt; "| a side of a buffer, or of a mode | 1 to {LARGEST_SIDE} pixels |")?;
    println!(rt;
        "| all buffers together | {LARGEST_BYTES} bytes, with 4 for a pixel of XR24 and AR24 and 2 of RG16 |"
    )?;
    println!(rt; "| a blob | 1 to {MAX_BLOB} bytes |")?;
    println!(rt;
        "| a client's events, reserved or unread | {EVENT_SPACE} bytes: {events} events |"
    )?;
    print_end(rt)
}

fn main(rt: HostRuntime) -> io::Result<()> {
    print_objects(&rt)?;
    print_properties(&rt)?;
    print_formats(&rt)?;
    print_flags(&rt)?;
    print_refusals(&rt)?;
    print_limits(&rt)
}
