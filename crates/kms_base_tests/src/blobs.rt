//! The bytes of modes and of gamma tables, and the store of blobs.
use kms_blobs::{BadMode, BlobStore, decode_mode, encode_mode, gamma_of_bytes, mode_of};
use kms_model::{Denied, Mode, NoMemory};
use kms_samples::full_hd;
use std::process::Abort;

/// The bytes of the 1920x1080 mode of CEA-861, at 60 Hz.
const FULL_HD: [u8; 68] = [
    0x14, 0x44, 0x02, 0x00, 0x80, 0x07, 0xd8, 0x07, 0x04, 0x08, 0x98, 0x08, 0x00, 0x00, 0x38, 0x04,
    0x3c, 0x04, 0x41, 0x04, 0x65, 0x04, 0x00, 0x00, 0x3c, 0x00, 0x00, 0x00, 0x05, 0x00, 0x00, 0x00,
    0x40, 0x00, 0x00, 0x00, b'1', b'9', b'2', b'0', b'x', b'1', b'0', b'8', b'0', 0, 0, 0, 0, 0, 0,
    0, 0, 0, 0, 0, 0, 0, 0, 0, 0, 0, 0, 0, 0, 0, 0, 0,
];

#[test]
fn the_bytes_of_1920x1080_are_read_and_written(rt: HostRuntime) {
    let mode = full_hd();
    assert!(rt; mode_of(&FULL_HD) == mode, "held");
    assert!(rt; decode_mode(&FULL_HD) == Ok(mode), "read");
    assert!(rt; encode_mode(&mode) == FULL_HD, "written");
}

/// Asserts that the bytes of a mode are refused with this first cause.
fn assert_refused(rt: &impl Abort, case: &str, mode: &Mode, cause: BadMode) {
    assert!(rt; decode_mode(&encode_mode(mode)) == Err(cause), "{case}");
}

#[test]
fn the_first_cause_is_answered(rt: HostRuntime) {
    assert!(rt;
        decode_mode(&FULL_HD[..67]) == Err(BadMode::Length),
        "67 bytes"
    );
    let early_sync = Mode {
        hsync_start: 1919,
        ..full_hd()
    };
    assert_refused(&rt, "early sync", &early_sync, BadMode::Horizontal);
    let no_rows = Mode {
        clock: 0,
        vdisplay: 0,
        ..full_hd()
    };
    assert_refused(&rt, "no rows and no clock", &no_rows, BadMode::Vertical);
    let no_clock = Mode {
        clock: 0,
        ..full_hd()
    };
    assert_refused(&rt, "no clock", &no_clock, BadMode::Clock);
    let wide = Mode {
        hdisplay: 4097,
        hsync_start: 4098,
        hsync_end: 4099,
        htotal: 4100,
        ..full_hd()
    };
    assert_refused(&rt, "too wide", &wide, BadMode::Size);
}

/// An entry whose numbers differ in all their bytes: red 2 * value + 1, green 255 - value, blue value in the upper
/// bytes, each modulo 256.
fn entry(value: u8) -> [u8; 8] {
    let red = value.wrapping_mul(2).wrapping_add(1);
    [0xfe, red, 0xff, 255 - value, 0xfd, value, 0xfc, 0xfb]
}

#[test]
fn a_table_keeps_the_upper_bytes_of_its_entries(rt: HostRuntime) -> Result<(), NoMemory> {
    let mut bytes = Vec::new(rt.alloc());
    for value in 0..256u32 {
        bytes.extend_from_slice(&entry(value as u8))?;
    }
    let Some(gamma) = gamma_of_bytes(&bytes) else {
        assert!(rt; false, "2048 bytes are a table");
        return Ok(());
    };
    let values = [
        (0, [1, 255, 0]),
        (3, [7, 252, 3]),
        (127, [255, 128, 127]),
        (255, [255, 0, 255]),
    ];
    for (value, colours) in values {
        assert!(rt; value < 256);
        let kept = [gamma.red[value], gamma.green[value], gamma.blue[value]];
        assert!(rt; kept == colours, "value {value}");
    }
    Ok(())
}

#[test]
fn bytes_that_are_not_2048_are_no_table(rt: HostRuntime) {
    let bytes = [0; 2049];
    for (length, is_table) in [(2048, true), (2047, false), (2049, false), (0, false)] {
        assert!(rt; length <= 2049);
        assert!(rt;
            gamma_of_bytes(&bytes[..length]).is_some() == is_table,
            "{length} bytes"
        );
    }
}

#[test]
fn a_blob_is_destroyed_by_its_client_alone(rt: HostRuntime) -> Result<(), NoMemory> {
    let mut store = BlobStore::new(rt.alloc());
    store.create(rt.alloc(), 1, 1000, &[7, 8])?;
    store.create(rt.alloc(), 2, 1001, &[9])?;
    let both = [7, 8].as_slice();
    let calls = [
        (2, Err(Denied::NOT_OWNER), Some(both)),
        (1, Ok(()), None),
        (2, Err(Denied::NOT_FOUND), None),
    ];
    for (client, answer, left) in calls {
        assert!(rt; store.destroy(client, 1000) == answer, "client {client}");
        assert!(rt; store.get(1000) == left, "after client {client}");
    }
    assert!(rt; store.get(1001) == Some([9].as_slice()), "the other blob");
    Ok(())
}
