//! Names, codes and bits as the kernel's headers have them, and devices within and past the limits.
use kms_model::{Format, Kind, NoMemory, PlaneInfo, Range, Seq, Topology};
use kms_props::{
    AtomicFlags, check_topology, code, fourcc, from_bits, is_immutable, lookup, name, range,
};
use std::alloc::Global;
use std::process::Abort;
use std::test::Fail;

/// The kinds of object, in the order of the tables here.
const KINDS: [Kind; 4] = [Kind::Crtc, Kind::Plane, Kind::Conn, Kind::Enc];

/// Asserts what CRTCs, planes, connectors and encoders find under a name in a profile.
fn assert_found(rt: &impl Abort, profile: u32, name: &str, ids: [Option<u32>; 4]) {
    for (i, kind) in KINDS.iter().enumerate() {
        let found = lookup(profile, *kind, name.as_bytes());
        assert!(rt; found == ids[i], "{name} in profile {profile}, kind {i}");
    }
}

#[test]
fn properties_have_the_kernel_s_names(rt: HostRuntime) {
    let of_planes = [
        ("type", 1),
        ("FB_ID", 2),
        ("CRTC_X", 4),
        ("CRTC_Y", 5),
        ("CRTC_W", 6),
        ("CRTC_H", 7),
        ("SRC_X", 8),
        ("SRC_Y", 9),
        ("SRC_W", 10),
        ("SRC_H", 11),
        ("IN_FENCE_FD", 12),
        ("alpha", 13),
        ("pixel_blend_mode", 14),
        ("zpos", 15),
    ];
    let of_crtcs = [("ACTIVE", 16), ("MODE_ID", 17), ("OUT_FENCE_PTR", 18)];
    for profile in [1, 2] {
        for (name, id) in of_planes {
            assert_found(&rt, profile, name, [None, Some(id), None, None]);
        }
        for (name, id) in of_crtcs {
            assert_found(&rt, profile, name, [Some(id), None, None, None]);
        }
        assert_found(&rt, profile, "CRTC_ID", [None, Some(3), Some(3), None]);
    }
    assert_found(&rt, 1, "GAMMA_LUT", [None; 4]);
    assert_found(&rt, 2, "GAMMA_LUT", [Some(19), None, None, None]);
}

/// Near to the names: of a letter in another case, without the last one, and with one more.
const NEAR_NAMES: &str = "
    Type FB_Id CRTC_Id CRTC_x CRTC_y CRTC_w CRTC_h SRC_x SRC_y SRC_w SRC_h IN_FENCE_Fd alphA
    pixel_Blend_mode Zpos ACTIVe MODE_Id OUT_FENCE_PTr GAMMA_LUt
    typ FB_I CRTC_I CRTC_ SRC_ IN_FENCE_F alph pixel_blend_mod zpo ACTIV MODE_I OUT_FENCE_PT GAMMA_LU
    typee FB_IDD CRTC_IDD CRTC_XX CRTC_YY CRTC_WW CRTC_HH SRC_XX SRC_YY SRC_WW SRC_HH IN_FENCE_FDD
    alphaa pixel_blend_modee zposs ACTIVEE MODE_IDD OUT_FENCE_PTRR GAMMA_LUTT
    _ EDID";

#[test]
fn other_names_are_no_property_s(rt: HostRuntime) {
    for profile in [1, 2] {
        for name in NEAR_NAMES.split_whitespace() {
            assert_found(&rt, profile, name, [None; 4]);
        }
        for name in ["", "pixel blend mode"] {
            assert_found(&rt, profile, name, [None; 4]);
        }
    }
}

/// Asserts what a property that some objects have may be set to; one of no request is immutable.
fn assert_range(rt: &impl Abort, kind: Kind, word: &str, wanted: Range, immutable: bool) {
    let Some(id) = lookup(2, kind, word.as_bytes()) else {
        assert!(rt; false, "{word} is a property");
        return;
    };
    let same = name(id) == word.as_bytes() && range(id) == wanted;
    assert!(rt; same && is_immutable(id) == immutable, "{word}");
}

#[test]
fn properties_have_their_ranges(rt: HostRuntime) {
    let coordinate = Range::Numbers {
        low: -2147483648,
        high: 2147483647,
    };
    let of_planes = [
        ("type", Range::Numbers { low: 0, high: 2 }, true),
        ("FB_ID", Range::Thing { none: 0 }, false),
        ("CRTC_ID", Range::CrtcName, false),
        ("CRTC_X", coordinate, false),
        ("IN_FENCE_FD", Range::Thing { none: -1 }, false),
        ("zpos", Range::Numbers { low: 0, high: 255 }, false),
    ];
    for (word, range, immutable) in of_planes {
        assert_range(&rt, Kind::Plane, word, range, immutable);
    }
    assert_range(
        &rt,
        Kind::Crtc,
        "GAMMA_LUT",
        Range::Thing { none: 0 },
        false,
    );
}

/// Asserts which format a code is of, by its characters and as a number.
fn assert_code(rt: &impl Abort, characters: [u8; 4], number: u32, format: Option<Format>) {
    assert!(rt;
        u32::from_le_bytes(characters) == number && fourcc(number) == format,
        "code {number}"
    );
    if let Some(format) = format {
        assert!(rt; code(format) == number, "code {number} back");
    }
}

/// To compare with `drm_fourcc.h`: `fourcc_code` puts the first of four characters into the lowest byte.
#[test]
fn format_codes_are_those_of_the_header(rt: HostRuntime) {
    let codes = [
        (*b"XR24", 0x34325258, Some(Format::Xr24)),
        (*b"AR24", 0x34325241, Some(Format::Ar24)),
        (*b"RG16", 0x36314752, Some(Format::Rg16)),
        (*b"42RX", 0x58523234, None),
        (*b"BX24", 0x34325842, None),
        (*b"YR24", 0x34325259, None),
        ([0; 4], 0, None),
    ];
    for (characters, number, format) in codes {
        assert_code(&rt, characters, number, format);
    }
}

/// To compare with `drm_mode.h`: `DRM_MODE_PAGE_FLIP_EVENT`, `DRM_MODE_PAGE_FLIP_ASYNC`,
/// `DRM_MODE_ATOMIC_TEST_ONLY`, `DRM_MODE_ATOMIC_NONBLOCK` and `DRM_MODE_ATOMIC_ALLOW_MODESET`.
#[test]
fn flags_are_those_of_the_header(rt: HostRuntime) {
    let flags = [
        (0x01, Some(AtomicFlags::PAGE_FLIP_EVENT)),
        (0x02, Some(AtomicFlags::PAGE_FLIP_ASYNC)),
        (0x0100, Some(AtomicFlags::TEST_ONLY)),
        (0x0200, Some(AtomicFlags::NONBLOCK)),
        (0x0400, Some(AtomicFlags::ALLOW_MODESET)),
        (0x0703, Some(AtomicFlags::of_request(0x0703))),
        (0, Some(AtomicFlags::of_request(0))),
        (0x4, None),
        (0x80, None),
        (0x800, None),
        (0x8000_0703, None),
    ];
    for (bits, flags) in flags {
        assert!(rt; from_bits(bits) == flags, "bits {bits}");
    }
}

/// What a device is, its number of CRTCs, its planes, its connectors, and whether it keeps the limits.
type Case<'a> = (&'a str, u32, &'a [PlaneInfo], &'a [u32], bool);

/// Asserts whether a device keeps the limits.
fn assert_device(rt: &impl Abort, alloc: Global, case: Case) -> Result<(), NoMemory> {
    let (name, crtcs, planes, conns, legal) = case;
    let device = Topology {
        profile: 1,
        crtcs,
        planes: Seq::from_vec(planes.to_vec(alloc)?),
        conns: Seq::from_vec(conns.to_vec(alloc)?),
    };
    assert!(rt; check_topology(&device) == legal, "{name}");
    Ok(())
}

const PRIMARY: PlaneInfo = PlaneInfo {
    kind: 1,
    crtcs: 1,
    formats: 7,
};

/// A plane of a third CRTC.
const FAR: PlaneInfo = PlaneInfo {
    kind: 0,
    crtcs: 4,
    formats: 1,
};

/// A plane that takes a fourth format.
const STRANGE: PlaneInfo = PlaneInfo {
    kind: 0,
    crtcs: 1,
    formats: 8,
};

#[test]
fn devices_keep_the_limits(rt: HostRuntime) -> Result<(), Fail> {
    let devices = [
        ("the least", 1, [PRIMARY].as_slice(), [1].as_slice(), true),
        ("the most", 4, &[PRIMARY; 16], &[15; 8], true),
        ("no CRTC", 0, &[PRIMARY], &[1], false),
        ("five CRTCs", 5, &[PRIMARY], &[1], false),
        ("no plane", 1, &[], &[1], false),
        ("17 planes", 1, &[PRIMARY; 17], &[1], false),
        ("no connector", 1, &[PRIMARY], &[], false),
        ("nine connectors", 1, &[PRIMARY], &[1; 9], false),
        ("a plane of a third CRTC", 2, &[PRIMARY, FAR], &[1], false),
        ("a fourth format", 2, &[PRIMARY, STRANGE], &[1], false),
        ("a connector of a third CRTC", 2, &[PRIMARY], &[3, 4], false),
    ];
    for case in devices {
        assert_device(&rt, rt.alloc(), case)?;
    }
    Ok(())
}
