//! The words of buffers, and framebuffers that are kept while something refers to them.
ghost use Rattle.std.specs.Prelude.{◌≡◌};
ghost use Rattle.kms_model.specs.Things.Kept.{fbs_closed};

use kms_buffers::{Buffers, FbStore, MakeError};
use kms_model::{Denied, FbInfo, Format, Image, NoMemory, Pattern};
use std::alloc::Global;
use std::process::Abort;

/// A framebuffer of one pixel.
const FB: FbInfo = FbInfo {
    id: 1001,
    width: 1,
    height: 1,
    format: Format::Xr24,
};

/// Asserts what a client is answered that closes the framebuffer.
fn assert_closes(
    rt: &impl Abort,
    case: &str,
    store: &mut FbStore,
    client: u32,
    answer: Result<bool, Denied>,
)
    ensures { store.new ≡ fbs_closed store.old client 1001 }
{
    let found = store.close(client, 1001);
    assert!(rt; found == answer, "{case}");
}

#[test]
fn a_framebuffer_is_kept_while_something_refers_to_it(rt: HostRuntime) -> Result<(), NoMemory> {
    let mut store = FbStore::new(rt.alloc());
    store.add(rt.alloc(), 1, 1001, 1000, FB)?;
    store.take(1001);
    assert_closes(
        &rt,
        "another client's",
        &mut store,
        2,
        Err(Denied::NOT_FOUND),
    );
    assert_closes(&rt, "taken", &mut store, 1, Ok(false));
    assert_closes(&rt, "closed", &mut store, 1, Err(Denied::NOT_FOUND));
    assert_closes(
        &rt,
        "closed and another client's",
        &mut store,
        2,
        Err(Denied::NOT_FOUND),
    );
    assert!(rt;
        store.info(1001).is_some() && store.give(1001),
        "the last reference"
    );
    assert_closes(&rt, "gone", &mut store, 1, Err(Denied::NOT_FOUND));
    Ok(())
}

#[test]
fn a_framebuffer_that_nothing_took_goes_as_it_is_closed(rt: HostRuntime) -> Result<(), NoMemory> {
    let mut store = FbStore::new(rt.alloc());
    store.add(rt.alloc(), 3, 1001, 1000, FB)?;
    assert_closes(&rt, "its last reference", &mut store, 3, Ok(true));
    assert_closes(&rt, "gone", &mut store, 3, Err(Denied::NOT_FOUND));
    Ok(())
}

/// Asserts that an image of a buffer has these words from a place on.
fn assert_words(
    rt: &impl Abort,
    image: Option<Image<'_>>,
    sides: (u32, u32),
    format: Format,
    at: usize,
    words: &[u32],
) {
    let Some(image) = image else {
        assert!(rt; false, "there is a buffer");
        return;
    };
    let same = image.width == sides.0 && image.height == sides.1 && image.format == format;
    assert!(rt;
        same && image.words.get(at..) == Some(words),
        "words from {at} on"
    );
}

/// A store of a buffer for each pattern that is worked out.
fn pattern_store(alloc: Global) -> Result<Buffers, MakeError> {
    let mut buffers = Buffers::new(alloc);
    buffers.create(alloc, 1, 1000, 301, 3, Format::Xr24, &Pattern::Ramp)?;
    buffers.create(alloc, 1, 1001, 301, 3, Format::Rg16, &Pattern::Ramp)?;
    let checker = Pattern::Checker { p: 5, q: 6, n: 2 };
    buffers.create(alloc, 1, 1002, 4, 3, Format::Ar24, &checker)?;
    Ok(buffers)
}

#[test]
fn patterns_give_their_words(rt: HostRuntime) {
    let Ok(buffers) = pattern_store(rt.alloc()) else {
        panic!(rt; "the buffers are made");
    };
    let squares = [5, 5, 6, 6, 5, 5, 6, 6, 6, 6, 5, 5];
    let images = [
        (1000, (301, 3), Format::Xr24, 902, [0xff2c022e].as_slice()),
        (1001, (301, 3), Format::Rg16, 902, &[0x604e]),
        (1002, (4, 3), Format::Ar24, 0, &squares),
    ];
    for (id, sides, format, at, words) in images {
        assert_words(&rt, buffers.image(id), sides, format, at, words);
    }
    assert!(rt; buffers.image(1003).is_none(), "no buffer");
}

#[test]
fn sides_of_0_and_4097_are_refused(rt: HostRuntime) {
    let buffers = Buffers::new(rt.alloc());
    for (width, height) in [(0, 1), (1, 0), (4097, 1), (1, 4097)] {
        let total = buffers.total_with(width, height, Format::Xr24);
        assert!(rt; total == Err(MakeError::BadSize), "{width}x{height}");
    }
}
