//! The table of locks. A context's backing off, its asking again and its end are in the tables of [`crate::clients`], whose
//! calls make those of the table.
use crate::rows::assert_rows;
use kms_model::{FIRST_CONNECTOR_ID, FIRST_CRTC_ID, MAX_CONNECTORS, MAX_CRTCS, NoMemory, ObjId};
use kms_wwlock::{Lock, LockTable};
use std::alloc::Global;

const CRTC: ObjId = ObjId(FIRST_CRTC_ID);

const LAST_CRTC: ObjId = ObjId(FIRST_CRTC_ID + MAX_CRTCS - 1);

const LAST_CONNECTOR: ObjId = ObjId(FIRST_CONNECTOR_ID + MAX_CONNECTORS - 1);

/// Locks the last CRTC and then the last connector, and tells what holds on the way.
fn locked(alloc: Global) -> Result<[bool; 6], NoMemory> {
    let mut table = LockTable::new(alloc);
    let client = table.begin(alloc, 1)?;
    Ok([
        table.lock(client, LAST_CRTC) == Lock::Got,
        table.holder(LAST_CONNECTOR).is_none(),
        table.lock(client, LAST_CONNECTOR) == Lock::Got,
        table.holder(LAST_CRTC) == Some(client),
        table.holder(LAST_CONNECTOR) == Some(client),
        table.holder(CRTC).is_none(),
    ])
}

#[test]
fn the_last_crtc_and_the_last_connector_have_locks_of_their_own(
    rt: HostRuntime,
) -> Result<(), NoMemory> {
    let holds = locked(rt.alloc())?;
    assert_rows(&rt, &holds, "locks");
    Ok(())
}
