//! Lists that are written at their ends, into memory that was taken beforehand.
use kms_core::{Ledger, Log};
use kms_model::NoMemory;

#[test]
fn a_log_is_written_into_its_room(rt: HostRuntime) -> Result<(), NoMemory> {
    let mut log = Log::new(rt.alloc());
    assert!(rt; log.room() == 0, "a new one has none");
    log.make_room(2)?;
    log.push(7);
    log.push(8);
    assert!(rt; log.as_slice() == [7, 8].as_slice(), "two items");
    Ok(())
}

#[test]
fn a_ledger_is_written_at_places_that_are_kept(rt: HostRuntime) -> Result<(), NoMemory> {
    let mut ledger = Ledger::new(rt.alloc());
    ledger.make_room()?;
    ledger.keep_place();
    ledger.make_room()?;
    ledger.keep_place();
    ledger.push('a');
    ledger.push('b');
    assert!(rt; ledger.as_slice() == ['a', 'b'].as_slice(), "two items");
    Ok(())
}
