// What is noted of a shelf, calls of which fail.
use crate::calls::{Standing, Step, renew, watched};
use crate::documents::Access;
use disk_integrity::ShelfCall;
use std::test::Fail;

// Checks whether these calls of the watched shelf of a folder, for reading, all fail, this is noted as the first, and no bytes are counted.
fn notes(rt: &HostRuntime, folder: &str, calls: &[Step], first: ShelfCall) -> Result<bool, Fail> {
    renew(rt, folder, Standing::Nothing)?;
    let told = watched(rt, folder, Access::Reading, calls)?;
    let is_first = told.before.is_none() && told.failed == Some(first);
    let have_failed = told.done == 0 && told.failures == calls.len() as u64;
    Ok(is_first && have_failed && told.counts.bytes == 0)
}

#[test]
fn notes_the_first_failure(rt: HostRuntime) -> Result<(), Fail> {
    let calls: &[Step] = &[(ShelfCall::Sync(3), b""), (ShelfCall::Retire(4), b"")];
    assert!(rt; notes(&rt, "noted_first", calls, ShelfCall::Sync(3))?);
    Ok(())
}

#[test]
fn notes_each_call(rt: HostRuntime) -> Result<(), Fail> {
    let calls: &[ShelfCall] = &[
        ShelfCall::Read(6),
        ShelfCall::Create(3),
        ShelfCall::Append(5),
        ShelfCall::Retire(7),
    ];
    for call in calls {
        assert!(rt; notes(&rt, "noted", &[(*call, b"five")], *call)?);
    }
    Ok(())
}
