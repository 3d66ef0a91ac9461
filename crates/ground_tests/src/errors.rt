use arn_base::{BadAddress, Failed, NoMemory, Stop, StoreError};
use std::alloc::Global;
use std::fmt::Display;
use std::process::Abort;
use std::test::Fail;

// The text of an error is the one that is wanted.
fn check<E: Display>(rt: &impl Abort, alloc: Global, error: &E, wanted: &str) -> Result<(), Fail> {
    let text = error.to_string(alloc)?;
    assert_eq!(rt; text.as_str(), wanted);
    Ok(())
}

#[test]
fn errors_show_why(rt: HostRuntime) -> Result<(), Fail> {
    let alloc = rt.alloc();
    let memory = "out of memory";
    let device = "the device failed";
    let address = "no such address";
    check(&rt, alloc, &NoMemory, memory)?;
    check(&rt, alloc, &Stop::from(NoMemory), memory)?;
    check(&rt, alloc, &StoreError::from(NoMemory), memory)?;
    check(&rt, alloc, &Failed, device)?;
    check(&rt, alloc, &Stop::from(Failed), device)?;
    check(&rt, alloc, &BadAddress, address)?;
    check(&rt, alloc, &StoreError::from(BadAddress), address)
}
