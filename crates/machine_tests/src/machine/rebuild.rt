// Machines that are rebuilt from the records of the example program, as they are and changed.
ghost use Rattle.std.specs.Prelude.{◌≡◌, ◌<◌, All};
ghost use Rattle.result_log.specs.Spelling.{HasSpelling};

use super::devices::ASKED;
use super::parts::WHOLE;
use super::{Part, records};
use crate::same::assert_same;
use arn_base::{NoMemory, Record, Steps};
use guest_machine::{Differs, Machine, RebuildError};
use std::alloc::Global;
use std::marker::Brand;
use std::process::Abort;
use std::sync::ledger::{Blank, Ledger};
use std::test::Fail;

fn rebuild_counted<L: Ledger>(
    alloc: Global,
    entries: &[Record],
    blank: Blank,
) -> Result<Machine, RebuildError>
    requires name { blank.name ≡ L.name }
    requires parts { blank.parts ≡ L.parts }
    requires some { 0 < blank.parts }
    requires spelled { All HasSpelling entries.now }
{
    let mut steps = Steps::<L>::new(blank);
    Machine::rebuild(alloc, entries, &mut steps)
}

// Whether the rebuilt machine is booted, how many events it had, and how many instructions ran.
fn rebuilt(alloc: Global, entries: &[Record]) -> Result<(bool, u64, u128), RebuildError>
    requires { All HasSpelling entries.now }
{
    let machine = rebuild_counted::<Brand>(alloc, entries, Blank::new(1))?;
    Ok((
        machine.is_booted(),
        machine.events(),
        machine.instructions(),
    ))
}

fn differs(
    place: u64,
    at: u64,
    said: Option<u8>,
    found: Option<u8>,
) -> Result<(bool, u64, u128), RebuildError> {
    Err(RebuildError::Differs(Differs {
        place,
        at,
        said,
        found,
    }))
}

// What is found of these records.
fn check(
    rt: &impl Abort,
    alloc: Global,
    parts: &[Part],
    wanted: Result<(bool, u64, u128), RebuildError>,
) -> Result<(), NoMemory> {
    let entries = records(alloc, parts)?;
    assert_same(rt, rebuilt(alloc, entries.as_slice()), wanted);
    Ok(())
}

#[test]
fn rebuilds_the_machine_of_its_records(rt: HostRuntime) -> Result<(), Fail> {
    check(&rt, rt.alloc(), WHOLE, Ok((true, 6, 11)))?;
    let parts = &[
        Part::File,
        Part::Boot,
        Part::Typed,
        Part::Slice(5),
        Part::Read,
        Part::Slice(3),
        Part::Write(*b"abc"),
        Part::Slice(3),
        Part::Exit,
        Part::End,
    ];
    let one_more = differs(9, 0, Some(8), None);
    check(&rt, rt.alloc(), parts, one_more)?;
    Ok(())
}

#[test]
fn tells_the_first_byte_that_differs(rt: HostRuntime) -> Result<(), Fail> {
    let parts = &[
        Part::File,
        Part::Boot,
        Part::Typed,
        Part::Slice(5),
        Part::Read,
        Part::Slice(3),
        Part::Write(*b"bbc"),
        Part::Slice(3),
        Part::Exit,
    ];
    let changed = differs(6, 26, Some(0x62), Some(0x61));
    check(&rt, rt.alloc(), parts, changed)?;
    Ok(())
}

#[test]
fn tells_the_record_that_is_missing(rt: HostRuntime) -> Result<(), Fail> {
    let parts = &[
        Part::File,
        Part::Boot,
        Part::Typed,
        Part::Slice(5),
        Part::Read,
        Part::Slice(3),
        Part::Write(*b"abc"),
        Part::Slice(3),
    ];
    let missing = differs(8, 0, None, Some(7));
    check(&rt, rt.alloc(), parts, missing)?;
    Ok(())
}

#[test]
fn tells_the_record_of_a_refused_input(rt: HostRuntime) -> Result<(), Fail> {
    let refused = differs(1, 0, Some(1), None);
    check(&rt, rt.alloc(), &[Part::File, Part::File], refused)?;
    Ok(())
}

// No device is there, and each call has the answer that was recorded.
#[test]
fn unplugs_a_device_again(rt: HostRuntime) -> Result<(), Fail> {
    check(&rt, rt.alloc(), ASKED, Ok((true, 7, 20)))?;
    Ok(())
}

#[test]
fn tells_records_that_no_input_makes(rt: HostRuntime) -> Result<(), Fail> {
    let twice = &[Part::File, Part::Boot, Part::Unplug, Part::Unplug];
    let not_there = differs(3, 0, Some(4), None);
    check(&rt, rt.alloc(), twice, not_there)?;
    let early = &[Part::File, Part::Unplug];
    let not_booted = differs(1, 0, Some(4), None);
    check(&rt, rt.alloc(), early, not_booted)?;
    Ok(())
}
