// What a file holds, and which events wrote its bytes.
use crate::fixtures::{booted, call, slice, with};
use crate::same::assert_same;
use arn_base::{Bytes, Extra, NoMemory, Origin, Record};
use file_versions::{VersionError, Versions};
use history_index::{Index, are_countable};
use parts_model::calls::{UNLINK, WRITE};
use state_viewer::file;
use std::alloc::Global;
use std::process::Abort;
use std::test::Fail;

// Process 1 writes so many bytes to the file that it was started from, from a place on.
fn write(alloc: Global, at: u32, bytes: &[u8]) -> Result<Record, NoMemory> {
    let count = bytes.len() as u64;
    let bytes = Bytes::from_slice(alloc, bytes)?;
    Ok(call(1, WRITE, count, Extra::Put { file: 0, at, bytes }))
}

fn unlink(alloc: Global, name: &[u8]) -> Result<Record, NoMemory> {
    let path = Bytes::from_slice(alloc, name)?;
    Ok(call(1, UNLINK, 0, Extra::Name { file: 0, path }))
}

// At moment 5 the second of two bytes is written over, at moment 7 two more are added, and at
// moment 9 the name goes.
fn history(alloc: Global) -> Result<Vec<Record>, NoMemory> {
    let entries = with(booted(alloc, b"12")?, slice(1, 5))?;
    let entries = with(entries, write(alloc, 1, b"x")?)?;
    let entries = with(entries, slice(1, 2))?;
    let entries = with(entries, write(alloc, 2, b"yz")?)?;
    let entries = with(entries, slice(1, 2))?;
    with(entries, unlink(alloc, b"p")?)
}

// What records tell of files, if 32 bits count them.
fn versions<'a>(rt: &impl Abort, entries: &'a Vec<Record>) -> Result<Versions<'a>, Fail> {
    let alloc = *entries.allocator();
    let entries = entries.as_slice();
    assert!(rt; are_countable(entries));
    let index = Index::build(alloc, entries)?;
    Ok(Versions::build(alloc, entries, &index)?)
}

// Both bytes of the file as it was brought, and the first of them.
const BROUGHT: Origin = Origin {
    event: 0,
    at: 0,
    len: 2,
};

const KEPT: Origin = Origin {
    event: 0,
    at: 0,
    len: 1,
};

// The byte that the first write brought, and the two of the second.
const WRITTEN: Origin = Origin {
    event: 2,
    at: 0,
    len: 1,
};

const ADDED: Origin = Origin {
    event: 3,
    at: 0,
    len: 2,
};

// Moments, and where the bytes of the file `p` come from then.
const VERSIONS: &[(u64, &[Origin])] = &[
    (0, &[BROUGHT]),
    (4, &[BROUGHT]),
    (5, &[KEPT, WRITTEN]),
    (7, &[KEPT, WRITTEN, ADDED]),
    (8, &[KEPT, WRITTEN, ADDED]),
];

#[test]
fn a_version_has_the_origins_of_its_writes(rt: HostRuntime) -> Result<(), Fail> {
    let entries = history(rt.alloc())?;
    let versions = versions(&rt, &entries)?;
    for (moment, wanted) in VERSIONS {
        let found = versions.origins(b"p", *moment)?;
        assert_same(&rt, (*moment, found.as_slice()), (*moment, *wanted));
    }
    for (moment, wanted) in [(9, VersionError::NoFile), (10, VersionError::NoMoment)] {
        let found = versions.origins(b"p", moment);
        assert_same(&rt, (moment, found.err()), (moment, Some(wanted)));
    }
    Ok(())
}

// Moments, and the bytes of the file `p` then.
const CONTENTS: &[(u64, &[u8])] = &[(4, b"12"), (5, b"1x"), (8, b"1xyz")];

#[test]
fn a_file_is_shown(rt: HostRuntime) -> Result<(), Fail> {
    let entries = history(rt.alloc())?;
    let versions = versions(&rt, &entries)?;
    for (moment, wanted) in CONTENTS {
        let held = file(&versions, *moment, b"p")?;
        assert_same(&rt, (*moment, held.as_slice()), (*moment, *wanted));
    }
    let gone = file(&versions, 9, b"p");
    assert_same(&rt, gone.err(), Some(VersionError::NoFile));
    Ok(())
}
