use arn_base::{Bytes, NoMemory, Numbers, Record};
use std::alloc::Global;
use std::test::Fail;

#[test]
fn lists_grow_at_their_end(rt: HostRuntime) -> Result<(), Fail> {
    let mut numbers = Numbers::new(rt.alloc());
    assert!(rt; numbers.is_empty());
    for number in [7, 0, 7] {
        numbers.push(number)?;
    }
    assert!(rt; numbers.as_slice() == [7, 0, 7].as_slice());
    let bytes = Bytes::from_slice(rt.alloc(), b"abc")?;
    assert!(rt; bytes.as_slice() == b"abc".as_slice());
    Ok(())
}

fn typed(alloc: Global, text: &[u8]) -> Result<Record, NoMemory> {
    let bytes = Bytes::from_slice(alloc, text)?;
    Ok(Record::Typed { bytes })
}

// Whether the records of two texts that are typed are equal.
fn are_equal(alloc: Global, text: &[u8], other: &[u8]) -> Result<bool, NoMemory> {
    let record = typed(alloc, text)?;
    Ok(record == typed(alloc, other)?)
}

#[test]
fn records_compare(rt: HostRuntime) -> Result<(), Fail> {
    let alloc = rt.alloc();
    assert!(rt; are_equal(alloc, b"ab", b"ab")?);
    assert!(rt; !are_equal(alloc, b"ab", b"a")?);
    Ok(())
}
