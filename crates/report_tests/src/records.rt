// Records that tests of reports share.
use arn_base::{Bytes, NoMemory, Record};
use std::alloc::Global;

/// A file `p` of two bytes.
pub fn file(alloc: Global) -> Result<Record, NoMemory> {
    let name = Bytes::from_slice(alloc, b"p")?;
    let bytes = Bytes::from_slice(alloc, b"12")?;
    Ok(Record::File { name, bytes })
}
