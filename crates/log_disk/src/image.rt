// The bytes of a disk in memory.
ghost use Rattle.std.specs.Prelude.{◌≡◌, ◌≤◌, length, take, OnOk, OnErr};
ghost use Rattle.arn_base.specs.Disk.{overwrite};
ghost use Rattle.log_disk.specs.Image.{image_bytes};

use arn_base::{Bytes, NoMemory};
use std::alloc::{AllocError, Global};

/// Bytes as they were handed in, or a copy that changes.
#[derive(Debug, Drop)]
pub enum Image {
    Given(Bytes),
    Own(Vec<u8>),
}

/// Writes bytes at a place, over what is there and past the end.
fn write_over(bytes: &mut Vec<u8>, at: usize, piece: &[u8]) -> Result<(), AllocError>
    requires { at ≤ length bytes.old.items }
    ensures ok { OnOk result (bytes.new.items ≡ overwrite bytes.old.items at piece.now) }
    ensures err { OnErr result (bytes.new.items ≡ bytes.old.items) }
{
    let inside = piece.len().min(bytes.len() - at);
    bytes.extend_from_slice(&piece[inside..])?;
    bytes[at..at + inside].copy_from_slice(&piece[..inside]);
    Ok(())
}

impl Image {
    pub fn as_slice(&self) -> &[u8]
        ensures { result.now ≡ image_bytes self.now }
    {
        match self {
            Image::Given(bytes) => bytes.as_slice(),
            Image::Own(bytes) => bytes.as_slice(),
        }
    }

    pub fn len(&self) -> usize
        ensures { result ≡ length (image_bytes self.now) }
    {
        self.as_slice().len()
    }

    pub fn overwrite(&mut self, alloc: Global, at: usize, piece: &[u8]) -> Result<(), NoMemory>
        requires { at ≤ length (image_bytes self.old) }
        ensures ok { OnOk result
            (image_bytes self.new ≡ overwrite (image_bytes self.old) at piece.now) }
        ensures err { OnErr result (image_bytes self.new ≡ image_bytes self.old) }
    {
        if let Image::Own(bytes) = self {
            return Ok(write_over(bytes, at, piece)?);
        }
        let mut bytes = Vec::from_slice(alloc, self.as_slice())?;
        write_over(&mut bytes, at, piece)?;
        *self = Image::Own(bytes);
        Ok(())
    }

    pub fn cut(&mut self, alloc: Global, len: usize) -> Result<(), NoMemory>
        requires { len ≤ length (image_bytes self.old) }
        ensures ok { OnOk result (image_bytes self.new ≡ take len (image_bytes self.old)) }
        ensures err { OnErr result (image_bytes self.new ≡ image_bytes self.old) }
    {
        if let Image::Own(bytes) = self {
            bytes.truncate(len);
            return Ok(());
        }
        *self = Image::Own(Vec::from_slice(alloc, &self.as_slice()[..len])?);
        Ok(())
    }
}
