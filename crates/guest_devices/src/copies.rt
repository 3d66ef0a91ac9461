// Bytes into buffers, and how many one answer counts.
ghost use Rattle.std.specs.Prelude.{◌≡◌, length, min, take};
ghost use Rattle.arn_base.specs.Device.{countable};

/// Copies the front of the bytes into the front of the buffer, as many as fit.
pub fn copy_front(bytes: &[u8], buf: &mut [u8]) -> u32
    ensures count { result ≡ min (countable (length buf.old)) (length bytes.now) }
    ensures bytes { take result buf.new ≡ take (countable (length buf.old)) bytes.now }
{
    let count = bytes.len().min(buf.len()).min(u32::MAX as usize);
    buf[..count].copy_from_slice(&bytes[..count]);
    count as u32
}

/// How many of so many bytes one answer counts.
pub fn counted(taken: usize, len: usize) -> u32
    ensures { result ≡ min taken (countable len) }
{
    taken.min(len).min(u32::MAX as usize) as u32
}
