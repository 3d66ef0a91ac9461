// Ranges of places.
ghost use Rattle.std.specs.Prelude.{◌≡◌, ◌+◌, ◌↔◌, IsTrue, IfOk};
ghost use Rattle.log_disk.specs.Crash.{Covers};

use arn_base::NoMemory;

/// The places from a start to before an end.
#[derive(Clone, Copy)]
pub struct Range {
    pub start: usize,
    pub end: usize,
}

impl Range {
    /// So many places from one on. What ends behind the last number is in no memory.
    pub fn with_len(start: usize, len: usize) -> Result<Range, NoMemory>
        ensures { IfOk result (λ range. range ≡ record { start = start; end = start + len }) }
    {
        let end = start.checked_add(len).ok_or(NoMemory)?;
        Ok(Range { start, end })
    }

    pub fn covers(&self, place: usize) -> bool
        ensures { IsTrue result ↔ Covers self.now place }
    {
        self.start <= place && place < self.end
    }
}
