// Received bytes in a row.
ghost use Rattle.std.specs.Prelude.{◌≡◌, ◌≤◌, ◌<◌, ◌+◌, ◌^◌, ℕ, IfSome, Some, length};
ghost use Rattle.taint_sets.specs.Runs.{AreInOrder, IsRunBefore, byte_behind, item_among, item_in};

use set_store::Item;

/// Bytes of an event in a row, whose numbers follow each other.
#[derive(Clone, Copy)]
pub struct Run {
    /// The number of the first.
    pub first: u32,
    /// How many there are.
    pub len: u32,
    /// The event's number.
    pub event: u64,
    /// Which of its bytes is the first.
    pub at: u64,
}

/// The byte of a number, if the run has it.
fn item_of(run: &Run, number: u32) -> Option<Item>
    requires { run.now.at + run.now.len ≤ 2 ^ 64 }
    ensures { result ≡ item_in run.now number }
{
    if number < run.first || number - run.first >= run.len {
        return None;
    }
    Some(Item {
        event: run.event,
        at: run.at + u64::from(number - run.first),
    })
}

/// How many runs begin at a number or before it, where their numbers rise.
fn begun(runs: &[Run], number: u32) -> usize
    requires { AreInOrder runs.now }
    ensures most { result ≤ length runs.now }
    ensures split { IsRunBefore runs.now number result }
{
    runs.partition_point(|run| run.first <= number)
}

/// The byte of a number, if one of the runs has it, where their numbers rise.
pub fn find(runs: &[Run], number: u32) -> Option<Item>
    requires { AreInOrder runs.now }
    ensures { result ≡ item_among runs.now number }
{
    let count = begun(runs, number);
    if count == 0 {
        return None;
    }
    item_of(&runs[count - 1], number)
}

/// The byte of a number, if one of the runs has it, and how many bytes from it on the run has, where their numbers rise.
pub fn stretch(runs: &[Run], number: u32) -> Option<(Item, u32)>
    requires { AreInOrder runs.now }
    ensures some { IfSome result (λ bytes. 0 < bytes.1) }
    ensures bytes { IfSome result (λ bytes. (k : ℕ) → k < bytes.1 →
        item_among runs.now (number + k) ≡ Some (byte_behind bytes.0 k)) }
{
    let count = begun(runs, number);
    if count == 0 {
        return None;
    }
    let run = &runs[count - 1];
    let item = item_of(run, number)?;
    Some((item, run.len - (number - run.first)))
}
