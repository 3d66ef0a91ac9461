// Writes to files, and what they leave there.
ghost use Rattle.std.specs.Prelude.{◌≡◌, ◌+◌, ◌<◌, ◌^◌, ℕ, length, replicate, None, IfOk};
ghost use Rattle.parts_model.specs.Numbered.{nth};
ghost use Rattle.file_versions.specs.Versions.{bytes_after, cell_after, laid_at};
ghost use Rattle.file_versions.specs.Tables.{is_until, writes_until};
ghost use Rattle.file_versions.specs.Cells.{filled, write_of, AreCells, IsRoom};

use arn_base::{NoMemory, Src};
use parts_model::TaggedByte;
use std::alloc::Global;
use std::marker::Model;

/// Bytes of an event, laid over those of a file.
#[derive(Drop)]
pub struct Writing<'a> {
    moment: u64,
    event: u64,
    file: u32,
    at: u32,
    bytes: &'a [u8],
}

impl<'a> Model for Writing<'a> {
    ghost use Rattle.std.specs.Prelude.{◌<◌, ◌^◌, length};
    ghost use Rattle.file_versions.specs.Tables.{WriteAt};

    ghost Value = { WriteAt };

    ghost view = { λ s. record {
      moment = s.moment;
      write =
          record { event = s.event; over = record { file = s.file; at = s.at; bytes = s.bytes.now } };
    } };

    ghost invariant = { λ s. length s.bytes.now < 2 ^ 32 };
}

impl<'a> Writing<'a> {
    pub fn new(moment: u64, event: u64, file: u32, at: u32, bytes: &'a [u8]) -> Writing<'a>
        requires { length bytes.now < 2 ^ 32 }
        ensures { result ≡ record {
          moment = moment;
          write =
              record { event = event; over = record { file = file; at = at; bytes = bytes.now } };
        } }
    {
        Writing {
            moment,
            event,
            file,
            at,
            bytes,
        }
    }

    /// Whether it is done to this file by a moment.
    fn is_until(&self, moment: u64, file: u32) -> bool
        ensures { result ≡ is_until moment file self.now }
    {
        self.moment <= moment && self.file == file
    }

    /// The place behind its last byte.
    fn end(&self) -> usize
        ensures end { result ≡ self.now.write.over.at + length self.now.write.over.bytes }
        ensures few { result < 2 ^ 33 }
    {
        self.at as usize + self.bytes.len()
    }

    fn len(&self) -> usize
        ensures { result ≡ length self.now.write.over.bytes }
    {
        self.bytes.len()
    }

    /// Lays its bytes into those cells that there are.
    fn lay(&self, cells: &mut [Option<TaggedByte>])
        ensures { (place : ℕ) → place < length cells.old
            → nth cells.new place ≡ laid_at self.now.write place (nth cells.old place) }
    {
        lay_over(cells, self.at, self.event, self.bytes);
    }
}

/// Lays bytes of an event into those cells from a place on that there are.
fn lay_over(cells: &mut [Option<TaggedByte>], at: u32, event: u64, bytes: &[u8])
    requires few { length bytes.now < 2 ^ 32 }
    ensures { (place : ℕ) → place < length cells.old
        → nth cells.new place ≡ laid_at (write_of event at bytes.now) place (nth cells.old place) }
{
    for (place, byte) in bytes.iter().enumerate() {
        let cell = at as usize + place;
        if cell < cells.len() {
            cells[cell] = Some(TaggedByte {
                value: *byte,
                origin: Src {
                    event,
                    at: place as u32,
                },
            });
        }
    }
}

/// How many cells are enough for what is written to a file by a moment: no more than there are bytes, and no further
/// than they reach.
fn room(writes: &[Writing], moment: u64, file: u32) -> usize
    ensures { IsRoom (writes_until moment file writes.now) result }
{
    let mut end = 0;
    let mut count: usize = 0;
    for writing in writes {
        if writing.is_until(moment, file) {
            end = writing.end().max(end);
            count = count.saturating_add(writing.len());
        }
    }
    end.min(count)
}

/// Lays into cells all that is written to a file by a moment.
fn lay_all(cells: &mut [Option<TaggedByte>], writes: &[Writing], moment: u64, file: u32)
    ensures { (place : ℕ) → place < length cells.old
        → nth cells.new place ≡ cell_after (writes_until moment file writes.now) place (nth cells.old place) }
{
    for writing in writes {
        if writing.is_until(moment, file) {
            writing.lay(cells);
        }
    }
}

/// What is in cells up to the first that is empty.
fn filled(alloc: Global, cells: &[Option<TaggedByte>]) -> Result<Vec<TaggedByte>, NoMemory>
    ensures { IfOk result (λ held. held.items ≡ filled cells.now) }
{
    let mut held = Vec::new(alloc);
    for cell in cells {
        match cell {
            Some(byte) => held.push(*byte)?,
            None => return Ok(held),
        }
    }
    Ok(held)
}

/// So many cells that hold nothing.
fn empty_cells(alloc: Global, count: usize) -> Result<Vec<Option<TaggedByte>>, NoMemory>
    ensures { IfOk result (λ cells. cells.items ≡ replicate count None) }
{
    Ok(vec![in alloc; None; count]?)
}

/// What each place of a file holds at a moment, as far as it takes to tell the file.
fn cells_of(
    alloc: Global,
    writes: &[Writing],
    moment: u64,
    file: u32,
) -> Result<Vec<Option<TaggedByte>>, NoMemory>
    ensures { IfOk result (λ cells. AreCells (writes_until moment file writes.now) cells.items) }
{
    let mut cells = empty_cells(alloc, room(writes, moment, file))?;
    lay_all(&mut cells, writes, moment, file);
    Ok(cells)
}

/// The bytes of a file at a moment.
pub fn bytes(
    alloc: Global,
    writes: &[Writing],
    moment: u64,
    file: u32,
) -> Result<Vec<TaggedByte>, NoMemory>
    ensures { IfOk result (λ held. held.items ≡ bytes_after (writes_until moment file writes.now)) }
{
    let cells = cells_of(alloc, writes, moment, file)?;
    filled(alloc, cells.as_slice())
}
