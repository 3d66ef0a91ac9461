// A source, read line by line.
ghost use Rattle.std.specs.Prelude.{◌≡◌, ◌≢◌, ◌<◌, ◌≤◌, ◌+◌, ◌⊎◌, ◌↔◌, ◌++◌, [], ℕ, List, length, max, take, vec_len, IfOk, OnOk, OnErr, IfErr, IsErrOf, IfSome, IsTrue, Err, false, option_map};
ghost use Rattle.arn_base.specs.Faults.{Rose, NeverFalls};
ghost use Rattle.arn_commands.specs.Reader.{fresh_reader, Uses, UsesSome, IsAtEnd, StopsShort, StopsLong};
ghost use Rattle.arn_commands.specs.Pieces.{IsKept, MovesLine, ReadsLine, line_end};

use crate::error::ReadError;
use arn_base::{Failed, NoMemory, Source};
use arn_lines::MOST_LINE;
use memchr::memchr;
use std::alloc::Global;
use std::marker::Model;

/// How many bytes are asked of a source at once.
const CHUNK: usize = 4_096;

/// How many bytes of a source are taken at most.
pub const MOST_TAKEN: u64 = 1 << 40;

/// How many bytes of a line are kept: one more than a line may have tells that it is too long.
const MOST_KEPT: usize = MOST_LINE + 1;

const LINE_FEED: u8 = b'\n';

/// Takes a source chunk by chunk, and gives it line by line.
#[derive(Drop)]
pub struct Reader {
    chunk: Vec<u8>,
    from: usize,
    to: usize,
    taken: u64,
}

impl Model for Reader {
    ghost use Rattle.std.specs.Prelude.{◌-◌, take, drop, vec_len};
    ghost use Rattle.arn_commands.specs.Reader.{ReaderState, IsReaderSound};

    ghost Value = { ReaderState };

    ghost view = { λ r. record {
      ahead = take (r.to - r.from) (drop r.from r.chunk.items);
      taken = r.taken;
    } };

    ghost invariant = { λ r. IsReaderSound (vec_len r.chunk) r.from r.to r.taken };
}

/// Appends the bytes to what is kept of a line.
fn keep(line: &mut Vec<u8>, bytes: &[u8]) -> Result<(), NoMemory>
    ensures kept { OnOk result ((whole : List ℕ) →
        IsKept whole line.old.items → IsKept (whole ++ bytes.now) line.new.items) }
    ensures bound { vec_len line.new ≤ max (vec_len line.old) MOST_KEPT }
{
    let room = MOST_KEPT.saturating_sub(line.len());
    let fits = room.min(bytes.len());
    line.extend_from_slice(&bytes[..fits])?;
    Ok(())
}

/// Takes bytes of a source into the front of a chunk, at most so many. There are none only at the
/// end of the source.
fn take_chunk<S: Source>(source: &mut S, chunk: &mut [u8], most: u64) -> Result<usize, Failed>
    requires some_room { 0 < length chunk.old }
    requires some { 0 < most }
    ensures within { IfOk result (λ count. (count ≤ length chunk.new) × (count ≤ most)) }
    ensures bytes { IfOk result (λ count.
        S.left source.old ≡ option_map (λ rest. take count chunk.new ++ rest) (S.left source.new)) }
    ensures end { IfOk result (λ count.
        count ≡ 0 → IfSome (S.left source.old) (λ bytes. bytes ≡ [])) }
    ensures err { OnErr result (S.left source.new ≡ S.left source.old) }
    ensures cause { OnErr result (Rose (S.faults source.old) (S.faults source.new)) }
    ensures faults { NeverFalls (S.faults source.old) (S.faults source.new) }
{
    let room = most.min(chunk.len() as u64) as usize;
    source.take(&mut chunk[..room])
}

impl Reader {
    pub fn new(alloc: Global) -> Result<Reader, NoMemory>
        ensures { IfOk result (λ reader. reader ≡ fresh_reader) }
    {
        let chunk = vec![in alloc; 0u8; CHUNK]?;
        Ok(Reader {
            chunk,
            from: 0,
            to: 0,
            taken: 0,
        })
    }

    /// Takes the next chunk. It is empty only at the end of the source.
    fn fill<S: Source>(&mut self, source: &mut S) -> Result<(), Failed>
        requires used_up { self.old.ahead ≡ [] }
        requires some_room { self.old.taken < MOST_TAKEN }
        ensures ok { OnOk result
            (S.left source.old ≡ option_map (λ rest. self.new.ahead ++ rest) (S.left source.new)) }
        ensures counted { self.new.taken ≡ self.old.taken + length self.new.ahead }
        ensures end { OnOk result
            (self.new.ahead ≡ [] → IfSome (S.left source.old) (λ bytes. bytes ≡ [])) }
        ensures within { self.new.taken ≤ MOST_TAKEN }
        ensures err { OnErr result (self.new ≡ self.old) }
        ensures untaken { OnErr result (S.left source.new ≡ S.left source.old) }
        ensures cause { OnErr result (Rose (S.faults source.old) (S.faults source.new)) }
        ensures faults { NeverFalls (S.faults source.old) (S.faults source.new) }
    {
        self.from = 0;
        self.to = 0;
        let most = MOST_TAKEN - self.taken;
        self.to = take_chunk(source, self.chunk.as_mut_slice(), most)?;
        self.taken += self.to as u64;
        Ok(())
    }

    /// Takes the next chunk where no bytes are ahead, and tells whether there are some then: if not,
    /// the source is at its end.
    fn look_ahead<S: Source>(&mut self, source: &mut S) -> Result<bool, ReadError>
        requires within { self.old.taken ≤ MOST_TAKEN }
        ensures more { IfOk result (λ more. IsTrue more → 0 < length self.new.ahead) }
        ensures end { IfOk result (λ more. more ≡ false → IsAtEnd self.new (S.left source.new)) }
        ensures source { IsErrOf result ReadError.Source → StopsShort self.new }
        ensures long { IsErrOf result ReadError.Long → StopsLong self.new }
        ensures no_other { IfErr result (λ e. (e ≡ ReadError.Source) ⊎ (e ≡ ReadError.Long)) }

        ensures used { Uses [] self.old self.new (S.left source.old) (S.left source.new) }
        ensures still_within { self.new.taken ≤ MOST_TAKEN }
        ensures cause { IsErrOf result ReadError.Source →
            Rose (S.faults source.old) (S.faults source.new) }
        ensures faults { NeverFalls (S.faults source.old) (S.faults source.new) }
    {
        if self.from < self.to {
            return Ok(true);
        }
        if self.taken == MOST_TAKEN {
            return Err(ReadError::Long);
        }
        if self.fill(source).is_err() {
            return Err(ReadError::Source);
        }
        Ok(self.from < self.to)
    }

    /// Moves what is ahead of a line up to its LF, and tells whether the LF was there.
    fn end_line(&mut self, line: &mut Vec<u8>) -> Result<bool, NoMemory>
        ensures ok { IfOk result (λ feed.
            MovesLine (line_end feed) self.old self.new line.old.items line.new.items) }
        ensures used_up { IfOk result (λ feed. feed ≡ false → self.new.ahead ≡ []) }
        ensures taken { self.new.taken ≡ self.old.taken }
        ensures err { OnErr result (self.new ≡ self.old) }
        ensures bound { vec_len line.new ≤ max (vec_len line.old) MOST_KEPT }
    {
        let ahead = &self.chunk.as_slice()[self.from..self.to];
        match memchr(LINE_FEED, ahead) {
            Some(len) => {
                keep(line, &ahead[..len])?;
                self.from += len + 1;
                Ok(true)
            }
            None => {
                keep(line, ahead)?;
                self.from = self.to;
                Ok(false)
            }
        }
    }

    /// Reads the next line, and tells whether an LF ends it: if not, the source is at its end. Of a
    /// line that is too long only the first bytes are kept.
    pub fn next_line<S: Source>(
        &mut self,
        source: &mut S,
        line: &mut Vec<u8>,
    ) -> Result<bool, ReadError>
        requires within { self.old.taken ≤ MOST_TAKEN }
        ensures line { IfOk result (λ feed. ReadsLine (line_end feed) self.old self.new
            (S.left source.old) (S.left source.new) line.new.items) }
        ensures end { IfOk result (λ feed. feed ≡ false → IsAtEnd self.new (S.left source.new)) }
        ensures part { IfErr result (λ e. e ≢ ReadError.NoMemory → ReadsLine [] self.old self.new
            (S.left source.old) (S.left source.new) line.new.items) }
        ensures source { IsErrOf result ReadError.Source → StopsShort self.new }
        ensures long { IsErrOf result ReadError.Long → StopsLong self.new }
        ensures no_other { IfErr result (λ e.
            (e ≡ ReadError.NoMemory) ⊎ (e ≡ ReadError.Source) ⊎ (e ≡ ReadError.Long)) }

        ensures used { UsesSome self.old self.new (S.left source.old) (S.left source.new) }
        ensures bound { vec_len line.new ≤ MOST_KEPT }
        ensures still_within { self.new.taken ≤ MOST_TAKEN }
        ensures cause { IsErrOf result ReadError.Source →
            Rose (S.faults source.old) (S.faults source.new) }
        ensures faults { NeverFalls (S.faults source.old) (S.faults source.new) }
    {
        line.clear();
        while self.look_ahead(source)? {
            if self.end_line(line)? {
                return Ok(true);
            }
        }
        Ok(false)
    }
}
