// Records, compared one by one with those that were made again.
ghost use Rattle.std.specs.Prelude.{◌≡◌, ◌≢◌, ◌<◌, ◌≤◌, ◌++◌, ◌↔◌, All, Some, IfOk, IfSome, OnOk, IsErrOf, IsTrue, length, option_copied, slice_get, take};
ghost use Rattle.arn_base.specs.declared.records.Record.{Record};
ghost use Rattle.result_log.specs.Spelling.{FitsFields, HasSpelling};
ghost use Rattle.arn_base.specs.declared.records.Differs.{Differs};
ghost use Rattle.record_match.specs.Differs.{spelling_if, IsFirstDifference};
ghost use Rattle.record_match.specs.Matching.{IsDifferenceAt, IsMatched, IsMismatch};

use crate::differs::RebuildError;
use arn_base::{Differs, NoMemory, Record};
use result_log::{put_record, records_spelled_one_way};
use std::alloc::Global;

// The spelling of a record, and no bytes where there is none.
fn spell(alloc: Global, there: Option<&Record>) -> Result<Vec<u8>, NoMemory>
    requires { IfSome (option_copied there) HasSpelling }
    ensures ok { IfOk result (λ bytes. bytes.items ≡ spelling_if (option_copied there.entry)) }
    ensures fits { OnOk result (IfSome (option_copied there.entry) FitsFields) }
{
    let mut out = Vec::new(alloc);
    if let Some(entry) = there {
        put_record(&mut out, entry)?;
    }
    Ok(out)
}

// How many bytes both begin with alike.
fn common_len(said: &[u8], found: &[u8]) -> usize
    ensures same { take result said.now ≡ take result found.now }
    ensures differ { said.now ≢ found.now →
        slice_get said.now result ≢ slice_get found.now result }
{
    for (at, byte) in said.iter().enumerate() {
        if found.get(at) != Some(byte) {
            return at;
        }
    }
    said.len()
}

// The byte at a place, if there is one.
fn byte_at(bytes: &[u8], at: usize) -> Option<u8>
    ensures { result ≡ slice_get bytes.now at }
{
    bytes.get(at).copied()
}

// Where two records differ that aren't the same, or where one has no other.
fn difference_at(
    alloc: Global,
    place: usize,
    said: Option<&Record>,
    found: Option<&Record>,
) -> Result<Differs, NoMemory>
    requires said { IfSome (option_copied said) HasSpelling }
    requires found { IfSome (option_copied found) HasSpelling }
    requires differ { option_copied said ≢ option_copied found }
    ensures { IfOk result
        (IsDifferenceAt place (option_copied said.entry) (option_copied found.entry)) }
{
    records_spelled_one_way();
    let said = spell(alloc, said)?;
    let found = spell(alloc, found)?;
    let at = common_len(said.as_slice(), found.as_slice());
    Ok(Differs {
        place: place as u64,
        at: at as u64,
        said: byte_at(said.as_slice(), at),
        found: byte_at(found.as_slice(), at),
    })
}

// The record at a place, if there is one.
fn record_at(entries: &[Record], place: usize) -> Option<&Record>
    requires { All HasSpelling entries.now }
    ensures there { option_copied result ≡ slice_get entries.now place }
    ensures spelled { IfSome (option_copied result) HasSpelling }
{
    entries.get(place)
}

// Whether this record stands there.
fn is_there(there: Option<&Record>, entry: &Record) -> bool
    ensures { IsTrue result ↔ (option_copied there.entry ≡ Some entry.now) }
{
    match there {
        Some(there) => there == entry,
        None => false,
    }
}

/// Compares records with those behind the first `matched`. Answers how many are matched then.
pub fn match_records(
    alloc: Global,
    entries: &[Record],
    matched: usize,
    found: &[Record],
) -> Result<usize, RebuildError>
    requires within { matched ≤ length entries.now }
    requires said { All HasSpelling entries.now }
    requires found { All HasSpelling found.now }
    ensures ok { IfOk result (IsMatched entries.now matched found.now) }
    ensures differs { (d : Differs) → IsErrOf result (RebuildError.Differs d) →
        IsMismatch entries.now (take matched entries.now ++ found.now) d }
{
    let mut next = matched;
    for entry in found {
        let said = record_at(entries, next);
        if !is_there(said, entry) {
            let differs = difference_at(alloc, next, said, Some(entry))?;
            return Err(RebuildError::Differs(differs));
        }
        next += 1;
    }
    Ok(next)
}

/// Where records differ from their first `matched`: at the next one, which is missing there.
pub fn first_missing(alloc: Global, entries: &[Record], matched: usize) -> Result<Differs, NoMemory>
    requires more { matched < length entries.now }
    requires spelled { All HasSpelling entries.now }
    ensures { IfOk result (IsFirstDifference entries.now (take matched entries.now)) }
{
    difference_at(alloc, matched, record_at(entries, matched), None)
}
