// The records of turns.
ghost use Rattle.std.specs.Prelude.{◌≡◌, ◌+◌, ◌<◌, ◌≤◌, ◌^◌, ◌++◌, ◌↔◌, [], All, IfSome, IsTrue, option_to_list, vec_len, vec_capacity};
ghost use Rattle.result_log.specs.Spelling.{HasSpelling};
ghost use Rattle.guest_legs.specs.Pieces.{slice_of, spelled_len as spelled_len_of};

use arn_base::Record;
use result_log::spelled_len;

/// How many records a slice has at most: how many instructions ran, a delivery, and a call or an end.
pub const SLICE_RECORDS: usize = 3;

/// Puts the records of a turn behind others, if anything was done in it: how many instructions ran,
/// a delivery, and a call or an end. Answers how many bytes they are spelled by.
pub fn keep_turn(
    out: &mut Vec<Record>,
    pid: u32,
    ran: u32,
    delivery: Option<Record>,
    last: Option<Record>,
) -> u64
    requires room { vec_len out.old + SLICE_RECORDS ≤ vec_capacity out.old }
    requires delivery { IfSome delivery HasSpelling }
    requires last { IfSome last HasSpelling }
    ensures items { out.new.items ≡ out.old.items ++
        slice_of pid ran (option_to_list delivery ++ option_to_list last) }
    ensures spelled { All HasSpelling out.old.items → All HasSpelling out.new.items }
    ensures len { spelled_len_of out.new.items ≡ spelled_len_of out.old.items + result }
    ensures few { result < 2 ^ 39 }
{
    if is_nothing(ran, &delivery, &last) {
        return 0;
    }
    let slice = Record::Slice { pid, ran };
    keep(out, Some(slice)) + keep(out, delivery) + keep(out, last)
}

// Whether nothing was done in a turn.
#[inline(always)]
fn is_nothing(ran: u32, delivery: &Option<Record>, last: &Option<Record>) -> bool
    ensures { IsTrue result ↔
        (slice_of 0 ran (option_to_list delivery.now ++ option_to_list last.now) ≡ []) }
{
    ran == 0 && delivery.is_none() && last.is_none()
}

// Puts a record behind others, if there is one. Answers how many bytes it is spelled by.
#[inline(always)]
fn keep(out: &mut Vec<Record>, entry: Option<Record>) -> u64
    requires room { vec_len out.old < vec_capacity out.old }
    requires spelled { IfSome entry HasSpelling }
    ensures items { out.new.items ≡ out.old.items ++ option_to_list entry }
    ensures room { vec_capacity out.new ≡ vec_capacity out.old }
    ensures spelled { All HasSpelling out.old.items → All HasSpelling out.new.items }
    ensures len { spelled_len_of out.new.items ≡ spelled_len_of out.old.items + result }
    ensures few { result < 2 ^ 37 }
{
    match entry {
        Some(entry) => {
            let len = spelled_len(&entry);
            out.push_reserved(entry);
            len
        }
        None => 0,
    }
}
