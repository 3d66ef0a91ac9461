// The log of bytes that a disk tells, opened.
ghost use Rattle.std.specs.Prelude.{◌≡◌, ◌≤◌, ◌<◌, ◌++◌, ◌∷◌, [], ℕ, List, All, length, IfSome, IfOk, IfErr, OnOk, IsErrOf};
ghost use Rattle.arn_base.specs.Disk.{Only};
ghost use Rattle.arn_base.specs.Faults.{Rose};
ghost use Rattle.result_log.specs.Spelling.{HasSpelling};
ghost use Rattle.log_store.specs.Causes.{IsCauseOf, BlamesBytes};
ghost use Rattle.log_store.specs.Stores.{KeepsRecords};
ghost use Rattle.log_store.specs.Log.{IsLog, IsLogOf, IsClosedLog, IsClosedLogOf, closed_log, spellings};
ghost use Rattle.log_store.specs.Pieces.{IsLeft};
ghost use Rattle.log_store.specs.Refused.{IsNoLog};
ghost use Rattle.log_store.specs.Stops.{NothingPending, LeavesOnly, GoesOn};

use crate::disks::{close_end, make_fresh};
use crate::errors::OpenError;
use crate::format::FRESH;
use crate::frames::read_log;
use crate::law::logs_read_one_way;
use crate::size::MOST_LOG;
use arn_base::{Disk, Record};
use result_log::records_spelled_one_way;
use std::alloc::Global;

// The records of a log, and how many bytes it has.
#[derive(Drop)]
pub struct Opened {
    pub entries: Vec<Record>,
    pub log_len: u64,
}

// Opens the log of these bytes, which the disk holds.
pub fn open_bytes<D: Disk>(alloc: Global, disk: &mut D, bytes: &[u8]) -> Result<Opened, OpenError>
    requires short { length bytes.now ≤ MOST_LOG }
    requires told { IfSome (D.image disk.old) (λ told. told ≡ bytes.now) }

    ensures recovered { IfOk result (λ opened. IsLog bytes.now opened.entries.items) }
    ensures spelled { IfOk result (λ opened. All HasSpelling opened.entries.items) }
    ensures sized { IfOk result (λ opened.
        length (spellings opened.entries.items) ≤ opened.log_len) }
    ensures left { IfOk result (λ opened.
        IfSome (D.image disk.new) (IsLeft opened.entries.items opened.log_len)) }
    ensures shut { OnOk result ((commits : List (List Record)) → IsLogOf bytes.now commits →
        IfSome (D.image disk.new) (λ told. IsClosedLogOf told commits)) }
    ensures ends { IfOk result (λ opened. (commits : List (List Record)) →
        IsLogOf bytes.now commits → opened.log_len ≡ length (closed_log commits)) }
    ensures len { IfOk result (λ opened. (9 ≤ opened.log_len) × (opened.log_len ≤ MOST_LOG)) }
    ensures durable { OnOk result (NothingPending D.image D.may_leave disk.old →
        NothingPending D.image D.may_leave disk.new) }

    ensures any_moment { IfSome (D.image disk.old) (λ told. Only told (D.may_leave disk.old) →
        LeavesOnly D.moment D.left_since disk.old disk.new (KeepsRecords told)) }

    ensures untouched { IsNoLog bytes.now → disk.new ≡ disk.old }
    ensures closed { (records : List Record) → IsClosedLog bytes.now records →
        disk.new ≡ disk.old }
    ensures refused { IfErr result (IsCauseOf bytes.now) }
    ensures unchanged { IfErr result (λ error. BlamesBytes error → disk.new ≡ disk.old) }
    ensures cause { IsErrOf result OpenError.Disk → Rose (D.faults disk.old) (D.faults disk.new) }
    ensures later { GoesOn D.image D.faults disk.old disk.new }
{
    if bytes.len() <= FRESH.len() {
        return open_fresh(alloc, disk, bytes);
    }
    logs_read_one_way();
    records_spelled_one_way();
    let found = read_log(alloc, bytes)?;
    let gate = (bytes.len() - found.end.len()) as u64;
    close_end(disk, gate, found.end)?;
    Ok(Opened {
        entries: found.entries,
        log_len: gate + 1,
    })
}

fn open_fresh<D: Disk>(alloc: Global, disk: &mut D, bytes: &[u8]) -> Result<Opened, OpenError>
    requires short { length bytes.now ≤ 9 }
    requires told { IfSome (D.image disk.old) (λ told. told ≡ bytes.now) }

    ensures recovered { IfOk result (λ opened. IsLog bytes.now opened.entries.items) }
    ensures spelled { IfOk result (λ opened. All HasSpelling opened.entries.items) }
    ensures sized { IfOk result (λ opened.
        length (spellings opened.entries.items) ≤ opened.log_len) }
    ensures left { IfOk result (λ opened.
        IfSome (D.image disk.new) (IsLeft opened.entries.items opened.log_len)) }
    ensures shut { OnOk result ((commits : List (List Record)) → IsLogOf bytes.now commits →
        IfSome (D.image disk.new) (λ told. IsClosedLogOf told commits)) }
    ensures ends { IfOk result (λ opened. (commits : List (List Record)) →
        IsLogOf bytes.now commits → opened.log_len ≡ length (closed_log commits)) }
    ensures len { IfOk result (λ opened. opened.log_len ≡ 9) }
    ensures durable { OnOk result (NothingPending D.image D.may_leave disk.old →
        NothingPending D.image D.may_leave disk.new) }

    ensures any_moment { IfSome (D.image disk.old) (λ told. Only told (D.may_leave disk.old) →
        LeavesOnly D.moment D.left_since disk.old disk.new (KeepsRecords told)) }

    ensures untouched { IsNoLog bytes.now → disk.new ≡ disk.old }
    ensures closed { (records : List Record) → IsClosedLog bytes.now records →
        disk.new ≡ disk.old }
    ensures refused { IfErr result (λ error. ¬ BlamesBytes error) }
    ensures cause { IsErrOf result OpenError.Disk → Rose (D.faults disk.old) (D.faults disk.new) }
    ensures later { GoesOn D.image D.faults disk.old disk.new }
{
    logs_read_one_way();
    make_fresh(disk, bytes)?;
    Ok(Opened {
        entries: Vec::new(alloc),
        log_len: FRESH.len() as u64,
    })
}
