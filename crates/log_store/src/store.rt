// A store of records over a log on a disk.
ghost use Rattle.std.specs.Prelude.{◌≡◌, ◌⊎◌, ◌+◌, ◌<◌, ◌≤◌, ◌++◌, ◌∷◌, [], ℕ, List, All, length, true, false, IfSome, IfOk, IfErr, OnOk, OnErr, IsErrOf, IsTrue};
ghost use Rattle.arn_base.specs.Disk.{Only};
ghost use Rattle.arn_base.specs.Faults.{Rose};
ghost use Rattle.result_log.specs.Spelling.{HasSpelling};
ghost use Rattle.log_store.specs.Causes.{IsCauseOf, BlamesBytes};
ghost use Rattle.log_store.specs.Stores.{IsLeftBy, IsBeforeOrAfter, KeepsRecords, MayLeaveLog};
ghost use Rattle.log_store.specs.Log.{log_name, closed_log, spellings, IsLog, IsLogOf, IsClosedLog, IsClosedLogOf};
ghost use Rattle.log_store.specs.Refused.{IsNoLog};
ghost use Rattle.log_store.specs.Stops.{NothingPending, LeavesOnly, IsOnlyRead, GoesOn};

use crate::commits::{add_frame, commit_bytes};
use crate::disks::load;
use crate::errors::{CommitError, OpenError};
use crate::opening::{Opened, open_bytes};
use crate::size::MOST_LOG;
use arn_base::{Disk, Record};
use std::alloc::Global;
use std::marker::Model;

/// The records of a log, and where the log ends. The disk isn't held: each commit is handed the one
/// that was opened.
#[derive(Drop)]
pub struct Store {
    alloc: Global,
    entries: Vec<Record>,
    // How many bytes the log has. The last of them is the closed gate.
    log_len: u64,
    usable: bool,
}

impl Model for Store {
    ghost use Rattle.std.specs.Prelude.{◌≤◌, length};
    ghost use Rattle.log_store.specs.Log.{spellings};
    ghost use Rattle.log_store.specs.Stores.{StoreState};
    ghost use Rattle.log_store.specs.declared.size.TheConstants.{MOST_LOG};

    ghost Value = { StoreState };

    ghost view = { λ s. record {
      entries = s.entries.items;
      log_len = s.log_len;
      usable = s.usable;
    } };

    ghost invariant = { λ s. (9 ≤ s.log_len) × (s.log_len ≤ MOST_LOG) ×
        (length (spellings s.entries.items) ≤ s.log_len) };
}

impl Store {
    /// Opens the log of a disk, and repairs its end. It reads the log once, whole; of one that is
    /// too long it reads nothing. What isn't a log, or is too long, is left as it is.
    ///
    /// A fresh log, of at most nine bytes, becomes `ARNLOG01` and a gate of 0. Of another it cuts
    /// off what stands behind the gate that ends it, and then makes that gate 0, each time with a
    /// sync. A log that is so already takes no call but those that read it.
    pub fn open_log<D: Disk>(alloc: Global, disk: &mut D) -> Result<Store, OpenError>
        ensures recovered { IfOk result (λ store.
            IfSome (D.image disk.old) (λ bytes. IsLog bytes store.entries)) }
        ensures spelled { IfOk result (λ store. All HasSpelling store.entries) }
        ensures left { IfOk result (λ store. IfSome (D.image disk.new) (IsLeftBy store)) }

        // The log has the frames that it had, and ends behind the gate that ended them, now closed.
        ensures shut { OnOk result ((commits : List (List Record)) →
            IfSome (D.image disk.old) (λ old. IsLogOf old commits →
            IfSome (D.image disk.new) (λ new. IsClosedLogOf new commits))) }
        ensures ends { IfOk result (λ store. (commits : List (List Record)) →
            IfSome (D.image disk.old) (λ old. IsLogOf old commits →
            store.log_len ≡ length (closed_log commits))) }

        ensures short { OnOk result
            (IfSome (D.image disk.old) (λ bytes. length bytes ≤ MOST_LOG)) }
        ensures usable { IfOk result (λ store. IsTrue store.usable) }
        ensures durable { OnOk result (NothingPending D.image D.may_leave disk.old →
            NothingPending D.image D.may_leave disk.new) }

        // Where nothing is pending at the start, each stop since then leaves a log of the same
        // records, and the same bytes where they are no log.
        ensures any_moment { IfSome (D.image disk.old) (λ bytes. Only bytes (D.may_leave disk.old) →
            LeavesOnly D.moment D.left_since disk.old disk.new (KeepsRecords bytes)) }

        ensures refused { IfErr result (λ error.
            IfSome (D.image disk.old) (λ bytes. IsCauseOf bytes error)) }
        ensures too_long { (len : ℕ) → IsErrOf result (OpenError.TooLong len) → MOST_LOG < len }
        ensures not_log { (at : ℕ) → IsErrOf result (OpenError.NotLog at) →
            at < length log_name }
        ensures malformed { (at : ℕ) → IsErrOf result (OpenError.Malformed at) → at < MOST_LOG }

        // What is refused is read at most. So is what is no log or too long, and what a store left,
        // whatever the answer.
        ensures unchanged { IfErr result (λ error. BlamesBytes error →
            IsOnlyRead D.image D.may_leave D.moment D.left_since disk.old disk.new) }
        ensures untouched { IfSome (D.image disk.old) (λ bytes.
            IsNoLog bytes ⊎ (MOST_LOG < length bytes) →
            IsOnlyRead D.image D.may_leave D.moment D.left_since disk.old disk.new) }
        ensures closed { (records : List Record) → IfSome (D.image disk.old) (λ bytes.
            IsClosedLog bytes records →
            IsOnlyRead D.image D.may_leave D.moment D.left_since disk.old disk.new) }

        ensures cause { IsErrOf result OpenError.Disk →
            Rose (D.faults disk.old) (D.faults disk.new) }
        ensures later { GoesOn D.image D.faults disk.old disk.new }
    {
        let bytes = load(alloc, disk)?;
        let Opened { entries, log_len } = open_bytes(alloc, disk, bytes.as_slice())?;
        Ok(Store {
            alloc,
            entries,
            log_len,
            usable: true,
        })
    }

    /// The records, from the oldest on.
    pub fn entries(&self) -> &[Record]
        ensures { result.now ≡ self.now.entries }
    {
        self.entries.as_slice()
    }

    /// Whether another commit can be made. After one at which the disk stopped, the log is to be
    /// opened again.
    pub fn usable(&self) -> bool
        ensures { result ≡ self.now.usable }
    {
        self.usable
    }

    /// Adds records to the log. A stop of the machine leaves all of them or none, and after Ok all.
    /// After an error the store holds none, but the log may hold them where the store isn't usable:
    /// a stop then may leave all of them or none.
    ///
    /// It makes its buffer before the first of four calls of the disk: it writes the frame behind
    /// the closed gate, syncs, opens the gate, and syncs.
    pub fn commit<D: Disk>(
        &mut self,
        disk: &mut D,
        mut entries: Vec<Record>,
    ) -> Result<(), CommitError>
        requires usable { IsTrue self.old.usable }
        requires entries { All HasSpelling entries.items }
        requires left { IfSome (D.image disk.old) (IsLeftBy self.old) }

        ensures added { OnOk result (self.new.entries ≡ self.old.entries ++ entries.items) }
        ensures dropped { OnErr result (self.new.entries ≡ self.old.entries) }
        ensures left { OnOk result (IfSome (D.image disk.new) (IsLeftBy self.new)) }

        // The log has one frame more, and no other byte.
        ensures framed { OnOk result ((commits : List (List Record)) →
            IfSome (D.image disk.old) (λ old. IsClosedLogOf old commits →
            IfSome (D.image disk.new) (λ new. IsClosedLogOf new (commits ++ entries.items ∷ [])))) }
        ensures longer { OnOk result
            (self.new.log_len ≡ self.old.log_len + 5 + length (spellings entries.items)) }
        ensures durable { OnOk result (NothingPending D.image D.may_leave disk.new) }

        // Where nothing is pending at the start, each stop since then leaves all of the commit or
        // none, in a log that isn't too long. After Ok nothing is pending, and a stop leaves all.
        ensures any_moment { IfSome (D.image disk.old) (λ bytes. Only bytes (D.may_leave disk.old) →
            LeavesOnly D.moment D.left_since disk.old disk.new
            (IsBeforeOrAfter self.old.entries entries.items)) }

        // After an error a stop may still leave the log of before.
        ensures before { OnErr result (IfSome (D.image disk.old) (λ _.
            MayLeaveLog (D.may_leave disk.new) self.old.entries)) }

        ensures fits { OnOk result
            (self.old.log_len + 5 + length (spellings entries.items) ≤ MOST_LOG) }
        ensures fits_disk { IsErrOf result CommitError.Disk →
            self.old.log_len + 5 + length (spellings entries.items) ≤ MOST_LOG }
        ensures full { (log payload : ℕ) → IsErrOf result (CommitError.Full log payload) →
            (log ≡ self.old.log_len) × (payload ≡ length (spellings entries.items))
            × (MOST_LOG < log + 5 + payload) }
        ensures full_unchanged { (log payload : ℕ) → IsErrOf result (CommitError.Full log payload) →
            (self.new ≡ self.old) × (disk.new ≡ disk.old) }
        // After NoMemory nothing changed, or the store can't go on.
        ensures no_memory { IsErrOf result CommitError.NoMemory →
            ((self.new ≡ self.old) × (disk.new ≡ disk.old)) ⊎ (self.new.usable ≡ false) }
        // It can't go on only where the disk wanted memory of its own.
        ensures wanted { IsErrOf result CommitError.NoMemory → self.new.usable ≡ false →
            IsTrue (D.wants_memory disk.old) }
        ensures memory { D.wants_memory disk.new ≡ D.wants_memory disk.old }
        ensures cause { IsErrOf result CommitError.Disk →
            Rose (D.faults disk.old) (D.faults disk.new) }
        ensures later { GoesOn D.image D.faults disk.old disk.new }

        ensures usable { OnOk result (IsTrue self.new.usable) }
        ensures unusable { IsErrOf result CommitError.Disk → self.new.usable ≡ false }
    {
        let bytes = commit_bytes(self.alloc, self.log_len, entries.as_slice())?;
        let before = self.entries.len();
        self.entries.append(&mut entries)?;
        match add_frame(disk, self.log_len, bytes.as_slice()) {
            Ok(()) => {
                self.log_len += bytes.len() as u64;
                Ok(())
            }
            Err(stop) => {
                self.entries.truncate(before);
                self.usable = false;
                Err(CommitError::from(stop))
            }
        }
    }
}

/// What a store's records are spelled by is no longer than a log may be.
pub fn store_is_short(store: &Store)
    ensures { length (spellings store.now.entries) ≤ MOST_LOG }
{
    let _len = store.log_len;
}
