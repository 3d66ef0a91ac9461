// The machine to which records lead.
use crate::again::run_named;
use crate::given::after;
use crate::law::{records_follow, records_leave_room, runs_follow};
use crate::machine::Machine;
use arn_base::{Record, Steps};
use log_model::records_append;
use record_match::{RebuildError, first_missing, match_records};
use std::alloc::Global;
use std::sync::ledger::Ledger;

impl Machine {
    ghost use Rattle.std.specs.Prelude.{◌≡◌, ◌+◌, ◌≤◌, All, IfOk, IsErrOf, OnOk};
    ghost use Rattle.log_model.specs.Records.{named, records, IsRun};
    ghost use Rattle.result_log.specs.Spelling.{HasSpelling};
    ghost use Rattle.arn_base.specs.declared.records.Differs.{Differs};
    ghost use Rattle.record_match.specs.Differs.{IsFirstDifference};
    ghost use Rattle.guest_machine.specs.Again.{rebuild_cost};
    ghost use Rattle.guest_machine.specs.Recorded.{IsAfter, recorded_first};

    /// The machine to which the inputs lead that records name. An input that is impossible does
    /// nothing, and makes no record.
    pub fn rebuild<L: Ledger>(
        alloc: Global,
        entries: &[Record],
        steps: &mut Steps<L>,
    ) -> Result<Machine, RebuildError>
        requires spelled { All HasSpelling entries.now }

        ensures leads { IfOk result (λ machine. IsAfter machine (named entries.now)) }
        ensures is_run { OnOk result (IsRun entries.now) }
        ensures differs { (d : Differs) → IsErrOf result (RebuildError.Differs d) →
            IsFirstDifference entries.now (records (named entries.now)) d }
        ensures not_run { (d : Differs) → IsErrOf result (RebuildError.Differs d) →
            ¬ IsRun entries.now }

        ensures steps { steps.new ≤ steps.old + rebuild_cost entries.now }
    {
        let mut machine = Machine::new(alloc);
        let done = machine.run_again(alloc, entries, steps);
        after(machine, done)
    }

    // Runs the inputs that records name, from the start, and compares the records of each with these.
    fn run_again<L: Ledger>(
        &mut self,
        alloc: Global,
        entries: &[Record],
        steps: &mut Steps<L>,
    ) -> Result<(), RebuildError>
        requires first { self.old ≡ recorded_first }
        requires spelled { All HasSpelling entries.now }

        ensures leads { OnOk result (IsAfter self.new (named entries.now)) }
        ensures is_run { OnOk result (IsRun entries.now) }
        ensures differs { (d : Differs) → IsErrOf result (RebuildError.Differs d) →
            IsFirstDifference entries.now (records (named entries.now)) d }

        ensures steps { steps.new ≤ steps.old + rebuild_cost entries.now }
    {
        runs_follow();
        records_follow();
        records_leave_room();
        records_append();
        let mut out = Vec::new(alloc);
        let mut matched = 0;
        let mut at = 0;
        for entry in entries {
            at += 1;
            out.clear();
            run_named(self, entry, &entries[at..], &mut out, steps)?;
            matched = match_records(alloc, entries, matched, out.as_slice())?;
        }
        if matched < entries.len() {
            let missing = first_missing(alloc, entries, matched)?;
            return Err(RebuildError::Differs(missing));
        }
        Ok(())
    }
}
