// Whether records are a run's.
ghost use Rattle.std.specs.Prelude.{◌≡◌, ◌+◌, ◌≤◌, ◌++◌, All, IfOk, OnErr, OnOk};
ghost use Rattle.std.specs.String.{string_bytes};
ghost use Rattle.guest_machine.specs.Again.{rebuild_cost};
ghost use Rattle.result_log.specs.Spelling.{HasSpelling};
ghost use Rattle.session_questions.specs.Verify.{difference, verify_text, VerifiesRuns};

use arn_base::{Differs, NoMemory, Record, Steps};
use guest_machine::{Machine, RebuildError, records_compare};
use report_texts::push_verify;
use std::alloc::Global;
use std::sync::ledger::Ledger;

/// That records are a run's is said of a run's records, and of no others.
pub fn verify_tells_runs()
    ensures { VerifiesRuns }
{
    records_compare();
}

// Where records first differ from those of the inputs that they name, if they do: by running these inputs
// again, in which no device is asked.
fn find_difference<L: Ledger>(
    alloc: Global,
    entries: &[Record],
    steps: &mut Steps<L>,
) -> Result<Option<Differs>, NoMemory>
    requires spelled { All HasSpelling entries.now }
    ensures found { IfOk result (λ found. found ≡ difference entries.now) }
    ensures steps { steps.new ≤ steps.old + rebuild_cost entries.now }
{
    records_compare();
    match Machine::rebuild(alloc, entries, steps).err() {
        None => Ok(None),
        Some(RebuildError::Differs(differs)) => Ok(Some(differs)),
        Some(RebuildError::NoMemory) => Err(NoMemory),
    }
}

/// Appends whether records are those of the inputs that they name, or else where they differ.
pub fn report_verify<L: Ledger>(
    text: &mut String,
    entries: &[Record],
    steps: &mut Steps<L>,
) -> Result<(), NoMemory>
    requires spelled { All HasSpelling entries.now }
    ensures ok { OnOk result
        (string_bytes text.new ≡ string_bytes text.old ++ verify_text entries.now) }
    ensures err { OnErr result (string_bytes text.new ≡ string_bytes text.old) }
    ensures steps { steps.new ≤ steps.old + rebuild_cost entries.now }
{
    let differs = find_difference(*text.allocator(), entries, steps)?;
    push_verify(text, differs)
}
