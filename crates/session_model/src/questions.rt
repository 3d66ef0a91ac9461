// Who answers questions about a history.
ghost use Rattle.std.specs.Prelude.{◌≡◌, ◌+◌, ◌≤◌, ◌++◌, All, List, OnOk, length, string_bytes, take};
ghost use Rattle.arn_base.specs.declared.records.Record.{Record};
ghost use Rattle.log_model.specs.Records.{IsRun};
ghost use Rattle.log_store.specs.Log.{spellings};
ghost use Rattle.log_store.specs.declared.size.TheConstants.{MOST_LOG};
ghost use Rattle.result_log.specs.Spelling.{HasSpelling};
ghost use Rattle.session_model.specs.Questions.{Told};

use arn_base::{NoMemory, Record, Steps};
use arn_lines::Question;
use std::sync::ledger::Ledger;

/// Answers questions about a history from its records, and from what is kept beside them.
pub trait Questions {
    /// What is printed for a question on a history, and what it costs.
    ghost told: { Told };

    /// What is kept belongs to this history.
    ghost knows: { Self → List Record → Type 0 };

    /// Takes the records from one on, where it knows those before it.
    fn extend(&mut self, entries: &[Record], from: usize) -> Result<(), NoMemory>
        requires inside { from ≤ length entries.now }
        requires run { IsRun entries.now }
        requires fits { length (spellings entries.now) ≤ MOST_LOG }
        requires known { knows self.old (take from entries.now) }
        ensures { OnOk result (knows self.new entries.now) };

    /// Puts the answer to a question behind a text.
    fn answer<L: Ledger>(
        &mut self,
        entries: &[Record],
        question: &Question,
        text: &mut String,
        steps: &mut Steps<L>,
    ) -> Result<(), NoMemory>
        requires fits { length (spellings entries.now) ≤ MOST_LOG }
        requires spelled { All HasSpelling entries.now }
        requires known { knows self.old entries.now }
        ensures known { OnOk result (knows self.new entries.now) }
        ensures text { OnOk result (string_bytes text.new ≡
            string_bytes text.old ++ told.text entries.now question.now) }
        ensures steps { steps.new ≤ steps.old + told.cost entries.now question.now };

    /// Puts behind a text what the generator did with so many processes.
    fn generated<L: Ledger>(
        &mut self,
        entries: &[Record],
        processes: u64,
        text: &mut String,
        steps: &mut Steps<L>,
    ) -> Result<(), NoMemory>
        requires fits { length (spellings entries.now) ≤ MOST_LOG }
        requires spelled { All HasSpelling entries.now }
        requires known { knows self.old entries.now }
        ensures known { OnOk result (knows self.new entries.now) }
        ensures text { OnOk result (string_bytes text.new ≡
            string_bytes text.old ++ told.generated entries.now processes) }
        ensures steps { steps.new ≤ steps.old + told.generated_cost entries.now };
}
