// What the generator did.
ghost use Rattle.std.specs.Prelude.{◌≡◌, ◌+◌, ◌≤◌, ◌++◌, IfErr, IfOk, OnOk, length, string_bytes};
ghost use Rattle.generator.specs.Sums.{written_by};
ghost use Rattle.history_index.specs.Indexes.{AreCountable};
ghost use Rattle.log_store.specs.Log.{spellings};
ghost use Rattle.log_store.specs.declared.size.TheConstants.{MOST_LOG};
ghost use Rattle.session_questions.specs.Counting.{AreAnswered, IsRefused};
ghost use Rattle.session_questions.specs.Knows.{Knows};
ghost use Rattle.session_questions.specs.Generated.{writes_cost, generated_cost, generated_text, write_of, writes};

use crate::Asking;
use crate::short::short_logs_are_countable;
use crate::targets::event_target;
use acts_model::is_event;
use arn_base::{NoMemory, Record, Steps};
use generator::{push_gen, written_by, written_sum};
use query_engine::{Answer, QueryError};
use rv64_model::Linkage;
use session_reports::push_error;
use std::sync::ledger::Ledger;

// How many pairs answer.
fn pair_count(answer: Answer) -> u64
    ensures { result ≡ length answer.pairs }
{
    answer.pairs.len() as u64
}

impl Asking {
    // How many pairs say where the bytes come from that an event wrote to the console. One that wrote
    // none isn't asked.
    fn write_pairs<L: Ledger>(
        &mut self,
        entries: &[Record],
        event: u64,
        entry: &Record,
        steps: &mut Steps<L>,
    ) -> Result<u64, QueryError>
        requires countable { AreCountable entries.now }
        requires known { Knows self.old entries.now }
        ensures known { Knows self.new entries.now }
        ensures ok { IfOk result (AreAnswered entries.now (write_of event (written_by entry.now))) }
        ensures err { IfErr result (IsRefused entries.now (write_of event (written_by entry.now))) }
        ensures steps { steps.new ≤
            steps.old + writes_cost entries.now (write_of event (written_by entry.now)) }
    {
        let len = written_by(entry).len() as u64;
        if len == 0 {
            return Ok(0);
        }
        let Some(target) = event_target(entries, event, 0, len) else {
            return Err(QueryError::NoPoint);
        };
        let answered = self
            .engine
            .back(entries, &self.index, Linkage::Data, &target, steps);
        drop(target);
        Ok(pair_count(answered?))
    }

    // How many say so of all writes.
    fn all_pairs<L: Ledger>(
        &mut self,
        entries: &[Record],
        steps: &mut Steps<L>,
    ) -> Result<u128, QueryError>
        requires countable { AreCountable entries.now }
        requires known { Knows self.old entries.now }
        ensures known { Knows self.new entries.now }
        ensures ok { IfOk result (AreAnswered entries.now (writes entries.now)) }
        ensures err { IfErr result (IsRefused entries.now (writes entries.now)) }
        ensures steps { steps.new ≤ steps.old + generated_cost entries.now }
    {
        let mut event = 0;
        let mut pairs = 0;
        for entry in entries {
            if is_event(entry) {
                pairs += u128::from(self.write_pairs(entries, event, entry, steps)?);
                event += 1;
            }
        }
        Ok(pairs)
    }

    // Appends what the generator did, as its writes to the console and their sources tell.
    #[tactic(auto, using(crate::proofs::Spelled::few_written))]
    pub(crate) fn generator<L: Ledger>(
        &mut self,
        entries: &[Record],
        processes: u64,
        text: &mut String,
        steps: &mut Steps<L>,
    ) -> Result<(), NoMemory>
        requires fits { length (spellings entries.now) ≤ MOST_LOG }
        requires known { Knows self.old entries.now }
        ensures known { Knows self.new entries.now }
        ensures text { OnOk result (string_bytes text.new ≡
            string_bytes text.old ++ generated_text entries.now processes) }
        ensures steps { steps.new ≤ steps.old + generated_cost entries.now }
    {
        short_logs_are_countable();
        match self.all_pairs(entries, steps) {
            Ok(pairs) => push_gen(text, processes, written_sum(entries), pairs),
            Err(error) => push_error(text, error),
        }
    }
}
