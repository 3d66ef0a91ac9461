// Which bytes that went out others reach.
ghost use Rattle.std.specs.Prelude.{◌≡◌, ◌+◌, ◌≤◌, ◌++◌, OnOk, string_bytes};
ghost use Rattle.history_index.specs.Indexes.{AreCountable};
ghost use Rattle.rv64_model.specs.Carries.{operands};
ghost use Rattle.session_questions.specs.Knows.{Knows};
ghost use Rattle.session_questions.specs.Texts.{forth_telling, reached_text};

use crate::Asking;
use crate::sources::push_pairs;
use arn_base::{NoMemory, Record, Steps};
use arn_lines::{Refusal, push_forth, push_refusal};
use query_engine::Answer;
use rv64_model::Linkage;
use session_reports::push_error;
use std::sync::ledger::Ledger;

/// Bytes of an event.
#[derive(Clone, Copy)]
pub(crate) struct EventBytes {
    pub event: u64,
    pub from: u64,
    pub len: u64,
}

// Appends what is answered: the pairs, and the line that counts them.
fn push_reached(text: &mut String, answer: &Answer) -> Result<(), NoMemory>
    ensures { OnOk result (string_bytes text.new ≡ string_bytes text.old
        ++ reached_text answer.now.pairs answer.now.instructions answer.now.groups) }
{
    push_pairs(text, answer.pairs.as_slice())?;
    push_forth(
        text,
        answer.pairs.len() as u64,
        answer.instructions.into(),
        answer.groups.as_slice(),
    )
}

impl Asking {
    // Appends the answer to which bytes that went out bytes of an event reach.
    #[tactic(auto, using(crate::proofs::Ranges::far_away))]
    pub(crate) fn sinks<L: Ledger>(
        &mut self,
        entries: &[Record],
        linkage: Linkage,
        bytes: EventBytes,
        text: &mut String,
        steps: &mut Steps<L>,
    ) -> Result<(), NoMemory>
        requires countable { AreCountable entries.now }
        requires known { Knows self.old entries.now }
        ensures known { Knows self.new entries.now }
        ensures text { OnOk result (string_bytes text.new ≡ string_bytes text.old
            ++ (forth_telling (operands linkage) entries.now
            bytes.event bytes.from bytes.len).text) }
        ensures steps { steps.new ≤ steps.old
            + (forth_telling (operands linkage) entries.now bytes.event bytes.from bytes.len).cost }
    {
        let Ok(from) = u32::try_from(bytes.from) else {
            return push_refusal(text, Refusal::NoPoint);
        };
        let Ok(len) = u32::try_from(bytes.len) else {
            return push_refusal(text, Refusal::NoPoint);
        };
        match self.engine.forth(entries, &self.index, linkage, bytes.event, from, len, steps) {
            Ok(answer) => {
                let pushed = push_reached(text, &answer);
                drop(answer);
                pushed
            }
            Err(error) => push_error(text, error),
        }
    }
}
