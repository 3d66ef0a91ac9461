// Where bytes come from.
ghost use Rattle.std.specs.Prelude.{◌≡◌, ◌+◌, ◌≤◌, ◌++◌, OnOk, flat_map, string_bytes};
ghost use Rattle.arn_lines.specs.Texts.{pair_text};
ghost use Rattle.history_index.specs.Indexes.{AreCountable};
ghost use Rattle.session_questions.specs.Knows.{Knows};
ghost use Rattle.session_questions.specs.Texts.{answer_text, back_telling};

use crate::Asking;
use crate::targets::target_of;
use arn_base::{NoMemory, Pair, Record, Steps};
use arn_lines::{Refusal, Sought, push_back, push_pair, push_refusal};
use query_engine::Answer;
use rv64_model::Linkage;
use session_reports::push_error;
use std::sync::ledger::Ledger;

/// Appends the lines of pairs. An error leaves some of them behind the text.
pub fn push_pairs(text: &mut String, pairs: &[Pair]) -> Result<(), NoMemory>
    ensures { OnOk result
        (string_bytes text.new ≡ string_bytes text.old ++ flat_map pair_text pairs.now) }
{
    for pair in pairs {
        push_pair(text, pair)?;
    }
    Ok(())
}

// Appends what is answered: the pairs, and the line that counts them.
fn push_answer(text: &mut String, answer: &Answer) -> Result<(), NoMemory>
    ensures { OnOk result (string_bytes text.new ≡ string_bytes text.old
        ++ answer_text answer.now.pairs answer.now.instructions answer.now.groups) }
{
    push_pairs(text, answer.pairs.as_slice())?;
    push_back(
        text,
        answer.pairs.len() as u64,
        answer.instructions.into(),
        answer.groups.as_slice(),
    )
}

impl Asking {
    // Appends the answer to where bytes come from.
    pub(crate) fn sources<L: Ledger>(
        &mut self,
        entries: &[Record],
        linkage: Linkage,
        sought: &Sought,
        text: &mut String,
        steps: &mut Steps<L>,
    ) -> Result<(), NoMemory>
        requires countable { AreCountable entries.now }
        requires known { Knows self.old entries.now }
        ensures known { Knows self.new entries.now }
        ensures text { OnOk result (string_bytes text.new ≡
            string_bytes text.old ++ (back_telling entries.now linkage sought.now).text) }
        ensures steps { steps.new ≤
            steps.old + (back_telling entries.now linkage sought.now).cost }
    {
        let Some(target) = target_of(*text.allocator(), entries, &self.index, sought)? else {
            return push_refusal(text, Refusal::NoPoint);
        };
        let answered = self
            .engine
            .back(entries, &self.index, linkage, &target, steps);
        drop(target);
        match answered {
            Ok(answer) => {
                let pushed = push_answer(text, &answer);
                drop(answer);
                pushed
            }
            Err(error) => push_error(text, error),
        }
    }
}
