// Questions about a history.
ghost use Rattle.std.specs.Prelude.{◌≤◌, IfErr, IfOk, length};
ghost use Rattle.history_index.specs.Errors.{TellsBroken};
ghost use Rattle.log_store.specs.Log.{spellings};
ghost use Rattle.log_store.specs.declared.size.TheConstants.{MOST_LOG};
ghost use Rattle.session_questions.specs.Knows.{Knows};
ghost use Rattle.session_questions.specs.Texts as texts;

use crate::short::{short_logs_are_countable, short_runs_stand};
use crate::sinks::EventBytes;
use crate::verify::report_verify;
use arn_base::{NoMemory, Record, Steps};
use arn_lines::Question;
use history_index::{Index, IndexError};
use query_engine::{Engine, seen_stays};
use session_model::Questions;
use session_reports::{report_events, report_groups};
use std::alloc::Global;
use std::sync::ledger::Ledger;

/// Of how many groups what followed them is kept between questions, each under one linkage.
pub const KEEP: u32 = 8;

/// Answers questions about a history from its records, from an index of them, and from what followed groups
/// for the questions before.
#[derive(Drop)]
pub struct Asking {
    pub(crate) index: Index,
    pub(crate) engine: Engine,
}

impl Asking {
    /// Takes the records of a log.
    pub fn new(alloc: Global, entries: &[Record]) -> Result<Asking, IndexError>
        requires fits { length (spellings entries.now) ≤ MOST_LOG }
        ensures known { IfOk result (λ asking. Knows asking entries.now) }
        ensures broken { IfErr result (TellsBroken entries.now) }
    {
        short_logs_are_countable();
        let index = Index::build(alloc, entries)?;
        let engine = Engine::new(alloc, KEEP)?;
        Ok(Asking { index, engine })
    }
}

impl Questions for Asking {
    ghost told = { texts.told };

    ghost knows = { Knows };

    fn extend(&mut self, entries: &[Record], from: usize) -> Result<(), NoMemory> {
        short_logs_are_countable();
        short_runs_stand();
        seen_stays();
        match self.index.extend(entries, from) {
            Ok(()) => Ok(()),
            Err(IndexError::NoMemory) => Err(NoMemory),
            Err(IndexError::Broken { .. }) => unreachable!(),
        }
    }

    fn answer<L: Ledger>(
        &mut self,
        entries: &[Record],
        question: &Question,
        text: &mut String,
        steps: &mut Steps<L>,
    ) -> Result<(), NoMemory> {
        short_logs_are_countable();
        match question {
            Question::Back { linkage, sought } => {
                self.sources(entries, *linkage, sought, text, steps)
            }
            Question::Show { moment, aspect } => self.show(entries, *moment, aspect, text, steps),
            Question::Forth {
                linkage,
                event,
                from,
                len,
            } => {
                let bytes = EventBytes {
                    event: *event,
                    from: *from,
                    len: *len,
                };
                self.sinks(entries, *linkage, bytes, text, steps)
            }
            Question::Groups => report_groups(text, &self.index),
            Question::Events => report_events(text, entries, &self.index),
            Question::Verify => report_verify(text, entries, steps),
        }
    }

    fn generated<L: Ledger>(
        &mut self,
        entries: &[Record],
        processes: u64,
        text: &mut String,
        steps: &mut Steps<L>,
    ) -> Result<(), NoMemory> {
        self.generator(entries, processes, text, steps)
    }
}
