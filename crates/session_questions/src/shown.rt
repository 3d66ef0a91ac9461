// What the machine held at a moment.
ghost use Rattle.std.specs.Prelude.{◌≡◌, ◌+◌, ◌≤◌, ◌++◌, OnOk, string_bytes};
ghost use Rattle.history_index.specs.Indexes.{AreCountable, Indexes};
ghost use Rattle.session_questions.specs.Texts.{show_telling};

use crate::Asking;
use arn_base::{NoMemory, Record, Steps};
use arn_lines::Aspect;
use session_reports::{MemoryBytes, report_file, report_mem, report_procs, report_regs};
use std::sync::ledger::Ledger;

impl Asking {
    // Appends what is shown of a moment.
    pub(crate) fn show<L: Ledger>(
        &self,
        entries: &[Record],
        moment: u64,
        aspect: &Aspect,
        text: &mut String,
        steps: &mut Steps<L>,
    ) -> Result<(), NoMemory>
        requires countable { AreCountable entries.now }
        requires known { Indexes self.now.index entries.now }
        ensures text { OnOk result (string_bytes text.new ≡
            string_bytes text.old ++ (show_telling entries.now moment aspect.now).text) }
        ensures steps { steps.new ≤ steps.old + (show_telling entries.now moment aspect.now).cost }
    {
        match aspect {
            Aspect::Registers { pid } => {
                report_regs(text, entries, &self.index, moment, *pid, steps)
            }
            Aspect::Memory { pid, at, len } => {
                let bytes = MemoryBytes {
                    moment,
                    pid: *pid,
                    at: *at,
                    len: *len,
                };
                report_mem(text, entries, &self.index, bytes, steps)
            }
            Aspect::File { name } => {
                report_file(text, entries, &self.index, moment, name.as_slice())
            }
            Aspect::Processes => report_procs(text, entries, &self.index, moment),
        }
    }
}
