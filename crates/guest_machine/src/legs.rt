// The slices of a leg, which a chooser picks.
use crate::machine::Machine;
use arn_base::{Chooser, NoMemory, Record, Steps};
use guest_devices::Answers;
use guest_legs::{Leg, leg_end, picks_follow};
use std::sync::ledger::Ledger;

impl Machine {
    ghost use Rattle.std.specs.Prelude.{◌≡◌, ◌≤◌, ◌+◌, ◌*◌, All, IfOk, OnErr};
    ghost use Rattle.result_log.specs.Spelling.{HasSpelling};
    ghost use Rattle.guest_legs.specs.Legs.{fresh};
    ghost use Rattle.guest_machine.specs.Legs.{IsCutLeg, IsLeg};
    ghost use Rattle.guest_machine.specs.Recorded.{HasRoom, OfEach};
    ghost use Rattle.guest_legs.specs.declared.leg.TheConstants.{MOST_LEG};

    /// Runs slices that a chooser picks until no process lives, none can go on, the budget is spent,
    /// or the records' spellings have reached `MOST_LEG` bytes. Where memory runs out, what ran is
    /// recorded.
    pub fn run_leg_from<C: Chooser, A: Answers, L: Ledger>(
        &mut self,
        budget: u64,
        chooser: &mut C,
        answers: &mut A,
        out: &mut Vec<Record>,
        steps: &mut Steps<L>,
    ) -> Result<Leg, NoMemory>
        requires room { HasRoom self.old (2 * MOST_LEG) budget }

        ensures leg { IfOk result (λ leg. OfEach self.old.kernel (λ m.
            IsLeg A.answers (fresh m budget) leg self.old self.new
            (C.choices chooser.old) (C.choices chooser.new) answers.old answers.new
            out.old.items out.new.items steps.old steps.new)) }
        ensures count { IfOk result (λ leg.
            self.new.instructions ≡ self.old.instructions + leg.ran) }
        ensures within { IfOk result (λ leg. leg.ran ≤ budget) }
        ensures cut { OnErr result (OfEach self.old.kernel (λ m.
            IsCutLeg A.answers (fresh m budget) self.old self.new
            (C.choices chooser.old) (C.choices chooser.new) answers.old answers.new
            out.old.items out.new.items steps.old steps.new)) }
        ensures spelled { All HasSpelling out.old.items → All HasSpelling out.new.items }
    {
        picks_follow();
        let mut left = budget;
        let mut spelled = 0;
        loop {
            let able = self.scan();
            if let Some(end) = leg_end(self.standing(&able), left, spelled) {
                let ran = budget - left;
                return Ok(Leg { ran, end });
            }
            let pick = self.pick_slice(&able, left, chooser);
            let Ok(taken) = self.take_slice(pick.pid, pick.count, answers, out, steps) else {
                return Err(NoMemory);
            };
            left -= u64::from(taken.ran);
            spelled += taken.len;
        }
    }
}
