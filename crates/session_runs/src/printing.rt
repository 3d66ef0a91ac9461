// The line at the end of a run, put into a sink.
ghost use Rattle.std.specs.Prelude.{◌≡◌, ◌++◌, ℕ, OnOk, IfErr, option_map};
ghost use Rattle.arn_base.specs.Faults.{NeverFalls};
ghost use Rattle.arn_lines.specs.Texts.{ran_text};
ghost use Rattle.session_effects.specs.Printing.{StopsPut};
ghost use Rattle.session_effects.specs.Standing.{IsCause};

use arn_base::Sink;
use arn_lines::{RunEnd, push_ran};
use session_effects::{Halt, put_all};

/// Prints `ran K END`.
pub fn print_ran<K: Sink>(
    text: &mut String,
    ran: u64,
    end: RunEnd,
    sink: &mut K,
) -> Result<(), Halt>
    ensures ok { OnOk result (K.holds sink.new ≡
        option_map (λ held. held ++ ran_text ran end) (K.holds sink.old)) }
    ensures stops { IfErr result (λ halt.
        StopsPut halt (ran_text ran end) (K.holds sink.old) (K.holds sink.new)) }
    ensures cause { IfErr result (λ halt. (faults : ℕ) →
        IsCause halt faults faults (K.faults sink.old) (K.faults sink.new)) }
    ensures faults { NeverFalls (K.faults sink.old) (K.faults sink.new) }
{
    text.clear();
    push_ran(text, ran, end)?;
    put_all(sink, text.as_bytes())
}
