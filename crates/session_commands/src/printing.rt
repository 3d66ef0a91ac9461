// Text, put into a sink.
ghost use Rattle.std.specs.Prelude.{◌≡◌, ◌++◌, ℕ, OnOk, IfErr, option_map};
ghost use Rattle.arn_base.specs.Faults.{NeverFalls};
ghost use Rattle.arn_lines.specs.Texts.{event_text, refusal_text};
ghost use Rattle.session_effects.specs.Printing.{StopsPut};
ghost use Rattle.session_effects.specs.Standing.{IsCause};

use arn_base::Sink;
use arn_lines::{Refusal, push_event, push_refusal};
use session_effects::{Halt, put_all};

/// Prints `event E`.
pub fn print_event<K: Sink>(text: &mut String, event: u64, sink: &mut K) -> Result<(), Halt>
    ensures ok { OnOk result (K.holds sink.new ≡
        option_map (λ held. held ++ event_text event) (K.holds sink.old)) }
    ensures stops { IfErr result (λ halt.
        StopsPut halt (event_text event) (K.holds sink.old) (K.holds sink.new)) }
    ensures cause { IfErr result (λ halt. (faults : ℕ) →
        IsCause halt faults faults (K.faults sink.old) (K.faults sink.new)) }
    ensures faults { NeverFalls (K.faults sink.old) (K.faults sink.new) }
{
    text.clear();
    push_event(text, event)?;
    put_all(sink, text.as_bytes())
}

/// Prints why a line is refused.
pub fn print_refusal<K: Sink>(text: &mut String, why: Refusal, sink: &mut K) -> Result<(), Halt>
    ensures ok { OnOk result (K.holds sink.new ≡
        option_map (λ held. held ++ refusal_text why) (K.holds sink.old)) }
    ensures stops { IfErr result (λ halt.
        StopsPut halt (refusal_text why) (K.holds sink.old) (K.holds sink.new)) }
    ensures cause { IfErr result (λ halt. (faults : ℕ) →
        IsCause halt faults faults (K.faults sink.old) (K.faults sink.new)) }
    ensures faults { NeverFalls (K.faults sink.old) (K.faults sink.new) }
{
    text.clear();
    push_refusal(text, why)?;
    put_all(sink, text.as_bytes())
}
