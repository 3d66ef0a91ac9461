// Bytes, put into a sink.
ghost use Rattle.std.specs.Prelude.{◌≡◌, ◌++◌, ℕ, OnOk, IfErr, option_map};
ghost use Rattle.arn_base.specs.Faults.{NeverFalls};
ghost use Rattle.session_effects.specs.Printing.{StopsPut};
ghost use Rattle.session_effects.specs.Standing.{IsCause};

use crate::halt::Halt;
use arn_base::Sink;

/// Puts all of the bytes.
pub fn put_all<K: Sink>(sink: &mut K, bytes: &[u8]) -> Result<(), Halt>
    ensures ok { OnOk result
        (K.holds sink.new ≡ option_map (λ held. held ++ bytes.now) (K.holds sink.old)) }
    ensures stops { IfErr result (λ halt.
        StopsPut halt bytes.now (K.holds sink.old) (K.holds sink.new)) }
    ensures cause { IfErr result (λ halt. (faults : ℕ) →
        IsCause halt faults faults (K.faults sink.old) (K.faults sink.new)) }
    ensures faults { NeverFalls (K.faults sink.old) (K.faults sink.new) }
{
    let mut rest = bytes;
    while !rest.is_empty() {
        let count = sink.put(rest)?;
        rest = &rest[count..];
    }
    Ok(())
}
