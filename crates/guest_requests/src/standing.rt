// Whether a process stands at a call.
ghost use Rattle.std.specs.Prelude.{◌≡◌, IfSome, length};
ghost use Rattle.arn_base.specs.Window.{number_of};
ghost use Rattle.rv64_isa.specs.Decoded.{decoded};
ghost use Rattle.acts_model.specs.Views.{stands_at};
ghost use Rattle.guest_bodies.specs.Shown.{IsLive, seen_in};
ghost use Rattle.guest_requests.specs.Standing.{is_call, is_call_instr};

use arn_base::BadAddress;
use guest_bodies::Bodies;
use rv64_isa::{Instr, decode};

/// Whether a process stands at a call.
pub(crate) fn is_at_call(bodies: &Bodies, pid: u32) -> bool
    requires { IsLive bodies.now pid }
    ensures { IfSome (seen_in bodies.now pid) (λ v. result ≡ is_call (stands_at v)) }
{
    let mut word = [0; 4];
    match bodies.read_into(pid, bodies.cpu(pid).pc, &mut word) {
        Ok(()) => is_call_word(&word),
        Err(BadAddress) => false,
    }
}

// Whether these four bytes are the word of a call.
fn is_call_word(bytes: &[u8]) -> bool
    requires { length bytes.now ≡ 4 }
    ensures { result ≡ is_call_instr (decoded (number_of bytes.now)) }
{
    decode(word(bytes)) == Some(Instr::Ecall)
}

// The word that four bytes spell, the lowest first.
fn word(bytes: &[u8]) -> u32
    requires { length bytes.now ≡ 4 }
    ensures { result ≡ number_of bytes.now }
{
    match bytes {
        [a, b, c, d] => u32::from_le_bytes([*a, *b, *c, *d]),
        _ => unreachable!(),
    }
}
