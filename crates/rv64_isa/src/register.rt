ghost use Rattle.std.specs.Prelude.{◌≡◌, ◌<◌, ◌↔◌, IsSome, IfSome};

use std::marker::Model;

/// One of the registers x0 to x31, by its number.
///
/// x0 always reads as 0, and what is written to it is lost.
#[derive(Clone, Copy, Debug, PartialEq, Eq)]
pub struct Reg {
    number: u32,
}

impl Model for Reg {
    ghost use Rattle.std.specs.Prelude.{ℕ, ◌<◌};

    ghost Value = { ℕ };

    ghost view = { λ r. r.number };

    ghost invariant = { λ r. r.number < 32 };

    ghost inverse = { λ n. record { number = n } };
}

impl Reg {
    /// The register with this number.
    pub fn new(n: u8) -> Option<Reg>
        ensures valid { IsSome result ↔ (n < 32) }
        ensures number { IfSome result (λ reg. reg ≡ n) }
    {
        if n < 32 {
            Some(Reg {
                number: u32::from(n),
            })
        } else {
            None
        }
    }

    /// The register that a field of five bits names.
    #[inline(always)]
    pub(crate) fn from_field(field: u32) -> Reg
        requires { field < 32 }
        ensures { result ≡ field }
    {
        Reg { number: field }
    }

    /// From 0 to 31.
    #[inline(always)]
    pub fn number(&self) -> u8
        ensures number { result ≡ self.now }
        ensures below { result < 32 }
    {
        self.number as u8
    }
}
