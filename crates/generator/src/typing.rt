// The bytes that the generator types.
ghost use Rattle.std.specs.Prelude.{◌≡◌, length, IfOk};
ghost use Rattle.generator.specs.Typed.{typed_bytes};

use arn_base::NoMemory;
use rand_core::utils::fill_bytes_via_u32;
use rand_pcg::Lcg64Xsh32;
use std::alloc::Global;

/// How many bytes are typed.
pub const MANY_TYPED: usize = 4_096;

/// The bytes that are typed, by the seed.
pub fn typed(alloc: Global, seed: u64) -> Result<Vec<u8>, NoMemory>
    ensures bytes { IfOk result (λ bytes. bytes.items ≡ typed_bytes seed) }
    ensures many { IfOk result (λ bytes. length bytes.items ≡ MANY_TYPED) }
{
    let mut bytes = vec![in alloc; 0; MANY_TYPED]?;
    fill_bytes_via_u32(&mut Lcg64Xsh32::new(seed, 1), bytes.as_mut_slice());
    Ok(bytes)
}
