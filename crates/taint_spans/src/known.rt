// What is remembered by place: a number that isn't 0, or 0 where there is none.
ghost use Rattle.std.specs.Prelude.{◌≡◌, ◌⊎◌, ◌<◌, ℕ, IfOk, IfSome, OnOk, length, slice_index};

use arn_base::NoMemory;

/// What is remembered at a place, if anything is.
#[inline(always)]
pub fn known(numbers: &[u32], place: usize) -> Option<u32>
    ensures { IfSome result (λ number. (number ≡ slice_index numbers.now place) × (0 < number)) }
{
    let number = *numbers.get(place)?;
    if number > 0 { Some(number) } else { None }
}

/// Makes room up to a place. What is remembered stays.
fn make_room(numbers: &mut Vec<u32>, place: usize) -> Result<(), NoMemory>
    ensures room { OnOk result (place < length numbers.new.items) }
    ensures same { (k : ℕ) → slice_index numbers.new.items k ≡ slice_index numbers.old.items k }
{
    if place >= numbers.len() {
        numbers.resize(place.checked_add(1).ok_or(NoMemory)?, 0)?;
    }
    Ok(())
}

/// Remembers a number at a place, if there is memory for so many, and gives it. All else stays.
pub fn remember(numbers: &mut Vec<u32>, place: usize, number: u32) -> Result<u32, NoMemory>
    ensures number { IfOk result (λ same. same ≡ number) }
    ensures kept { (k : ℕ) → (slice_index numbers.new.items k ≡ slice_index numbers.old.items k)
        ⊎ ((k ≡ place) × (slice_index numbers.new.items k ≡ number)) }
{
    make_room(numbers, place)?;
    numbers[place] = number;
    Ok(number)
}
