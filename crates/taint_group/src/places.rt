// Members by number.
ghost use Rattle.std.specs.Prelude.{◌≡◌, ◌≢◌, ◌≤◌, ℕ, length, OnOk, Some};
ghost use Rattle.parts_model.specs.Numbered.{nth};
ghost use Rattle.taint_group.specs.Moves.{Places};

use arn_base::NoMemory;
use taint_members::MemberSets;

/// A value is in the place of another, whatever they are.
pub fn put<T: Drop>(place: &mut T, value: T)
    ensures { place.new ≡ value }
{
    *place = value;
}

/// There are so many numbers at least, and the same values.
fn grow<T: Drop>(values: &mut Vec<Option<T>>, count: usize) -> Result<(), NoMemory>
    ensures same { OnOk result ((p : ℕ) → nth values.new.items p ≡ nth values.old.items p) }
    ensures count { OnOk result (count ≤ length values.new.items) }
{
    for _ in values.len()..count {
        values.push(None)?;
    }
    Ok(())
}

/// A value begins at a number, whatever it is.
fn place_value<T: Drop>(values: &mut Vec<Option<T>>, number: u32, value: T) -> Result<(), NoMemory>
    ensures one { OnOk result (nth values.new.items number ≡ Some value) }
    ensures others { OnOk result
        ((p : ℕ) → p ≢ number → nth values.new.items p ≡ nth values.old.items p) }
{
    let place = number as usize;
    grow(values, place + 1)?;
    values[place] = Some(value);
    Ok(())
}

/// A member begins at a number.
pub fn place(
    members: &mut Vec<Option<MemberSets>>,
    pid: u32,
    member: MemberSets,
) -> Result<(), NoMemory>
    ensures { OnOk result (Places pid member members.old.items members.new.items) }
{
    place_value(members, pid, member)
}
