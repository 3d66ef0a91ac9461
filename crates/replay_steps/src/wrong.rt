// Where a record can't be what a process did.
ghost use Rattle.std.specs.Prelude.{◌≡◌, ℕ, IfOk, option_map};
ghost use Rattle.acts_model.specs.Acts.{Starts};
ghost use Rattle.acts_model.specs.Deeds.{deed_as};
ghost use Rattle.acts_model.specs.Disagreement as disagreement;
ghost use Rattle.arn_base.specs.declared.records.Extra.TheVariants as extra;
ghost use Rattle.guest_bodies.specs.Shown.{IsLive};
ghost use Rattle.rv64_core.specs.Prospect.{Foretells};
ghost use Rattle.rv64_model.specs.Instruction.{Effect};
ghost use Rattle.replay_steps.specs.Calls.{OfSeen, wrong_as};

use crate::Disagrees;
use acts_model::{Deed, call_deed, call_number};
use arn_base::{Bytes, Cpu, Extra, NoMemory};
use guest_bodies::Bodies;
use guest_image::parse;
use parts_model::limits::MOST_BLOCK_BYTES;
use parts_model::refusals::BAD_ARGUMENT;
use rv64_core::Prospect;

/// What a record says, and what is found in its place.
#[derive(Clone, Copy)]
pub struct Finding {
    pub said: u64,
    pub found: u64,
}

impl Finding {
    /// The disagreement of the record of an event.
    pub fn at(self, event: u64) -> Disagrees
        ensures { result ≡ record { event = event; said = self.said; found = self.found } }
    {
        Disagrees {
            event,
            said: self.said,
            found: self.found,
        }
    }
}

// Nothing of this sort is found: 256 stands for no byte and no status.
pub const NO_BYTE: u64 = 256;

// It stands for no call.
pub const NO_CALL: u64 = u64::MAX;

fn found_if(test: bool, said: u64, found: u64) -> Option<Finding>
    ensures { option_map wrong_as result ≡ disagreement.wrong_if test said found }
{
    test.then_some(Finding { said, found })
}

fn isnt_call(prospect: Prospect, number: u64) -> Option<Finding>
    ensures { (cpu : Cpu) → (effect : Effect) → Foretells prospect cpu effect →
        option_map wrong_as result ≡ disagreement.isnt_call effect number }
{
    found_if(prospect != Prospect::Call, number, NO_CALL)
}

fn is_other_call(cpu: &Cpu, number: u64) -> Option<Finding>
    ensures { option_map wrong_as result ≡ disagreement.is_other_call cpu.now number }
{
    let found = call_number(cpu);
    found_if(number != found, number, found)
}

fn first_difference(said: &[u8], found: &[u8]) -> Option<Finding>
    ensures { option_map wrong_as result ≡ disagreement.first_difference said.now found.now }
{
    for (place, byte) in said.iter().enumerate() {
        let other = found.get(place)?;
        if byte != other {
            return Some(Finding {
                said: u64::from(*byte),
                found: u64::from(*other),
            });
        }
    }
    None
}

fn differ_from(said: &[u8], found: &Option<Bytes>) -> Option<Finding>
    ensures { option_map wrong_as result ≡ disagreement.differ_from said.now found.now }
{
    match found {
        Some(found) => first_difference(said, found.as_slice()),
        None => {
            let first = said.first()?;
            Some(Finding {
                said: u64::from(*first),
                found: NO_BYTE,
            })
        }
    }
}

fn is_outside(bodies: &Bodies, pid: u32, at: u64, len: u64) -> bool
    requires live { IsLive bodies.now pid }
    ensures { OfSeen bodies.now pid (λ v.
        result ≡ disagreement.is_outside v at len) }
{
    len > 0 && !bodies.can_reach(pid, at, len)
}

fn unreached(bodies: &Bodies, pid: u32, at: u64, len: u64, said: u64) -> Option<Finding>
    requires live { IsLive bodies.now pid }
    ensures { OfSeen bodies.now pid (λ v. option_map wrong_as result ≡
        disagreement.wrong_if (disagreement.is_outside v at len) said 0) }
{
    found_if(is_outside(bodies, pid, at, len), said, 0)
}

// What a write gave isn't what stands there. A write to a pipe holds no bytes.
fn given_wrong(
    bodies: &Bodies,
    pid: u32,
    at: u64,
    len: u64,
    answer: u64,
    extra: &Extra,
) -> Result<Option<Finding>, NoMemory>
    requires live { IsLive bodies.now pid }
    ensures { IfOk result (λ wrong. OfSeen bodies.now pid (λ v.
        option_map wrong_as wrong ≡ disagreement.given_wrong v at len answer extra.now)) }
{
    match extra {
        Extra::Put { bytes, .. } | Extra::Console { bytes } | Extra::Sent { bytes, .. } => {
            let found = bodies.copy(pid, at, len)?;
            Ok(differ_from(bytes.as_slice(), &found))
        }
        _ => Ok(unreached(bodies, pid, at, len, answer)),
    }
}

fn isnt_block(bodies: &Bodies, pid: u32, at: u64, len: u64) -> bool
    requires live { IsLive bodies.now pid }
    ensures { OfSeen bodies.now pid (λ v.
        result ≡ disagreement.isnt_block v at len) }
{
    len > MOST_BLOCK_BYTES || is_outside(bodies, pid, at, len)
}

// What is wrong with an image file, or else with its argument block.
fn start_wrong(bodies: &Bodies, pid: u32, file: &[u8], at: u64, len: u64) -> Option<Finding>
    requires live { IsLive bodies.now pid }
    ensures { OfSeen bodies.now pid (λ v. option_map wrong_as result ≡
        disagreement.act_wrong v (Starts file.now at len) extra.Nothing) }
{
    if parse(file).is_err() {
        return Some(Finding {
            said: file.len() as u64,
            found: 0,
        });
    }
    found_if(isnt_block(bodies, pid, at, len), len, 0)
}

// What a deed can't do.
fn deed_wrong(
    bodies: &Bodies,
    pid: u32,
    deed: &Deed<'_>,
    extra: &Extra,
) -> Result<Option<Finding>, NoMemory>
    requires live { IsLive bodies.now pid }
    ensures { IfOk result (λ wrong. OfSeen bodies.now pid (λ v.
        option_map wrong_as wrong ≡ disagreement.act_wrong v (deed_as deed.now) extra.now)) }
{
    Ok(match *deed {
        Deed::Receives { at, bytes, .. } => {
            let len = bytes.len() as u64;
            unreached(bodies, pid, at, len, len)
        }
        Deed::Gives { at, len, result } => given_wrong(bodies, pid, at, len, result, extra)?,
        Deed::Starts {
            file,
            block,
            block_len,
        } => start_wrong(bodies, pid, file, block, block_len),
        Deed::Leaves => found_if(!bodies.is_in_handler(pid), 0, BAD_ARGUMENT.wrapping_neg()),
        Deed::Returns { .. }
        | Deed::Forks { .. }
        | Deed::Founds { .. }
        | Deed::Shares
        | Deed::Delivers { .. }
        | Deed::Exits
        | Deed::Faults { .. }
        | Deed::Dies { .. } => None,
    })
}

/// What is wrong with a call's record: where the process stands, or what its act can't do.
pub fn call_wrong(
    bodies: &Bodies,
    pid: u32,
    prospect: Prospect,
    number: u64,
    answer: u64,
    extra: &Extra,
) -> Result<Option<Finding>, NoMemory>
    requires live { IsLive bodies.now pid }
    ensures { IfOk result (λ wrong. OfSeen bodies.now pid (λ v. (effect : Effect) →
        Foretells prospect v.body.cpu effect →
        option_map wrong_as wrong ≡
        disagreement.call_wrong v effect number answer extra.now)) }
{
    if let Some(finding) = isnt_call(prospect, number) {
        return Ok(Some(finding));
    }
    if let Some(finding) = is_other_call(bodies.cpu(pid), number) {
        return Ok(Some(finding));
    }
    let deed = call_deed(bodies.cpu(pid), number, answer, extra);
    deed_wrong(bodies, pid, &deed, extra)
}

/// What is wrong with the status of an end by fault.
pub fn end_wrong(prospect: Prospect, status: u8) -> Option<Finding>
    ensures { (cpu : Cpu) → (effect : Effect) → Foretells prospect cpu effect →
        option_map wrong_as result ≡ disagreement.status_wrong effect status }
{
    match prospect {
        Prospect::End(found) => found_if(status != found, u64::from(status), u64::from(found)),
        Prospect::Next(_) | Prospect::Call => found_if(true, u64::from(status), NO_BYTE),
    }
}
