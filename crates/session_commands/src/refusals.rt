// Why lines are refused.
ghost use Rattle.std.specs.Prelude.{◌≡◌, option_map};
ghost use Rattle.session_commands.specs.Refusals.{boot_refusal, bring_refusal, can_unplug, early_refusal, fault_refusal, file_refusal, generator_refusal, is_there, refused_if, unplug_refusal};

use crate::names::{brought, is_booted, is_gone, may_bring};
use arn_base::Record;
use arn_lines::Refusal;
use guest_devices::Plugs;
use guest_image::parse;

fn refused_if(refused: bool, why: Refusal) -> Option<Refusal>
    ensures { result ≡ refused_if refused why }
{
    if refused { Some(why) } else { None }
}

/// Why a file is refused that is brought under this name, if it is.
pub fn bring_refusal(entries: &[Record], name: &[u8]) -> Option<Refusal>
    ensures { result ≡ bring_refusal entries.now name.now }
{
    if is_booted(entries) {
        return Some(Refusal::NoBooted);
    }
    refused_if(!may_bring(entries, name), Refusal::NoName)
}

// Why a boot from these bytes is refused, if it is.
fn file_refusal(file: Option<&[u8]>) -> Option<Refusal>
    ensures { result ≡ file_refusal (option_map (λ bytes. bytes.now) file.entry) }
{
    match file {
        None => Some(Refusal::NoName),
        Some(bytes) => refused_if(parse(bytes).is_err(), Refusal::NoImage),
    }
}

/// Why a boot from the file of this name is refused, if it is.
pub fn boot_refusal(entries: &[Record], name: &[u8]) -> Option<Refusal>
    ensures { result ≡ boot_refusal entries.now name.now }
{
    if is_booted(entries) {
        return Some(Refusal::NoBooted);
    }
    file_refusal(brought(entries, name))
}

/// Why something is refused that comes behind the boot alone, if it is.
pub fn early_refusal(entries: &[Record]) -> Option<Refusal>
    ensures { result ≡ early_refusal entries.now }
{
    refused_if(!is_booted(entries), Refusal::NoBoot)
}

// Whether a device is there, whose number has 32 bits.
fn is_there<A: Plugs>(answers: &A, device: u64) -> bool
    ensures { result ≡ is_there (A.filled answers.now) device }
{
    if device >= 1 << 32 {
        return false;
    }
    answers.is_filled(device as u32)
}

// Whether a device is there that the history didn't unplug.
fn can_unplug<A: Plugs>(entries: &[Record], device: u64, answers: &A) -> bool
    ensures { result ≡ can_unplug (A.filled answers.now) entries.now device }
{
    is_there(answers, device) && !is_gone(entries, device)
}

/// Why a device isn't unplugged, if so.
pub fn unplug_refusal<A: Plugs>(entries: &[Record], device: u64, answers: &A) -> Option<Refusal>
    ensures { result ≡ unplug_refusal (A.filled answers.now) entries.now device }
{
    if !is_booted(entries) {
        return Some(Refusal::NoBoot);
    }
    refused_if(!can_unplug(entries, device, answers), Refusal::NoDevice)
}

/// Why a block is refused whose program has a fault on this line.
pub fn fault_refusal(entries: &[Record], at: u64) -> Refusal
    ensures { result ≡ fault_refusal entries.now at }
{
    if is_booted(entries) {
        Refusal::NoBooted
    } else {
        Refusal::NoAsm { line: at }
    }
}

/// Why the generator is refused, if it is.
pub fn generator_refusal(entries: &[Record]) -> Option<Refusal>
    ensures { result ≡ generator_refusal entries.now }
{
    bring_refusal(entries, b"gen")
}
