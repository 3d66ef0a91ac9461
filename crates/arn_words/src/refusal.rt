// What is wrong with words that aren't accepted.
ghost use Rattle.std.specs.Prelude.{IfOk, IfNone, IfSome};
ghost use Rattle.arn_words.specs.Words.{AreAccepted};

use crate::command::command;
use clap::error::ErrorKind;
use std::alloc::{AllocError, Global};

// What a fault tells, without its title and the usage behind it.
fn cause(fault: &str) -> &str {
    let told = fault.strip_prefix("error: ").unwrap_or(fault);
    match told.split_once("\n\nUsage: ") {
        Some((cause, _)) => cause,
        None => told.trim_end(),
    }
}

/// What is wrong with words that aren't accepted, and which words there are.
#[tactic(auto, unfolding(crate::specs::Words::AreAcceptedTexts))]
pub fn refusal_text(alloc: Global, words: &[String]) -> Result<Option<String>, AllocError>
    ensures none { IfOk result (λ text. IfNone text (AreAccepted words.now)) }
    ensures some { IfOk result (λ text. IfSome text (λ _. ¬ AreAccepted words.now)) }
{
    let mut command = command(alloc)?;
    let fault = match command.try_get_matches_from_mut(words) {
        Ok(_) => return Ok(None),
        Err(fault) => fault,
    };
    if fault.kind() == ErrorKind::OutOfMemory {
        return Err(AllocError);
    }
    let told = fault.to_string(alloc)?;
    let help = command.render_help()?;
    let cause = cause(told.as_str());
    Ok(Some(format!(in alloc; "{cause}\n\n{help}")?))
}
