// What the words say.
ghost use Rattle.std.specs.Prelude.{◌≡◌, ◌↔◌, IsTrue, IfOk, IsErrOf, OnOk, Some, string_bytes};
ghost use Rattle.arn_words.specs.Words.{AreAccepted, AskForRandom, log_in, round_in, seed_in};
ghost use Rattle.arn_words.specs.declared.options.WordsError.TheVariants as why;
ghost use Rattle.clap.specs.Words.{kind_of};
ghost use Rattle.clap.specs.declared.error.kind.ErrorKind.TheVariants as kind;

use crate::command::command;
use clap::ArgMatches;
use clap::error::ErrorKind;
use std::alloc::{AllocError, Global};
use thiserror::Error;

/// What the words say.
#[derive(Drop)]
pub struct Options {
    /// The name of the file of the log.
    pub log: String,
    /// How many instructions each process runs in its turn.
    pub round: u32,
    /// The seed of what is chosen at random.
    pub seed: u64,
    /// Whether processes run at random, and not in turn.
    pub random: bool,
}

/// Why the words say nothing.
#[derive(Clone, Copy, Debug, PartialEq, Eq, Error)]
pub enum WordsError {
    #[error("the words aren't accepted")]
    Usage,
    #[error("out of memory")]
    NoMemory,
}

impl From<AllocError> for WordsError {
    ghost from_gives = { λ _ error. error ≡ why.NoMemory };

    fn from(_error: AllocError) -> WordsError {
        WordsError::NoMemory
    }
}

impl From<clap::Error> for WordsError {
    ghost from_gives = { λ fault error. (error ≡ why.NoMemory) ↔
        (kind_of fault ≡ kind.OutOfMemory) };

    fn from(fault: clap::Error) -> WordsError {
        match fault.kind() {
            ErrorKind::OutOfMemory => WordsError::NoMemory,
            _ => WordsError::Usage,
        }
    }
}

/// Reads the words.
#[tactic(auto, unfolding(crate::specs::Words::AreAcceptedTexts))]
pub fn read_words(alloc: Global, words: &[String]) -> Result<Options, WordsError>
    ensures accepted { OnOk result (AreAccepted words.now) }
    ensures log { IfOk result (λ options. log_in words.now ≡ Some (string_bytes options.log)) }
    ensures round { IfOk result (λ options. round_in words.now ≡ Some options.round) }
    ensures seed { IfOk result (λ options. seed_in words.now ≡ Some options.seed) }
    ensures random { IfOk result (λ options. IsTrue options.random ↔ AskForRandom words.now) }
    ensures usage { IsErrOf result WordsError.Usage → ¬ AreAccepted words.now }
{
    let matches = command(alloc)?.try_get_matches_from(words)?;
    let log = String::from_str(alloc, matches.get_str("LOG").unwrap())?;
    Ok(Options {
        log,
        round: matches.get_one::<u32>("round").unwrap(),
        seed: matches.get_one::<u64>("seed").unwrap(),
        random: matches.get_one::<bool>("random").unwrap_or(false),
    })
}
