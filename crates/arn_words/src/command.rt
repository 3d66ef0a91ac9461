// The simple command as which the words are read.
ghost use Rattle.std.specs.Prelude.{◌≡◌, IfOk, false};
ghost use Rattle.clap.specs.Words.{app_of, rule_of};
ghost use Rattle.arn_words.specs.Words.{log_rule, program, random_rule, round_rule, seed_rule};

use clap::{Arg, ArgAction, Command, value_parser};
use std::alloc::{AllocError, Global};

// LOG, which has to be there.
fn log_argument<'a>(alloc: Global) -> Arg<'a>
    ensures rule { rule_of result ≡ log_rule }
    ensures local { result.global ≡ false }
{
    Arg::new(alloc, "LOG")
        .action(ArgAction::Set)
        .required(true)
        .help("The file of the log, which is made if there is none")
}

// `--round N`.
fn round_argument<'a>(alloc: Global) -> Arg<'a>
    ensures rule { rule_of result ≡ round_rule }
    ensures local { result.global ≡ false }
{
    Arg::new(alloc, "round")
        .long("round")
        .action(ArgAction::Set)
        .value_name("N")
        .value_parser(value_parser!(u32).range(1..=1_000_000))
        .default_value("1000")
        .help("Picks the processes in turn, each for at most N instructions, 1 to 1000000")
}

// `--seed S`.
fn seed_argument<'a>(alloc: Global) -> Arg<'a>
    ensures rule { rule_of result ≡ seed_rule }
    ensures local { result.global ≡ false }
{
    Arg::new(alloc, "seed")
        .long("seed")
        .action(ArgAction::Set)
        .value_name("S")
        .value_parser(value_parser!(u64))
        .default_value("0")
        .help("The seed of what --random picks, below 2^64")
}

// `--random`.
fn random_argument<'a>(alloc: Global) -> Arg<'a>
    ensures rule { rule_of result ≡ random_rule }
    ensures local { result.global ≡ false }
{
    Arg::new(alloc, "random")
        .long("random")
        .action(ArgAction::SetTrue)
        .help("Picks a process at random, each time for at most 1 to 1000 instructions")
}

// The command itself, which has no `--help` and no `--version`.
pub(crate) fn command<'a>(alloc: Global) -> Result<Command<'a>, AllocError>
    ensures { IfOk result (λ command. app_of command ≡ program) }
{
    Command::new(alloc, "arnold")
        .no_binary_name(true)
        .disable_help_flag(true)
        .disable_version_flag(true)
        .arg(log_argument(alloc))?
        .arg(round_argument(alloc))?
        .arg(seed_argument(alloc))?
        .arg(random_argument(alloc))
}
