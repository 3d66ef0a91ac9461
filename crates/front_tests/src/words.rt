use crate::same::assert_same;
use arn_words::{WordsError, read_words, refusal_text};
use std::alloc::{AllocError, Global};
use std::process::Abort;

fn owned(alloc: Global, texts: &[&str]) -> Result<Vec<String>, AllocError> {
    let mut words = Vec::new(alloc);
    for text in texts {
        words.push(String::from_str(alloc, text)?)?;
    }
    Ok(words)
}

// What words say: log, round, seed, and whether they ask for a random order. Or `usage`.
fn said(alloc: Global, texts: &[&str]) -> Result<String, AllocError> {
    let words = owned(alloc, texts)?;
    match read_words(alloc, words.as_slice()) {
        Ok(options) => format!(in alloc;
            "{:?} {} {} {}",
            options.log.as_str(),
            options.round,
            options.seed,
            options.random
        ),
        Err(WordsError::Usage) => String::from_str(alloc, "usage"),
        Err(WordsError::NoMemory) => Err(AllocError),
    }
}

/// Words, and what they say.
const WORDS: &[(&[&str], &str)] = &[
    (&["log"], "\"log\" 1000 0 false"),
    (&["--round", "5", "log"], "\"log\" 5 0 false"),
    (
        &["log", "--seed", "18446744073709551615", "--random"],
        "\"log\" 1000 18446744073709551615 true",
    ),
    (&[], "usage"),
    (&["a", "b"], "usage"),
    (&["--round", "0", "log"], "usage"),
    (&["--round", "1000001", "log"], "usage"),
    (&["--round", "1000000", "log"], "\"log\" 1000000 0 false"),
    (&["--round", "1", "log"], "\"log\" 1 0 false"),
    (&["--round=7", "log", "--random"], "\"log\" 7 0 true"),
    (&["--random", "--seed=3", "log"], "\"log\" 1000 3 true"),
    (
        &["--round", "5", "--seed", "3", "--random", "log"],
        "\"log\" 5 3 true",
    ),
    (&["log", "--seed", "18446744073709551616"], "usage"),
    (&["log", "--seed", "-1"], "usage"),
    (&["log", "--seed", "1x"], "usage"),
    (&["log", "--seed"], "usage"),
    (&["log", "--round"], "usage"),
    (&["log", "--round", ""], "usage"),
    (&["log", "--round", "1", "--round", "1"], "usage"),
    (&["log", "--random", "--random"], "usage"),
    (&["log", "--random=true"], "usage"),
    (&["--help"], "usage"),
    (&["-h"], "usage"),
    (&["log", "--version"], "usage"),
    (&["log", "-V"], "usage"),
    (&["--rando", "log"], "usage"),
    (&["-r", "log"], "usage"),
    (&["help"], "\"help\" 1000 0 false"),
    (&["a-b"], "\"a-b\" 1000 0 false"),
    (&["--", "-log"], "\"-log\" 1000 0 false"),
    (&["--", "--random"], "\"--random\" 1000 0 false"),
    (&["--"], "usage"),
    (&["-"], "\"-\" 1000 0 false"),
    (&[""], "\"\" 1000 0 false"),
    (&["log", ""], "usage"),
    (&["log", "--seed", "+007"], "\"log\" 1000 7 false"),
];

fn assert_said(rt: &(impl Abort + AllocGlobal)) -> Result<(), AllocError> {
    for (texts, wanted) in WORDS {
        let found = said(rt.alloc(), texts)?;
        assert_same(rt, found.as_str(), *wanted);
    }
    Ok(())
}

// What is printed of words, or nothing.
fn refusal(alloc: Global, texts: &[&str]) -> Result<String, AllocError> {
    let words = owned(alloc, texts)?;
    match refusal_text(alloc, words.as_slice())? {
        Some(text) => Ok(text),
        None => Ok(String::new(alloc)),
    }
}

/// Words, and how the text begins that says what is wrong with them.
const CAUSES: &[(&[&str], &str)] = &[
    (&["log"], ""),
    (
        &["a", "b"],
        "unexpected argument 'b' found\n\nUsage: arnold [OPTIONS] <LOG>\n\nArguments:\n  <LOG>  ",
    ),
    (
        &["--round", "0", "log"],
        "invalid value '0' for '--round <N>': 0 is not in 1..=1000000\n\nUsage: arnold ",
    ),
];

fn assert_refused(rt: &(impl Abort + AllocGlobal)) -> Result<(), AllocError> {
    for (texts, wanted) in CAUSES {
        let found = refusal(rt.alloc(), texts)?;
        let told = (
            found.as_str().starts_with(*wanted),
            found.as_str().is_empty(),
        );
        assert_same(rt, told, (true, wanted.is_empty()));
    }
    Ok(())
}

#[test]
fn words_say_how_to_run_or_what_is_wrong(rt: HostRuntime) -> Result<(), AllocError> {
    assert_said(&rt)?;
    assert_refused(&rt)
}
