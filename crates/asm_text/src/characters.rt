// The parts of a text.
ghost use Rattle.std.specs.Prelude.{◌≡◌, ◌≢◌, ℕ, ◌≤◌, All, IfNone, IfSome, length, drop, reverse};
ghost use Rattle.std.specs.List.{list_all};
ghost use Rattle.asm_text.specs.Characters as character;
ghost use Rattle.asm_text.specs.Names as name;
ghost use Rattle.asm_text.specs.Pieces.{IsCut};

/// How many bytes a label has at most.
const MOST_LABEL: usize = 32;

fn is_blank(byte: u8) -> bool
    ensures { result ≡ character.is_blank byte }
{
    byte == b' ' || byte == b'\t'
}

fn skip_blanks(text: &[u8]) -> &[u8]
    ensures { result.now ≡ character.skip_blanks text.now }
{
    let mut rest = text;
    while let Some((first, others)) = rest.split_first() {
        if !is_blank(*first) {
            return rest;
        }
        rest = others;
    }
    rest
}

// The text without the blanks at its end.
fn skip_blanks_back(text: &[u8]) -> &[u8]
    ensures { result.now ≡ reverse (character.skip_blanks (reverse text.now)) }
{
    let mut rest = text;
    while let Some((last, others)) = rest.split_last() {
        if !is_blank(*last) {
            return rest;
        }
        rest = others;
    }
    rest
}

/// The text without the blanks, spaces and tabs, at both ends.
pub fn trimmed(text: &[u8]) -> &[u8]
    ensures { result.now ≡ character.trimmed text.now }
{
    skip_blanks_back(skip_blanks(text))
}

// How many bytes stand in front of the first blank.
fn word_length(text: &[u8]) -> usize
    ensures value { result ≡ length (character.before character.is_blank text.now) }
    ensures within { result ≤ length text.now }
{
    for (index, byte) in text.iter().enumerate() {
        if is_blank(*byte) {
            return index;
        }
    }
    text.len()
}

// The text up to its first blank, and what stands behind the blanks there.
pub(crate) fn split_word(text: &[u8]) -> (&[u8], &[u8])
    ensures word { result.0.now ≡ character.before character.is_blank text.now }
    ensures rest { result.1.now ≡ character.skip_blanks
        (drop (length (character.before character.is_blank text.now)) text.now) }
{
    let (word, rest) = text.split_at(word_length(text));
    (word, skip_blanks(rest))
}

// What stands in front of the first separator, and behind it.
pub(crate) fn cut(text: &[u8], separator: u8) -> Option<(&[u8], &[u8])>
    ensures some { IfSome result (λ parts. IsCut separator text.now parts.0.now parts.1.now) }
    ensures none { IfNone result (All (λ c. c ≢ separator) text.now) }
{
    let at = text.iter().position(|byte| *byte == separator)?;
    Some((&text[..at], &text[at + 1..]))
}

fn is_label_byte(byte: u8) -> bool
    ensures { result ≡ name.is_label_byte byte }
{
    matches!(byte, b'A'..=b'Z' | b'a'..=b'z' | b'0'..=b'9' | b'_')
}

fn are_label_bytes(text: &[u8]) -> bool
    ensures { result ≡ list_all name.is_label_byte text.now }
{
    text.iter().all(|byte| is_label_byte(*byte))
}

fn begins_with_digit(text: &[u8]) -> bool
    ensures { result ≡ name.begins_with_digit text.now }
{
    matches!(text, [b'0'..=b'9', ..])
}

pub(crate) fn is_label(text: &[u8]) -> bool
    ensures { result ≡ name.is_label text.now }
{
    !text.is_empty()
        && text.len() <= MOST_LABEL
        && are_label_bytes(text)
        && !begins_with_digit(text)
}
