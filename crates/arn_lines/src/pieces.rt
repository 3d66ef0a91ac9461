// The pieces of a line that answers, written.
ghost use Rattle.std.specs.Prelude.{◌≡◌, ◌++◌, IsTrue, OnOk, OnErr};
ghost use Rattle.std.specs.Prelude.{flat_map};
ghost use Rattle.std.specs.List.{list_all};
ghost use Rattle.std.specs.String.{string_bytes};
ghost use Rattle.arn_lines.specs.Pieces.{LeavesFront};
ghost use Rattle.arn_lines.specs.Printed.{IsPlain, is_plain, piece_text};
ghost use Rattle.arn_lines.specs.Texts.{bytes_text, groups_text, words_text};
ghost use Rattle.hex.specs.Hex.{encode_lower};

use arn_base::NoMemory;
use itoa::{Buffer, Integer};

/// A piece of a line.
#[derive(Clone, Copy)]
pub enum Piece<'a> {
    /// As it stands.
    Text(&'a str),
    /// In decimal.
    Number(u64),
    /// The same of a sum of such numbers.
    Sum(u128),
    /// In hex, `-` for none.
    Bytes(&'a [u8]),
    /// Each in 16 hex digits behind a space.
    Words(&'a [u64]),
    /// The numbers of groups, each behind a space, ` -` for none.
    Groups(&'a [u32]),
}

fn push_number<I: Integer>(text: &mut String, number: I) -> Result<(), NoMemory>
    ensures ok { OnOk result (string_bytes text.new ≡ string_bytes text.old ++ I.text number) }
    ensures err { OnErr result (string_bytes text.new ≡ string_bytes text.old) }
    ensures plain { IsPlain (I.text number) }
{
    let mut digits = Buffer::new();
    Ok(text.push_str(digits.format(number))?)
}

#[tactic(auto, using(crate::proofs::HexText::hex_is_plain))]
fn push_hex(text: &mut String, bytes: &[u8]) -> Result<(), NoMemory>
    ensures ok { OnOk result
        (string_bytes text.new ≡ string_bytes text.old ++ encode_lower bytes.now) }
    ensures err { OnErr result (string_bytes text.new ≡ string_bytes text.old) }
    ensures plain { IsPlain (encode_lower bytes.now) }
{
    let digits = hex::encode(*text.allocator(), bytes)?;
    Ok(text.push_str(digits.as_str())?)
}

fn push_bytes(text: &mut String, bytes: &[u8]) -> Result<(), NoMemory>
    ensures ok { OnOk result
        (string_bytes text.new ≡ string_bytes text.old ++ bytes_text bytes.now) }
    ensures err { OnErr result (string_bytes text.new ≡ string_bytes text.old) }
    ensures plain { IsPlain (bytes_text bytes.now) }
{
    if bytes.is_empty() {
        return Ok(text.push('-')?);
    }
    push_hex(text, bytes)
}

fn push_words(text: &mut String, words: &[u64]) -> Result<(), NoMemory>
    ensures ok { OnOk result
        (string_bytes text.new ≡ string_bytes text.old ++ words_text words.now) }
    ensures front { LeavesFront (string_bytes text.old) (string_bytes text.new) }
{
    for word in words {
        text.push_str(" ")?;
        push_hex(text, &word.to_be_bytes())?;
    }
    Ok(())
}

fn push_groups(text: &mut String, groups: &[u32]) -> Result<(), NoMemory>
    ensures ok { OnOk result
        (string_bytes text.new ≡ string_bytes text.old ++ groups_text groups.now) }
    ensures front { LeavesFront (string_bytes text.old) (string_bytes text.new) }
{
    if groups.is_empty() {
        return Ok(text.push_str(" -")?);
    }
    for group in groups {
        text.push_str(" ")?;
        push_number(text, *group)?;
    }
    Ok(())
}

fn push_piece(text: &mut String, piece: &Piece<'_>) -> Result<(), NoMemory>
    requires { IsTrue (is_plain piece.now) }
    ensures ok { OnOk result
        (string_bytes text.new ≡ string_bytes text.old ++ piece_text piece.now) }
    ensures front { LeavesFront (string_bytes text.old) (string_bytes text.new) }
{
    match *piece {
        Piece::Text(word) => Ok(text.push_str(word)?),
        Piece::Number(number) => push_number(text, number),
        Piece::Sum(sum) => push_number(text, sum),
        Piece::Bytes(bytes) => push_bytes(text, bytes),
        Piece::Words(words) => push_words(text, words),
        Piece::Groups(groups) => push_groups(text, groups),
    }
}

fn push_pieces(text: &mut String, pieces: &[Piece<'_>]) -> Result<(), NoMemory>
    requires { IsTrue (list_all is_plain pieces.now) }
    ensures ok { OnOk result
        (string_bytes text.new ≡ string_bytes text.old ++ flat_map piece_text pieces.now) }
    ensures front { LeavesFront (string_bytes text.old) (string_bytes text.new) }
{
    for piece in pieces {
        push_piece(text, piece)?;
    }
    Ok(())
}

/// Appends the pieces of a line, each of which begins with an ASCII character or is empty.
pub fn push_line(text: &mut String, pieces: &[Piece<'_>]) -> Result<(), NoMemory>
    requires { IsTrue (list_all is_plain pieces.now) }
    ensures ok { OnOk result
        (string_bytes text.new ≡ string_bytes text.old ++ flat_map piece_text pieces.now) }
    ensures err { OnErr result (string_bytes text.new ≡ string_bytes text.old) }
{
    let before = text.len();
    let pushed = push_pieces(text, pieces);
    if pushed.is_err() {
        text.truncate(before);
    }
    pushed
}
