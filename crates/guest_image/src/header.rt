ghost use Rattle.std.specs.Prelude.{◌≡◌, ◌+◌, ◌≤◌, ◌↔◌, ◌&&◌, nat_le, length, take, drop, true, bytes_eq, IfOk, IsErr, None};
ghost use Rattle.arn_base.specs.Window.{number_of};
ghost use Rattle.parts_model.specs.Image.{image_of, image_name, can_enter as enters, header_len, is_image as is_image_of};
ghost use Rattle.guest_image.specs.Header.{IsHeaderOf};

use crate::image::{HEADER_LEN, Image, NotImage};
use byteorder::{ByteOrder, LittleEndian};
use parts_model::limits::{WINDOW_END, WINDOW_START};

const NAME: &[u8; 8] = b"ARNIMG01";

/// Reads the header of an image: the 8 bytes `ARNIMG01`, then entry and load address, 8 bytes each,
/// little-endian. The body is the rest. It is an image where the entry is a multiple of 4 in the
/// private window and the body lies whole in it.
pub fn parse(bytes: &[u8]) -> Result<Image, NotImage>
    ensures image { IfOk result (IsHeaderOf bytes.now) }
    ensures not_image { IsErr result ↔ (image_of bytes.now ≡ None) }
{
    if is_image(bytes) {
        Ok(header(bytes))
    } else {
        Err(NotImage)
    }
}

fn is_image(bytes: &[u8]) -> bool
    ensures result { result ≡ is_image_of bytes.now }
    ensures long { result ≡ true → header_len ≤ length bytes.now }
{
    if bytes.len() < HEADER_LEN || !is_named(bytes) {
        return false;
    }
    let image = header(bytes);
    can_enter(image.entry) && fits(image.load, (bytes.len() - HEADER_LEN) as u64)
}

fn is_named(bytes: &[u8]) -> bool
    requires { 8 ≤ length bytes.now }
    ensures { result ≡ bytes_eq (take 8 bytes.now) image_name }
{
    &bytes[..8] == NAME.as_slice()
}

fn header(bytes: &[u8]) -> Image
    requires { header_len ≤ length bytes.now }
    ensures entry { result.entry ≡ number_of (take 8 (drop 8 bytes.now)) }
    ensures load { result.load ≡ number_of (take 8 (drop 16 bytes.now)) }
{
    Image {
        entry: number(bytes, 8),
        load: number(bytes, 16),
    }
}

// The number of 8 bytes at a place.
fn number(bytes: &[u8], at: usize) -> u64
    requires { at + 8 ≤ length bytes.now }
    ensures { result ≡ number_of (take 8 (drop at bytes.now)) }
{
    LittleEndian::read_u64(&bytes[at..])
}

fn can_enter(entry: u64) -> bool
    ensures { result ≡ enters entry }
{
    entry % 4 == 0 && (WINDOW_START <= entry && entry < WINDOW_END)
}

// The body of so many bytes lies whole in the private window.
fn fits(load: u64, len: u64) -> bool
    ensures { result ≡ (nat_le WINDOW_START load && nat_le (load + len) WINDOW_END) }
{
    WINDOW_START <= load && (load <= WINDOW_END && len <= WINDOW_END - load)
}
