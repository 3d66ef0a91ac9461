// Where an image and its argument block lie.
ghost use Rattle.std.specs.Prelude.{◌≡◌, slice_index};
ghost use Rattle.parts_model.specs.Image.{read_as_image};

/// Where the body of an image lies, and the argument block, by its address in the old memory.
#[derive(Clone, Copy)]
pub struct Layout {
    pub load: u64,
    pub block: u64,
    pub block_len: u64,
}

/// The byte of a file at a place, 0 behind its end.
fn byte_at(file: &[u8], place: usize) -> u8
    ensures { result ≡ slice_index file.now place }
{
    if place < file.len() { file[place] } else { 0 }
}

/// The address at which the body of an image lies.
fn load_of(file: &[u8]) -> u64
    ensures { result ≡ (read_as_image file.now).load }
{
    u64::from_le_bytes([
        byte_at(file, 16),
        byte_at(file, 17),
        byte_at(file, 18),
        byte_at(file, 19),
        byte_at(file, 20),
        byte_at(file, 21),
        byte_at(file, 22),
        byte_at(file, 23),
    ])
}

impl Layout {
    /// That of an image file and of its argument block.
    pub fn new(file: &[u8], block: u64, block_len: u64) -> Layout
        ensures { result ≡ record {
          load = (read_as_image file.now).load;
          block = block;
          block_len = block_len;
        } }
    {
        Layout {
            load: load_of(file),
            block,
            block_len,
        }
    }
}
