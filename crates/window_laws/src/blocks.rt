// That blocks are whole, which their type says.
ghost use Rattle.std.specs.Prelude.{◌≡◌, All, length};
ghost use Rattle.parts_model.specs.declared.limits.TheConstants.{BLOCK_LEN};
ghost use Rattle.window_laws.specs.Blocks.{AreWhole, HasWholeBlocks};

use arn_base::{Block, Extra, Record};

fn is_whole(block: &Block)
    ensures { length block.now.bytes ≡ BLOCK_LEN }
{
    let _bytes = block.bytes;
}

fn are_whole(blocks: &[Block])
    ensures { AreWhole blocks.now }
{
    for block in blocks {
        is_whole(block);
    }
}

fn has_whole_blocks(entry: &Record)
    ensures { HasWholeBlocks entry.now }
{
    if let Record::Call {
        extra: Extra::Start(start),
        ..
    } = entry
    {
        are_whole(start.get().blocks.as_slice());
    }
}

/// The blocks with which children begin are whole.
pub fn blocks_are_whole(entries: &[Record])
    ensures { All HasWholeBlocks entries.now }
{
    for entry in entries {
        has_whole_blocks(entry);
    }
}
