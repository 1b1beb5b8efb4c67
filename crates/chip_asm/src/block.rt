//! The open blocks.
ghost use Rattle.std.specs.Prelude.{◌≡◌, ◌+◌, ◌<◌, ◌≤◌, List, reverse, vec_len, vec_capacity};
ghost use Rattle.std.specs.List.{list_all};
ghost use Rattle.chip_asm.specs.inner.Blocks.{turned as turned_block, moved, AreNested};
ghost use Rattle.chip_lang.specs.SeenLine.{seen_body};
ghost use Rattle.chip_asm.specs.declared.block.Block.{Block};

use chip_lang::Body;

/// An open block: the number of its IF line, whether that line was active, whether its condition
/// holds on the current side, and whether an ELSE has followed.
#[derive(Clone, Copy)]
pub(crate) struct Block {
    pub(crate) number: usize,
    pub(crate) active: bool,
    pub(crate) holds: bool,
    pub(crate) has_else: bool,
}

/// Whether every block holds on its current side. The last block decides, because its IF line was
/// active if and only if the blocks around it hold.
pub(crate) fn all_hold(blocks: &[Block]) -> bool
    ensures { (nearest : List Block) → blocks.now ≡ reverse nearest → AreNested nearest
        → result ≡ list_all (λ b. b.holds) blocks.now }
{
    match blocks.last() {
        Some(block) => block.active && block.holds,
        None => true,
    }
}

/// The other side of a block; a block that already had an ELSE stays the same.
fn turned(block: Block) -> Block
    ensures { result ≡ turned_block block }
{
    if block.has_else {
        block
    } else {
        Block {
            number: block.number,
            active: block.active,
            holds: !block.holds,
            has_else: true,
        }
    }
}

/// Updates the open blocks, with the innermost one last: an IF opens a block, an ELSE switches the
/// last block to its other side, and an ENDIF closes the last block.
pub(crate) fn move_blocks(blocks: &mut Vec<Block>, body: &Body, opened: Block)
    requires room { vec_len blocks.old < vec_capacity blocks.old }
    ensures items { (nearest : List Block) → blocks.old.items ≡ reverse nearest
        → blocks.new.items ≡ reverse (moved (seen_body body.now) opened nearest) }
    ensures few { vec_len blocks.new ≤ vec_len blocks.old + 1 }
    ensures room { vec_capacity blocks.old ≤ vec_capacity blocks.new }
{
    match body {
        Body::Ifdef(_) | Body::Ifund(_) => blocks.push_reserved(opened),
        Body::Else => {
            let count = blocks.len();
            if count > 0 {
                blocks[count - 1] = turned(blocks[count - 1]);
            }
        }
        Body::Endif => {
            blocks.pop();
        }
        _ => {}
    }
}
