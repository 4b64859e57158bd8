// Blocks into memory.
ghost use Rattle.std.specs.Prelude.{◌≡◌, true, length};
ghost use Rattle.memory_map.specs.Map.{sound};
ghost use Rattle.memory_map.specs.Lookup.{lookup};
ghost use Rattle.srom.specs.Walk.{walk};
ghost use Rattle.srom.specs.Load.{store_blocks};

use crate::rom::Rom;
use crate::walk::{Item, next_item};

// The blocks from an offset to the stop, in order.
pub(crate) fn store_blocks(rom: &Rom, memory: &mut [u8], offset: usize)
    requires { sound rom.now.map (length memory.old) ≡ true }
    ensures { memory.new ≡ store_blocks (walk (lookup rom.now.map) rom.now.bytes.now offset).blocks memory.old }
{
    let mut next = offset;
    while let Ok(item) = next_item(rom, next) {
        let Item::Block {
            place,
            from,
            to,
            ..
        } = item
        else {
            return;
        };
        word_blocks::swap::put(memory, place, &rom.bytes[from..to]);
        next = to;
    }
}
