// A map and the memory that it is sound for.
ghost use Rattle.std.specs.Prelude.{◌≡◌, true, length};
ghost use Rattle.memory_map.specs.Map.{sound};

use memory_map::map::Map;

#[derive(Clone, Copy)]
pub(crate) struct Board<'a> {
    pub(crate) map: Map,
    pub(crate) memory: &'a [u8],
    ghost is_sound: { sound map (length memory.now) ≡ true },
}
