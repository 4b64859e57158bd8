// A map and the memory that it is sound for. What takes a board promises that it still holds the same memory (`same_reference`).
ghost use Rattle.std.specs.Prelude.{◌≡◌, true, length};
ghost use Rattle.memory_map.specs.Map.{sound};

use memory_map::map::Map;

#[derive(Drop)]
pub(crate) struct Board<'a> {
    pub(crate) map: Map,
    pub(crate) memory: &'a mut [u8],
    ghost is_sound: { sound map (length memory.now) ≡ true },
}
