// A map and the bytes of a serial ROM, which are not too many.
ghost use Rattle.std.specs.Prelude.{◌≤◌, length};

use memory_map::map::Map;

#[derive(Clone, Copy)]
pub(crate) struct Rom<'a> {
    pub(crate) map: Map,
    pub(crate) bytes: &'a [u8],
    ghost is_short: { length bytes.now ≤ 16777216 },
}
