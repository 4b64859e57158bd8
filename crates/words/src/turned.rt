// Numbers with their bytes the other way round.
ghost use Rattle.std.specs.Prelude.{◌≡◌};
ghost use Rattle.words.specs.Bytes.{from_little_endian, big_endian};

pub fn half(n: u16) -> u16
    ensures { result ≡ from_little_endian (big_endian 2 n) }
{
    n.swap_bytes()
}

pub fn word(n: u32) -> u32
    ensures { result ≡ from_little_endian (big_endian 4 n) }
{
    n.swap_bytes()
}
