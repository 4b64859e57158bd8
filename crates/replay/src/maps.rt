// The questions that a map alone answers. The library for C has no call for them.
use map_table::table::map_of;
use memory_region::region::Right;
use outcome::answer::Entry;
use std::io;

pub(crate) fn lookup<R: Print>(
    rt: &R,
    table: &[u8],
    right: Right,
    address: u32,
    length: u64,
) -> io::Result<()> {
    match map_of(table).lookup(right, address, length) {
        Ok(place) => println!(rt; "0 {place}"),
        Err(cause) => println!(rt; "{} 0", cause.number()),
    }
}

pub(crate) fn run_entry<R: Print>(rt: &R, table: &[u8], address: u32) -> io::Result<()> {
    match map_of(table).run_entry(address) {
        Ok(Entry::Arm(address)) => println!(rt; "0 1 {address}"),
        Ok(Entry::Thumb(address)) => println!(rt; "0 2 {address}"),
        Err(cause) => println!(rt; "{} 0 0", cause.number()),
    }
}
