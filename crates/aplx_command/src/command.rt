// What an entry commands.
ghost use Rattle.std.specs.Prelude.{◌≡◌};
ghost use Rattle.aplx_command.specs.Command.{command_of, command_at};
ghost use Rattle.aplx_command.specs.Code.{command_is};

use words::range::round_up;

// Lengths are rounded up, and a source is an address.
#[derive(Clone, Copy, Debug, PartialEq, Eq)]
pub enum Command {
    Copy { to: u32, from: u32, length: u64 },
    Fill { to: u32, length: u64, word: u32 },
    Exec { address: u32 },
    Other { command: u32 },
}

// The entry at an address with these four words.
#[tactic(auto, unfolding(crate::specs::Command::command_of))]
fn command_of(address: u32, c: u32, x: u32, y: u32, z: u32) -> Command
    ensures { command_is result ≡ command_of address c x y z }
{
    match c {
        1 => Command::Copy {
            to: x,
            from: y,
            length: round_up(z),
        },
        2 => Command::Copy {
            to: x,
            from: address.wrapping_add(y),
            length: round_up(z),
        },
        3 => Command::Fill {
            to: x,
            length: round_up(y),
            word: z,
        },
        4 => Command::Exec { address: x },
        _ => Command::Other { command: c },
    }
}

// The entry at an address, at a place of memory. Bytes past its end count as zero.
#[tactic(auto, unfolding(crate::specs::Command::command_at))]
pub fn command_at(memory: &[u8], place: usize, address: u32) -> Command
    ensures { command_is result ≡ command_at memory.now place address }
{
    let w = words::four::read(memory, place);
    command_of(address, w.first, w.second, w.third, w.fourth)
}
