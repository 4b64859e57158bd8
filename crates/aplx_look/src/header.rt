// The answer after the walk: the test for destinations over the entries, and the bytes that the commands store.
ghost use Rattle.std.specs.Prelude.{◌≡◌, true, ◌<◌, length};
ghost use Rattle.memory_map.specs.Map.{sound};
ghost use Rattle.outcome.specs.Outcome.{stops, stop_of, outcome_of};
ghost use Rattle.memory_map.specs.Lookup.{lookup};
ghost use Rattle.aplx_look.specs.Walk.{commands};
ghost use Rattle.aplx_look.specs.Walk.Laws.{Passed};
ghost use Rattle.aplx_look.specs.Look.{meets_header, look_of, outcome_of_look};
ghost use Rattle.aplx_look.specs.Look.Header.{bytes_of};
ghost use Rattle.aplx_command.specs.Code.{command_is};

use crate::board::Board;
use aplx_command::command::Command;
use memory_map::map::place;
use memory_region::region::Right;
use outcome::answer::{Load, Stop};
use outcome::refusal::{Cause, Refusal};

// Whether the destination shares a byte with so many addresses from the header on.
#[tactic(auto, unfolding(crate::specs::Look::meets_header))]
fn meets_header(command: Command, header: u32, size: u64) -> bool
    ensures { result ≡ meets_header header size (command_is command) }
{
    match command {
        Command::Copy { to, length, .. } | Command::Fill { to, length, .. } => words::range::share(
            to as u64,
            length,
            header as u64,
            size,
        ),
        Command::Exec { .. } | Command::Other { .. } => false,
    }
}

// The bytes that a command stores.
fn bytes_of(command: Command) -> u64
    ensures { result ≡ bytes_of (command_is command) }
{
    match command {
        Command::Copy { length, .. } | Command::Fill { length, .. } => length,
        Command::Exec { .. } | Command::Other { .. } => 0,
    }
}

// The answer of a load whose walk passed so many entries and then found its stop.
pub(crate) fn check_header(
    board: &Board,
    header: u32,
    count: usize,
    stop: Stop,
) -> Result<Load, Refusal>
    requires { Passed (lookup board.now.map) board.now.memory.now header count × (count < 256) }
    ensures { outcome_of result ≡ outcome_of_look (look_of header (commands (lookup board.now.map) board.now.memory.now header count) (stops (stop_of stop))) }
{
    let size = 16 * (count as u64 + 1);
    let mut address = header;
    let mut stored: u64 = 0;
    for i in 0..count {
        let entry = place(board.map.lookup(Right::Read, address, 16));
        let command = aplx_command::command::command_at(board.memory, entry, address);
        if meets_header(command, header, size) {
            return Err(Cause::MeetsHeader.at(i));
        }
        stored += bytes_of(command);
        address += 16;
    }
    Ok(Load {
        stop,
        taken: count,
        stored,
    })
}
