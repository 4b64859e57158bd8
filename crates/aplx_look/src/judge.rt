// The tests of one entry.
ghost use Rattle.std.specs.Prelude.{◌≡◌, true, ℕ, ◌+◌, ◌<◌, length};
ghost use Rattle.memory_map.specs.Map.{sound};
ghost use Rattle.memory_map.specs.Lookup.{Lookup, lookup};
ghost use Rattle.outcome.specs.Outcome.{stops, stop_of};
ghost use Rattle.aplx_command.specs.Command.{copy, fill, exec, other};
ghost use Rattle.aplx_look.specs.Walk.{halts, tests, judge};
ghost use Rattle.aplx_look.specs.Code.{verdict_is};
ghost use Rattle.aplx_command.specs.Code.{command_is};

use crate::board::Board;
use aplx_command::command::Command;
use memory_map::map::Map;
use memory_region::region::Right;
use outcome::answer::Stop;
use outcome::refusal::Cause;

#[tactic(auto, unfolding(crate::specs::Walk::tests))]
fn judge_fill(map: Map, to: u32, length: u64) -> Result<Option<Stop>, Cause>
    ensures { (a i w : ℕ) → verdict_is i result ≡ tests (lookup map) a i (fill to length w) }
{
    if length == 0 {
        return Err(Cause::ZeroLength);
    }
    if to % 4 != 0 {
        return Err(Cause::NotAligned);
    }
    map.lookup(Right::Write, to, length)?;
    Ok(None)
}

#[tactic(auto, unfolding(crate::specs::Walk::tests))]
fn judge_copy(map: Map, to: u32, from: u32, length: u64) -> Result<Option<Stop>, Cause>
    ensures { (a i : ℕ) → verdict_is i result ≡ tests (lookup map) a i (copy to from length) }
{
    if length == 0 {
        return Err(Cause::ZeroLength);
    }
    if to % 4 != 0 || from % 4 != 0 {
        return Err(Cause::NotAligned);
    }
    map.lookup(Right::Write, to, length)?;
    map.lookup(Right::Read, from, length)?;
    Ok(None)
}

// A run of an address, by the entry at another one.
#[tactic(auto, unfolding(crate::specs::Walk::tests))]
fn judge_exec(map: Map, target: u32, address: u32) -> Result<Option<Stop>, Cause>
    requires { address + 16 < 4294967296 }
    ensures { (i : ℕ) → verdict_is i result ≡ tests (lookup map) address i (exec target) }
{
    let entry = map.run_entry(target)?;
    Ok(Some(Stop::Run {
        entry,
        resume: address + 16,
    }))
}

// The stop at a command word that is none of the four.
#[tactic(auto, unfolding(crate::specs::Walk::tests, crate::specs::Walk::other_command))]
fn other_stop(command: u32, index: usize) -> Stop
    ensures { (find : Lookup) (a : ℕ) → halts (stops (stop_of result)) ≡ tests find a index (other command) }
{
    match command {
        0xffffffff => Stop::End { place: index },
        _ => Stop::Unknown {
            command,
            place: index,
        },
    }
}

// The tests of a command, of the entry with an index, at an address: the stop, or none where the walk goes on.
fn judge_command(
    map: Map,
    command: Command,
    address: u32,
    index: usize,
) -> Result<Option<Stop>, Cause>
    requires { address + 16 < 4294967296 }
    ensures { verdict_is index result ≡ tests (lookup map) address index (command_is command) }
{
    match command {
        Command::Copy { to, from, length } => judge_copy(map, to, from, length),
        Command::Fill { to, length, .. } => judge_fill(map, to, length),
        Command::Exec { address: target } => judge_exec(map, target, address),
        Command::Other { command: c } => Ok(Some(other_stop(c, index))),
    }
}

// The tests of the entry with an index, at an address. A refusal's place is the index.
#[tactic(auto, unfolding(crate::specs::Walk::judge))]
pub(crate) fn judge_entry(board: &Board, address: u32, index: usize) -> Result<Option<Stop>, Cause>
    ensures { verdict_is index result ≡ judge (lookup board.now.map) board.now.memory.now address index }
{
    let Ok(place) = board.map.lookup(Right::Read, address, 16) else {
        return Err(Cause::EntryNotReadable);
    };
    let command = aplx_command::command::command_at(board.memory, place, address);
    judge_command(board.map, command, address, index)
}
