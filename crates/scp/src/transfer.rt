// READ and WRITE.
ghost use Rattle.std.specs.Prelude.{◌≡◌, List, ℕ, ◌≤◌, length};
ghost use Rattle.memory_map.specs.Lookup.{lookup};
ghost use Rattle.scp.specs.Answer.{read_packet, write_packet, answered};
ghost use Rattle.scp.specs.Code.{answered_of};

use crate::answer::Reply;
use crate::board::Board;
use memory_region::region::Right;
use scp_packet::packet::{ReturnCode, judge};
use words::read::le_word_at;

// A READ packet: the bytes of its range.
#[tactic(auto, unfolding(crate::specs::Answer::read_packet))]
pub(crate) fn read(board: &Board, packet: &[u8], output: &mut [u8]) -> Result<Reply, ReturnCode>
    requires { (4 ≤ length packet.now) × (272 ≤ length output.old) }
    ensures { answered_of result packet.now board.now.memory.now output.new ≡ answered (read_packet (lookup board.now.map) packet.now board.now.memory.now) output.old }
{
    judge(packet, false)?;
    let address = le_word_at(packet, 4);
    let size = le_word_at(packet, 8) as usize;
    let Ok(place) = board.map.lookup(Right::Read, address, size as u64) else {
        return Err(ReturnCode::BadArgument);
    };
    let end = place + size;
    crate::reply::coded(ReturnCode::Okay, packet, output);
    words::put::bytes(output, 4, &board.memory[place..end]);
    Ok(Reply::Response { size: 4 + size })
}

// A WRITE packet: its data into its range.
#[tactic(auto, unfolding(crate::specs::Answer::write_packet))]
pub(crate) fn write(board: &mut Board, packet: &[u8]) -> Result<Reply, ReturnCode>
    ensures same_reference { board.new.memory.ghost_name ≡ board.old.memory.ghost_name }
    ensures outcome { (o : List ℕ) → answered_of result packet.now board.new.memory.now o ≡ answered (write_packet (lookup board.old.map) packet.now board.old.memory.now) o }
{
    judge(packet, true)?;
    let address = le_word_at(packet, 4);
    let size = le_word_at(packet, 8) as u64;
    let Ok(place) = board.map.lookup(Right::Write, address, size) else {
        return Err(ReturnCode::BadArgument);
    };
    words::put::bytes(board.memory, place, &packet[16..]);
    Err(ReturnCode::Okay)
}
