// One packet.
ghost use Rattle.std.specs.Prelude.{◌≡◌, ◌≤◌, length};
ghost use Rattle.memory_map.specs.Lookup.{lookup};
ghost use Rattle.scp.specs.Answer.{answered, command, scp_answer};
ghost use Rattle.scp.specs.Code.{reply_of, answered_of};

use crate::board::Board;
use crate::reply::{coded, version};
use memory_map::map::Map;
use outcome::answer::Entry;
use outcome::refusal::{Cause, Refusal};
use scp_packet::packet::ReturnCode;

// What a VER packet is told.
#[derive(Clone, Copy, Debug, PartialEq, Eq)]
pub struct Identity {
    pub point_to_point: u16,
    pub physical_cpu: u8,
    pub virtual_cpu: u8,
    pub version: u16,
    pub date: u32,
}

// What a packet comes to: no response; a response of so many bytes at the output's front; a run to be started; or a run at which an APLX
// load stopped, with the header address of the load that goes on after it.
#[derive(Clone, Copy, Debug, PartialEq, Eq)]
pub enum Reply {
    Silent,
    Response { size: usize },
    Run { entry: Entry },
    Load { entry: Entry, resume: u32 },
}

// What a packet of at least 4 bytes commands. An error is answered by its return code alone, as is a plain `Okay`.
#[tactic(auto, unfolding(crate::specs::Answer::command))]
fn command(
    board: &mut Board,
    identity: Identity,
    packet: &[u8],
    output: &mut [u8],
) -> Result<Reply, ReturnCode>
    requires { (4 ≤ length packet.now) × (272 ≤ length output.old) }
    ensures same_reference { board.new.memory.ghost_name ≡ board.old.memory.ghost_name }
    ensures outcome { answered_of result packet.now board.new.memory.now output.new ≡ answered (command (lookup board.old.map) identity packet.now board.old.memory.now) output.old }
{
    match words::read::le_half(packet) {
        0 => Ok(version(identity, packet, output)),
        1 => crate::run::run(board.map, packet),
        2 => crate::transfer::read(board, packet, output),
        3 => crate::transfer::write(board, packet),
        4 => crate::run::load(board, packet),
        _ => Err(ReturnCode::BadCommand),
    }
}

// Answers a packet. The output must hold 272 bytes; what lies past the response is left as it was.
#[tactic(auto, unfolding(crate::specs::Answer::scp_answer, crate::specs::Answer::reaction, crate::specs::Answer::packet), using(crate::proofs::AnswerLaws::no_response, crate::proofs::AnswerLaws::coded_answer))]
pub fn answer(
    map: Map,
    memory: &mut [u8],
    identity: Identity,
    packet: &[u8],
    output: &mut [u8],
) -> Result<Reply, Refusal>
    ensures { record { reply = reply_of result; memory = memory.new; output = output.new } ≡ scp_answer map identity packet.now memory.old output.old }
{
    if output.len() < 272 {
        return Err(Cause::OutputTooSmall.at(0));
    }
    if !map.sound(memory.len()) {
        return Err(Cause::MapNotSound.at(0));
    }
    if packet.len() < 4 {
        return Ok(Reply::Silent);
    }
    if packet.len() > 272 {
        return Ok(coded(ReturnCode::BadLength, packet, output));
    }
    let mut board = Board { map, memory };
    match command(&mut board, identity, packet, output) {
        Ok(reply) => Ok(reply),
        Err(code) => Ok(coded(code, packet, output)),
    }
}
