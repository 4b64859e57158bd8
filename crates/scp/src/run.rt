// RUN and APLX.
ghost use Rattle.std.specs.Prelude.{◌≡◌, List, ℕ};
ghost use Rattle.memory_map.specs.Lookup.{lookup};
ghost use Rattle.scp.specs.Answer.{run_packet, load_packet, answered};
ghost use Rattle.scp.specs.Code.{answered_of};

use crate::answer::Reply;
use crate::board::Board;
use memory_map::map::Map;
use outcome::answer::Stop;
use scp_packet::packet::ReturnCode;
use words::read::le_word_at;

// A RUN packet. It changes no memory.
#[tactic(auto, unfolding(crate::specs::Answer::run_packet), using(crate::proofs::AnswerLaws::no_response))]
pub(crate) fn run(map: Map, packet: &[u8]) -> Result<Reply, ReturnCode>
    ensures { (m o : List ℕ) → answered_of result packet.now m o ≡ answered (run_packet (lookup map) packet.now m) o }
{
    if packet.len() < 8 {
        return Err(ReturnCode::BadLength);
    }
    match map.run_entry(le_word_at(packet, 4)) {
        Ok(entry) => Ok(Reply::Run { entry }),
        Err(_) => Err(ReturnCode::BadArgument),
    }
}

// An APLX packet.
#[tactic(auto, unfolding(crate::specs::Answer::load_packet), using(crate::proofs::AnswerLaws::no_response))]
pub(crate) fn load(board: &mut Board, packet: &[u8]) -> Result<Reply, ReturnCode>
    ensures same_reference { board.new.memory.ghost_name ≡ board.old.memory.ghost_name }
    ensures outcome { (o : List ℕ) → answered_of result packet.now board.new.memory.now o ≡ answered (load_packet (lookup board.old.map) packet.now board.old.memory.now) o }
{
    if packet.len() < 8 {
        return Err(ReturnCode::BadLength);
    }
    let Ok(load) = aplx::load::load(board.map, board.memory, le_word_at(packet, 4)) else {
        return Err(ReturnCode::BadArgument);
    };
    match load.stop {
        Stop::Run { entry, resume } => Ok(Reply::Load { entry, resume }),
        Stop::End { .. } | Stop::Unknown { .. } => Err(ReturnCode::Okay),
    }
}
