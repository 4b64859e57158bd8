// The answerer.
ghost use Rattle.std.specs.Prelude.{◌≡◌};
ghost use Rattle.outcome_numbers.specs.Numbers.{first};
ghost use Rattle.reidhintsje.specs.Calls.{identity_of, scp_call};

use map_table::table::map_of;
use outcome_numbers::numbers::{put, reply_parts};
use scp::answer::Identity;

// Five numbers; of each as many bits count as its field has.
fn identity_of(numbers: &[u32; 5]) -> Identity
    ensures { result ≡ identity_of numbers.now }
{
    Identity {
        point_to_point: (numbers[0] % 65536) as u16,
        physical_cpu: (numbers[1] % 256) as u8,
        virtual_cpu: (numbers[2] % 256) as u8,
        version: (numbers[3] % 65536) as u16,
        date: numbers[4],
    }
}

// Answers an SCP packet.
pub fn reidhintsje_scp_answer(
    map: &[u8],
    memory: &mut [u8],
    identity: &[u32; 5],
    packet: &[u8],
    output: &mut [u8],
    outcome: &mut [u64; 8],
) -> u32
    ensures value { result ≡ first outcome.new }
    ensures outcome_after { outcome.new ≡ (scp_call map.now identity.now packet.now memory.old output.old).numbers }
    ensures memory_after { memory.new ≡ (scp_call map.now identity.now packet.now memory.old output.old).memory }
    ensures output_after { output.new ≡ (scp_call map.now identity.now packet.now memory.old output.old).output }
{
    let regions = map_of(map);
    let board = identity_of(identity);
    let reply = scp::answer::answer(regions, memory, board, packet, output);
    put(outcome, reply_parts(reply))
}
