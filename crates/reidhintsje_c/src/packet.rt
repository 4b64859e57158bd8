// The answerer.
ghost use Rattle.std.specs.Prelude.{◌≡◌};
ghost use Rattle.outcome_numbers.specs.Numbers.{first};
ghost use Rattle.reidhintsje.specs.Calls.{scp_call};

// Answers an SCP packet.
#[unsafe(no_mangle)]
pub extern "C" fn reidhintsje_scp_answer(
    map: &[u8],
    memory: &mut [u8],
    identity: &[u32; 5],
    packet: &[u8],
    output: &mut [u8],
    outcome: &mut [u64; 8],
) -> u32
    ensures value { result ≡ first outcome.new }
    ensures outcome_after { outcome.new ≡ (scp_call map.now identity.now packet.now memory.old output.old).numbers }
    ensures memory_after { memory.new ≡ (scp_call map.now identity.now packet.now memory.old output.old).memory }
    ensures output_after { output.new ≡ (scp_call map.now identity.now packet.now memory.old output.old).output }
{
    reidhintsje::packet::reidhintsje_scp_answer(map, memory, identity, packet, output, outcome)
}
