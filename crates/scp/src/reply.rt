// The bytes of a response.
ghost use Rattle.std.specs.Prelude.{◌≡◌, ◌≤◌, length};
ghost use Rattle.words.specs.Store.{store};
ghost use Rattle.scp_packet.specs.Code.{code_of};
ghost use Rattle.scp.specs.Answer.{responds};
ghost use Rattle.scp.specs.Code.{reply_of};
ghost use Rattle.scp.specs.Reply.{header, version};

use crate::answer::{Identity, Reply};
use scp_packet::packet::ReturnCode;

// A return code and the packet's sequence number.
pub(crate) fn coded(code: ReturnCode, packet: &[u8], output: &mut [u8]) -> Reply
    requires { (4 ≤ length packet.now) × (4 ≤ length output.old) }
    ensures result_value { reply_of (Ok result) ≡ responds 4 }
    ensures output_after { output.new ≡ store output.old 0 (header (code_of code) packet.now) }
{
    words::put::le_half(output, 0, code.code());
    words::put::bytes(output, 2, &packet[2..4]);
    Reply::Response { size: 4 }
}

// The response to a VER packet.
pub(crate) fn version(identity: Identity, packet: &[u8], output: &mut [u8]) -> Reply
    requires { (4 ≤ length packet.now) × (31 ≤ length output.old) }
    ensures result_value { reply_of (Ok result) ≡ responds 31 }
    ensures output_after { output.new ≡ store output.old 0 (version identity packet.now) }
{
    let node = identity.point_to_point as u32;
    let physical = identity.physical_cpu as u32;
    let number = identity.virtual_cpu as u32;
    let release = identity.version as u32;
    coded(ReturnCode::Okay, packet, output);
    words::put::le_word(output, 4, 65536 * node + 256 * physical + number);
    words::put::le_word(output, 8, 65536 * release + 256);
    words::put::le_word(output, 12, identity.date);
    words::put::bytes(output, 16, b"SARK/SpiNNaker\0");
    Reply::Response { size: 31 }
}
