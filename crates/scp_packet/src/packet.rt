// Return codes, and the tests of READ and WRITE packets.
ghost use Rattle.std.specs.Prelude.{◌≡◌};
ghost use Rattle.scp_packet.specs.Packet.{aligned};
ghost use Rattle.scp_packet.specs.Transfer.{transfer};
ghost use Rattle.scp_packet.specs.Code.{code_of, transfer_is};

use words::read::le_word_at;

// The return code of a response, with its number.
#[derive(Clone, Copy, Debug, PartialEq, Eq)]
pub enum ReturnCode {
    Okay = 0x80,
    BadLength = 0x81,
    BadCommand = 0x83,
    BadArgument = 0x84,
}

impl ReturnCode {
    pub fn code(self) -> u16
        ensures { result ≡ code_of self }
    {
        self as u16
    }
}

// Whether a number is a multiple of 1, 2 or 4 by type.
#[tactic(auto, unfolding(crate::specs::Packet::aligned))]
fn is_aligned(kind: u32, n: u32) -> bool
    ensures { result ≡ aligned kind n }
{
    match kind {
        0 => true,
        1 => n % 2 == 0,
        _ => n % 4 == 0,
    }
}

// The tests of a READ or WRITE packet. An error answers it at once; `Okay` is the one of a transfer of no bytes.
#[tactic(auto, unfolding(crate::specs::Transfer::transfer))]
pub fn judge(packet: &[u8], write: bool) -> Result<(), ReturnCode>
    ensures { transfer_is result ≡ transfer write packet.now }
{
    if packet.len() < 16 {
        return Err(ReturnCode::BadLength);
    }
    let address = le_word_at(packet, 4);
    let size = le_word_at(packet, 8);
    let kind = le_word_at(packet, 12);
    if size > 256 || kind > 2 {
        return Err(ReturnCode::BadArgument);
    }
    if write && packet.len() != 16 + size as usize {
        return Err(ReturnCode::BadLength);
    }
    if !is_aligned(kind, address) || !is_aligned(kind, size) {
        return Err(ReturnCode::BadArgument);
    }
    if size == 0 {
        return Err(ReturnCode::Okay);
    }
    Ok(())
}
