// What the last Start declared, and the block that is open.
ghost use Rattle.std.specs.Prelude.{◌≡◌};
ghost use Rattle.flood_fill.specs.Refusals.{opened_block, passed, test_block_start};
ghost use Rattle.flood_fill.specs.Receive.{headed};

// The block whose words are listened for, with its own size.
#[derive(Clone, Copy, Debug, PartialEq, Eq)]
pub struct Block {
    pub block: u16,
    pub size: u16,
}

// `count` is 0 before any Start; `size` is the full size of a block, in words.
#[derive(Clone, Copy, Debug, PartialEq, Eq)]
pub struct Header {
    pub count: u16,
    pub size: u16,
    pub opened: Option<Block>,
}

impl Header {
    // The header with this block open.
    #[tactic(auto, unfolding(crate::specs::Refusals::test_block_start))]
    pub(crate) fn with_open(self, block: u32, size: u32) -> Header
        requires { test_block_start self block size ≡ passed }
        ensures { result ≡ headed self.count self.size (opened_block block size) }
    {
        let opened = Some(Block {
            block: block as u16,
            size: size as u16,
        });
        Header { opened, ..self }
    }
}
