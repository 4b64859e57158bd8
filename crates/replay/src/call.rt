// The calls, each with its numbers. Its byte strings stand in the buffers.
use memory_region::region::Right;

#[derive(Clone, Copy)]
pub(crate) enum Call {
    MapAdd {
        base: u32,
        length: u32,
        place: u32,
        rights: u32,
    },
    MapSound {
        size: usize,
    },
    Lookup {
        right: Right,
        address: u32,
        length: u64,
    },
    RunEntry {
        address: u32,
    },
    SromLoad {
        offset: usize,
    },
    AplxLoad {
        header: u32,
    },
    ScpAnswer {
        identity: [u32; 5],
    },
    PlanRead {
        target: u32,
    },
    PackSrom,
    PackAplx,
    PackAplxShared,
    AplxRead,
    Compare,
    AplxCheck,
    FloodFillStart {
        last_block: u32,
        size: u32,
    },
    FloodFillBlockStart {
        block: u32,
        size: u32,
    },
    FloodFillBlockData {
        block: u32,
        word_id: u32,
        word: u32,
    },
    FloodFillBlockEnd {
        block: u32,
    },
}
