// Which call a line names, and its arguments.
use crate::arguments::Arguments;
use crate::bytes::Buffers;
use crate::call::Call;
use crate::scan::split_once;
use memory_region::region::Right;

fn map_add(arguments: &mut Arguments, buffers: &mut Buffers) -> Option<Call> {
    arguments.bytes(&mut buffers.table)?;
    Some(Call::MapAdd {
        base: arguments.number()?,
        length: arguments.number()?,
        place: arguments.number()?,
        rights: arguments.number()?,
    })
}

fn map_sound(arguments: &mut Arguments, buffers: &mut Buffers) -> Option<Call> {
    arguments.bytes(&mut buffers.table)?;
    Some(Call::MapSound {
        size: arguments.number()?,
    })
}

fn right(arguments: &mut Arguments) -> Option<Right> {
    match arguments.number::<u32>()? {
        1 => Some(Right::Read),
        2 => Some(Right::Write),
        4 => Some(Right::Run),
        _ => None,
    }
}

fn lookup(arguments: &mut Arguments, buffers: &mut Buffers) -> Option<Call> {
    arguments.bytes(&mut buffers.table)?;
    Some(Call::Lookup {
        right: right(arguments)?,
        address: arguments.number()?,
        length: arguments.number()?,
    })
}

fn run_entry(arguments: &mut Arguments, buffers: &mut Buffers) -> Option<Call> {
    arguments.bytes(&mut buffers.table)?;
    Some(Call::RunEntry {
        address: arguments.number()?,
    })
}

fn srom_load(arguments: &mut Arguments, buffers: &mut Buffers) -> Option<Call> {
    arguments.bytes(&mut buffers.table)?;
    arguments.bytes(&mut buffers.memory)?;
    arguments.bytes(&mut buffers.input)?;
    Some(Call::SromLoad {
        offset: arguments.number()?,
    })
}

fn aplx_load(arguments: &mut Arguments, buffers: &mut Buffers) -> Option<Call> {
    arguments.bytes(&mut buffers.table)?;
    arguments.bytes(&mut buffers.memory)?;
    Some(Call::AplxLoad {
        header: arguments.number()?,
    })
}

fn scp_answer(arguments: &mut Arguments, buffers: &mut Buffers) -> Option<Call> {
    arguments.bytes(&mut buffers.table)?;
    arguments.bytes(&mut buffers.memory)?;
    let identity = [
        arguments.number()?,
        arguments.number()?,
        arguments.number()?,
        arguments.number()?,
        arguments.number()?,
    ];
    arguments.bytes(&mut buffers.input)?;
    arguments.bytes(&mut buffers.output)?;
    Some(Call::ScpAnswer { identity })
}

fn plan_read(arguments: &mut Arguments, buffers: &mut Buffers) -> Option<Call> {
    arguments.bytes(&mut buffers.input)?;
    Some(Call::PlanRead {
        target: arguments.number()?,
    })
}

// A call that writes what it makes of the input to the output.
fn written(arguments: &mut Arguments, buffers: &mut Buffers, call: Call) -> Option<Call> {
    arguments.bytes(&mut buffers.input)?;
    arguments.bytes(&mut buffers.output)?;
    Some(call)
}

fn compare(arguments: &mut Arguments, buffers: &mut Buffers) -> Option<Call> {
    arguments.bytes(&mut buffers.memory)?;
    written(arguments, buffers, Call::Compare)
}

fn aplx_check(arguments: &mut Arguments, buffers: &mut Buffers) -> Option<Call> {
    arguments.bytes(&mut buffers.memory)?;
    arguments.bytes(&mut buffers.input)?;
    Some(Call::AplxCheck)
}

fn flood_fill_start(arguments: &mut Arguments, buffers: &mut Buffers) -> Option<Call> {
    arguments.receiver(&mut buffers.table)?;
    arguments.bytes(&mut buffers.memory)?;
    Some(Call::FloodFillStart {
        last_block: arguments.number()?,
        size: arguments.number()?,
    })
}

fn flood_fill_block_start(arguments: &mut Arguments, buffers: &mut Buffers) -> Option<Call> {
    arguments.receiver(&mut buffers.table)?;
    arguments.bytes(&mut buffers.memory)?;
    Some(Call::FloodFillBlockStart {
        block: arguments.number()?,
        size: arguments.number()?,
    })
}

fn flood_fill_block_data(arguments: &mut Arguments, buffers: &mut Buffers) -> Option<Call> {
    arguments.receiver(&mut buffers.table)?;
    arguments.bytes(&mut buffers.memory)?;
    Some(Call::FloodFillBlockData {
        block: arguments.number()?,
        word_id: arguments.number()?,
        word: arguments.number()?,
    })
}

fn flood_fill_block_end(arguments: &mut Arguments, buffers: &mut Buffers) -> Option<Call> {
    arguments.receiver(&mut buffers.table)?;
    arguments.bytes(&mut buffers.memory)?;
    Some(Call::FloodFillBlockEnd {
        block: arguments.number()?,
    })
}

// The call of a name, up to its last argument.
fn named(name: &[u8], arguments: &mut Arguments, buffers: &mut Buffers) -> Option<Call> {
    match name {
        b"map_add" => map_add(arguments, buffers),
        b"map_sound" => map_sound(arguments, buffers),
        b"lookup" => lookup(arguments, buffers),
        b"run_entry" => run_entry(arguments, buffers),
        b"srom_load" => srom_load(arguments, buffers),
        b"aplx_load" => aplx_load(arguments, buffers),
        b"scp_answer" => scp_answer(arguments, buffers),
        b"plan_read" => plan_read(arguments, buffers),
        b"pack_srom" => written(arguments, buffers, Call::PackSrom),
        b"pack_aplx" => written(arguments, buffers, Call::PackAplx),
        b"pack_aplx_shared" => written(arguments, buffers, Call::PackAplxShared),
        b"aplx_read" => written(arguments, buffers, Call::AplxRead),
        b"compare" => compare(arguments, buffers),
        b"aplx_check" => aplx_check(arguments, buffers),
        b"flood_fill_start" => flood_fill_start(arguments, buffers),
        b"flood_fill_block_start" => flood_fill_block_start(arguments, buffers),
        b"flood_fill_block_data" => flood_fill_block_data(arguments, buffers),
        b"flood_fill_block_end" => flood_fill_block_end(arguments, buffers),
        _ => None,
    }
}

// The call of a line, where it names one and has the arguments of that call.
pub(crate) fn call<'a>(line: &'a [u8], buffers: &mut Buffers) -> Option<(&'a [u8], Call)> {
    let (name, text) = split_once(line, b' ')?;
    let mut arguments = Arguments::new(text);
    let call = named(name, &mut arguments, buffers)?;
    if arguments.is_done() {
        Some((name, call))
    } else {
        None
    }
}
