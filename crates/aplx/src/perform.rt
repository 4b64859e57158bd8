// The commands carried out.
ghost use Rattle.std.specs.Prelude.{◌≡◌, true, length};
ghost use Rattle.memory_map.specs.Map.{sound};
ghost use Rattle.memory_map.specs.Lookup.{lookup};
ghost use Rattle.aplx_look.specs.Walk.{commands};
ghost use Rattle.aplx_look.specs.Look.Laws.{Ready};
ghost use Rattle.aplx.specs.Load.{perform, perform_all};
ghost use Rattle.aplx.specs.Load.Laws.{Performable};
ghost use Rattle.aplx_command.specs.Code.{command_is};

use aplx_command::command::Command;
use memory_map::map::{Map, place};
use memory_region::region::Right;

// One command whose ranges are permitted.
#[tactic(auto, unfolding(crate::specs::Load::perform))]
fn perform_command(map: Map, memory: &mut [u8], command: Command)
    requires { (sound map (length memory.old) ≡ true) × Performable (lookup map) (command_is command) }
    ensures { memory.new ≡ perform (lookup map) (command_is command) memory.old }
{
    match command {
        Command::Copy { to, from, length } => {
            let target = place(map.lookup(Right::Write, to, length));
            let source = place(map.lookup(Right::Read, from, length));
            aplx_copy::copy::copy(memory, target, source, length as usize);
        }
        Command::Fill { to, length, word } => {
            let target = place(map.lookup(Right::Write, to, length));
            let end = target + length as usize;
            word_blocks::fill::fill(&mut memory[target..end], word);
        }
        Command::Exec { .. } | Command::Other { .. } => {}
    }
}

// The commands of so many entries from the header on, in order. Each entry is read when its turn comes: none of them is overwritten.
pub(crate) fn perform_all(map: Map, memory: &mut [u8], header: u32, count: usize)
    requires { (sound map (length memory.old) ≡ true) × Ready (lookup map) memory.old header count }
    ensures { memory.new ≡ perform_all (lookup map) (commands (lookup map) memory.old header count) memory.old }
{
    let mut address = header;
    for _ in 0..count {
        let entry = place(map.lookup(Right::Read, address, 16));
        let command = aplx_command::command::command_at(memory, entry, address);
        perform_command(map, memory, command);
        address += 16;
    }
}
