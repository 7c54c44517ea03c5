// Lent memory, and clearing it.
#![tactic(auto)]

pub mod tables;

ghost use Rattle.std.specs.Prelude.{◌≡◌, length};
ghost use Rattle.memory.specs.Memory.{zeros};

// How many things of each sort there can be, and how many bytes a script can have.
pub const SCRIPT_MOST: usize = 16384;

pub const FUNCTIONS_MOST: usize = 128;

pub const CLASSES_MOST: usize = 64;

pub const IVARS_MOST: usize = 64;

pub const BLOCKS_MOST: usize = 255;

pub const INSTRUCTIONS_MOST: usize = 2048;

pub const OPERANDS_MOST: usize = 8192;

pub const WORKLIST_MOST: usize = 16384;

// An instruction has at most two operands that are neither call arguments nor join operands.
pub const USES_MOST: usize = OPERANDS_MOST + 2 * INSTRUCTIONS_MOST;

// Blocks that the tables have room for.
pub const BLOCKS_ROOM: usize = 1024;

// The words of a row of bits, one for each instruction.
pub const ROW_WORDS: usize = INSTRUCTIONS_MOST / 64;

// Every place becomes 0.
// Stays: the library's `fill`, with its contract in the rules' words; else each caller would have to show that they mean the same.
#[tactic(auto, unfolding(crate::specs::Memory::zeros))]
pub fn clear(words: &mut [usize])
    ensures { words.new ≡ zeros (length words.old) }
{
    words.fill(0);
}
