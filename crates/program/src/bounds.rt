// 01's limits.
ghost use Rattle.std.specs.Prelude.{◌≡◌};
ghost use Rattle.program.specs.Room.{WithinRoom};

// None is above the tables' room; those of the script's length, of the depth and of the lists are no concern of the tables.
#[derive(Clone, Copy)]
pub struct Limits {
    pub script: usize,
    pub functions: usize,
    pub classes: usize,
    pub blocks: usize,
    pub instructions: usize,
    pub operands: usize,
    pub ivars: usize,
    pub depth: usize,
    pub worklist: usize,
    pub ghost small: { WithinRoom functions classes blocks instructions operands ivars },
}

impl Limits {
    ghost use Rattle.rules.specs.Program.{limits};
    ghost use Rattle.program.specs.View.{limits_of};

    pub fn built_in() -> Limits
        ensures { limits_of result ≡ limits }
    {
        Limits {
            script: memory::SCRIPT_MOST,
            functions: memory::FUNCTIONS_MOST,
            classes: memory::CLASSES_MOST,
            blocks: memory::BLOCKS_MOST,
            instructions: memory::INSTRUCTIONS_MOST,
            operands: memory::OPERANDS_MOST,
            ivars: memory::IVARS_MOST,
            depth: 128,
            worklist: memory::WORKLIST_MOST,
        }
    }
}
