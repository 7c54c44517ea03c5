// What stands still while the analysis runs.
ghost use Rattle.machine.specs.Analysed.{Users};

use chains::Indexed;

// A program with its chains, and the users of each instruction.
#[derive(Clone, Copy)]
pub struct Tables<'a> {
    pub code: Indexed<'a>,
    pub users: &'a [usize],
    pub ghost used: { Users code.program.words.now code.program.counts users.now },
}
