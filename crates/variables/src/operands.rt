// Operands as fixed memory holds them.
#![tactic(auto)]

ghost use Rattle.std.specs.Prelude.{◌<◌};
ghost use Rattle.variables.specs.Layout.{tag_room};

// An operand's tag and payload.
// Stays: no `kinds::Words`, since its tag has a bound, by which it goes into one word with the name; and no `Opnd`, which is program's, and this crate doesn't
// need the program.
#[derive(Clone, Copy)]
pub struct Stored {
    pub tag: usize,
    pub bits: usize,
    pub ghost small: { tag < tag_room },
}

impl Stored {
    pub const NIL: Stored = Stored {
        tag: kinds::tags::NIL,
        bits: 0,
    };
}
