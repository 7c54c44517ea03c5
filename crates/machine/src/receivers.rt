// The classes of a receiver.
ghost use Rattle.machine.specs.opnds.Reads.{OperandInside};
ghost use Rattle.machine.specs.receivers.Receivers.{Receives};

use kinds::Kind;
use program::Opnd;
use refusals::Refusal;
use state::Held;

// Stays: the operand's clause, as at `opnds::kind_of`.
// The set of a receiver's classes, or 14.
#[tactic(auto, using(crate::proofs::receivers::Asked::is_object, crate::proofs::receivers::Asked::is_other, crate::proofs::receivers::Asked::of_other))]
pub fn classes_of(state: &Held, o: Opnd) -> Result<u64, Refusal>
    requires { OperandInside state.now.sizes o }
    ensures { Receives state.now.sizes state.now.words.now o result }
{
    match crate::opnds::kind_of(state, o) {
        Kind::Objects(set) => Ok(set),
        _ => Err(Refusal::NotAnObject),
    }
}
