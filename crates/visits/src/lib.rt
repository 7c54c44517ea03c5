// One instruction is visited: its rule by its sort, then its new kind is stored.
#![tactic(auto)]

ghost use Rattle.std.specs.Prelude.{◌≡◌, ◌<◌};
ghost use Rattle.rules.specs.Machine.{visit as visited};
ghost use Rattle.program.specs.Rows.{opnd_of, nth};
ghost use Rattle.program.specs.View.{ReadsInsn, ReadsBlock};
ghost use Rattle.state.specs.Methods.{Did};
ghost use Rattle.visits.specs.Visits.{operands_of};
ghost use Rattle.visits.specs.Methods.{nothing_in, VisitOf, Gives, AnalysedIn, SteadyIn, FitsIn};

use chains::Indexed;
use ids::{FunId, InsnId};
use kinds::Kind;
use machine::Tables;
use program::{Op, Opnd, Row};
use refusals::Refusal;
use state::State;

// A change that gives no kind.
fn nothing(w: Result<(), Refusal>) -> Result<Kind, Refusal>
    ensures { result ≡ nothing_in w }
{
    w.map(|()| Kind::Empty)
}

// The instruction that is visited, and its row in a program with its chains.
#[derive(Clone, Copy)]
struct Visited<'a> {
    code: &'a Indexed<'a>,
    i: InsnId,
    row: Row,
    ghost below: { i.0 < code.now.program.counts.insns },
    ghost read: { ReadsInsn code.now.program.words.now code.now.program.counts i.0 row },
}

impl<'a> Visited<'a> {
    // Operand j of the row; Nil where it has none.
    // Stays: beside flows' `returned` and settled's `operand_words` (which says why).
    fn operand(&self, j: usize) -> Opnd
        ensures { opnd_of result ≡ nth (operands_of self.now.code.now.program.words.now self.now.row) j }
    {
        if j < self.row.count {
            return self.code.program.operand(self.row, j);
        }
        Opnd::Const(Kind::Nil)
    }

    // The function that it stands in.
    fn function(&self) -> FunId
        ensures { ReadsBlock self.now.code.now.program.words.now self.now.code.now.program.counts self.now.row.block.0 result.0 }
    {
        self.code.program.function_of(self.row.block)
    }

    // The rule of its sort: what it sets off, and its kind.
    fn rule(&self, state: &mut State) -> Result<Kind, Refusal>
        requires { VisitOf self.now.code.now state.old }
        ensures { Gives self.now.code.now state.old state.new self.now.i.0 result }
    {
        let Visited { code, i, row } = *self;
        match row.op {
            Op::Jump(b) => nothing(state.push_block(b)),
            Op::IfTrue(t, e) => nothing(machine::opnds::choose(state, self.operand(0), t, e)),
            Op::Return => {
                let f = self.function();
                nothing(machine::opnds::give_back(state, f, self.operand(0)))
            }
            Op::SendStatic(f) => {
                sends::send_static(code, state, i, row.count, f)?;
                flows::returning::call_kind(code, &state.tables(), i, f, 1)
            }
            Op::SendDynamic(n) => {
                let args = program::listed_in(row.op, row.count);
                sends::send_dynamic(code, state, i, args, n, self.operand(0))?;
                let all = state.sizes.functions;
                flows::returning::call_kind(code, &state.tables(), i, FunId(0), all)
            }
            Op::Compute(o) => machine::opnds::compute(
                &state.tables(),
                o,
                self.operand(0),
                self.operand(1),
            ),
            Op::Phi(b, e) => machine::opnds::phi(
                &state.tables(),
                b,
                self.operand(0),
                e,
                self.operand(1),
            ),
            Op::Param(n) => flows::param(&code.program, &state.tables(), self.function(), n),
            Op::SelfParam(k) => Ok(Kind::object(k)),
            Op::New(k) => Ok(Kind::object(k)),
            Op::GetIvar(n) => {
                let o = self.operand(0);
                attributes::mark_reads(state, i, o)?;
                attributes::read_ivar(&code.program, &state.tables(), n, o)
            }
            Op::SetIvar(n) => {
                let o = self.operand(0);
                let v = self.operand(1);
                nothing(attributes::set_ivar(&code.program, state, n, o, v))
            }
        }
    }
}

// Instruction i is visited; row is its row, which is asked once, here: `Visited` holds it.
// Stays: that tables and state fit is a clause, here and of `rule`, since each is lent apart: so no change of the state has to promise that the tables stay; and i is
// bounded by the state's sizes, as in its methods.
pub fn visit(tables: &Tables, state: &mut State, i: InsnId, row: Row) -> Result<(), Refusal>
    requires analysed { AnalysedIn tables.now state.old }
    requires steady { SteadyIn tables.now state.old }
    requires i_lt_insns { i.0 < state.old.sizes.insns }
    requires reads_insn { ReadsInsn tables.now.code.program.words.now tables.now.code.program.counts i.0 row }
    ensures { Did (FitsIn tables.now) (λ L P. visited L P i.0) state.old state.new result }
{
    let code = &tables.code;
    let k = Visited { code, i, row }.rule(state)?;
    machine::store(&tables.code.program, tables.users, state, i, k)
}
