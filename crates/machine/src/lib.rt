// The parts that the analysis reads, and a kind stored with the users that wake.
#![tactic(auto)]

pub mod blocks;
pub mod opnds;
pub mod receivers;
pub mod tables;

ghost use Rattle.std.specs.Prelude.{◌≡◌, ◌<◌, All};
ghost use Rattle.rules.specs.Machine.{store as stored};
ghost use Rattle.state.specs.Changes.{HomesOf, push_live};
ghost use Rattle.state.specs.Methods.{Did};
ghost use Rattle.machine.specs.Analysed.{sizes_of, MachineSized, homes_of, Users, TablesOf};

use ids::InsnId;
use kinds::Kind;
use program::{Counts, Program};
use refusals::Refusal;
use state::{Sizes, State};
pub use tables::Tables;

// Stays: no `From`, since both types are of other crates, and state knows no program.
pub fn sizes(counts: Counts) -> Sizes
    ensures { result ≡ sizes_of counts }
{
    Sizes {
        functions: counts.functions,
        classes: counts.classes,
        blocks: counts.blocks,
        insns: counts.insns,
    }
}

// Stays: the sizes' clause is no ghost field, since tables and state are lent apart: so no change of the state has to promise that the tables stay.
// The instructions of a list wait whose blocks are live, or 20.
fn push_users(program: &Program, users: &[usize], state: &mut State) -> Result<(), Refusal>
    requires machine_sized { MachineSized program.now.counts state.old.sizes }
    requires listed { All (λ j. j < state.old.sizes.insns) users.now }
    ensures { Did (HomesOf state.old.sizes (homes_of program.now.words.now program.now.counts)) (λ L P. push_live L P users.now)
        state.old state.new result }
{
    for &user in users {
        let j = InsnId(user as u32);
        state.push_live(program.insn(j).block, j)?;
    }
    Ok(())
}

// Stays: program and users apart, and no `Tables`, since these hold chains, which are not read here; i is bounded by the state's sizes, as in its methods.
// Kind k is stored for instruction i, and its users in live blocks wait, if the union with the old kind is another.
pub fn store(
    program: &Program,
    users: &[usize],
    state: &mut State,
    i: InsnId,
    k: Kind,
) -> Result<(), Refusal>
    requires machine_sized { MachineSized program.now.counts state.old.sizes }
    requires users { Users program.now.words.now program.now.counts users.now }
    requires i_lt_insns { i.0 < state.old.sizes.insns }
    ensures { Did (TablesOf program.now.words.now program.now.counts) (λ L P. stored L P i.0 k) state.old state.new result }
{
    let old = state.kind_at(i);
    if kinds::union(old, k)? == old {
        return Ok(());
    }
    state.set_kind(i, k);
    let n = i.index();
    let from = answer::USERS + users[answer::STARTS + n];
    let to = answer::USERS + users[answer::STARTS + (n + 1)];
    push_users(program, &users[from..to], state)
}
