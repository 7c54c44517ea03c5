// A chain, as an iterator over its instructions.
ghost use Rattle.std.specs.Prelude.{◌≡◌, List, ℕ, ◌*◌, ◌+◌, ◌-◌, ◌≤◌, ◌<◌, length};
ghost use Rattle.memory.specs.Layout.{instructions_most};
ghost use Rattle.chains.specs.Chains.{Chained};
ghost use Rattle.chains.specs.Once.{Chained-prop};

use crate::{HEADS, SORT, Sort};
use ids::InsnId;

// What is left of a chain, in rising order: a link that leads to none of the instructions ends it.
#[derive(Drop)]
pub struct Chain<'a> {
    // of each instruction, the next one of its chain
    links: &'a [usize],
    at: usize,
    ghost few: { length links.now ≤ instructions_most },
    ghost held: { Chained links.now at } by { Chained-prop links.now at },
}

impl<'a> Chain<'a> {
    ghost use Rattle.chains.specs.Layout.{chains_size};
    ghost use Rattle.chains.specs.Chains.{place_of, ChainIs, ChainStands};
    ghost use Rattle.chains.specs.Left.{left};
    ghost use Rattle.memory.specs.Layout.{blocks_room};

    // The chain of number k, of a sort, among n instructions.
    pub fn new(chains: &'a [usize], sort: Sort, k: usize, n: usize) -> Chain<'a>
        requires room { (chains_size ≤ length chains.now) × (k < blocks_room) × (n ≤ instructions_most) }
        requires stands { ChainStands chains.now n (place_of sort) k }
        ensures { (l : List ℕ) → ChainIs chains.now n (place_of sort) k l → left result ≡ l }
    {
        let heads = SORT * usize::from(sort);
        Chain {
            links: &chains[heads + HEADS..heads + HEADS + n],
            at: chains[heads + k],
        }
    }
}

impl<'a> Iterator for Chain<'a> {
    type Item = InsnId;

    ghost use Rattle.std.specs.Iterator.{YieldsFirstBy, item_count};
    ghost use Rattle.chains.specs.Left.{left};

    ghost next_gives = { YieldsFirstBy (λ i. i.0) left };

    ghost remaining = { item_count left };

    fn next(&mut self) -> Option<InsnId> {
        let at = self.at;
        let &next = self.links.get(at)?;
        self.at = next;
        Some(InsnId(at as u32))
    }
}
