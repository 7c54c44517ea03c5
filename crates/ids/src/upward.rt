// The walk upward through a set, as an iterator.
ghost use Rattle.std.specs.Prelude.{◌≡◌, ◌^◌, ◌<◌};

use crate::{ClassId, smallest};

// What is left of a set, as an iterator over its classes in rising order.
#[derive(Drop)]
pub struct ClassWalk {
    // the classes that are left
    pub set: u64,
    ghost fits: { set < 2 ^ 64 },
}

impl Iterator for ClassWalk {
    type Item = ClassId;

    ghost use Rattle.std.specs.Iterator.{YieldsFirstBy, item_count};
    ghost use Rattle.ids.specs.Left.{members_left};

    ghost next_gives = { YieldsFirstBy (λ c. c.0) members_left };

    ghost remaining = { item_count members_left };

    fn next(&mut self) -> Option<ClassId> {
        let (c, rest) = smallest(self.set)?;
        self.set = rest;
        Some(c)
    }
}

// The classes of a set, in rising order.
pub fn classes(set: u64) -> ClassWalk
    ensures { result.set ≡ set }
{
    ClassWalk { set }
}
