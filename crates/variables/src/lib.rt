// Variables in memory: the bindings in the order in which they are made, and the rows that the arms of an `if` leave.
#![tactic(auto)]

ghost use Rattle.std.specs.Prelude.{◌≡◌, ◌+◌, ◌≤◌, ◌<◌, length, IfSome};
ghost use Rattle.rules.specs.Lists.{same as same_of};
ghost use Rattle.lexer.specs.Names.{name};
ghost use Rattle.memory.specs.Layout.{script_most};
ghost use Rattle.variables.specs.Layout.{bindings_most, entries_most, variables_size, tag_room};
ghost use Rattle.variables.specs.Memory.{start_in, length_in, tag_in, name_in, entry, put as put_of};
ghost use Rattle.variables.specs.Promises.{
  Packed,
  Tagged,
  VariableBinds,
  BindsAgain,
  IsAt,
  VariableFinds,
  Values,
  Stands,
  Lies,
  Aside,
  BothAside,
  Sought,
  Lifted,
  Inserts,
  Leaves,
  VariablesTurned,
  VariablesBlank,
  Noted,
  Notes,
  VariablePasses,
  NotesRow,
  NotesBoth,
  Nexts,
};

mod operands;

pub use operands::Stored;
use std::cmp::Ordering;

// The bindings that there can be; the rows set aside begin behind them.
pub const BINDINGS_MOST: usize = memory::SCRIPT_MOST / 2;

// The entries of a column, where the second column begins.
const ENTRIES_MOST: usize = 2 * BINDINGS_MOST;

// The words of both columns.
pub const SIZE: usize = 2 * ENTRIES_MOST;

// A word holds a name's start, its length and an operand's tag; the last two are below these.
// Stays: the layout of lent memory is published, an entry's name in one word.
const LENGTH_ROOM: usize = 2 * memory::SCRIPT_MOST;

const TAG_ROOM: usize = 16;

// A row set aside: its entries begin at lo, their names rising.
// Stays: bindings are written while a row is known, so it is no slice of their memory.
#[derive(Clone, Copy)]
pub struct Row {
    pub lo: usize,
    pub len: usize,
}

// The rows that two arms leave.
#[derive(Clone, Copy)]
pub struct Rows {
    pub left: Row,
    pub right: Row,
}

// A name to join: its word, its operand on either side, and how many entries of each row it takes.
#[derive(Clone, Copy)]
pub struct Joint {
    pub word: usize,
    pub left: Stored,
    pub right: Stored,
    // Stays: numbers and no truths, since the rows go on by them.
    pub lefts: usize,
    pub rights: usize,
}

// A script, and the memory that has its variables.
#[derive(Clone, Copy)]
pub struct Scope<'a> {
    pub script: &'a [u8],
    pub scratch: &'a [usize],
    pub ghost room: { variables_size ≤ length scratch.now },
}

// ---- an entry's first word: the name's place in the script, and the operand's tag

fn start(w: usize) -> usize
    ensures { result ≡ start_in w }
{
    w / (TAG_ROOM * LENGTH_ROOM)
}

fn len(w: usize) -> usize
    ensures { result ≡ length_in w }
{
    w / TAG_ROOM % LENGTH_ROOM
}

fn tag(w: usize) -> usize
    ensures { (result ≡ tag_in w) × (result < tag_room) }
{
    w % TAG_ROOM
}

fn pack(a: usize, k: usize, t: usize) -> usize
    requires { (a ≤ script_most) × ((k ≤ script_most) × (t < tag_room)) }
    ensures { Packed a k t result }
{
    (a * LENGTH_ROOM + k) * TAG_ROOM + t
}

// The same name with another tag.
fn retag(w: usize, t: usize) -> usize
    requires { t < tag_room }
    ensures { Tagged w t result }
{
    w / TAG_ROOM * TAG_ROOM + t
}

// ---- bindings
// Stays: each writer's clause names the size of scratch memory: a struct over the `&mut` would promise in each contract that it keeps its loan, a clause for a clause.

// Entry i is set.
#[tactic(auto, using(crate::proofs::Entries::put_is))]
fn put(scratch: &mut [usize], i: usize, w: usize, x: usize)
    requires { (variables_size ≤ length scratch.old) × (i < entries_most) }
    ensures { scratch.new ≡ put_of scratch.old i w x }
{
    scratch[i] = w;
    scratch[ENTRIES_MOST + i] = x;
}

// The name of k bytes at a is bound to o, as binding n.
// Stays: a name's place and its length, as they go into one word: `Name` is of the program's tables, which this crate doesn't need.
pub fn bind(scratch: &mut [usize], n: usize, a: usize, k: usize, o: Stored)
    requires variables_size_in_bounds { (variables_size ≤ length scratch.old) × (n < bindings_most) }
    requires a_le_script_most { (a ≤ script_most) × (k ≤ script_most) }
    ensures { VariableBinds n a k o.tag o.bits scratch.old scratch.new }
{
    let w = pack(a, k, o.tag);
    put(scratch, n, w, o.bits);
}

// The same, for the name of w.
pub fn bind_again(scratch: &mut [usize], n: usize, w: usize, o: Stored)
    requires { (variables_size ≤ length scratch.old) × (n < bindings_most) }
    ensures { BindsAgain n w o.tag o.bits scratch.old scratch.new }
{
    let v = retag(w, o.tag);
    put(scratch, n, v, o.bits);
}

// ---- rows: entries from a place on, in rising order of names

// Which of the entries from a up to b of a row of n is looked at next: first the row's last, since names often come in rising order.
fn probe(a: usize, b: usize, n: usize) -> usize
    requires { (a < b) × (b ≤ entries_most) }
    ensures { (a ≤ result) × (result < b) }
{
    if b == n { b - 1 } else { (a + b) / 2 }
}

// k entries from at on move up by one.
fn lift(scratch: &mut [usize], at: usize, k: usize)
    requires { (variables_size ≤ length scratch.old) × (at + k < entries_most) }
    ensures { Lifted at k scratch.old scratch.new }
{
    scratch.copy_within(at..at + k, at + 1);
    let payloads = ENTRIES_MOST + at;
    scratch.copy_within(payloads..payloads + k, payloads + 1);
}

// An entry bound in a row: how many entries it has then.
fn insert(script: &[u8], scratch: &mut [usize], row: Row, w: usize, x: usize) -> usize
    requires in_bounds { (variables_size ≤ length scratch.old) × (row.lo + row.len < entries_most) }
    requires lies { Lies script.now scratch.old row }
    ensures { Inserts script.now row.lo row.len w x scratch.old scratch.new result }
{
    let scope = Scope {
        script,
        scratch: &*scratch,
    };
    match scope.seek(row, w) {
        Ok(j) => {
            put(scratch, row.lo + j, w, x);
            row.len
        }
        Err(i) => {
            lift(scratch, row.lo + i, row.len - i);
            put(scratch, row.lo + i, w, x);
            row.len + 1
        }
    }
}

// What the k bindings from mark on come to is set aside as a row at to: how many entries that are.
pub fn set_aside(script: &[u8], scratch: &mut [usize], mark: usize, k: usize, to: usize) -> usize
    requires variables_size_in_bounds { variables_size ≤ length scratch.old }
    requires k_bound { (mark + k ≤ to) × (to + k ≤ script_most) }
    ensures { Leaves script.now mark k to scratch.old scratch.new result }
{
    let mut n = 0;
    for i in 0..k {
        let p = mark + i;
        let w = scratch[p];
        let x = scratch[ENTRIES_MOST + p];
        n = insert(script, scratch, Row { lo: to, len: n }, w, x);
    }
    n
}

// How many entries of a row are known to have notes, if the first u have: one more is looked at.
fn pass(g: &[u16], row: Row, u: usize) -> usize
    requires { (bindings_most ≤ length g.now) × ((bindings_most ≤ row.lo) × ((row.lo + row.len ≤ entries_most) × (u < row.len))) }
    ensures { VariablePasses g.now row.lo row.len u result }
{
    if g[row.lo - BINDINGS_MOST + u] == 0 {
        u
    } else {
        u + 1
    }
}

impl Scope<'_> {
    // ---- names

    // The name of w.
    fn name(&self, w: usize) -> &[u8]
        ensures { result.now ≡ name_in self.now.script.now w }
    {
        lexer::bytes_at(self.script, start(w), len(w))
    }

    // How the name v stands to that of w: byte by byte, since the slices' own order looks at groups of bytes first, and names mostly differ in the first two.
    fn order(&self, v: &[u8], w: usize) -> Ordering
        ensures { Stands v.now (name_in self.now.script.now w) result }
    {
        v.iter().cmp(self.name(w).iter())
    }

    // ---- bindings

    fn operand(&self, i: usize) -> Stored
        requires { i < entries_most }
        ensures { IsAt self.now.scratch.now i result }
    {
        Stored {
            tag: tag(self.scratch[i]),
            bits: self.scratch[ENTRIES_MOST + i],
        }
    }

    // The latest of n bindings that has the name.
    pub fn find(&self, n: usize, name: &[u8]) -> Option<Stored>
        requires { n ≤ entries_most }
        ensures { VariableFinds self.now.script.now self.now.scratch.now n name.now result }
    {
        for i in (0..n).rev() {
            if lexer::same_bytes(self.name(self.scratch[i]), name) {
                return Some(self.operand(i));
            }
        }
        None
    }

    // What the name of w is among n bindings; nil if it is unbound.
    #[tactic(auto, using(crate::proofs::Laws::value_is))]
    fn value(&self, n: usize, w: usize) -> Stored
        requires { n ≤ entries_most }
        ensures { Values self.now.script.now self.now.scratch.now n w result }
    {
        self.find(n, self.name(w)).unwrap_or(Stored::NIL)
    }

    // ---- rows

    // Where the name of w stands in a row, or where it belongs.
    // Stays: the library's search begins in the middle, and names mostly rise: behind a look at the row's last it would be a second search.
    fn seek(&self, row: Row, w: usize) -> Result<usize, usize>
        requires lies { Lies self.now.script.now self.now.scratch.now row }
        ensures { Sought self.now.script.now self.now.scratch.now row.lo row.len w result }
    {
        let name = self.name(w);
        let mut a = 0;
        let mut b = row.len;
        while a < b {
            let j = probe(a, b, row.len);
            match self.order(name, self.scratch[row.lo + j]) {
                Ordering::Less => {
                    b = j;
                }
                Ordering::Equal => {
                    return Ok(j);
                }
                Ordering::Greater => {
                    a = j + 1;
                }
            }
        }
        Err(a)
    }

    // ---- notes: for each entry of a row the number of the latest binding of its name, counted from 1; 0 for none
    // Stays: they stand in fixed memory, where numbers of 16 bits take half the room of options.

    // Binding i is noted for the entry of its name, if the row has one and no other is noted for it.
    fn note(&self, g: &mut [u16], row: Row, i: usize)
        requires in_bounds { (bindings_most ≤ length g.old) × (i < entries_most) }
        requires aside { Aside self.now.script.now self.now.scratch.now row }
        ensures { Notes self.now.script.now self.now.scratch.now i row.lo row.len g.old g.new }
    {
        if let Ok(j) = self.seek(row, self.scratch[i]) {
            let q = row.lo - BINDINGS_MOST + j;
            if g[q] == 0 {
                g[q] = (i + 1) as u16;
            }
        }
    }

    // The base bindings are noted for a row for which none is noted, the latest first, until each entry has a note.
    #[tactic(auto, using(crate::proofs::Laws::noting_start))]
    fn note_row(&self, g: &mut [u16], base: usize, row: Row)
        requires in_bounds { (bindings_most ≤ length g.old) × (base ≤ entries_most) }
        requires aside { Aside self.now.script.now self.now.scratch.now row }
        requires noted { Noted self.now.script.now self.now.scratch.now 0 row.lo row.len g.old }
        ensures { NotesRow self.now.script.now self.now.scratch.now base row.lo row.len g.old g.new }
    {
        let mut u = 0;
        for i in (0..base).rev() {
            if u == row.len {
                return;
            }
            self.note(g, row, i);
            u = pass(g, row, u);
        }
    }

    // The base bindings are noted for two rows, the left one first.
    pub fn note_rows(&self, g: &mut [u16], base: usize, rows: Rows)
        requires in_bounds { (bindings_most ≤ length g.old) × (base ≤ entries_most) }
        requires aside { BothAside self.now.script.now self.now.scratch.now rows }
        requires apart { rows.left.lo + rows.left.len ≤ rows.right.lo }
        requires variables_blank { VariablesBlank g.old }
        ensures { NotesBoth self.now.script.now self.now.scratch.now base rows.left.lo rows.left.len rows.right.lo rows.right.len g.new }
    {
        self.note_row(g, base, rows.left);
        self.note_row(g, base, rows.right);
    }

    // What the name of entry p is among n bindings; nil if it is unbound. Without notes, or with none for the entry, the name is looked up.
    fn value_at(&self, g: Option<&[u16]>, n: usize, p: usize) -> Stored
        requires in_bounds { (n ≤ entries_most) × ((bindings_most ≤ p) × (p < entries_most)) }
        requires noted { IfSome g (λ t. Noted self.now.script.now self.now.scratch.now n p 1 t.now) }
        ensures { Values self.now.script.now self.now.scratch.now n (entry self.now.scratch.now p).word result }
    {
        if let Some(notes) = g {
            if let Some(&i) = notes.get(p - BINDINGS_MOST) {
                if i == 0 {
                    return Stored::NIL;
                }
                return self.operand(usize::from(i) - 1);
            }
        }
        self.value(n, self.scratch[p])
    }

    // ---- joins

    // How the first names of two rows stand to each other, a row that has none behind one that has; nothing where neither has one.
    fn turn(&self, rows: Rows) -> Option<Ordering>
        requires left { Lies self.now.script.now self.now.scratch.now rows.left }
        requires right { Lies self.now.script.now self.now.scratch.now rows.right }
        ensures { VariablesTurned self.now.script.now self.now.scratch.now rows.left.lo rows.left.len rows.right.lo rows.right.len result }
    {
        match (rows.left.len, rows.right.len) {
            (0, 0) => None,
            (0, _) => Some(Ordering::Greater),
            (_, 0) => Some(Ordering::Less),
            _ => {
                let first = self.name(self.scratch[rows.left.lo]);
                Some(self.order(first, self.scratch[rows.right.lo]))
            }
        }
    }

    // The next name of two rows, which the arms set over base bindings; g has the rows' notes, if there are any.
    pub fn next_join(&self, g: Option<&[u16]>, base: usize, rows: Rows) -> Option<Joint>
        requires in_bounds { base ≤ entries_most }
        requires aside { BothAside self.now.script.now self.now.scratch.now rows }
        requires notes_both { IfSome g (λ t. NotesBoth self.now.script.now self.now.scratch.now base rows.left.lo rows.left.len rows.right.lo rows.right.len t.now) }
        ensures { Nexts self.now.script.now self.now.scratch.now base rows.left.lo rows.left.len rows.right.lo rows.right.len result }
    {
        let lo = rows.left.lo;
        let hi = rows.right.lo;
        match self.turn(rows) {
            Some(Ordering::Less) => Some(Joint {
                word: self.scratch[lo],
                left: self.operand(lo),
                right: self.value_at(g, base, lo),
                lefts: 1,
                rights: 0,
            }),
            Some(Ordering::Greater) => Some(Joint {
                word: self.scratch[hi],
                left: self.value_at(g, base, hi),
                right: self.operand(hi),
                lefts: 0,
                rights: 1,
            }),
            Some(Ordering::Equal) => Some(Joint {
                word: self.scratch[lo],
                left: self.operand(lo),
                right: self.operand(hi),
                lefts: 1,
                rights: 1,
            }),
            None => None,
        }
    }
}
