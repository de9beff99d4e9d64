// The columns of the layered layout: breadth-first from one state, the states that are not reached in one last column.
#![tactic(auto)]

ghost use Rattle.std.specs.Prelude.{◌≡◌, ℕ, false, List, [], ◌++◌, ◌^◌, ◌≤◌, ◌<◌, length, get_or, set, take, drop};
ghost use Rattle.laws.specs.Loops.{over};
ghost use Rattle.laws.specs.Split.{split, sum_all};
ghost use Rattle.std.specs.List.{position_or_len};
ghost use Rattle.columns.specs.Columns as D;
ghost use Rattle.columns.specs.Found.{Fair, Reached, follow};

use sheet::Ends;
use stack::Stack;
use std::marker::Model;

// The states, by how many there are, and the arrows.
#[derive(Clone, Copy)]
pub struct Net<'a> {
    pub states: usize,
    pub arrows: &'a [Ends],
}

// Whether w is one of a list.
#[tactic(auto, using(crate::proofs::Laws::elem_list))]
pub fn contains(list: &[usize], w: usize) -> bool
    ensures { result ≡ D.elem w list.now }
{
    list.contains(&w)
}

// ---- the search

// Puts w behind those found, where it is none of them.
#[tactic(auto, using(crate::specs::Found::discover_new, crate::specs::Found::discover_old))]
fn discover<const N: usize>(found: &mut Stack<usize, N>, w: usize)
    requires room { D.elem w found.old ≡ false → length found.old < N }
    ensures { found.new ≡ D.discover found.old w }
{
    if !contains(found.as_slice(), w) {
        found.push(w);
    }
}

// `room` and `fair` are facts of a net and of a list together, and so no invariant of either.
impl<'a> Net<'a> {
    // Whether an arrow leads from v to another state.
    fn leaves(&self, v: usize, arrow: Ends) -> bool
        ensures { result ≡ D.leaves self.now.states v arrow }
    {
        arrow.source == v && directions::is_between(self.states, arrow.source, arrow.target)
    }

    // Follows one arrow from v.
    #[tactic(auto, using(crate::proofs::Laws::following))]
    fn follow<const N: usize>(&self, found: &mut Stack<usize, N>, v: usize, arrow: Ends)
        requires room { self.now.states ≤ N }
        requires fair { Fair self.now.states found.old }
        ensures { found.new ≡ follow self.now.states v found.old arrow }
    {
        if self.leaves(v, arrow) {
            discover(found, arrow.target);
        }
    }

    // Follows the arrows that leave v.
    #[tactic(auto, using(crate::proofs::Laws::visiting))]
    fn visit<const N: usize>(&self, found: &mut Stack<usize, N>, v: usize)
        requires room { self.now.states ≤ N }
        requires fair { Fair self.now.states found.old }
        ensures { let successors = D.successors self.now.states self.now.arrows.now v in
            found.new ≡ over D.discover found.old successors }
    {
        for arrow in self.arrows {
            self.follow(found, v, *arrow);
        }
    }

    // Follows the arrows that leave the states found, from place `low` on.
    #[tactic(auto, using(crate::proofs::Laws::exploring))]
    fn explore<const N: usize>(&self, found: &mut Stack<usize, N>, low: usize)
        requires room { self.now.states ≤ N }
        requires fair { Fair self.now.states found.old }
        requires some { low ≤ length found.old }
        ensures { found.new ≡ D.explore self.now.states self.now.arrows.now found.old (drop low found.old) }
    {
        // By place: the loop adds to `found` while it reads it.
        for i in low..found.len() {
            let v = found.as_slice()[i];
            self.visit(found, v);
        }
    }

    // Finds the states that are reached from `start`, in order of discovery; the sizes of the columns that they make.
    #[tactic(auto, using(crate::proofs::Laws::search_grown))]
    fn reach<const N: usize>(&self, start: usize, found: &mut Stack<usize, N>) -> Stack<usize, N>
        requires none { found.old ≡ [] }
        requires room { self.now.states ≤ N }
        requires state { start < self.now.states }
        ensures { Reached self.now.states self.now.arrows.now start found.new result }
    {
        let mut sizes = Stack::new(0);
        found.push(start);
        sizes.push(1);
        let mut low: usize = 0;
        // At most one turn for each state: every turn but the last finds one.
        for _ in 0..self.states {
            let high = found.len();
            self.explore(found, low);
            let new = found.len() - high;
            if new == 0 {
                break;
            }
            sizes.push(new);
            low = high;
        }
        sizes
    }

    // Puts the states that are not found behind those that are.
    #[tactic(auto, using(crate::proofs::Laws::adding))]
    fn put_unreached<const N: usize>(&self, found: &mut Stack<usize, N>)
        requires room { self.now.states ≤ N }
        requires fair { Fair self.now.states found.old }
        ensures { found.new ≡ found.old ++ D.unreached self.now.states found.old }
    {
        // A state is its number: nothing is indexed.
        for v in 0..self.states {
            discover(found, v);
        }
    }

    // Finds all states, in the order of the columns; the columns' sizes.
    #[tactic(auto, using(crate::proofs::Laws::filling))]
    fn fill<const N: usize>(&self, start: usize, found: &mut Stack<usize, N>) -> Stack<usize, N>
        requires none { found.old ≡ [] }
        requires room { self.now.states ≤ N }
        requires state { start < self.now.states }
        ensures all { sum_all result ≡ length found.new }
        ensures within { length found.new ≤ N }
        ensures columns { split result found.new ≡ D.columns self.now.states self.now.arrows.now start }
    {
        let mut sizes = self.reach(start, found);
        let reached = found.len();
        self.put_unreached(found);
        if reached < self.states {
            sizes.push(self.states - reached);
        }
        sizes
    }
}

// ---- the columns

// Where column l begins.
fn start_of(sizes: &[usize], l: usize) -> usize
    requires column { l ≤ length sizes.now }
    requires fits { sum_all sizes.now < 2 ^ 64 }
    ensures { result ≡ sum_all (take l sizes.now) }
{
    sizes[..l].iter().sum()
}

// The number of the column that holds v, or how many columns there are. By number: where a column begins is carried on, and
// not added up anew for each.
fn column_holding(sizes: &[usize], order: &[usize], v: usize) -> usize
    requires fits { sum_all sizes.now ≤ length order.now }
    ensures { (result ≡ position_or_len (D.elem v) (split sizes.now order.now)) × (result ≤ length sizes.now) }
{
    let mut start: usize = 0;
    for l in 0..sizes.len() {
        let end = start + sizes[l];
        if contains(&order[start..end], v) {
            return l;
        }
        start = end;
    }
    sizes.len()
}

// Values one after another, as a stack.
fn stacked<const N: usize>(values: &[usize]) -> Stack<usize, N>
    requires { length values.now ≤ N }
    ensures { result ≡ values.now }
{
    let mut stack = Stack::new(0);
    for value in values {
        stack.push(*value);
    }
    stack
}

// The columns one after another in `order`; `sizes` says how long each is. (`order` is an array, since columns are put in
// another order within it, and a stack lends its values only to be read.)
#[derive(Drop)]
pub struct Columns<const N: usize> {
    order: [usize; N],
    sizes: Stack<usize, N>,
}

// Clauses see each column as the list of its states.
impl<const N: usize> Model for Columns<N> {
    ghost Value = { List (List ℕ) };

    ghost view = { λ c. split c.sizes c.order };

    ghost invariant = { λ c. sum_all c.sizes ≤ N };
}

impl<const N: usize> Columns<N> {
    // The columns of the layered layout.
    #[tactic(auto, using(crate::proofs::Laws::split_copied))]
    pub fn breadth_first(net: &Net, start: usize) -> Self
        requires room { net.now.states ≤ N }
        requires state { start < net.now.states }
        ensures { result ≡ D.columns net.now.states net.now.arrows.now start }
    {
        let mut found: Stack<usize, N> = Stack::new(0);
        let sizes = net.fill(start, &mut found);
        let mut order = [0usize; N];
        slices::copy(found.as_slice(), &mut order);
        Columns { order, sizes }
    }

    // Columns of these sizes, one after another in `order`.
    #[tactic(auto, using(crate::proofs::Laws::split_copied))]
    pub fn of(order: &[usize], sizes: &[usize]) -> Self
        requires all { sum_all sizes.now ≡ length order.now }
        requires room { (length order.now ≤ N) × (length sizes.now ≤ N) }
        ensures { result ≡ split sizes.now order.now }
    {
        let mut room = [0usize; N];
        slices::copy(order, &mut room);
        Columns {
            order: room,
            sizes: stacked(sizes),
        }
    }

    // The number of the column that holds v, or how many columns there are.
    pub fn place_of(&self, v: usize) -> usize
        ensures place { result ≡ position_or_len (D.elem v) self.now }
        ensures within { result ≤ N }
    {
        column_holding(self.sizes.as_slice(), &self.order, v)
    }

    // How many columns there are.
    #[tactic(auto, using(crate::proofs::Laws::counting))]
    pub fn count(&self) -> usize
        ensures count { result ≡ length self.now }
        ensures within { result ≤ N }
    {
        self.sizes.len()
    }

    // How many states column l has.
    pub fn size(&self, l: usize) -> usize
        requires { l < length self.now }
        ensures size { result ≡ length (get_or self.now l []) }
        ensures within { result ≤ N }
    {
        self.column(l).len()
    }

    // The states of column l.
    #[tactic(auto, using(crate::proofs::Laws::reading))]
    pub fn column(&self, l: usize) -> &[usize]
        requires { l < length self.now }
        ensures states { result.now ≡ get_or self.now l [] }
        ensures within { length result.now ≤ N }
    {
        let sizes = self.sizes.as_slice();
        let start = start_of(sizes, l);
        let order = &self.order[..];
        &order[start..start + sizes[l]]
    }

    // Puts the states of column l in another order.
    #[tactic(auto, using(crate::proofs::Laws::storing))]
    pub fn reorder(&mut self, l: usize, states: &[usize])
        requires column { l < length self.old }
        requires level { length states.now ≡ length (get_or self.old l []) }
        ensures { self.new ≡ set self.old l states.now }
    {
        let start = start_of(self.sizes.as_slice(), l);
        let order = &mut self.order[..];
        order[start..start + states.len()].copy_from_slice(states);
    }
}
