// The scene while labels are placed: what a label costs in it, and the search for the label's place.
#![tactic(auto)]

ghost use Rattle.std.specs.Prelude.{◌≡◌, ℕ, Bool, map, ◌+◌, ◌*◌, ◌≤◌, ◌<◌, length};
ghost use Rattle.laws.specs.Best.{cut_total, search_from};
ghost use Rattle.laws.specs.Counting.{worth};
ghost use Rattle.std.specs.Fn.{FnReturnsAt};
ghost use Rattle.std.specs.List.{count_by};
ghost use Rattle.label_spots.specs.Spots.{upper, spot_count};
ghost use Rattle.scene.specs.Scene as S;
ghost use Rattle.scene.specs.Turn as T;
ghost use Rattle.scene.specs.Cut as C;

use label::LABEL_CHAR_WIDTH;
use label_spots::{Geometry, Turn};
use shape::{NODE_RADIUS, Rect, V};
use trace::Trace;

// The distance that states and other arrows keep from a label.
const KEEP: f64 = 4.0;

// The square of the distance below which a state is too near to a label that is placed.
const NEAR26_SQUARED: f64 = (NODE_RADIUS + KEEP) * (NODE_RADIUS + KEEP);

// Above every cost.
const NO_LIMIT: usize = usize::MAX;

// What is drawn already while labels are placed: the states' centres, the labels placed so far, and the traces.
#[derive(Clone, Copy)]
pub struct Scene<'a> {
    pub states: &'a [V],
    pub boxes: &'a [Rect],
    pub traces: &'a [Trace],
}

// ---- sums over the scene

// Whether a state with centre c is nearer to the box than its radius and KEEP, by the squares. That the squares tell it is worked out
// for this distance, so `trace` and `clutter` have a test of their own for theirs.
#[tactic(auto, using(crate::proofs::Laws::near26_is))]
fn near(b: Rect, c: V) -> bool
    ensures { result ≡ S.near26 b c }
{
    b.dist_squared(c) < NEAR26_SQUARED
}

fn states_cost(states: &[V], b: Rect) -> usize
    ensures { (result ≡ 10 * count_by (S.near26 b) states.now) × (result ≤ 10 * length states.now) }
{
    10 * states.iter().filter(|c| near(b, **c)).count()
}

// `start` and `points` for each item that passes the test, counted until the limit is reached.
fn cut_count<T, F: Fn(&T) -> bool>(
    items: &[T],
    test: F,
    points: usize,
    start: usize,
    limit: usize,
) -> usize
    requires callable { F.IsAlwaysCallable test }
    requires fits { start + points * length items.now < 18446744073709551616 }
    ensures sum { (p : T → Bool) → ((x : T) (r : Bool) → FnReturnsAt F.Fn test x r → r ≡ p x)
        → result ≡ cut_total limit start (map (worth p points) items.now) }
    ensures most { result ≤ start + points * length items.now }
{
    let mut sum = start;
    for x in items {
        if limit <= sum {
            return sum;
        }
        if test(x) {
            sum += points;
        }
    }
    sum
}

// The room that other labels keep: a character's width to the side, so that two labels never read as one line.
fn apart(b: Rect) -> Rect
    ensures { result ≡ S.apart b }
{
    Rect {
        x0: b.x0 - LABEL_CHAR_WIDTH,
        y0: b.y0 - KEEP,
        x1: b.x1 + LABEL_CHAR_WIDTH,
        y1: b.y1 + KEEP,
    }
}

impl<'a> Scene<'a> {
    // The cost of a label in the box b, of arrow `own`, counted until it reaches the limit.
    fn cut_cost(&self, own: usize, b: Rect, limit: usize) -> usize
        ensures cost { result ≡ C.cut_cost (S.scene_in self.now) own limit b }
        ensures most { result ≤ S.most (S.scene_in self.now) }
    {
        let far = apart(b);
        let wide = b.grown(KEEP);
        let states = states_cost(self.states, b);
        let more = cut_count(self.boxes, |o: &Rect| o.overlaps(far), 6, states, limit);
        cut_count(
            self.traces,
            |t: &Trace| t.strikes(own, wide),
            3,
            more,
            limit,
        )
    }

    // The full cost.
    pub fn box_cost(&self, own: usize, b: Rect) -> usize
        ensures cost { result ≡ S.box_cost (S.scene_in self.now) own b }
        ensures most { result ≤ S.most (S.scene_in self.now) }
    {
        self.cut_cost(own, b, NO_LIMIT)
    }
}

// ---- the search for a place

// Of so many places the first that no other undercuts. A cost is given the best so far, and need not be counted above it.
// A place of cost 0 ends the search.
pub fn first_least<F: Fn(usize, usize) -> usize>(places: usize, cost: F) -> usize
    requires callable { (limit j : ℕ) → limit < 18446744073709551616 → j < places → F.pre cost limit j }
    ensures { (cut : ℕ → ℕ → ℕ) → ((limit j c : ℕ) → limit < 18446744073709551616 → j < places → F.post cost limit j c → c ≡ cut limit j)
        → result ≡ search_from cut places 0 18446744073709551615 0 }
{
    let mut least = NO_LIMIT;
    let mut place: usize = 0;
    // Places are numbered and are no slice: `cost` takes the number.
    for j in 0..places {
        let c = cost(least, j);
        if c < least {
            least = c;
            place = j;
        }
        if c == 0 {
            return place;
        }
    }
    place
}

// The arrow with its label at place j.
fn labelled_at(t: Turn, up: V, j: usize) -> Geometry
    requires { (up ≡ upper t.arrow.curve) × (j < spot_count t.arrow.shape) }
    ensures { result ≡ T.labelled_at t j }
{
    label_spots::labelled(t, label_spots::spot_at(t.arrow.curve, t.arrow.shape, up, j))
}

impl<'a> Scene<'a> {
    // The place that the label takes: of those listed, the first that no other undercuts.
    fn take_spot(&self, t: Turn, up: V) -> usize
        requires { up ≡ upper t.arrow.curve }
        ensures { result ≡ T.taken (S.scene_in self.now) t }
    {
        let places = label_spots::spot_count(t.arrow.shape);
        first_least(places, |limit: usize, j: usize| {
            self.cut_cost(t.edge, labelled_at(t, up, j).label_box, limit)
        })
    }

    // The arrow with its label at the place that it takes.
    #[tactic(auto, using(crate::proofs::Laws::taken_inside))]
    pub fn take_place(&self, t: Turn) -> Geometry
        ensures { result ≡ T.placed_arrow (S.scene_in self.now) t }
    {
        let up = label_spots::upper(t.arrow.curve);
        labelled_at(t, up, self.take_spot(t, up))
    }
}
