// Cases of the eight calls, under the main screen's limits, or under limits that the case has
// in front of the call's byte and payload. The answer, 0 or the refusal's number, and the layout's kind, a byte each;
// the length of the sheet, or of a label's text, four bytes; the sheet; and what the call is given
// besides, with what it must write. A lent output is the middle of a longer one, which holds 170 in
// every byte, or UNSET in every number, before the call.
#![tactic(auto)]

ghost use Rattle.std.specs.Prelude.{◌≡◌, List, Bool, ℕ, ◌+◌, ◌<◌, ◌≤◌, eqb, length, get_or, take, drop, Float};
ghost use Rattle.refusal.specs.Refused.{outcome};
ghost use Rattle.calls.specs.Calls as C;
ghost use Rattle.cases.specs.Payload.{word_at, long_at};
ghost use Rattle.call_cases.specs.Cases as S;
ghost use Rattle.call_cases.specs.Lent as L;

use cases::{Call, Kind, UnknownKind, byte, fill, float, index, long, same, same_float, size};
use refusal::Refusal;
use sheet::Limits;

// No answer holds it.
const UNSET: f64 = 7e250;

// ---- what is lent

// The value at a place, `unset` past the end.
fn value_at<T: Copy>(l: &[T], i: usize, unset: T) -> T
    ensures { result ≡ get_or l.now i unset }
{
    if i < l.len() { l[i] } else { unset }
}

// Whether `out` holds the values and `unset` after them.
fn holds<T: Copy, F: Fn(T, T) -> bool>(out: &[T], values: &[T], unset: T, same: &F) -> bool
    requires { F.IsAlwaysCallable same.now }
    ensures { (alike : T → T → Bool) → ((x y r : _) → F.post same.now x y r → r ≡ alike x y)
        → result ≡ S.holds alike unset out.now values.now }
{
    if out.len() < values.len() {
        return false;
    }
    for (i, value) in out.iter().enumerate() {
        if !same(*value, value_at(values, i, unset)) {
            return false;
        }
    }
    true
}

// Whether `out` holds the values from place 16 on, and `unset` before and behind them.
fn stands<T: Copy, F: Fn(T, T) -> bool>(out: &[T], values: &[T], unset: T, same: F) -> bool
    requires { F.IsAlwaysCallable same }
    ensures { (alike : T → T → Bool) → ((x y r : _) → F.post same x y r → r ≡ alike x y)
        → result ≡ S.stands alike unset out.now values.now }
{
    if out.len() < 16 {
        return false;
    }
    if !holds(&out[..16], &values[..0], unset, &same) {
        return false;
    }
    holds(&out[16..], values, unset, &same)
}

fn numbers_stand(out: &[f64], numbers: &[f64]) -> bool
    ensures { result ≡ S.numbers_stand out.now numbers.now }
{
    stands(out, numbers, UNSET, same)
}

fn text_stands(out: &[u8], text: &[u8]) -> bool
    ensures { result ≡ S.text_stands out.now text.now }
{
    stands(out, text, 170, |x: u8, y: u8| x == y)
}

// The same of the n numbers in a payload from a place on.
fn numbers_in(p: &[u8], at: usize, n: usize, out: &[f64]) -> bool
    ensures { result ≡ S.numbers_stand_in p.now at n out.now }
{
    if n > 5120 {
        return false;
    }
    let mut numbers = [0.0f64; 5120];
    fill(at, &mut numbers, |place| float(p, place));
    numbers_stand(out, &numbers[..n])
}

// ---- a case

// A case of a call: what the call must answer, the layout's kind, the sheet, or a label's text, and the limits; `rest` is what the
// call is given besides, with what it must write. The answer stays a byte, which is compared with the number of a refusal. So does
// the layout's kind: a call takes any byte, and refuses by 11 those that are no kind's.
#[derive(Clone, Copy)]
struct Case<'a> {
    answer: u8,
    layout_kind: u8,
    sheet: &'a [u8],
    limits: Limits,
    rest: &'a [u8],
}

impl<'a> Case<'a> {
    // Whether a call has answered as the case says: 0 where the values are right, or the refusal's number.
    fn outcome_is<A, F: FnOnce(A) -> bool>(&self, answered: Result<A, Refusal>, right: F) -> bool
        requires { F.IsAlwaysCallable right }
        ensures { (good : A → Bool) → ((values : A) (b : Bool) → F.post right values b → b ≡ good values)
            → result ≡ S.outcome_right self.now.answer good (outcome answered) }
    {
        match answered {
            Ok(values) => right(values) && self.answer == 0,
            Err(refusal) => self.answer == u8::from(refusal),
        }
    }

    // Whether a call has answered so by the length of a text, and the text stands in `out`.
    fn wrote(&self, written: Result<usize, Refusal>, text: &[u8], out: &[u8]) -> bool
        ensures { result ≡ S.wrote self.now.answer text.now (outcome written) out.now }
    {
        if !self.outcome_is(written, |n| n == text.len()) {
            return false;
        }
        text_stands(out, text)
    }
}

// The number in the four bytes from a place on, for a length or a count.
fn length_at(p: &[u8], at: usize) -> usize
    ensures { (result ≡ long_at p.now at) × (result < 4294967296) }
{
    long(p, at) as usize
}

// ---- check, size a label block, write a number

#[tactic(auto, unfolding(crate::specs::Cases::size_is))]
fn size_is(rest: &[u8], w: f64, h: f64) -> bool
    ensures { result ≡ S.size_is rest.now (w, h) }
{
    same_float(rest, 2, w) && same_float(rest, 10, h)
}

// Writes a number into the middle of `out`.
fn number_in(v: f64, room: usize, out: &mut [u8]) -> Result<usize, Refusal>
    requires { 16 + room ≤ length out.old }
    ensures { (outcome result ≡ C.write_num v (take room (drop 16 out.old)))
        × (out.new ≡ S.around room (C.write_num_after v) out.old) }
{
    let end = 16 + room;
    calls::write_num(v, &mut out[16..end])
}

impl<'a> Case<'a> {
    fn check_is(&self) -> bool
        ensures { result ≡ S.check_is (L.case_in self.now) }
    {
        self.outcome_is(calls::check(self.sheet, self.limits), |()| true)
    }

    fn label_agrees(&self) -> bool
        ensures { result ≡ S.label_agrees (L.case_in self.now) }
    {
        let lines = index(self.rest, 0);
        if lines > 16 {
            return false;
        }
        let mut lengths = [0usize; 16];
        fill(18, &mut lengths, |place| size(self.rest, place));
        self.outcome_is(
            calls::label_size(self.sheet, &lengths[..lines], self.limits),
            |(w, h)| size_is(self.rest, w, h),
        )
    }

    #[tactic(auto, unfolding(crate::specs::Cases::number_is))]
    fn number_is(&self, v: f64, room: usize, text: &[u8], out: &mut [u8]) -> bool
        requires { 16 + room ≤ length out.old }
        ensures { result ≡ S.number_is (L.case_in self.now) v room text.now out.old }
    {
        let w = number_in(v, room, out);
        self.wrote(w, text, out)
    }

    fn number_agrees(&self) -> bool
        ensures { result ≡ S.number_agrees (L.case_in self.now) }
    {
        let room = index(self.rest, 8);
        if room > 64 {
            return false;
        }
        if self.rest.len() < 10 {
            return false;
        }
        let mut out = [170u8; 96];
        self.number_is(float(self.rest, 0), room, &self.rest[10..], &mut out)
    }
}

// ---- list a drawing

impl<'a> Case<'a> {
    // Lists into the middle of `out`.
    fn list_in(&self, room: usize, out: &mut [u8]) -> Result<usize, Refusal>
        requires { 16 + room ≤ length out.old }
        ensures { let s = self.now.sheet.now in
            (outcome result ≡ C.list s self.now.limits self.now.layout_kind room)
            × (out.new ≡ S.around room (C.list_after s self.now.limits self.now.layout_kind) out.old) }
    {
        let end = 16 + room;
        calls::list(self.sheet, self.limits, self.layout_kind, &mut out[16..end])
    }

    #[tactic(auto, unfolding(crate::specs::Cases::list_is))]
    fn list_is(&self, room: usize, text: &[u8], out: &mut [u8]) -> bool
        requires { 16 + room ≤ length out.old }
        ensures { result ≡ S.list_is (L.case_in self.now) room text.now out.old }
    {
        let w = self.list_in(room, out);
        self.wrote(w, text, out)
    }

    fn list_agrees(&self) -> bool
        ensures { result ≡ S.list_agrees (L.case_in self.now) }
    {
        let room = index(self.rest, 0);
        if self.rest.len() < 2 {
            return false;
        }
        let mut out = [170u8; 65600];
        self.list_is(room, &self.rest[2..], &mut out)
    }
}

// ---- write a sheet

impl<'a> Case<'a> {
    // Writes into the middle of `out`.
    fn sheet_in(&self, room: usize, out: &mut [u8]) -> Result<usize, Refusal>
        requires { 16 + room ≤ length out.old }
        ensures { let s = self.now.sheet.now in
            (outcome result ≡ C.write_sheet s self.now.limits room)
            × (out.new ≡ S.around room (C.write_sheet_after s self.now.limits) out.old) }
    {
        let end = 16 + room;
        calls::write_sheet(self.sheet, self.limits, &mut out[16..end])
    }

    #[tactic(auto, unfolding(crate::specs::Cases::sheet_is))]
    fn sheet_is(&self, room: usize, text: &[u8], out: &mut [u8]) -> bool
        requires { 16 + room ≤ length out.old }
        ensures { result ≡ S.sheet_is (L.case_in self.now) room text.now out.old }
    {
        let w = self.sheet_in(room, out);
        self.wrote(w, text, out)
    }

    fn sheet_agrees(&self) -> bool
        ensures { result ≡ S.sheet_agrees (L.case_in self.now) }
    {
        let room = length_at(self.rest, 0);
        if room > 65568 {
            return false;
        }
        if self.rest.len() < 4 {
            return false;
        }
        let mut out = [170u8; 65600];
        self.sheet_is(room, &self.rest[4..], &mut out)
    }
}

// ---- lay out a sheet

#[tactic(auto, unfolding(crate::specs::Cases::laid_is))]
fn laid_is(rest: &[u8], n: usize, w: f64, h: f64) -> bool
    ensures { result ≡ S.laid_is rest.now (n, w, h) }
{
    n == index(rest, 4) && (same_float(rest, 6, w) && same_float(rest, 14, h))
}

impl<'a> Case<'a> {
    // Lays out into the middles of `xs` and `ys`, which are apart as the calls have them: the C interface's parallel arrays.
    fn layout_in(
        &self,
        nx: usize,
        ny: usize,
        xs: &mut [f64],
        ys: &mut [f64],
    ) -> Result<(usize, f64, f64), Refusal>
        requires { (16 + nx ≤ length xs.old) × (16 + ny ≤ length ys.old) }
        ensures { let s = self.now.sheet.now in
            let m = self.now.limits in
            let by = self.now.layout_kind in
            (outcome result ≡ C.layout s m by nx ny)
            × (xs.new ≡ S.around nx (λ (l : List Float). C.xs_after s m by l ny) xs.old)
            × (ys.new ≡ S.around ny (C.ys_after s m by nx) ys.old) }
    {
        let ex = 16 + nx;
        let ey = 16 + ny;
        calls::layout(
            self.sheet,
            self.limits,
            self.layout_kind,
            &mut xs[16..ex],
            &mut ys[16..ey],
        )
    }

    fn layout_is(&self, xs: &mut [f64], ys: &mut [f64]) -> bool
        requires { (16 + word_at self.now.rest.now 0 ≤ length xs.old)
            × (16 + word_at self.now.rest.now 2 ≤ length ys.old) }
        ensures { result ≡ S.layout_is (L.case_in self.now) xs.old ys.old }
    {
        let n = index(self.rest, 4);
        let l = self.layout_in(index(self.rest, 0), index(self.rest, 2), xs, ys);
        if !self.outcome_is(l, |(n, w, h)| laid_is(self.rest, n, w, h)) {
            return false;
        }
        if !numbers_in(self.rest, 22, n, xs) {
            return false;
        }
        numbers_in(self.rest, 22 + 8 * n, n, ys)
    }

    fn layout_agrees(&self) -> bool
        ensures { result ≡ S.layout_agrees (L.case_in self.now) }
    {
        if index(self.rest, 0) > 128 {
            return false;
        }
        if index(self.rest, 2) > 128 {
            return false;
        }
        let mut xs = [UNSET; 160];
        let mut ys = [UNSET; 160];
        self.layout_is(&mut xs, &mut ys)
    }
}

// ---- a case at centres

// A case at the centres that it gives, which are apart as the calls have them; its `rest` is what it has behind them.
#[derive(Clone, Copy)]
struct CentredCase<'a> {
    case: Case<'a>,
    xs: &'a [f64],
    ys: &'a [f64],
}

impl<'a> Case<'a> {
    // Whether `drawn` holds of the case at its centres.
    fn at_centres<F: FnOnce(&CentredCase) -> bool>(&self, drawn: F) -> bool
        requires { F.IsAlwaysCallable drawn }
        ensures { (good : S.CentredCase → Bool)
            → ((case b : _) → F.post drawn case b → b ≡ good (L.centred_in case.now))
            → result ≡ S.at_centres good (L.case_in self.now) }
    {
        let nx = index(self.rest, 0);
        let ny = index(self.rest, 2);
        let end = 4 + 8 * nx + 8 * ny;
        if nx > 80 {
            return false;
        }
        if ny > 80 {
            return false;
        }
        if self.rest.len() < end {
            return false;
        }
        let mut xs = [0.0f64; 80];
        let mut ys = [0.0f64; 80];
        fill(4, &mut xs, |place| float(self.rest, place));
        fill(4 + 8 * nx, &mut ys, |place| float(self.rest, place));
        let behind = Case {
            rest: &self.rest[end..],
            ..*self
        };
        drawn(&CentredCase {
            case: behind,
            xs: &xs[..nx],
            ys: &ys[..ny],
        })
    }
}

// ---- route a sheet, count clutter

#[tactic(auto, unfolding(crate::specs::Cases::lengths_are))]
fn lengths_are(n: usize, text: &[u8], k: usize, m: usize) -> bool
    ensures { result ≡ S.lengths_are n text.now (k, m) }
{
    k == n && m == text.len()
}

impl<'a> CentredCase<'a> {
    // Routes into the middles of `records` and `out`.
    fn route_in(
        &self,
        room: usize,
        bytes: usize,
        records: &mut [f64],
        out: &mut [u8],
    ) -> Result<(usize, usize), Refusal>
        requires { (16 + room ≤ length records.old) × (16 + bytes ≤ length out.old) }
        ensures { let s = self.now.case.sheet.now in
            let m = self.now.case.limits in
            let xs = self.now.xs.now in
            let ys = self.now.ys.now in
            (outcome result ≡ C.route s m xs ys room bytes)
            × (records.new ≡ S.around room (λ (l : List Float). C.records_after s m xs ys l bytes) records.old)
            × (out.new ≡ S.around bytes (C.text_after s m xs ys room) out.old) }
    {
        let end = 16 + room;
        let stop = 16 + bytes;
        calls::route(
            self.case.sheet,
            self.case.limits,
            self.xs,
            self.ys,
            &mut records[16..end],
            &mut out[16..stop],
        )
    }

    fn route_is(&self, text: &[u8], records: &mut [f64], out: &mut [u8]) -> bool
        requires { (16 + word_at self.now.case.rest.now 0 ≤ length records.old)
            × (16 + word_at self.now.case.rest.now 2 ≤ length out.old) }
        ensures { result ≡ S.route_is (L.centred_in self.now) text.now records.old out.old }
    {
        let rest = self.case.rest;
        let n = index(rest, 4);
        let r = self.route_in(index(rest, 0), index(rest, 2), records, out);
        if !self.case.outcome_is(r, |(k, m)| lengths_are(n, text, k, m)) {
            return false;
        }
        if !numbers_in(rest, 6, n, records) {
            return false;
        }
        text_stands(out, text)
    }

    fn route_agrees(&self) -> bool
        ensures { result ≡ S.route_agrees (L.centred_in self.now) }
    {
        let rest = self.case.rest;
        let end = 6 + 8 * index(rest, 4);
        if index(rest, 0) > 5200 {
            return false;
        }
        if index(rest, 2) > 25700 {
            return false;
        }
        if rest.len() < end {
            return false;
        }
        let mut records = [UNSET; 5248];
        let mut out = [170u8; 25732];
        self.route_is(&rest[end..], &mut records, &mut out)
    }

    fn clutter_agrees(&self) -> bool
        ensures { result ≡ S.clutter_agrees (L.centred_in self.now) }
    {
        let case = self.case;
        let count = length_at(case.rest, 0);
        let counted = calls::clutter(case.sheet, case.limits, self.xs, self.ys);
        case.outcome_is(counted, |n| n == count)
    }
}

// ---- a call

impl<'a> Case<'a> {
    // Whether the call answers, and leaves in what it is lent, what the case says.
    #[tactic(auto, unfolding(crate::specs::Cases::called))]
    fn called(&self, call: Call) -> bool
        ensures { result ≡ S.called call (L.case_in self.now) }
    {
        match call {
            Call::Route => self.at_centres(|case| case.route_agrees()),
            Call::Layout => self.layout_agrees(),
            Call::Clutter => self.at_centres(|case| case.clutter_agrees()),
            Call::List => self.list_agrees(),
            Call::Check => self.check_is(),
            Call::LabelSize => self.label_agrees(),
            Call::WriteNum => self.number_agrees(),
            Call::WriteSheet => self.sheet_agrees(),
        }
    }
}

// A case of a call under these limits.
fn called_under(limits: Limits, call: Call, p: &[u8]) -> bool
    ensures { result ≡ S.called_under limits call p.now }
{
    let end = 6 + length_at(p, 2);
    if p.len() < end {
        return false;
    }
    let case = Case {
        answer: byte(p, 0),
        layout_kind: byte(p, 1),
        sheet: &p[6..end],
        limits,
        rest: &p[end..],
    };
    case.called(call)
}

// The limits at the front of a payload.
#[tactic(auto, unfolding(crate::specs::Cases::limits_at))]
fn limits_at(p: &[u8]) -> Limits
    ensures { result ≡ S.limits_at p.now }
{
    Limits {
        states: size(p, 0),
        arrows: size(p, 8),
        lines: size(p, 16),
    }
}

// A case of a call under the main screen's limits.
fn agrees_on_main_screen(call: Call, p: &[u8]) -> bool
    ensures { result ≡ S.called_under C.main_screen call p.now }
{
    called_under(sheet::main_screen(), call, p)
}

// A case that has limits, a call's byte and what that call's case has.
pub fn agrees_under_limits(p: &[u8]) -> bool
    ensures { result ≡ S.under_limits_agrees p.now }
{
    if p.len() < 25 {
        return false;
    }
    match Call::try_from(byte(p, 24)) {
        Ok(call) => called_under(limits_at(p), call, &p[25..]),
        Err(_) => false,
    }
}

// A case by its kind's number: a call under the main screen's limits, or under the case's own; one of any other number is
// never right.
#[tactic(auto, using(crate::specs::Laws::agrees_call, crate::specs::Laws::agrees_under, crate::specs::Laws::agrees_stand_in, crate::specs::Laws::agrees_none))]
pub fn agrees(number: u8, p: &[u8]) -> bool
    ensures { result ≡ S.call_agrees number p.now }
{
    match Kind::try_from(number) {
        Ok(Kind::Call(call)) => agrees_on_main_screen(call, p),
        Ok(Kind::UnderLimits) => agrees_under_limits(p),
        Ok(Kind::StandIn(_)) => false,
        Err(UnknownKind) => false,
    }
}
