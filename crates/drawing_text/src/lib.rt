// The text of a drawing: the paths of its records, and its listing.
#![tactic(auto)]

ghost use Rattle.std.specs.Prelude.{◌≡◌, cond, true, ◌*◌, ◌≤◌, length};
ghost use mathlib.Core.List.{[], ◌∷◌, map, flat_map};
ghost use Rattle.std.specs.List.{list_all};
ghost use Rattle.laws.specs.Writers.{as_usize};
ghost use Rattle.text.specs.Writing.{Adds};
ghost use Rattle.svg.specs.Paths.{curve_path, path_writable, point_writable};
ghost use Rattle.sheet.specs.Meaning.{is_start};
ghost use Rattle.totals.specs.declared.Totals as T;
ghost use Rattle.drawing_text.specs.Lines as S;
ghost use Rattle.drawing_text.specs.Listing as L;

use label_spots::{Anchor, Geometry};
use shape::{Curve, NODE_RADIUS, V};
use text::Writer;
use totals::Totals;

// ---- path text

// A record's path, ended by a newline.
fn put_path_line(w: &mut Writer, g: &Geometry)
    ensures { Adds w.old w.new (S.path_line (curve_path g.now.curve)) }
{
    svg::put_path(w, g.curve);
    w.byte(b'\n');
}

// The paths of a drawing, each ended by a newline.
pub fn put_paths(w: &mut Writer, drawn: &[Geometry])
    ensures { Adds w.old w.new (S.paths_text drawn.now) }
{
    prove!(w.at <= usize::MAX);
    for g in drawn {
        put_path_line(w, g);
    }
}

// How many bytes they have.
pub fn paths_length(drawn: &[Geometry]) -> usize
    ensures { result ≡ as_usize (length (S.paths_text drawn.now)) }
{
    let mut w = number::measuring();
    put_paths(&mut w, drawn);
    w.at
}

fn path_ok(g: &Geometry) -> bool
    ensures { result ≡ path_writable (curve_path g.now.curve) }
{
    svg::curve_writable(g.curve)
}

// Whether every coordinate of their paths may be written.
#[tactic(auto, using(crate::proofs::Laws::paths_list))]
pub fn paths_writable(drawn: &[Geometry]) -> bool
    ensures { result ≡ S.paths_writable drawn.now }
{
    paths_ok(drawn)
}

fn paths_ok(drawn: &[Geometry]) -> bool
    ensures { result ≡ list_all (λ g. path_writable (curve_path g.curve)) drawn.now }
{
    drawn.iter().all(|g| path_ok(g))
}

// ---- the listing's fields

// A blank and a written number.
fn put_field(w: &mut Writer, v: f64)
    ensures { Adds w.old w.new (S.fields_text (S.float_field v ∷ [])) }
{
    w.byte(b' ');
    number::put_num(w, v);
}

// A blank and a whole number.
fn put_whole(w: &mut Writer, n: usize)
    ensures { Adds w.old w.new (S.fields_text (S.whole_field n ∷ [])) }
{
    w.byte(b' ');
    w.number(n as u64);
}

// A word and a whole number.
fn put_titled(w: &mut Writer, word: &[u8], k: usize)
    ensures { let line = S.named word.now (S.whole_field k ∷ []) in
        Adds w.old w.new (S.body_text line) }
{
    w.bytes(word);
    put_whole(w, k);
}

fn put_anchor(w: &mut Writer, anchor: Anchor)
    ensures { Adds w.old w.new (S.fields_text (S.word_field (S.anchor_word anchor) ∷ [])) }
{
    match anchor {
        Anchor::Start => w.bytes(b" start"),
        Anchor::Middle => w.bytes(b" middle"),
        Anchor::End => w.bytes(b" end"),
    }
}

// A blank and a path.
fn put_curve(w: &mut Writer, curve: Curve)
    ensures { Adds w.old w.new (S.fields_text (S.path_field (curve_path curve) ∷ [])) }
{
    w.byte(b' ');
    svg::put_path(w, curve);
}

// A blank and an arrowhead.
fn put_head(w: &mut Writer, tip: V, angle: f64)
    ensures { Adds w.old w.new (S.fields_text (S.head_field tip angle ∷ [])) }
{
    w.byte(b' ');
    svg::put_arrowhead(w, tip, angle);
}

// ---- the listing's lines

fn put_size_line(w: &mut Writer, width: f64, height: f64)
    ensures { Adds w.old w.new (S.line_text (S.size_line width height)) }
{
    w.bytes(b"size");
    put_field(w, width);
    put_field(w, height);
    w.byte(b'\n');
}

fn put_state_line(w: &mut Writer, k: usize, c: V)
    ensures { Adds w.old w.new (S.line_text (S.state_line (S.listed_state k c))) }
{
    put_titled(w, b"state", k);
    svg::put_point(w, c);
    w.byte(b'\n');
}

fn put_edge_line(w: &mut Writer, g: &Geometry)
    ensures { Adds w.old w.new (S.line_text (S.edge_line g.now)) }
{
    put_titled(w, b"edge", g.edge);
    put_curve(w, g.curve);
    w.byte(b'\n');
}

fn put_tip_line(w: &mut Writer, g: &Geometry)
    ensures { Adds w.old w.new (S.line_text (S.tip_line g.now)) }
{
    put_titled(w, b"tip", g.edge);
    svg::put_point(w, g.tip);
    put_field(w, g.tip_angle);
    w.byte(b'\n');
}

fn put_head_line(w: &mut Writer, g: &Geometry)
    ensures { Adds w.old w.new (S.line_text (S.head_line g.now)) }
{
    put_titled(w, b"head", g.edge);
    put_head(w, g.tip, g.tip_angle);
    w.byte(b'\n');
}

fn put_label_line(w: &mut Writer, g: &Geometry)
    ensures { Adds w.old w.new (S.line_text (S.label_line g.now)) }
{
    put_titled(w, b"label", g.edge);
    svg::put_point(w, g.label);
    put_anchor(w, g.anchor);
    w.byte(b'\n');
}

// The four lines of a record.
fn put_record_lines(w: &mut Writer, g: &Geometry)
    ensures { Adds w.old w.new (S.lines_text (S.record_lines g.now)) }
{
    put_edge_line(w, g);
    put_tip_line(w, g);
    put_head_line(w, g);
    put_label_line(w, g);
}

// The tip of a start arrow is on the rim, from the left.
fn start_tip(c: V) -> V
    ensures { result ≡ S.start_tip c }
{
    V {
        x: c.x - NODE_RADIUS,
        y: c.y,
    }
}

fn put_start_line(w: &mut Writer, k: usize, c: V)
    ensures { Adds w.old w.new (S.line_text (S.start_line (S.listed_state k c))) }
{
    put_titled(w, b"start", k);
    put_head(w, start_tip(c), 0.0);
    w.byte(b'\n');
}

// The line of a start state; nothing for any other.
fn put_start(w: &mut Writer, flag: u8, k: usize, c: V)
    ensures { let text = S.line_text (S.start_line (S.listed_state k c)) in
        Adds w.old w.new (cond (is_start flag) text []) }
{
    prove!(w.at <= usize::MAX);
    if sheet::is_start(flag) {
        put_start_line(w, k, c);
    }
}

fn put_total_line(w: &mut Writer, t: Totals)
    ensures { Adds w.old w.new (S.line_text (S.total_line t)) }
{
    put_titled(w, b"total", t.straight);
    put_whole(w, t.arcs);
    put_whole(w, t.loops);
    put_whole(w, t.left_out);
    put_whole(w, t.lines);
    w.byte(b'\n');
}

// ---- the lines of all states and records

fn put_states(w: &mut Writer, nodes: &[V])
    ensures { let states = S.states_from 0 nodes.now in
        Adds w.old w.new (S.lines_text (map S.state_line states)) }
{
    prove!(w.at <= usize::MAX);
    for (k, c) in nodes.iter().enumerate() {
        put_state_line(w, k, *c);
    }
}

fn put_records(w: &mut Writer, drawn: &[Geometry])
    ensures { Adds w.old w.new (S.lines_text (flat_map S.record_lines drawn.now)) }
{
    prove!(w.at <= usize::MAX);
    for g in drawn {
        put_record_lines(w, g);
    }
}

fn put_starts(w: &mut Writer, nodes: &[V], flags: &[u8])
    requires { length flags.now ≡ length nodes.now }
    ensures { let states = S.states_from 0 nodes.now in
        let starts = S.starts flags.now states in
        Adds w.old w.new (S.lines_text (map S.start_line starts)) }
{
    prove!(w.at <= usize::MAX);
    for (k, c) in nodes.iter().enumerate() {
        put_start(w, flags[k], k, *c);
    }
}

// ---- whether the listing's numbers may be written

#[tactic(auto, using(crate::proofs::Laws::size_tests))]
fn size_ok(width: f64, height: f64) -> bool
    ensures { result ≡ S.line_writable (S.size_line width height) }
{
    number::writable(width) && number::writable(height)
}

#[tactic(auto, using(crate::proofs::Laws::tip_tests))]
fn tip_ok(g: &Geometry) -> bool
    ensures { result ≡ S.line_writable (S.tip_line g.now) }
{
    svg::point_writable(g.tip) && number::writable(g.tip_angle)
}

#[tactic(auto, using(crate::proofs::Laws::label_tests))]
fn label_ok(g: &Geometry) -> bool
    ensures { result ≡ S.line_writable (S.label_line g.now) }
{
    svg::point_writable(g.label)
}

// The four lines of a record.
#[tactic(auto, using(crate::proofs::Laws::record_tests))]
fn record_ok(g: &Geometry) -> bool
    ensures { result ≡ S.lines_writable (S.record_lines g.now) }
{
    path_ok(g) && tip_ok(g) && svg::head_writable(g.tip, g.tip_angle) && label_ok(g)
}

// The line of a start state; nothing is written for any other.
fn start_ok(flag: u8, k: usize, c: V) -> bool
    ensures { result ≡ cond (is_start flag) (S.line_writable (S.start_line (S.listed_state k c))) true }
{
    if sheet::is_start(flag) {
        return svg::head_writable(start_tip(c), 0.0);
    }
    true
}

fn states_ok(nodes: &[V]) -> bool
    ensures { result ≡ list_all point_writable nodes.now }
{
    nodes.iter().all(|p| svg::point_writable(*p))
}

fn records_ok(drawn: &[Geometry]) -> bool
    ensures { result ≡ list_all (λ g. S.lines_writable (S.record_lines g)) drawn.now }
{
    drawn.iter().all(|g| record_ok(g))
}

fn starts_ok(nodes: &[V], flags: &[u8]) -> bool
    requires { length flags.now ≡ length nodes.now }
    ensures { let states = S.states_from 0 nodes.now in
        result ≡ S.lines_writable (map S.start_line (S.starts flags.now states)) }
{
    for (k, c) in nodes.iter().enumerate() {
        if !start_ok(flags[k], k, *c) {
            return false;
        }
    }
    true
}

// ---- the listing

// What a listing shows: the drawing's size, its states and records, and the totals.
#[derive(Clone, Copy)]
pub struct Listing<'a> {
    pub width: f64,
    pub height: f64,
    pub nodes: &'a [V],
    pub flags: &'a [u8],
    pub drawn: &'a [Geometry],
    pub totals: Totals,
}

impl<'a> Listing<'a> {
    // The listing: its size, the states, four lines a record, the starts, the totals.
    pub fn put(&self, w: &mut Writer)
        requires level { length self.now.flags.now ≡ length self.now.nodes.now }
        ensures { Adds w.old w.new (L.text_of self.now) }
    {
        put_size_line(w, self.width, self.height);
        put_states(w, self.nodes);
        put_records(w, self.drawn);
        put_starts(w, self.nodes, self.flags);
        put_total_line(w, self.totals);
    }

    // How many bytes it has.
    pub fn length(&self) -> usize
        requires level { length self.now.flags.now ≡ length self.now.nodes.now }
        ensures { result ≡ as_usize (length (L.text_of self.now)) }
    {
        let mut w = number::measuring();
        self.put(&mut w);
        w.at
    }

    // Whether every number of it may be written, whatever the totals are: those are whole numbers.
    #[tactic(auto, using(crate::proofs::Laws::list_tests, crate::proofs::Laws::records_list, crate::proofs::Laws::states_tests))]
    pub fn writable(&self) -> bool
        requires level { length self.now.flags.now ≡ length self.now.nodes.now }
        ensures own { result ≡ L.writable_of self.now }
        ensures whatever_totals { let l = self.now in
            (totals : T.Totals) → result ≡ S.list_writable l.width l.height l.nodes.now l.flags.now l.drawn.now totals }
    {
        size_ok(self.width, self.height)
            && states_ok(self.nodes)
            && records_ok(self.drawn)
            && starts_ok(self.nodes, self.flags)
    }
}
