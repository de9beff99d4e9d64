// Answers that a drawing or a layout has ready: put whole into what is lent, or refused by 10 or 7 with nothing
// touched.
#![tactic(auto)]

ghost use Rattle.std.specs.Prelude.{◌≡◌, ◌*◌, ◌≤◌, length, map};
ghost use Rattle.laws.specs.Put.{put};
ghost use Rattle.refusal.specs.Refused.{outcome};
ghost use Rattle.drawing_text.specs.Listing.{text_of, writable_of};
ghost use Rattle.outputs.specs.Answers as F;

use drawing_text::Listing;
use label_spots::Geometry;
use records::RECORD_NUMBERS;
use refusal::Refusal;
use shape::V;
use text::Writer;

// ---- records and path text

// The records of a drawing, each into its own twenty numbers of `records`.
fn write_records(drawn: &[Geometry], records: &mut [f64])
    requires { RECORD_NUMBERS * length drawn.now ≤ length records.old }
    ensures { records.new ≡ put records.old 0 (F.numbers_of drawn.now) }
{
    // By place: `zip` over `chunks_exact_mut` is not proved here.
    for (k, g) in drawn.iter().enumerate() {
        let at = RECORD_NUMBERS * k;
        slices::copy(&records::fields(g), &mut records[at..at + RECORD_NUMBERS]);
    }
}

// The records of a drawing and their paths, where every number may be written and there is room for both: the f64
// numbers and the bytes written.
pub fn write_route(
    drawn: &[Geometry],
    records: &mut [f64],
    text: &mut [u8],
) -> Result<(usize, usize), Refusal>
    ensures { let recordRoom = length records.old in
        let textRoom = length text.old in
        (outcome result ≡ F.filled_as drawn.now recordRoom textRoom)
        × (records.new ≡ F.records_filled drawn.now records.old textRoom)
        × (text.new ≡ F.text_filled drawn.now recordRoom text.old) }
{
    if !drawing_text::paths_writable(drawn) {
        return Err(Refusal::Number);
    }
    let n = RECORD_NUMBERS * drawn.len();
    if records.len() < n {
        return Err(Refusal::Room);
    }
    let need = drawing_text::paths_length(drawn);
    if text.len() < need {
        return Err(Refusal::Room);
    }
    write_records(drawn, records);
    let mut w = Writer { out: text, at: 0 };
    drawing_text::put_paths(&mut w, drawn);
    Ok((n, w.at))
}

// ---- centres

// The coordinates of the centres, at the front of `xs` and of `ys`.
fn write_centres(centres: &[V], xs: &mut [f64], ys: &mut [f64])
    requires { (length centres.now ≤ length xs.old) × (length centres.now ≤ length ys.old) }
    ensures { (xs.new ≡ put xs.old 0 (map (λ c. c.x) centres.now))
        × (ys.new ≡ put ys.old 0 (map (λ c. c.y) centres.now)) }
{
    // By place: `zip` over `iter_mut` is not proved here.
    for (k, c) in centres.iter().enumerate() {
        xs[k] = c.x;
        ys[k] = c.y;
    }
}

// The centres, where there is room for both coordinates: how many states there are, width and height.
pub fn write_layout(
    centres: &[V],
    width: f64,
    height: f64,
    xs: &mut [f64],
    ys: &mut [f64],
) -> Result<(usize, f64, f64), Refusal>
    ensures { let across = map (λ c. c.x) centres.now in
        let down = map (λ c. c.y) centres.now in
        let xRoom = length xs.old in
        let yRoom = length ys.old in
        (outcome result ≡ F.placed_as across down width height xRoom yRoom)
        × (xs.new ≡ F.xs_placed across down xs.old yRoom)
        × (ys.new ≡ F.ys_placed across down xRoom ys.old) }
{
    let n = centres.len();
    if xs.len() < n {
        return Err(Refusal::Room);
    }
    if ys.len() < n {
        return Err(Refusal::Room);
    }
    write_centres(centres, xs, ys);
    Ok((n, width, height))
}

// ---- a listing

// A listing, where every number of it may be written and there is room for it: the bytes written.
pub fn write_listing(listing: &Listing, out: &mut [u8]) -> Result<usize, Refusal>
    requires level { length listing.now.flags.now ≡ length listing.now.nodes.now }
    ensures { let text = text_of listing.now in
        let writable = writable_of listing.now in
        (outcome result ≡ F.written_of writable text (length out.old))
        × (out.new ≡ F.out_written writable text out.old) }
{
    if !listing.writable() {
        return Err(Refusal::Number);
    }
    let need = listing.length();
    if out.len() < need {
        return Err(Refusal::Room);
    }
    let mut w = Writer { out, at: 0 };
    listing.put(&mut w);
    Ok(w.at)
}
