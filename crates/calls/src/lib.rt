// The calls of documents 01 and 02. None has a requirement.
#![tactic(auto)]

ghost use Rattle.std.specs.Prelude.{◌≡◌, ◌≤◌, length};
ghost use Rattle.refusal.specs.Refused.{outcome};
ghost use Rattle.sheet.specs.Sheet.{states_of};
ghost use Rattle.write_sheet.specs.Sheets.{Savable};
ghost use Rattle.draw.specs.Drawn.{xs_of, ys_of};
ghost use Rattle.calls.specs.Calls as S;
ghost use Rattle.calls.specs.Drawing as D;
ghost use Rattle.calls.specs.Listed as F;
ghost use Rattle.calls.specs.Saved as W;

use drawing_text::Listing;
use fit::Size;
use label_spots::Geometry;
use refusal::Refusal;
use shape::V;
use sheet::Limits;

// ---- limits

// The limits that count: each above the main screen's counts as the main screen's.
fn capped_limits(limits: Limits) -> Limits
    ensures { (result ≡ S.capped_limits limits) × (result.states ≤ 64) × (result.arrows ≤ 256) }
{
    let main = sheet::main_screen();
    Limits {
        states: limits.states.min(main.states),
        arrows: limits.arrows.min(main.arrows),
        lines: limits.lines.min(main.lines),
    }
}

// ---- check, size a label block, write a number

// Checks a sheet: accepted or refused.
pub fn check(sheet: &[u8], limits: Limits) -> Result<(), Refusal>
    ensures { outcome result ≡ S.check sheet.now limits }
{
    sheet_check::check_within(sheet, capped_limits(limits))
}

// The width and height of a label block: its text, and the length of each line.
pub fn label_size(text: &[u8], lengths: &[usize], limits: Limits) -> Result<(f64, f64), Refusal>
    ensures { outcome result ≡ S.label_size text.now lengths.now limits }
{
    label::label_size(text, lengths, capped_limits(limits))
}

// Writes a number into `out`: the bytes written.
pub fn write_num(v: f64, out: &mut [u8]) -> Result<usize, Refusal>
    ensures { (outcome result ≡ S.write_num v out.old)
        × (out.new ≡ S.write_num_after v out.old) }
{
    number::write_num(v, out)
}

// ---- routing

// What is drawn for a sheet under the limits m at the given centres, in the room lent for it.
fn draw_in<'a>(
    sheet: &[u8],
    m: Limits,
    centres: &[V],
    room: &'a mut [Geometry],
) -> Result<&'a [Geometry], Refusal>
    requires limits { (m.states ≤ 64) × (m.arrows ≤ 256) }
    requires room { 256 ≤ length room.old }
    ensures { let x = xs_of centres.now in
        let y = ys_of centres.now in
        D.drawing_as result ≡ D.drawing_at m sheet.now x y }
{
    let count = draw::draw_at(sheet, m, centres, room)?;
    Ok(&room[..count])
}

// The same at the centres whose x and y are given apart.
fn draw_given<'a>(
    sheet: &[u8],
    m: Limits,
    xs: &[f64],
    ys: &[f64],
    room: &'a mut [Geometry],
) -> Result<&'a [Geometry], Refusal>
    requires limits { (m.states ≤ 64) × (m.arrows ≤ 256) }
    requires room { 256 ≤ length room.old }
    ensures { D.drawing_as result ≡ D.drawing_at m sheet.now xs.now ys.now }
{
    let count = draw::draw(sheet, m, xs, ys, room)?;
    Ok(&room[..count])
}

// Routes a sheet at the given centres: its records and their paths.
pub fn route(
    sheet: &[u8],
    limits: Limits,
    xs: &[f64],
    ys: &[f64],
    records: &mut [f64],
    text: &mut [u8],
) -> Result<(usize, usize), Refusal>
    ensures { let s = sheet.now in
        let x = xs.now in
        let y = ys.now in
        let recordRoom = length records.old in
        let textRoom = length text.old in
        (outcome result ≡ S.route s limits x y recordRoom textRoom)
        × (records.new ≡ S.records_after s limits x y records.old textRoom)
        × (text.new ≡ S.text_after s limits x y recordRoom text.old) }
{
    let m = capped_limits(limits);
    let mut room = [Geometry::NONE; 256];
    let drawn = draw_given(sheet, m, xs, ys, &mut room)?;
    outputs::write_route(drawn, records, text)
}

// ---- clutter

// Counts the clutter of a sheet routed at the given centres.
pub fn clutter(sheet: &[u8], limits: Limits, xs: &[f64], ys: &[f64]) -> Result<usize, Refusal>
    ensures { outcome result ≡ S.clutter sheet.now limits xs.now ys.now }
{
    let m = capped_limits(limits);
    let mut room = [Geometry::NONE; 256];
    let drawn = draw_given(sheet, m, xs, ys, &mut room)?;
    let n = meaning::state_count(sheet);
    let centres = draw::given(xs, ys);
    let mut space = [V::ORIGIN; 64];
    let nodes = curves::counted(&centres, n, &mut space);
    Ok(clutter::clutter(nodes, drawn))
}

// ---- layout

// Lays out a sheet by kind: the centres of its states and the size.
pub fn layout(
    sheet: &[u8],
    limits: Limits,
    kind: u8,
    xs: &mut [f64],
    ys: &mut [f64],
) -> Result<(usize, f64, f64), Refusal>
    ensures { let xRoom = length xs.old in
        let yRoom = length ys.old in
        (outcome result ≡ S.layout sheet.now limits kind xRoom yRoom)
        × (xs.new ≡ S.xs_after sheet.now limits kind xs.old yRoom)
        × (ys.new ≡ S.ys_after sheet.now limits kind xRoom ys.old) }
{
    let m = capped_limits(limits);
    let mut centres = [V::ORIGIN; 64];
    let (states, size) = plan::plan(sheet, m, kind, &mut centres)?;
    outputs::write_layout(&centres[..states], size.width, size.height, xs, ys)
}

// ---- listing

// The listing of a sheet under the limits m, drawn at these centres, one for each state.
fn list_by(
    sheet: &[u8],
    m: Limits,
    size: Size,
    centres: &[V],
    out: &mut [u8],
) -> Result<usize, Refusal>
    requires states { (length (states_of sheet.now) ≡ length centres.now)
        × (length centres.now ≤ 64) }
    requires limits { (m.states ≤ 64) × (m.arrows ≤ 256) }
    ensures { let s = sheet.now in
        let cs = centres.now in
        (outcome result ≡ F.listing_at m s size.width size.height cs (length out.old))
        × (out.new ≡ F.listed_after m s size.width size.height cs out.old) }
{
    let mut space = [0u8; 64];
    let flags = &mut space[..centres.len()];
    meaning::flags_into(sheet, flags);
    let mut room = [Geometry::NONE; 256];
    let drawn = draw_in(sheet, m, centres, &mut room)?;
    let listing = Listing {
        width: size.width,
        height: size.height,
        nodes: centres,
        flags,
        drawn,
        totals: totals::totals_of(sheet, drawn),
    };
    outputs::write_listing(&listing, out)
}

// Lists the drawing of a sheet, laid out by kind: the bytes written.
pub fn list(sheet: &[u8], limits: Limits, kind: u8, out: &mut [u8]) -> Result<usize, Refusal>
    ensures { (outcome result ≡ S.list sheet.now limits kind (length out.old))
        × (out.new ≡ S.list_after sheet.now limits kind out.old) }
{
    let m = capped_limits(limits);
    let mut centres = [V::ORIGIN; 64];
    let (n, size) = plan::plan(sheet, m, kind, &mut centres)?;
    list_by(sheet, m, size, &centres[..n], out)
}

// ---- writing a sheet

// Writes an accepted sheet afresh: the bytes written, or 7.
fn write_accepted(sheet: &[u8], out: &mut [u8]) -> Result<usize, Refusal>
    requires { Savable sheet.now }
    ensures { (outcome result ≡ W.saved_of sheet.now (length out.old))
        × (out.new ≡ W.saved_after sheet.now out.old) }
{
    let states = write_sheet::states_size(sheet);
    let arrows = write_sheet::arrows_size(sheet);
    let bytes = 16 * (1 + states + arrows);
    if out.len() < bytes {
        return Err(Refusal::Room);
    }
    write_sheet::write_afresh(sheet, out, states, arrows);
    Ok(bytes)
}

// Writes a sheet afresh into `out`, as the editor saves it: the bytes written.
pub fn write_sheet(sheet: &[u8], limits: Limits, out: &mut [u8]) -> Result<usize, Refusal>
    ensures { (outcome result ≡ S.write_sheet sheet.now limits (length out.old))
        × (out.new ≡ S.write_sheet_after sheet.now limits out.old) }
{
    sheet_check::check_within(sheet, capped_limits(limits))?;
    write_accepted(sheet, out)
}
