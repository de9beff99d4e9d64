// The calls of documents 01 and 02 for C and Rust, as include/murshogi.h declares them. Each returns 0, or the number of
// the refusal; what it is lent for values is written only where it returns 0.
#![tactic(auto)]

ghost use Rattle.std.specs.Prelude.{◌≡◌};
ghost use Rattle.std.proofs.Math.ListN as L;
ghost use Rattle.refusal.specs.Refused.{outcome};
ghost use Rattle.calls.specs.Calls as C;
ghost use Rattle.murshogi.specs.Exports as S;

use refusal::Refusal;

// The limits in an array: states, arrows, lines of an arrow.
fn limits_of(limits: &[usize; 3]) -> sheet::Limits
    ensures { result ≡ S.limits_in limits.now }
{
    sheet::Limits {
        states: limits[0],
        arrows: limits[1],
        lines: limits[2],
    }
}

// What a call returns that fills one place with its values: 0, or the number of the refusal. (`murshogi_check` fills no place,
// and `murshogi_layout` two.)
fn filled<A, B: Copy, F: FnOnce(A) -> B>(answered: Result<A, Refusal>, place: &mut B, held: F) -> u8
    requires { F.IsAlwaysCallable held }
    ensures { (good : A → B) → ((values : A) (b : B) → F.post held values b → b ≡ good values)
        → (result ≡ S.returned (outcome answered))
        × (place.new ≡ S.held_after good (outcome answered) place.old) }
{
    match answered {
        Ok(values) => {
            *place = held(values);
            0
        }
        Err(refusal) => refusal.into(),
    }
}

// Checks a sheet.
#[unsafe(no_mangle)]
pub extern "C" fn murshogi_check(sheet: &[u8], limits: &[usize; 3]) -> u8
    ensures { result ≡ S.returned (C.check sheet.now (S.limits_in limits.now)) }
{
    // Not by `filled`: there is no place to fill.
    match calls::check(sheet, limits_of(limits)) {
        Ok(()) => 0,
        Err(refusal) => refusal.into(),
    }
}

// The width and height of a label block: its text, and the length of each line.
#[unsafe(no_mangle)]
pub extern "C" fn murshogi_label_size(
    text: &[u8],
    lengths: &[usize],
    limits: &[usize; 3],
    size: &mut [f64; 2],
) -> u8
    ensures { let sized = C.label_size text.now lengths.now (S.limits_in limits.now) in
        (result ≡ S.returned sized) × (size.new ≡ S.held_after S.both sized size.old) }
{
    let m = limits_of(limits);
    filled(
        calls::label_size(text, lengths, m),
        size,
        |(w, h)|
            ensures { result ≡ S.both (w, h) }
        { [w, h] },
    )
}

// Lays out a sheet by kind: the centres in `x` and `y`, the drawing's width and height, the number of states.
#[unsafe(no_mangle)]
pub extern "C" fn murshogi_layout(
    sheet: &[u8],
    limits: &[usize; 3],
    kind: u8,
    x: &mut [f64],
    y: &mut [f64],
    size: &mut [f64; 2],
    states: &mut usize,
) -> u8
    ensures { let xRoom = L.length x.old in
        let yRoom = L.length y.old in
        let s = sheet.now in
        let m = S.limits_in limits.now in
        let laid = C.layout s m kind xRoom yRoom in
        (result ≡ S.returned laid)
        × (x.new ≡ C.xs_after s m kind x.old yRoom)
        × (y.new ≡ C.ys_after s m kind xRoom y.old)
        × (size.new ≡ S.held_after S.layout_size laid size.old)
        × (states.new ≡ S.held_after S.layout_states laid states.old) }
{
    let m = limits_of(limits);
    // Not by `filled`: there are two places to fill.
    match calls::layout(sheet, m, kind, x, y) {
        Ok((n, w, h)) => {
            *size = [w, h];
            *states = n;
            0
        }
        Err(refusal) => refusal.into(),
    }
}

// Routes a sheet at given centres: records and path text; `lengths` are the f64 numbers and the bytes written.
#[unsafe(no_mangle)]
pub extern "C" fn murshogi_route(
    sheet: &[u8],
    limits: &[usize; 3],
    x: &[f64],
    y: &[f64],
    records: &mut [f64],
    text: &mut [u8],
    lengths: &mut [usize; 2],
) -> u8
    ensures { let s = sheet.now in
        let m = S.limits_in limits.now in
        let xs = x.now in
        let ys = y.now in
        let recordRoom = L.length records.old in
        let textRoom = L.length text.old in
        let routed = C.route s m xs ys recordRoom textRoom in
        (result ≡ S.returned routed)
        × (records.new ≡ C.records_after s m xs ys records.old textRoom)
        × (text.new ≡ C.text_after s m xs ys recordRoom text.old)
        × (lengths.new ≡ S.held_after S.both routed lengths.old) }
{
    let m = limits_of(limits);
    filled(
        calls::route(sheet, m, x, y, records, text),
        lengths,
        |(n, m)|
            ensures { result ≡ S.both (n, m) }
        { [n, m] },
    )
}

// Counts the clutter of a sheet at given centres.
#[unsafe(no_mangle)]
pub extern "C" fn murshogi_clutter(
    sheet: &[u8],
    limits: &[usize; 3],
    x: &[f64],
    y: &[f64],
    count: &mut usize,
) -> u8
    ensures { let m = S.limits_in limits.now in
        let counted = C.clutter sheet.now m x.now y.now in
        (result ≡ S.returned counted) × (count.new ≡ S.held_after S.itself counted count.old) }
{
    let m = limits_of(limits);
    filled(calls::clutter(sheet, m, x, y), count, |n| n)
}

// Writes a number into `out`; `length` is the bytes written.
#[unsafe(no_mangle)]
pub extern "C" fn murshogi_write_num(v: f64, out: &mut [u8], length: &mut usize) -> u8
    ensures { let written = C.write_num v out.old in
        (result ≡ S.returned written)
        × (out.new ≡ C.write_num_after v out.old)
        × (length.new ≡ S.held_after S.itself written length.old) }
{
    filled(calls::write_num(v, out), length, |n| n)
}

// Lists a drawing, laid out by kind, into `out`; `length` is the bytes written.
#[unsafe(no_mangle)]
pub extern "C" fn murshogi_list(
    sheet: &[u8],
    limits: &[usize; 3],
    kind: u8,
    out: &mut [u8],
    length: &mut usize,
) -> u8
    ensures { let m = S.limits_in limits.now in
        let listed = C.list sheet.now m kind (L.length out.old) in
        (result ≡ S.returned listed)
        × (out.new ≡ C.list_after sheet.now m kind out.old)
        × (length.new ≡ S.held_after S.itself listed length.old) }
{
    let m = limits_of(limits);
    filled(calls::list(sheet, m, kind, out), length, |n| n)
}

// Writes a sheet afresh into `out`, as the editor saves it; `length` is the bytes written.
#[unsafe(no_mangle)]
pub extern "C" fn murshogi_write_sheet(
    sheet: &[u8],
    limits: &[usize; 3],
    out: &mut [u8],
    length: &mut usize,
) -> u8
    ensures { let m = S.limits_in limits.now in
        let written = C.write_sheet sheet.now m (L.length out.old) in
        (result ≡ S.returned written)
        × (out.new ≡ C.write_sheet_after sheet.now m out.old)
        × (length.new ≡ S.held_after S.itself written length.old) }
{
    let m = limits_of(limits);
    filled(calls::write_sheet(sheet, m, out), length, |n| n)
}
