// A written sheet whose first start mark stays, and no other.
#![tactic(auto)]

ghost use Rattle.std.specs.Prelude.{◌≡◌, false, ◌+◌, ◌*◌, ◌<◌, ◌≤◌, length};
ghost use Rattle.repair.specs.Marks as M;

// State record k loses its start bit, if a state before it is marked. Whether one is marked up to record k.
fn visit(out: &mut [u8], k: u16, marked: bool) -> bool
    requires { 16 * k + 1 < length out.old }
    ensures { (result ≡ M.marked_at marked k out.old)
        × (out.new ≡ M.cleared_at marked k out.old) }
{
    let at = sheet::place_of(k) + 1;
    let flags = out[at];
    if marked {
        out[at] = flags - flags % 2;
        return true;
    }
    sheet::is_start(flags)
}

// Of the n states of a written sheet, records 1 to n, the first with a start mark keeps it and the others lose theirs.
pub fn keep_first_mark(out: &mut [u8], n: u16)
    requires { (n < 65535) × (16 * (1 + n) ≤ length out.old) }
    ensures { out.new ≡ M.mark_kept false 1 n out.old }
{
    let mut marked = false;
    // By number: a record is a place in the bytes, and record 0 is the header.
    for k in 1..n + 1 {
        marked = visit(out, k, marked);
    }
}
