// A sheet written afresh: its states, then its arrows, each followed by its lines and each line by its pieces.
#![tactic(auto)]

ghost use Rattle.std.specs.Prelude.{◌≡◌, false, ◌+◌, ◌*◌, ◌<◌, ◌≤◌, length};
ghost use Rattle.laws.specs.Any.{any_of};
ghost use Rattle.laws.specs.Put.{put};
ghost use Rattle.sheet.specs.Sheet as S;
ghost use Rattle.sheet.specs.Refusals as R;
ghost use Rattle.encode.specs.Encode as E;
ghost use Rattle.write_line.specs.Writing as W;
ghost use Rattle.write_sheet.specs.Sheets as Q;

use meaning::chain_length;
use reader::{Chain, Record, record_at};
use sheet::{RecordKind, first_line_at, one_at, word_at};
use write_line::{line_size, put_record, write_line};

// ---- how many records are written
// In loops: `line_size` and `lines_size` ask for short lines, which is known of the records of these chains alone.

// How many records the lines of the chain from `first` on take: at most 9 for each of 65,536.
fn lines_size(s: &[u8], first: u16) -> usize
    requires { any_of R.long_line (S.lines_from s.now first) ≡ false }
    ensures { (result ≡ E.space_of E.line_size (S.lines_from s.now first)) × (result ≤ 589824) }
{
    let mut n = 0;
    for i in Chain::new(s, first) {
        n += line_size(s, i);
    }
    n
}

// How many records the states take.
pub fn states_size(s: &[u8]) -> usize
    ensures { (result ≡ E.space_of E.state_size (S.states_of s.now)) × (result ≤ 65536) }
{
    chain_length(s, word_at(s, 4))
}

// How many records the arrows take: at most 589,825 for each of 65,536.
pub fn arrows_size(s: &[u8]) -> usize
    requires { any_of Q.long_arrow (S.arrows_of s.now) ≡ false }
    ensures { (result ≡ E.space_of E.arrow_size (S.arrows_of s.now)) × (result ≤ 38654771200) }
{
    let mut n = 0;
    for i in Chain::new(s, word_at(s, 6)) {
        n += 1 + lines_size(s, first_line_at(s, i));
    }
    n
}

// ---- writing
// By `while let`: a record holds the index of the next one, so each turn asks the chain whether it goes on.

// The states, from record k on.
fn write_states(s: &[u8], out: &mut [u8], k: u16)
    requires { let behind = k + E.space_of E.state_size (S.states_of s.now) in
        (behind < 65536) × (16 * behind ≤ length out.old) }
    ensures { let states = S.states_of s.now in
        out.new ≡ put out.old (16 * k) (E.all_records E.state_size E.state_records k states) }
{
    let mut states = Chain::new(s, word_at(s, 4));
    let mut at = k;
    while let Some(i) = states.next() {
        let next = states.goes_on().then_some(at + 1);
        put_record(
            out,
            usize::from(at),
            Record {
                kind: u8::from(RecordKind::State),
                one: one_at(s, i),
                word4: 0,
                word6: 0,
                word8: 0,
            },
            next,
        );
        at += 1;
    }
}

// The lines of the chain from `first` on with their pieces, from record k on; the record after them.
fn write_lines(s: &[u8], first: u16, out: &mut [u8], k: u16) -> u16
    requires { let lines = S.lines_from s.now first in
        let behind = k + E.space_of E.line_size lines in
        (any_of R.long_line lines ≡ false)
        × (behind < 65536)
        × (16 * behind ≤ length out.old) }
    ensures { let lines = S.lines_from s.now first in
        (out.new ≡ put out.old (16 * k) (E.all_records E.line_size E.line_records k lines))
        × (result ≡ k + E.space_of E.line_size lines) }
{
    let mut lines = Chain::new(s, first);
    let mut at = k;
    while let Some(i) = lines.next() {
        at = write_line(s, i, out, at, lines.goes_on());
    }
    at
}

// Arrow record i with its lines, from record k on; the record after them, which is the next arrow's if there is more.
fn write_arrow(s: &[u8], i: u16, out: &mut [u8], k: u16, more: bool) -> u16
    requires { let arrow = S.arrow_of s.now i in
        let behind = k + E.arrow_size arrow in
        (Q.long_arrow arrow ≡ false)
        × (behind < 65536)
        × (16 * behind ≤ length out.old) }
    ensures { let arrow = S.arrow_of s.now i in
        (out.new ≡ put out.old (16 * k) (E.arrow_records k (W.index_if more result) arrow))
        × (result ≡ k + E.arrow_size arrow) }
{
    let d = record_at(s, i);
    let behind = write_lines(s, d.word8, out, k + 1);
    put_record(
        out,
        usize::from(k),
        Record {
            kind: u8::from(RecordKind::Arrow),
            one: 0,
            word4: d.word4,
            word6: d.word6,
            word8: (d.word8 != 0).then_some(k + 1).unwrap_or(0),
        },
        more.then_some(behind),
    );
    behind
}

// The arrows with their lines, from record k on.
fn write_arrows(s: &[u8], out: &mut [u8], k: u16)
    requires { let arrows = S.arrows_of s.now in
        let behind = k + E.space_of E.arrow_size arrows in
        (any_of Q.long_arrow arrows ≡ false)
        × (behind < 65536)
        × (16 * behind ≤ length out.old) }
    ensures { let arrows = S.arrows_of s.now in
        out.new ≡ put out.old (16 * k) (E.all_records E.arrow_size E.arrow_records k arrows) }
{
    let mut arrows = Chain::new(s, word_at(s, 6));
    let mut at = k;
    while let Some(i) = arrows.next() {
        at = write_arrow(s, i, out, at, arrows.goes_on());
    }
}

// ---- the sheet

// Writes the sheet afresh: its states and its arrows (`states` and `arrows` are how many records they take), and the
// header before them, a record with the version in bytes 0 and 1 and the count in bytes 2 and 3.
pub fn write_afresh(sheet: &[u8], out: &mut [u8], states: usize, arrows: usize)
    requires { Q.Savable sheet.now
        × (states ≡ E.space_of E.state_size (S.states_of sheet.now))
        × (arrows ≡ E.space_of E.arrow_size (S.arrows_of sheet.now))
        × (16 * (1 + states + arrows) ≤ length out.old) }
    ensures { out.new ≡ put out.old 0 (E.encode (S.meaning sheet.now)) }
{
    let k = 1 + states as u16;
    write_states(sheet, out, 1);
    write_arrows(sheet, out, k);
    put_record(
        out,
        0,
        Record {
            kind: 1,
            one: 0,
            word4: (word_at(sheet, 4) != 0).then_some(1).unwrap_or(0),
            word6: (word_at(sheet, 6) != 0).then_some(k).unwrap_or(0),
            word8: 0,
        },
        Some((states + arrows) as u16),
    );
}
