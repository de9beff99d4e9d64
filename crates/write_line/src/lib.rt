// A line written as records of a sheet: its own record, and its text in pieces of 12 bytes.
#![tactic(auto)]

ghost use Rattle.std.specs.Prelude.{◌≡◌, ◌+◌, ◌*◌, ◌<◌, ◌≤◌, length};
ghost use Rattle.std.specs.Option.{unwrap_or};
ghost use Rattle.laws.specs.Put.{put};
ghost use Rattle.sheet.specs.Sheet as S;
ghost use Rattle.sheet.specs.Records as B;
ghost use Rattle.encode.specs.Encode as E;
ghost use Rattle.write_line.specs.Writing as W;

use meaning::{line_length, piece_at};
use reader::{Chain, Record};
use sheet::{RecordKind, first_text_at, place_of};

// ---- one record
// By its number, and not through a writer that moves on: the record of a line or an arrow is put after the records behind it,
// whose number it holds.

// The sixteen bytes of a record: kind, byte 1, next index, the words from byte 4 on, then zeros. An index of none is 0.
fn record_bytes(d: Record, next: Option<u16>) -> [u8; 16]
    ensures { result ≡ W.record_bytes d (unwrap_or next 0) }
{
    let next = next.unwrap_or(0).to_le_bytes();
    let word4 = d.word4.to_le_bytes();
    let word6 = d.word6.to_le_bytes();
    let word8 = d.word8.to_le_bytes();
    [
        d.kind, d.one, next[0], next[1], word4[0], word4[1], word6[0], word6[1], word8[0],
        word8[1], 0, 0, 0, 0, 0, 0,
    ]
}

// Bytes into `out` from place `at` on.
fn copy_to(bytes: &[u8], out: &mut [u8], at: usize)
    requires { at + length bytes.now ≤ length out.old }
    ensures { out.new ≡ put out.old at bytes.now }
{
    out[at..at + bytes.len()].copy_from_slice(bytes);
}

// The bytes of record k; the header stands where a record 0 would.
pub fn put_record(out: &mut [u8], k: usize, d: Record, next: Option<u16>)
    requires { 16 * k + 16 ≤ length out.old }
    ensures { out.new ≡ put out.old (16 * k) (W.record_bytes d (unwrap_or next 0)) }
{
    copy_to(&record_bytes(d, next), out, 16 * k);
}

// ---- the pieces of a line

// A piece of a line as the text of record k.
fn put_piece(piece: &[u8], out: &mut [u8], k: u16, next: Option<u16>)
    requires { (length piece.now ≤ 12) × (16 * k + 16 ≤ length out.old) }
    ensures { out.new ≡ put out.old (16 * k) (B.text_bytes (unwrap_or next 0) piece.now) }
{
    put_record(
        out,
        usize::from(k),
        Record {
            kind: u8::from(RecordKind::Text),
            one: piece.len() as u8,
            word4: 0,
            word6: 0,
            word8: 0,
        },
        next,
    );
    copy_to(piece, out, place_of(k) + 4);
}

// The pieces of a line, from record k on; the record after them. No `chunks`, since a piece has the index of the next one
// only where bytes are left.
fn write_pieces(line: &[u8], out: &mut [u8], k: u16) -> u16
    requires { let behind = k + E.space_of E.piece_size (E.pieces line.now) in
        (behind < 65536) × (16 * behind ≤ length out.old) }
    ensures { let parts = E.pieces line.now in
        (out.new ≡ put out.old (16 * k) (E.all_records E.piece_size E.piece_records k parts))
        × (result ≡ k + E.space_of E.piece_size parts) }
{
    let mut rest = line;
    let mut j = k;
    while 0 < rest.len() {
        let (piece, behind) = rest.split_at(rest.len().min(12));
        let next = (0 < behind.len()).then_some(j + 1);
        put_piece(piece, out, j, next);
        rest = behind;
        j += 1;
    }
    j
}

// ---- the text of a line

// The pieces of line record k joined, into `line`; how many bytes.
fn line_into(s: &[u8], k: u16, line: &mut [u8]) -> usize
    requires { length (S.line_of s.now k) ≤ length line.old }
    ensures { let text = S.line_of s.now k in
        (line.new ≡ put line.old 0 text) × (result ≡ length text) }
{
    let mut n = 0;
    for i in Chain::new(s, first_text_at(s, k)) {
        let piece = piece_at(s, i);
        copy_to(piece, line, n);
        n += piece.len();
    }
    n
}

// ---- a line

// How many records the line of record k takes.
pub fn line_size(s: &[u8], k: u16) -> usize
    requires { length (S.line_of s.now k) ≤ 96 }
    ensures { (result ≡ E.line_size (S.line_of s.now k)) × (result ≤ 9) }
{
    1 + (line_length(s, k) + 11) / 12
}

// The line of record i and its pieces, from record k on; the record after them, which is the next line's if there is more.
pub fn write_line(s: &[u8], i: u16, out: &mut [u8], k: u16, more: bool) -> u16
    requires { let behind = k + E.line_size (S.line_of s.now i) in
        (length (S.line_of s.now i) ≤ 96)
        × (behind < 65536)
        × (16 * behind ≤ length out.old) }
    ensures { let text = S.line_of s.now i in
        (out.new ≡ put out.old (16 * k) (E.line_records k (W.index_if more result) text))
        × (result ≡ k + E.line_size text) }
{
    let mut line = [0u8; 96];
    let n = line_into(s, i, &mut line);
    let behind = write_pieces(&line[..n], out, k + 1);
    put_record(
        out,
        usize::from(k),
        Record {
            kind: u8::from(RecordKind::Line),
            one: 0,
            word4: (0 < n).then_some(k + 1).unwrap_or(0),
            word6: 0,
            word8: 0,
        },
        more.then_some(behind),
    );
    behind
}
