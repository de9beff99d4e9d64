// Reads a sheet from standard input and writes its listing under the main screen's limits, laid out as Auto, or
// `refused` and the number.
#![tactic(auto)]

ghost use Rattle.std.specs.Prelude.{◌≡◌, ◌≤◌, length, take, IfOk, IfSome, OnOk};
ghost use Rattle.std.specs.Io.KnownBytes.{Appends};
ghost use Rattle.listing.specs.Listing as S;

use std::io;
use std::io::{Read, Write};
use text::Writer;

// One byte more is asked for than a sheet may have, so that a longer input is refused as a sheet of that length.
const ASKED: usize = 65537;
// The bytes that are lent for the text.
const LENT: usize = 65536;

// `refused`, the number and a newline, at the front of `out`: how many bytes.
fn put_refused(out: &mut [u8], n: u8) -> usize
    requires { 12 ≤ length out.old }
    ensures { (result ≤ length out.old) × (take result out.new ≡ S.refused_text n) }
{
    let mut w = Writer { out, at: 0 };
    w.bytes(b"refused ");
    w.number(n as u64);
    w.byte(b'\n');
    w.at
}

// What the program writes for the first n bytes of what it read, at the front of `text`: how many bytes.
fn output(input: &[u8; ASKED], n: usize, text: &mut [u8; LENT]) -> usize
    requires { n ≤ length input.now }
    ensures { (length input.now ≡ S.asked)
        × (length text.new ≡ S.lent)
        × (result ≤ S.lent)
        × (take result text.new ≡ S.output (take n input.now)) }
{
    match calls::list(&input[..n], sheet::main_screen(), 0, text) {
        Ok(m) => m,
        Err(refusal) => put_refused(text, refusal.into()),
    }
}

// Reads until `buf` is full or the input ends: how many bytes, which are the input's first. (The library reads
// to the end of an input only into a Vec.)
fn read_full<R: Read>(from: &mut R, buf: &mut [u8]) -> io::Result<usize>
    ensures bound { IfOk result (λ n. n ≤ length buf.new) }
    ensures bytes { IfOk result (λ n. IfSome (R.remaining from.old)
        (λ input. take n buf.new ≡ take (length buf.old) input)) }
{
    let mut done = 0;
    while done < buf.len() {
        let n = from.read(&mut buf[done..])?;
        if n == 0 {
            break;
        }
        done += n;
    }
    Ok(done)
}

// Reads the bytes that are asked for, and writes what the program says of the whole input.
fn run<R: Read, W: Write>(from: &mut R, to: &mut W) -> io::Result<()>
    ensures { OnOk result (IfSome (R.remaining from.old)
        (λ input. Appends (W.contents to.old) (W.contents to.new) (S.output input))) }
{
    let mut input = [0u8; ASKED];
    let n = read_full(from, &mut input)?;
    let mut text = [0u8; LENT];
    let written = output(&input, n, &mut text);
    to.write_all(&text[..written])
}

fn main(rt: HostRuntime) -> io::Result<()> {
    run(&mut rt.stdin(), &mut rt.stdout())
}
