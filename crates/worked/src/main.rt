// The worked drawings of document 01 that are not starred, the listing of a sheet without states, and sheets at the
// service panel's limits, each with what the program gives.
#![tactic(auto)]

use refusal::Refusal;
use sheet::Limits;
use std::io;

fn refused(rt: &impl Print, refusal: Refusal) -> io::Result<()> {
    let n = u8::from(refusal);
    println!(rt; "refused {n}")
}

// What `check` says of a sheet.
fn checked(rt: &impl Print, sheet: &[u8], limits: Limits) -> io::Result<()> {
    let c = calls::check(sheet, limits);
    match c {
        Ok(()) => println!(rt; "accepted"),
        Err(refusal) => refused(rt, refusal),
    }
}

// What `write_num` writes of a number.
fn written(rt: &impl Print, v: f64) -> io::Result<()> {
    let mut out = [0u8; 32];
    let w = calls::write_num(v, &mut out);
    match w {
        Ok(n) => shown(rt, &out, n),
        Err(refusal) => refused(rt, refusal),
    }
}

fn shown(rt: &impl Print, out: &[u8], n: usize) -> io::Result<()> {
    if let Some(text) = out.get(..n) {
        rt.write_all(text)?;
    }
    println!(rt)
}

// What `clutter` says of a sheet whose one state has this x.
fn centred(rt: &impl Print, sheet: &[u8], x: f64) -> io::Result<()> {
    let xs = [x];
    let ys = [0.0];
    let c = calls::clutter(sheet, sheet::main_screen(), &xs, &ys);
    match c {
        Ok(_) => println!(rt; "accepted"),
        Err(refusal) => refused(rt, refusal),
    }
}

// How far apart Auto puts the two states of a sheet: layers 140, a ring 150.
fn apart(rt: &impl Print, sheet: &[u8]) -> io::Result<()> {
    let mut xs = [0.0f64; 2];
    let mut ys = [0.0f64; 2];
    let l = calls::layout(sheet, sheet::main_screen(), 0, &mut xs, &mut ys);
    match l {
        Ok(_) => written(rt, xs[1] - xs[0]),
        Err(refusal) => refused(rt, refusal),
    }
}

// What `list` writes of a sheet, laid out as Auto.
fn listed(rt: &impl Print, sheet: &[u8]) -> io::Result<()> {
    let mut out = [0u8; 1024];
    let w = calls::list(sheet, sheet::main_screen(), 0, &mut out);
    match w {
        Ok(n) => shown(rt, &out, n),
        Err(refusal) => refused(rt, refusal),
    }
}

fn sheets(rt: &impl Print) -> io::Result<()> {
    print!(rt; "count 0, 16 bytes: ")?;
    checked(
        rt,
        b"\x01\0\0\0\0\0\0\0\0\0\0\0\0\0\0\0",
        sheet::main_screen(),
    )?;
    print!(rt; "count 0, 17 bytes: ")?;
    checked(
        rt,
        b"\x01\0\0\0\0\0\0\0\0\0\0\0\0\0\0\0\0",
        sheet::main_screen(),
    )?;
    print!(rt; "a record naming itself: ")?;
    checked(
        rt,
        b"\x01\0\x01\0\x01\0\0\0\0\0\0\0\0\0\0\0\x01\0\x01\0\0\0\0\0\0\0\0\0\0\0\0\0",
        sheet::main_screen(),
    )
}

// An arrow of 5 lines.
fn five_lines(rt: &impl Print, limits: Limits) -> io::Result<()> {
    checked(
        rt,
        b"\x01\0\x06\0\0\0\x01\0\0\0\0\0\0\0\0\0\
          \x02\0\0\0\0\0\0\0\x02\0\0\0\0\0\0\0\
          \x03\0\x03\0\0\0\0\0\0\0\0\0\0\0\0\0\
          \x03\0\x04\0\0\0\0\0\0\0\0\0\0\0\0\0\
          \x03\0\x05\0\0\0\0\0\0\0\0\0\0\0\0\0\
          \x03\0\x06\0\0\0\0\0\0\0\0\0\0\0\0\0\
          \x03\0\0\0\0\0\0\0\0\0\0\0\0\0\0\0",
        limits,
    )
}

fn screens(rt: &impl Print) -> io::Result<()> {
    print!(rt; "an arrow of 4 lines on the service panel: ")?;
    checked(
        rt,
        b"\x01\0\x05\0\0\0\x01\0\0\0\0\0\0\0\0\0\
          \x02\0\0\0\0\0\0\0\x02\0\0\0\0\0\0\0\
          \x03\0\x03\0\0\0\0\0\0\0\0\0\0\0\0\0\
          \x03\0\x04\0\0\0\0\0\0\0\0\0\0\0\0\0\
          \x03\0\x05\0\0\0\0\0\0\0\0\0\0\0\0\0\
          \x03\0\0\0\0\0\0\0\0\0\0\0\0\0\0\0",
        sheet::service_panel(),
    )?;
    print!(rt; "an arrow of 5 lines on the service panel: ")?;
    five_lines(rt, sheet::service_panel())?;
    print!(rt; "an arrow of 5 lines on the main screen: ")?;
    five_lines(rt, sheet::main_screen())
}

fn numbers(rt: &impl Print) -> io::Result<()> {
    print!(rt; "just under 10^13: ")?;
    written(rt, 9999999999999.998)?;
    print!(rt; "10^13: ")?;
    written(rt, 10000000000000.0)
}

fn centres(rt: &impl Print) -> io::Result<()> {
    print!(rt; "a centre of 2^20: ")?;
    centred(
        rt,
        b"\x01\0\x01\0\x01\0\0\0\0\0\0\0\0\0\0\0\x01\x01\0\0\0\0\0\0\0\0\0\0\0\0\0\0",
        1048576.0,
    )?;
    print!(rt; "the next f64 above 2^20: ")?;
    centred(
        rt,
        b"\x01\0\x01\0\x01\0\0\0\0\0\0\0\0\0\0\0\x01\x01\0\0\0\0\0\0\0\0\0\0\0\0\0\0",
        1048576.0000000002,
    )
}

fn layouts(rt: &impl Print) -> io::Result<()> {
    print!(rt; "2 states, 5 arrows, apart: ")?;
    apart(
        rt,
        b"\x01\0\x07\0\x01\0\x03\0\0\0\0\0\0\0\0\0\
          \x01\x01\x02\0\0\0\0\0\0\0\0\0\0\0\0\0\
          \x01\0\0\0\0\0\0\0\0\0\0\0\0\0\0\0\
          \x02\0\x04\0\0\0\x01\0\0\0\0\0\0\0\0\0\
          \x02\0\x05\0\x01\0\0\0\0\0\0\0\0\0\0\0\
          \x02\0\x06\0\0\0\x01\0\0\0\0\0\0\0\0\0\
          \x02\0\x07\0\x01\0\0\0\0\0\0\0\0\0\0\0\
          \x02\0\0\0\0\0\x01\0\0\0\0\0\0\0\0\0",
    )?;
    print!(rt; "2 states, 6 arrows, apart: ")?;
    apart(
        rt,
        b"\x01\0\x08\0\x01\0\x03\0\0\0\0\0\0\0\0\0\
          \x01\x01\x02\0\0\0\0\0\0\0\0\0\0\0\0\0\
          \x01\0\0\0\0\0\0\0\0\0\0\0\0\0\0\0\
          \x02\0\x04\0\0\0\x01\0\0\0\0\0\0\0\0\0\
          \x02\0\x05\0\x01\0\0\0\0\0\0\0\0\0\0\0\
          \x02\0\x06\0\0\0\x01\0\0\0\0\0\0\0\0\0\
          \x02\0\x07\0\x01\0\0\0\0\0\0\0\0\0\0\0\
          \x02\0\x08\0\0\0\x01\0\0\0\0\0\0\0\0\0\
          \x02\0\0\0\x01\0\0\0\0\0\0\0\0\0\0\0",
    )
}

fn listing(rt: &impl Print) -> io::Result<()> {
    println!(rt; "no states:")?;
    listed(rt, b"\x01\0\0\0\0\0\0\0\0\0\0\0\0\0\0\0")?;
    println!(rt; "a start state, a second state, an arrow 0 to 1 with the line `a`:")?;
    listed(
        rt,
        b"\x01\0\x05\0\x01\0\x03\0\0\0\0\0\0\0\0\0\
          \x01\x01\x02\0\0\0\0\0\0\0\0\0\0\0\0\0\
          \x01\0\0\0\0\0\0\0\0\0\0\0\0\0\0\0\
          \x02\0\0\0\0\0\x01\0\x04\0\0\0\0\0\0\0\
          \x03\0\0\0\x05\0\0\0\0\0\0\0\0\0\0\0\
          \x04\x01\0\0a\0\0\0\0\0\0\0\0\0\0\0",
    )
}

fn main(rt: HostRuntime) -> io::Result<()> {
    sheets(&rt)?;
    screens(&rt)?;
    numbers(&rt)?;
    centres(&rt)?;
    layouts(&rt)?;
    listing(&rt)
}
