// Test program: replays a list of calls and prints what each answers and changes. Each call is given what the last left; printed are the answer, and
// every number and double that is other than before; behind them, calls on a workspace that is too large for a list (module large_list), with a sum
// over every number and double; and load of sheets that are too long for it (module long_sheets). The file stdout has what must be printed;
// tools/call_list.py made both.
#![tactic(auto)]

mod call_list;
mod large_list;
mod long_sheets;

use call_list::call::{Call, Kind};
use call_list::memory::Memory;
use call_list::report::Reported;
use call_list::{call, memory, report};
use std::io;
use std::io::{Cursor, Read, Write};
use test_words::size;

// begin on the list of the call, which is the first of l.
fn begun(call: &Call, heading: &mut [u32], doubles: &mut [f64], l: &[f64]) -> Reported {
    let n = size(call.lengths[0], l.len());
    begin::begin(heading, doubles, &l[..n]).into()
}

// replace_response on the three lists, which l has one behind the other.
fn responded(call: &Call, heading: &mut [u32], doubles: &mut [f64], l: &[f64]) -> Reported {
    let x = size(call.lengths[0], l.len());
    let y = x + size(call.lengths[1], l.len() - x);
    let z = y + size(call.lengths[2], l.len() - y);
    replace_response::replace_response(heading, doubles, &l[..x], &l[x..y], &l[y..z]).into()
}

// profile_deviance on the list of the call.
fn profiled(call: &Call, heading: &mut [u32], doubles: &mut [f64], l: &[f64]) -> Reported {
    let n = size(call.lengths[0], l.len());
    profile_deviance::profile_deviance(heading, doubles, &l[..n], call.is_reml()).into()
}

// A call other than load on a workspace.
fn called(call: &Call, heading: &mut [u32], doubles: &mut [f64]) -> Reported {
    let mut l = [0f64; call::ROOM];
    call.fill_doubles(&mut l);
    match call.kind {
        Kind::Begin => begun(call, heading, doubles, &l),
        Kind::Response => responded(call, heading, doubles, &l),
        Kind::Profile => profiled(call, heading, doubles, &l),
        Kind::Deviance => {
            deviance::deviance_from_factor(heading, doubles, call.is_reml()).into()
        }
        _ => step::step(heading, doubles, call.step()).into(),
    }
}

// load of the sheet that the call has.
fn loaded(call: &Call, heading: &mut [u32], doubles: &mut [f64]) -> Reported {
    let mut s = [0u8; 131072];
    call.fill_bytes(&mut s);
    let n = size(call.name[0], 131072);
    load::load(&s[..n], heading, doubles).into()
}

// A call on the first numbers and doubles, as many as it is lent.
fn lent(call: &Call, heading: &mut [u32], doubles: &mut [f64]) -> Reported {
    let n = size(call.numbers, heading.len());
    let d = size(call.doubles, doubles.len());
    match call.kind {
        Kind::Load => loaded(call, &mut heading[..n], &mut doubles[..d]),
        _ => called(call, &mut heading[..n], &mut doubles[..d]),
    }
}

// solve_profile_blocked on the first numbers and doubles and the first of a result list.
fn solved(call: &Call, heading: &[u32], doubles: &[f64], results: &mut [f64]) -> Reported {
    let n = size(call.numbers, heading.len());
    let d = size(call.doubles, doubles.len());
    let r = size(call.lengths[0], results.len());
    solve_profile::solve_profile_blocked(
        &heading[..n],
        &doubles[..d],
        call.is_reml(),
        &mut results[..r],
    )
    .into()
}

// A call, or an alteration, and its lines. load begins anew on memory that no call has written.
fn line(out: &mut impl Write, call: &Call, m: &mut Memory) -> io::Result<()> {
    match call.kind {
        Kind::Alter => m.alter(call),
        Kind::Solve => {
            let answer = solved(call, &m.heading, &m.doubles, &mut m.results);
            report::print(out, call.kind, answer)?;
            m.print_changes(out, memory::FIRST_RESULT, memory::PLACES)?;
        }
        Kind::Load => {
            m.reset();
            report::print(out, call.kind, lent(call, &mut m.heading, &mut m.doubles))?;
        }
        _ => report::print(out, call.kind, lent(call, &mut m.heading, &mut m.doubles))?,
    }
    m.print_changes(out, 0, memory::FIRST_RESULT)
}

// The list's first part. A proved loop has to end, and nothing says that a file does, so it takes a million calls at most. No part is inlined: what
// the parts keep would be too much for one frame.
#[inline(never)]
fn replay(list: &mut impl Read, out: &mut impl Write) -> io::Result<()> {
    let mut call = Call::new(Kind::Alter);
    let mut m = Memory::new();
    for _ in 0..1000000 {
        if !call.read(list)? {
            break;
        }
        line(out, &call, &mut m)?;
    }
    Ok(())
}

// solve_profile_blocked on the large workspace: its answer, and a sum over the heading and the result list.
#[inline(never)]
fn large_solved(
    out: &mut impl Write,
    call: &Call,
    heading: &[u32],
    doubles: &[f64],
) -> io::Result<()> {
    let mut results = [0f64; 133350];
    report::print(out, call.kind, solved(call, heading, doubles, &mut results))?;
    test_words::print_word(out, large_list::sum_words(heading, &results))
}

// A call on the large workspace, and a sum over every number and double.
fn large_line(
    out: &mut impl Write,
    call: &Call,
    heading: &mut [u32],
    doubles: &mut [f64],
) -> io::Result<()> {
    match call.kind {
        Kind::Solve => large_solved(out, call, heading, doubles),
        _ => {
            report::print(out, call.kind, called(call, heading, doubles))?;
            test_words::print_word(out, large_list::sum_words(heading, doubles))
        }
    }
}

// The list's second part, on the large workspace.
#[inline(never)]
fn replay_large(list: &mut impl Read, out: &mut impl Write) -> io::Result<()> {
    let mut call = Call::new(Kind::Alter);
    let mut h = [0u32; 33462];
    let mut w = [0f64; 266699];
    large_list::fill_heading(&mut h);
    large_list::fill_doubles(&mut w);
    for _ in 0..1000000 {
        if !call.read(list)? {
            break;
        }
        large_line(out, &call, &mut h, &mut w)?;
    }
    Ok(())
}

// load of the long sheet that the list has next. What is lent is too short for it, so that nothing is loaded.
fn long_line(
    list: &mut impl Read,
    out: &mut impl Write,
    s: &mut [u8; long_sheets::ROOM],
) -> io::Result<()> {
    let mut h = [0u32; 130];
    let mut w = [0f64; 60];
    let mut cursor = Cursor::new(&mut s[..]);
    long_sheets::put_sheet(list, &mut cursor)?;
    let n = size(cursor.position(), long_sheets::ROOM);
    report::print(out, Kind::Load, load::load(&s[..n], &mut h, &mut w).into())
}

// The list's third part, in which the word 1 stands before each sheet.
#[inline(never)]
fn replay_long(list: &mut impl Read, out: &mut impl Write) -> io::Result<()> {
    let mut s = [0u8; long_sheets::ROOM];
    for _ in 0..1000000 {
        if test_words::read_word(list)? != 1 {
            break;
        }
        long_line(list, out, &mut s)?;
    }
    Ok(())
}

fn main(rt: HostRuntime) -> io::Result<()> {
    let mut list = rt.reader();
    let mut out = io::writer(&rt);
    replay(&mut list, &mut out)?;
    replay_large(&mut list, &mut out)?;
    replay_long(&mut list, &mut out)
}
