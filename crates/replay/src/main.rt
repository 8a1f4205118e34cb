// Replays the lists of fixed answers that its arguments name: through the C functions, and through the layers' own calls where C has no
// form for what they take. Prints for each list its name, how many cases there are and how many are right.
#![tactic(auto)]

mod changes;
mod sheets;

use std::io::Read;
use std::rt::{Env, Files};
use std::{fs, io};

// What the records of a list ask.
#[derive(Clone, Copy, Debug, PartialEq, Eq)]
enum Kind {
    Rounding,
    Scalars,
    Shapes,
    Sheets,
    Slots,
    Changes,
}

// The cases so far, and those of them that were right.
#[derive(Clone, Copy, Debug, Default, PartialEq, Eq)]
struct Tally {
    cases: u64,
    right: u64,
}

// Whether a record's answer is given. One of operators goes through the C functions and through the layer's own.
fn is_right(kind: Kind, case: &[u8]) -> bool {
    match kind {
        Kind::Rounding => cases::roundings::is_right(case),
        Kind::Scalars => cases::scalars::is_right(case) & cases::operators::is_right(case),
        Kind::Shapes => cases::shapes::is_right(case) & cases::operators::is_right(case),
        Kind::Sheets => sheets::is_right(case),
        Kind::Slots => cases::slots::is_right(case),
        Kind::Changes => changes::is_right(case),
    }
}

// The length of the next record: the kind fixes it, or it stands before the record. At the list's end that is 0.
fn size<F: Read>(file: &mut F, kind: Kind) -> io::Result<u64> {
    let mut two = [0u8; 2];
    let mut four = [0u8; 4];
    match kind {
        Kind::Rounding => Ok(24),
        Kind::Slots => Ok(137),
        Kind::Scalars | Kind::Shapes => {
            reading::fill(file, &mut two)?;
            Ok(low::word(&two, 0) as u64)
        }
        Kind::Sheets | Kind::Changes => {
            reading::fill(file, &mut four)?;
            Ok(low::word(&four, 0) as u64)
        }
    }
}

// A word and a number on a line.
fn line<P: Print>(rt: &P, what: &str, n: u64) -> io::Result<()> {
    println!(rt; "{what}{n}")
}

// One case more. The first few wrong ones are named by their number in the list, counted from 0.
fn counted<P: Print>(rt: &P, t: Tally, right: bool) -> io::Result<Tally> {
    if !right & (t.cases.wrapping_sub(t.right) < 5) {
        line(rt, "wrong ", t.cases)?;
    }
    Ok(Tally {
        cases: t.cases.wrapping_add(1),
        right: t.right.wrapping_add(u64::from(right)),
    })
}

// Whether the next record's answer is given. One that buf cannot hold ends the list, as its end does.
fn turn<F: Read>(file: &mut F, kind: Kind, buf: &mut [u8]) -> io::Result<Option<bool>> {
    let n = size(file, kind)?;
    if (buf.len() as u64) < n {
        return Ok(None);
    }
    let e = n as usize;
    let got = reading::fill(file, &mut buf[0..e])?;
    if got == 0 {
        return Ok(None);
    }
    Ok(Some(is_right(kind, &buf[0..got])))
}

// Every record of a list.
fn run<P: Print, F: Read>(rt: &P, file: &mut F, kind: Kind) -> io::Result<Tally> {
    let mut buf = [0u8; 65536];
    let mut t = Tally::default();
    // The turns are counted so that the loop is known to end; no list is so long.
    for _ in 0..u64::MAX {
        let Some(right) = turn(file, kind, &mut buf)? else {
            return Ok(t);
        };
        t = counted(rt, t, right)?;
    }
    Ok(t)
}

// The list of a name. One that cannot be opened has no cases, nor has a name that is no UTF-8.
fn list<R: Files + Print>(rt: &R, path: &[u8], kind: Kind) -> io::Result<Tally> {
    let Ok(path) = str::from_utf8(path) else {
        return Ok(Tally::default());
    };
    let Ok(mut file) = fs::open(rt, path) else {
        return Ok(Tally::default());
    };
    run(rt, &mut file, kind)
}

// The list that argument i names.
fn replay<R: Env + Files + Print>(rt: &R, i: usize, kind: Kind) -> io::Result<()> {
    let mut path = [0u8; 4096];
    let n = rt.arg(i, &mut path).unwrap_or(0);
    rt.write_all(&path[..n])?;
    rt.write_all(b"\n")?;
    let t = list(rt, &path[..n], kind)?;
    line(rt, "cases ", t.cases)?;
    line(rt, "right ", t.right)
}

// The lists in the order of the arguments.
fn main(rt: HostRuntime) -> io::Result<()> {
    let kinds = [
        Kind::Rounding,
        Kind::Rounding,
        Kind::Scalars,
        Kind::Shapes,
        Kind::Sheets,
        Kind::Slots,
        Kind::Changes,
    ];
    for (i, kind) in kinds.iter().enumerate() {
        replay(&rt, i + 1, *kind)?;
    }
    Ok(())
}
