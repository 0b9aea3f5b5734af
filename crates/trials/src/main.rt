// Runs the trials that data/titles.txt names and prints what the public calls make of each, then compares the solver
// with the exhaustive search on the small sheets. What it is to print was written by another program, which shares
// nothing with this one. What each request asks of a sheet is a file of its own; reactions are in the sheets, and the
// player of due.rt waits for them.
#![tactic(auto)]

mod back;
mod base;
mod convert;
mod data;
mod due;
mod house;
mod small;
mod trial;

use std::rt::Files;
use std::{io, str};

// The last digit of a number, as it is written. (Below ten, so that the cast loses nothing.)
fn digit(n: usize) -> u8 {
    b'0' + (n % 10) as u8
}

// The trial of this number has the sheet NNN.csv in data/, or NNN.fix, which is converted first, and the listing
// NNN.lst or the table NNN.tab, where there is one. NNN are the last three digits of the number. The digits are spelled
// by hand, since a format would make a text on the heap.
fn name(number: usize, kind: [u8; 3]) -> [u8; 7] {
    let a = digit(number / 100);
    let b = digit(number / 10);
    let c = digit(number);
    let [x, y, z] = kind;
    [a, b, c, b'.', x, y, z]
}

// A name that is not UTF-8 would be that of no file.
fn path(name: &[u8; 7]) -> &str {
    str::from_utf8(name).unwrap_or("")
}

// The listing that is handed in. One byte more than a listing may have, so that a longer one is seen to be longer.
fn listed(rt: &(impl Files + Print), sheet: &[u8], lst: &str) -> io::Result<()> {
    let mut printed = [0u8; opening::PRINTED_BYTES + 1];
    let n = data::read(rt, lst, &mut printed)?;
    back::tell(rt, sheet, &printed[..n])
}

// The table that is handed in, or none: its file has two bytes a minute.
fn tabled(rt: &(impl Files + Print), sheet: &[u8], tab: &str) -> io::Result<()> {
    let mut bytes = [0u8; 1024];
    let n = data::read(rt, tab, &mut bytes)?;
    trial::tell(rt, sheet, &bytes[..n])
}

// Takes the page of the last house form before this trial, and leaves that of the last behind it. A listing that is
// handed in is read back, also an empty one; otherwise there is a table.
fn told(
    rt: &(impl Files + Print),
    sheet: &[u8],
    number: usize,
    last: &mut house::Form,
) -> io::Result<()> {
    base::read(rt, sheet)?;
    house::tell(rt, sheet, last)?;
    let lst = name(number, *b"lst");
    if data::is_there(rt, path(&lst)) {
        listed(rt, sheet, path(&lst))
    } else {
        tabled(rt, sheet, path(&name(number, *b"tab")))
    }
}

// What the reader says of a sheet that is converted first, what the converter makes of it, and what is told of that.
fn former(
    rt: &(impl Files + Print),
    sheet: &[u8],
    number: usize,
    last: &mut house::Form,
) -> io::Result<()> {
    base::read(rt, sheet)?;
    let mut page = [0u8; opening::SHEET_BYTES];
    let converted = opening::convert_sheet(sheet, &mut page);
    match base::count(rt, "converted ", converted, page.len())? {
        Some(n) => {
            let converted = &page[..n];
            convert::tell(rt, sheet, converted)?;
            told(rt, converted, number, last)
        }
        None => Ok(()),
    }
}

// A trial: its number and title, and what its files make. The sheet is read with one byte more than a sheet
// may have.
fn numbered(
    rt: &(impl Files + Print),
    number: usize,
    title: &[u8],
    last: &mut house::Form,
) -> io::Result<()> {
    let digits = number % 1000;
    print!(rt; "{digits:03} ")?;
    rt.write_all(title)?;
    println!(rt; "")?;
    let mut sheet = [0u8; opening::SHEET_BYTES + 1];
    let fix = name(number, *b"fix");
    if data::is_there(rt, path(&fix)) {
        let n = data::read(rt, path(&fix), &mut sheet)?;
        former(rt, &sheet[..n], number, last)
    } else {
        let n = data::read(rt, path(&name(number, *b"csv")), &mut sheet)?;
        told(rt, &sheet[..n], number, last)
    }
}

// Each line is the title of a trial.
fn trials(rt: &(impl Files + Print), titles: &[u8]) -> io::Result<()> {
    let mut last = [0u8; opening::SHEET_BYTES];
    for (number, line) in (1..).zip(titles.split_inclusive(|&b| b == b'\n')) {
        let title = line.strip_suffix(b"\n").unwrap_or(line);
        numbered(rt, number, title, &mut last)?;
    }
    Ok(())
}

// One text serves both files, which are read one after the other.
fn main(rt: HostRuntime) -> io::Result<()> {
    let mut text = [0u8; 65536];
    let n = data::read(&rt, "titles.txt", &mut text)?;
    trials(&rt, &text[..n])?;
    let k = data::read(&rt, "small.csv", &mut text)?;
    small::all(&rt, &text[..k])
}
