// Reads the files `sheet.csv` and `listing.csv` of the folder that it is started in, and prints the verdict on the
// table of the listing, or `refused N line L`. The sheet's file is read and closed before the listing's is opened.
#![tactic(auto)]

use std::{fs, io};

fn main(rt: HostRuntime) -> io::Result<()> {
    let mut sheet = [0u8; report::SHEET_ROOM];
    // The file is closed at the end of this statement.
    let n = files::read_opened(&mut fs::open(&rt, "sheet.csv"), &mut sheet)?;
    let mut listing_file = fs::open(&rt, "listing.csv");
    report::judge_listing(&sheet[..n], &mut listing_file, &mut rt.stdout())
}
