// Prints what the order sheet on standard input orders, or the line `no LAYER NUMBER PLACE` if it is refused; the status is then 1.
#![tactic(auto)]

use listing::list_sheet;
use sheet_format::MAX_SHEET;
use std::io::{Read, Write};
use std::process::ExitCode;

// One byte more than a sheet may have, so that a longer one is told and no more of it is read.
const LIMIT: u64 = MAX_SHEET as u64 + 1;

fn main(rt: HostRuntime) -> anyhow::Result<ExitCode> {
    let mut sheet = Vec::new(rt.alloc());
    rt.stdin().take(LIMIT).read_to_end(&mut sheet)?;
    let listing = list_sheet(rt.alloc(), &sheet)?;
    rt.stdout().write_all(&listing.text)?;
    if listing.accepted {
        Ok(ExitCode::SUCCESS)
    } else {
        Ok(ExitCode::FAILURE)
    }
}
