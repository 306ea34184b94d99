// Checks the files `table` and `set`, prints the verdict and, under a pass, the reply to each line of the file `calls`.
#![tactic(auto)]

use files::{MOST_SET_BYTES, MOST_TABLE_BYTES, read_at_most};
use rehearsal::rehearsal::rehearse_files;
use std::io;

const MOST_CALLS_BYTES: u64 = 16_777_216;

fn main(rt: HostRuntime) -> io::Result<()> {
    let table = read_at_most(&rt, "table", MOST_TABLE_BYTES);
    let set = read_at_most(&rt, "set", MOST_SET_BYTES);
    let calls = read_at_most(&rt, "calls", MOST_CALLS_BYTES);
    match rehearse_files(rt.alloc(), &table, &set, &calls)? {
        Ok(replies) => {
            println!(rt; "pass")?;
            for reply in replies {
                println!(rt; "{reply}")?;
            }
            Ok(())
        }
        Err(fault) => println!(rt; "{fault}"),
    }
}
