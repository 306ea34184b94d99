// Prints how the file `table` reads, or why it is refused.
#![tactic(auto)]

use files::{MOST_TABLE_BYTES, read_at_most};
use std::io;
use table::view::Table;
use text::InWords;

fn main(rt: HostRuntime) -> io::Result<()> {
    let bytes = read_at_most(&rt, "table", MOST_TABLE_BYTES);
    match Table::read(&bytes) {
        Ok(table) => {
            let words = InWords { table };
            print!(rt; "{words}")
        }
        Err(fault) => println!(rt; "{fault}"),
    }
}
