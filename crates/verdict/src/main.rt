// Checks the files `table` and `set`, and prints `pass` or the refusal.
#![tactic(auto)]

use files::{MOST_SET_BYTES, MOST_TABLE_BYTES, read_at_most};
use queue_check::check_files;
use std::io;

fn main(rt: HostRuntime) -> io::Result<()> {
    let table = read_at_most(&rt, "table", MOST_TABLE_BYTES);
    let set = read_at_most(&rt, "set", MOST_SET_BYTES);
    match check_files(&table, &set) {
        Ok(_) => println!(rt; "pass"),
        Err(fault) => println!(rt; "{fault}"),
    }
}

#[cfg(test)]
mod tests {
    use model::fault::Fault;
    use queue_check::{check_files, queue_check};

    // A sender and a taker; without the taker's rule.
    static TABLE: &[u8; 32] =
        b"\x01\x00\x02\x00\x01\x00\x02\x00\x00\x00\x10\x00\x14\x00\x20\x00\x01\x00\x01\x00\x02\x00\x00\x00\x00\x01\x01\x01\x00\x00\x00\x00";

    static NO_TAKE: &[u8; 26] =
        b"\x01\x00\x02\x00\x01\x00\x01\x00\x00\x00\x10\x00\x14\x00\x1a\x00\x01\x00\x01\x00\x02\x00\x00\x00\x00\x01";

    // The records (0, 0; 0, 0) and (0, 0; 0, 1) of local states and codes; then only the one, then only the other.
    static BOTH: &[u8; 52] =
        b"\x01\x00\x00\x00\x00\x00\x02\x00\x01\x00\x02\x00\x10\x00\x00\x00\x00\x00\x00\x00\x00\x00\x00\x00\x00\x00\x00\x00\x00\x00\x00\x00\x00\x00\x00\x00\x00\x00\x00\x00\x00\x00\x00\x00\x01\x00\x00\x00\x00\x00\x00\x00";

    static FIRST: &[u8; 34] =
        b"\x01\x00\x00\x00\x00\x00\x02\x00\x01\x00\x01\x00\x10\x00\x00\x00\x00\x00\x00\x00\x00\x00\x00\x00\x00\x00\x00\x00\x00\x00\x00\x00\x00\x00";

    static SECOND: &[u8; 34] =
        b"\x01\x00\x00\x00\x00\x00\x02\x00\x01\x00\x01\x00\x10\x00\x00\x00\x00\x00\x00\x00\x00\x00\x00\x00\x00\x00\x01\x00\x00\x00\x00\x00\x00\x00";

    // The verdict, with the four values of a refusal.
    fn verdict(table: &[u8], set: &[u8]) -> Result<(), (u8, u32, u16, u64)> {
        check_files(table, set).map(|_| ()).map_err(values)
    }

    fn values(fault: Fault) -> (u8, u32, u16, u64) {
        (u8::from(fault.number), fault.a, fault.b, fault.c)
    }

    #[test]
    fn a_record_missing(rt: HostRuntime) {
        assert_eq!(rt; verdict(TABLE, BOTH), Ok(()));
        assert_eq!(rt; verdict(TABLE, FIRST), Err((11, 0, 0, 0)));
        assert_eq!(rt; verdict(TABLE, SECOND), Err((8, 0, 0, 0)));
    }

    #[test]
    fn a_rule_missing(rt: HostRuntime) {
        assert_eq!(rt; verdict(NO_TAKE, BOTH), Err((9, 1, 1, 0)));
    }

    #[test]
    fn packed(rt: HostRuntime) {
        assert_eq!(rt; queue_check(TABLE, BOTH), 0);
        assert_eq!(rt; queue_check(NO_TAKE, BOTH), 9 + 256 + 4_294_967_296);
        assert_eq!(rt; queue_check(TABLE, &[]), 4);
        assert_eq!(rt; queue_check(&[], BOTH), 1);
    }
}
