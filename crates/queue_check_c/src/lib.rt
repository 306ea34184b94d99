// The check's entry for C.
#![tactic(auto)]

ghost use Rattle.queue_check.specs.Layers.{named, claim_under};
ghost use Rattle.queue_check.specs.Packed.{Answers};

// The verdict as one number, for C: 0 for a pass, else the packed fault. What Rust calls is in `queue_check`: a crate is
// either a library or one for C.
#[unsafe(no_mangle)]
pub extern "C" fn queue_check(table: &[u8], set: &[u8]) -> u64
    ensures { Answers table.now set.now (claim_under table.now set.now (named set.now)) result }
{
    queue_check::queue_check(table, set)
}

#[cfg(test)]
mod tests {
    use crate::queue_check;

    // The files of `verdict`'s tests, since a test lies in the crate that it tests: a sender and a taker; without the
    // taker's rule; both records of their set.
    static TABLE: &[u8; 32] =
        b"\x01\x00\x02\x00\x01\x00\x02\x00\x00\x00\x10\x00\x14\x00\x20\x00\x01\x00\x01\x00\x02\x00\x00\x00\x00\x01\x01\x01\x00\x00\x00\x00";

    static NO_TAKE: &[u8; 26] =
        b"\x01\x00\x02\x00\x01\x00\x01\x00\x00\x00\x10\x00\x14\x00\x1a\x00\x01\x00\x01\x00\x02\x00\x00\x00\x00\x01";

    static BOTH: &[u8; 52] =
        b"\x01\x00\x00\x00\x00\x00\x02\x00\x01\x00\x02\x00\x10\x00\x00\x00\x00\x00\x00\x00\x00\x00\x00\x00\x00\x00\x00\x00\x00\x00\x00\x00\x00\x00\x00\x00\x00\x00\x00\x00\x00\x00\x00\x00\x01\x00\x00\x00\x00\x00\x00\x00";

    #[test]
    fn packed(rt: HostRuntime) {
        assert_eq!(rt; queue_check(TABLE, BOTH), 0);
        assert_eq!(rt; queue_check(NO_TAKE, BOTH), 9 + 256 + 4_294_967_296);
        assert_eq!(rt; queue_check(TABLE, &[]), 4);
        assert_eq!(rt; queue_check(&[], BOTH), 1);
    }
}
