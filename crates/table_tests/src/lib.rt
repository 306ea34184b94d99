// Tests of the table reader: limits, single bytes changed, several faults at once.
#![tactic(auto)]

#[cfg(test)]
mod tests {
    use std::alloc::{AllocError, Global};
    use std::test::Fail;
    use table::view::Table;

    const HEADER: usize = 16;

    const LENGTH: usize = 56;

    // Two machines, two events, a rule of each kind, and two patterns in three lines.
    static BASE: [u8; LENGTH] = [
        1, 0, 2, 0, 2, 0, 3, 0, 3, 0, 16, 0, 20, 0, 38, 0, 3, 0, 2, 0, 0, 0, 1, 2, 0, 0, 1, 1, 0,
        1, 1, 0, 2, 0, 2, 0, 1, 1, 0, 0, 1, 255, 2, 0, 0, 1, 255, 0, 1, 0, 1, 0, 2, 254, 0, 0,
    ];

    // One byte changed: its offset, its new value, and the refusal with its place, or 0 and 0.
    // First each byte by one, in both directions; then values at their limits and just beyond.
    static CHANGES: [(usize, u8, u8, u32); 134] = [
        (0, 0, 2, 0),
        (0, 2, 2, 0),
        (1, 255, 2, 0),
        (1, 1, 2, 0),
        (2, 1, 2, 12),
        (2, 3, 2, 12),
        (3, 255, 2, 2),
        (3, 1, 2, 2),
        (4, 1, 3, 26),
        (4, 3, 0, 0),
        (5, 255, 2, 4),
        (5, 1, 2, 4),
        (6, 2, 2, 14),
        (6, 4, 2, 14),
        (7, 255, 2, 6),
        (7, 1, 2, 6),
        (8, 2, 1, 0),
        (8, 4, 1, 0),
        (9, 255, 2, 8),
        (9, 1, 2, 8),
        (10, 15, 2, 10),
        (10, 17, 2, 10),
        (11, 255, 2, 10),
        (11, 1, 2, 10),
        (12, 19, 2, 12),
        (12, 21, 2, 12),
        (13, 255, 2, 12),
        (13, 1, 2, 12),
        (14, 37, 2, 14),
        (14, 39, 2, 14),
        (15, 255, 2, 14),
        (15, 1, 2, 14),
        (16, 2, 3, 20),
        (16, 4, 0, 0),
        (17, 255, 3, 16),
        (17, 1, 3, 16),
        (18, 1, 3, 26),
        (18, 3, 0, 0),
        (19, 255, 3, 18),
        (19, 1, 3, 18),
        (20, 255, 3, 20),
        (20, 1, 0, 0),
        (21, 255, 3, 20),
        (21, 1, 3, 20),
        (22, 0, 0, 0),
        (22, 2, 0, 0),
        (23, 1, 0, 0),
        (23, 3, 3, 20),
        (24, 255, 3, 20),
        (24, 1, 3, 20),
        (25, 255, 3, 20),
        (25, 1, 3, 20),
        (26, 0, 3, 26),
        (26, 2, 0, 0),
        (27, 0, 0, 0),
        (27, 2, 3, 26),
        (28, 255, 3, 26),
        (28, 1, 0, 0),
        (29, 0, 0, 0),
        (29, 2, 3, 26),
        (30, 0, 0, 0),
        (30, 2, 3, 26),
        (31, 255, 3, 26),
        (31, 1, 3, 26),
        (32, 1, 3, 32),
        (32, 3, 3, 32),
        (33, 255, 3, 32),
        (33, 1, 3, 32),
        (34, 1, 0, 0),
        (34, 3, 3, 32),
        (35, 255, 3, 32),
        (35, 1, 0, 0),
        (36, 0, 0, 0),
        (36, 2, 3, 32),
        (37, 0, 0, 0),
        (37, 2, 3, 32),
        (38, 255, 3, 38),
        (38, 1, 3, 38),
        (39, 255, 3, 38),
        (39, 1, 3, 44),
        (40, 0, 0, 0),
        (40, 2, 0, 0),
        (41, 254, 0, 0),
        (41, 0, 0, 0),
        (42, 1, 0, 0),
        (42, 3, 0, 0),
        (43, 255, 3, 38),
        (43, 1, 3, 38),
        (44, 255, 3, 44),
        (44, 1, 3, 50),
        (45, 0, 3, 44),
        (45, 2, 3, 44),
        (46, 254, 3, 44),
        (46, 0, 0, 0),
        (47, 255, 0, 0),
        (47, 1, 0, 0),
        (48, 0, 0, 0),
        (48, 2, 0, 0),
        (49, 255, 3, 44),
        (49, 1, 3, 44),
        (50, 0, 3, 50),
        (50, 2, 3, 50),
        (51, 255, 3, 50),
        (51, 1, 3, 50),
        (52, 1, 0, 0),
        (52, 3, 3, 50),
        (53, 253, 3, 50),
        (53, 255, 0, 0),
        (54, 255, 3, 50),
        (54, 1, 0, 0),
        (55, 255, 3, 50),
        (55, 1, 3, 50),
        (16, 0, 3, 16),
        (16, 32, 0, 0),
        (16, 33, 3, 16),
        (18, 0, 3, 18),
        (18, 32, 0, 0),
        (18, 33, 3, 18),
        (22, 3, 3, 20),
        (28, 2, 3, 26),
        (35, 3, 3, 32),
        (40, 3, 3, 38),
        (41, 1, 0, 0),
        (41, 2, 3, 38),
        (42, 4, 3, 38),
        (44, 2, 3, 44),
        (46, 1, 0, 0),
        (46, 2, 3, 44),
        (47, 2, 3, 44),
        (48, 3, 0, 0),
        (48, 4, 3, 44),
        (53, 2, 3, 50),
        (54, 3, 0, 0),
        (54, 4, 3, 50),
    ];

    // Two bytes changed: the first fault in the order of the file wins; or a value at a limit that the other byte moves.
    static PAIRS: [(usize, u8, usize, u8, u8, u32); 16] = [
        (0, 2, 4, 9, 2, 0),
        (4, 9, 16, 0, 2, 4),
        (8, 4, 16, 0, 1, 0),
        (19, 1, 16, 0, 3, 16),
        (26, 9, 17, 1, 3, 16),
        (38, 9, 32, 9, 3, 32),
        (50, 9, 44, 9, 3, 44),
        (12, 0, 14, 0, 2, 12),
        (8, 4, 0, 2, 2, 0),
        (18, 0, 16, 0, 3, 16),
        (26, 9, 21, 9, 3, 20),
        (16, 32, 23, 31, 0, 0),
        (16, 32, 23, 32, 3, 20),
        (4, 8, 42, 255, 0, 0),
        (4, 7, 42, 127, 0, 0),
        (4, 7, 42, 128, 3, 38),
    ];

    // The refusal's number and place; 0 and 0 where the table reads. A pair, as the rows of the tables of this file have it:
    // a Result would have to be made of every row.
    fn verdict(bytes: &[u8]) -> (u8, u32) {
        match Table::read(bytes) {
            Ok(_) => (0, 0),
            Err(fault) => (u8::from(fault.number), fault.a),
        }
    }

    fn changed(bytes: &mut [u8], offset: usize, value: u8) {
        if let Some(byte) = bytes.get_mut(offset) {
            *byte = value;
        }
    }

    #[test]
    fn single_bytes(rt: HostRuntime) {
        assert_eq!(rt; verdict(&BASE), (0, 0));
        for (offset, value, number, place) in CHANGES {
            let mut bytes = BASE;
            changed(&mut bytes, offset, value);
            assert_eq!(rt; verdict(&bytes), (number, place));
        }
    }

    #[test]
    fn two_faults(rt: HostRuntime) {
        for (first, value, second, other, number, place) in PAIRS {
            let mut bytes = BASE;
            changed(&mut bytes, first, value);
            changed(&mut bytes, second, other);
            assert_eq!(rt; verdict(&bytes), (number, place));
        }
    }

    #[test]
    fn every_length(rt: HostRuntime) {
        let mut other_edition = BASE;
        changed(&mut other_edition, 0, 2);
        for length in 0..LENGTH {
            assert_eq!(rt; verdict(&BASE[0..length]), (1, 0));
            // below a whole header the length counts first, and from there the header
            let first = if length < HEADER { (1, 0) } else { (2, 0) };
            assert_eq!(rt; verdict(&other_edition[0..length]), first);
        }
    }

    fn push_word(bytes: &mut Vec<u8>, word: u16) -> Result<(), AllocError> {
        bytes.extend_from_slice(&word.to_le_bytes())
    }

    // A table with those counts, its offsets and its length by them, and `more` bytes after its end.
    // Its machines have one local state each, its rules are local moves, and each pattern has one line.
    fn of_counts(
        heap: Global,
        counts: (u16, u16, u16, u16),
        more: u8,
    ) -> Result<Vec<u8>, AllocError> {
        let (machines, events, rules, lines) = counts;
        let rules_at = machines.wrapping_mul(2).wrapping_add(16);
        let patterns_at = rules.wrapping_mul(6).wrapping_add(rules_at);
        let mut bytes = Vec::new(heap);
        for word in [1, machines, events, rules, lines, 16, rules_at, patterns_at] {
            push_word(&mut bytes, word)?;
        }
        for _ in 0..machines {
            push_word(&mut bytes, 1)?;
        }
        bytes.resize(usize::from(patterns_at), 0)?;
        for line in 0..lines {
            bytes.extend_from_slice(&[(line % 256) as u8, 0, 0, 0, 0, 0])?;
        }
        let length = bytes.len().saturating_add(usize::from(more));
        bytes.resize(length, 0)?;
        Ok(bytes)
    }

    // Machines, events, rules, pattern lines, bytes too many, and the refusal with its place.
    static COUNTS: [(u16, u16, u16, u16, u8, u8, u32); 18] = [
        (1, 1, 0, 0, 0, 0, 0),
        (6, 8, 256, 64, 0, 0, 0),
        (0, 1, 0, 0, 0, 2, 2),
        (6, 1, 0, 0, 0, 0, 0),
        (7, 1, 0, 0, 0, 2, 2),
        (1, 0, 0, 0, 0, 2, 4),
        (1, 8, 0, 0, 0, 0, 0),
        (1, 9, 0, 0, 0, 2, 4),
        (1, 1, 256, 0, 0, 0, 0),
        (1, 1, 257, 0, 0, 2, 6),
        (1, 1, 0, 64, 0, 0, 0),
        (1, 1, 0, 65, 0, 2, 8),
        (1, 1, 0, 0, 1, 1, 0),
        (2, 2, 3, 3, 1, 1, 0),
        (6, 8, 256, 64, 1, 1, 0),
        (7, 9, 257, 65, 0, 2, 2),
        (6, 9, 257, 65, 0, 2, 4),
        (6, 8, 257, 65, 0, 2, 6),
    ];

    #[test]
    fn limits_of_counts(rt: HostRuntime) -> Result<(), Fail> {
        for (machines, events, rules, lines, more, number, place) in COUNTS {
            let bytes = of_counts(rt.alloc(), (machines, events, rules, lines), more)?;
            assert_eq!(rt; verdict(&bytes), (number, place));
        }
        Ok(())
    }
}
