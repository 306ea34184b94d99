// Files that count as empty. What is read of a file of use is tested by the programs.
#![tactic(auto)]

#[cfg(test)]
mod tests {
    use files::{MOST_TABLE_BYTES, read_at_most};

    #[test]
    fn count_as_empty(rt: HostRuntime) {
        // missing, a folder, longer than any limit
        for path in ["no_such_file", "/", "/dev/zero"] {
            assert_eq!(rt;
                read_at_most(&rt, path, MOST_TABLE_BYTES).len(),
                0,
                "{path}"
            );
        }
    }
}
