// The words of tables, each part of a line in every form.
#![tactic(auto)]

#[cfg(test)]
mod tests {
    use std::test::Fail;
    use table::view::Table;
    use text::InWords;

    // Two machines and three events; a rule of each kind; two patterns in four lines.
    static TABLE: [u8; 62] = [
        1, 0, 2, 0, 3, 0, 3, 0, 4, 0, 16, 0, 20, 0, 38, 0, 2, 0, 3, 0, 0, 0, 0, 1, 0, 0, 2, 0, 1,
        0, 2, 1, 1, 1, 0, 2, 1, 0, 0, 0, 255, 254, 0, 0, 0, 1, 2, 1, 5, 0, 1, 0, 1, 255, 0, 0, 1,
        1, 255, 255, 6, 0,
    ];

    static WORDS: &str = "events: 3, machines: 2, rules: 3, patterns: 2
machine 0: local states: 2
machine 1: local states: 3
rule 0: machine 0 goes from local state 0 to 1
rule 1: machine 0 goes from local state 1 to 0 and sends event 2 to machine 1
rule 2: machine 1 goes from local state 0 to 2 and takes event 1
pattern 0: machine 0 in any local state, its queue empty
pattern 0: machine 1 in local state 2, event 1 in front, its queue holding 0 2
pattern 1: machine 0 in local state 1
pattern 1: machine 1 in any local state, its queue holding 1 2
";

    // One machine and one event, no rules and no patterns.
    static LEAST: [u8; 18] = [1, 0, 1, 0, 1, 0, 0, 0, 0, 0, 16, 0, 18, 0, 18, 0, 32, 0];

    static LEAST_WORDS: &str = "events: 1, machines: 1, rules: 0, patterns: 0
machine 0: local states: 32
";

    #[test]
    fn words(rt: HostRuntime) -> Result<(), Fail> {
        for (bytes, words) in [(&TABLE[..], WORDS), (&LEAST[..], LEAST_WORDS)] {
            let Ok(table) = Table::read(bytes) else {
                return Err(Fail::new("the table is refused"));
            };
            let text = format!(in rt.alloc(); "{}", InWords { table })?;
            assert_eq!(rt; text.as_str(), words);
        }
        Ok(())
    }
}
