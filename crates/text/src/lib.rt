// Tables in words that can be held against a sketch of the machines.
#![tactic(auto)]

use model::mask::{MOST_EVENTS, has};
use model::pattern::Condition;
use model::queue::Front;
use model::rule::{Action, Rule};
use std::fmt;
use table::view::Table;

// A table, to be written with its machines, its rules by number and the conditions of its patterns.
#[derive(Clone, Copy, PartialEq, Eq, Debug)]
pub struct InWords<'a> {
    pub table: Table<'a>,
}

impl fmt::Display for InWords<'_> {
    fn fmt<W: fmt::Write>(&self, f: &mut fmt::Formatter<W>) -> fmt::Result {
        let table = self.table;
        writeln!(
            f,
            "events: {}, machines: {}, rules: {}, patterns: {}",
            table.event_count(),
            table.machine_count(),
            table.rule_count(),
            table.pattern_count()
        )?;
        for machine in 0..table.machine_count() {
            if let Some(states) = table.local_states(machine) {
                writeln!(f, "machine {machine}: local states: {states}")?;
            }
        }
        for number in 0..table.rule_count() {
            if let Some(rule) = table.rule(number) {
                writeln!(f, "rule {number}: {}", Words(rule))?;
            }
        }
        for line in (0..table.pattern_line_count()).filter_map(|line| table.pattern_line(line)) {
            writeln!(f, "pattern {}: {}", line.number, Words(line.condition))?;
        }
        Ok(())
    }
}

// A part of a table, to be written within a line.
#[derive(Clone, Copy)]
struct Words<T>(T);

impl fmt::Display for Words<Rule> {
    fn fmt<W: fmt::Write>(&self, f: &mut fmt::Formatter<W>) -> fmt::Result {
        let rule = self.0;
        write!(
            f,
            "machine {} goes from local state {} to {}{}",
            rule.machine,
            rule.from,
            rule.to,
            Words(rule.action)
        )
    }
}

// A match, since a rule is an enum of actions with numbers of their own.
impl fmt::Display for Words<Action> {
    fn fmt<W: fmt::Write>(&self, f: &mut fmt::Formatter<W>) -> fmt::Result {
        match self.0 {
            Action::Local => Ok(()),
            Action::Take { event } => write!(f, " and takes event {event}"),
            Action::Send { event, target } => {
                write!(f, " and sends event {event} to machine {target}")
            }
        }
    }
}

impl fmt::Display for Words<Condition> {
    fn fmt<W: fmt::Write>(&self, f: &mut fmt::Formatter<W>) -> fmt::Result {
        let condition = self.0;
        write!(f, "machine {} in ", condition.machine)?;
        match condition.local {
            None => write!(f, "any local state")?,
            Some(local) => write!(f, "local state {local}")?,
        }
        write!(f, "{}{}", Words(condition.front), Held(condition.mask))
    }
}

impl fmt::Display for Words<Front> {
    fn fmt<W: fmt::Write>(&self, f: &mut fmt::Formatter<W>) -> fmt::Result {
        match self.0 {
            Front::Any => Ok(()),
            Front::Empty => write!(f, ", its queue empty"),
            Front::Event(event) => write!(f, ", event {event} in front"),
        }
    }
}

// The events that the queue has to hold.
#[derive(Clone, Copy)]
struct Held(u8);

impl fmt::Display for Held {
    fn fmt<W: fmt::Write>(&self, f: &mut fmt::Formatter<W>) -> fmt::Result {
        let mask = u64::from(self.0);
        if mask == 0 {
            return Ok(());
        }
        write!(f, ", its queue holding")?;
        for event in 0..MOST_EVENTS {
            if has(mask, event) {
                write!(f, " {event}")?;
            }
        }
        Ok(())
    }
}
