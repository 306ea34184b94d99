// The parts of a table that reads.
ghost use Rattle.std.specs.Prelude.{Decides};
ghost use Rattle.model.specs.Bad.{Takes};
ghost use Rattle.checker.specs.Props.{ready_prop};
ghost use Rattle.checker.specs.Ready.{Ready};

use model::rule::{Action, Rule};
use table::line::PatternLine;
use table::view::Table;

// A table that reads: few machines, events, rules and lines, and everything that it names exists.
#[derive(Drop)]
pub(crate) struct ReadTable<'a> {
    pub(crate) view: Table<'a>,
    ghost ready: { Ready view.bytes.now } by { ready_prop view.bytes.now },
}

impl ReadTable<'_> {
    ghost use Rattle.std.specs.Prelude.{◌≡◌, ℕ, ◌<◌, Decides};
    ghost use Rattle.model.specs.System.{states_of, rule_of};
    ghost use Rattle.model.specs.Bad.{NoTake};
    ghost use Rattle.table.specs.Layout.{machines_n, events_n, rules_n, pattern_lines_n, pattern_offset};
    ghost use Rattle.table.specs.Lines.{pattern_line_at};
    ghost use Rattle.table.specs.SystemOf.{system_of};

    // The number of machines.
    pub(crate) fn machines(&self) -> u8
        ensures { result ≡ machines_n self.now.view.bytes.now }
    {
        self.view.machine_count() as u8
    }

    // The number of events.
    pub(crate) fn events(&self) -> u8
        ensures { result ≡ events_n self.now.view.bytes.now }
    {
        self.view.event_count() as u8
    }

    // The number of local states of a machine; 0 where there is no such machine.
    pub(crate) fn local_states(&self, machine: u8) -> u8
        ensures { result ≡ states_of (system_of self.now.view.bytes.now) machine }
    {
        self.view.local_states(u16::from(machine)).unwrap_or(0)
    }

    // The rule of number `r`.
    pub(crate) fn rule(&self, r: u16) -> Rule
        requires { r < rules_n self.now.view.bytes.now }
        ensures { result ≡ rule_of (system_of self.now.view.bytes.now) r }
    {
        self.view.rule(r).unwrap()
    }

    // The pattern line of number `l`.
    pub(crate) fn pattern_line(&self, l: u16) -> PatternLine
        requires { l < pattern_lines_n self.now.view.bytes.now }
        ensures { result ≡ pattern_line_at self.now.view.bytes.now (pattern_offset self.now.view.bytes.now l) }
    {
        self.view.pattern_line(l).unwrap()
    }

    // Whether no rule lets a machine in a local state take an event.
    pub(crate) fn no_take(&self, machine: u8, local: u8, event: u8) -> bool
        ensures { Decides result (NoTake (system_of self.now.view.bytes.now) machine local event) }
    {
        (0..self.view.rule_count()).all(
            |r|
                requires { r < rules_n self.now.view.bytes.now }
            { !takes(self.rule(r), machine, local, event) },
        )
    }
}

// Whether a rule lets a machine in a local state take an event.
pub(crate) fn takes(rule: Rule, machine: u8, local: u8, event: u8) -> bool
    ensures { Decides result (Takes rule machine local event) }
{
    rule.machine == machine
        && rule.from == local
        && matches!(rule.action, Action::Take { event: e } if e == event)
}
