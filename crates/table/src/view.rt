// A table over the bytes that it is read from.
ghost use Rattle.std.specs.Prelude.{◌≡◌, ◌^◌, ◌<◌, length, IfSome};
ghost use Rattle.std.specs.List.{slice_get};
ghost use Rattle.model.specs.System.{machines};
ghost use Rattle.table.specs.Bytes.{byte_at};
ghost use Rattle.table.specs.Layout.{machine_offset, rule_offset, pattern_offset};
ghost use Rattle.table.specs.SystemOf.{system_of, pattern_lines_of};
ghost use Rattle.table.specs.Reading.{OfPattern};

use crate::bytes::word;
use crate::header::HEADER_LENGTH;
use crate::layout::{
    EVENT_COUNT, MACHINE_COUNT, MACHINE_LINE, PATTERN_LINE, PATTERN_LINE_COUNT, RULE_COUNT,
    RULE_LINE,
};
use crate::line::{Line, PatternLine};
use model::rule::Rule;

// No one generic view with the checker's `StateSet`: each has parts of its own, and what it stands for
// is promised by its own reader.
#[derive(Clone, Copy, PartialEq, Eq, Debug)]
pub struct Table<'a> {
    bytes: &'a [u8],
}

impl<'a> Table<'a> {
    // A view over any bytes at all.
    pub(crate) fn over(bytes: &'a [u8]) -> Table<'a>
        ensures { result.bytes.now ≡ bytes.now }
    {
        Table { bytes }
    }

    // The bytes that the table is read from.
    pub fn bytes(&self) -> &'a [u8]
        ensures { result.now ≡ self.now.bytes.now }
    {
        self.bytes
    }

    // The number of machines.
    #[tactic(auto, using(crate::proofs::Parts::counted))]
    pub fn machine_count(&self) -> u16
        ensures { result ≡ machines (system_of self.now.bytes.now) }
    {
        word(self.bytes, MACHINE_COUNT)
    }

    // The number of events.
    pub fn event_count(&self) -> u16
        ensures { result ≡ (system_of self.now.bytes.now).events }
    {
        word(self.bytes, EVENT_COUNT)
    }

    // The number of rules.
    #[tactic(auto, using(crate::proofs::Parts::counted))]
    pub fn rule_count(&self) -> u16
        ensures { result ≡ length (system_of self.now.bytes.now).rules }
    {
        word(self.bytes, RULE_COUNT)
    }

    // The number of pattern lines.
    #[tactic(auto, using(crate::proofs::Parts::counted))]
    pub fn pattern_line_count(&self) -> u16
        ensures { result ≡ length (pattern_lines_of self.now.bytes.now) }
    {
        word(self.bytes, PATTERN_LINE_COUNT)
    }

    // The number of patterns: the last line belongs to the last one.
    #[tactic(auto, using(crate::proofs::Parts::counted))]
    pub fn pattern_count(&self) -> u16
        ensures { result ≡ length (system_of self.now.bytes.now).patterns }
    {
        let lines = self.pattern_line_count();
        if lines == 0 {
            return 0;
        }
        u16::from(self.line_at(self.pattern_offset(lines - 1)).byte(0)) + 1
    }

    // The number of local states of a machine, if there is such a machine.
    #[tactic(auto, using(crate::proofs::Parts::counted))]
    pub fn local_states(&self, machine: u16) -> Option<u8>
        ensures { result ≡ slice_get (system_of self.now.bytes.now).states machine }
    {
        if machine < self.machine_count() {
            Some(self.line_at(machine_offset(machine)).byte(0))
        } else {
            None
        }
    }

    // The rule of that number, if there is one.
    #[tactic(auto, using(crate::proofs::Parts::counted))]
    pub fn rule(&self, number: u16) -> Option<Rule>
        ensures { result ≡ slice_get (system_of self.now.bytes.now).rules number }
    {
        if number < self.rule_count() {
            Some(self.line_at(self.rule_offset(number)).rule())
        } else {
            None
        }
    }

    // The pattern line of that number, if there is one.
    #[tactic(auto, using(crate::proofs::Parts::counted))]
    pub fn pattern_line(&self, number: u16) -> Option<PatternLine>
        ensures is { result ≡ slice_get (pattern_lines_of self.now.bytes.now) number }
        ensures of_pattern { IfSome result (OfPattern self.now.bytes.now) }
    {
        if number < self.pattern_line_count() {
            Some(self.line_at(self.pattern_offset(number)).pattern_line())
        } else {
            None
        }
    }

    // The line that begins at an offset.
    pub(crate) fn line_at(&self, offset: u32) -> Line<'a>
        ensures bytes { result.bytes.now ≡ self.now.bytes.now }
        ensures offset { result.offset ≡ offset }
    {
        Line {
            bytes: self.bytes,
            offset,
        }
    }

    // Where a rule's line begins.
    pub(crate) fn rule_offset(&self, number: u16) -> u32
        ensures is { result ≡ rule_offset self.now.bytes.now number }
        ensures small { result < 2 ^ 20 }
    {
        machine_offset(word(self.bytes, MACHINE_COUNT)) + RULE_LINE * u32::from(number)
    }

    // Where a pattern line begins.
    pub(crate) fn pattern_offset(&self, number: u16) -> u32
        ensures { result ≡ pattern_offset self.now.bytes.now number }
    {
        self.rule_offset(word(self.bytes, RULE_COUNT)) + PATTERN_LINE * u32::from(number)
    }
}

// Where a machine's line begins.
pub(crate) fn machine_offset(machine: u16) -> u32
    ensures { result ≡ machine_offset machine }
{
    HEADER_LENGTH as u32 + MACHINE_LINE * u32::from(machine)
}
