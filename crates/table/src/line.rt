// The lines of a table.
ghost use Rattle.std.specs.Prelude.{◌≡◌, ◌+◌};
ghost use Rattle.table.specs.Bytes.{byte_at};
ghost use Rattle.table.specs.Lines.{rule_at, front_of, local_of, pattern_line_at, action_of};

use crate::bytes::byte;
use crate::layout::{ANY, EMPTY_FRONT, Kind};
use model::pattern::Condition;
use model::queue::Front;
use model::rule::{Action, Rule};

// A condition, and the number of the pattern that it belongs to.
#[derive(Clone, Copy, PartialEq, Eq, Debug)]
pub struct PatternLine {
    pub number: u8,
    pub condition: Condition,
}

// A line of a table: the bytes of the file, and where in them the line begins.
#[derive(Clone, Copy)]
pub(crate) struct Line<'a> {
    pub(crate) bytes: &'a [u8],
    pub(crate) offset: u32,
}

impl Line<'_> {
    // The byte at place `i` of the line.
    pub(crate) fn byte(&self, i: u8) -> u8
        ensures { result ≡ byte_at self.now.bytes.now (self.now.offset + i) }
    {
        byte(self.bytes, self.offset as usize + usize::from(i))
    }

    // The rule in the line.
    pub(crate) fn rule(&self) -> Rule
        ensures { result ≡ rule_at self.now.bytes.now self.now.offset }
    {
        Rule {
            machine: self.byte(1),
            from: self.byte(2),
            to: self.byte(3),
            action: action(self.byte(0), self.byte(4), self.byte(5)),
        }
    }

    // The pattern's number and the condition in the line.
    pub(crate) fn pattern_line(&self) -> PatternLine
        ensures { result ≡ pattern_line_at self.now.bytes.now self.now.offset }
    {
        PatternLine {
            number: self.byte(0),
            condition: Condition {
                machine: self.byte(1),
                local: local(self.byte(2)),
                front: front(self.byte(3)),
                mask: self.byte(4),
            },
        }
    }
}

// The action that a kind, an event and a target stand for.
// No `From`: what the bytes stand for is the file's, and all these types are other crates'.
fn action(kind: u8, event: u8, target: u8) -> Action
    ensures { result ≡ action_of kind event target }
{
    match Kind::try_from(kind) {
        Ok(Kind::Local) => Action::Local,
        Ok(Kind::Take) => Action::Take { event },
        _ => Action::Send { event, target },
    }
}

// The local state that a condition names, if it names one.
// No `From`: what a byte stands for is the file's, and both types are other crates'.
fn local(byte: u8) -> Option<u8>
    ensures { result ≡ local_of byte }
{
    (byte != ANY).then_some(byte)
}

// The front that a condition names.
// No `From`: what a byte stands for is the file's, and both types are other crates'.
fn front(byte: u8) -> Front
    ensures { result ≡ front_of byte }
{
    match byte {
        ANY => Front::Any,
        EMPTY_FRONT => Front::Empty,
        event => Front::Event(event),
    }
}
