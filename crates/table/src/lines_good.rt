// Whether the lines of a table keep their rules.
ghost use Rattle.std.specs.Prelude.{◌≡◌, ℕ, ◌+◌, ◌^◌, ◌<◌, ◌≤◌, true, false, Decides, MatchResult};
ghost use Rattle.model.specs.declared.fault.Refusal.TheVariants.{TableLine};
ghost use Rattle.model.specs.System.{FrontFits};
ghost use Rattle.table.specs.Bytes.{byte_at};
ghost use Rattle.table.specs.Header.{fault_at};
ghost use Rattle.table.specs.Layout.{machines_n};
ghost use Rattle.table.specs.Findings.{states_at, GoodMachineAt, GoodAction, GoodRuleAt, Follows, GoodConditionAt, GoodPatternAt};

use crate::bytes::{byte, word};
use crate::header::fault_at;
use crate::layout::{EVENT_COUNT, Kind, MACHINE_COUNT, MOST_LOCAL_STATES, PATTERN_LINE};
use crate::line::Line;
use crate::view::machine_offset;
use model::fault::{Fault, Refusal};
use model::mask::fits;
use model::queue::Front;

impl Line<'_> {
    // A refusal with the line's offset, unless the line is good.
    pub(crate) fn verdict(&self, good: bool) -> Result<(), Fault>
        ensures { MatchResult result (λ _. good ≡ true) (λ f. (good ≡ false) × (f ≡ fault_at TableLine self.now.offset)) }
    {
        if good {
            Ok(())
        } else {
            Err(fault_at(Refusal::TableLine, self.offset))
        }
    }

    // Whether a machine line gives 1 to 32 local states, then 0.
    pub(crate) fn machine_good(&self) -> bool
        ensures { Decides result (GoodMachineAt self.now.bytes.now self.now.offset) }
    {
        let states = self.byte(0);
        (1..=MOST_LOCAL_STATES).contains(&states) && self.byte(1) == 0
    }

    // Whether the machine that the line names exists.
    fn machine_exists(&self) -> bool
        ensures { Decides result (byte_at self.now.bytes.now (self.now.offset + 1) < machines_n self.now.bytes.now) }
    {
        u16::from(self.byte(1)) < word(self.bytes, MACHINE_COUNT)
    }

    // The number of local states of the machine that the line names.
    fn states(&self) -> u8
        ensures { result ≡ states_at self.now.bytes.now (byte_at self.now.bytes.now (self.now.offset + 1)) }
    {
        byte(self.bytes, machine_offset(u16::from(self.byte(1))) as usize)
    }

    // Whether a rule's kind is one of the three, and its event and target are what that kind asks for.
    fn action_good(&self) -> bool
        ensures { Decides result (GoodAction self.now.bytes.now (byte_at self.now.bytes.now self.now.offset) (byte_at self.now.bytes.now (self.now.offset + 4)) (byte_at self.now.bytes.now (self.now.offset + 5))) }
    {
        let event = self.byte(4);
        let target = self.byte(5);
        let event_exists = u16::from(event) < word(self.bytes, EVENT_COUNT);
        match Kind::try_from(self.byte(0)) {
            Ok(Kind::Local) => event == 0 && target == 0,
            Ok(Kind::Take) => event_exists && target == 0,
            Ok(Kind::Send) => event_exists && u16::from(target) < word(self.bytes, MACHINE_COUNT),
            Err(_) => false,
        }
    }

    // Whether everything that the rule in the line names exists.
    pub(crate) fn rule_good(&self) -> bool
        ensures { Decides result (GoodRuleAt self.now.bytes.now self.now.offset) }
    {
        let states = self.states();
        self.machine_exists()
            && self.byte(2) < states
            && self.byte(3) < states
            && self.action_good()
    }

    // Whether the number of pattern line `line` follows from the line before.
    fn follows(&self, line: u16) -> bool
        requires { 6 ≤ self.now.offset }
        ensures { Decides result (Follows self.now.bytes.now line self.now.offset) }
    {
        let number = self.byte(0);
        if line == 0 {
            return number == 0;
        }
        let before = Line {
            bytes: self.bytes,
            offset: self.offset - PATTERN_LINE,
        };
        let last = before.byte(0);
        if number == last {
            return before.byte(1) < self.byte(1);
        }
        u16::from(number) == u16::from(last) + 1
    }

    // Whether everything that the condition in the line names exists.
    fn condition_good(&self) -> bool
        ensures { Decides result (GoodConditionAt self.now.bytes.now self.now.offset) }
    {
        let condition = self.pattern_line().condition;
        let states = self.states();
        let events = word(self.bytes, EVENT_COUNT);
        self.machine_exists()
            && condition.local.is_none_or(|local| local < states)
            && front_exists(condition.front, events)
            && mask_exists(condition.mask, events)
    }

    // Whether pattern line `line` follows from the line before and keeps its rules.
    pub(crate) fn pattern_good(&self, line: u16) -> bool
        requires { 6 ≤ self.now.offset }
        ensures { Decides result (GoodPatternAt self.now.bytes.now line self.now.offset) }
    {
        self.follows(line) && self.condition_good() && self.byte(5) == 0
    }
}

// Whether the event that a front names, if it names one, is among so many.
fn front_exists(front: Front, events: u16) -> bool
    ensures { Decides result (FrontFits events front) }
{
    match front {
        Front::Event(event) => u16::from(event) < events,
        _ => true,
    }
}

// Whether the events of a mask are among so many.
fn mask_exists(mask: u8, events: u16) -> bool
    ensures { Decides result (mask < 2 ^ events) }
{
    fits(u64::from(mask), events)
}
