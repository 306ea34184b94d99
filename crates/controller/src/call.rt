// What is asked of a controller, and what it answers where it does not refuse.
ghost use Rattle.std.specs.Prelude.{Some};
ghost use Rattle.controller.specs.Said.{said, seen};

use std::fmt;

#[derive(Clone, Copy, PartialEq, Eq, Debug)]
pub enum Call {
    Fire { rule: u16 },
    Reset,
    Look { machine: u8, place: u8 },
}

// What a look sees of a machine: its local state, how many events wait, and the one at the place asked for.
#[derive(Clone, Copy, PartialEq, Eq, Debug)]
pub struct Sight {
    pub local: u8,
    pub waiting: u8,
    pub event: Option<u8>,
}

#[derive(Clone, Copy, PartialEq, Eq, Debug)]
pub enum Answer {
    Accepted,
    Reset,
    Seen(Sight),
}

// The line that says the answer.
impl fmt::Display for Answer {
    ghost output = { λ a. Some (said a) };

    fn fmt<W: fmt::Write>(&self, f: &mut fmt::Formatter<W>) -> fmt::Result {
        match self {
            Answer::Accepted => write!(f, "accepted"),
            Answer::Reset => write!(f, "reset"),
            Answer::Seen(sight) => write!(f, "{sight}"),
        }
    }
}

impl fmt::Display for Sight {
    ghost output = { λ s. Some (seen s) };

    fn fmt<W: fmt::Write>(&self, f: &mut fmt::Formatter<W>) -> fmt::Result {
        let local = self.local;
        let waiting = self.waiting;
        match self.event {
            Some(event) => write!(f, "local {local} waiting {waiting} event {event}"),
            None => write!(f, "local {local} waiting {waiting} event none"),
        }
    }
}
