// What a line of calls is answered.
ghost use Rattle.std.specs.Prelude.{Some};
ghost use Rattle.rehearsal.specs.Said.{said};

use controller::call::Answer;
use model::fault::Fault;
use std::fmt;

#[derive(Clone, Copy, PartialEq, Eq, Debug)]
pub enum Reply {
    // The capacity that was set, or why it was not.
    Capacity(Result<u8, Fault>),
    // The controller's answer to a call, or why the call could not be made.
    Answered(Result<Answer, Fault>),
    // The number of a line that asks for nothing, or for a capacity when the pass is used up.
    NotUnderstood(u64),
}

impl fmt::Display for Reply {
    ghost output = { λ r. Some (said r) };

    fn fmt<W: fmt::Write>(&self, f: &mut fmt::Formatter<W>) -> fmt::Result {
        match *self {
            Reply::Capacity(Ok(capacity)) => write!(f, "capacity {capacity}"),
            Reply::Answered(Ok(answer)) => write!(f, "{answer}"),
            Reply::Capacity(Err(fault)) | Reply::Answered(Err(fault)) => write!(f, "{fault}"),
            Reply::NotUnderstood(line) => write!(f, "line {line}: not understood"),
        }
    }
}
