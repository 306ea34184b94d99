// The reply to one line, while the pass is held and once the table is loaded.
ghost use Rattle.std.specs.Prelude.{◌≡◌};
ghost use Rattle.controller.specs.Views.{system_in, state_in, Keeps};
ghost use Rattle.rehearsal.specs.Turns.{hold_reply, hold_capacity, make_reply, make_state};

use crate::reply::Reply;
use calls::line::Line;
use checker::pass::Pass;
use controller::held::Controller;

// The reply to a line that is no call, while the pass is held.
pub(crate) fn hold(pass: &mut Pass<'_>, number: u64, line: Line) -> Option<Reply>
    ensures reply { result ≡ hold_reply number line }
    ensures capacity { pass.new.capacity ≡ hold_capacity pass.old.capacity line }
    ensures table { pass.new.table ≡ pass.old.table }
{
    match line {
        Line::Skipped | Line::Call(_) => None,
        Line::Capacity(capacity) => {
            let set = pass.set_capacity(capacity).map(|()| capacity);
            Some(Reply::Capacity(set))
        }
        Line::NotUnderstood => Some(Reply::NotUnderstood(number)),
    }
}

// The reply to a line once the table is loaded.
pub(crate) fn make(controller: &mut Controller<'_>, number: u64, line: Line) -> Option<Reply>
    ensures reply { result ≡ make_reply (system_in controller.old) controller.old.capacity (state_in controller.old) number line }
    ensures state { state_in controller.new ≡ make_state (system_in controller.old) controller.old.capacity (state_in controller.old) line }
    ensures keeps { Keeps controller.old controller.new }
{
    match line {
        Line::Skipped => None,
        Line::Call(call) => Some(Reply::Answered(controller.answer(call))),
        Line::Capacity(_) | Line::NotUnderstood => Some(Reply::NotUnderstood(number)),
    }
}
