// The replies to all lines.
ghost use Rattle.std.specs.Prelude.{◌≡◌, ◌+◌, min, ◌++◌, drop, IfOk, OnOk};
ghost use Rattle.std.specs.Option.{option_to_list};
ghost use Rattle.model.specs.State.{start};
ghost use Rattle.model.specs.System.{System};
ghost use Rattle.controller.specs.Views.{system_in, state_in};
ghost use Rattle.queue_check.specs.Layers.{claim_under, named};
ghost use Rattle.rehearsal.specs.Files.{FromFiles};
ghost use Rattle.rehearsal.specs.Laws.{RepliedOf, Rehearsed};
ghost use Rattle.rehearsal.specs.Replies.{held, loaded};

use crate::reply::Reply;
use crate::turn::{hold, make};
use calls::line::Line;
use calls::reading::read_lines;
use checker::pass::Pass;
use controller::held::Controller;
use model::fault::Fault;
use queue_check::check_files;
use std::alloc::{AllocError, Global};

// Adds a reply, if there is one.
fn add(replies: &mut Vec<Reply>, reply: Option<Reply>) -> Result<(), AllocError>
    ensures { OnOk result (replies.new.items ≡ replies.old.items ++ option_to_list reply) }
{
    if let Some(reply) = reply {
        replies.push(reply)?;
    }
    Ok(())
}

// Replies to the lines before the first call, and says how many they are.
fn prepare(
    pass: &mut Pass<'_>,
    lines: &[Line],
    replies: &mut Vec<Reply>,
) -> Result<usize, AllocError>
    ensures replies { IfOk result (λ first. (S : System) → replies.new.items ++ loaded S (min pass.new.capacity 32) (start S) (first + 1) (drop first lines.now) ≡ replies.old.items ++ held S pass.old.capacity 1 lines.now) }
    ensures table { pass.new.table ≡ pass.old.table }
{
    // Not one loop with `perform`'s: this one stops at a call, and each changes a thing of its own, a pass or a controller,
    // of which its contract speaks; a shared one's closure would have to state both.
    for (at, line) in lines.iter().enumerate() {
        if let Line::Call(_) = line {
            return Ok(at);
        }
        add(replies, hold(pass, at as u64 + 1, *line))?;
    }
    Ok(lines.len())
}

// Replies to the lines from the first call on.
fn perform(
    controller: &mut Controller<'_>,
    lines: &[Line],
    first: usize,
    replies: &mut Vec<Reply>,
) -> Result<(), AllocError>
    ensures { OnOk result (replies.new.items ≡ replies.old.items ++ loaded (system_in controller.old) controller.old.capacity (state_in controller.old) (first + 1) (drop first lines.now)) }
{
    // `min`: a slice does not begin past the end.
    let rest = &lines[first.min(lines.len())..];
    for (at, line) in rest.iter().enumerate() {
        add(replies, make(controller, (first + at) as u64 + 1, *line))?;
    }
    Ok(())
}

// Replies to the lines in their order. The first call uses the pass up.
pub fn reply_to_lines(
    heap: Global,
    pass: Pass<'_>,
    lines: &[Line],
) -> Result<Vec<Reply>, AllocError>
    ensures { IfOk result (λ v. RepliedOf pass.entry.table.bytes.now pass.entry.capacity lines.now v.items) }
{
    let mut pass = pass;
    let mut replies = Vec::new(heap);
    let first = prepare(&mut pass, lines, &mut replies)?;
    let mut controller = Controller::load(pass);
    perform(&mut controller, lines, first, &mut replies)?;
    Ok(replies)
}

// Replies to the lines of a text.
pub fn reply_to_text(heap: Global, pass: Pass<'_>, text: &[u8]) -> Result<Vec<Reply>, AllocError>
    ensures { IfOk result (λ v. Rehearsed pass.entry.table.bytes.now pass.entry.capacity text.now v.items) }
{
    let lines = read_lines(heap, text)?;
    reply_to_lines(heap, pass, &lines)
}

// From the bytes of a table, a set and a text of calls: the fault of the check, or under a pass the replies.
pub fn rehearse_files(
    heap: Global,
    table: &[u8],
    set: &[u8],
    text: &[u8],
) -> Result<Result<Vec<Reply>, Fault>, AllocError>
    ensures { IfOk result (FromFiles table.now set.now text.now (claim_under table.now set.now (named set.now))) }
{
    // Two errors of two kinds: a fault is a verdict, of which the contract speaks; of a want of memory it says nothing.
    match check_files(table, set) {
        Ok(pass) => Ok(Ok(reply_to_text(heap, pass, text)?)),
        Err(fault) => Ok(Err(fault)),
    }
}
