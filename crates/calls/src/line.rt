// What a line of calls asks for.
ghost use Rattle.std.specs.Prelude.{◌≡◌, ℕ, Decides, slice_index_or};
ghost use Rattle.calls.specs.Numbers.{Finds};
ghost use Rattle.calls.specs.Reading.{Asks, Reads, InRange, written};

use crate::word::after_word;
use controller::call::Call;

// Four outcomes of one rank; a Result of an Option of a request would name them by three types.
#[derive(Clone, Copy, PartialEq, Eq, Debug)]
pub enum Line {
    // Empty, or a comment.
    Skipped,
    Capacity(u8),
    Call(Call),
    NotUnderstood,
}

// Whether a line is empty or a comment.
fn is_skipped(line: &[u8]) -> bool
    ensures { Decides result (slice_index_or line.now 0 35 ≡ 35) }
{
    line.first().is_none_or(|byte| *byte == b'#')
}

// The call that a line asks for.
fn read_call(line: &[u8]) -> Option<Call>
    ensures { Finds (Asks line.now) result }
{
    if line == b"reset".as_slice() {
        return Some(Call::Reset);
    }
    if let Some(rule) = after_word(line, b"fire ") {
        return Some(Call::Fire { rule });
    }
    let (machine, place) = after_word(line, b"look ")?;
    Some(Call::Look { machine, place })
}

// What a line, without its end, asks for.
pub fn read_line(line: &[u8]) -> Line
    ensures reads { Reads line.now result }
    ensures only { (other : Line) → Reads line.now other → other ≡ result }
    ensures back { (call : Call) → InRange call → line.now ≡ written call → result ≡ Line.Call call }
{
    if is_skipped(line) {
        return Line::Skipped;
    }
    if let Some(capacity) = after_word(line, b"capacity ") {
        return Line::Capacity(capacity);
    }
    read_call(line).map_or(Line::NotUnderstood, Line::Call)
}
