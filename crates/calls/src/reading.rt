// The readings of all lines of a text.
ghost use Rattle.std.specs.Prelude.{IfOk};
ghost use Rattle.calls.specs.Lines.{lines_of};
ghost use Rattle.calls.specs.Reading.{ReadsAll};

use crate::line::{Line, read_line};
use crate::lines::Lines;
use std::alloc::{AllocError, Global};

// What each line of a text asks for.
pub fn read_lines(heap: Global, text: &[u8]) -> Result<Vec<Line>, AllocError>
    ensures { IfOk result (λ v. ReadsAll (lines_of text.now) v.items) }
{
    Lines { rest: text }.map(read_line).collect(heap)
}
