// A word and what is written after it.
ghost use Rattle.calls.specs.Numbers.{Finds};
ghost use Rattle.calls.specs.Reading.{After};

use crate::number::Written;

// What a line writes after a word.
pub(crate) fn after_word<T: Written>(line: &[u8], word: &[u8]) -> Option<T>
    ensures { Finds (λ x. After word.now (T.writes x) line.now) result }
{
    T::read(line.strip_prefix(word)?)
}
