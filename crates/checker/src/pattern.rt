// Whether a record lets a pattern be met.
ghost use Rattle.std.specs.Prelude.{◌≡◌, ℕ, ◌<◌, Decides, MatchBool, MatchOption};
ghost use Rattle.model.specs.Bad.{LocalIs};
ghost use Rattle.table.specs.Layout.{machines_n, pattern_lines_n, pattern_offset};
ghost use Rattle.table.specs.SystemOf.{pattern_count, number_of};
ghost use Rattle.table.specs.Lines.{pattern_line_at};
ghost use Rattle.closed_sets.specs.Records.{record_of};
ghost use Rattle.closed_sets.specs.Judging.{Applies, met, patterns};
ghost use Rattle.closed_sets.specs.Codes.{MayHold};
ghost use Rattle.checker.specs.Case.{claim_at, table_at, IsSound, Finds};
ghost use Rattle.checker.specs.Inner.{Keeps};

use crate::case::Judgement;
use crate::hints::Hints;
use abstraction::QueueAbstraction;
use model::fault::{Fault, Refusal};
use model::pattern::Condition;

// Whether a local state is the one that a condition names.
fn local_is(named: Option<u8>, local: u8) -> bool
    ensures { Decides result (LocalIs named local) }
{
    named.is_none_or(|l| local == l)
}

impl<A: QueueAbstraction> Judgement<'_, '_, A> {
    // Whether the record lets a condition hold.
    fn lets_hold(&self, condition: Condition) -> bool
        requires sound { IsSound A.QueueAbstraction self.now }
        requires below { condition.machine < machines_n (table_at self.now) }
        ensures { Decides result (MayHold (claim_at A.QueueAbstraction self.now) (record_of (claim_at A.QueueAbstraction self.now) self.now.k) condition) }
    {
        let case = self.judge.case;
        let entry = self.held.entry(condition.machine);
        if !local_is(condition.local, entry.local) {
            return false;
        }
        let m = case.table.events();
        let abstraction = case.abstraction;
        abstraction.allows(m, entry.code, condition.front, condition.mask)
    }

    // Whether line `l` keeps pattern `n` from being met.
    fn keeps(&self, n: u16, l: u16) -> bool
        requires sound { IsSound A.QueueAbstraction self.now }
        requires below { l < pattern_lines_n (table_at self.now) }
        ensures { MatchBool result (Keeps (claim_at A.QueueAbstraction self.now) (table_at self.now) self.now.k n l) (number_of (table_at self.now) l ≡ n → MayHold (claim_at A.QueueAbstraction self.now) (record_of (claim_at A.QueueAbstraction self.now) self.now.k) (pattern_line_at (table_at self.now) (pattern_offset (table_at self.now) l)).condition) }
    {
        let line = self.plan.line(l);
        if u16::from(line.number) != n {
            return false;
        }
        !self.lets_hold(line.condition)
    }

    // A line that keeps pattern `n` from being met, first looked for at `first`; nothing if the record lets it be met.
    fn kept_by(&self, n: u16, first: u16) -> Option<u16>
        requires sound { IsSound A.QueueAbstraction self.now }
        requires below { n < pattern_count (table_at self.now) }
        ensures { MatchOption result (Applies (claim_at A.QueueAbstraction self.now) (met self.now.k n)) (λ _. Applies (claim_at A.QueueAbstraction self.now) (met self.now.k n) → ⊥) }
    {
        let count = self.judge.case.table.view.pattern_line_count();
        if first < count && self.keeps(n, first) {
            return Some(first);
        }
        (0..count).find(
            |&l|
                requires sound { IsSound A.QueueAbstraction self.now }
                requires below { l < pattern_lines_n (table_at self.now) }
            { self.keeps(n, l) },
        )
    }

    // Whether the record lets pattern `n` be met. A line that keeps it from being met is asked first next time.
    fn lets_meet(&self, hints: &mut Hints, n: u16) -> bool
        requires sound { IsSound A.QueueAbstraction self.now }
        requires below { n < pattern_count (table_at self.now) }
        ensures { Decides result (Applies (claim_at A.QueueAbstraction self.now) (met self.now.k n)) }
    {
        match self.kept_by(n, hints.line(n)) {
            Some(line) => {
                hints.kept_by(n, line);
                false
            }
            None => true,
        }
    }

    // The first pattern that can be met.
    pub(crate) fn check_patterns(&self, hints: &mut Hints) -> Result<(), Fault>
        requires { IsSound A.QueueAbstraction self.now }
        ensures { Finds A.QueueAbstraction self.now (patterns (claim_at A.QueueAbstraction self.now) self.now.k) result }
    {
        for n in 0..self.judge.case.table.view.pattern_count() {
            if self.lets_meet(hints, n) {
                return Err(self.fault(Refusal::PatternMet, n, 0));
            }
        }
        Ok(())
    }
}
