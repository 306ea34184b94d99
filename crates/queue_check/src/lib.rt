// The check under the layers that a set's header names, and its verdict as one number.
#![tactic(auto)]

ghost use Rattle.std.specs.Prelude.{◌≡◌, ℕ};
ghost use Rattle.table.specs.Bytes.{word_at};
ghost use Rattle.checker.specs.Promise.{Checked};
ghost use Rattle.queue_check.specs.Packed.{packed, Fits, Answers};
ghost use Rattle.queue_check.specs.Layers.{Layers, under, of_kind, named, claim_under};

mod kind;

use crate::kind::Kind;
use abstraction::QueueAbstraction;
use blank_abstraction::BlankAbstraction;
use checker::check::check;
use checker::pass::Pass;
use keep_first::KeepFirst;
use list_abstraction::ListAbstraction;
use model::fault::Fault;
use set_abstraction::SetAbstraction;
use table::bytes::word;

// Where the header of a set names its abstraction, and how many layers keep a first event each.
const KIND: usize = 2;

const KEPT: usize = 4;

// The bit of the verdict at which each value of a fault begins; the number of the refusal begins at 0.
const A_AT: u32 = 8;

const B_AT: u32 = 32;

const C_AT: u32 = 48;

// The check under as many layers over an abstraction as the set's header asks for.
fn check_kept<'a, A: QueueAbstraction + Copy>(
    table: &'a [u8],
    set: &[u8],
    below: A,
) -> Result<Pass<'a>, Fault>
    ensures { Checked table.now set.now (claim_under table.now set.now (under (word_at set.now 4) (record { width = A.bits below; code = A.code below; removals = A.removals below }))) result }
{
    match word(set, KEPT) {
        0 => check(table, set, &below),
        1 => check(table, set, &KeepFirst::over(below)),
        _ => check(table, set, &KeepFirst::over(KeepFirst::over(below))),
    }
}

// The check under the layers that the set's header names.
pub fn check_files<'a>(table: &'a [u8], set: &[u8]) -> Result<Pass<'a>, Fault>
    ensures { Checked table.now set.now (claim_under table.now set.now (named set.now)) result }
{
    match Kind::from(word(set, KIND)) {
        Kind::List => check_kept(table, set, ListAbstraction),
        Kind::Set => check_kept(table, set, SetAbstraction),
        Kind::Blank => check_kept(table, set, BlankAbstraction),
    }
}

// A fault as one number: the refusal's number in eight bits, A in twenty-four, B in sixteen, C in sixteen.
// A `From` may require nothing, and both of its types would be other crates'.
fn pack(fault: Fault) -> u64
    requires { Fits fault }
    ensures { result ≡ packed fault }
{
    u64::from(u8::from(fault.number))
        + (u64::from(fault.a) << A_AT)
        + (u64::from(fault.b) << B_AT)
        + (fault.c << C_AT)
}

// The verdict as one number, as C asks for it: 0 for a pass, else the packed fault.
pub fn queue_check(table: &[u8], set: &[u8]) -> u64
    ensures { Answers table.now set.now (claim_under table.now set.now (named set.now)) result }
{
    check_files(table, set).map_or_else(pack, |_| 0)
}
