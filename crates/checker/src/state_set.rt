// A state set over the bytes that it is read from.
ghost use Rattle.std.specs.Prelude.{◌≡◌, ℕ, ◌+◌, ◌-◌, ◌*◌, ◌/◌, ◌^◌, ◌<◌, ◌≤◌, length, Decides};
ghost use Rattle.std.specs.Ordering.{MatchOrdering};
ghost use Rattle.closed_sets.specs.Records.{code_in};
ghost use Rattle.table.specs.Bytes.{byte_at};
ghost use Rattle.checker.specs.Held.{entry_of, record_in};
ghost use Rattle.checker.specs.Inner.{Found, ListedIn};
ghost use Rattle.checker.specs.SetFile.{records_n, long_at, record_at, records_of, SetReady, entry_byte, byte_in, byte_of, record_byte, Before, Same};

use crate::held::{Entry, Held};
use std::cmp::Ordering;
use table::bytes::word;
use table::header::HEADER_LENGTH;
use table::layout::MOST_MACHINES;

// What a set's header may hold: its edition, the last kind of abstraction, the most layers kept, the most records.
pub(crate) const EDITION: u32 = 1;

pub(crate) const LAST_KIND: u32 = 2;

pub(crate) const MOST_KEPT: u32 = 2;

pub(crate) const MOST_RECORDS: u32 = 65_535;

// The header field that counts the records.
const RECORD_COUNT: usize = 10;

// An entry of a record: its local state in one byte, its code in eight.
pub(crate) const ENTRY_LENGTH: usize = 9;

// As `Table`, a view that holds nothing but its bytes: the reader of each says what they stand for.
#[derive(Clone, Copy, PartialEq, Eq, Debug)]
pub struct StateSet<'a> {
    bytes: &'a [u8],
}

impl<'a> StateSet<'a> {
    // A view over any bytes at all.
    pub(crate) fn over(bytes: &'a [u8]) -> StateSet<'a>
        ensures { result.bytes.now ≡ bytes.now }
    {
        StateSet { bytes }
    }

    // The bytes that the set is read from.
    pub fn bytes(&self) -> &'a [u8]
        ensures { result.now ≡ self.now.bytes.now }
    {
        self.bytes
    }

    // The number of records.
    pub fn record_count(&self) -> u16
        ensures { result ≡ records_n self.now.bytes.now }
    {
        word(self.bytes, RECORD_COUNT)
    }

    // Record `k` of a set for `n` machines. That it is there is asked of callers, here and in two functions more, which
    // ask of different records: a type for the place of one would be made for each question.
    pub(crate) fn record(&self, n: u8, k: u16) -> Held
        requires few { n ≤ 6 }
        requires long { 16 + 9 * n * k + 9 * n ≤ length self.now.bytes.now }
        ensures is { record_in result ≡ record_at n self.now.bytes.now k }
        ensures machines { result.machines ≡ n }
    {
        let mut entries = [Entry { local: 0, code: 0 }; MOST_MACHINES];
        let start = start(n, k);
        for (i, entry) in entries[..n as usize].iter_mut().enumerate() {
            *entry = entry_at(self.bytes, start + ENTRY_LENGTH * i);
        }
        Held {
            machines: n,
            entries,
        }
    }

    // Whether record `k`, which is held, stands above the one before.
    pub(crate) fn stands_above(&self, k: u16, held: &Held) -> bool
        requires some { 0 < k }
        requires long { 16 + 9 * held.now.machines * (k - 1) + 9 * held.now.machines ≤ length self.now.bytes.now }
        requires is { record_in held.now ≡ record_at held.now.machines self.now.bytes.now k }
        ensures { Decides result (Before (9 * held.now.machines) (record_byte held.now.machines self.now.bytes.now (k - 1)) (record_byte held.now.machines self.now.bytes.now k)) }
    {
        compare(self.bytes, k - 1, held).is_lt()
    }

    // Where the record stands in the set, if it does: first looked for at `near`, then ever farther from there, then by halves.
    pub(crate) fn find(&self, target: &Held, near: u16) -> Option<u16>
        requires { SetReady target.now.machines self.now.bytes.now }
        ensures { Found (records_of target.now.machines self.now.bytes.now) (record_in target.now) result }
    {
        // std's binary searches begin in the middle, and want a slice of values: most steps lead near where they led before
        let mut low = 0;
        let mut high = self.record_count();
        let mut middle = within(near, high);
        let mut reach = 1;
        while low < high {
            let step = reach;
            reach = farther(reach);
            match compare(self.bytes, middle, target) {
                Ordering::Less => {
                    low = middle + 1;
                    middle = upwards(low, high, step);
                }
                Ordering::Equal => return Some(middle),
                Ordering::Greater => {
                    high = middle;
                    middle = downwards(low, high, step);
                }
            }
        }
        None
    }

    // Whether the record stands in the set.
    pub(crate) fn contains(&self, target: &Held) -> bool
        requires { SetReady target.now.machines self.now.bytes.now }
        ensures { Decides result (ListedIn (records_of target.now.machines self.now.bytes.now) (record_in target.now)) }
    {
        self.find(target, 0).is_some()
    }
}

// Where record `k` of a set for `n` machines begins.
fn start(n: u8, k: u16) -> usize
    ensures { result ≡ 16 + 9 * n * k }
{
    HEADER_LENGTH + ENTRY_LENGTH * n as usize * k as usize
}

// The eight bytes at `at`, the low byte first.
fn long(bytes: &[u8], at: usize) -> u64
    requires { at + 7 < length bytes.now }
    ensures { result ≡ long_at bytes.now at }
{
    // a slice of eight, whose length is not tested: `first_chunk` of the rest tests it at each entry compared
    u64::from_le_bytes(*bytes[at..at + 8].as_array().unwrap())
}

// The entry at `at`.
fn entry_at(bytes: &[u8], at: usize) -> Entry
    requires { at + 8 < length bytes.now }
    ensures { entry_of result ≡ (byte_at bytes.now at, long_at bytes.now (at + 1)) }
{
    Entry {
        local: bytes[at],
        code: long(bytes, at + 1),
    }
}

// How the entry at `at` compares with another, as byte strings.
// No method: that a byte is below 256 is known of a slice that is passed, and not of one in a struct. So that the entry
// is there is asked of callers, as in the two above.
fn compare_entry(set: &[u8], at: usize, entry: Entry) -> Ordering
    requires { at + 8 < length set.now }
    ensures { MatchOrdering result (Before 9 (entry_byte set.now at) (byte_in (entry_of entry))) (Same 9 (entry_byte set.now at) (byte_in (entry_of entry)) × (entry.code < 2 ^ 64)) (Before 9 (byte_in (entry_of entry)) (entry_byte set.now at)) }
{
    // a match: under `then_with` the closure would want a clause of its own
    match set[at].cmp(&entry.local) {
        // the low byte of a code comes first
        Ordering::Equal => long(set, at + 1).swap_bytes().cmp(&entry.code.swap_bytes()),
        apart => apart,
    }
}

// How record `k` of the set compares with another, as byte strings; a record that is the other has its bytes.
fn compare(set: &[u8], k: u16, target: &Held) -> Ordering
    requires { 16 + 9 * target.now.machines * k + 9 * target.now.machines ≤ length set.now }
    ensures order { MatchOrdering result (Before (9 * target.now.machines) (record_byte target.now.machines set.now k) (byte_of (record_in target.now))) (Same (9 * target.now.machines) (record_byte target.now.machines set.now k) (byte_of (record_in target.now)) × ((t : ℕ) → t < 9 * target.now.machines → code_in (record_in target.now) (t / 9) < 2 ^ 64)) (Before (9 * target.now.machines) (byte_of (record_in target.now)) (record_byte target.now.machines set.now k)) }
    ensures alike { (j : ℕ) → record_at target.now.machines set.now j ≡ record_in target.now → Same (9 * target.now.machines) (record_byte target.now.machines set.now j) (byte_of (record_in target.now)) }
{
    let start = start(target.machines, k);
    // by number, which also says where in the set the entry stands; the slice, as for `compare_entry`
    for i in 0..target.machines {
        match compare_entry(set, start + ENTRY_LENGTH * i as usize, target.entry(i)) {
            Ordering::Equal => {}
            apart => return apart,
        }
    }
    Ordering::Equal
}

// The place if it is below `high`, else one that is.
fn within(near: u16, high: u16) -> u16
    ensures { 0 < high → result < high }
{
    if near < high { near } else { high / 2 }
}

// Twice as far, as long as that fits.
fn farther(reach: u16) -> u16
    ensures { 0 < reach → 0 < result }
{
    reach.saturating_mul(2)
}

// A place from `low` on and below `high`, at most `reach` above `low`.
fn upwards(low: u16, high: u16, reach: u16) -> u16
    requires { low ≤ high }
    ensures low { low ≤ result }
    ensures high { result ≤ high }
    ensures within { low < high → result < high }
{
    low + reach.min((high - low) / 2)
}

// A place from `low` on and below `high`, at most `reach` below `high`.
fn downwards(low: u16, high: u16, reach: u16) -> u16
    requires ordered { low ≤ high }
    requires some { 0 < reach }
    ensures low { low ≤ result }
    ensures high { result ≤ high }
    ensures within { low < high → result < high }
{
    high - reach.min(high - low - (high - low) / 2)
}
