// A record of a set, held outside of its bytes.
ghost use Rattle.std.specs.Prelude.{◌≡◌, ◌≤◌, length};

use table::layout::MOST_MACHINES;

// What a record says of one machine.
#[derive(Clone, Copy, PartialEq, Eq)]
pub struct Entry {
    pub local: u8,
    pub code: u64,
}

// The entries of the first `machines` places count.
#[derive(Clone, Copy)]
pub struct Held {
    pub machines: u8,
    // an array with a count: a record is copied for every step that is tried, and nothing may be allocated
    pub entries: [Entry; MOST_MACHINES],
    ghost few: { machines ≤ 6 },
    ghost long: { length entries ≡ 6 },
}

impl Held {
    ghost use Rattle.std.specs.Prelude.{◌<◌, set as put, replicate, slice_index_or};
    ghost use Rattle.checker.specs.Held.{entry_of, record_in};

    // The record with every machine in local state 0, with one code.
    pub(crate) fn uniform(machines: u8, code: u64) -> Held
        requires { machines ≤ 6 }
        ensures is { record_in result ≡ replicate machines (0, code) }
        ensures machines { result.machines ≡ machines }
    {
        Held {
            machines,
            entries: [Entry { local: 0, code }; MOST_MACHINES],
        }
    }

    // What the record says of machine `i`.
    pub(crate) fn entry(&self, i: u8) -> Entry
        requires { i < self.now.machines }
        ensures { entry_of result ≡ slice_index_or (record_in self.now) i (0, 0) }
    {
        self.entries[i as usize]
    }

    // The record with what it says of machine `i` replaced.
    pub(crate) fn with(&self, i: u8, entry: Entry) -> Held
        requires { i < self.now.machines }
        ensures is { record_in result ≡ put (record_in self.now) i (entry_of entry) }
        ensures machines { result.machines ≡ self.now.machines }
    {
        let mut next = *self;
        next.entries[i as usize] = entry;
        next
    }
}
