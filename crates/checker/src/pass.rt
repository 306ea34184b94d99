// The pass of a table that was checked.
ghost use Rattle.std.specs.Prelude.{◌≡◌};
ghost use Rattle.checker.specs.Promise.{CapacitySet};

use model::fault::{Fault, Refusal};
use table::header::fault_at;
use table::view::Table;

// The most events that a queue of a controller can hold.
pub const FULL_CAPACITY: u8 = 32;

// Only a check makes one, and it cannot be copied: whoever holds it may load the table once. No invariant bounds the
// capacity: a struct with one and a reference cannot stand in a `Result`, so loading takes at most 32 of it.
#[derive(Drop)]
pub struct Pass<'a> {
    pub(crate) table: Table<'a>,
    pub(crate) capacity: u8,
}

impl<'a> Pass<'a> {
    // The table that was checked.
    pub fn table(&self) -> Table<'a>
        ensures { result ≡ self.now.table }
    {
        self.table
    }

    // How many events a queue of the controller will hold at most.
    pub fn capacity(&self) -> u8
        ensures { result ≡ self.now.capacity }
    {
        self.capacity
    }

    // Sets the capacity, which is from 1 to 32.
    pub fn set_capacity(&mut self, capacity: u8) -> Result<(), Fault>
        ensures table { self.new.table ≡ self.old.table }
        ensures set { CapacitySet self.old capacity result self.new }
    {
        if !(1..=FULL_CAPACITY).contains(&capacity) {
            return Err(fault_at(Refusal::Capacity, u32::from(capacity)));
        }
        self.capacity = capacity;
        Ok(())
    }
}
