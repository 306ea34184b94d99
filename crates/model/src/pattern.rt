// A condition of a forbidden pattern: what it asks of one machine.
use crate::queue::Front;

#[derive(Clone, Copy, PartialEq, Eq, Debug)]
pub struct Condition {
    pub machine: u8,
    // None: any local state
    pub local: Option<u8>,
    pub front: Front,
    // bit e stands for event e: the queue has to hold all of them
    pub mask: u8,
}
