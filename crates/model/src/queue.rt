// What can be asked of the front of a queue.

#[derive(Clone, Copy, PartialEq, Eq, Debug)]
pub enum Front {
    Any,
    Empty,
    Event(u8),
}
