// A rule of a machine: it moves the machine from one local state to another, and acts.

#[derive(Clone, Copy, PartialEq, Eq, Debug)]
pub enum Action {
    Local,
    Take { event: u8 },
    Send { event: u8, target: u8 },
}

#[derive(Clone, Copy, PartialEq, Eq, Debug)]
pub struct Rule {
    pub machine: u8,
    pub from: u8,
    pub to: u8,
    pub action: Action,
}
