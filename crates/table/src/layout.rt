// Where the parts of a table file lie: a header, then machine lines, rules and pattern lines.
ghost use Rattle.table.specs.Kinds.{IsKind};

// The edition of the format.
pub const EDITION: u32 = 1;

// Offsets of the counts in the header.
pub const MACHINE_COUNT: usize = 2;

pub const EVENT_COUNT: usize = 4;

pub const RULE_COUNT: usize = 6;

pub const PATTERN_LINE_COUNT: usize = 8;

// The most machines, rules and pattern lines of a table.
pub const MOST_MACHINES: usize = 6;

pub const MOST_RULES: usize = 256;

pub const MOST_PATTERN_LINES: usize = 64;

// The most local states of a machine.
pub const MOST_LOCAL_STATES: u8 = 32;

// Lengths of the lines.
pub const MACHINE_LINE: u32 = 2;

pub const RULE_LINE: u32 = 6;

pub const PATTERN_LINE: u32 = 6;

// The kinds of rule, each by the byte that stands for it.
#[derive(Clone, Copy, PartialEq, Eq, Debug)]
pub enum Kind {
    Local = 0,
    Take = 1,
    Send = 2,
}

// A byte that stands for no kind of rule.
#[derive(Clone, Copy, PartialEq, Eq, Debug)]
pub struct UnknownKind(pub u8);

impl TryFrom<u8> for Kind {
    type Error = UnknownKind;

    ghost try_from_gives = { IsKind };

    fn try_from(byte: u8) -> Result<Kind, UnknownKind> {
        match byte {
            0 => Ok(Kind::Local),
            1 => Ok(Kind::Take),
            2 => Ok(Kind::Send),
            _ => Err(UnknownKind(byte)),
        }
    }
}

// What a pattern line has in place of a front event or a local state.
// No enum of its own: the file puts these two bytes among the numbers, and `Front` and Option say what they stand for.
pub const EMPTY_FRONT: u8 = 254;

pub const ANY: u8 = 255;
