// Why a call was refused: the number of the refusal, and three values that say where.
ghost use Rattle.std.specs.Prelude.{◌≡◌, Some};
ghost use Rattle.model.specs.Numbers.{number_of, line};

use std::fmt;

#[derive(Clone, Copy, PartialEq, Eq, Debug)]
pub enum Refusal {
    TableLength = 1,
    TableHeader = 2,
    TableLine = 3,
    SetLength = 4,
    SetHeader = 5,
    RecordParts = 6,
    RecordOrder = 7,
    StartAbsent = 8,
    Surprise = 9,
    PatternMet = 10,
    StepOutside = 11,
    Capacity = 12,
    NoRule = 13,
    OtherState = 14,
    QueueEmpty = 15,
    OtherFront = 16,
    QueueFull = 17,
    NoMachine = 18,
}

// Four numbers whatever is wrong, as files and C read them; a value that a refusal has no use for is 0.
#[derive(Clone, Copy, PartialEq, Eq, Debug)]
pub struct Fault {
    pub number: Refusal,
    pub a: u32,
    pub b: u16,
    pub c: u64,
}

// The number that a refusal is known by.
impl From<Refusal> for u8 {
    ghost from_gives = { λ r n. n ≡ number_of r };

    fn from(refusal: Refusal) -> u8 {
        refusal as u8
    }
}

// `refused`, then the number of the refusal and its three values.
impl fmt::Display for Fault {
    ghost output = { λ f. Some (line f) };

    fn fmt<W: fmt::Write>(&self, f: &mut fmt::Formatter<W>) -> fmt::Result {
        let number = u8::from(self.number);
        let a = self.a;
        let b = self.b;
        let c = self.c;
        write!(f, "refused {number} {a} {b} {c}")
    }
}
