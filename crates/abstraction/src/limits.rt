// Where codes are in use: outside these limits no code is good.
ghost use Rattle.std.specs.Prelude.{Decides};
ghost use Rattle.abstraction.specs.Meaning.{Valid};

pub use model::mask::MOST_EVENTS;

pub const WIDEST_CODE: u8 = 60;

pub fn valid(m: u8, width: u8) -> bool
    ensures { Decides result (Valid m width) }
{
    (1..=MOST_EVENTS).contains(&m) && width <= WIDEST_CODE
}
