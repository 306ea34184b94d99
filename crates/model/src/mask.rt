// Masks of events: bit e, of value 2^e, stands for event e.
ghost use Rattle.std.specs.Prelude.{◌≡◌, ℕ, ◌^◌, ◌<◌, ◌≤◌, ◌≢◌, Decides};
ghost use Rattle.model.specs.Queue.{Bit, present};

// A mask has a bit for each event.
pub const MOST_EVENTS: u8 = 8;

// The mask of one event; nothing from 8 up.
pub fn bit(e: u8) -> u8
    ensures event { e < 8 → result ≡ 2 ^ e }
    ensures nothing { 8 ≤ e → result ≡ 0 }
{
    if e < MOST_EVENTS { 1 << e } else { 0 }
}

// Does the mask name events below m only?
pub fn fits(mask: u64, m: u16) -> bool
    ensures { Decides result (mask < 2 ^ m) }
{
    m >= 64 || mask >> m == 0
}

// Does the mask name event e?
pub fn has(mask: u64, e: u8) -> bool
    ensures { result ≡ present mask e }
{
    e < 64 && (mask >> e) % 2 == 1
}

// Is each event of the mask one of those held?
pub fn within(mask: u8, held: u8) -> bool
    ensures { Decides result ((e : ℕ) → Bit mask e → Bit held e) }
{
    mask | held == held
}

// The mask without event e: from 8 up the mask as it was.
pub fn without(mask: u8, e: u8) -> u8
    ensures bits { (f : ℕ) → (Bit result f → (f ≢ e) × Bit mask f) × (Bit mask f → (f ≢ e) → Bit result f) }
    ensures nothing { 8 ≤ e → result ≡ mask }
{
    mask & !bit(e)
}
