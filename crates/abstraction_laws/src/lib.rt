// Laws of the abstractions, each the contract of a function: what codes look like, and values worked by hand.
#![tactic(auto)]

ghost use Rattle.std.specs.Prelude.{◌≡◌};
ghost use Rattle.abstraction_laws.specs.Codes.{ListPositions, SetMask};
ghost use Rattle.abstraction_laws.specs.Prefix.{LayersKeepPrefix};
ghost use Rattle.abstraction_laws.specs.Worked.{Worked};

use abstraction::QueueAbstraction;
use keep_first::KeepFirst;
use list_abstraction::ListAbstraction;

// Position i of a list code is event + 1 of the i-th first occurrence, and 0 behind the last.
pub fn list_positions()
    ensures { ListPositions }
{}

// A bit of a set code is set exactly when its event waits.
pub fn set_mask()
    ensures { SetMask }
{}

// The list abstraction under p layers is the list abstraction with parameter p.
pub fn layers_keep_prefix()
    ensures { LayersKeepPrefix }
{}

// Codes, removals and appends worked by hand.
pub fn worked_values()
    ensures { Worked }
{}

// The widths of seven and of eight layers over the list: the last that is in use, and the first that is not.
pub fn layer_widths() -> (u8, u8)
    ensures { result ≡ (60, 64) }
{
    let three = KeepFirst::over(KeepFirst::over(KeepFirst::over(ListAbstraction)));
    let six = KeepFirst::over(KeepFirst::over(KeepFirst::over(three)));
    let seven = KeepFirst::over(six);
    let eight = KeepFirst::over(seven);
    (seven.width(), eight.width())
}
