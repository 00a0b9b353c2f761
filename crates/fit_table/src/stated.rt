// Scales and offsets that a file states.

ghost use Rattle.std.specs.Prelude.{◌≡◌, ◌≤◌};
ghost use Rattle.fit_table.specs.Number.{stated_parts, stated_with, AreSmallParts};

use fit_profile::Parts;

/// The parts of a scale and an offset. A scale of 0 counts as 1. Values are exact by the scales 1, 10 and 100; by others they have eight
/// decimals.
pub fn stated_parts(scale: u8, offset: i8) -> Parts
    ensures parts { result ≡ stated_parts scale offset }
    ensures small { AreSmallParts result }
{
    match scale {
        0 | 1 => stated_with(1, offset, 1, 0),
        10 => stated_with(10, offset, 10, 1),
        100 => stated_with(100, offset, 100, 2),
        _ => stated_with(scale, offset, 100_000_000, 8),
    }
}

// The same with so many decimals, of which `power` are one.
fn stated_with(scale: u8, offset: i8, power: u32, decimals: u8) -> Parts
    requires scale { 1 ≤ scale }
    requires power { 1 ≤ power }
    requires most { power ≤ 100000000 }
    requires decimals { decimals ≤ 8 }
    ensures parts { result ≡ stated_with scale offset power decimals }
    ensures small { AreSmallParts result }
{
    Parts {
        shift: i32::from(offset) * i32::from(scale),
        multiplier: power,
        divisor: u32::from(scale),
        power,
        decimals,
    }
}
