// How the numbers of a field are scaled.

ghost use Rattle.std.specs.Prelude.{◌≡◌, ◌≤◌, ℤ, pos, neg_ℤ, ◌≤ℤ◌};
ghost use Rattle.fit_profile.specs.Scale.{parts, parts_of};

/// The scale of a field, and its offset if it has one: a value is the number in the file / scale - offset.
#[derive(Clone, Copy, Debug)]
pub enum Scale {
    /// Seconds since 1989-12-31T00:00:00Z.
    Time,
    /// The number itself.
    Whole,
    Half,
    Quarter,
    Fifth,
    Tenth,
    Sixteenth,
    Hundredth,
    Part128,
    Part256,
    Thousandth,
    Part1024,
    Part5000,
    Part32768,
    Part65535,
    Part65536,
    /// 0.7111111, of angles in a turn of a crank: 256 are 360 degrees.
    Phase,
    /// 10430.38, of radians.
    Attitude,
    /// 2^31 of which are 180 degrees.
    Semicircles,
    Hundreds,
    Twos,
    /// Fifths, with an offset of 500.
    Height,
    /// Halves, with an offset of -110.
    Crank,
}

/// How the values of a scale are written: `shift` is taken from the number, what is left multiplied and divided, and the nearest whole number
/// is `power` times the value, which has so many decimals.
#[derive(Clone, Copy, Debug)]
pub struct Parts {
    pub shift: i32,
    pub multiplier: u32,
    pub divisor: u32,
    pub power: u32,
    pub decimals: u8,
}

/// The parts of a scale. Of a time they are those of its number.
pub fn parts_of(scale: Scale) -> Parts
    ensures parts { result ≡ parts_of scale }
    ensures multiplier { result.multiplier ≤ 1125000000 }
    ensures divisor { 1 ≤ result.divisor }
    ensures half { result.divisor ≤ 134217728 }
    ensures power { 1 ≤ result.power }
    ensures decimals { result.decimals ≤ 8 }
    ensures low { neg_ℤ (pos 2500) ≤ℤ result.shift }
    ensures high { result.shift ≤ℤ pos 2500 }
{
    match scale {
        Scale::Time | Scale::Whole => scaled(1, 1, 1, 0),
        Scale::Half => scaled(5, 1, 10, 1),
        Scale::Quarter => scaled(25, 1, 100, 2),
        Scale::Fifth => scaled(2, 1, 10, 1),
        Scale::Tenth => scaled(1, 1, 10, 1),
        Scale::Sixteenth => scaled(625, 1, 10_000, 4),
        Scale::Hundredth => scaled(1, 1, 100, 2),
        Scale::Part128 => scaled(78_125, 1, 10_000_000, 7),
        Scale::Part256 => scaled(390_625, 1, 100_000_000, 8),
        Scale::Thousandth => scaled(1, 1, 1000, 3),
        Scale::Part1024 => scaled(390_625, 4, 100_000_000, 8),
        Scale::Part5000 => scaled(2, 1, 10_000, 4),
        Scale::Part32768 => scaled(390_625, 128, 100_000_000, 8),
        Scale::Part65535 => scaled(20_000_000, 13_107, 100_000_000, 8),
        Scale::Part65536 => scaled(390_625, 256, 100_000_000, 8),
        Scale::Phase => scaled(140_625, 1, 100_000, 5),
        Scale::Attitude => scaled(50_000_000, 521_519, 1_000_000, 6),
        Scale::Semicircles => scaled(1_125_000_000, 134_217_728, 100_000_000, 8),
        Scale::Hundreds => scaled(100, 1, 1, 0),
        Scale::Twos => scaled(2, 1, 1, 0),
        Scale::Height => shifted(2500, 2, 10, 1),
        Scale::Crank => shifted(-220, 5, 10, 1),
    }
}

fn scaled(multiplier: u32, divisor: u32, power: u32, decimals: u8) -> Parts
    ensures { result ≡ parts (pos 0) multiplier divisor power decimals }
{
    Parts {
        shift: 0,
        multiplier,
        divisor,
        power,
        decimals,
    }
}

fn shifted(shift: i32, multiplier: u32, power: u32, decimals: u8) -> Parts
    ensures { result ≡ parts shift multiplier 1 power decimals }
{
    Parts {
        shift,
        multiplier,
        divisor: 1,
        power,
        decimals,
    }
}
