// Which fields hold times. They stand here and not in the table of the Profile, whose names the library for C would carry.

ghost use Rattle.std.specs.Prelude.{◌≡◌};
ghost use Rattle.fit_shifting.specs.Times.{holds_time, is_local_time, is_utc_time};

// Whether a field of this base type is the time of its message, or a time by the Profile.
pub(crate) fn holds_time(message: u16, number: u8, base: u8) -> bool
    ensures { result ≡ holds_time message number base }
{
    base == 0x86
        && (number == 253 || is_utc_time(message, number) || is_local_time(message, number))
}

// Whether the field is a time in UTC by the Profile.
fn is_utc_time(message: u16, number: u8) -> bool
    ensures { result ≡ is_utc_time message number }
{
    match message {
        0 => number == 4,
        2 => number == 39,
        15 => number == 2 || number == 3,
        18 => number == 2,
        19 => number == 2,
        28 => number == 3,
        32 => number == 1,
        72 => number == 4,
        101 => number == 2,
        128 => number == 9,
        129 => number == 1 || number == 2,
        142 => number == 2,
        160 => number == 6,
        162 => number == 1,
        174 => number == 6,
        187 => number == 1 || number == 3,
        225 => number == 6,
        227 => number == 1,
        312 => number == 9,
        _ => false,
    }
}

// Whether the field is a time of the place by the Profile.
fn is_local_time(message: u16, number: u8) -> bool
    ensures { result ≡ is_local_time message number }
{
    match message {
        28 => number == 6,
        34 => number == 5,
        55 => number == 11,
        103 => number == 0,
        162 => number == 3,
        _ => false,
    }
}
