// Definitions as devices write them.

ghost use Rattle.std.specs.Prelude.{◌≡◌, false, length, replicate};
ghost use Rattle.fit_mending.specs.Form.{are_usual as are_usual_of, is_usual, unit_of};

// Whether a device writes a definition of these bytes: reserved bits and bytes are 0, the architecture is 0 or 1, it has a field, each
// field has a known base type and a size that is a multiple of it, and none is there twice.
pub(crate) fn is_plausible(bytes: &[u8]) -> bool
    ensures { result ≡ is_usual bytes.now }
{
    let [
        first,
        reserved,
        architecture,
        global_1,
        global_2,
        count,
        fields @ ..,
    ] = bytes
    else {
        return false;
    };
    *first / 16 % 2 == 0
        && *reserved == 0
        && *architecture < 2
        && !(*global_1 == 0xFF && *global_2 == 0xFF)
        && *count > 0
        && are_usual(fields, *count)
}

// Whether so many fields are, of three bytes each.
fn are_usual(fields: &[u8], count: u8) -> bool
    ensures { result ≡ are_usual_of count (replicate 256 false) fields.now }
{
    let mut seen = [false; 256];
    let mut left = count;
    let mut rest = fields;
    while left > 0 {
        let [number, size, base, others @ ..] = rest else {
            return false;
        };
        let unit = size_of(*base);
        if unit == 0 || *size == 0 || *size % unit != 0 || seen[*number as usize] {
            return false;
        }
        seen[*number as usize] = true;
        left -= 1;
        rest = others;
    }
    true
}

// The number of bytes of one value of a base type, or 0 if the type is not known. Bit 7 says that a value has several bytes, and some
// devices leave it out.
fn size_of(base: u8) -> u8
    ensures { result ≡ unit_of base }
{
    match base % 32 {
        0 | 1 | 2 | 7 | 10 | 13 => 1,
        3 | 4 | 11 => 2,
        5 | 6 | 8 | 12 => 4,
        9 | 14 | 15 | 16 => 8,
        _ => 0,
    }
}
