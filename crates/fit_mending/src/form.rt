// The form of items: first bytes, and stretches that nobody wrote.

ghost use Rattle.std.specs.Prelude.{◌≡◌, ◌==◌, ◌≤◌, length};
ghost use Rattle.std.specs.List.{list_all};
ghost use Rattle.fit_mending.specs.Form.{begins_compressed, begins_definition, begins_item, begins_reserved, begins_unwritten, blank, comes_from_unwritten as comes_from_unwritten_of, runs_into_unwritten as runs_into_unwritten_of};

// The least number of bytes of an item that is an erased stretch if all its bytes are the same.
const BLANK: usize = 4;

// How many bytes in a row, all 0 or all 0xFF, are a stretch that nobody wrote.
const STRETCH: usize = 8;

// Whether the first bytes may be those of an item that a device writes.
pub(crate) fn may_begin(bytes: &[u8]) -> bool
    ensures { result ≡ begins_item bytes.now }
{
    match bytes {
        [first, second, ..] => *first < 16 || *first >= 128 || (*first >= 64 && *second == 0),
        _ => true,
    }
}

// Whether the first byte is that of a definition.
pub(crate) fn is_definition(bytes: &[u8]) -> bool
    ensures { result ≡ begins_definition bytes.now }
{
    match bytes {
        [first, ..] => *first >= 64 && *first < 128,
        [] => false,
    }
}

// Whether the first byte of a data message announces a compressed timestamp.
pub(crate) fn is_compressed(bytes: &[u8]) -> bool
    ensures { result ≡ begins_compressed bytes.now }
{
    match bytes {
        [first, ..] => *first >= 128,
        [] => false,
    }
}

// Whether the first byte of a data message has a reserved bit.
pub(crate) fn is_reserved(bytes: &[u8]) -> bool
    ensures { result ≡ begins_reserved bytes.now }
{
    match bytes {
        [first, ..] => *first >= 16 && *first < 128,
        [] => false,
    }
}

// Whether these are bytes of an erased or unwritten stretch.
pub(crate) fn is_blank(bytes: &[u8]) -> bool
    ensures { result ≡ blank bytes.now }
{
    match bytes {
        [first, ..] => {
            (*first == 0 || *first == 0xFF) && bytes.len() >= BLANK && are_all(bytes, *first)
        }
        [] => false,
    }
}

// Whether an item of so many bytes at the front runs into a stretch that nobody wrote: its last byte is as those after it.
pub(crate) fn runs_into_unwritten(bytes: &[u8], used: usize) -> bool
    requires { used ≤ length bytes.now }
    ensures { result ≡ runs_into_unwritten_of bytes.now used }
{
    is_unwritten(&bytes[used.saturating_sub(1)..])
}

// Whether the byte at a place comes out of such a stretch: it is as those before it.
pub(crate) fn comes_from_unwritten(bytes: &[u8], place: usize) -> bool
    requires { place ≤ length bytes.now }
    ensures { result ≡ comes_from_unwritten_of bytes.now place }
{
    place >= STRETCH && is_unwritten(&bytes[place - STRETCH..])
}

// Whether the bytes begin with one more than such a stretch has at least.
pub(crate) fn is_unwritten(bytes: &[u8]) -> bool
    ensures { result ≡ begins_unwritten bytes.now }
{
    bytes.len() > STRETCH && is_blank(&bytes[..STRETCH + 1])
}

fn are_all(bytes: &[u8], byte: u8) -> bool
    ensures { result ≡ list_all (λ other. other == byte) bytes.now }
{
    for other in bytes {
        if *other != byte {
            return false;
        }
    }
    true
}
