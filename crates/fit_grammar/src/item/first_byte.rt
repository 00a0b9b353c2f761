// The first byte of an item.

ghost use Rattle.std.specs.Prelude.{◌≡◌};
ghost use Rattle.fit_grammar.specs.Format.Item.{head_of};
ghost use Rattle.fit_grammar.specs.Private.FirstByte.{head_view, local_of};

// What the first byte of an item encodes, as the specification's `Head`.
#[derive(Drop)]
pub(crate) enum Head {
    // A local number, and whether developer fields are announced.
    Definition(u8, bool),
    Data(u8, Option<u8>),
}

// Decodes a first byte.
pub(crate) fn read_head(byte: u8) -> Head
    ensures { head_view result ≡ head_of byte }
{
    if byte < 64 {
        Head::Data(byte % 16, None)
    } else if byte < 128 {
        Head::Definition(byte % 16, byte / 32 % 2 == 1)
    } else {
        Head::Data(byte / 32 % 4, Some(byte % 32))
    }
}

// The local number in a first byte.
pub(crate) fn first_local(byte: u8) -> u8
    ensures { result ≡ local_of (head_of byte) }
{
    match read_head(byte) {
        Head::Definition(local, _) | Head::Data(local, _) => local,
    }
}
