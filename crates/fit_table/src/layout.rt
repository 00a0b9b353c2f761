// What a table shows.

use crate::named::MOST_NAMES;
use arrayvec::ArrayVec;

/// What a table shows. It has at most 128 columns of fields, and as many of developer fields.
#[derive(Clone, Copy, Debug)]
pub struct Layout<'a> {
    /// The global number of the messages that are its lines.
    pub message: u16,
    /// The numbers of the fields that are its columns.
    pub fields: &'a [u8],
    /// Whether values are the whole numbers that the file has.
    pub raw: bool,
    /// Whether times are dates in UTC.
    pub utc: bool,
    /// Whether names and units are those of the whole public Profile.
    pub profile: bool,
    /// Which developer fields have columns, after the others.
    pub developer: DeveloperColumns<'a>,
}

/// Which developer fields have columns, each by the name that the file gives it.
#[derive(Clone, Copy, Debug)]
pub enum DeveloperColumns<'a> {
    /// None.
    Without,
    /// All that the file names, up to 128. Lines that are written apart from the first one have none.
    All,
    /// Those of these names. The column of a name that the file does not give is empty.
    Named(&'a ArrayVec<&'a [u8], MOST_NAMES>),
}
