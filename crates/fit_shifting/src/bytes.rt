// The bytes of a file with its times moved.

ghost use Rattle.std.specs.Prelude.{◌≡◌, None, IfSome};
ghost use Rattle.fit_grammar.specs.Format.File.{FileOf};
ghost use Rattle.fit_grammar.specs.Calls.Places.{ArePlaces};
ghost use Rattle.fit_shifting.specs.Shifted.{HasNoStart, IsShiftOf, ShiftsTo};

use crate::file::{ShiftFault, shift_file};
use crate::shift::Shift;
use crate::start::start_of;
use fit_grammar::{Decoder, File, LentFile, Places};
use std::alloc::Global;

/// How the times of a file are moved.
#[derive(Clone, Copy, Debug, PartialEq, Eq)]
pub enum ShiftBy {
    /// By so many seconds.
    Seconds(Shift),
    /// So that the ride begins at this time.
    Start(u32),
}

impl ShiftBy {
    /// The shift of this file. `None` if the ride is to begin at a time, and has no beginning.
    pub fn shift_of(self, file: &LentFile<'_>) -> Option<Shift>
        ensures shift { IfSome result (IsShiftOf self file.now) }
        ensures none { result ≡ None → HasNoStart self file.now }
    {
        match self {
            ShiftBy::Seconds(shift) => Some(shift),
            ShiftBy::Start(to) => match start_of(file) {
                Some(from) => Some(Shift::between(from, to)),
                None => None,
            },
        }
    }
}

/// Reads a file, and makes its plain form with every time in it moved.
pub fn shift_bytes(alloc: Global, by: ShiftBy, bytes: &[u8]) -> Result<File, ShiftFault>
    ensures { ShiftsTo by bytes.now result }
{
    let mut decoder = Decoder::new(alloc);
    // `finish_with_places` answers a refusal again.
    let _ = decoder.feed(bytes);
    match decoder.finish_with_places() {
        Ok((file, places)) => shift_read(alloc, by, &file, &places, bytes),
        Err(fault) => Err(ShiftFault::File(fault)),
    }
}

// The file with its times moved. It was read from these bytes, in which its items had these places.
fn shift_read(
    alloc: Global,
    by: ShiftBy,
    file: &File,
    places: &Places,
    bytes: &[u8],
) -> Result<File, ShiftFault>
    requires file { FileOf bytes.now file.now }
    requires places { ArePlaces bytes.now places.now }
    ensures { ShiftsTo by bytes.now result }
{
    match by.shift_of(&file.lend()) {
        Some(shift) => shift_file(alloc, shift, file, places, bytes),
        None => Err(ShiftFault::NoTime),
    }
}
