// What is kept of a damaged file by going on after its faults.

ghost use Rattle.std.specs.Prelude.{◌<◌, ◌^◌, length};

use crate::looking::Looked;
use fit_mending::Skipped;

/// What is kept of a damaged file: pieces of the bytes looked at, each a row of whole items.
#[derive(Drop)]
pub struct Mended {
    /// Which bytes were looked at.
    pub looked: Looked,
    /// The pieces, and the row of those that are kept, after what is known before them.
    pub skipped: Skipped,
    ghost short: { length skipped.row.items < 2 ^ 32 },
}

impl Mended {
    ghost use Rattle.std.specs.Prelude.{◌≡◌, ◌↔◌, IsTrue};
    ghost use Rattle.fit_files.specs.Printed.Mended.{kept_size};

    /// Whether no piece is kept.
    pub fn is_empty(&self) -> bool
        ensures { IsTrue result ↔ (kept_size self.now ≡ 0) }
    {
        self.skipped.row.len() <= self.skipped.known
    }
}
