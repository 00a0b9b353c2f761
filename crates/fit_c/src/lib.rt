//! Recovers rides of a dead device, keeps what is readable of damaged files, and shows and checks files and reads their columns, in the
//! memory of a C program or of a page in a browser. `include/fitrec.h` documents the same calls for C.
//!
//! Nothing here takes memory, keeps state, or makes a system call. A call reads and writes only the buffers that it is given,
//! so calls on different buffers may run at the same time.
//!
//! Proved: each call answers as its definition in `specs/` has it, for all bytes. Trusted beside the kit is that C hands over buffers as
//! `fitrec.h` asks; the layout of the structs is checked by `compare/layout.py`.
#![tactic(auto)]

ghost use Rattle.std.specs.Prelude.{◌≡◌};

mod checking;
mod columns;
mod committing;
mod finishing;
mod framing;
mod joining;
pub mod laws;
mod pieces;
mod plain;
mod reading;
mod repairing;
mod room;
mod salvaging;
mod saving;
mod shifting;
mod showing;
mod skipping;
mod tape;
mod values;

pub use checking::fitrec_check;
pub use columns::fitrec_columns;
pub use committing::{fitrec_leave_changed, fitrec_uncommitted};
pub use finishing::{FinishCounts, fitrec_finish};
pub use joining::{fitrec_first_time, fitrec_join};
pub use pieces::FilePiece;
pub use plain::fitrec_plain;
pub use repairing::{RideSummary, fitrec_repair};
pub use salvaging::fitrec_salvage;
pub use saving::fitrec_save;
pub use shifting::{fitrec_shift, fitrec_shift_start};
pub use showing::{fitrec_json, fitrec_show};
pub use skipping::{fitrec_first_file, fitrec_skip};
pub use values::{fitrec_fields, fitrec_values};

/// The version of these calls. It grows when one of them changes.
#[unsafe(no_mangle)]
pub extern "C" fn fitrec_version() -> u32
    ensures { result ≡ 1 }
{
    1
}
