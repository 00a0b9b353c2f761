//! Goes on after the faults of a damaged file, and splits chained files.
//!
//! `cut_faults` cuts the bytes of a damaged file into pieces, one after another, into whatever takes them (`TakesPieces`); `skip_faults`
//! into a vector, with the row of those that are kept. Each of these is a row of whole items under the definitions of the kept pieces
//! before it and its own, or under those that `known_by` finds in another file. The others are left out. `Progress` judges items by their
//! forms, times and values, exactly as `Judged` says. Of a row at the front in which no item is a fault or doubtful all is kept, but 32
//! items at its end (`Steady`), and in what is left out no trusted row begins (`Reading`). What else is kept is a judgement: `follows`
//! looks ahead, and `after_stray` finds older content.
//!
//! `split_files` cuts bytes into the files that are chained in them, each of which begins with its header. `find_files` finds the whole
//! files that stand somewhere in them, as in the image of a card.
//!
//! Contracts use the definitions of `specs/`: `Pieces` has what is kept and left out, `Judged` what an item says after others, by its
//! `Form`, its `Times` and its values (`Moves`), `Steady` rows in which nothing is doubtful, `Reading` where reading goes on, `Others` other
//! rides in what is left out, `Known` the definitions of another file, `Chained` where files end, `Found` which files stand in bytes.
//!
//! Proved: what is kept are whole items of the file, in order, read under definitions that were kept before them, and every byte is in one
//! piece; a row without a doubt is kept up to its last 32 items, and after a fault reading goes on no later than at the first trusted row.
//! No fault follows a data message that is kept, so that none is cut by a hole.
//! It looks ahead at no more items than `most_looks`: each look is by `Looks::look`, which counts it.
//! Not proved: that a kept piece is no noise. Trusted is the kit alone.
#![tactic(auto)]

mod chained;
mod clock;
mod finding;
mod fitting;
mod form;
mod known;
mod layout;
mod looks;
mod pieces;
mod progress;
mod rides;
mod row;
mod skipping;
mod stray;
mod taking;
mod trial;
mod values;

pub use chained::{Part, first_file, split_files};
pub use finding::{FindFault, find_files};
pub use known::{Known, known_by};
pub use pieces::{Piece, Skipped};
pub use skipping::{cut_faults, skip_faults};
pub use taking::TakesPieces;
