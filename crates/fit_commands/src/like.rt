// The definitions of another file, for the subcommand `salvage --skip --like`.

ghost use Rattle.std.specs.Io.KnownBytes.{Appends};
ghost use Rattle.std.specs.Prelude.{◌≡◌, ◌≤◌, List, length, IfOk, IfErr, OnOk};
ghost use Rattle.fit_grammar.specs.Format.Item.{Item};
ghost use Rattle.fit_grammar.specs.Format.Records.{Records};
ghost use Rattle.fit_commands.specs.Faults.{IsNoLike, IsOutputReported};
ghost use Rattle.fit_commands.specs.Reported.{IsLike, known_row as known_row_of, like_name, like_text};

use crate::fault::Fault;
use crate::input::read_file;
use fit_grammar::FaultKind;
use fit_mending::{Known, known_by};
use fit_places::NamedFiles;
use fit_words::{SalvageForm, ShownWord};
use std::io::Write;

/// A file whose definitions are known before the bytes of another.
#[derive(Drop)]
pub struct Like<'a> {
    pub name: &'a str,
    pub known: Known,
}

/// The definitions of the file `like`, if there is one.
pub(crate) fn like_of<'a, F: NamedFiles + AllocGlobal>(
    files: &F,
    form: &SalvageForm<'a>,
) -> Result<Option<Like<'a>>, Fault<'a>>
    ensures like { IfOk result (IsLike (F.held files.now) (like_name form.now)) }
    ensures row { IfOk result (λ like. (items : List Item) × Records (known_row_of like) items) }
    ensures short { IfOk result (λ like. length (known_row_of like) ≤ 24592) }
    ensures reported { IfErr result (IsNoLike (like_name form.now)) }
{
    let (true, Some(name)) = (form.skip, form.like) else {
        return Ok(None);
    };
    let bytes = read_file(files, name)?;
    match known_by(files.alloc(), bytes.as_slice()) {
        Ok(known) => Ok(Some(Like { name, known })),
        Err(fault) if fault.kind == FaultKind::Memory => Err(Fault::NoMemory),
        Err(fault) => Err(Fault::NotLike(name, fault)),
    }
}

/// The bytes of the definitions; none if there is no file.
pub(crate) fn known_row<'b>(like: &'b Option<Like<'_>>) -> &'b [u8]
    ensures { result.now ≡ known_row_of like.now }
{
    match like {
        Some(like) => like.known.row.as_slice(),
        None => &[],
    }
}

/// Prints how many definitions are those of the file, if there is one.
pub(crate) fn print_like<O: Write>(
    like: &Option<Like<'_>>,
    out: &mut O,
) -> Result<(), Fault<'static>>
    ensures line { OnOk result
        (Appends (O.contents out.old) (O.contents out.new) (like_text like.now)) }
    ensures fault { IfErr result IsOutputReported }
{
    let Some(like) = like else {
        return Ok(());
    };
    let count = like.known.count;
    let done = writeln!(out, "definitions from {}: {count}", ShownWord(like.name));
    done.map_err(|_| Fault::Write("-"))
}
