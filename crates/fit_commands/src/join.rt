// The subcommand `join`: one activity of several files.

ghost use Rattle.std.specs.Prelude.{◌≡◌, ◌∷◌, [], map, IfOk, IfErr, OnOk};
ghost use Rattle.std.specs.List.{AllByRecursion};
ghost use Rattle.fit_grammar.specs.Format.File.{FileOf};
ghost use Rattle.fit_grammar.specs.Format.Message.{messages_of};
ghost use Rattle.fit_grammar.specs.Format.Records.{data_size};
ghost use Rattle.fit_grammar.specs.Calls.PlainForm.{IsPlain};
ghost use Rattle.fit_joining.specs.Joined.{joined_messages};
ghost use Rattle.fit_joining.specs.JoinedItems.{joined_file};
ghost use Rattle.fit_commands.specs.Reported.{IsFormOfFile, transition_of};
ghost use Rattle.fit_commands.specs.Written.{WritesRun};
ghost use Rattle.fit_commands.specs.JoinedFile.{AddsFile, AreFilesOf, AreNoParts, AreNotPut, ArePut, IsJoinedFile, IsJoinedOut, IsNoPart, IsNotJoined, IsNotWrittenOut, JoinsNamed, part_lent, fault_of_misfit};

use crate::beside::write_counted;
use crate::fault::Fault;
use crate::finish::finish_file;
use crate::plain::plain_of;
use fit_files::count_messages;
use fit_grammar::{FaultKind, File, decode_file};
use fit_joining::{
    Misfit, MisfitKind, Part, first_misfit, put_in_order, write_joined, write_joined_records,
};
use fit_places::NamedFiles;
use std::alloc::Global;
use std::io::Write;

/// Writes the parts of an activity, the files `first` and `others`, as one file to the file `to`, which may exist, with the messages that
/// close an activity. Prints how many messages are those of the parts. The file `to` may be one of them. The parts are joined in the order of
/// their times, and refused if one of them has another sport than those before it, or begins before one of them ends. With `as_given` neither
/// is looked at.
pub fn join_parts<'a, F: NamedFiles + AllocGlobal, O: Write>(
    files: &mut F,
    first: &'a str,
    others: &[&'a str],
    as_given: bool,
    to: &'a str,
    out: &mut O,
) -> Result<(), Fault<'a>>
    ensures { WritesRun (JoinsNamed as_given (F.held files.old) (first.entry ∷ others.now))
        IsJoinedOut to.entry (transition_of F.held files.old files.new O.contents out.old out.new) result }
{
    let joined = joined_of(files, first, others, as_given)?;
    let count = count_messages(&joined);
    let finished = finish_file(joined)?;
    write_counted(files, to, &finished, count, out)
}

// A file that is to be a part, and its name.
#[derive(Drop)]
struct NamedFile<'a> {
    name: &'a str,
    file: File,
}

// The file of the parts of these names.
fn joined_of<'a, F: NamedFiles + AllocGlobal>(
    files: &F,
    first: &'a str,
    others: &[&'a str],
    as_given: bool,
) -> Result<File, Fault<'a>>
    ensures joined { IfOk result (IsJoinedFile as_given (F.held files.now) (first.entry ∷ others.now)) }
    ensures reported { IfErr result (IsNotJoined as_given (F.held files.now) (first.entry ∷ others.now)) }
{
    let named = files_of(files, first, others)?;
    let mut parts = parts_of(files.alloc(), named.as_slice())?;
    put_parts(as_given, &mut parts)?;
    // There is one part at least.
    let [beginning, rest @ ..] = parts.as_slice() else {
        return Err(Fault::NoSample);
    };
    join_put(files.alloc(), beginning, rest)
}

// The file of these parts.
fn join_put<'a>(
    alloc: Global,
    first: &Part<'_, '_>,
    others: &[Part<'_, '_>],
) -> Result<File, Fault<'a>>
    requires first { AllByRecursion IsPlain first.now.file.items }
    requires others { AllByRecursion (λ part. AllByRecursion IsPlain part.file.items) others.now }
    ensures messages { IfOk result (λ joined. messages_of joined.items
        ≡ joined_messages (messages_of first.now.file.items
        ∷ map (λ part. messages_of part.file.items) others.now)) }
    ensures reported { IfErr result IsNotWrittenOut }
{
    let bytes = bytes_of(alloc, first, others)?;
    match decode_file(alloc, &bytes) {
        Ok(joined) => Ok(joined),
        Err(_) => Err(Fault::NoMemory),
    }
}

// The bytes of that file.
fn bytes_of<'a>(
    alloc: Global,
    first: &Part<'_, '_>,
    others: &[Part<'_, '_>],
) -> Result<Vec<u8>, Fault<'a>>
    requires first { AllByRecursion IsPlain first.now.file.items }
    requires others { AllByRecursion (λ part. AllByRecursion IsPlain part.file.items) others.now }
    ensures file { IfOk result
        (λ bytes. FileOf bytes.items (joined_file first.now others.now)) }
    ensures messages { OnOk result (messages_of (joined_file first.now others.now).items
        ≡ joined_messages (messages_of first.now.file.items
        ∷ map (λ part. messages_of part.file.items) others.now)) }
    ensures reported { IfErr result IsNotWrittenOut }
{
    let size = size_of_records(alloc, first, others)?;
    let mut bytes = Vec::new(alloc);
    write_joined(first, others, size, &mut bytes).map_err(|_| Fault::NoMemory)?;
    Ok(bytes)
}

// How many bytes its records have.
fn size_of_records<'a>(
    alloc: Global,
    first: &Part<'_, '_>,
    others: &[Part<'_, '_>],
) -> Result<u32, Fault<'a>>
    requires first { AllByRecursion IsPlain first.now.file.items }
    requires others { AllByRecursion (λ part. AllByRecursion IsPlain part.file.items) others.now }
    ensures size { IfOk result
        (λ size. size ≡ data_size (joined_file first.now others.now).items) }
    ensures reported { IfErr result IsNotWrittenOut }
{
    let mut records = Vec::new(alloc);
    let done = write_joined_records(first, others, &mut records);
    match done {
        Ok(()) if records.len() <= u32::MAX as usize => Ok(records.len() as u32),
        Ok(()) => Err(Fault::TooLarge),
        Err(_) => Err(Fault::NoMemory),
    }
}

// Puts parts in the order of their times, and refuses the first that does not go with those before it, if they are not taken as given.
fn put_parts<'a>(as_given: bool, parts: &mut Vec<Part<'a, '_>>) -> Result<(), Fault<'a>>
    ensures put { OnOk result (ArePut as_given parts.old.items parts.new.items) }
    ensures reported { IfErr result (AreNotPut as_given parts.old.items) }
{
    if as_given {
        return Ok(());
    }
    put_in_order(parts)?;
    match first_misfit(parts.as_slice()) {
        None => Ok(()),
        Some(misfit) => Err(fault_of_misfit(misfit)),
    }
}

// These files as parts.
fn parts_of<'a, 'f>(
    alloc: Global,
    files: &'f [NamedFile<'a>],
) -> Result<Vec<Part<'a, 'f>>, Fault<'a>>
    ensures parts { IfOk result (λ parts. parts.items ≡ map part_lent files.now) }
    ensures reported { IfErr result (λ fault. fault ≡ Fault.NoMemory) }
{
    let mut parts = Vec::new(alloc);
    let mut rest = files;
    while let [named, more @ ..] = rest {
        let part = Part {
            name: named.name,
            file: named.file.lend(),
        };
        match parts.push(part) {
            Ok(()) => rest = more,
            Err(_) => return Err(Fault::NoMemory),
        }
    }
    Ok(parts)
}

// The files of these names.
fn files_of<'a, F: NamedFiles + AllocGlobal>(
    files: &F,
    first: &'a str,
    others: &[&'a str],
) -> Result<Vec<NamedFile<'a>>, Fault<'a>>
    ensures files { IfOk result (λ named.
        AreFilesOf (F.held files.now) (first.entry ∷ others.now) named.items) }
    ensures reported { IfErr result (AreNoParts (F.held files.now) (first.entry ∷ others.now)) }
{
    let mut named = Vec::new(files.alloc());
    add_file(files, first, &mut named)?;
    let mut rest = others;
    while let [name, more @ ..] = rest {
        add_file(files, *name, &mut named)?;
        rest = more;
    }
    Ok(named)
}

// Adds the file of this name.
fn add_file<'a, F: NamedFiles + AllocGlobal>(
    files: &F,
    name: &'a str,
    named: &mut Vec<NamedFile<'a>>,
) -> Result<(), Fault<'a>>
    ensures file { OnOk result (AddsFile (F.held files.now name.now) name.entry
        named.old.items named.new.items) }
    ensures reported { IfErr result (AreNoParts (F.held files.now) (name.entry ∷ [])) }
{
    let file = part_of(files, name)?;
    let pushed = named.push(NamedFile { name, file });
    pushed.map_err(|_| Fault::NoMemory)
}

// The plain form of the file of this name.
fn part_of<'a, F: NamedFiles + AllocGlobal>(files: &F, name: &'a str) -> Result<File, Fault<'a>>
    ensures form { IfOk result (IsFormOfFile (F.held files.now name.now)) }
    ensures reported { IfErr result (IsNoPart (F.held files.now name.now) name.entry) }
{
    match plain_of(files, name) {
        Ok(part) => Ok(part),
        Err(Fault::File(fault)) if fault.kind != FaultKind::Memory => {
            Err(Fault::NotPart(name, fault))
        }
        Err(fault) => Err(fault),
    }
}

// The program's fault for a part that does not go with those before it.
fn fault_of_misfit<'a>(misfit: Misfit<'a>) -> Fault<'a>
    ensures { result ≡ fault_of_misfit misfit.entry }
{
    match misfit.kind {
        MisfitKind::OtherSport => Fault::OtherSport(misfit.name),
        MisfitKind::Overlap => Fault::Overlap(misfit.name),
    }
}
