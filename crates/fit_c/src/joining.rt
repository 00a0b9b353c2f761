// Joins the files of one activity in memory.

ghost use Rattle.std.specs.Prelude.{◌≡◌, ◌+◌, ◌≤◌, ◌<◌, ◌⊎◌, ◌-◌, ◌∷◌, ◌++◌, [], ℕ, List, length, take, IfErr, IfOk, OnErr, OnOk, IfSome, IsNone, Some, None};
ghost use Rattle.std.specs.List.{AllByRecursion};
ghost use Rattle.fit_grammar.specs.Calls.PlainForm.{IsPlain};
ghost use Rattle.fit_grammar.specs.Format.Encoding.{encoded, encoded_items};
ghost use Rattle.fit_grammar.specs.Format.File.{FileOf};
ghost use Rattle.fit_grammar.specs.Format.Records.{data_size};
ghost use Rattle.fit_joining.specs.Compared.{first_misfit};
ghost use Rattle.fit_joining.specs.declared.part.Part.{Part};
ghost use Rattle.fit_joining.specs.JoinedItems.{joined_file, joined_items};
ghost use Rattle.fit_c.specs.Files.{IsNoFile};
ghost use Rattle.fit_c.specs.Joined.{BeginsAt, AreChained, AreParts, ArePlain, GoTogether, HasMisfit, HasMoreParts, HasNoFile, HasUnplain, IsJoinedOf, IsNoPart, IsReadTo, IsRefusedPart, IsTooLongToJoin, NeedsRoomToJoin, misfit_code};

use crate::reading::read_file;
use crate::room::Room;
use crate::shifting::NO_TIME;
use arrayvec::ArrayVec;
use fit_grammar::LentFile;
use fit_joining::{
    Misfit, MisfitKind, Part, first_misfit, first_time, is_plain, write_joined,
    write_joined_records,
};
use fit_mending::first_file;

// The records would be too long.
const TOO_LONG: u8 = 21;

// A part has another sport than those before it.
const OTHER_SPORT: u8 = 29;

// A part begins before one of those before it ends.
const OVERLAP: u8 = 30;

// A part has a compressed timestamp.
const NOT_PLAIN: u8 = 31;

// There are more parts than there is room for.
const MORE_PARTS: u8 = 32;

// How many parts there may be.
const MOST_PARTS: usize = 64;

type Parts<'a> = ArrayVec<Part<'a, 'a>, MOST_PARTS>;

/// Writes one file of the parts of an activity into `out`, as `write_joined` of `fit_joining` does. The parts are plain forms of FIT files,
/// one after another in `bytes`, at most 64, in the order of their times. With `as_given` it is not looked at whether each goes with those
/// before it. Returns 0, and the length of the new file in `out_len`; 1 to 9 if a part is no FIT file (the code of the `FaultKind`), with
/// the place of the fault in `fault_place`; 20 if the new file does not fit into `out`, with its length in `out_len`; 21 if its records
/// would exceed 4294967295 bytes; 29 if a part has another sport than those before it, 30 if it begins before one of them ends, and 31 if
/// it has a compressed timestamp, with the place of the part in `fault_place`; 32 if there are more parts.
#[unsafe(no_mangle)]
pub extern "C" fn fitrec_join(
    bytes: &[u8],
    as_given: bool,
    out: &mut [u8],
    out_len: &mut u64,
    fault_place: &mut u64,
) -> u8
    ensures code { (result ≤ 9) ⊎ (result ≡ 20) ⊎ (result ≡ 21) ⊎ ((29 ≤ result) × (result ≤ 32)) }
    ensures ok { result ≡ 0 → IsJoinedOf as_given bytes.now (take out_len.new out.new) }
    ensures within { result ≡ 0 → out_len.new ≤ length out.new }
    ensures no_file { 1 ≤ result → result ≤ 9 → HasNoFile bytes.now result fault_place.new }
    ensures no_room { result ≡ 20
        → NeedsRoomToJoin as_given bytes.now (length out.old) out_len.new }
    ensures too_long { result ≡ 21 → IsTooLongToJoin as_given bytes.now }
    ensures misfit { (result ≡ 29) ⊎ (result ≡ 30)
        → HasMisfit bytes.now result fault_place.new }
    ensures not_plain { result ≡ 31 → HasUnplain bytes.now fault_place.new }
    ensures more_parts { result ≡ 32 → HasMoreParts bytes.now 64 }
    ensures unchanged { ((1 ≤ result) × (result ≤ 9)) ⊎ (21 ≤ result)
        → (out_len.new ≡ out_len.old) × (out.new ≡ out.old) }
    ensures place { (result ≡ 0) ⊎ (result ≡ 20) ⊎ (result ≡ 21) ⊎ (result ≡ 32)
        → fault_place.new ≡ fault_place.old }
{
    let mut parts = ArrayVec::new();
    if let Err(code) = read_parts(bytes, &mut parts, fault_place) {
        return code;
    }
    if let Some(misfit) = find_misfit(as_given, parts.as_slice()) {
        *fault_place = place_of(bytes, misfit.number);
        return code_of(misfit.kind);
    }
    match parts.as_slice() {
        [first, others @ ..] => write_parts(first, others, out, out_len),
        [] => TOO_LONG,
    }
}

/// The time of a file's first sample, event or lap that has one, by which parts are put in their order. Returns 0, and the time in
/// `time`; 1 to 9 if the bytes are no FIT file (the code of the `FaultKind`), with the place of the fault in `fault_place`; 27 if none has
/// a time.
#[unsafe(no_mangle)]
pub extern "C" fn fitrec_first_time(bytes: &[u8], time: &mut u32, fault_place: &mut u64) -> u8
    ensures code { (result ≤ 9) ⊎ (result ≡ 27) }
    ensures ok { result ≡ 0 → BeginsAt bytes.now (Some time.new) }
    ensures no_file { 1 ≤ result → result ≤ 9 → IsNoFile bytes.now result fault_place.new }
    ensures no_time { result ≡ 27 → BeginsAt bytes.now None }
    ensures unchanged { 1 ≤ result → time.new ≡ time.old }
    ensures place { (result ≡ 0) ⊎ (result ≡ 27) → fault_place.new ≡ fault_place.old }
{
    let file = match read_file(bytes, fault_place) {
        Ok(file) => file,
        Err(code) => return code,
    };
    match first_time(&file) {
        Some(first) => {
            *time = first;
            0
        }
        None => NO_TIME,
    }
}

// Reads the parts that the bytes are, one after another. There is one at least.
fn read_parts<'a>(bytes: &'a [u8], parts: &mut Parts<'a>, fault_place: &mut u64) -> Result<(), u8>
    requires none { parts.old.items ≡ [] }
    ensures parts { OnOk result (AreParts bytes.now parts.new.items) }
    ensures some { OnOk result (1 ≤ length parts.new.items) }
    ensures refused { IfErr result
        (λ code. IsRefusedPart bytes.now code fault_place.old fault_place.new) }
    ensures place { OnOk result (fault_place.new ≡ fault_place.old) }
{
    let mut rest = add_part(bytes, bytes, parts, fault_place)?;
    while !rest.is_empty() {
        rest = add_part(bytes, rest, parts, fault_place)?;
    }
    Ok(())
}

// Adds the part that begins the rest of the bytes, and returns what follows it.
fn add_part<'a>(
    bytes: &'a [u8],
    rest: &'a [u8],
    parts: &mut Parts<'a>,
    fault_place: &mut u64,
) -> Result<&'a [u8], u8>
    requires before { IsReadTo bytes.now rest.now parts.old.items }
    requires some { (1 ≤ length rest.now) ⊎ (parts.old.items ≡ []) }
    ensures after { IfOk result (λ others. IsReadTo bytes.now others.now parts.new.items) }
    ensures some { OnOk result (1 ≤ length parts.new.items) }
    ensures shorter { IfOk result
        (λ others. 1 ≤ length rest.now → length others.now < length rest.now) }
    ensures refused { IfErr result
        (λ code. IsRefusedPart bytes.now code fault_place.old fault_place.new) }
    ensures place { OnOk result (fault_place.new ≡ fault_place.old) }
{
    let (own, others) = rest.split_at(first_file(rest));
    if parts.is_full() {
        return Err(MORE_PARTS);
    }
    match read_plain(own, fault_place) {
        Ok(file) => {
            parts.push(Part { name: "", file });
            Ok(others)
        }
        Err(code) => {
            *fault_place = place_in(bytes, rest, *fault_place);
            Err(code)
        }
    }
}

// Where in the bytes a place in the rest of them is.
fn place_in(bytes: &[u8], rest: &[u8], place: u64) -> u64
    requires rest { length rest.now ≤ length bytes.now }
    requires place { place ≤ length rest.now }
    ensures { result ≡ place + (length bytes.now - length rest.now) }
{
    place + (bytes.len() - rest.len()) as u64
}

// Reads a file without compressed timestamps.
fn read_plain<'a>(bytes: &'a [u8], fault_place: &mut u64) -> Result<LentFile<'a>, u8>
    ensures file { IfOk result (FileOf bytes.now) }
    ensures plain { IfOk result (λ file. AllByRecursion IsPlain file.items) }
    ensures place { OnOk result (fault_place.new ≡ fault_place.old) }
    ensures refused { IfErr result (λ code. IsNoPart bytes.now code fault_place.new) }
    ensures within { OnErr result (fault_place.new ≤ length bytes.now) }
{
    let file = read_file(bytes, fault_place)?;
    if is_plain(&file) {
        Ok(file)
    } else {
        *fault_place = 0;
        Err(NOT_PLAIN)
    }
}

// The first part that does not go with those before it, if they are not taken as they are given.
fn find_misfit<'n>(as_given: bool, parts: &[Part<'n, '_>]) -> Option<Misfit<'n>>
    ensures together { IsNone result → GoTogether as_given parts.now }
    ensures misfit { IfSome result (λ misfit. first_misfit parts.now ≡ Some misfit) }
    ensures number { IfSome result (λ misfit. misfit.number < length parts.now) }
{
    if as_given { None } else { first_misfit(parts) }
}

// Where so many parts end.
fn place_of(bytes: &[u8], number: usize) -> u64
    ensures { (before rest : List ℕ) (parts : List Part) → bytes.now ≡ before ++ rest
        → AreChained before parts → length parts ≡ number → result ≡ length before }
{
    let mut left = number;
    let mut rest = bytes;
    while left > 0 {
        let (_, others) = rest.split_at(first_file(rest));
        rest = others;
        left -= 1;
    }
    (bytes.len() - rest.len()) as u64
}

// The code of a part that does not go with those before it.
fn code_of(kind: MisfitKind) -> u8
    ensures { result ≡ misfit_code kind }
{
    match kind {
        MisfitKind::OtherSport => OTHER_SPORT,
        MisfitKind::Overlap => OVERLAP,
    }
}

// Writes the file of these parts into the buffer, if it has room, and returns the code of that.
fn write_parts(
    first: &Part<'_, '_>,
    others: &[Part<'_, '_>],
    out: &mut [u8],
    out_len: &mut u64,
) -> u8
    requires plain { ArePlain (first.now ∷ others.now) }
    ensures code { (result ≡ 0) ⊎ (result ≡ 20) ⊎ (result ≡ 21) }
    ensures ok { result ≡ 0
        → take out_len.new out.new ≡ encoded (joined_file first.now others.now) }
    ensures within { result ≡ 0 → out_len.new ≤ length out.new }
    ensures needed { result ≡ 20
        → out_len.new ≡ length (encoded (joined_file first.now others.now)) }
    ensures no_room { result ≡ 20 → length out.old < out_len.new }
    ensures too_long { result ≡ 21
        → 4294967295 < data_size (joined_items (first.now ∷ others.now)) }
    ensures unchanged { result ≡ 21 → (out_len.new ≡ out_len.old) × (out.new ≡ out.old) }
{
    match joined_size(first, others) {
        Some(size) => write_out(first, others, size, out, out_len),
        None => TOO_LONG,
    }
}

// Writes that file, whose records have `size` bytes.
fn write_out(
    first: &Part<'_, '_>,
    others: &[Part<'_, '_>],
    size: u32,
    out: &mut [u8],
    out_len: &mut u64,
) -> u8
    requires plain { ArePlain (first.now ∷ others.now) }
    requires size { size ≡ data_size (joined_items (first.now ∷ others.now)) }
    ensures code { (result ≡ 0) ⊎ (result ≡ 20) }
    ensures ok { result ≡ 0
        → take out_len.new out.new ≡ encoded (joined_file first.now others.now) }
    ensures within { result ≡ 0 → out_len.new ≤ length out.new }
    ensures needed { result ≡ 20
        → out_len.new ≡ length (encoded (joined_file first.now others.now)) }
    ensures no_room { result ≡ 20 → length out.old < out_len.new }
{
    let mut room = Room::new(out);
    write_in(first, others, size, &mut room);
    *out_len = room.len as u64;
    room.code()
}

// Writes that file into the same buffer.
fn write_in(first: &Part<'_, '_>, others: &[Part<'_, '_>], size: u32, room: &mut Room<'_>)
    requires empty { room.old.tape.bytes ≡ [] }
    requires plain { ArePlain (first.now ∷ others.now) }
    requires size { size ≡ data_size (joined_items (first.now ∷ others.now)) }
    ensures name { room.new.bytes.ghost_name ≡ room.old.bytes.ghost_name }
    ensures file { room.new.tape.bytes ≡ encoded (joined_file first.now others.now) }
{
    match write_joined(first, others, size, room) {
        Ok(()) => {}
        Err(fault) => match fault {},
    }
}

// How many bytes the records of that file have, or `None` if they are too many.
fn joined_size(first: &Part<'_, '_>, others: &[Part<'_, '_>]) -> Option<u32>
    requires plain { ArePlain (first.now ∷ others.now) }
    ensures size { IfSome result
        (λ size. size ≡ data_size (joined_items (first.now ∷ others.now))) }
    ensures too_long { IsNone result
        → 4294967295 < data_size (joined_items (first.now ∷ others.now)) }
{
    let mut nothing = [];
    let mut room = Room::new(&mut nothing);
    write_records(first, others, &mut room);
    if room.len <= u32::MAX as usize {
        Some(room.len as u32)
    } else {
        None
    }
}

// Writes the records of that file, which have no room.
fn write_records(first: &Part<'_, '_>, others: &[Part<'_, '_>], room: &mut Room<'_>)
    requires empty { room.old.tape.bytes ≡ [] }
    requires plain { ArePlain (first.now ∷ others.now) }
    ensures records { room.new.tape.bytes ≡ encoded_items (joined_items (first.now ∷ others.now)) }
{
    match write_joined_records(first, others, room) {
        Ok(()) => {}
        Err(fault) => match fault {},
    }
}
