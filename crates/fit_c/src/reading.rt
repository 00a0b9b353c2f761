// The file that some bytes are.

ghost use Rattle.std.specs.Prelude.{◌≡◌, ◌≤◌, IfErr, IfOk, OnOk};
ghost use Rattle.fit_grammar.specs.Format.File.{FileOf};
ghost use Rattle.fit_c.specs.Files.{IsNoFile};

use fit_grammar::LentFile;

// Reads the file that the bytes are. Bytes that are none give the code of the `FaultKind`, with the place of the fault in `fault_place`.
pub fn read_file<'a>(bytes: &'a [u8], fault_place: &mut u64) -> Result<LentFile<'a>, u8>
    ensures file { IfOk result (FileOf bytes.now) }
    ensures place { OnOk result (fault_place.new ≡ fault_place.old) }
    ensures no_file { IfErr result
        (λ code. (1 ≤ code) × (code ≤ 9) × IsNoFile bytes.now code fault_place.new) }
{
    match LentFile::read(bytes) {
        Ok(file) => Ok(file),
        Err(fault) => {
            *fault_place = fault.place as u64;
            Err(fault.kind.code())
        }
    }
}
