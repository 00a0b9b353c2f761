// Whether a file in memory is an activity.

ghost use Rattle.std.specs.Prelude.{◌≡◌, ◌≢◌, ◌≤◌, ◌⊎◌};
ghost use Rattle.fit_c.specs.Files.{IsActivity, IsNoFile, IsNoActivity};

use crate::reading::read_file;
use crate::repairing::{RideSummary, numbers};
use fit_activity::check_activity;

/// Checks whether the bytes are an activity file, as `check_activity` of `fit_activity` does, and fills `summary` if they are.
/// Returns 0; 1 to 9 if they are no FIT file (the code of the `FaultKind`), with the place of the fault in `fault_place`; 11 to 15
/// if it is no activity (10 more than the code of the `ActivityFault`).
#[unsafe(no_mangle)]
pub extern "C" fn fitrec_check(bytes: &[u8], summary: &mut RideSummary, fault_place: &mut u64) -> u8
    ensures code { (result ≤ 15) × (result ≢ 10) }
    ensures ok { result ≡ 0 → IsActivity bytes.now summary.new }
    ensures no_file { 1 ≤ result → result ≤ 9 → IsNoFile bytes.now result fault_place.new }
    ensures no_activity { 11 ≤ result → IsNoActivity bytes.now result }
    ensures unchanged { 1 ≤ result → summary.new ≡ summary.old }
    ensures place { (result ≡ 0) ⊎ (11 ≤ result) → fault_place.new ≡ fault_place.old }
{
    let file = match read_file(bytes, fault_place) {
        Ok(file) => file,
        Err(code) => return code,
    };
    match check_activity(&file) {
        Ok(found) => {
            *summary = numbers(&found);
            0
        }
        Err(fault) => 10 + fault.code(),
    }
}
