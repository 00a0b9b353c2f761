// What a session decides, which carries out the plans in C (`device/session.c`): which step may be made where it stands, and which time and
// distance its entries have.

ghost use Rattle.std.specs.Prelude.{◌≡◌, ◌↔◌, ◌⊎◌, ◌<◌, ◌≤◌, ◌+◌, ◌%◌};
ghost use Rattle.fit_device.specs.Session.{not_now, IsFree, IsRiding, IsFinished, IsBooted, IsInGap};

// A step may not be made now.
const NOT_NOW: u8 = 15;

// The longest gap in which the power was off, in seconds: a clock that is further ahead was set meanwhile.
const LONGEST_GAP: u32 = 86_400;

// What a boot has found, as in `enum fitrec_finding`.
const EMPTY: u8 = 1;

const RIDING: u8 = 2;

const FINISHED: u8 = 3;

const ERASING: u8 = 4;

const KEEP: u8 = 5;

// What a session is asked to do.
const BEGIN: u8 = 0;

const ENTER: u8 = 1;

const CLEAR: u8 = 2;

const GO_ON: u8 = 3;

const SET: u8 = 4;

/// Whether a step may be made at what a boot has found, or at 0 without a boot: 0, or else the answer `FITREC_NOT_NOW`.
#[unsafe(no_mangle)]
pub extern "C" fn fitrec_session_may(finding: u8, step: u8) -> u8
    ensures begin { step ≡ 0 → (result ≡ 0 ↔ IsFree finding) }
    ensures enter { step ≡ 1 → (result ≡ 0 ↔ IsRiding finding) }
    ensures clear { step ≡ 2 → (result ≡ 0 ↔ IsBooted finding × (IsRiding finding → ⊥)) }
    ensures go_on { step ≡ 3 → (result ≡ 0 ↔ IsFinished finding) }
    ensures set { step ≡ 4 → (result ≡ 0 ↔ IsBooted finding) }
    ensures answer { (result ≡ 0) ⊎ (result ≡ not_now) }
{
    let is_due = match step {
        BEGIN => finding == EMPTY || finding == ERASING,
        ENTER => finding == RIDING,
        CLEAR => finding == EMPTY || finding == FINISHED || finding == ERASING || finding == KEEP,
        GO_ON => finding == FINISHED,
        SET => finding >= EMPTY && finding <= KEEP,
        _ => false,
    };
    if is_due { 0 } else { NOT_NOW }
}

/// What is added to the clock of a device after a boot, so that times go on after the last one of the ride.
#[unsafe(no_mangle)]
pub extern "C" fn fitrec_session_offset(last: u32, clock: u32) -> u32
    ensures gap { IsInGap last clock → result ≡ 0 }
    ensures on { (IsInGap last clock → ⊥) → (clock + result) % 4294967296 ≡ last }
{
    if last <= clock && clock - last <= LONGEST_GAP {
        0
    } else {
        last.wrapping_sub(clock)
    }
}

/// What is added to the distances of a device, of which this is the first after a boot: the last one of the ride, if they began at 0 again.
#[unsafe(no_mangle)]
pub extern "C" fn fitrec_session_base(last: u32, distance: u32) -> u32
    ensures begun { distance < last → result ≡ last }
    ensures same { last ≤ distance → result ≡ 0 }
{
    if distance < last { last } else { 0 }
}
