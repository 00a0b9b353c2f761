// A sample in the memory of C.

ghost use Rattle.std.specs.Prelude.{◌≡◌, ◌<◌, ◌==◌, if◌then◌else◌, Some, None};
ghost use Rattle.fit_device.specs.Sampled.{given, has_plain_time, unless, unless_signed, sample_given};

use fit_activity::Sample;

/// The values of the sensors at one time, in the units of `fit_activity::Sample`. The bits of `has` say which are there, and one whether the
/// time is written in full. A value is also absent if it is the greatest number of its type.
#[repr(C)]
#[derive(Clone, Copy)]
pub struct DeviceSample {
    pub time: u32,
    pub lat: i32,
    pub long: i32,
    pub distance: u32,
    pub enhanced_speed: u32,
    pub enhanced_altitude: u32,
    pub has: u32,
    pub altitude: u16,
    pub speed: u16,
    pub power: u16,
    pub heart_rate: u8,
    pub cadence: u8,
    pub temperature: i8,
}

// The bits of `has`.
const LAT: u32 = 1;

const LONG: u32 = 2;

const DISTANCE: u32 = 4;

const ENHANCED_SPEED: u32 = 8;

const ENHANCED_ALTITUDE: u32 = 16;

const ALTITUDE: u32 = 32;

const SPEED: u32 = 64;

const POWER: u32 = 128;

const HEART_RATE: u32 = 256;

const CADENCE: u32 = 512;

const TEMPERATURE: u32 = 1024;

// No value: the time is written in full.
const PLAIN_TIME: u32 = 2048;

pub(crate) fn has_plain_time(sample: &DeviceSample) -> bool
    ensures { result ≡ has_plain_time sample.now }
{
    sample.has / PLAIN_TIME % 2 == 1
}

pub(crate) fn sample_of(sample: &DeviceSample) -> Sample
    ensures { result ≡ sample_given sample.now }
{
    Sample {
        time: sample.time,
        lat: given(sample.has, LAT, i32_of(sample.lat)),
        long: given(sample.has, LONG, i32_of(sample.long)),
        altitude: given(sample.has, ALTITUDE, u16_of(sample.altitude)),
        heart_rate: given(sample.has, HEART_RATE, u8_of(sample.heart_rate)),
        cadence: given(sample.has, CADENCE, u8_of(sample.cadence)),
        distance: given(sample.has, DISTANCE, u32_of(sample.distance)),
        speed: given(sample.has, SPEED, u16_of(sample.speed)),
        power: given(sample.has, POWER, u16_of(sample.power)),
        temperature: given(sample.has, TEMPERATURE, i8_of(sample.temperature)),
        enhanced_speed: given(sample.has, ENHANCED_SPEED, u32_of(sample.enhanced_speed)),
        enhanced_altitude: given(
            sample.has,
            ENHANCED_ALTITUDE,
            u32_of(sample.enhanced_altitude),
        ),
    }
}

// A value, if its bit is set.
fn given<T: Drop>(has: u32, bit: u32, value: Option<T>) -> Option<T>
    requires { 0 < bit }
    ensures { result ≡ given has bit value }
{
    if has / bit % 2 == 1 { value } else { None }
}

fn u8_of(value: u8) -> Option<u8>
    ensures { result ≡ unless 0xFF value }
{
    if value == u8::MAX { None } else { Some(value) }
}

fn u16_of(value: u16) -> Option<u16>
    ensures { result ≡ unless 0xFFFF value }
{
    if value == u16::MAX { None } else { Some(value) }
}

fn u32_of(value: u32) -> Option<u32>
    ensures { result ≡ unless 0xFFFFFFFF value }
{
    if value == u32::MAX { None } else { Some(value) }
}

fn i8_of(value: i8) -> Option<i8>
    ensures { result ≡ unless_signed 0x7F value }
{
    if value == i8::MAX { None } else { Some(value) }
}

fn i32_of(value: i32) -> Option<i32>
    ensures { result ≡ unless_signed 0x7FFFFFFF value }
{
    if value == i32::MAX { None } else { Some(value) }
}
