// The checksum of a FIT file, by tables.

ghost use Rattle.std.specs.Prelude.{◌≡◌, ◌/◌, ◌%◌, ◌<◌, [], ◌∷◌, length, replicate};
ghost use Rattle.fit_base.specs.Checksum.{crc_from, crc};

mod choice;
mod tables;

pub(crate) use choice::HAS_ALL_TABLES;
use std::marker::Model;
use tables::{FIRST, LATER};

/// The checksum of a FIT file (CRC-16, reflected polynomial 0xA001), over the bytes added so far. Contracts see its register.
#[derive(Clone, Copy, Debug, PartialEq, Eq)]
pub struct Crc {
    register: u16,
}

impl Model for Crc {
    ghost use Rattle.std.specs.Prelude.{ℕ};

    ghost Value = { ℕ };

    ghost view = { λ c. c.register };

    ghost inverse = { λ n. record { register = n } };
}

impl Crc {
    /// The checksum of no bytes.
    pub fn new() -> Self
        ensures { result ≡ 0 }
    {
        Crc { register: 0 }
    }

    /// The checksum of bytes that were added before, given by its `value`.
    pub fn with_value(value: u16) -> Self
        ensures { result ≡ value }
    {
        Crc { register: value }
    }

    /// The checksum of these bytes alone.
    pub fn of(bytes: &[u8]) -> u16
        ensures { result ≡ crc bytes.now }
    {
        after_bytes(0, bytes)
    }

    /// Adds these bytes after those that were added before.
    pub fn add(&mut self, bytes: &[u8])
        ensures { self.new ≡ crc_from self.old bytes.now }
    {
        self.register = after_bytes(self.register, bytes);
    }

    /// The checksum of all bytes so far. A file stores its low byte first.
    pub fn value(&self) -> u16
        ensures { result ≡ self.now }
    {
        self.register
    }
}

fn after_bytes(register: u16, bytes: &[u8]) -> u16
    ensures { result ≡ crc_from register bytes.now }
{
    if HAS_ALL_TABLES {
        after_blocks(register, bytes)
    } else {
        after_few(register, bytes)
    }
}

// Sixteen bytes at a time, and then the rest one by one.
fn after_blocks(mut register: u16, bytes: &[u8]) -> u16
    ensures { result ≡ crc_from register bytes.now }
{
    let blocks = bytes.len() / 16;
    for k in 0..blocks {
        register = after_block(register, &bytes[16 * k..16 * k + 16]);
    }
    after_few(register, &bytes[16 * blocks..])
}

fn after_few(mut register: u16, bytes: &[u8]) -> u16
    ensures { result ≡ crc_from register bytes.now }
{
    for byte in bytes {
        register = after_byte(register, *byte);
    }
    register
}

fn after_byte(register: u16, byte: u8) -> u16
    ensures { result ≡ crc_from register (byte ∷ []) }
{
    (register >> 8) ^ entry(0, low_byte(register) ^ byte)
}

// The register goes into the first two bytes, and then each byte moves to the end on its own. These two come last, since only
// they have to wait for the register.
fn after_block(register: u16, block: &[u8]) -> u16
    requires { length block.now ≡ 16 }
    ensures { result ≡ crc_from register block.now }
{
    entry(13, block[2])
        ^ entry(12, block[3])
        ^ entry(11, block[4])
        ^ entry(10, block[5])
        ^ entry(9, block[6])
        ^ entry(8, block[7])
        ^ entry(7, block[8])
        ^ entry(6, block[9])
        ^ entry(5, block[10])
        ^ entry(4, block[11])
        ^ entry(3, block[12])
        ^ entry(2, block[13])
        ^ entry(1, block[14])
        ^ entry(0, block[15])
        ^ entry(15, low_byte(register) ^ block[0])
        ^ entry(14, high_byte(register) ^ block[1])
}

// The register after this byte and this many zero bytes, starting at zero.
#[inline(always)]
fn entry(zeros: usize, byte: u8) -> u16
    requires { zeros < 16 }
    ensures { result ≡ crc (byte ∷ replicate zeros 0) }
{
    if zeros == 0 {
        FIRST[byte as usize]
    } else {
        LATER[zeros - 1][byte as usize]
    }
}

#[inline]
fn low_byte(register: u16) -> u8
    ensures { result ≡ register % 256 }
{
    (register & 0xff) as u8
}

#[inline]
fn high_byte(register: u16) -> u8
    ensures { result ≡ register / 256 }
{
    (register >> 8) as u8
}
