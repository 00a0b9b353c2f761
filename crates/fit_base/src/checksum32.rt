// CRC-32, by tables.

ghost use Rattle.std.specs.Prelude.{◌≡◌, ◌/◌, ◌%◌, ◌<◌, [], ◌∷◌, length, replicate};
ghost use Rattle.fit_base.specs.Checksum.{crc32, crc32_from, crc32_polynomial, register_after};

mod tables;

use crate::checksum::HAS_ALL_TABLES;
use std::marker::Model;
use tables::{FIRST, HALVES, LATER};

/// CRC-32, as zlib computes it (reflected polynomial 0xEDB88320), over the bytes added so far. Contracts see its value.
#[derive(Clone, Copy, Debug, PartialEq, Eq)]
pub struct Crc32 {
    value: u32,
}

impl Model for Crc32 {
    ghost use Rattle.std.specs.Prelude.{ℕ};

    ghost Value = { ℕ };

    ghost view = { λ c. c.value };

    ghost inverse = { λ n. record { value = n } };
}

impl Crc32 {
    /// The checksum of no bytes.
    pub fn new() -> Self
        ensures { result ≡ 0 }
    {
        Crc32 { value: 0 }
    }

    /// The checksum of bytes that were added before, given by its `value`.
    pub fn with_value(value: u32) -> Self
        ensures { result ≡ value }
    {
        Crc32 { value }
    }

    /// The checksum of these bytes alone.
    pub fn of(bytes: &[u8]) -> u32
        ensures { result ≡ crc32 bytes.now }
    {
        with_more(0, bytes)
    }

    /// Adds these bytes after those that were added before.
    pub fn add(&mut self, bytes: &[u8])
        ensures { self.new ≡ crc32_from self.old bytes.now }
    {
        self.value = with_more(self.value, bytes);
    }

    /// The checksum of all bytes so far.
    pub fn value(&self) -> u32
        ensures { result ≡ self.now }
    {
        self.value
    }
}

// The register has all bits of the value turned.
fn with_more(value: u32, bytes: &[u8]) -> u32
    ensures { result ≡ crc32_from value bytes.now }
{
    after_bytes(value ^ 0xFFFF_FFFF, bytes) ^ 0xFFFF_FFFF
}

fn after_bytes(register: u32, bytes: &[u8]) -> u32
    ensures { result ≡ register_after crc32_polynomial register bytes.now }
{
    if HAS_ALL_TABLES {
        after_blocks(register, bytes)
    } else {
        after_halves(register, bytes)
    }
}

// Sixteen bytes at a time, and then the rest one by one.
fn after_blocks(mut register: u32, bytes: &[u8]) -> u32
    ensures { result ≡ register_after crc32_polynomial register bytes.now }
{
    let blocks = bytes.len() / 16;
    for k in 0..blocks {
        register = after_block(register, &bytes[16 * k..16 * k + 16]);
    }
    after_few(register, &bytes[16 * blocks..])
}

fn after_few(mut register: u32, bytes: &[u8]) -> u32
    ensures { result ≡ register_after crc32_polynomial register bytes.now }
{
    for byte in bytes {
        register = after_byte(register, *byte);
    }
    register
}

fn after_byte(register: u32, byte: u8) -> u32
    ensures { result ≡ register_after crc32_polynomial register (byte ∷ []) }
{
    (register >> 8) ^ entry(0, low_byte(register) ^ byte)
}

// Each byte moves to the end on its own, and the four of the register with the first four of the block. These come last, since
// only they have to wait for the register.
fn after_block(register: u32, block: &[u8]) -> u32
    requires { length block.now ≡ 16 }
    ensures { result ≡ register_after crc32_polynomial register block.now }
{
    let rest = entry(0, block[15]);
    let rest = entry(1, block[14]) ^ rest;
    let rest = entry(2, block[13]) ^ rest;
    let rest = entry(3, block[12]) ^ rest;
    let rest = entry(4, block[11]) ^ rest;
    let rest = entry(5, block[10]) ^ rest;
    let rest = entry(6, block[9]) ^ rest;
    let rest = entry(7, block[8]) ^ rest;
    let rest = entry(8, block[7]) ^ rest;
    let rest = entry(9, block[6]) ^ rest;
    let rest = entry(10, block[5]) ^ rest;
    let rest = entry(11, block[4]) ^ rest;
    let rest = entry(12, low_byte(register >> 24) ^ block[3]) ^ rest;
    let rest = entry(13, low_byte(register >> 16) ^ block[2]) ^ rest;
    let rest = entry(14, low_byte(register >> 8) ^ block[1]) ^ rest;
    entry(15, low_byte(register) ^ block[0]) ^ rest
}

// The register after this byte and this many zero bytes, starting at zero.
#[inline(always)]
fn entry(zeros: usize, byte: u8) -> u32
    requires { zeros < 16 }
    ensures { result ≡ register_after crc32_polynomial 0 (byte ∷ replicate zeros 0) }
{
    if zeros == 0 {
        FIRST[byte as usize]
    } else {
        LATER[zeros - 1][byte as usize]
    }
}

// Half a byte at a time, the low one first.
fn after_halves(mut register: u32, bytes: &[u8]) -> u32
    ensures { result ≡ register_after crc32_polynomial register bytes.now }
{
    for byte in bytes {
        register = after_two(register, *byte);
    }
    register
}

fn after_two(register: u32, byte: u8) -> u32
    ensures { result ≡ register_after crc32_polynomial register (byte ∷ []) }
{
    let mixed = register ^ u32::from(byte);
    let first = (mixed >> 4) ^ HALVES[low_half(mixed)];
    (first >> 4) ^ HALVES[low_half(first)]
}

#[inline]
fn low_half(register: u32) -> usize
    ensures { result ≡ register % 16 }
{
    (register & 0xf) as usize
}

#[inline]
fn low_byte(register: u32) -> u8
    ensures { result ≡ register % 256 }
{
    (register & 0xff) as u8
}
