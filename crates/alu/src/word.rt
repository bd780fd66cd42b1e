// An operand of either width.
ghost use Rattle.std.specs.Prelude.{◌≡◌, refl, ℕ, Bool, true, false, ◌*◌, ◌%◌, ◌^◌, ◌<◌, bit_and, bit_or, bit_xor};
ghost use Rattle.alu.specs.Arithmetic.{bits, low, signed_byte};
ghost use Rattle.alu.specs.Word.{Computes, CarriesAlike, ShowsAlike};

use std::ops::{BitAnd, BitOr, BitXor};

// A byte or a dword.
pub trait Word: Copy + BitAnd<Output = Self> + BitOr<Output = Self> + BitXor<Output = Self> {
    // Is it a dword?
    ghost wide: { Bool };

    ghost number: { Self → ℕ };

    ghost VALUES: { ℕ };

    // How many numbers there are.
    const VALUES: u64;

    // As a dword.
    fn number(self) -> u32
        ensures { (result ≡ number self) × (result < 2 ^ bits wide) };

    // The low part of x.
    fn low(x: u32) -> Self
        ensures { number result ≡ low wide x };

    // The carries into the places, with the one into the top place where a dword has it.
    fn carries(m: u32) -> u32
        requires { m < 2 ^ bits wide }
        ensures { CarriesAlike (bits wide) result m };

    // The dword that shows the number's flags.
    fn showing(r: u32) -> u32
        requires { r < 2 ^ bits wide }
        ensures { ShowsAlike (bits wide) result r };

    ghost values: { VALUES ≡ 2 ^ bits wide };

    ghost ands: { Computes number Self.BitAnd.can_bitand Self.BitAnd.bitand_gives bit_and };

    ghost ors: { Computes number Self.BitOr.can_bitor Self.BitOr.bitor_gives bit_or };

    ghost xors: { Computes number Self.BitXor.can_bitxor Self.BitXor.bitxor_gives bit_xor };
}

impl Word for u32 {
    ghost wide = { true };

    ghost number = { λ x. x };

    ghost VALUES = { 0x1_0000_0000 };

    ghost values = { refl };

    ghost ands = { λ a b. (tt, λ r e. e) };

    ghost ors = { λ a b. (tt, λ r e. e) };

    ghost xors = { λ a b. (tt, λ r e. e) };

    const VALUES: u64 = 0x1_0000_0000;

    fn number(self) -> u32 {
        self
    }

    fn low(x: u32) -> u32 {
        x
    }

    fn carries(m: u32) -> u32 {
        m
    }

    fn showing(r: u32) -> u32 {
        r
    }
}

impl Word for u8 {
    ghost wide = { false };

    ghost number = { λ x. x };

    ghost VALUES = { 256 };

    ghost values = { refl };

    ghost ands = { λ a b. (tt, λ r e. e) };

    ghost ors = { λ a b. (tt, λ r e. e) };

    ghost xors = { λ a b. (tt, λ r e. e) };

    const VALUES: u64 = 256;

    fn number(self) -> u32 {
        u32::from(self)
    }

    fn low(x: u32) -> u8 {
        (x % 256) as u8
    }

    fn carries(m: u32) -> u32 {
        m + m * 0x100_0000
    }

    #[tactic(auto, using(crate::proofs::Showing::byte_shows))]
    fn showing(r: u32) -> u32 {
        crate::signed_byte(r)
    }
}
