ghost use Rattle.std.specs.Prelude.{◌≡◌, ◌<◌, slice_index};
ghost use Rattle.m3_base.specs.Words.{signed_of};

/// What a thread has at hand: sixteen registers of 64 bits, the number of the instruction that it
/// stands at, and the first address of its newest frame.
#[derive(Clone, Copy, Debug, PartialEq, Eq)]
pub struct Regs {
    pub r: [u64; 16],
    pub pc: u32,
    pub fp: u64,
}

/// The content of a register.
#[inline(always)]
pub fn word(r: &[u64; 16], n: u8) -> u64
    requires { n < 16 }
    ensures { result ≡ slice_index r.now n }
{
    r[n as usize]
}

/// Its signed reading.
#[inline(always)]
pub fn signed(r: &[u64; 16], n: u8) -> i64
    requires { n < 16 }
    ensures { result ≡ signed_of (slice_index r.now n) }
{
    r[n as usize].cast_signed()
}
