ghost use Rattle.std.specs.Prelude.{◌≡◌, ◌%◌, ◌^◌};

/// The low 8 bits.
pub fn low8(a: u64) -> u8
    ensures { result ≡ a % 2 ^ 8 }
{
    (a & 0xff) as u8
}

/// The low 16 bits.
pub fn low16(a: u64) -> u16
    ensures { result ≡ a % 2 ^ 16 }
{
    (a & 0xffff) as u16
}

/// The low 32 bits.
pub fn low32(a: u64) -> u32
    ensures { result ≡ a % 2 ^ 32 }
{
    (a & 0xffff_ffff) as u32
}
