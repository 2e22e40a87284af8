//! Words made of fewer bits by copying the sign upwards (RFC 9669, sections 4.1 and 5.2), as profile 2 has them.
ghost use Rattle.std.specs.Prelude.{◌≡◌};
ghost use Rattle.pb_isa.specs.Machine.{sign_extended, mov_sx};

use crate::insn::{Size, Width};

/// The low bytes of a word, so many as the size says, extended by their sign to 64 bits.
pub fn sign_extended(size: Size, v: u64) -> u64
    ensures { result ≡ sign_extended size v }
{
    // The low bytes are masked off first, so that no cast cuts anything; the cast to a wider signed number copies the
    // sign.
    match size {
        Size::B => i64::from(((v & 0xff) as u8).cast_signed()).cast_unsigned(),
        Size::H => i64::from(((v & 0xffff) as u16).cast_signed()).cast_unsigned(),
        Size::W => i64::from(((v & 0xffff_ffff) as u32).cast_signed()).cast_unsigned(),
        Size::Dw => v,
    }
}

/// What a sign-extending move makes of its source: on 32 bits the upper half of the result is clear, as after any
/// operation of that width.
pub fn mov_sx(width: Width, size: Size, v: u64) -> u64
    ensures { result ≡ mov_sx width size v }
{
    match width {
        Width::Bits64 => sign_extended(size, v),
        Width::Bits32 => sign_extended(size, v) & 0xffff_ffff,
    }
}
