// The check of classical frames, a bit at a time.
ghost use Rattle.std.specs.Prelude.{◌≡◌};
ghost use Rattle.wire.specs.Bits.{bits};
ghost use Rattle.wire.specs.Crc.{crc_step, crc_from};
ghost use Rattle.wire.specs.Numbers.{crc_width, crc_generator};

use crate::bits::bit_at;

// The register after one bit more.
#[tactic(auto, using(crate::proofs::BitsLaws::xors_is), unfolding(crate::specs::Crc::crc_step))]
pub fn crc_bit(register: u32, b: u32) -> u32
    ensures { result ≡ crc_step crc_width crc_generator register b }
{
    let shifted = register % 16384 * 2;
    if register / 16384 % 2 == b {
        shifted
    } else {
        shifted ^ 0x4599
    }
}

// The register after the `width` low bits of `value`, highest first. Bit by bit: an iterator of bits would need laws of its own, for two
// loops of one line, this and the writer's.
#[tactic(auto, using(crate::proofs::Loops::crc_loop))]
pub fn crc_bits(register: u32, width: u32, value: u64) -> u32
    ensures { result ≡ crc_from crc_width crc_generator register (bits width value) }
{
    let mut c = register;
    for left in (0..width).rev() {
        c = crc_bit(c, bit_at(value, left));
    }
    c
}
