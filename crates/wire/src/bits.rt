// A field's value, bit by bit. A bit is a number, as a sample of a capture is: public calls take any, and 6 is document 01's answer to one that is neither 0
// nor 1.
ghost use Rattle.std.specs.Prelude.{◌≡◌};
ghost use Rattle.wire.specs.Bits.{bit_at};

// The bit of `value` that has weight 2 to the power of `at`.
#[tactic(auto, using(crate::proofs::BitsLaws::no_bit_from_64))]
pub fn bit_at(value: u64, at: u32) -> u32
    ensures { result ≡ bit_at value at }
{
    if at < 64 {
        ((value >> at) % 2) as u32
    } else {
        0
    }
}
