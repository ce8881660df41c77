// Wire images, and stretches of recessive samples: `0` is dominant, `1` recessive. The images are written out, so that no definition and
// no code of the handset's stands behind what a sample should give.

// No image is longer (01 "The wire image").
pub(crate) const LONGEST: usize = 157;

// What a capture holds before it is written to: no sample.
pub(crate) const BLANK: u8 = 2;

// Base data, identifier 000, code 0: document 01's first whole image.
pub(crate) const IMAGE_000: &str = "00000100000100000100000100000100000100001111111111";

// Base data, identifier 009, code 0: the CRC, 7C20, ends in five dominant bits, and a recessive stuff bit stands behind it.
pub(crate) const IMAGE_009: &str = "0000010001001000001001111100000110000011111111111";

// Base data, identifier 017, code 0: the CRC, 521F, ends in five recessive bits, and a dominant stuff bit stands behind it.
pub(crate) const IMAGE_017: &str = "00000100101110000010010100100001111101111111111";

// Base data, identifier 123, bytes 11 22 .. 88: code 12, and code 15.
pub(crate) const IMAGE_CODE_12: &str =
    "0001001000110001100000110001001000100011001101000100010101010110011001110111100010000101010110101101111111111";

pub(crate) const IMAGE_CODE_15: &str =
    "000100100011000111100010001001000100011001101000100010101010110011001110111100010001010111001101001111111111";

// Base data, identifier 123, code 0, with r0 recessive.
pub(crate) const IMAGE_BASE_R0: &str = "00010010001100100001000101110011111111111111";

// Extended data, identifier 00000123, code 0: with r1 recessive, and with r0 recessive.
pub(crate) const IMAGE_EXTENDED_R1: &str =
    "00000100000100110000010000100100011010000011110101011001101111111111";

pub(crate) const IMAGE_EXTENDED_R0: &str =
    "000001000001001100000100001001000110010000010000111101111101111111111";

pub(crate) const TEN: &str = "1111111111";

pub(crate) const ELEVEN: &str = "11111111111";
