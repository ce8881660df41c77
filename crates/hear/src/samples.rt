// What is offered to the listener of the bytes that were read.
ghost use Rattle.std.specs.Prelude.{◌≡◌};
ghost use Rattle.hear.specs.Samples.{is_skipped, sample_of, offered_of};

// White space, as `count` has it too: a line in each is shorter than a library.
fn is_skipped(b: u8) -> bool
    ensures { result ≡ is_skipped b }
{
    matches!(b, b' ' | b'\t' | b'\r' | b'\n')
}

// The letters `0` and `1` are the samples 0 and 1. `samples` has the same: the wire knows no letters, and no program can take from another.
fn sample(b: u8) -> u8
    ensures { result ≡ sample_of b }
{
    match b {
        b'0' => 0,
        b'1' => 1,
        _ => b,
    }
}

// What the bytes offer, put together at their front: in place, and so `n` is counted beside the loop, since a slice has no `retain`.
pub(crate) fn offered(piece: &mut [u8]) -> &[u8]
    ensures { result.now ≡ offered_of piece.old }
{
    let mut n = 0;
    for i in 0..piece.len() {
        let b = piece[i];
        if !is_skipped(b) {
            piece[n] = sample(b);
            n += 1;
        }
    }
    &piece[..n]
}
