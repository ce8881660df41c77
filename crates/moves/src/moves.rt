// What a sample asks for, place by place: a public function for each row of document 01's table, though some rows are alike.
// A sample is a number, as in `wire::bits`.
ghost use Rattle.std.specs.Prelude.{◌≡◌};
ghost use Rattle.moves.specs.Moves.{quiet_after, when_waiting, when_ready, when_delimiter, when_fdf, when_bit, when_stuffed, when_ack_delimiter, when_end_of_frame, when_intermission};

use crate::places::{Fault, Place};
use wire::Sampled;

#[derive(Clone, Copy)]
pub enum Move {
    // nothing but another place
    Go(Place),
    // the sample is a start of frame
    Begin,
    // the sample is a bit of the frame
    Take,
    // the sample is a stuff bit
    Skip,
    // the sample is the acknowledge slot
    Slot,
    HandOut,
    Fail(Fault),
}

// How many recessive samples in a row there were last, held at eleven.
pub fn quiet_after(quiet: u32, b: u32) -> u32
    ensures { result ≡ quiet_after quiet b }
{
    if b == 0 { 0 } else { quiet.min(10) + 1 }
}

pub fn when_waiting(quiet: u32) -> Move
    ensures { result ≡ when_waiting quiet }
{
    if quiet < 11 {
        Move::Go(Place::Waiting)
    } else {
        Move::Go(Place::Ready)
    }
}

pub fn when_ready(b: u32) -> Move
    ensures { result ≡ when_ready b }
{
    if b == 0 {
        Move::Begin
    } else {
        Move::Go(Place::Ready)
    }
}

fn when_delimiter(b: u32) -> Move
    ensures { result ≡ when_delimiter b }
{
    if b == 0 {
        Move::Fail(Fault::FormError)
    } else {
        Move::Go(Place::AckSlot)
    }
}

// FDF is r0 of a base frame and r1 of an extended one.
fn when_fdf(b: u32) -> Move
    ensures { result ≡ when_fdf b }
{
    if b == 0 {
        Move::Take
    } else {
        Move::Fail(Fault::NewerFormat)
    }
}

// A bit of the frame; behind the last CRC bit it is the CRC delimiter.
fn when_bit(done: bool, fdf: bool, b: u32) -> Move
    ensures { result ≡ when_bit done fdf b }
{
    if done {
        when_delimiter(b)
    } else if fdf {
        when_fdf(b)
    } else {
        Move::Take
    }
}

pub fn when_stuffed(sampled: Sampled, done: bool, fdf: bool, b: u32) -> Move
    ensures { result ≡ when_stuffed sampled done fdf b }
{
    match sampled {
        Sampled::FrameBit => when_bit(done, fdf, b),
        Sampled::StuffBit => Move::Skip,
        Sampled::SixthEqual => Move::Fail(Fault::StuffError),
    }
}

pub fn when_ack_delimiter(b: u32, sum: u32, crc: u32) -> Move
    ensures { result ≡ when_ack_delimiter b sum crc }
{
    if b == 0 {
        Move::Fail(Fault::FormError)
    } else if sum == crc {
        Move::Go(Place::EndOfFrame(1))
    } else {
        Move::Fail(Fault::CrcError)
    }
}

pub fn when_end_of_frame(k: u32, b: u32) -> Move
    ensures { result ≡ when_end_of_frame k b }
{
    if b == 0 {
        if k < 7 {
            Move::Fail(Fault::FormError)
        } else {
            Move::Fail(Fault::Overload)
        }
    } else if k < 6 {
        Move::Go(Place::EndOfFrame(k + 1))
    } else if k == 6 {
        Move::HandOut
    } else {
        Move::Go(Place::Intermission(1))
    }
}

pub fn when_intermission(k: u32, b: u32) -> Move
    ensures { result ≡ when_intermission k b }
{
    if b == 0 {
        if k < 3 {
            Move::Fail(Fault::Overload)
        } else {
            Move::Begin
        }
    } else if k < 3 {
        Move::Go(Place::Intermission(k + 1))
    } else {
        Move::Go(Place::Ready)
    }
}
