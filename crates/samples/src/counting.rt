// The samples of the fault ledger.
use crate::tally::Tally;
use ledger::{Ledger, OutOfRange};
use std::{fmt, io};

// Event numbers, in document 01's order from 0.
const ERROR_FLAG_SENT: u8 = 4;

const ELEVEN_RECESSIVE: u8 = 9;

// A ledger with each number named, which `count` does not print.
#[derive(Drop)]
struct Standing(Ledger);

impl fmt::Display for Standing {
    fn fmt<W: fmt::Write>(&self, f: &mut fmt::Formatter<W>) -> fmt::Result {
        let ledger = self.0;
        let transmit = ledger.transmit.0;
        let receive = ledger.receive.0;
        let groups = ledger.groups;
        let state = ledger.state();
        write!(f, "{state}, T {transmit}, R {receive}, groups {groups}")
    }
}

// The record that a call hands back, refused or not.
fn handed_back(answer: Result<Ledger, OutOfRange>) -> Ledger {
    answer.unwrap_or_else(|refused| refused.0)
}

// It goes off after 32 error flags sent: from new, T is 256.
fn to_off(l: Ledger) -> Ledger {
    handed_back(l.replay(&[ERROR_FLAG_SENT; 32]))
}

// It sees so many groups of eleven recessive bits, 128 at most.
fn see(l: Ledger, groups: usize) -> Ledger {
    let history = [ELEVEN_RECESSIVE; 128];
    handed_back(l.replay(history.get(..groups).unwrap_or(&[])))
}

// One more, by the call for it.
fn see_one(l: Ledger) -> Ledger {
    handed_back(l.eleven_recessive())
}

fn ask(l: Ledger) -> Ledger {
    handed_back(l.ask())
}

pub(crate) fn groups(tally: &mut Tally) -> io::Result<()> {
    let asked = ask(to_off(Ledger::new()));
    tally.sample(
        "a station that is off and was asked to recover sees 127 groups of eleven recessive bits",
        Standing(see(asked, 127)),
        "off, T 256, R 0, groups 127",
    )?;
    tally.sample(
        "a station that is off and was asked to recover sees 128 groups of eleven recessive bits",
        Standing(see(asked, 128)),
        "active, T 0, R 0, groups 0",
    )
}

// Off means off until somebody looks.
pub(crate) fn asking(tally: &mut Tally) -> io::Result<()> {
    let off = to_off(Ledger::new());
    let back = see(ask(off), 128);
    tally.sample(
        "a station that is off sees 128 groups, and nobody asked",
        Standing(see(off, 128)),
        "off, T 256, R 0, groups 0",
    )?;
    tally.sample(
        "a station is asked to recover, goes off, and sees 128 groups",
        Standing(see(to_off(ask(Ledger::new())), 128)),
        "off, T 256, R 0, groups 0",
    )?;
    tally.sample(
        "a station that is off sees 127 groups, is asked to recover, and sees one",
        Standing(see_one(ask(see(off, 127)))),
        "off, T 256, R 0, groups 1",
    )?;
    tally.sample(
        "a station that is off is asked, sees 127 groups, is asked again, and sees one",
        Standing(see_one(ask(see(ask(off), 127)))),
        "active, T 0, R 0, groups 0",
    )?;
    tally.sample(
        "a station that recovered goes off again, and sees 128 groups",
        Standing(see(to_off(back), 128)),
        "off, T 256, R 0, groups 0",
    )
}
