// Coding (001 6.6.13.2): what may be due before a bit.
ghost use Rattle.std.specs.Prelude.{◌≡◌};
ghost use Rattle.writer.specs.Pages.{due_before};

use wire::Run;

// How a bit is coded: with the stuff bit before it that may be due, or as it is.
// An enum, and no closure or second method for what is due: each field names its coding, as the standard does, and one loop draws both.
#[derive(Clone, Copy)]
pub(crate) enum Coding {
    Dynamic,
    Plain,
}

impl Coding {
    // The stuff bit that goes on the wire before the next bit, if one does.
    pub(crate) fn due(self, run: Run) -> Option<u32>
        ensures { result ≡ due_before self run }
    {
        match self {
            Coding::Dynamic => run.due(),
            Coding::Plain => None,
        }
    }
}
