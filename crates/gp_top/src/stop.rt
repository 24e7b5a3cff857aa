ghost use Rattle.std.specs.Prelude.{◌≡◌};
ghost use Rattle.gp_top.specs.Exit as definition;

use crate::status::{READ_FAULT, REFUSED, USAGE};
use gp_io::ReadError;
use gp_isa::Memory;
use gp_report::Fault;
use gp_text::TextError;
use gp_wire::WireError;
use gp_words::WordError;

/// Why no job was done.
#[derive(Clone, Copy)]
pub(crate) enum Stop {
    /// The words, the bytes or the source are at fault, which a line tells.
    Fault(Fault),
    Memory,
}

impl From<Memory> for Stop {
    ghost use Rattle.std.specs.Prelude.{◌≡◌};
    ghost use Rattle.gp_top.specs.declared.stop.Stop.TheVariants.{Memory as OutOfMemory};

    ghost from_gives = { λ _ made. made ≡ OutOfMemory };

    fn from(_error: Memory) -> Stop {
        Stop::Memory
    }
}

impl From<WordError> for Stop {
    ghost use Rattle.std.specs.Prelude.{◌≡◌};
    ghost use Rattle.gp_top.specs.kept.Steps.{stop_of_words};

    ghost from_gives = { λ error made. made ≡ stop_of_words error };

    fn from(error: WordError) -> Stop {
        match error {
            WordError::Usage { place, cause } => Stop::Fault(Fault::Usage { place, cause }),
            WordError::Memory => Stop::Memory,
        }
    }
}

impl From<ReadError> for Stop {
    ghost use Rattle.std.specs.Prelude.{◌≡◌};
    ghost use Rattle.gp_top.specs.kept.Steps.{stop_of_read};

    ghost from_gives = { λ error made. made ≡ stop_of_read error };

    fn from(error: ReadError) -> Stop {
        match error {
            ReadError::TooLong => Stop::Fault(Fault::Long),
            ReadError::ReadFault => Stop::Fault(Fault::Read),
            ReadError::Memory => Stop::Memory,
        }
    }
}

impl From<TextError> for Stop {
    ghost use Rattle.std.specs.Prelude.{◌≡◌};
    ghost use Rattle.gp_top.specs.kept.Steps.{stop_of_text};

    ghost from_gives = { λ error made. made ≡ stop_of_text error };

    fn from(error: TextError) -> Stop {
        match error {
            TextError::Refused { line, cause } => {
                let cause = cause.number();
                Stop::Fault(Fault::Line { line, cause })
            }
            TextError::Memory => Stop::Memory,
        }
    }
}

impl From<WireError> for Stop {
    ghost use Rattle.std.specs.Prelude.{◌≡◌};
    ghost use Rattle.gp_top.specs.kept.Steps.{stop_of_profile};

    ghost from_gives = { λ error made. made ≡ stop_of_profile error };

    fn from(error: WireError) -> Stop {
        match error {
            WireError::Refused { at, cause } => {
                let cause = cause.number();
                Stop::Fault(Fault::At { at, cause })
            }
            WireError::Memory => Stop::Memory,
        }
    }
}

/// The exit status of a fault.
pub(crate) fn exit_of(what: &Fault) -> u8
    ensures { result ≡ definition.exit_of what.now }
{
    match *what {
        Fault::Usage { .. } => USAGE,
        Fault::Line { .. } | Fault::At { .. } | Fault::Long => REFUSED,
        Fault::Read => READ_FAULT,
    }
}
