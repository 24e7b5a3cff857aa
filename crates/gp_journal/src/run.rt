ghost use Rattle.std.specs.Prelude.{[]};

use std::marker::Brand;

/// Names one run, and with it its program and its options. Whoever has two values of one run knows that they are of
/// the same program and the same options.
pub trait Run {
    ghost use Rattle.gp_isa.specs.declared.parts.Parts.{Parts};
    ghost use Rattle.gp_journal.specs.declared.settings.Settings.{Settings};

    /// The program that is run.
    ghost program: { Parts };

    /// Its options.
    ghost settings: { Settings };
}

impl Run for Brand {
    ghost use Rattle.gp_journal.specs.Named.{no_program, no_settings};

    ghost program = { no_program };

    ghost settings = { no_settings };
}
