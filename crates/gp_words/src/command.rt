ghost use Rattle.std.specs.Prelude.{◌≡◌};
ghost use Rattle.gp_words.specs.Options.{first_option};

/// A command that takes options.
#[derive(Clone, Copy)]
pub(crate) enum Command {
    Run,
    Sim,
    Gen,
}

impl Command {
    /// The place of its first option.
    pub fn first_option(self) -> u32
        ensures { result ≡ first_option self }
    {
        match self {
            Command::Run | Command::Sim => 2,
            Command::Gen => 3,
        }
    }
}
