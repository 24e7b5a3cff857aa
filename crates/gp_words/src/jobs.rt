use gp_isa::Text;
use gp_journal::Settings;

/// What command words ask for.
#[derive(Debug, Drop)]
pub enum Job {
    /// A run of the program in the file on threads, with the settings.
    Run { file: Text, settings: Settings },
    /// A simulated run of the program in the file, with the settings.
    Sim { file: Text, settings: Settings },
    /// A simulated run of the generated program of two numbers, with the settings.
    Gen { n: u64, q: u32, settings: Settings },
    /// The text of the profile in the file.
    Dump { file: Text },
}
