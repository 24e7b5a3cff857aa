ghost use Rattle.std.specs.Prelude.{◌≡◌, map};
ghost use Rattle.gp_words.specs.Table.{takes, setting_among, setting_of};
ghost use Rattle.gp_words.specs.kept.Rows.{option_row};

use crate::command::Command;
use crate::setting::Setting;

/// A row of the table: an option that can be given.
#[derive(Clone, Copy)]
struct Row {
    /// The option's word.
    word: &'static str,
    /// What it sets.
    setting: Setting,
    /// Whether `run` takes it. `sim` and `gen` take each.
    in_run: bool,
}

// The options that can be given.
const TABLE: [Row; 12] = [
    Row {
        word: "--workers",
        setting: Setting::Workers,
        in_run: true,
    },
    Row {
        word: "--at",
        setting: Setting::At,
        in_run: true,
    },
    Row {
        word: "--room",
        setting: Setting::Room,
        in_run: true,
    },
    Row {
        word: "--hz",
        setting: Setting::Hz,
        in_run: true,
    },
    Row {
        word: "--block",
        setting: Setting::Block,
        in_run: true,
    },
    Row {
        word: "--mutex",
        setting: Setting::Mutex,
        in_run: true,
    },
    Row {
        word: "--seed",
        setting: Setting::Seed,
        in_run: true,
    },
    Row {
        word: "--cells",
        setting: Setting::Cells,
        in_run: true,
    },
    Row {
        word: "--entries",
        setting: Setting::Entries,
        in_run: true,
    },
    Row {
        word: "--ring",
        setting: Setting::Ring,
        in_run: true,
    },
    Row {
        word: "--tags",
        setting: Setting::Tags,
        in_run: true,
    },
    Row {
        word: "--picks",
        setting: Setting::Picks,
        in_run: false,
    },
];

// Whether a command takes the option of a row.
fn takes(command: Command, row: &Row) -> bool
    ensures { result ≡ takes command (option_row row.now) }
{
    match command {
        Command::Run => row.in_run,
        Command::Sim | Command::Gen => true,
    }
}

// What the option of a word sets, among those of rows that a command takes.
fn setting_among(rows: &[Row], command: Command, word: &str) -> Option<Setting>
    ensures { result ≡ setting_among (map option_row rows.now) command word.now }
{
    for row in rows {
        if row.word == word && takes(command, row) {
            return Some(row.setting);
        }
    }
    None
}

/// What the option of a word sets, where the command takes it.
pub(crate) fn setting_of(command: Command, word: &str) -> Option<Setting>
    ensures { result ≡ setting_of command word.now }
{
    setting_among(&TABLE, command, word)
}
