ghost use Rattle.std.specs.Prelude.{◌≡◌, IfOk};
ghost use Rattle.gp_journal.specs.Settings.{AreInRange};
ghost use Rattle.gp_words.specs.Words.{texts};
ghost use Rattle.gp_words.specs.Read.{Reads};
ghost use Rattle.gp_words.specs.kept.Sound.{IsSound};
ghost use Rattle.gp_words.specs.Settings.{number_or, instants_of, list_of, settings_of, settings_said};

use crate::choice::{Choice, Choices, Value};
use crate::command::Command;
use crate::error::WordError;
use crate::options::options;
use crate::setting::Setting;
use gp_isa::Memory;
use gp_journal::{Picks, Requests, Settings};
use std::alloc::Global;

/// The number that a setting was given, else the usual one.
fn number(taken: &[Choice], setting: Setting, usual: u64) -> u64
    ensures { result ≡ number_or usual setting taken.now }
{
    for choice in taken {
        if let Value::Number { number } = choice.value {
            if choice.setting.is(setting) {
                return number;
            }
        }
    }
    usual
}

/// The instants given, in their order.
fn instants(alloc: Global, taken: &[Choice]) -> Result<Requests, Memory>
    ensures { IfOk result (λ at. at ≡ instants_of taken.now) }
{
    let mut at = Requests::new(alloc);
    for choice in taken {
        if let Value::Instant { request } = choice.value {
            at.push(request)?;
        }
    }
    Ok(at)
}

/// The list given, without a copy.
fn list(alloc: Global, taken: Choices) -> Picks
    ensures { result ≡ list_of taken }
{
    for choice in taken.into_vec() {
        if let Value::List { picks } = choice.value {
            return picks;
        }
    }
    Picks::new(alloc)
}

/// The settings of the options taken, with the usual ones where nothing was chosen.
fn settings(alloc: Global, taken: Choices) -> Result<Settings, Memory>
    requires { IsSound taken }
    ensures settings { IfOk result (λ settings. settings ≡ settings_of taken) }
    ensures range { IfOk result AreInRange }
{
    let choices = taken.as_slice();
    let at = instants(alloc, choices)?;
    let workers = number(choices, Setting::Workers, 2) as u32;
    let cells = number(choices, Setting::Cells, 1_024);
    let room = number(choices, Setting::Room, cells) as u32;
    let hz = number(choices, Setting::Hz, 100) as u32;
    let block = number(choices, Setting::Block, 0) as u32;
    let mutex = number(choices, Setting::Mutex, 0) as u32;
    let seed = number(choices, Setting::Seed, 42);
    let cells = cells as u32;
    let entries = number(choices, Setting::Entries, 262_144) as u32;
    let ring = number(choices, Setting::Ring, 131_072) as u32;
    let tags = number(choices, Setting::Tags, 16_384) as u32;
    Ok(Settings {
        workers,
        at,
        room,
        hz,
        block,
        mutex,
        seed,
        cells,
        entries,
        ring,
        tags,
        picks: list(alloc, taken),
    })
}

/// The settings that the option words of a command say.
pub(crate) fn settings_said(
    alloc: Global,
    command: Command,
    words: &[String],
) -> Result<Settings, WordError>
    ensures said { Reads result (settings_said command (texts words.now)) }
    ensures range { IfOk result AreInRange }
{
    let taken = options(alloc, command, words)?;
    Ok(settings(alloc, taken)?)
}
