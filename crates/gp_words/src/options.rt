ghost use Rattle.std.specs.Prelude.{◌≡◌, [], IfOk, string_bytes};
ghost use Rattle.std.specs.Option.{option_map};
ghost use Rattle.gp_words.specs.Words.{texts};
ghost use Rattle.gp_words.specs.Read.{Reads};
ghost use Rattle.gp_words.specs.declared.setting.Values.TheVariants.{Instants};
ghost use Rattle.gp_words.specs.Options.{value_of, times, choice_of_setting, choice_of, options_of};
ghost use Rattle.gp_words.specs.kept.Sound.{IsSound};

use crate::cause::{BAD_NUMBER, MISSING, TWICE, UNKNOWN_OPTION};
use crate::choice::{Choice, Choices, Value};
use crate::command::Command;
use crate::error::WordError;
use crate::number::{divisor, number};
use crate::picks::picks;
use crate::setting::{Setting, Values};
use crate::table::setting_of;
use gp_isa::{Memory, limits};
use gp_journal::Request;
use std::alloc::Global;

/// The instant of a word: a clock, or `end`.
fn instant(word: &str) -> Option<Value>
    ensures { result ≡ value_of Instants word.now }
{
    if word == "end" {
        return Some(Value::Instant {
            request: Request::End,
        });
    }
    let clock = number(word, 0, limits::INSTANT)?;
    Some(Value::Instant {
        request: Request::Clock { clock },
    })
}

/// The value of a word, where it's one of some values.
fn value(alloc: Global, values: Values, word: &str) -> Result<Option<Value>, Memory>
    ensures { IfOk result (λ value. value ≡ value_of values word.now) }
{
    match values {
        Values::Numbers { least, most } => {
            Ok(number(word, least, most).map(|number| Value::Number { number }))
        }
        Values::Divisors { whole } => {
            Ok(divisor(word, whole).map(|number| Value::Number { number }))
        }
        Values::Instants => Ok(instant(word)),
        Values::Lists => Ok(picks(alloc, word)?.map(|picks| Value::List { picks })),
    }
}

/// How often a setting was chosen.
fn times(taken: &[Choice], setting: Setting) -> usize
    ensures { result ≡ times setting taken.now }
{
    taken
        .iter()
        .filter(|choice| choice.setting.is(setting))
        .count()
}

/// The choice of a setting with the word at a place, where there is one.
fn choice_of_setting(
    alloc: Global,
    place: u32,
    setting: Setting,
    word: Option<&String>,
) -> Result<Choice, WordError>
    ensures { Reads result (choice_of_setting place setting (option_map (λ w. string_bytes w.now) word.entry)) }
{
    let Some(word) = word else {
        return Err(WordError::Usage {
            place,
            cause: MISSING,
        });
    };
    match value(alloc, setting.values(), word.as_str())? {
        Some(value) => Ok(Choice { setting, value }),
        None => Err(WordError::Usage {
            place,
            cause: BAD_NUMBER,
        }),
    }
}

/// The option of a word and the word behind it, where there is one, behind the options taken before.
fn choice(
    alloc: Global,
    command: Command,
    taken: &[Choice],
    word: &str,
    value_word: Option<&String>,
) -> Result<Choice, WordError>
    requires { IsSound taken.now }
    ensures { Reads result (choice_of command taken.now word.now (option_map (λ w. string_bytes w.now) value_word.entry)) }
{
    let place = command.first_option() + 2 * taken.len() as u32;
    let Some(setting) = setting_of(command, word) else {
        return Err(WordError::Usage {
            place,
            cause: UNKNOWN_OPTION,
        });
    };
    if times(taken, setting) >= setting.most_times() {
        return Err(WordError::Usage {
            place,
            cause: TWICE,
        });
    }
    choice_of_setting(alloc, place + 1, setting, value_word)
}

/// The options of a command's words, two words each, behind those that it takes first.
pub(crate) fn options(
    alloc: Global,
    command: Command,
    words: &[String],
) -> Result<Choices, WordError>
    ensures options { Reads result (options_of command [] (texts words.now)) }
    ensures sound { IfOk result IsSound }
{
    let mut taken = Choices::new(alloc);
    let mut rest = words.iter();
    while let Some(word) = rest.next() {
        let value_word = rest.next();
        let choice = choice(alloc, command, taken.as_slice(), word.as_str(), value_word)?;
        taken.push(choice)?;
    }
    Ok(taken)
}
