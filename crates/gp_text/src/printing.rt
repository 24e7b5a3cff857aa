//! A program as text: it is gone through in its own order, and each of its parts is put on its line.
ghost use Rattle.std.specs.Prelude.{◌≡◌, ◌++◌, ◌∷◌, [], ℕ, List, suc, codes, decimal, map, string_bytes, OnOk, IfOk};
ghost use Rattle.std.specs.List.{flat_map};
ghost use Rattle.gp_isa.specs.Statement.{action};
ghost use Rattle.gp_text.specs.Text.{function_name, channel_name, mutex_name, set_name, pair_text, item, action_items, body_items, function_items, channel_item, mutex_item, set_item, items_of, text_of};
ghost use Rattle.gp_text.specs.Page.{texts, PutsAll};
ghost use Rattle.gp_text.specs.Reading.{Gives, program_of};

use crate::page::{Page, joined, put};
use gp_isa::{Function, LabelSet, Memory, Parts, Program, Stmt, Text, What, limits};
use std::alloc::Global;

fn function_name(parts: &Parts, f: u32) -> &str
    ensures { result.now ≡ function_name parts.now f }
{
    match parts.functions.get(f as usize) {
        Some(function) => function.name.as_str(),
        None => "",
    }
}

fn channel_name(parts: &Parts, c: u32) -> &str
    ensures { result.now ≡ channel_name parts.now c }
{
    match parts.channels.get(c as usize) {
        Some(channel) => channel.name.as_str(),
        None => "",
    }
}

fn mutex_name(parts: &Parts, m: u32) -> &str
    ensures { result.now ≡ mutex_name parts.now m }
{
    match parts.mutexes.get(m as usize) {
        Some(mutex) => mutex.name.as_str(),
        None => "",
    }
}

fn set_name(parts: &Parts, s: u8) -> &str
    ensures { result.now ≡ set_name parts.now s }
{
    if s == 0 {
        return "";
    }
    match parts.labels.get(s as usize - 1) {
        Some(set) => set.name.as_str(),
        None => "",
    }
}

// Puts words and a name behind them on a line.
fn put_name(
    alloc: Global,
    page: &mut Page,
    line: u32,
    words: &str,
    name: &str,
) -> Result<(), Memory>
    ensures { OnOk result (PutsAll (texts page.old) (texts page.new) (item line (words.now ++ name.now) ∷ [])) }
{
    let text = format!(in alloc; "{words}{name}")?;
    put(alloc, page, line, text.as_str())
}

// Puts statements on their lines, in which loops stand at most `deep` inside each other.
#[cycle(print)]
fn put_body(
    alloc: Global,
    page: &mut Page,
    parts: &Parts,
    body: &[Stmt],
    deep: u8,
) -> Result<(), Memory>
    ensures { OnOk result (PutsAll (texts page.old) (texts page.new) (body_items parts.now (suc deep) body.now)) }
{
    for statement in body {
        put_action(alloc, page, parts, statement.line, &statement.what, deep)?;
    }
    Ok(())
}

// Puts what a statement at a line does on its lines.
#[cycle(print)]
fn put_action(
    alloc: Global,
    page: &mut Page,
    parts: &Parts,
    line: u32,
    what: &What,
    deep: u8,
) -> Result<(), Memory>
    ensures { OnOk result (PutsAll (texts page.old) (texts page.new)
        (action_items parts.now (body_items parts.now deep) line (action what.now))) }
{
    match what {
        What::Work { n } => {
            let n = *n;
            let text = format!(in alloc; "work {n}")?;
            put(alloc, page, line, text.as_str())
        }
        What::Call { f } => put_name(alloc, page, line, "call ", function_name(parts, *f)),
        What::Loop { n, body, end } => {
            let n = *n;
            let text = format!(in alloc; "loop {n} {{")?;
            put(alloc, page, line, text.as_str())?;
            if deep > 0 {
                put_body(alloc, page, parts, body.get().as_slice(), deep - 1)?;
            }
            put(alloc, page, *end, "}")
        }
        What::Send { c } => put_name(alloc, page, line, "send ", channel_name(parts, *c)),
        What::Recv { c } => put_name(alloc, page, line, "recv ", channel_name(parts, *c)),
        What::Lock { m } => put_name(alloc, page, line, "lock ", mutex_name(parts, *m)),
        What::Unlock { m } => put_name(alloc, page, line, "unlock ", mutex_name(parts, *m)),
        What::Spawn { f } => put_name(alloc, page, line, "spawn ", function_name(parts, *f)),
        What::Labels { s } => put_name(alloc, page, line, "labels ", set_name(parts, *s)),
    }
}

fn put_function(
    alloc: Global,
    page: &mut Page,
    parts: &Parts,
    function: &Function,
) -> Result<(), Memory>
    ensures { OnOk result (PutsAll (texts page.old) (texts page.new) (function_items parts.now function.now)) }
{
    let name = function.name.as_str();
    let text = format!(in alloc; "func {name} {{")?;
    put(alloc, page, function.line, text.as_str())?;
    put_body(alloc, page, parts, function.body.as_slice(), limits::LOOPS)?;
    put(alloc, page, function.end, "}")
}

fn put_functions(alloc: Global, page: &mut Page, parts: &Parts) -> Result<(), Memory>
    ensures { OnOk result (PutsAll (texts page.old) (texts page.new) (flat_map (function_items parts.now) parts.now.functions)) }
{
    for function in parts.functions.as_slice() {
        put_function(alloc, page, parts, function)?;
    }
    Ok(())
}

fn put_channels(alloc: Global, page: &mut Page, parts: &Parts) -> Result<(), Memory>
    ensures { OnOk result (PutsAll (texts page.old) (texts page.new) (map channel_item parts.now.channels)) }
{
    for channel in parts.channels.as_slice() {
        let name = channel.name.as_str();
        let capacity = channel.capacity;
        let text = format!(in alloc; "chan {name} {capacity}")?;
        put(alloc, page, channel.line, text.as_str())?;
    }
    Ok(())
}

fn put_mutexes(alloc: Global, page: &mut Page, parts: &Parts) -> Result<(), Memory>
    ensures { OnOk result (PutsAll (texts page.old) (texts page.new) (map mutex_item parts.now.mutexes)) }
{
    for mutex in parts.mutexes.as_slice() {
        put_name(alloc, page, mutex.line, "mutex ", mutex.name.as_str())?;
    }
    Ok(())
}

// The text of a label set's line.
fn set_text(alloc: Global, set: &LabelSet) -> Result<String, Memory>
    ensures { IfOk result (λ text. string_bytes text ≡ (set_item set.now).text) }
{
    let mut text = String::from_str(alloc, "labels ")?;
    text.push_str(set.name.as_str())?;
    for pair in set.pairs.as_slice() {
        text.push_str(" ")?;
        text.push_str(pair.key.as_str())?;
        text.push_str("=")?;
        text.push_str(pair.value.as_str())?;
    }
    Ok(text)
}

fn put_sets(alloc: Global, page: &mut Page, parts: &Parts) -> Result<(), Memory>
    ensures { OnOk result (PutsAll (texts page.old) (texts page.new) (map set_item parts.now.labels)) }
{
    for set in parts.labels.as_slice() {
        let text = set_text(alloc, set)?;
        put(alloc, page, set.line, text.as_str())?;
    }
    Ok(())
}

/// The text of a program: each declaration, statement and closing brace on its own line, without indentation, one blank
/// between words, the pairs of a label set in the order of their keys, numbers without leading zeros; the lines between are
/// empty, and each line up to the last one used ends with an LF. Comments aren't kept.
///
/// Memory is taken for the lines and for the text. Its time grows with both.
///
/// Where the program was read from a file, reading the text gives the very same program again.
pub fn print(alloc: Global, program: &Program) -> Result<Text, Memory>
    ensures text { IfOk result (λ text. text ≡ text_of program.now) }
    ensures again { IfOk result (λ text. (bytes : List ℕ) → program_of bytes ≡ Gives program.now → program_of text ≡ Gives program.now) }
{
    let parts = program.parts();
    let mut page: Page = Vec::new(alloc);
    put_functions(alloc, &mut page, parts)?;
    put_channels(alloc, &mut page, parts)?;
    put_mutexes(alloc, &mut page, parts)?;
    put_sets(alloc, &mut page, parts)?;
    joined(alloc, page.as_slice())
}
