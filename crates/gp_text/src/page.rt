//! What stands on lines, from line 1 on, as a list of texts.
ghost use Rattle.std.specs.Prelude.{◌≡◌, ◌<◌, ◌≤◌, ◌++◌, ◌∷◌, [], ℕ, length, map, slice_index_or, string_bytes, OnOk, IfOk};
ghost use Rattle.std.specs.List.{flat_map};
ghost use Rattle.gp_text.specs.Text.{item};
ghost use Rattle.gp_text.specs.Page.{texts, PutsAll, IsReaching};

use gp_isa::{Memory, Text};
use std::alloc::Global;

/// The texts of lines, that of line 1 first.
pub(crate) type Page = Vec<String>;

// Has so many lines at least, the further ones empty.
fn reach(alloc: Global, page: &mut Page, count: usize) -> Result<(), Memory>
    ensures reaching { OnOk result (IsReaching (texts page.old) (texts page.new) count) }
    ensures reached { OnOk result (count ≤ length (texts page.new)) }
{
    while page.len() < count {
        page.push(String::new(alloc))?;
    }
    Ok(())
}

// Puts a text at the end of a line, lines counted from 0.
fn append(page: &mut Page, at: usize, text: &str) -> Result<(), Memory>
    requires { at < length (texts page.old) }
    ensures size { OnOk result (length (texts page.new) ≡ length (texts page.old)) }
    ensures here { OnOk result (slice_index_or (texts page.new) at [] ≡ slice_index_or (texts page.old) at [] ++ text.now) }
    ensures there { OnOk result ((n : ℕ) → (n ≡ at → ⊥) → slice_index_or (texts page.new) n [] ≡ slice_index_or (texts page.old) n []) }
{
    page[at].push_str(text)?;
    Ok(())
}

/// Puts a text on a line, behind what stands there. There is no line 0.
pub(crate) fn put(alloc: Global, page: &mut Page, line: u32, text: &str) -> Result<(), Memory>
    ensures { OnOk result (PutsAll (texts page.old) (texts page.new) (item line text.now ∷ [])) }
{
    if line == 0 {
        return Ok(());
    }
    reach(alloc, page, line as usize)?;
    append(page, line as usize - 1, text)
}

/// The lines one after another, an LF behind each.
pub(crate) fn joined(alloc: Global, page: &[String]) -> Result<Text, Memory>
    ensures { IfOk result (λ text. text ≡ flat_map (λ line. line ++ 10 ∷ []) (map string_bytes page.now)) }
{
    let mut text = String::new(alloc);
    for line in page {
        text.push_str(line.as_str())?;
        text.push_str("\n")?;
    }
    Ok(Text::from_string(text))
}
