ghost use Rattle.std.specs.Prelude.{◌≡◌, ◌+◌, ◌<◌, ◌++◌, true, length, take, drop, position, slice_index, string_bytes, IfSome, OnOk};
ghost use Rattle.std.specs.Char.{digit_char};
ghost use Rattle.gp_report.specs.Dump.{is_marked, escape, escaped};

use gp_isa::Memory;

// Whether a byte is escaped.
fn is_marked(b: u8) -> bool
    ensures { result ≡ is_marked b }
{
    b <= b' '
        || b == 0x7f
        || b == b'\\'
        || b == b'#'
        || b == b'='
        || b == b':'
        || b == b'|'
        || b == b'@'
}

// The place of the first byte that is escaped.
fn marked_place(text: &str) -> Option<usize>
    ensures place { result ≡ position is_marked text.now }
    ensures within { IfSome result (λ at. at < length text.now) }
    ensures marked { IfSome result (λ at. is_marked (slice_index text.now at) ≡ true) }
{
    text.as_bytes().iter().position(|b| is_marked(*b))
}

// What stands before a byte of a text, that byte, and what stands behind it.
fn cut_at(text: &str, at: usize) -> (&str, u8, &str)
    requires within { at < length text.now }
    requires ascii { slice_index text.now at < 128 }
    ensures before { result.0.now ≡ take at text.now }
    ensures byte { result.1 ≡ slice_index text.now at }
    ensures behind { result.2.now ≡ drop (at + 1) text.now }
{
    (&text[..at], text.as_bytes()[at], &text[at + 1..])
}

fn digit(d: u8) -> char
    requires { d < 16 }
    ensures { result ≡ digit_char d }
{
    char::from(if d < 10 { b'0' + d } else { b'a' - 10 + d })
}

fn push_escape(out: &mut String, b: u8) -> Result<(), Memory>
    ensures { OnOk result (string_bytes out.new ≡ string_bytes out.old ++ escape b) }
{
    out.push_str("\\x")?;
    out.push(digit(b / 16))?;
    out.push(digit(b % 16))?;
    Ok(())
}

/// Appends a text with its escapes. The time grows with its length.
pub(crate) fn push_escaped(out: &mut String, text: &str) -> Result<(), Memory>
    ensures { OnOk result (string_bytes out.new ≡ string_bytes out.old ++ escaped text.now) }
{
    let mut rest = text;
    while let Some(at) = marked_place(rest) {
        let (before, byte, behind) = cut_at(rest, at);
        out.push_str(before)?;
        push_escape(out, byte)?;
        rest = behind;
    }
    out.push_str(rest)?;
    Ok(())
}
