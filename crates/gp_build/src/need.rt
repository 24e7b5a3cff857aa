ghost use Rattle.std.specs.Prelude.{◌≡◌};
ghost use Rattle.std.specs.Cmp.{partial_equiv_from_equiv};
ghost use Rattle.gp_build.specs.Numbers as numbers;
ghost use Rattle.gp_build.specs.Numbers.{value_need, text_of, same_need};
ghost use Rattle.gp_build.specs.laws.Alike.{need_input, same_need_equiv, need_input-same};

use std::hash::{Hash, Hasher};
use std::marker::Model;

/// What has a number in the string table: a text, or the empty value of a label, which isn't the empty text.
#[derive(Drop)]
pub(crate) struct Need<'a> {
    /// None at the empty value of a label.
    text: Option<&'a str>,
}

impl<'a> Model for Need<'a> {
    ghost use Rattle.std.specs.Option.{option_map_or};
    ghost use Rattle.gp_build.specs.Numbers.{Need as Needed, text as a_text, no_value};

    ghost Value = { Needed };

    ghost view = { λ n. option_map_or (λ t. a_text t.now) n.text no_value };
}

impl<'a> Need<'a> {
    pub(crate) fn text(text: &'a str) -> Need<'a>
        ensures { result ≡ numbers.text text.now }
    {
        Need { text: Some(text) }
    }

    /// The value of a label.
    pub(crate) fn value(value: &'a str) -> Need<'a>
        ensures { result ≡ value_need value.now }
    {
        Need {
            text: if value.is_empty() { None } else { Some(value) },
        }
    }

    pub(crate) fn as_str(&self) -> &'a str
        ensures { result.now ≡ text_of self.now }
    {
        self.text.unwrap_or("")
    }
}

impl<'a> PartialEq for Need<'a> {
    ghost eq = { same_need };

    ghost laws = { partial_equiv_from_equiv same_need_equiv };

    fn eq(&self, other: &Need<'a>) -> bool {
        self.text == other.text
    }
}

impl<'a> Eq for Need<'a> {
    ghost laws = { same_need_equiv };
}

impl<'a> Hash for Need<'a> {
    ghost hash_input = { need_input };

    ghost respects_eq = { need_input-same };

    fn hash<H: Hasher>(&self, state: &mut H) {
        self.as_str().hash(state);
    }
}
