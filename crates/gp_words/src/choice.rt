use crate::setting::Setting;
use gp_isa::Sequence;
use gp_journal::{Picks, Request};

/// The value of an option.
#[derive(Drop)]
pub(crate) enum Value {
    Number { number: u64 },
    Instant { request: Request },
    List { picks: Picks },
}

/// An option: what it sets, and the value.
#[derive(Drop)]
pub(crate) struct Choice {
    pub setting: Setting,
    pub value: Value,
}

/// Options in the order of their words.
pub(crate) type Choices = Sequence<Choice>;
