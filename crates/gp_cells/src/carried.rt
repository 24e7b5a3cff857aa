use gp_stack::Body;
use gp_tally::Share;

/// A goroutine's body, with its share of the goroutines' book.
#[derive(Drop)]
pub struct Carried {
    pub body: Body,
    pub share: Share,
}
