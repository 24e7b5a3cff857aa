use crate::carried::Carried;

/// What came of bringing a body into its cell.
#[derive(Drop)]
pub enum Bear {
    /// The body is at home.
    Home,
    /// The cell isn't empty: the exchange found this word. The body comes back.
    Taken { word: u64, body: Carried },
}
