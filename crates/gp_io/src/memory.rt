mod plan;
mod sink;
mod source;
mod store;

pub use plan::Calls;
pub use sink::MemSink;
pub use source::MemSource;
pub use store::{Files, MemStore};
