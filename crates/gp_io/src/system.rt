mod file_source;
mod folder;
mod folder_store;
mod put_whole;
mod standard_output;

pub use file_source::FileSource;
pub use folder_store::FolderStore;
pub use standard_output::StandardOutput;
