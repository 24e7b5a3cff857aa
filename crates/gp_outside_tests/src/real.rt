//! The real source, store and output, on files that are written here.
use crate::memory::counting;
use gp_cases::{Page, Unanswered};
use gp_io::{FileSource, FolderStore, Sink, StandardOutput, Store, read_all};
use std::{fs, io};

// A file is read as it was written, and one that isn't there is a fault.
fn read_file(rt: &HostRuntime, page: &mut Page) -> Result<(), Unanswered> {
    let alloc = rt.alloc();
    let path = "gp_io_source.txt";
    let held = counting(alloc, 5000)?;
    fs::write(rt, path, held.as_slice())?;
    let mut source = FileSource::new(rt, path);
    let content = read_all(alloc, &mut source, 5000);
    fs::remove_file(rt, path)?;
    let same = content.is_ok_and(|content| content.as_slice() == held.as_slice());
    page.debug("\na file is read as it was written: ", &same)?;
    let mut missing = FileSource::new(rt, path);
    let fault = read_all(alloc, &mut missing, 5000).is_err();
    page.debug("\none that isn't there is a fault: ", &fault)?;
    Ok(())
}

fn prepare(rt: &HostRuntime, folder: &str) -> io::Result<()> {
    let _ = fs::remove_dir_all(rt, folder);
    fs::create_dir(rt, folder)?;
    fs::create_dir(rt, "gp_io_folder/taken")?;
    fs::write(rt, "gp_io_folder/a.0.tmp", "of another program")
}

// The file, the folder and the other program's file stand in the folder behind the puts.
fn show(rt: &HostRuntime, page: &mut Page, folder: &str) -> Result<(), Unanswered> {
    let text = fs::read_to_string(rt, "gp_io_folder/a")?;
    page.line(text.as_str())?;
    let other = fs::read_to_string(rt, "gp_io_folder/a.0.tmp")?;
    page.line(other.as_str())?;
    page.number("\nentries: ", fs::read_dir(rt, folder)?.count() as u64)?;
    fs::remove_dir_all(rt, folder)?;
    Ok(())
}

// A folder holds each file whole.
fn put_files(rt: &HostRuntime, page: &mut Page) -> Result<(), Unanswered> {
    let folder = "gp_io_folder";
    prepare(rt, folder)?;
    let mut store = FolderStore::new(rt, rt.alloc());
    let first = store.put("gp_io_folder/a", "a first text".as_bytes());
    page.debug("\na put: ", &first)?;
    let again = store.put("gp_io_folder/a", "second".as_bytes());
    page.debug("\na second one: ", &again)?;
    let over = store.put("gp_io_folder/taken", "not over a folder".as_bytes());
    page.debug("\none over a folder: ", &over)?;
    let nowhere = store.put("gp_io_folder/no/a", "not without a folder".as_bytes());
    page.debug("\none without a folder: ", &nowhere)?;
    show(rt, page, folder)
}

/// Prints what they do.
pub fn outside(rt: &HostRuntime) -> Result<(), Unanswered> {
    let mut page = Page::new(rt.alloc());
    read_file(rt, &mut page)?;
    put_files(rt, &mut page)?;
    let mut output = StandardOutput::new(rt);
    let written = output.write("standard output\n".as_bytes());
    page.debug("\nwritten: ", &written)?;
    rt.println(page.as_str())?;
    Ok(())
}
