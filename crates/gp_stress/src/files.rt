//! Whether the files that were put are those that have to be.
use gp_cases::{Page, Unanswered};
use gp_io::Files;
use gp_isa::Content;
use gp_telling::tell_meaning;
use std::alloc::Global;

/// A file that has to be put: its name, and what it means as text.
#[derive(Drop)]
pub struct Wanted {
    name: Page,
    text: Page,
}

/// The files that have to be put, in their order.
#[derive(Drop)]
pub struct WantedFiles {
    all: Vec<Wanted>,
}

fn how_often(line: &str, text: &str) -> usize {
    text.split('\n').filter(|other| *other == line).count()
}

// Whether both have the same lines, each as often, in whatever order.
fn are_lines(text: &str, other: &str) -> bool {
    let mut all = text.split('\n').count() == other.split('\n').count();
    for line in text.split('\n') {
        all = all && how_often(line, text) == how_often(line, other);
    }
    all
}

// Whether a file means what a text says.
fn means(alloc: Global, file: &Content, text: &Page) -> Result<bool, Unanswered> {
    let mut page = Page::new(alloc);
    tell_meaning(alloc, &mut page, file, false)?;
    Ok(are_lines(page.as_str(), text.as_str()))
}

impl WantedFiles {
    pub fn new(alloc: Global) -> WantedFiles {
        WantedFiles {
            all: Vec::new(alloc),
        }
    }

    pub fn len(&self) -> usize {
        self.all.len()
    }

    /// One more.
    pub fn add(&mut self, alloc: Global, name: &str, text: Page) -> Result<(), Unanswered> {
        let mut page = Page::new(alloc);
        page.text(name)?;
        self.all.push(Wanted { name: page, text })?;
        Ok(())
    }

    /// One more, the goroutine profile of an epoch.
    pub fn add_epoch(&mut self, alloc: Global, epoch: u64, text: Page) -> Result<(), Unanswered> {
        let mut name = Page::new(alloc);
        name.number("goroutine.", epoch)?;
        name.text(".pb")?;
        self.add(alloc, name.as_str(), text)
    }

    /// Whether files are the first so many of these, and no more.
    pub fn are(&self, alloc: Global, files: &Files, count: usize) -> Result<bool, Unanswered> {
        let mut all = files.iter().count() == count && count <= self.all.len();
        for (file, wanted) in files.iter().zip(self.all.iter()) {
            let is_named = file.0.as_str() == wanted.name.as_str();
            all = means(alloc, &file.1, &wanted.text)? && is_named && all;
        }
        Ok(all)
    }
}
