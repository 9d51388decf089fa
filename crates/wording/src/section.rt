// A section of a listing.
use std::fmt;

/// A title, and below it the lines, or `none`.
#[derive(Drop)]
pub struct Section<L: Drop> {
    pub title: &'static str,
    pub lines: Option<L>,
}

impl<L: fmt::Display + Drop> fmt::Display for Section<L> {
    fn fmt<W: fmt::Write>(&self, f: &mut fmt::Formatter<W>) -> fmt::Result {
        let title = self.title;
        write!(f, "{title}:\n")?;
        match &self.lines {
            Some(lines) => lines.fmt(f),
            None => f.write_str("  none\n"),
        }
    }
}
