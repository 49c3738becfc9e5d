// The text of a file of rows: blocks of lines with an empty line between them, each a row or comments alone.

/// The mark in front of each line of a row but its name.
const INDENT: &str = "    ";

/// The kind of a line of a block.
#[derive(Clone, Copy, Debug, PartialEq, Eq)]
pub enum RowLine<'a> {
    /// A comment, or nothing.
    Skipped,
    /// The name of the row.
    Name(&'a str),
    /// A line of the row.
    Text(&'a str),
}

/// The blocks of a file.
pub fn blocks_of(text: &str) -> std::str::Split<'_, &'static str> {
    text.split("\n\n")
}

/// Reads a line of a block.
pub fn line_of(line: &str) -> RowLine<'_> {
    let Some(text) = line.strip_prefix(INDENT) else {
        if line.is_empty() || line.starts_with("#") {
            return RowLine::Skipped;
        }
        return RowLine::Name(line);
    };
    if text.starts_with("#") {
        return RowLine::Skipped;
    }
    RowLine::Text(text)
}
