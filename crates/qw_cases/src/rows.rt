//! A case in a line: `KIND INPUT => EXPECTED`.

/// A case.
#[derive(Clone, Copy)]
pub struct Row<'a> {
    /// The first word, which says what is done with the rest.
    pub kind: &'a str,
    /// What stands behind it, up to the last ` => `.
    pub input: &'a str,
    /// What stands behind that. A case is expected to come to this text.
    pub expected: &'a str,
}

/// The case of a line; none of a line that is empty or begins with `#`. A line without ` => ` is a case that nothing comes to.
pub fn row_of(line: &str) -> Option<Row<'_>> {
    if line.is_empty() || line.starts_with('#') {
        return None;
    }
    let (case, expected) = line.rsplit_once(" => ").unwrap_or((line, ""));
    let (kind, input) = case.split_once(' ').unwrap_or((case, ""));
    Some(Row {
        kind,
        input,
        expected,
    })
}
