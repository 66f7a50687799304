//! A line of a theme.

/// A line of a theme, with its number from 1 on and the lines behind it.
#[derive(Clone, Copy)]
pub(crate) struct Line<'a> {
    pub(crate) text: &'a str,
    pub(crate) number: usize,
    pub(crate) behind: &'a str,
}

impl<'a> Line<'a> {
    /// What stands before the first line of a text.
    pub(crate) fn before(text: &'a str) -> Line<'a> {
        Line {
            text: "",
            number: 0,
            behind: text,
        }
    }

    /// The next line.
    pub(crate) fn next(self) -> Line<'a> {
        let (text, behind) = self.behind.split_once('\n').unwrap_or((self.behind, ""));
        Line {
            text,
            number: self.number.saturating_add(1),
            behind,
        }
    }
}
