//! How lines are made.

ghost use Rattle.std.specs.Prelude.{◌≡◌, ◌<◌, ◌≤◌, false};
ghost use Rattle.lbk_wrap.specs.Layouts.{tab_of};

/// The columns of a line, the distance of its tab stops, and what becomes of a segment that no line has room for.
///
/// ```rust
/// let narrow = Layout::new(8).tab(4).whole(true);
/// ```
#[derive(Clone, Copy, Debug)]
pub struct Layout {
    columns: usize,
    // 0 stands for 8.
    tab: u8,
    whole: bool,
}

impl Layout {
    /// Lines of at most so many columns, with a tab stop at each multiple of 8. A segment that no line has room for is
    /// cut.
    pub fn new(columns: usize) -> Layout
        ensures { result ≡ record { columns = columns; tab = 0; whole = false } }
    {
        Layout {
            columns,
            tab: 0,
            whole: false,
        }
    }

    /// The same with a tab stop at each multiple of `tab`, and of 8 if that is 0.
    pub fn tab(self, tab: u8) -> Layout
        ensures { result ≡ record self { tab = tab } }
    {
        Layout { tab, ..self }
    }

    /// The same where a segment that no line has room for is cut, or left whole and too wide.
    pub fn whole(self, whole: bool) -> Layout
        ensures { result ≡ record self { whole = whole } }
    {
        Layout { whole, ..self }
    }

    /// The columns of a line.
    pub(crate) fn columns(&self) -> usize
        ensures { result ≡ self.now.columns }
    {
        self.columns
    }

    /// Whether a segment that no line has room for is left whole.
    pub(crate) fn is_whole(&self) -> bool
        ensures { result ≡ self.now.whole }
    {
        self.whole
    }

    /// The distance of the tab stops.
    pub(crate) fn tab_size(&self) -> usize
        ensures size { result ≡ tab_of self.now }
        ensures some { 0 < result }
        ensures few { result ≤ 255 }
    {
        if self.tab == 0 { 8 } else { self.tab as usize }
    }
}
