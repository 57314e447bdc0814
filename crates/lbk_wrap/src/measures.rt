//! What a grapheme cluster measures.

ghost use Rattle.std.specs.Prelude.{◌≡◌, ◌+◌, ◌*◌, ◌<◌, ◌≤◌, ◌^◌, true, length};
ghost use Rattle.lbk_wrap.specs.Columns.{after, ends_line, is_blank, is_blank_scalar, is_line_end, is_soft_hyphen, is_tab};

use unicode_width::UnicodeWidthStr;

/// Whether a line must end after a scalar (UAX #14, rules 4 and 5).
#[tactic(auto, unfolding(crate::specs::Columns::ends_line))]
fn ends_line(c: char) -> bool
    ensures { result ≡ ends_line c }
{
    matches!(c, '\n'..='\r' | '\u{85}' | '\u{2028}'..='\u{2029}')
}

/// Whether a scalar is a line end, or a space at which a line may end.
#[tactic(auto, unfolding(crate::specs::Columns::is_blank_scalar))]
fn is_blank_scalar(c: char) -> bool
    ensures { result ≡ is_blank_scalar c }
{
    ends_line(c)
        || matches!(
            c,
            '\t' | ' ' | '\u{1680}' | '\u{2000}'..='\u{2006}' | '\u{2008}'..='\u{200A}' | '\u{205F}' | '\u{3000}'
        )
}

/// Whether a cluster is of blanks alone.
#[tactic(auto, unfolding(crate::specs::Columns::is_blank))]
pub(crate) fn is_blank(cluster: &str) -> bool
    ensures { result ≡ is_blank cluster.now }
{
    cluster.chars().all(|c| is_blank_scalar(c))
}

/// Whether a cluster is a soft hyphen.
#[tactic(auto, unfolding(crate::specs::Columns::is_soft_hyphen))]
pub(crate) fn is_soft_hyphen(cluster: &str) -> bool
    ensures { result ≡ is_soft_hyphen cluster.now }
{
    cluster == "\u{AD}"
}

/// Whether a cluster is a tab.
#[tactic(auto, unfolding(crate::specs::Columns::is_tab))]
fn is_tab(cluster: &str) -> bool
    ensures is { result ≡ is_tab cluster.now }
    ensures len { result ≡ true → length cluster.now ≡ 1 }
{
    cluster == "\t"
}

/// Whether a cluster is a line end.
#[tactic(auto, unfolding(crate::specs::Columns::is_line_end))]
fn is_line_end(cluster: &str) -> bool
    ensures { result ≡ is_line_end cluster.now }
{
    cluster.chars().all(|c| ends_line(c))
}

/// The column after a cluster that begins in this one.
#[tactic(auto, unfolding(crate::specs::Columns::after))]
pub(crate) fn after(tab: usize, column: usize, cluster: &str) -> usize
    requires tab { (0 < tab) × (tab ≤ 255) }
    requires room { (column < 2 ^ 60) × (length cluster.now < 2 ^ 32) }
    ensures column { result ≡ after tab column cluster.now }
    ensures few { result ≤ column + 256 * length cluster.now }
{
    if is_tab(cluster) {
        (column / tab + 1) * tab
    } else if is_line_end(cluster) {
        column
    } else {
        column + cluster.width()
    }
}
