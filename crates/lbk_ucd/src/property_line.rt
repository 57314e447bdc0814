//! The lines of a property file (UAX #44, section 4.2).

ghost use Rattle.std.specs.Prelude.{◌≡◌, ◌==◌, ◌+◌, ◌-◌, ◌≤◌, drop, length};
ghost use Rattle.std.specs.List.{prefix_len, suffix_len, position_or_len, before_first, after_first, list_all};
ghost use Rattle.std.specs.Option.{option_map};
ghost use Rattle.lbk_ucd.specs.PropertyLine.{is_space, is_name_byte, code_of, pair_of, range_of, name_of, entry_of};
ghost use Rattle.lbk_ucd.specs.PropertyLine.{default_of, meaning_of, trimmed, trimmed_start, without_return};
ghost use Rattle.lbk_ucd.specs.Shown.{shown_entry, shown_meaning, shown_name};

use memchr::memchr;

/// The code points from `first` to `last`, and the name of a value.
#[derive(Clone, Copy)]
pub(crate) struct Entry<'a> {
    pub(crate) first: u32,
    pub(crate) last: u32,
    pub(crate) name: &'a [u8],
}

/// The content of a line: nothing, a row that gives code points a value, or a default for code points without a row.
#[derive(Clone, Copy)]
pub(crate) enum Meaning<'a> {
    Nothing,
    Row(Entry<'a>),
    Default(Entry<'a>),
}

/// Parses a line without its LF (UAX #44, section 4.2), or returns `None` if the grammar does not allow it. `@missing`
/// lines are defaults in a file with defaults, and comments in others.
#[tactic(auto, unfolding(crate::specs::PropertyLine::meaning_of))]
pub(crate) fn meaning_of(line: &[u8], defaults: bool) -> Option<Meaning<'_>>
    ensures { option_map shown_meaning result ≡ meaning_of defaults line.now }
{
    let text = without_return(line);
    let content = before(text, b'#');
    if !is_blank(content) {
        return Some(Meaning::Row(entry_of(content, true)?));
    }
    if !defaults {
        return Some(Meaning::Nothing);
    }
    match default_of(after(text, b'#')) {
        Some(entry) => Some(Meaning::Default(entry)),
        None => Some(Meaning::Nothing),
    }
}

/// The entry of a default line, from the text after its first `#`.
#[tactic(auto, unfolding(crate::specs::PropertyLine::default_of))]
fn default_of(comment: &[u8]) -> Option<Entry<'_>>
    ensures { option_map shown_entry result ≡ default_of comment.now }
{
    let body = trimmed_start(comment).strip_prefix(b"@missing:")?;
    entry_of(before(body, b'#'), false)
}

/// A range, a semicolon and a name.
#[tactic(auto, unfolding(crate::specs::PropertyLine::entry_of))]
fn entry_of(bytes: &[u8], single: bool) -> Option<Entry<'_>>
    ensures { option_map shown_entry result ≡ entry_of single bytes.now }
{
    let place = place_of(bytes, b';');
    let (first, last) = range_of(trimmed(&bytes[..place]), single)?;
    let name = name_of(trimmed(behind(bytes, place)))?;
    Some(Entry { first, last, name })
}

/// The ends of `code..code`, or, if `single`, also of one code point.
#[tactic(auto, unfolding(crate::specs::PropertyLine::range_of))]
fn range_of(field: &[u8], single: bool) -> Option<(u32, u32)>
    ensures { result ≡ range_of single field.now }
{
    if single && !field.contains(&b'.') {
        let code = code_of(field)?;
        return Some((code, code));
    }
    pair_of(field)
}

/// The ends of `code..code`.
#[tactic(auto, unfolding(crate::specs::PropertyLine::pair_of))]
fn pair_of(field: &[u8]) -> Option<(u32, u32)>
    ensures { result ≡ pair_of field.now }
{
    let dots = place_of(field, b'.');
    let end = field[dots..].strip_prefix(b"..")?;
    let first = code_of(&field[..dots])?;
    let last = code_of(end)?;
    Some((first, last))
}

/// The number of four to six hex digits.
#[tactic(auto, unfolding(crate::specs::PropertyLine::code_of))]
fn code_of(digits: &[u8]) -> Option<u32>
    ensures { result ≡ code_of digits.now }
{
    if digits.len() < 4 || 6 < digits.len() {
        return None;
    }
    let mut code = 0;
    for digit in digits {
        code = 16 * code + char::from(*digit).to_digit(16)?;
    }
    Some(code)
}

/// A name, of one or more letters, digits and underscores.
#[tactic(auto, unfolding(crate::specs::PropertyLine::name_of))]
fn name_of(field: &[u8]) -> Option<&[u8]>
    ensures { option_map shown_name result ≡ name_of field.now }
{
    if field.is_empty() || !all_name_bytes(field) {
        return None;
    }
    Some(field)
}

/// Whether there is only white space.
fn is_blank(bytes: &[u8]) -> bool
    ensures { result ≡ list_all is_space bytes.now }
{
    bytes.iter().all(|byte| is_space(*byte))
}

fn all_name_bytes(bytes: &[u8]) -> bool
    ensures { result ≡ list_all is_name_byte bytes.now }
{
    bytes.iter().all(|byte| is_name_byte(*byte))
}

fn is_space(byte: u8) -> bool
    ensures { result ≡ is_space byte }
{
    byte == b' ' || byte == b'\t'
}

fn is_name_byte(byte: u8) -> bool
    ensures { result ≡ is_name_byte byte }
{
    byte.is_ascii_alphanumeric() || byte == b'_'
}

/// The text without white space at both ends.
fn trimmed(bytes: &[u8]) -> &[u8]
    ensures { result.now ≡ trimmed bytes.now }
{
    let rest = trimmed_start(bytes);
    let mut end = rest.len();
    while 0 < end && is_space(rest[end - 1]) {
        end -= 1;
    }
    &rest[..end]
}

/// The text without leading white space.
fn trimmed_start(bytes: &[u8]) -> &[u8]
    ensures { result.now ≡ trimmed_start bytes.now }
{
    for (place, byte) in bytes.iter().enumerate() {
        if !is_space(*byte) {
            return &bytes[place..];
        }
    }
    &[]
}

/// The text without a trailing carriage return.
fn without_return(line: &[u8]) -> &[u8]
    ensures { result.now ≡ without_return line.now }
{
    match line {
        [text @ .., b'\r'] => text,
        _ => line,
    }
}

/// The text before the first such byte, or all if there is none.
fn before(bytes: &[u8], byte: u8) -> &[u8]
    ensures { result.now ≡ before_first (λ b. b == byte) bytes.now }
{
    &bytes[..place_of(bytes, byte)]
}

/// The text after the first such byte, or nothing if there is none.
fn after(bytes: &[u8], byte: u8) -> &[u8]
    ensures { result.now ≡ after_first (λ b. b == byte) bytes.now }
{
    behind(bytes, place_of(bytes, byte))
}

/// The text after an offset, or nothing past the end.
fn behind(bytes: &[u8], place: usize) -> &[u8]
    ensures { result.now ≡ drop (place + 1) bytes.now }
{
    if place < bytes.len() {
        &bytes[place + 1..]
    } else {
        &[]
    }
}

/// The offset of the first such byte, or the length if there is none.
pub(crate) fn place_of(bytes: &[u8], byte: u8) -> usize
    ensures within { result ≤ length bytes.now }
    ensures place { result ≡ position_or_len (λ b. b == byte) bytes.now }
{
    match memchr(byte, bytes) {
        Some(place) => place,
        None => bytes.len(),
    }
}
