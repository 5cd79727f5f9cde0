//! Lines and columns.
ghost use Rattle.std.specs.Prelude.{◌≡◌, ◌+◌, ◌≤◌, ◌==◌, not, length, take, take_while, reverse};
ghost use Rattle.nb_script.specs.declared.script.TheConstants.{MOST_BYTES};
ghost use Rattle.nb_script.specs.Lexing.{line_of, column_of};

/// A place in a text. Lines and columns count from 1, a column counts bytes.
#[derive(Clone, Copy, Debug, PartialEq, Eq)]
pub struct Place {
    pub line: u32,
    pub column: u32,
}

// How many bytes stand behind the last line feed.
fn last_line_len(before: &[u8]) -> usize
    ensures value { result ≡ length (take_while (λ b. not (b == 10)) (reverse before.now)) }
    ensures bound { result ≤ length before.now }
{
    before.iter().rev().take_while(|b| **b != b'\n').count()
}

// The column of what stands behind these bytes.
fn column(before: &[u8]) -> usize
    requires { length before.now ≤ MOST_BYTES }
    ensures value { result ≡ column_of before.now }
    ensures bound { result ≤ length before.now + 1 }
{
    last_line_len(before) + 1
}

// The line of what stands behind these bytes.
fn line(before: &[u8]) -> usize
    requires { length before.now ≤ MOST_BYTES }
    ensures value { result ≡ line_of before.now }
    ensures bound { result ≤ length before.now + 1 }
{
    before.iter().filter(|b| **b == b'\n').count() + 1
}

/// The line and the column of the byte of a text with this number, or of the text's end.
pub fn place_of(text: &[u8], at: usize) -> Place
    requires { length text.now ≤ MOST_BYTES }
    ensures line { result.line ≡ line_of (take at text.now) }
    ensures column { result.column ≡ column_of (take at text.now) }
{
    let before = if at < text.len() { &text[..at] } else { text };
    Place {
        line: line(before) as u32,
        column: column(before) as u32,
    }
}
