// Lines: the empty ones before a head, and sections, which end with an empty line.
ghost use Rattle.std.specs.Prelude.{◌≡◌, ◌<◌, ◌≤◌, length, take, true, IfSome};
ghost use Rattle.ps_http.specs.Sections.{blank_len, empty_line, line_count, find_section, section_end, IfEnds};
ghost use Rattle.ps_http.specs.Limits.{most_head};

use crate::limits;

/// How far a section has come: its end isn't there yet, it is over its limits, or it has so many bytes.
#[derive(Clone, Copy, PartialEq, Eq)]
pub(crate) enum Section {
    Waits,
    Over,
    Ends(usize),
}

/// The first bytes, at most so many.
pub(crate) fn front(bytes: &[u8], most: usize) -> &[u8]
    ensures value { result.now ≡ take most bytes.now }
    ensures within { length result.now ≤ length bytes.now }
    ensures most { length result.now ≤ most }
{
    &bytes[..most.min(bytes.len())]
}

/// How many bytes of line ends stand before all other bytes.
pub(crate) fn blank_len(bytes: &[u8]) -> usize
    ensures value { result ≡ blank_len bytes.now }
    ensures within { result ≤ length bytes.now }
{
    for at in 0..bytes.len() {
        if bytes[at] != b'\r' && bytes[at] != b'\n' {
            return at;
        }
    }
    bytes.len()
}

/// The length of an empty line that begins the bytes. It is 0 if there is none, or if they don't begin a line.
fn empty_line(begins: bool, bytes: &[u8]) -> usize
    ensures value { result ≡ empty_line begins bytes.now }
    ensures within { result ≤ length bytes.now }
{
    match bytes {
        [b'\n', ..] if begins => 1,
        [b'\r', b'\n', ..] if begins => 2,
        _ => 0,
    }
}

/// The number of bytes up to the first empty line, and with it.
fn section_end(bytes: &[u8]) -> Option<usize>
    ensures value { result ≡ section_end true bytes.now }
    ensures within { IfSome result (λ end. end ≤ length bytes.now) }
{
    let mut begins = true;
    for at in 0..bytes.len() {
        let empty = empty_line(begins, &bytes[at..]);
        if empty > 0 {
            return Some(at + empty);
        }
        begins = bytes[at] == b'\n';
    }
    None
}

/// How many lines end in the bytes.
fn line_count(bytes: &[u8]) -> usize
    ensures { result ≡ line_count bytes.now }
{
    let mut count = 0;
    for byte in bytes {
        if *byte == b'\n' {
            count += 1;
        }
    }
    count
}

/// How far a section of at most so many lines has come. The empty line isn't counted.
pub(crate) fn find_section(lines: usize, bytes: &[u8]) -> Section
    requires { lines ≤ 1000 }
    ensures value { result ≡ find_section lines bytes.now }
    ensures within { IfEnds result (λ end. end ≤ length bytes.now) }
    ensures short { result ≡ Section.Waits → length bytes.now < most_head }
{
    match section_end(front(bytes, limits::HEAD)) {
        Some(end) => {
            if line_count(&bytes[..end]) <= lines + 1 {
                Section::Ends(end)
            } else {
                Section::Over
            }
        }
        None => {
            if bytes.len() < limits::HEAD {
                Section::Waits
            } else {
                Section::Over
            }
        }
    }
}
