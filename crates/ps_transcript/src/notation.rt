use std::alloc::Global;
use std::test::Fail;

/// The bytes that these words spell, one after the other. A word is of hexadecimal digits, two for a byte, or it is a
/// text without spaces in quotes.
pub fn bytes(alloc: Global, words: &str) -> Result<Vec<u8>, Fail> {
    let mut bytes = Vec::new(alloc);
    for word in words.split_whitespace() {
        push_word(alloc, &mut bytes, word)?;
    }
    Ok(bytes)
}

fn push_word(alloc: Global, bytes: &mut Vec<u8>, word: &str) -> Result<(), Fail> {
    match word.strip_prefix('"') {
        Some(text) => {
            let text = text.strip_suffix('"').ok_or("no quote at the end")?;
            bytes.extend_from_slice(text.as_bytes())?;
        }
        None => {
            let digits = hex::decode(alloc, word)?;
            bytes.extend_from_slice(digits.as_slice())?;
        }
    }
    Ok(())
}

/// The rest of the line that begins with this name and a space.
pub fn named<'a>(lines: &'a str, name: &str) -> Result<&'a str, Fail> {
    for line in lines.split('\n') {
        if let Some(rest) = behind_name(line, name) {
            return Ok(rest);
        }
    }
    Err(Fail::new(format_args!("no line is named {name}")))
}

fn behind_name<'a>(line: &'a str, name: &str) -> Option<&'a str> {
    let (own, rest) = line.split_once(' ')?;
    if own == name { Some(rest) } else { None }
}

/// The number that a word is in decimal digits.
pub fn number(word: &str) -> Result<u64, Fail> {
    Ok(word.parse::<u64>()?)
}
