ghost use Rattle.std.specs.Prelude.{◌≡◌, ◌≤◌, [], ◌∷◌, ◌++◌, IfOk, OnOk, length};
ghost use Rattle.ps_filter.specs.Tokens.{is_blank, begins_word, is_in_word, is_symbol, place, begun, taken, ended, tokens};

use crate::token::{Placed, Token};
use ps_base::{List, OutOfMemory};
use std::alloc::Global;

/// What the bytes read so far leave open: nothing, a token that began at a byte, or nothing ever again.
#[derive(Drop)]
enum Open {
    Between,
    InWord(u32, List<u8>),
    InString(u32, List<u8>),
    InEscape(u32, List<u8>),
    BehindBang(u32),
    Stopped,
}

/// The tokens of a text, up to its end or to the first thing that isn't a token. Fails only if out of memory.
pub fn tokens(alloc: Global, text: &[u8]) -> Result<List<Placed>, OutOfMemory>
    requires { length text.now ≤ 256 }
    ensures { IfOk result (λ made. made ≡ tokens text.now) }
{
    let mut made = List::new(alloc);
    let mut state = Open::Between;
    let mut at = 0;
    for &byte in text {
        state = take(alloc, &mut made, state, at, byte)?;
        at += 1;
    }
    end(&mut made, state, at)?;
    Ok(made)
}

/// Takes a byte while no token is open.
fn begin(alloc: Global, made: &mut List<Placed>, at: u32, byte: u8) -> Result<Open, OutOfMemory>
    ensures { IfOk result (λ next. (made.new ≡ made.old ++ (begun at byte).0) × (next ≡ (begun at byte).1)) }
{
    if is_blank(byte) {
        return Ok(Open::Between);
    }
    if begins_word(byte) {
        let mut word = List::new(alloc);
        word.push(byte)?;
        return Ok(Open::InWord(at, word));
    }
    if byte == b'"' {
        return Ok(Open::InString(at, List::new(alloc)));
    }
    if byte == b'!' {
        return Ok(Open::BehindBang(at));
    }
    if is_symbol(byte) {
        put(made, at, Token::Symbol(byte))?;
        return Ok(Open::Between);
    }
    put(made, at, Token::Strange)?;
    Ok(Open::Stopped)
}

fn put(made: &mut List<Placed>, at: u32, token: Token) -> Result<(), OutOfMemory>
    ensures { OnOk result (made.new ≡ made.old ++ place at token ∷ []) }
{
    made.push(Placed { at, token })
}

fn longer(mut bytes: List<u8>, byte: u8) -> Result<List<u8>, OutOfMemory>
    ensures { IfOk result (λ made. made ≡ bytes ++ byte ∷ []) }
{
    bytes.push(byte)?;
    Ok(bytes)
}

/// Takes a byte in any state: adds the tokens that it completes, and returns what it leaves open.
fn take(
    alloc: Global,
    made: &mut List<Placed>,
    state: Open,
    at: u32,
    byte: u8,
) -> Result<Open, OutOfMemory>
    ensures { IfOk result (λ next. (made.new ≡ made.old ++ (taken state at byte).0) × (next ≡ (taken state at byte).1)) }
{
    match state {
        Open::Between => begin(alloc, made, at, byte),
        Open::InWord(from, word) if is_in_word(byte) => {
            Ok(Open::InWord(from, longer(word, byte)?))
        }
        Open::InWord(from, word) => {
            put(made, from, Token::Word(word))?;
            begin(alloc, made, at, byte)
        }
        Open::InString(from, text) if byte == b'"' => {
            put(made, from, Token::Quoted(text))?;
            Ok(Open::Between)
        }
        Open::InString(from, text) if byte == b'\\' => Ok(Open::InEscape(from, text)),
        Open::InString(from, text) => Ok(Open::InString(from, longer(text, byte)?)),
        Open::InEscape(from, text) if byte == b'"' || byte == b'\\' => {
            Ok(Open::InString(from, longer(text, byte)?))
        }
        Open::BehindBang(from) if byte == b'=' => {
            put(made, from, Token::Differs)?;
            Ok(Open::Between)
        }
        Open::InEscape(from, _) | Open::BehindBang(from) => {
            put(made, from, Token::Strange)?;
            Ok(Open::Stopped)
        }
        Open::Stopped => Ok(Open::Stopped),
    }
}

/// Takes the end of the text in any state.
fn end(made: &mut List<Placed>, state: Open, at: u32) -> Result<(), OutOfMemory>
    ensures { OnOk result (made.new ≡ made.old ++ ended state at) }
{
    match state {
        Open::Between => put(made, at, Token::End),
        Open::InWord(from, word) => {
            put(made, from, Token::Word(word))?;
            put(made, at, Token::End)
        }
        Open::InString(from, _) | Open::InEscape(from, _) | Open::BehindBang(from) => {
            put(made, from, Token::Strange)
        }
        Open::Stopped => Ok(()),
    }
}

/// Space, tab, CR or LF.
fn is_blank(byte: u8) -> bool
    ensures { result ≡ is_blank byte }
{
    byte == b' ' || byte == b'\t' || byte == b'\r' || byte == b'\n'
}

fn begins_word(byte: u8) -> bool
    ensures { result ≡ begins_word byte }
{
    byte.is_ascii_alphabetic() || byte == b'_'
}

fn is_in_word(byte: u8) -> bool
    ensures { result ≡ is_in_word byte }
{
    byte.is_ascii_alphanumeric() || byte == b'_' || byte == b'-'
}

fn is_symbol(byte: u8) -> bool
    ensures { result ≡ is_symbol byte }
{
    byte == b'('
        || byte == b')'
        || byte == b':'
        || byte == b'.'
        || byte == b'='
        || byte == b','
        || byte == b'-'
}
