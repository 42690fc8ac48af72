ghost use Rattle.std.specs.Prelude.{◌≡◌, [], ◌∷◌, IfOk, MatchOption};
ghost use Rattle.ps_filter.specs.Filters as spec;
ghost use Rattle.ps_filter.specs.Readings.{Reads};

use crate::fault::FilterError;
use crate::token::{Placed, Token};
use ps_base::{List, OutOfMemory};
use std::alloc::Global;
use std::marker::Model;

/// The tokens not yet read.
#[derive(Drop)]
pub struct Cursor<'a> {
    rest: &'a [Placed],
}

impl<'a> Model for Cursor<'a> {
    ghost use Rattle.std.specs.Prelude.{List as Items};
    ghost use Rattle.ps_filter.specs.declared.token.Placed.{Placed as Token};

    ghost Value = { Items Token };

    ghost view = { λ c. c.rest.now };
}

impl<'a> Cursor<'a> {
    pub fn new(tokens: &'a [Placed]) -> Cursor<'a>
        ensures { result ≡ tokens.now }
    {
        Cursor { rest: tokens }
    }

    /// The next token, and the tokens after it.
    pub fn split(&self) -> Option<(&'a Placed, Cursor<'a>)>
        ensures { MatchOption result (self.now ≡ []) (λ pair. self.now ≡ pair.0.now ∷ pair.1) }
    {
        match self.rest.split_first() {
            Some((next, rest)) => Some((next, Cursor { rest })),
            None => None,
        }
    }

    /// Takes this symbol, which must come next.
    pub fn symbol(&mut self, symbol: u8) -> Result<(), FilterError>
        ensures { Reads (spec.one_token (spec.is_mark symbol) self.old) result self.new }
    {
        let Some((next, rest)) = self.split() else {
            return Err(FilterError::Syntax { at: 0 });
        };
        if !is_mark(symbol, &next.token) {
            return Err(FilterError::Syntax { at: next.at });
        }
        *self = rest;
        Ok(())
    }

    /// Takes this word, which must come next.
    pub fn word(&mut self, word: &str) -> Result<(), FilterError>
        ensures { Reads (spec.one_token (spec.is_word word.now) self.old) result self.new }
    {
        let Some((next, rest)) = self.split() else {
            return Err(FilterError::Syntax { at: 0 });
        };
        if !is_word(word, &next.token) {
            return Err(FilterError::Syntax { at: next.at });
        }
        *self = rest;
        Ok(())
    }

    /// Takes the end of the text, which must come next.
    pub fn end(&mut self) -> Result<(), FilterError>
        ensures { Reads (spec.one_token spec.is_end self.old) result self.new }
    {
        let Some((next, rest)) = self.split() else {
            return Err(FilterError::Syntax { at: 0 });
        };
        if !matches!(next.token, Token::End) {
            return Err(FilterError::Syntax { at: next.at });
        }
        *self = rest;
        Ok(())
    }

    /// Takes a key: a word or a string.
    pub fn key(&mut self, alloc: Global) -> Result<List<u8>, FilterError>
        ensures { Reads (spec.one_key self.old) result self.new }
    {
        let Some((next, rest)) = self.split() else {
            return Err(FilterError::Syntax { at: 0 });
        };
        match &next.token {
            Token::Word(bytes) | Token::Quoted(bytes) => {
                *self = rest;
                Ok(copied(alloc, bytes.as_slice())?)
            }
            _ => Err(FilterError::Syntax { at: next.at }),
        }
    }

    /// Takes a string.
    pub fn text(&mut self, alloc: Global) -> Result<List<u8>, FilterError>
        ensures { Reads (spec.one_text self.old) result self.new }
    {
        let Some((next, rest)) = self.split() else {
            return Err(FilterError::Syntax { at: 0 });
        };
        match &next.token {
            Token::Quoted(bytes) => {
                *self = rest;
                Ok(copied(alloc, bytes.as_slice())?)
            }
            _ => Err(FilterError::Syntax { at: next.at }),
        }
    }
}

pub fn is_word(word: &str, token: &Token) -> bool
    ensures { result ≡ spec.is_word word.now token.now }
{
    match token {
        Token::Word(own) => own.as_slice() == word.as_bytes(),
        _ => false,
    }
}

pub fn is_mark(symbol: u8, token: &Token) -> bool
    ensures { result ≡ spec.is_mark symbol token.now }
{
    match token {
        Token::Symbol(own) => *own == symbol,
        _ => false,
    }
}

fn copied(alloc: Global, bytes: &[u8]) -> Result<List<u8>, OutOfMemory>
    ensures { IfOk result (λ made. made ≡ bytes.now) }
{
    Ok(List::from_vec(Vec::from_slice(alloc, bytes)?))
}
