// The grammar, with one function for each of its rules.
ghost use Rattle.std.specs.Prelude.{◌≡◌, IfOk};
ghost use Rattle.ps_filter.specs.Filters as spec;
ghost use Rattle.ps_filter.specs.declared.grammar.Level.TheVariants.{Ands, Ors};
ghost use Rattle.ps_filter.specs.Kept.{meaning};
ghost use Rattle.ps_filter.specs.Readings.{ReadsAs};

use crate::cursor::{Cursor, is_mark, is_word};
use crate::fault::FilterError;
use crate::token::{Placed, Token};
use crate::tree::Tree;
use ps_base::{List, OutOfMemory};
use std::alloc::Global;

/// What joins the terms of one level so far.
#[derive(Clone, Copy)]
pub enum Level {
    Nothing,
    Ands,
    Ors,
}

fn negated(alloc: Global, tree: Tree) -> Result<Tree, OutOfMemory>
    ensures { IfOk result (λ made. meaning made ≡ spec.Negated (meaning tree)) }
{
    Ok(Tree::Negated(Box::new(alloc, tree)?))
}

fn both(alloc: Global, one: Tree, other: Tree) -> Result<Tree, OutOfMemory>
    ensures { IfOk result (λ made. meaning made ≡ spec.Both (meaning one) (meaning other)) }
{
    Ok(Tree::Both(Box::new(alloc, one)?, Box::new(alloc, other)?))
}

fn either(alloc: Global, one: Tree, other: Tree) -> Result<Tree, OutOfMemory>
    ensures { IfOk result (λ made. meaning made ≡ spec.Either (meaning one) (meaning other)) }
{
    Ok(Tree::Either(Box::new(alloc, one)?, Box::new(alloc, other)?))
}

/// Reads `= string` or `!= string`.
fn comparison(alloc: Global, key: List<u8>, tokens: &mut Cursor<'_>) -> Result<Tree, FilterError>
    ensures { ReadsAs meaning (spec.comparison key tokens.old) result tokens.new }
{
    let Some((next, rest)) = tokens.split() else {
        return Err(FilterError::Syntax { at: 0 });
    };
    if is_mark(b'=', &next.token) {
        *tokens = rest;
        return Ok(Tree::Equals(key, tokens.text(alloc)?));
    }
    if matches!(next.token, Token::Differs) {
        *tokens = rest;
        let equal = Tree::Equals(key, tokens.text(alloc)?);
        return Ok(negated(alloc, equal)?);
    }
    Err(FilterError::Syntax { at: next.at })
}

/// Reads what follows `attributes`: `: key`, `. key = string` or `. key != string`.
fn attribute_test(alloc: Global, tokens: &mut Cursor<'_>) -> Result<Tree, FilterError>
    ensures { ReadsAs meaning (spec.attribute_test tokens.old) result tokens.new }
{
    let Some((next, rest)) = tokens.split() else {
        return Err(FilterError::Syntax { at: 0 });
    };
    if is_mark(b':', &next.token) {
        *tokens = rest;
        return Ok(Tree::Has(tokens.key(alloc)?));
    }
    if is_mark(b'.', &next.token) {
        *tokens = rest;
        let key = tokens.key(alloc)?;
        return comparison(alloc, key, tokens);
    }
    Err(FilterError::Syntax { at: next.at })
}

/// Reads what follows `hasPrefix`: `( attributes . key , string )`.
fn prefix_test(alloc: Global, tokens: &mut Cursor<'_>) -> Result<Tree, FilterError>
    ensures { ReadsAs meaning (spec.prefix_test tokens.old) result tokens.new }
{
    tokens.symbol(b'(')?;
    tokens.word("attributes")?;
    tokens.symbol(b'.')?;
    let key = tokens.key(alloc)?;
    tokens.symbol(b',')?;
    let front = tokens.text(alloc)?;
    tokens.symbol(b')')?;
    Ok(Tree::Begins(key, front))
}

fn simple_test(alloc: Global, next: &Placed, tokens: &mut Cursor<'_>) -> Result<Tree, FilterError>
    ensures { ReadsAs meaning (spec.simple_test next.now tokens.old) result tokens.new }
{
    if is_word("attributes", &next.token) {
        return attribute_test(alloc, tokens);
    }
    if is_word("hasPrefix", &next.token) {
        return prefix_test(alloc, tokens);
    }
    Err(FilterError::Syntax { at: next.at })
}

fn has_ands(level: Level) -> bool
    ensures { result ≡ spec.has_ands level }
{
    matches!(level, Level::Ands)
}

fn has_ors(level: Level) -> bool
    ensures { result ≡ spec.has_ors level }
{
    matches!(level, Level::Ors)
}

fn is_negation(token: &Token) -> bool
    ensures { result ≡ spec.is_negation token.now }
{
    is_word("NOT", token) || is_mark(b'-', token)
}

/// Reads a term, or terms joined by `AND`, or terms joined by `OR`. The number bounds the depth of the calls.
#[cycle(grammar)]
#[tactic(auto, using(crate::proofs::GrammarLemmas::expression_step))]
pub fn expression(alloc: Global, deep: u32, tokens: &mut Cursor<'_>) -> Result<Tree, FilterError>
    ensures { ReadsAs meaning (spec.expression deep tokens.old) result tokens.new }
{
    if deep == 0 {
        return Err(FilterError::Syntax { at: 0 });
    }
    let tree = term(alloc, deep - 1, tokens)?;
    joined(alloc, deep - 1, Level::Nothing, tree, tokens)
}

/// Joins the tree of the terms so far to the terms after it. Both words at one level are an error.
#[cycle(grammar)]
#[tactic(auto, using(crate::proofs::GrammarLemmas::joined_by_and, crate::proofs::GrammarLemmas::joined_by_or))]
fn joined(
    alloc: Global,
    deep: u32,
    level: Level,
    tree: Tree,
    tokens: &mut Cursor<'_>,
) -> Result<Tree, FilterError>
    ensures { ReadsAs meaning (spec.joined deep level (meaning tree) tokens.old) result tokens.new }
{
    if deep == 0 {
        return Err(FilterError::Syntax { at: 0 });
    }
    let Some((next, rest)) = tokens.split() else {
        return Ok(tree);
    };
    if is_word("AND", &next.token) {
        if has_ors(level) {
            return Err(FilterError::Mixed { at: next.at });
        }
        *tokens = rest;
        return behind_and(alloc, deep - 1, tree, tokens);
    }
    if is_word("OR", &next.token) {
        if has_ands(level) {
            return Err(FilterError::Mixed { at: next.at });
        }
        *tokens = rest;
        return behind_or(alloc, deep - 1, tree, tokens);
    }
    Ok(tree)
}

/// Reads the term after an `AND`, and whatever continues after it.
#[cycle(grammar)]
fn behind_and(
    alloc: Global,
    deep: u32,
    tree: Tree,
    tokens: &mut Cursor<'_>,
) -> Result<Tree, FilterError>
    ensures { ReadsAs meaning (spec.then_read (spec.term deep tokens.old) (λ next behind. spec.joined deep Ands (spec.Both (meaning tree) next) behind)) result tokens.new }
{
    let other = term(alloc, deep, tokens)?;
    let tree = both(alloc, tree, other)?;
    joined(alloc, deep, Level::Ands, tree, tokens)
}

/// Reads the term after an `OR`, and whatever continues after it.
#[cycle(grammar)]
fn behind_or(
    alloc: Global,
    deep: u32,
    tree: Tree,
    tokens: &mut Cursor<'_>,
) -> Result<Tree, FilterError>
    ensures { ReadsAs meaning (spec.then_read (spec.term deep tokens.old) (λ next behind. spec.joined deep Ors (spec.Either (meaning tree) next) behind)) result tokens.new }
{
    let other = term(alloc, deep, tokens)?;
    let tree = either(alloc, tree, other)?;
    joined(alloc, deep, Level::Ors, tree, tokens)
}

/// Reads an expression after an opening parenthesis, and the closing one.
#[cycle(grammar)]
fn in_parentheses(alloc: Global, deep: u32, tokens: &mut Cursor<'_>) -> Result<Tree, FilterError>
    ensures { ReadsAs meaning (spec.grouped (spec.expression deep tokens.old)) result tokens.new }
{
    let tree = expression(alloc, deep, tokens)?;
    tokens.symbol(b')')?;
    Ok(tree)
}

/// Reads a test, an expression in parentheses, or one of these with `NOT` or `-` before it.
#[cycle(grammar)]
#[tactic(auto, using(crate::proofs::GrammarLemmas::term_in_parentheses, crate::proofs::GrammarLemmas::term_alone))]
fn term(alloc: Global, deep: u32, tokens: &mut Cursor<'_>) -> Result<Tree, FilterError>
    ensures { ReadsAs meaning (spec.term deep tokens.old) result tokens.new }
{
    if deep == 0 {
        return Err(FilterError::Syntax { at: 0 });
    }
    let Some((next, rest)) = tokens.split() else {
        return Err(FilterError::Syntax { at: 0 });
    };
    *tokens = rest;
    if is_negation(&next.token) {
        let tree = term(alloc, deep - 1, tokens)?;
        return Ok(negated(alloc, tree)?);
    }
    if is_mark(b'(', &next.token) {
        return in_parentheses(alloc, deep - 1, tokens);
    }
    simple_test(alloc, next, tokens)
}
