ghost use Rattle.std.specs.Prelude.{◌≡◌, ◌⊎◌, ◌<◌, ℕ, [], Some, codes, true, false, is_some, length, IfOk, Err, string_bytes};
ghost use Rattle.clap.specs.Words.{Text, first_value, found_of, matches_of, rows_of};
ghost use Rattle.ps_words.specs.Serve.{Gives, HasPort, IsPlain, accepts_words, begins_with_serve, file_in, http_in, is_faultless, serve_app, texts};

use crate::command::serve_command;
use clap::ArgMatches;
use clap::error::ErrorKind;
use std::alloc::Global;

/// What the words after `serve` ask for.
#[derive(Drop)]
pub struct ServeWords {
    /// The port that requests come to.
    pub http: u16,
    /// The file that holds the log.
    pub file: String,
}

/// Why words give nothing.
#[derive(Clone, Copy, Debug, PartialEq, Eq)]
pub enum WordsError {
    /// The words aren't as they should be.
    Usage,
    /// There was no memory.
    OutOfMemory,
}

/// Whether the first word is `serve`.
pub fn begins_with_serve(words: &[String]) -> bool
    ensures { result ≡ begins_with_serve (texts words.now) }
{
    match words {
        [verb, ..] => verb.as_str() == "serve",
        [] => false,
    }
}

/// What the parser finds in the words.
fn parse<'a>(alloc: Global, words: &'a [String]) -> Result<ArgMatches<'a>, WordsError>
    ensures usage { result ≡ Err WordsError.Usage → is_faultless (texts words.now) ≡ false }
    ensures accepted { IfOk result (λ _. is_faultless (texts words.now) ≡ true) }
    ensures rows { IfOk result (λ m. rows_of (found_of m) ≡ matches_of serve_app (texts words.now)) }
    ensures http { IfOk result HasPort }
    ensures file { IfOk result (λ m. is_some (first_value (found_of m) (codes "file")) ≡ true) }
{
    let Ok(command) = serve_command(alloc) else {
        return Err(WordsError::OutOfMemory);
    };
    match command.try_get_matches_from(words) {
        Ok(matches) => Ok(matches),
        Err(error) => match error.kind() {
            ErrorKind::OutOfMemory => Err(WordsError::OutOfMemory),
            _ => Err(WordsError::Usage),
        },
    }
}

/// Reads the words after the program's name. `Usage` says that the parser refuses them, or that the file has no name, which
/// is never so of plain words.
pub fn serve_words(alloc: Global, words: &[String]) -> Result<ServeWords, WordsError>
    ensures usage { result ≡ Err WordsError.Usage → (accepts_words (texts words.now) ≡ false) ⊎ (file_in (texts words.now) ≡ Some []) }
    ensures accepted { IfOk result (λ _. accepts_words (texts words.now) ≡ true) }
    ensures http { IfOk result (λ it. http_in (texts words.now) ≡ Some it.http) }
    ensures port { IfOk result (λ it. 0 < it.http) }
    ensures file { IfOk result (λ it. file_in (texts words.now) ≡ Some (string_bytes it.file)) }
    ensures named { IfOk result (λ it. 0 < length (string_bytes it.file)) }
    ensures plain { (port : ℕ) (file : Text) → IsPlain (texts words.now) port file → Gives port file result }
{
    if !begins_with_serve(words) {
        return Err(WordsError::Usage);
    }
    let matches = parse(alloc, words)?;
    let Some(http) = matches.get_one::<u16>("http") else {
        unreachable!()
    };
    let Some(file) = matches.get_str("file") else {
        unreachable!()
    };
    if file.is_empty() {
        return Err(WordsError::Usage);
    }
    let Ok(file) = String::from_str(alloc, file) else {
        return Err(WordsError::OutOfMemory);
    };
    Ok(ServeWords { http, file })
}
