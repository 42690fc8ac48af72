use std::alloc::Global;
use std::test::Fail;

/// What is asked, and what answers it.
#[derive(Clone, Copy)]
pub struct Case<'a> {
    pub asked: &'a str,
    pub answer: &'a str,
}

/// The cases of a transcript, first to last. A line that begins with `> ` asks. The next line that begins with `< `
/// answers it, and the other lines before it that ask. A line that is empty or begins with `#` is a remark. Any other
/// line is an error, and so is a line that asks and has no answer.
pub fn cases<'a>(alloc: Global, transcript: &'a str) -> Result<Vec<Case<'a>>, Fail> {
    let mut cases = Vec::new(alloc);
    let mut open = Vec::new(alloc);
    for line in transcript.split('\n') {
        take_line(&mut cases, &mut open, line)?;
    }
    match open.first() {
        Some(asked) => Err(Fail::new(format_args!("no answer to: {asked}"))),
        None => Ok(cases),
    }
}

/// A line, behind lines that ask and have no answer yet.
fn take_line<'a>(
    cases: &mut Vec<Case<'a>>,
    open: &mut Vec<&'a str>,
    line: &'a str,
) -> Result<(), Fail> {
    if let Some(asked) = line.strip_prefix("> ") {
        open.push(asked)?;
        return Ok(());
    }
    if let Some(answer) = line.strip_prefix("< ") {
        return answer_all(cases, open, answer);
    }
    if line.is_empty() || line.starts_with('#') {
        Ok(())
    } else {
        Err(Fail::new(format_args!("no line of a transcript: {line}")))
    }
}

/// Gives this answer to the lines that ask.
fn answer_all<'a>(
    cases: &mut Vec<Case<'a>>,
    open: &mut Vec<&'a str>,
    answer: &'a str,
) -> Result<(), Fail> {
    for asked in open.as_slice() {
        cases.push(Case {
            asked: *asked,
            answer,
        })?;
    }
    open.clear();
    Ok(())
}
