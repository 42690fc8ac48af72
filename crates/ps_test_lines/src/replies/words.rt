// The words that say what a reply holds.
use ps_base::{AckId, Labels, List, OutOfMemory, Text};
use ps_transcript::number;
use std::alloc::Global;
use std::test::Fail;

pub fn text(alloc: Global, text: &str) -> Result<Text, OutOfMemory> {
    Text::from_str(alloc, text)
}

/// A number, or `-` for none.
pub fn number_or_none(word: &str) -> Result<Option<u64>, Fail> {
    if word == "-" {
        Ok(None)
    } else {
        Ok(Some(number(word)?))
    }
}

/// The numbers of a subscription, a message and a lease, as in `1/2/3`.
pub fn ack_id(word: &str) -> Result<AckId, Fail> {
    let (sub, rest) = word.split_once('/').ok_or("no message")?;
    let (message, lease) = rest.split_once('/').ok_or("no lease")?;
    Ok(AckId {
        sub: number(sub)?,
        message: number(message)?,
        lease: number(lease)?,
    })
}

/// Texts by key, as in `a=1 b=2`.
pub fn labels(alloc: Global, words: &str) -> Result<Labels, Fail> {
    let mut pairs = List::new(alloc);
    for word in words.split_whitespace() {
        push_label(alloc, &mut pairs, word)?;
    }
    Ok(Labels::of(pairs).ok_or("the keys don't ascend")?)
}

fn push_label(alloc: Global, pairs: &mut List<(Text, Text)>, word: &str) -> Result<(), Fail> {
    let (key, value) = word.split_once('=').ok_or("no value")?;
    pairs.push((text(alloc, key)?, text(alloc, value)?))?;
    Ok(())
}
