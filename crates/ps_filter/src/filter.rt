ghost use Rattle.std.specs.Prelude.{◌≡◌, None, IfOk, IfErr};
ghost use Rattle.ps_filter.specs.Filters.{filter_fault, read_filter, passes};
ghost use Rattle.ps_filter.specs.Readings.{Tells};

use crate::cursor::Cursor;
use crate::fault::FilterError;
use crate::grammar::expression;
use crate::lexer::tokens;
use crate::tree::{Tree, holds};
use ps_base::Text;
use ps_message::Attributes;
use std::alloc::Global;
use std::marker::Model;

/// The maximum length of a filter's text, in bytes.
const MOST_BYTES: usize = 256;

/// A parsed text of the filter language. Contracts see the text.
#[derive(Drop)]
pub struct Filter {
    text: Text,
    tree: Tree,
}

impl Model for Filter {
    ghost use Rattle.std.specs.Prelude.{ℕ, List};

    ghost Value = { List ℕ };

    ghost view = { λ f. f.text };

    ghost use Rattle.ps_filter.specs.Kept.{meaning};
    ghost use Rattle.ps_filter.specs.Readings.{IsReadAs};

    ghost invariant = { λ f. IsReadAs f.text (meaning f.tree) };
}

impl Filter {
    /// Parses a filter (Pub/Sub documentation, "Filter messages from a subscription"). The error is the first problem
    /// from the left.
    pub fn read(alloc: Global, text: &str) -> Result<Filter, FilterError>
        ensures ok { IfOk result (λ filter. filter_fault text.now ≡ None) }
        ensures text { IfOk result (λ filter. filter ≡ text.now) }
        ensures error { IfErr result (Tells (filter_fault text.now)) }
    {
        if text.len() > MOST_BYTES {
            return Err(FilterError::TooLong);
        }
        let tokens = tokens(alloc, text.as_bytes())?;
        let mut cursor = Cursor::new(tokens.as_slice());
        let tree = expression(alloc, 2 * text.len() as u32 + 4, &mut cursor)?;
        cursor.end()?;
        let text = Text::from_str(alloc, text)?;
        Ok(Filter { text, tree })
    }

    /// Whether a message with these attributes is wanted. Allocates nothing.
    pub fn matches(&self, attributes: &Attributes) -> bool
        ensures { result ≡ passes (read_filter self.now) attributes.now }
    {
        holds(&self.tree, attributes.as_slice())
    }
}
