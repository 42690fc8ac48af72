ghost use Rattle.std.specs.Prelude.{◌≡◌, nat_eq, option_copied};
ghost use Rattle.std.specs.List.{starts_with};
ghost use Rattle.std.specs.Str.{bytes_eq};
ghost use Rattle.ps_filter.specs.Filters.{holds, attribute_named, value_test};
ghost use Rattle.ps_filter.specs.Kept.{meaning};

use ps_base::{List, Text};

/// What a filter requires of the attributes of a message.
#[derive(Drop)]
pub enum Tree {
    /// The attributes have this key.
    Has(List<u8>),
    /// They have this key with this value.
    Equals(List<u8>, List<u8>),
    /// They have this key with a value that begins with this text.
    Begins(List<u8>, List<u8>),
    Negated(Box<Tree>),
    Both(Box<Tree>, Box<Tree>),
    Either(Box<Tree>, Box<Tree>),
}

/// Whether the attributes meet what the tree requires. Allocates nothing.
pub fn holds(tree: &Tree, attributes: &[(Text, Text)]) -> bool
    ensures { result ≡ holds (meaning tree.now) attributes.now }
{
    match tree {
        Tree::Has(key) => attribute_named(key.as_slice(), attributes).is_some(),
        Tree::Equals(key, value) => has_value(key.as_slice(), value.as_slice(), attributes),
        Tree::Begins(key, front) => has_front(key.as_slice(), front.as_slice(), attributes),
        Tree::Negated(tree) => !holds(tree, attributes),
        Tree::Both(one, other) => holds(one, attributes) && holds(other, attributes),
        Tree::Either(one, other) => holds(one, attributes) || holds(other, attributes),
    }
}

fn has_value(key: &[u8], value: &[u8], attributes: &[(Text, Text)]) -> bool
    ensures { result ≡ value_test (bytes_eq value.now) (attribute_named key.now attributes.now) }
{
    match attribute_named(key, attributes) {
        Some(pair) => value == pair.1.as_str().as_bytes(),
        None => false,
    }
}

fn has_front(key: &[u8], front: &[u8], attributes: &[(Text, Text)]) -> bool
    ensures { result ≡ value_test (λ value. starts_with nat_eq value front.now) (attribute_named key.now attributes.now) }
{
    match attribute_named(key, attributes) {
        Some(pair) => pair.1.as_str().as_bytes().starts_with(front),
        None => false,
    }
}

/// The attribute with this key.
fn attribute_named<'a>(key: &[u8], attributes: &'a [(Text, Text)]) -> Option<&'a (Text, Text)>
    ensures { option_copied result ≡ attribute_named key.now attributes.now }
{
    attributes
        .iter()
        .find(|pair| pair.0.as_str().as_bytes() == key)
}
