//! Fields of JSON objects: what their values stand for, and which fields an object may have.
#![tactic(auto)]

mod durations;
mod fields;
mod kinds;
mod paths;
mod rows;
mod shapes;
mod timestamps;
mod unknown;

pub use fields::{field, is_filled, object_in, take, take_text, take_whole};
pub use kinds::{bytes, duration_in, flag, list, map, text, whole, whole_text};
pub use paths::{item_into, item_path, lesser, path_in};
pub use rows::{Kind, Object, Row};
pub use shapes::first_wrong;
pub use timestamps::timestamp;
pub use unknown::least_unknown;
