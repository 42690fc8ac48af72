// What each call asks, by the names in its path, its query and the fields of its body.

pub mod acknowledging;
pub mod fields;
pub mod listing;
pub mod modifying;
pub mod naming;
pub mod publishing;
pub mod pulling;
pub mod resource;
pub mod subscription;
pub mod topic;
