// Paging through a stream: a cursor that reads move, and a view that holds the image it was opened on.
#![tactic(auto)]

pub mod cursor;
pub mod view;
