// Reading the text of a record.
#![tactic(auto)]

mod bounds;
mod draft;
mod entry;
pub mod kind;
mod kinds;
pub mod level;
mod levels;
mod next;
mod offer_head;
pub mod record;
mod side;
