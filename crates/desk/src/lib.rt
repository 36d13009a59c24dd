// The entries for the desk, as `include/saucepebbly.h` declares them: what people and their programs ask beside the dock. What `dock` says of slices and lent
// memory holds here too. Meaning: `specs/`, a page for each module.
#![tactic(auto)]

mod giving;
mod list;
mod plainly;
mod reading;
mod session;
mod storing;
mod writing;
