//! The call that the program makes: from the words and the files to the text of the answer.
#![tactic(auto)]

mod answering;
mod call;
mod explaining;
mod fault;
mod goal;
mod input;
mod laws;
mod made;
mod making;
mod piece;
mod refusal;
mod script;
mod spelling;
mod status;
mod task;
#[cfg(test)]
mod tests;
mod words;

pub use call::answer_alone;
pub use fault::pour_fault;
pub use laws::one_text;
pub use status::{Outcome, Refused, Status, Unbuilt};
