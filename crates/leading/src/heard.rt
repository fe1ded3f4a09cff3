//! What comes of a request.

use requests::Came;
use wire::Answer;

/// What comes of a request at once.
#[derive(Drop)]
pub enum Heard {
    /// The guest has no such hart.
    NoHart,
    /// What became of a word or of the timer's interrupt. Rounds bring something new behind one alone that was taken.
    Came(Came),
    /// Outputs that are known to be out.
    Told(Vec<Answer>),
}
