//! What a program says of a run, in plain words.
#![tactic(auto)]

ghost use Rattle.std.specs.Prelude.{Some};
ghost use Rattle.wording.specs.Summaries.{summary_text};

use std::fmt;
use transcript::outcome::Transcript;

/// What was read, and why it was left, as lines of text without the last line's end.
#[derive(Clone, Copy)]
pub struct Summary(pub Transcript);

impl fmt::Display for Summary {
    ghost output = { λ x. Some (summary_text x) };

    fn fmt<W: fmt::Write>(&self, f: &mut fmt::Formatter<W>) -> fmt::Result {
        let tally = self.0.tally;
        match self.0.stop {
            None => write!(f, "{tally}"),
            Some(stop) => write!(f, "{tally}\n{stop}"),
        }
    }
}
