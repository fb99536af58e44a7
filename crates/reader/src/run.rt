//! The run layer: what stands at a place of a run.

ghost use Rattle.std.specs.Prelude.{◌≡◌, ◌≤◌, length};
ghost use Rattle.reader.specs.Events.{spot_at};
ghost use Rattle.reader.specs.Items.{means};
ghost use Rattle.reader.specs.Runs.{run_at, read_at};
ghost use Rattle.reader.specs.Laws.{Exact};

use crate::event::read_item;
use crate::fault::{Refusal, RunFault};
use crate::item::Found;
use words::fault::Spot;

/// The most words that a run has.
pub const MOST_WORDS: usize = 16384;

/// A run that is not too long, so that its places fit a spot.
#[derive(Clone, Copy)]
pub(crate) struct Run<'a> {
    pub(crate) words: &'a [u32],
    ghost not_too_long: { length words.now ≤ 16384 },
}

impl<'a> Run<'a> {
    pub(crate) fn spot(&self, began: usize, place: usize) -> Spot
        requires began_bound { began ≤ length self.now.words.now }
        requires place_bound { place ≤ length self.now.words.now }
        ensures { result ≡ spot_at began place }
    {
        Spot {
            began: began as u16,
            place: place as u16,
        }
    }

    fn read(&self, place: usize) -> Result<Option<Found<'a>>, RunFault>
        requires { place ≤ length self.now.words.now }
        ensures { means result ≡ run_at self.now.words.now place }
    {
        if place == self.words.len() {
            return Ok(None);
        }
        Ok(Some(read_item(self, place)?))
    }
}

/// The item at a place of the run with the place after it, or none at the run's end.
pub fn read<'a>(run: &'a [u32], place: usize) -> Result<Option<Found<'a>>, Refusal>
    ensures is { means result ≡ read_at run.now place }
    ensures exact { Exact run.now place (means result) }
{
    if run.len() > MOST_WORDS {
        return Err(Refusal::TooLong);
    }
    if place > run.len() {
        return Err(Refusal::PastEnd);
    }
    Ok(Run { words: run }.read(place)?)
}
