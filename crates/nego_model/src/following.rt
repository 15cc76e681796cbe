//! How far occurrences go in a diagram.
ghost use Rattle.std.specs.Prelude.{◌≡◌, ◌↔◌};
ghost use Rattle.nego_model.specs.Occurring.{IsComplete};
ghost use Rattle.nego_model.specs.Diagram.{negotiation_of};
ghost use Rattle.nego_model.specs.Followed.{occurrences, Goes};

use crate::{Diagram, Follow, Marking, Run};

/// Lets the entries occur one after another, from the opening marking on. An entry whose numbers aren't the diagram's
/// doesn't occur.
pub fn follow(d: &Diagram, run: &Run) -> Follow
    ensures far { Goes d.now (occurrences run.now) result }
    ensures complete { (result ≡ Follow.Complete) ↔ IsComplete (negotiation_of d.now) (occurrences run.now) }
{
    let mut marking = Marking::opening(d);
    for (i, step) in run.as_slice().iter().enumerate() {
        if !marking.fire(d, step.0, step.1) {
            return Follow::Stops(i);
        }
    }
    if marking.is_final(d) {
        return Follow::Complete;
    }
    Follow::Partial(marking)
}
