//! Which pairs stand alone on a trail and weren't asked for.

ghost use Rattle.std.specs.Prelude.{◌≡◌, ◌<◌, length, map};
ghost use Rattle.propagation.specs.Promises.{IsSound};
ghost use Rattle.propagation.specs.Trails.{trail_view};
ghost use Rattle.guiding.specs.inner.Searching.{IsSeen};
ghost use Rattle.guiding.specs.inner.Guides.{IsNextOpen, IsOpenAt, IsUnless, asked_of};

use crate::choosing::any_of;
use propagation::Trail;
use version_sets::States;

/// A state, unless it was asked for or is absent, which has no instances but the root's, stored from the start.
pub(crate) fn unless_asked<S: States>(asked: &S, state: u32) -> Option<u32>
    ensures { IsUnless (S.tests asked.now) state result }
{
    if state == 0 {
        return None;
    }
    if asked.member(state) {
        return None;
    }
    Some(state)
}

/// The one state that is left to a vertex, if it wasn't asked for.
fn open_at<S: States + Drop>(trail: &Trail<S>, asked: &[S], vertex: usize) -> Option<u32>
    requires long { length asked.now ≡ length (trail_view S.tests trail.now).sets }
    requires vertex { vertex < length (trail_view S.tests trail.now).sets }
    ensures { IsOpenAt (trail_view S.tests trail.now).sets (map S.tests asked.now) vertex result }
{
    let left = trail.states(vertex);
    if left.count() != 1 {
        return None;
    }
    unless_asked(&asked[vertex], any_of(left))
}

/// The next place's pair that stands alone and wasn't asked for; all places before it are seen.
pub(crate) fn next_open<S: States + Drop>(
    trail: &Trail<S>,
    asked: &[S],
    seen: &mut usize,
) -> Option<(usize, u32)>
    requires sound { IsSound (trail_view S.tests trail.now) }
    requires long { length asked.now ≡ length (trail_view S.tests trail.now).sets }
    requires seen { IsSeen seen.old (asked_of (map S.tests asked.now)) (trail_view S.tests trail.now) }
    ensures seen { IsSeen seen.new (asked_of (map S.tests asked.now)) (trail_view S.tests trail.now) }
    ensures open { IsNextOpen (trail_view S.tests trail.now) (map S.tests asked.now) seen.new result }
{
    'places: while *seen < trail.places() {
        let vertex = trail.vertex_at(*seen);
        match open_at(trail, asked, vertex) {
            Some(state) => return Some((vertex, state)),
            None => *seen += 1,
        }
    }
    None
}
