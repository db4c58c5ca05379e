//! The trail: each script is a row of calls and of what has to be there after them.

use crate::trial::Trial;
use incompatibilities::Id;
use propagation::{Progress, Satisfier};
use std::alloc::{AllocError, Global};
use std::process::Abort;
use version_sets::States;

/// A vertex, and its states as bits.
type Bits = (usize, u64);

/// A call that has to be done, or what has to be there.
enum ScriptStep {
    /// One vertex more, with so many states.
    Grow(u8),
    /// An entry of one term.
    Single(usize, u64),
    /// An entry of two terms.
    Forbid(Bits, Bits),
    /// A decision.
    Decide(usize, u32),
    /// A cut.
    Cut(usize),
    /// Propagation, which comes to rest.
    Rest,
    /// What is left to a vertex.
    Left(usize, u64),
    /// What is left to each vertex.
    AllLeft(u64),
    /// The level.
    Level(usize),
    /// How many assignments there were.
    Assigned(u64),
}

/// What is left to a vertex, as bits; its universe has at most four states.
pub(crate) fn bits_at<S: States + Drop>(trial: &Trial<S>, vertex: usize) -> u64 {
    let mut bits: u64 = 0;
    'states: for state in 0..4 {
        bits |= u64::from(trial.has(vertex, state)) << state;
    }
    bits
}

/// Whether each vertex has this left.
fn all_left<S: States + Drop>(trial: &Trial<S>, bits: u64) -> bool {
    let mut all = true;
    'vertices: for vertex in 0..trial.vertices() {
        all &= bits_at(trial, vertex) == bits;
    }
    all
}

/// Whether that is what has to be there.
fn is_there<S: States + Drop>(trial: &Trial<S>, step: &ScriptStep) -> bool {
    match step {
        ScriptStep::Left(vertex, bits) => bits_at(trial, *vertex) == *bits,
        ScriptStep::AllLeft(bits) => all_left(trial, *bits),
        ScriptStep::Level(level) => trial.level() == *level,
        ScriptStep::Assigned(assigned) => trial.assigned() == *assigned,
        _ => false,
    }
}

/// Does a call; whether it was done.
fn calls<S: States + Drop>(trial: &mut Trial<S>, step: &ScriptStep) -> Result<bool, AllocError> {
    match step {
        ScriptStep::Grow(universe) => {
            trial.grow(u32::from(*universe))?;
            Ok(true)
        }
        ScriptStep::Forbid(first, second) => trial.forbid(&[*first, *second]),
        ScriptStep::Decide(vertex, state) => trial.decide(*vertex, *state),
        ScriptStep::Rest => Ok(trial.propagate()? == Progress::Fixpoint),
        _ => Ok(is_there(trial, step)),
    }
}

/// Whether a step comes out.
fn takes<S: States + Drop>(trial: &mut Trial<S>, step: &ScriptStep) -> Result<bool, AllocError> {
    match step {
        ScriptStep::Single(vertex, bits) => trial.forbid(&[(*vertex, *bits)]),
        ScriptStep::Cut(level) => {
            trial.cut(*level);
            Ok(true)
        }
        _ => calls(trial, step),
    }
}

/// Takes the steps of a script.
fn take_all<S: States + Drop>(
    rt: &impl Abort,
    trial: &mut Trial<S>,
    script: &[ScriptStep],
) -> Result<(), AllocError> {
    'steps: for (place, step) in script.iter().enumerate() {
        assert!(rt; takes(trial, step)?, "step {place}");
    }
    Ok(())
}

/// Vertex 0 isn't in state 0, and 1 in it rules out two states of 1.
static WORKED: [ScriptStep; 9] = [
    ScriptStep::Grow(2),
    ScriptStep::Grow(3),
    ScriptStep::Forbid((0, 0b01), (1, 0b111)),
    ScriptStep::Forbid((0, 0b10), (1, 0b011)),
    ScriptStep::Rest,
    ScriptStep::Left(0, 0b10),
    ScriptStep::Left(1, 0b100),
    ScriptStep::Assigned(2),
    ScriptStep::Level(0),
];

/// The same store, with a decision that is cut.
static DECIDED: [ScriptStep; 11] = [
    ScriptStep::Grow(2),
    ScriptStep::Grow(3),
    ScriptStep::Forbid((0, 0b01), (1, 0b111)),
    ScriptStep::Forbid((0, 0b10), (1, 0b011)),
    ScriptStep::Decide(1, 0),
    ScriptStep::Level(1),
    ScriptStep::Left(1, 0b001),
    ScriptStep::Cut(0),
    ScriptStep::Level(0),
    ScriptStep::Left(1, 0b111),
    ScriptStep::Assigned(1),
];

/// An axiom that comes at a level and whose one open term is there at the level below too.
static LATE: [ScriptStep; 12] = [
    ScriptStep::Grow(2),
    ScriptStep::Grow(2),
    ScriptStep::Rest,
    ScriptStep::Decide(0, 1),
    ScriptStep::Rest,
    ScriptStep::Single(1, 0b01),
    ScriptStep::Rest,
    ScriptStep::Left(1, 0b10),
    ScriptStep::Cut(0),
    ScriptStep::Left(1, 0b11),
    ScriptStep::Rest,
    ScriptStep::Left(1, 0b10),
];

/// A vertex that loses two states one after the other, of which only the second asks for something.
static TWICE: [ScriptStep; 12] = [
    ScriptStep::Grow(3),
    ScriptStep::Grow(2),
    ScriptStep::Grow(2),
    ScriptStep::Forbid((0, 0b001), (1, 0b10)),
    ScriptStep::Forbid((0, 0b010), (1, 0b10)),
    ScriptStep::Forbid((0, 0b100), (2, 0b01)),
    ScriptStep::Rest,
    ScriptStep::Decide(1, 1),
    ScriptStep::Rest,
    ScriptStep::Left(0, 0b100),
    ScriptStep::Left(2, 0b10),
    ScriptStep::Assigned(4),
];

/// Vertex 2 in state 1 asks for 1 in state 1, which isn't to be beside 0 in state 1.
static CLASH: [ScriptStep; 7] = [
    ScriptStep::Grow(2),
    ScriptStep::Grow(2),
    ScriptStep::Grow(2),
    ScriptStep::Forbid((1, 0b01), (2, 0b10)),
    ScriptStep::Forbid((0, 0b10), (1, 0b10)),
    ScriptStep::Decide(0, 1),
    ScriptStep::Decide(2, 1),
];

/// A vertex that may be in neither of its states.
static NEITHER: [ScriptStep; 3] = [
    ScriptStep::Grow(2),
    ScriptStep::Single(0, 0b01),
    ScriptStep::Single(0, 0b10),
];

/// What is asked of 1001 vertices of which one in state 1 asks for the next in state 1.
static CHAIN: [ScriptStep; 10] = [
    ScriptStep::AllLeft(0b11),
    ScriptStep::Decide(0, 1),
    ScriptStep::Rest,
    ScriptStep::Level(1),
    ScriptStep::Assigned(1001),
    ScriptStep::Left(1000, 0b10),
    ScriptStep::Cut(0),
    ScriptStep::Level(0),
    ScriptStep::Assigned(1001),
    ScriptStep::AllLeft(0b11),
];

/// Takes a script from the empty trail.
fn take<S: States + Drop>(
    rt: &impl Abort,
    alloc: Global,
    script: &[ScriptStep],
) -> Result<(), AllocError> {
    let mut trial: Trial<S> = Trial::new(alloc)?;
    take_all(rt, &mut trial, script)
}

/// Whether propagation ends at entry 1, and its term at vertex 1 satisfied it by entry 0.
fn clashes<S: States + Drop>(trial: &mut Trial<S>) -> Result<bool, AllocError> {
    let expected = Satisfier {
        place: 2,
        vertex: 1,
        level: 2,
        cause: Some(Id::new(0)),
        before: 1,
    };
    match trial.conflict()? {
        Some((id, satisfier)) => Ok((id.index() == 1) & (satisfier == expected)),
        None => Ok(false),
    }
}

fn clash<S: States + Drop>(rt: &impl Abort, alloc: Global) -> Result<(), AllocError> {
    let mut trial: Trial<S> = Trial::new(alloc)?;
    take_all(rt, &mut trial, CLASH.as_slice())?;
    assert!(rt; clashes(&mut trial)?);
    Ok(())
}

/// A conflict before any decision refuses by an entry without terms.
fn refuses<S: States + Drop>(rt: &impl Abort, alloc: Global) -> Result<(), AllocError> {
    let mut trial: Trial<S> = Trial::new(alloc)?;
    take_all(rt, &mut trial, NEITHER.as_slice())?;
    assert!(rt; trial.refusal()? == Some(0));
    Ok(())
}

/// One in state 1 asks for the next in state 1.
fn chain<S: States + Drop>(rt: &impl Abort, alloc: Global) -> Result<(), AllocError> {
    let mut trial: Trial<S> = Trial::new(alloc)?;
    trial.grow(2)?;
    'links: for vertex in 0..1000usize {
        trial.grow(2)?;
        trial.forbid(&[(vertex, 0b10), (vertex + 1, 0b01)])?;
    }
    take_all(rt, &mut trial, CHAIN.as_slice())
}

pub(crate) fn trails<S: States + Drop>(rt: &impl Abort, alloc: Global) -> Result<(), AllocError> {
    'scripts: for script in [&WORKED[..], &DECIDED, &LATE, &TWICE] {
        take::<S>(rt, alloc, script)?;
    }
    clash::<S>(rt, alloc)?;
    refuses::<S>(rt, alloc)?;
    chain::<S>(rt, alloc)
}
