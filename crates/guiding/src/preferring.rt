//! Which of the states that are left to a vertex is preferred: that of the most preferred candidate.

ghost use Rattle.propagation.specs.Trails.{trail_view};
ghost use Rattle.std.specs.Prelude.{◌≡◌, ◌<◌, IfSome, length, true};
ghost use Rattle.version_sets.specs.Sets.{has, size};

use crate::choosing::greatest;
use classes::Class;
use features::{DependencyParts, PackageName};
use lookups::{below, dependency_at, of_class};
use numbering::{KnownProblem, Table, class_number};
use propagation::Trail;
use std::alloc::{AllocError, Global};
use std::collections::HashMap;
use std::mem;
use version_sets::States;
use vertices::VertexRef;

/// Of each vertex that was to be decided, its states with the most preferred first, as far as they were needed.
///
/// To find them anew for each decision takes up to a third of a search over packages with many classes, and to find all
/// of them as much as there are dependencies times classes.
#[derive(Drop)]
pub(crate) struct Preferences<'a> {
    /// By name, the places of its candidates with the most preferred first.
    orders: HashMap<&'a PackageName, Vec<u32>>,
    /// By the number of a vertex.
    ranked: HashMap<usize, Ranked>,
    /// The numbers of the vertices that were decided since level 0 was met last: of each, states may be gone for good.
    decided: Vec<usize>,
}

/// The first states, the most preferred first.
#[derive(Drop)]
struct Ranked {
    states: Vec<u32>,
    /// Those before this place are gone for good: to go over them each time takes the square of how many there are.
    from: usize,
    /// They are those of so many candidates. The next ones are looked at once all these states are gone.
    taken: usize,
    /// Whether the vertex stands among those that were decided.
    is_listed: bool,
}

/// What a vertex is decided among.
#[derive(Clone, Copy)]
enum Choice<'a> {
    /// The versions of a class, so many from a place on.
    Versions { first: usize, count: usize },
    /// The classes that a dependency may lead to.
    Classes(&'a DependencyParts),
}

impl<'a> Preferences<'a> {
    /// Nothing is kept yet.
    pub(crate) fn new(alloc: Global) -> Preferences<'a> {
        Preferences {
            orders: HashMap::new(alloc),
            ranked: HashMap::new(alloc),
            decided: Vec::new(alloc),
        }
    }

    /// Keeps the states of the vertex with this number, if there is one, up to the first that is left.
    pub(crate) fn keep<S: States + Drop>(
        &mut self,
        alloc: Global,
        known: &KnownProblem<'a>,
        table: &Table<'a>,
        trail: &Trail<S>,
        vertices: usize,
        number: Option<usize>,
    ) -> Result<(), AllocError>
        requires { vertices ≡ length (trail_view S.tests trail.now).sets }
    {
        let Some(number) = number else {
            return Ok(());
        };
        if number >= vertices {
            return Ok(());
        }
        // Nothing comes back at level 0.
        if trail.level() == 0 {
            self.pass_over(alloc, trail, vertices);
        }
        let left = trail.states(number);
        if self.first_left(number, left).is_none() {
            if let Some(vertex) = table.vertex(number) {
                self.go_on(alloc, known, &vertex, number, left)?;
            }
        }
        self.list(number)
    }

    /// Passes over the states that are gone, of the vertices that were decided.
    ///
    /// A vertex that is decided at a higher level each time loses its states at level 0 too, so it doesn't do to look
    /// at the one that is decided now.
    fn pass_over<S: States + Drop>(&mut self, alloc: Global, trail: &Trail<S>, vertices: usize)
        requires { vertices ≡ length (trail_view S.tests trail.now).sets }
    {
        let decided = mem::replace(&mut self.decided, Vec::new(alloc));
        'decided: for number in decided {
            if number < vertices {
                self.pass_over_first(number, trail.states(number));
            }
        }
    }

    /// Passes over the first states of a vertex that are gone, and takes it from those that were decided.
    fn pass_over_first<S: States>(&mut self, number: usize, left: &S) {
        if let Some(ranked) = self.ranked.get_mut(&number) {
            ranked.from = first_place(ranked.states.as_slice(), ranked.from, left);
            ranked.is_listed = false;
        }
    }

    /// Lists a vertex among those that were decided.
    fn list(&mut self, number: usize) -> Result<(), AllocError> {
        if let Some(ranked) = self.ranked.get_mut(&number) {
            if !ranked.is_listed {
                ranked.is_listed = true;
                self.decided.push(number)?;
            }
        }
        Ok(())
    }

    /// Keeps more states of a vertex, up to the first that is left.
    fn go_on<S: States>(
        &mut self,
        alloc: Global,
        known: &KnownProblem<'a>,
        vertex: &VertexRef<'a>,
        number: usize,
        left: &S,
    ) -> Result<(), AllocError> {
        let Some((name, choice)) = choice_of(known, vertex) else {
            return Ok(());
        };
        self.begin(alloc, known, name, number)?;
        match (self.orders.get(&name), self.ranked.get_mut(&number)) {
            (Some(order), Some(ranked)) => {
                ranked.extend(alloc, known, name, choice, order.as_slice(), left)
            }
            _ => Ok(()),
        }
    }

    /// Keeps the order of a name's candidates, and no state of the vertex yet, where nothing is kept.
    fn begin(
        &mut self,
        alloc: Global,
        known: &KnownProblem<'a>,
        name: &'a PackageName,
        number: usize,
    ) -> Result<(), AllocError> {
        if !self.orders.contains_key(&name) {
            self.orders
                .insert(name, known.problem.catalogue.prefer(name)?)?;
        }
        if !self.ranked.contains_key(&number) {
            let states = Vec::new(alloc);
            let none = Ranked {
                states,
                from: 0,
                taken: 0,
                is_listed: false,
            };
            self.ranked.insert(number, none)?;
        }
        Ok(())
    }

    /// Of the states that are left to a vertex the most preferred one, if its order is kept, else the greatest.
    pub(crate) fn preferred<S: States>(&self, number: usize, left: &S) -> u32
        requires { 0 < size (S.tests left.now) }
        ensures { has (S.tests left.now) result ≡ true }
    {
        match self.first_left(number, left) {
            Some(state) => state,
            None => greatest(left),
        }
    }

    fn first_left<S: States>(&self, number: usize, left: &S) -> Option<u32>
        ensures { IfSome result (λ n. has (S.tests left.now) n ≡ true) }
    {
        match self.ranked.get(&number) {
            Some(ranked) => first_of(ranked.states.as_slice(), ranked.from, left),
            None => None,
        }
    }
}

/// The first of these states from a place on that is left.
fn first_of<S: States>(states: &[u32], from: usize, left: &S) -> Option<u32>
    ensures { IfSome result (λ n. has (S.tests left.now) n ≡ true) }
{
    'places: for place in from..states.len() {
        if left.member(states[place]) {
            return Some(states[place]);
        }
    }
    None
}

/// Where the first of these states from a place on stands that is left.
fn first_place<S: States>(states: &[u32], from: usize, left: &S) -> usize {
    'places: for place in from..states.len() {
        if left.member(states[place]) {
            return place;
        }
    }
    states.len()
}

impl Ranked {
    /// Goes on to the next state that is left.
    fn extend<S: States>(
        &mut self,
        alloc: Global,
        known: &KnownProblem<'_>,
        name: &PackageName,
        choice: Choice<'_>,
        order: &[u32],
        left: &S,
    ) -> Result<(), AllocError> {
        'places: for at in self.taken..order.len() {
            self.taken = at + 1;
            if let Some(state) = state_of(alloc, known, name, choice, order[at] as usize)? {
                // Candidates of one class mostly follow one another.
                if self.states.last() != Some(&state) {
                    self.states.push(state)?;
                }
                if left.member(state) {
                    return Ok(());
                }
            }
        }
        Ok(())
    }
}

/// What a package or a dependency is decided among, and of which name: nothing of other vertices.
fn choice_of<'a>(
    known: &KnownProblem<'a>,
    vertex: &VertexRef<'a>,
) -> Option<(&'a PackageName, Choice<'a>)> {
    match vertex {
        VertexRef::Package(name, class) => {
            let versions = known.problem.catalogue.versions(name);
            // The versions of a class stand together.
            let first = below(*class, versions);
            let count = of_class(*class, versions).len();
            Some((*name, Choice::Versions { first, count }))
        }
        VertexRef::Dependency(owner, number) => {
            let dependency = dependency_at(&known.problem, owner, *number)?;
            Some((&dependency.real_name, Choice::Classes(dependency)))
        }
        _ => None,
    }
}

/// The state of the candidate at a place, if it is one of those that the vertex is decided among: a class stands where
/// its most preferred candidate does.
fn state_of(
    alloc: Global,
    known: &KnownProblem<'_>,
    name: &PackageName,
    choice: Choice<'_>,
    place: usize,
) -> Result<Option<u32>, AllocError> {
    match choice {
        Choice::Versions { first, count } => Ok(state_among(first, count, place)),
        Choice::Classes(dependency) => match known.problem.catalogue.versions(name).get(place) {
            Some(version) if dependency.requirement.matches(version) => {
                let number = class_number(alloc, known, dependency, Class::of(version))?;
                Ok(number.map(|number| state_at(number)))
            }
            _ => Ok(None),
        },
    }
}

/// The state of the version at a place, if it is one of so many from a place on: they follow absent.
fn state_among(first: usize, count: usize, place: usize) -> Option<u32> {
    let after = place.checked_sub(first)?;
    if after < count {
        Some(state_at(after.saturating_add(1)))
    } else {
        None
    }
}

/// The state of a number; no vertex has so many that it is cut.
fn state_at(number: usize) -> u32 {
    u32::try_from(number).unwrap_or(u32::MAX)
}
