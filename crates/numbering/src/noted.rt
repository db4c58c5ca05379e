//! Which dependencies were asked for in which classes. What two of them give together comes once both were.
//!
//! One gives something with another one only in a higher class that it may lead to too. So it is noted for its class,
//! and as a lower one for each such class: there others find it, and come by none that they give nothing with. One that
//! is alone on its package isn't noted, else a package of n classes would take n * n notes for nothing.

ghost use Rattle.std.specs.Prelude.{◌≡◌, ◌++◌, ℕ, true, Contains, IfOk, OnOk, Some, map, nat_eq, not, option_map};
ghost use Rattle.std.specs.Prelude.{slice_get};
ghost use Rattle.std.specs.List.{flat_map, list_any};
ghost use Rattle.classes.specs.Classes.{class_view};
ghost use Rattle.features.specs.Views.{dependency_view, dependency_views};
ghost use Rattle.model.specs.Axioms.{is_lower};
ghost use Rattle.model.specs.Selection as model;
ghost use Rattle.model.specs.Summary as summary;
ghost use Rattle.model.specs.Vertices.{dep, owner_brings};
ghost use Rattle.numbering.specs.inner.AskedFor.{AreBeside, HasOther, IsNoted, IsNotedFor, KeepsListed, KeepsNoted};
ghost use Rattle.numbering.specs.inner.AskedFor.{listed_at};
ghost use Rattle.numbering.specs.inner.AskedFor.{listed_if, noted_beside, noted_views};
ghost use Rattle.numbering.specs.inner.KnownProblem.{problem};
ghost use Rattle.numbering.specs.inner.OnPackage.{is_other};
ghost use Rattle.vertices.specs.inner.RefViews.{owner_ref_view, state_ref_view, vertex_ref_view};

use crate::called::Numbered;
use crate::known_problem::KnownProblem;
use crate::leading::Lead;
use crate::newest::is_other;
use crate::possible_classes::classes_of;
use classes::Class;
use features::{Dependency, DependencyParts, PackageName};
use lookups::dependencies_of;
use std::alloc::{AllocError, Global};
use std::collections::HashMap;
use vertices::{OwnerRef, StateRef, VertexRef};

/// By owner and package, and by class, numbers of dependencies, each with the class that it was asked for in.
#[derive(Drop)]
struct Listed<'a> {
    on: HashMap<((OwnerRef<'a>, &'a PackageName), Class), Vec<(usize, Class)>>,
}

/// The dependencies that were asked for, if others of their owner are on their package.
#[derive(Drop)]
pub struct Noted<'a> {
    /// By the class that they were asked for in.
    here: Listed<'a>,
    /// By each higher class that they may lead to.
    lower: Listed<'a>,
}

impl<'a> Listed<'a> {
    fn new(alloc: Global) -> Listed<'a> {
        Listed {
            on: HashMap::new(alloc),
        }
    }

    /// What is listed for an owner, a package and a class.
    fn those(&self, owner: OwnerRef<'a>, name: &'a PackageName, class: Class) -> &[(usize, Class)]
        ensures { noted_views result.now
            ≡ listed_at self.now (owner_ref_view owner.entry) name.entry.now (class_view class) }
    {
        let place = ((owner, name), class);
        match self.on.get(&place) {
            Some(those) => those.as_slice(),
            None => &[],
        }
    }

    /// Adds those of each of the classes that is higher.
    fn put_above(
        &self,
        found: &mut Vec<(usize, Class)>,
        owner: OwnerRef<'a>,
        name: &'a PackageName,
        class: Class,
        classes: &[Class],
    ) -> Result<(), AllocError>
        ensures { OnOk result (noted_views found.new.items ≡ noted_views found.old.items ++ flat_map
            (listed_if self.now (owner_ref_view owner.entry) name.entry.now (class_view class))
            (map class_view classes.now)) }
    {
        'classes: for higher in classes.iter() {
            self.put_if_above(found, owner, name, class, *higher)?;
        }
        Ok(())
    }

    /// Adds those of a class, if it is higher than the other.
    fn put_if_above(
        &self,
        found: &mut Vec<(usize, Class)>,
        owner: OwnerRef<'a>,
        name: &'a PackageName,
        class: Class,
        higher: Class,
    ) -> Result<(), AllocError>
        ensures { OnOk result (noted_views found.new.items ≡ noted_views found.old.items
            ++ listed_if self.now (owner_ref_view owner.entry) name.entry.now (class_view class) (class_view higher)) }
    {
        if class.is_lower(higher) {
            found.extend_from_slice(self.those(owner, name, higher))?;
        }
        Ok(())
    }

    /// Lists a dependency for each of the classes that is higher than its own.
    fn list_above(
        &mut self,
        alloc: Global,
        lead: Lead<'a>,
        name: &'a PackageName,
        classes: &[Class],
    ) -> Result<(), AllocError>
        ensures kept { KeepsListed self.old self.new }
        ensures listed { OnOk result ((m : model.Class) → Contains (map class_view classes.now) m
            → is_lower (class_view lead.entry.class) m ≡ true
            → Contains (listed_at self.new (owner_ref_view lead.entry.owner) name.entry.now m)
            (lead.entry.number, class_view lead.entry.class)) }
    {
        'classes: for higher in classes.iter() {
            self.list_if_above(alloc, lead, name, *higher)?;
        }
        Ok(())
    }

    /// Lists a dependency for a class, if that is higher than its own.
    fn list_if_above(
        &mut self,
        alloc: Global,
        lead: Lead<'a>,
        name: &'a PackageName,
        higher: Class,
    ) -> Result<(), AllocError>
        ensures kept { KeepsListed self.old self.new }
        ensures listed { OnOk result (is_lower (class_view lead.entry.class) (class_view higher) ≡ true
            → Contains (listed_at self.new (owner_ref_view lead.entry.owner) name.entry.now (class_view higher))
            (lead.entry.number, class_view lead.entry.class)) }
    {
        if lead.class.is_lower(higher) {
            self.list(alloc, lead, name, higher)?;
        }
        Ok(())
    }

    /// Puts a dependency and its class behind those that are listed for a class.
    fn list(
        &mut self,
        alloc: Global,
        lead: Lead<'a>,
        name: &'a PackageName,
        at: Class,
    ) -> Result<(), AllocError>
        ensures kept { KeepsListed self.old self.new }
        ensures listed { OnOk result
            (Contains (listed_at self.new (owner_ref_view lead.entry.owner) name.entry.now (class_view at))
            (lead.entry.number, class_view lead.entry.class)) }
    {
        let place = ((lead.owner, name), at);
        let those = self.on.entry(place)?.or_insert(Vec::new(alloc));
        those.push((lead.number, lead.class))?;
        Ok(())
    }
}

impl<'a> Noted<'a> {
    /// None were.
    pub fn new(alloc: Global) -> Noted<'a> {
        Noted {
            here: Listed::new(alloc),
            lower: Listed::new(alloc),
        }
    }

    /// Notes a pair, if it is one of a dependency and a class, and gives what was noted beside it before.
    pub(crate) fn note(
        &mut self,
        alloc: Global,
        known: &KnownProblem<'a>,
        vertex: VertexRef<'a>,
        state: StateRef<'a>,
    ) -> Result<Vec<(usize, Class)>, AllocError>
        ensures kept { KeepsNoted self.old self.new }
        ensures noted { OnOk result
            (IsNoted (problem known.now) self.new (vertex_ref_view vertex.entry, state_ref_view state.entry)) }
        ensures beside { IfOk result (λ v. AreBeside (problem known.now) self.old
            (vertex_ref_view vertex.entry, state_ref_view state.entry) (noted_views v.items)) }
    {
        match vertex {
            VertexRef::Dependency(owner, number) => {
                self.note_dependency(alloc, known, owner, number, state)
            }
            _ => Ok(Vec::new(alloc)),
        }
    }

    /// Notes a dependency with the class that its state is; any other state says nothing.
    fn note_dependency(
        &mut self,
        alloc: Global,
        known: &KnownProblem<'a>,
        owner: OwnerRef<'a>,
        number: usize,
        state: StateRef<'a>,
    ) -> Result<Vec<(usize, Class)>, AllocError>
        ensures kept { KeepsNoted self.old self.new }
        ensures noted { OnOk result
            (IsNoted (problem known.now) self.new
            (dep (owner_ref_view owner.entry) number, state_ref_view state.entry)) }
        ensures beside { IfOk result (λ v. AreBeside (problem known.now) self.old
            (dep (owner_ref_view owner.entry) number, state_ref_view state.entry) (noted_views v.items)) }
    {
        let StateRef::Class(class) = state else {
            return Ok(Vec::new(alloc));
        };
        let lead = Lead {
            owner,
            number,
            class,
        };
        let all = dependencies_of(&known.problem, &owner);
        match dependency_in(all, number) {
            Some(dependency) => self.note_lead(alloc, known, lead, all, dependency),
            None => Ok(Vec::new(alloc)),
        }
    }

    /// Notes a dependency for its class and for each higher one that it may lead to, if others are on its package.
    fn note_lead(
        &mut self,
        alloc: Global,
        known: &KnownProblem<'a>,
        lead: Lead<'a>,
        all: &[Dependency],
        dependency: &'a DependencyParts,
    ) -> Result<Vec<(usize, Class)>, AllocError>
        requires { dependency_views all.now
            ≡ (owner_brings (problem known.now) (owner_ref_view lead.owner)).dependencies }
        ensures kept { KeepsNoted self.old self.new }
        ensures noted { OnOk result (HasOther (problem known.now) (owner_ref_view lead.entry.owner) lead.entry.number
            (dependency_view dependency.entry.now) → IsNotedFor (problem known.now) self.new
            (owner_ref_view lead.entry.owner) lead.entry.number (dependency_view dependency.entry.now)
            (class_view lead.entry.class)) }
        ensures beside { IfOk result (λ v. HasOther (problem known.now) (owner_ref_view lead.entry.owner)
            lead.entry.number (dependency_view dependency.entry.now) → noted_views v.items
            ≡ noted_beside (problem known.now) self.old (owner_ref_view lead.entry.owner)
            (dependency_view dependency.entry.now) (class_view lead.entry.class)) }
    {
        if !has_other(known, lead, all, dependency) {
            return Ok(Vec::new(alloc));
        }
        let name = &dependency.real_name;
        let classes = classes_of(alloc, known, dependency)?;
        let mut found = Vec::from_slice(alloc, self.lower.those(lead.owner, name, lead.class))?;
        self.here.put_above(&mut found, lead.owner, name, lead.class, classes.as_slice())?;
        self.here.list(alloc, lead, name, lead.class)?;
        self.lower
            .list_above(alloc, lead, name, classes.as_slice())?;
        Ok(found)
    }
}

/// The dependency of this number among all of an owner.
fn dependency_in(dependencies: &[Dependency], number: usize) -> Option<&DependencyParts>
    ensures { option_map (λ d. dependency_view d.now) result
        ≡ slice_get (dependency_views dependencies.now) number }
{
    Some(dependencies.get(number)?)
}

/// Whether the owner, of which all dependencies are given, has another one on the package.
fn has_other<'a>(
    known: &KnownProblem<'a>,
    lead: Lead<'a>,
    all: &[Dependency],
    dependency: &'a DependencyParts,
) -> bool
    requires { dependency_views all.now
        ≡ (owner_brings (problem known.now) (owner_ref_view lead.owner)).dependencies }
    ensures { HasOther (problem known.now) (owner_ref_view lead.entry.owner) lead.entry.number
        (dependency_view dependency.entry.now) → result ≡ true }
{
    let name = &dependency.real_name;
    match known.matched.on_package(&lead.owner, name.as_str()) {
        Some(those) => has_another(those, lead.number),
        None => is_shared(all, lead.number, name),
    }
}

/// Whether one of these has another number.
fn has_another(those: &[Numbered<'_>], number: usize) -> bool
    ensures { result ≡ list_any (λ n. not (nat_eq number n.number)) those.now }
{
    those.iter().any(|one| number != one.number)
}

/// Whether one of the dependencies has another number, and is on the package.
fn is_shared(dependencies: &[Dependency], number: usize, name: &PackageName) -> bool
    ensures { (j : ℕ) (e : summary.Dependency) → slice_get (dependency_views dependencies.now) j ≡ Some e
        → is_other number name.now j e ≡ true → result ≡ true }
{
    'dependencies: for (place, other) in dependencies.iter().enumerate() {
        if is_other(number, name, place, other) {
            return true;
        }
    }
    false
}
