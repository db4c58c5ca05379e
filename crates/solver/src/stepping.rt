//! One of a row as a step of a derivation.

ghost use Rattle.std.specs.Prelude.{◌≡◌, ◌++◌, ◌∷◌, [], OnOk, length};
ghost use Rattle.solver.specs.inner.Flats.{flat_view};
ghost use Rattle.model.specs.Derivation.{Step};
ghost use Rattle.vertices.specs.inner.Valid.{HasValidParts};
ghost use Rattle.derivations.specs.inner.Building.{AreNewTerms, ordered_terms};
ghost use Rattle.derivations.specs.inner.Named.{named_views};
ghost use Rattle.numbering.specs.inner.KnownProblem.{problem};
ghost use Rattle.numbering.specs.Numberings.{IsNumbering};
ghost use Rattle.solver.specs.inner.Steps.{IsStepOf};
ghost use Rattle.solver.specs.Refusing.{AreListed, AreReadVertices, AreSpelt, AreThere, IsNamed, IsNext, IsStepWith};

use crate::flat::{Flat, Source};
use crate::spaces::Spaces;
use crate::speaking::{named_terms, spoken_terms};
use catalogue::catalogues_are_well_formed;
use derivations::{Derivation, NamedTerm};
use numbering::{KnownProblem, Table};
use std::alloc::{AllocError, Global};
use version_sets::States;
use vertices::Kind;

/// Puts a step of a source at the end.
fn push_by<'a>(
    alloc: Global,
    table: &Table<'a>,
    spaces: &Spaces<'a>,
    steps: &mut Derivation,
    source: Source,
    terms: &[NamedTerm<'_, '_, '_>],
) -> Result<(), AllocError>
    requires valid { AreReadVertices table.now }
    requires spelt { AreSpelt table.now spaces.now }
    requires named { IsNamed table.now spaces.now source }
    requires there { AreThere table.now (length steps.old) source }
    requires terms { AreNewTerms (named_views terms.now) }
    ensures { OnOk result ((s : Step) × (steps.new ≡ steps.old ++ s ∷ [])
        × IsStepWith table.now source (ordered_terms (named_views terms.now)) s) }
{
    match source {
        Source::Axiom(number) => steps.push_named_axiom(alloc, Kind::numbered(number), terms),
        Source::Combined {
            first,
            second,
            vertex: number,
        } => {
            let space = spaces.space(number);
            steps.push_named_combination(alloc, first as u64, second as u64, &space.spelling, terms)
        }
    }
}

/// Puts the step of one of a row at the end.
pub(crate) fn push_step<'a, S: States + Drop>(
    alloc: Global,
    known: &KnownProblem<'a>,
    table: &Table<'a>,
    flat: &Flat<S>,
    spaces: &mut Spaces<'a>,
    steps: &mut Derivation,
) -> Result<(), AllocError>
    requires listed { AreListed (problem known.now) table.now spaces.old }
    requires spelt { AreSpelt table.now spaces.old }
    requires parts { HasValidParts (problem known.now) }
    requires numbering { IsNumbering (problem known.now) table.now }
    requires next { IsNext (problem known.now) table.now (flat_view S.tests flat.now) (length steps.old) }
    ensures listed { AreListed (problem known.now) table.now spaces.new }
    ensures spelt { AreSpelt table.now spaces.new }
    ensures step { OnOk result ((s : Step) × (steps.new ≡ steps.old ++ s ∷ []) × IsStepOf (problem known.now) table.now
        (flat_view S.tests flat.now) s) }
{
    catalogues_are_well_formed(known.problem.manifest, known.problem.catalogue);
    let said = flat.incompatibility.terms();
    spaces.list_source(alloc, known, table, steps, flat.source)?;
    spaces.list_each(alloc, known, table, steps, said)?;
    let terms = spoken_terms(alloc, known, table, spaces, said)?;
    let refs = named_terms(alloc, terms.as_slice())?;
    push_by(alloc, table, spaces, steps, flat.source, refs.as_slice())
}
