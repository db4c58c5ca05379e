//! The store behind a loaded index: for each name that was asked for, its candidates.

ghost use Rattle.std.specs.Prelude.{◌≡◌, ◌<◌, ◌≤◌, ◌++◌, [], map, length, option_map, slice_get, Bool, Option, Some};
ghost use Rattle.std.specs.Prelude.{IfOk};
ghost use Rattle.std.specs.Prelude.{OnOk};
ghost use Rattle.std.specs.List.{AllPairs};
ghost use Rattle.std.specs.List.Sorted.{IsPermutation};
ghost use Rattle.std.specs.declared.cmp.Ordering.TheVariants.{Less};
ghost use Rattle.semver.specs.Eval.{precedence_cmp};
ghost use Rattle.semver.specs.Identifiers.{parts_of};
ghost use Rattle.semver.specs.Parse.{Parts};
ghost use Rattle.model.specs.Candidates.{RustVersion as Rust, by_preference};
ghost use Rattle.index_reader.specs.Files.{skip_view};
ghost use Rattle.catalogue.specs.Stores.{AreRanked, places_down, places_of, places_by_rank, said, said_by, AreRead};
ghost use Rattle.catalogue.specs.Stores.{most_candidates, row_at, ranked_at, candidates_at, record_at};
ghost use Rattle.catalogue.specs.inner.Views.{candidates_view};
ghost use Rattle.catalogue.specs.Stores.{IsStore};

use crate::candidate::{Candidate, Rank};
use crate::candidates::Candidates;
use crate::names::Names;
use crate::places::place_of;
use features::PackageName;
use index_reader::Skip;
use semver::Version;
use std::alloc::{AllocError, Global};
use std::marker::Model;

/// Which candidates are preferred, after the locked ones.
#[derive(Clone, Copy, Debug, PartialEq, Eq)]
pub enum Prefer {
    /// The newest.
    Newest,
    /// Those that the manifest's Rust version fits, the newest first; then the others, the newest first.
    RustFirst,
}

/// The index of a run, once it is loaded.
#[derive(Drop)]
pub struct Catalogue {
    pub(crate) alloc: Global,
    pub(crate) names: Names,
    /// At the place of each name, its candidates.
    pub(crate) candidates: Vec<Candidates>,
    pub(crate) skips: Vec<Skip>,
    pub(crate) source: String,
}

impl Model for Catalogue {
    ghost use Rattle.std.specs.Prelude.{◌≡◌, map, length, string_bytes};
    ghost use Rattle.index_reader.specs.Files.{skip_view};
    ghost use Rattle.std.specs.List.{All, IsDistinct};
    ghost use Rattle.features.specs.inner.Valid.{IsPackageName};
    ghost use Rattle.model.specs.Summary.{same_text};
    ghost use Rattle.catalogue.specs.Stores.{CatalogueView, IsStore};
    ghost use Rattle.catalogue.specs.inner.Views.{rows_view};

    ghost Value = { CatalogueView };

    ghost view = { λ c. record {
      rows = rows_view c.names.keys c.candidates.items;
      skips =
          map skip_view c.skips.items;
      source = string_bytes c.source;
    } };

    ghost invariant = { λ c. (length c.names.keys ≡ length c.candidates.items) × IsDistinct same_text c.names.keys
        × All IsPackageName c.names.keys };
}

impl Catalogue {
    /// The names that were asked for, in order.
    pub fn names(&self) -> &[PackageName]
        ensures names { result.now ≡ map (λ row. row.0) self.now.rows }
        ensures store { IsStore self.now }
    {
        self.names.as_slice()
    }

    /// The versions of a name's candidates, oldest first; none for a name that wasn't asked for.
    pub fn versions(&self, name: &PackageName) -> &[Version]
        ensures versions { map parts_of result.now ≡ map (λ r. r.version) (candidates_at self.now name.now) }
        ensures rising { AllPairs (λ v w. precedence_cmp v w ≡ Less) result.now }
        ensures read { AreRead result.now }
        ensures few { length result.now ≤ 65535 }
    {
        match self.of(name) {
            Some(candidates) => candidates.versions.as_slice(),
            None => &[],
        }
    }

    /// What the index says of a name's candidate at a place of its `versions`.
    pub fn record(&self, name: &PackageName, place: usize) -> &Candidate
        requires { place < length (candidates_at self.now name.now) }
        ensures { option_map said (slice_get (candidates_at self.now name.now) place) ≡ Some (said_by result.now) }
    {
        &self.candidates(name)[place]
    }

    /// What the index says of a name's candidates, each at the place of its version among `versions`.
    pub fn candidates(&self, name: &PackageName) -> &[Candidate]
        ensures { map said_by result.now ≡ map said (candidates_at self.now name.now) }
    {
        match self.of(name) {
            Some(candidates) => candidates.candidates.as_slice(),
            None => &[],
        }
    }

    /// The candidate of a name that has this version, by the whole text.
    pub fn candidate(&self, name: &PackageName, version: &Version) -> Option<&Candidate>
        ensures { option_map (λ c. said_by c.now) result
            ≡ option_map said (record_at (candidates_at self.now name.now) (parts_of version.now)) }
    {
        candidate_in(self.of(name)?, version)
    }

    /// The places of a name's candidates in the order of preference.
    pub fn prefer(&self, name: &PackageName) -> Result<Vec<u32>, AllocError>
        ensures places { IfOk result (λ v. v.items ≡ places_by_rank (map (λ c. c.1) (ranked_at self.now name.now))) }
        ensures once { IfOk result (λ v. IsPermutation (places_down (length (ranked_at self.now name.now))) v.items) }
        ensures preferred { IfOk result (λ v. (locked : Parts → Bool) (rust : Option Rust) → AreRanked locked rust
            (ranked_at self.now name.now) → map (slice_get (candidates_at self.now name.now)) v.items
            ≡ map Some (by_preference locked rust (candidates_at self.now name.now))) }
    {
        match self.of(name) {
            Some(candidates) => places_by_rank(self.alloc, candidates),
            None => Ok(Vec::new(self.alloc)),
        }
    }

    /// The lines that were skipped, in the order of loading.
    pub fn skips(&self) -> &[Skip]
        ensures { map skip_view result.now ≡ self.now.skips }
    {
        self.skips.as_slice()
    }

    /// The text of the run's source.
    pub fn source(&self) -> &str
        ensures { result.now ≡ self.now.source }
    {
        self.source.as_str()
    }

    fn of(&self, name: &PackageName) -> Option<&Candidates>
        ensures { option_map (λ c. candidates_view c.now) result ≡ row_at self.now.rows name.now }
    {
        self.candidates.get(self.names.get_index_of(name)?)
    }
}

/// The candidate that has this version, by the whole text.
fn candidate_in<'a>(candidates: &'a Candidates, version: &Version) -> Option<&'a Candidate>
    ensures { option_map (λ c. said_by c.now) result
        ≡ option_map said (record_at (map (λ c. c.0) (candidates_view candidates.now)) (parts_of version.now)) }
{
    let place = place_of(candidates.versions.as_slice(), version)?;
    candidates.candidates.get(place)
}

/// The places of candidates by rank, in each rank the newest first.
fn places_by_rank(alloc: Global, candidates: &Candidates) -> Result<Vec<u32>, AllocError>
    ensures { IfOk result (λ v. v.items ≡ places_by_rank (map (λ c. c.1) (candidates_view candidates.now))) }
{
    let mut order = Vec::with_capacity(alloc, candidates.candidates.len())?;
    add_rank(&mut order, candidates.candidates.as_slice(), Rank::Locked)?;
    add_rank(&mut order, candidates.candidates.as_slice(), Rank::Fits)?;
    add_rank(&mut order, candidates.candidates.as_slice(), Rank::Rest)?;
    Ok(order)
}

/// Adds the places of this rank, the newest first.
fn add_rank(order: &mut Vec<u32>, candidates: &[Candidate], rank: Rank) -> Result<(), AllocError>
    requires { length candidates.now ≤ most_candidates }
    ensures { OnOk result (order.new.items ≡ order.old.items ++ places_of rank (map (λ c. c.rank) candidates.now)) }
{
    let mut place = candidates.len();
    'places: while place > 0 {
        place -= 1;
        if candidates[place].rank.is(rank) {
            order.push(place as u32)?;
        }
    }
    Ok(())
}
