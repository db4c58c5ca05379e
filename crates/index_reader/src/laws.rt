//! What holds of the records of every file. A law is a function that does nothing: its contract is the statement.

ghost use Rattle.std.specs.Prelude.{◌≢◌, ◌<◌, ℕ, List, length};
ghost use Rattle.std.specs.List.{All, AllPairs};
ghost use Rattle.std.specs.declared.cmp.Ordering.TheVariants.{Equal};
ghost use Rattle.model.specs.Order.{precedence};
ghost use Rattle.model.specs.Summary.{KnowsFeatures};
ghost use Rattle.features.specs.inner.Valid.{BringsValid};
ghost use Rattle.index_reader.specs.Files.{records_of_file};

/// No two records of a file are of equal precedence.
pub fn records_are_apart()
    ensures { (name bytes : List ℕ)
        → AllPairs (λ a b. precedence a.version b.version ≢ Equal) (records_of_file name bytes).records }
{}

/// In the feature table that a record brings, an entry that names a feature names one of the same table.
pub fn records_know_their_features()
    ensures { (name bytes : List ℕ) → All (λ r. KnowsFeatures r.brings.features) (records_of_file name bytes).records }
{}

/// What a record brings is of names that are names, and in a file of less than 4 GiB it has no more dependencies than
/// there are numbers of 32 bits.
pub fn records_bring_valid_parts()
    ensures { (name bytes : List ℕ) → length bytes < 4294967296
        → All (λ r. BringsValid r.brings) (records_of_file name bytes).records }
{}
