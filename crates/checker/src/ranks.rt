//! Numbers that compare as texts do.

ghost use Rattle.std.specs.Prelude.{◌≡◌, IfOk, map, string_bytes};
ghost use Rattle.std.specs.List.Sorted.{IsSorted};
ghost use Rattle.std.specs.Ordering.{is_lt};
ghost use Rattle.model.specs.Order.{text_cmp};
ghost use Rattle.checker.specs.inner.Names.{AreRanks, rank_of};

use std::alloc::{AllocError, Global};

/// For each text its rank: how many texts are less.
pub(crate) fn ranks_of(alloc: Global, texts: &[String]) -> Result<Vec<usize>, AllocError>
    ensures { IfOk result (λ v. AreRanks (map string_bytes texts.now) v.items) }
{
    let mut sorted = borrowed(alloc, texts)?;
    sorted.sort_unstable();
    ranks_in(alloc, &sorted, texts)
}

fn borrowed<'a>(alloc: Global, texts: &'a [String]) -> Result<Vec<&'a str>, AllocError>
    ensures { IfOk result (λ v. map (λ x. x.now) v.items ≡ map string_bytes texts.now) }
{
    let mut all = Vec::with_capacity(alloc, texts.len())?;
    'texts: for text in texts {
        all.push(text.as_str())?;
    }
    Ok(all)
}

/// The ranks of texts among others that rise.
fn ranks_in(alloc: Global, sorted: &[&str], texts: &[String]) -> Result<Vec<usize>, AllocError>
    requires { IsSorted text_cmp (map (λ x. x.now) sorted.now) }
    ensures { IfOk result (λ v. v.items ≡ map (rank_of (map (λ x. x.now) sorted.now)) (map string_bytes texts.now)) }
{
    let mut ranks = Vec::with_capacity(alloc, texts.len())?;
    'texts: for text in texts {
        ranks.push(rank_in(sorted, text.as_str()))?;
    }
    Ok(ranks)
}

fn rank_in(sorted: &[&str], text: &str) -> usize
    requires { IsSorted text_cmp (map (λ x. x.now) sorted.now) }
    ensures { result ≡ rank_of (map (λ x. x.now) sorted.now) text.now }
{
    sorted.partition_point(|other| is_less(other, text))
}

fn is_less(a: &str, b: &str) -> bool
    ensures { result ≡ is_lt (text_cmp a.now b.now) }
{
    a < b
}
