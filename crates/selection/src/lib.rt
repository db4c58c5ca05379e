//! The verdict on a lock, and the preferred walk: is this content a valid selection, and what would one expect if
//! nothing spoke against it?
//!
//! For the verdict, package after package is looked at, and of each the six things that may be wrong, lowest first
//! (`checked.rt`). What these look up is found for all packages before: what each brings, where its dependencies lead,
//! the facts of features, and to which packages the root's lists lead (`findings.rt`). What is hard is that a lock
//! doesn't say what a dependency means. It means the last listed package that serves it, and such packages stand side
//! by side, so that one is found by search in the list (`target`). Two versions of one class stand side by side too,
//! but for the root, which may stand between them (`classes_once.rt`).
//!
//! The walk gives each enabled dependency the first candidate that it matches, in the order of preference: what the old
//! lock has, and else the newest (`picking.rt`). It ignores conflicts, so it may end in two versions of one class, or
//! lack a candidate: then there is no walk to give, and the search decides. What is hard is that which dependencies are
//! enabled depends on the picks, and the other way round. So versions are met in rounds (`rounds.rt`): each follows the
//! picks of the dependencies that packages need, and of those that the facts of the round before found to be enabled,
//! each version once (`meeting.rt`), and finds the facts over these. Where two that are here are of one class, no later
//! round takes one away, and there is no walk to give (`taking.rt`). Where each enabled dependency was followed, those
//! that weren't make no difference (`enabled_dependencies_are_enough`). What comes of it is put to `verify`, and so is
//! right whatever the walk ignored.
//!
//! To find the facts of packages one needs the packages first, and which are here one learns from the facts. So
//! versions are met before it is known whether they are here, each once (`put_met`), and `content_of` keeps those that
//! are here; a search does the same with the states at its end. A lock's lists have places in package order, which
//! isn't known while versions are met. So the packages that are here are sorted, and then each target is put by the
//! rank that its place has got (`listing.rt`), with no look-up of a package by its name.
//!
//! Versions that only disabled dependencies lead to are many times those of a lock, and aren't looked at. Each round
//! costs as much as all that was met so far; so after eight, or where a round finds nothing more to be enabled, the
//! next one follows all dependencies, which ends it.
//!
//! A layer above may rely on this: `verify` says `Valid` exactly where the content is a valid selection; else it gives
//! the first package, in package order, with its lowest fault (`IsVerdict`, in `model`). `preferred` gives the walk
//! exactly where it is complete and a valid selection, its root without a checksum; there is one walk and no other
//! (`there_is_one_walk`). A content that `content_of` builds has just the packages that are here, each with the targets
//! of its enabled dependencies as its list (`IsBuilt`). `findings_of` gives what a verdict goes by, for those who tell
//! more than the first fault.
#![tactic(auto)]

mod bringing;
mod building;
mod checked;
mod classes_once;
mod enabled;
mod findings;
mod laws;
mod listing;
mod meeting;
mod met;
mod nodes;
mod picking;
mod placed;
mod putting;
mod reached;
mod roots;
mod rounds;
mod summaries;
mod taking;
mod targets;
mod verdict;
mod verifying;
mod walk;

pub use bringing::brings_at;
pub use building::content_of;
pub use classes_once::{is_like, place_before};
pub use enabled::{lacks_target, places_led_to};
pub use findings::{Findings, findings_of};
pub use laws::{enabled_dependencies_are_enough, ranks_are_preferences, there_is_one_walk};
pub use met::{Met, MetVersion, store_holds};
pub use putting::put_met;
pub use targets::target;
pub use verdict::{Verdict, VerdictFault};
pub use verifying::verify;
pub use walk::preferred;
