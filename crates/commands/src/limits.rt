//! What reading a file up to its limit leaves as it is. A law is a function that does nothing: its contract is the
//! statement.

ghost use Rattle.std.specs.Prelude.{◌≡◌, ℕ, List, take};
ghost use Rattle.manifest.specs.Manifests.{manifest_of_bytes};
ghost use Rattle.lockfile.specs.Locks.{content_of_bytes};
ghost use Rattle.commands.specs.Disks.{most_of_lock, most_of_manifest};

/// As much of a manifest or of a lock as is read means what the whole file means, whose rest is past the limit.
pub fn what_is_not_read_cannot_matter()
    ensures manifest { (bytes : List ℕ) → manifest_of_bytes (take most_of_manifest bytes) ≡ manifest_of_bytes bytes }
    ensures lock { (bytes : List ℕ) → content_of_bytes (take most_of_lock bytes) ≡ content_of_bytes bytes }
{}
