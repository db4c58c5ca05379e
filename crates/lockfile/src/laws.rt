//! Laws about reading and writing: each is a function that does nothing, whose contract is the statement.

ghost use Rattle.std.specs.Prelude.{◌≡◌, ◌≤◌, ℕ, List, length, Ok};
ghost use Rattle.std.specs.List.{All};
ghost use Rattle.model.specs.Content.{Content};
ghost use Rattle.model.specs.Order.{IsContent};
ghost use Rattle.lockfile.specs.Locks.{content_of_bytes, content_of_table, most_bytes, table_of_bytes};
ghost use Rattle.lockfile.specs.Spelling.{spelling, IsWritable, table_of};

/// What a lock says is a content: its packages are in package order, no two alike in name, version and source, and each
/// list has places of it, each once.
pub fn locks_say_contents()
    ensures { (bytes : List ℕ) (content : Content) → content_of_bytes bytes ≡ Ok content → IsContent content }
{}

/// The table that a content is spelled as says that content: each dependency text means the one package that it was
/// written for.
pub fn tables_say_their_contents()
    ensures { (content : Content) → IsContent content → All IsWritable content
        → content_of_table (table_of content) ≡ Ok content }
{}

/// What is written reads as the same content, where the text is within a lock's limit and TOML reads it as the table
/// that the content is spelled as.
pub fn spellings_read_back()
    ensures { (content : Content) → IsContent content → All IsWritable content → length (spelling content) ≤ most_bytes
        → table_of_bytes (spelling content) ≡ Ok (table_of content) → content_of_bytes (spelling content) ≡ Ok content }
{}
