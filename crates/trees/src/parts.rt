//! A line of the index is what its parts are.
//!
//! Half of the lines of a file have the very bytes of the line before as dependencies and as features. So it is stated
//! here that a line is read by its parts, each as a text of its own: what these bytes were read as once they are again.
//! A list is read by its items likewise, and an object by its members: one that is new as a whole may have items that
//! aren't.

ghost use Rattle.std.specs.Prelude.{◌≡◌, ◌≢◌, ℕ, suc, [], ◌∷◌, ◌++◌, List, map, Some, true, false, is_some, codes};
ghost use Rattle.std.specs.List.{list_all, zip};
ghost use Rattle.std.specs.Option.{option_or};
ghost use Rattle.json.specs.Json as json;
ghost use Rattle.json.specs.Lex.{tokens};
ghost use Rattle.serde_json.specs.Data.{Data, Members, array, boolean, no_members, null, object, string};
ghost use Rattle.serde_json.specs.Find.{get_member};
ghost use Rattle.trees.specs.inner.Parts.{data_within, first_members, is_plain, items_of_data, keys_rise, line_of};
ghost use Rattle.trees.specs.inner.Parts.{list_of};
ghost use Rattle.trees.specs.inner.Parts.{members_in_order, members_put, object_text, part_depth};
ghost use Rattle.trees.specs.inner.Tokens.{json_from};
ghost use Rattle.trees.specs.Trees.{data_of_bytes, members_of};

/// A line of plain texts, of dependencies and features that are read on their own, and of a rest that is read as an
/// object's once `{` (123) stands before it, is read as the members of all these. The rest has to have members: behind
/// the comma before it one has to follow.
pub fn lines_are_read_by_parts()
    ensures { (name version deps checksum features rest : List ℕ) (d f : Data) (ms : json.Members)
        → is_plain name ≡ true → is_plain version ≡ true → is_plain checksum ≡ true
        → data_within part_depth deps ≡ Some d → data_within part_depth features ≡ Some f
        → is_some (data_of_bytes (123 ∷ rest)) ≡ true → json_from (tokens (123 ∷ rest)) ≡ json.object ms
        → ms ≢ json.no_members
        → data_of_bytes (line_of name version deps checksum features rest)
        ≡ Some (object (members_of ms (first_members name version d checksum f))) }
{}

/// The same by what the rest is read as: at each key such a line has what the rest has there, and else what its first
/// members are.
pub fn lines_have_what_parts_have()
    ensures { (name version deps checksum features rest : List ℕ) (d f : Data) (others : Members)
        → is_plain name ≡ true → is_plain version ≡ true → is_plain checksum ≡ true
        → data_within part_depth deps ≡ Some d → data_within part_depth features ≡ Some f
        → data_of_bytes (123 ∷ rest) ≡ Some (object others) → others ≢ no_members
        → (all : Members) × (data_of_bytes (line_of name version deps checksum features rest) ≡ Some (object all))
        × ((key : List ℕ) → get_member key all
        ≡ option_or (get_member key others) (get_member key (first_members name version d checksum f))) }
{}

/// A list of texts, each of which is read on its own one level less deep, is read as the list of what these are.
pub fn lists_are_read_by_items()
    ensures { (depth : ℕ) (texts : List (List ℕ)) (ds : List Data)
        → map (data_within depth) texts ≡ map Some ds
        → data_within (suc depth) (list_of texts) ≡ Some (array (items_of_data ds)) }
{}

/// An object of plain keys, whose values are each read on their own one level less deep, is read as these members put
/// in turn.
pub fn objects_are_read_by_members()
    ensures { (depth : ℕ) (ms : List (List ℕ × List ℕ)) (ds : List Data)
        → list_all (λ m. is_plain m.0) ms ≡ true
        → map (λ m. data_within depth m.1) ms ≡ map Some ds
        → data_within (suc depth) (object_text ms)
        ≡ Some (object (members_put (zip (map (λ m. m.0) ms) ds) no_members)) }
{}

/// Members whose keys rise stay in their order when they are put in turn.
pub fn rising_members_stay()
    ensures { (ms : List (List ℕ × Data)) → keys_rise [] ms ≡ true → members_put ms no_members ≡ members_in_order ms }
{}

/// A plain text between quotes (34) is read on its own as that string, at any depth.
pub fn plain_texts_are_read_as_they_stand()
    ensures { (depth : ℕ) (text : List ℕ) → is_plain text ≡ true
        → data_within depth (34 ∷ (text ++ (34 ∷ []))) ≡ Some (string text) }
{}

/// So are the words of JSON as what they name.
pub fn words_are_read_as_they_stand()
    ensures yes { (depth : ℕ) → data_within depth (codes "true") ≡ Some (boolean true) }
    ensures no { (depth : ℕ) → data_within depth (codes "false") ≡ Some (boolean false) }
    ensures nothing { (depth : ℕ) → data_within depth (codes "null") ≡ Some null }
{}
