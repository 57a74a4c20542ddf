//! What the ids come to, in the words of those who read them.
ghost use Rattle.std.specs.Prelude.{◌≡◌, ℕ, ◌+◌, ◌≤◌, List, [], ◌++◌, codes, length, take, drop, All, Contains};
ghost use Rattle.std.specs.List.{AllPass};
ghost use Rattle.hex.specs.Hex.{lower_digits};
ghost use Rattle.lg_json.specs.Canonical.{canonical_text, AreTexts};
ghost use Rattle.lg_taskid.specs.BatchId.{batch_id_of};
ghost use Rattle.lg_taskid.specs.TaskId.{is_safe, summary_of, hash_of, task_id_of};

/// An id begins with the family.
pub fn family_comes_first()
    ensures { (family : List ℕ) (pairs : List (List ℕ × List ℕ))
        → take (length family) (task_id_of family pairs) ≡ family }
{}

/// The family isn't hashed: tasks of two families with the same parameters have the same summary and the same hash.
pub fn family_is_not_hashed()
    ensures { (family other : List ℕ) (pairs : List (List ℕ × List ℕ))
        → drop (length family) (task_id_of family pairs) ≡ drop (length other) (task_id_of other pairs) }
{}

/// Behind the family stand letters and digits of ASCII and `_` alone, whatever the values are.
pub fn only_safe_characters()
    ensures { (family : List ℕ) (pairs : List (List ℕ × List ℕ))
        → AllPass is_safe (drop (length family) (task_id_of family pairs)) }
{}

/// The hash is ten lower-case hexadecimal digits.
pub fn hash_has_ten_digits()
    ensures { (pairs : List (List ℕ × List ℕ))
        → (length (hash_of pairs) ≡ 10) × All (Contains lower_digits) (hash_of pairs) }
{}

/// A task without parameters has the family with `__99914b932b` behind it, as in Luigi.
pub fn without_parameters()
    ensures { (family : List ℕ) → task_id_of family [] ≡ family ++ codes "__99914b932b" }
{}

/// An id is at most 62 bytes longer than the family.
pub fn ids_are_short()
    ensures { (family : List ℕ) (pairs : List (List ℕ × List ℕ))
        → length (task_id_of family pairs) ≤ length family + 62 }
{}

/// A summary tells of three parameters: what comes behind them isn't shown.
pub fn three_are_shown()
    ensures { (pairs more : List (List ℕ × List ℕ)) → 3 ≤ length pairs → summary_of (pairs ++ more) ≡ summary_of pairs }
{}

/// The id of a batch is 32 lower-case hexadecimal digits.
pub fn batch_id_has_32_digits()
    ensures { (ids : List (List ℕ))
        → (length (batch_id_of ids) ≡ 32) × All (Contains lower_digits) (batch_id_of ids) }
{}

/// What is hashed tells the parameters apart: pairs of texts that have one canonical text are the same pairs.
pub fn canonical_texts_tell_apart()
    ensures { (pairs others : List (List ℕ × List ℕ)) → AreTexts pairs → AreTexts others
        → canonical_text pairs ≡ canonical_text others → pairs ≡ others }
{}
