//! What the definitions come to, in the words of those who read the files.
ghost use Rattle.std.specs.Prelude.{◌≡◌, ℕ, List, [], ◌∷◌, ◌++◌, length, Contains};
ghost use Rattle.std.specs.List.{concat};
ghost use Rattle.lg_io.specs.Files.{AnsweredCall, FilesTold, IsTemporary, rename, done};
ghost use Rattle.lg_target.specs.Naming.{AsideFile, IsNamed, ten_digits, folder_above};
ghost use Rattle.lg_target.specs.Target.{AreCalled, IsOld, IsOldOrWhole, IsReplaced, RenamesOnce, StayAside, maps_between, writing};

/// While files aside alone are written, moved about and taken away, renames fail, and files appear, a path without the mark
/// stays as it is in every map.
pub fn aside_leaves_the_old()
    ensures { (path : List ℕ) (before : FilesTold) (calls : List AnsweredCall) (after : FilesTold)
        → ¬ IsTemporary path → StayAside calls → AreCalled before calls after
        → IsOld path (maps_between before after) }
{}

/// With one rename of a file aside among such calls, wherever it stands and whatever they answer, each path without the mark
/// is old or whole over all maps: those during the calls and those between them.
pub fn old_or_whole()
    ensures { (path : List ℕ) (before : FilesTold) (calls : List AnsweredCall) (after : FilesTold)
        → ¬ IsTemporary path → RenamesOnce calls → AreCalled before calls after
        → IsOldOrWhole path (maps_between before after) }
{}

/// Where pieces are written aside and the file is then renamed to a path without the mark, the whole bytes that the path has
/// from there on are these pieces, one behind another.
pub fn whole_is_what_was_written()
    ensures { (path aside : List ℕ) (pieces : List (List ℕ)) (before : FilesTold) (later : List AnsweredCall) (after : FilesTold)
        → ¬ IsTemporary path → IsTemporary aside → StayAside later
        → AreCalled before (writing aside pieces ++ record { call = rename aside path; answer = done } ∷ later) after
        → IsReplaced path (concat pieces) (maps_between before after) }
{}

/// The name of a file aside has the mark, and ends in ten digits.
pub fn names_have_the_mark()
    ensures mark { (file : AsideFile) → IsNamed file → IsTemporary file.name }
    ensures ten { (number : ℕ) → length (ten_digits number) ≡ 10 }
{}

/// The folder above a path is the front before its last `/`; a path without one has none.
pub fn folders()
    ensures front { (folder name : List ℕ) → ¬ Contains name 47 → folder_above (folder ++ 47 ∷ name) ≡ folder }
    ensures none { (path : List ℕ) → ¬ Contains path 47 → folder_above path ≡ [] }
{}
