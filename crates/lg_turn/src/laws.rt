//! What the definitions come to.
ghost use Rattle.std.specs.Prelude.{◌≡◌, ◌≢◌, ℕ, ◌<◌, ◌≤◌, List, [], ◌∷◌, ◌++◌, length, slice_index, All, sum_by};
ghost use Rattle.std.specs.List.{range_with_len};
ghost use mathlib.Core.Option.{some};
ghost use lib.ListN.{get_elem?};
ghost use Rattle.atomic_table.specs.Table.{State};
ghost use Rattle.lg_turn.specs.declared.view.View.{View};
ghost use Rattle.lg_turn.specs.declared.view.Stage.TheVariants.{Holds, Alone};
ghost use Rattle.lg_turn.specs.Views.{of_pass, drawn_in, out_in, Precedes, MayFollow};
ghost use Rattle.lg_turn.specs.Rule.{IsKept, passes_of, with_number, out_of};

use crate::keeps::Keeps;

/// Where each entry has the number of a caller, the entries of all callers, counted together, are those of the list.
pub fn each_entry_is_of_one_pass<V: Keeps>()
    ensures { (list : List V.Item) (callers : ℕ) → All (λ e. V.number e < callers) list
        → sum_by (λ n. length (of_pass V.number n list)) (range_with_len 0 callers) ≡ length list }
{}

/// An entry behind the list is the last one of its pass.
pub fn added_to_its_pass<V: Keeps>()
    ensures { (list : List V.Item) (e : V.Item) → of_pass V.number (V.number e) (list ++ e ∷ []) ≡ of_pass V.number (V.number e) list ++ e ∷ [] }
{}

/// An entry behind the list changes nothing for other passes.
pub fn others_stay<V: Keeps>()
    ensures { (list : List V.Item) (e : V.Item) (n : ℕ) → n ≢ V.number e → of_pass V.number n (list ++ e ∷ []) ≡ of_pass V.number n list }
{}

/// Two seats never have the value at once.
pub fn one_at_a_time<V: Keeps>()
    ensures { (callers : ℕ) (base : V.Base) (s : State _ (View V.Item V.Base)) (i j t u : ℕ) (v w : View V.Item V.Base)
        → IsKept V.items V.number V.base callers base s
        → get_elem? s.views i ≡ some v → v.stage ≡ Holds t → get_elem? s.views j ≡ some w → w.stage ≡ Holds u → i ≡ j }
{}

/// In the roll stands how many passes are out. One that is about to be split off, or to be taken out of the roll, counts.
pub fn the_roll_counts_passes<V: Keeps>()
    ensures { (callers : ℕ) (base : V.Base) (s : State _ (View V.Item V.Base)) → IsKept V.items V.number V.base callers base s
        → out_in (slice_index s.words 2) ≡ sum_by out_of s.views }
{}

/// The number that the roll gives to the next pass is above that of each pass.
pub fn the_next_number_is_new<V: Keeps>()
    ensures { (callers : ℕ) (base : V.Base) (s : State _ (View V.Item V.Base)) (i n : ℕ) (v : View V.Item V.Base)
        → IsKept V.items V.number V.base callers base s → get_elem? s.views i ≡ some v → 0 < with_number n v → n < drawn_in (slice_index s.words 2) }
{}

/// And above that of each entry.
pub fn the_next_number_has_no_entry<V: Keeps>()
    ensures { (callers : ℕ) (base : V.Base) (s : State _ (View V.Item V.Base)) (k : IsKept V.items V.number V.base callers base s)
        → All (λ e. V.number e < drawn_in (slice_index s.words 2)) k.list }
{}

/// Two seats never have passes of one number.
pub fn no_number_twice<V: Keeps>()
    ensures { (callers : ℕ) (base : V.Base) (s : State _ (View V.Item V.Base)) (i j n : ℕ) (v w : View V.Item V.Base)
        → IsKept V.items V.number V.base callers base s
        → get_elem? s.views i ≡ some v → 0 < with_number n v → get_elem? s.views j ≡ some w → 0 < with_number n w → i ≡ j }
{}

/// Where the passes of one seat are as many as there are callers no other seat has a pass.
pub fn all_passes_leave_no_other<V: Keeps>()
    ensures { (callers : ℕ) (base : V.Base) (s : State _ (View V.Item V.Base)) (i j : ℕ) (v w : View V.Item V.Base)
        → IsKept V.items V.number V.base callers base s
        → get_elem? s.views i ≡ some v → callers ≤ passes_of callers v → get_elem? s.views j ≡ some w → i ≢ j → w.accounts ≡ [] }
{}

/// And where one seat has found that no other pass is out, as `close` does before it ends the turn.
pub fn alone_leaves_no_other<V: Keeps>()
    ensures { (callers : ℕ) (base : V.Base) (s : State _ (View V.Item V.Base)) (i j : ℕ) (v w : View V.Item V.Base)
        → IsKept V.items V.number V.base callers base s
        → get_elem? s.views i ≡ some v → v.stage ≡ Alone → get_elem? s.views j ≡ some w → i ≢ j → w.accounts ≡ [] }
{}

/// Where one seat has all passes, and numbers are left, it finds no other count of passes out than the roll has: in a
/// word that may follow on all that they found and left, and on which the roll may follow.
pub fn all_passes_find_the_roll<V: Keeps>()
    ensures { (callers : ℕ) (base : V.Base) (s : State _ (View V.Item V.Base)) (i word : ℕ) (v : View V.Item V.Base)
        → IsKept V.items V.number V.base callers base s
        → get_elem? s.views i ≡ some v → ((j : ℕ) (w : View V.Item V.Base) → get_elem? s.views j ≡ some w → i ≢ j → w.accounts ≡ [])
        → MayFollow v.accounts word → Precedes word (slice_index s.words 2) → drawn_in (slice_index s.words 2) < 4294967168
        → out_in word ≡ out_in (slice_index s.words 2) }
{}

/// There are never more passes than callers.
pub fn never_more_than_callers<V: Keeps>()
    ensures { (callers : ℕ) (base : V.Base) (s : State _ (View V.Item V.Base)) → IsKept V.items V.number V.base callers base s
        → sum_by (λ v. length v.accounts) s.views ≤ callers }
{}
