//! Lists of numbers in which none comes twice: the words that the crates above say their theorems in.
//!
//! `specs/Lists.antt` has the words: `member`, `times`, `Distinct`, `below`, `total`, and the edits `without` and `right_after`. `proofs/` has their
//! lemmas: `Members` cuts a list at a member, `Counting` compares counts. Nothing here runs; the two functions below state the
//! lemmas on which the others stand. The crate stands on the standard library alone.
#![tactic(auto)]

ghost use Rattle.std.specs.Prelude.{◌≡◌, ◌<◌, ◌≤◌, ℕ, Bool, List, true, count_by, length};
ghost use Rattle.kc_lists.specs.Lists.{member, Distinct};

/// Distinct numbers that pass a test are no more than those that pass it in a list that has each of them.
pub fn counts_follow_membership()
    ensures { (test : ℕ → Bool) (xs ys : List ℕ) → Distinct xs
        → ((x : ℕ) → member x xs ≡ true → test x ≡ true → member x ys ≡ true) → count_by test xs ≤ count_by test ys }
{}

/// Distinct numbers below a bound are no more than the bound.
pub fn distinct_numbers_fit_below()
    ensures { (bound : ℕ) (xs : List ℕ) → Distinct xs → ((x : ℕ) → member x xs ≡ true → x < bound) → length xs ≤ bound }
{}
