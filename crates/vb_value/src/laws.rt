//! Laws of the definitions, each as the contract of a function that does nothing.

ghost use Rattle.std.specs.Prelude.{◌≡◌, ◌≢◌, ◌↔◌, ℕ, ℤ, pos, ◌*ℤ◌, ◌<◌, List, true};
ghost use Rattle.std.specs.Int.{IsGcd};
ghost use Rattle.std.specs.Ordering.{ordering_reverse, is_lt, is_eq, is_gt};
ghost use Rattle.vb_value.specs.Gcd.{gcd};
ghost use Rattle.vb_value.specs.Euclid.{IsEuclidean};
ghost use Rattle.vb_value.specs.Fraction.{Fraction, IsReduced, IsWithinFraction, reduced, whole, none, write, sum, difference, product, quotient, quotient_by, order, is_negative, is_positive, is_none, is_above_one, fits_product, fits_quotient, fits_quotient_by, fits_order};
ghost use Rattle.vb_value.specs.View.{content_of};
ghost use Rattle.vb_value.specs.declared.values.Value.{Value};
ghost use Rattle.vb_value.specs.declared.keys.KeyPart.{KeyPart};
ghost use Rattle.vb_value.specs.declared.contents.Content.{Content};

use crate::{Content, Frac, Key, KeyPart, Value};
use std::cmp::Ordering;

/// The `gcd` of two numbers divides both, and each number that divides both divides it.
pub fn gcd_is_common_and_greatest()
    ensures { (a : ℕ) (b : ℕ) → IsGcd a b (gcd a b) }
{}

/// There is one quotient and one remainder that is not negative.
pub fn euclidean_division_is_unique()
    ensures { (a : ℤ) (d : ℤ) (q : ℤ) (r : ℤ) (p : ℤ) (s : ℤ) → IsEuclidean a d q r → IsEuclidean a d p s
        → (q ≡ p) × (r ≡ s) }
{}

/// `reduced n d` is in lowest terms, and it is `n / d`.
pub fn reducing_keeps_the_ratio()
    ensures lowest { (n : ℤ) (d : ℕ) → 0 < d → IsReduced (reduced n d) }
    ensures ratio { (n : ℤ) (d : ℕ) → (reduced n d).num *ℤ pos d ≡ n *ℤ pos (reduced n d).den }
{}

/// Two fractions in lowest terms with equal cross products are one.
pub fn lowest_terms_are_unique()
    ensures { (p : Fraction) (q : Fraction) → IsReduced p → IsReduced q
        → p.num *ℤ pos q.den ≡ q.num *ℤ pos p.den → p ≡ q }
{}

/// Sums and products of fractions in lowest terms obey the usual laws.
pub fn arithmetic_is_that_of_the_rationals()
    ensures sum_commutes { (p : Fraction) (q : Fraction) → sum p q ≡ sum q p }
    ensures sum_associates { (p : Fraction) (q : Fraction) (r : Fraction) → IsReduced p → IsReduced q → IsReduced r
        → sum (sum p q) r ≡ sum p (sum q r) }
    ensures zero_is_neutral { (p : Fraction) → IsReduced p → sum p (whole (pos 0)) ≡ p }
    ensures difference_undoes { (p : Fraction) (q : Fraction) → IsReduced p → IsReduced q
        → difference (sum p q) q ≡ p }
    ensures product_associates { (p : Fraction) (q : Fraction) (r : Fraction) → IsReduced p → IsReduced q
        → IsReduced r → product (product p q) r ≡ product p (product q r) }
    ensures one_is_neutral { (p : Fraction) → IsReduced p → product (whole (pos 1)) p ≡ p }
    ensures difference_is_undone { (p : Fraction) (q : Fraction) → IsReduced p → IsReduced q
        → sum (difference p q) q ≡ p }
    ensures product_commutes { (p : Fraction) (q : Fraction) → product p q ≡ product q p }
    ensures quotient_is_undone { (p : Fraction) (q : Fraction) → IsReduced p → IsReduced q → q.num ≢ pos 0
        → product (quotient p q) q ≡ p }
    ensures product_distributes { (r : Fraction) (p : Fraction) (q : Fraction) → IsReduced r → IsReduced p
        → IsReduced q → product r (sum p q) ≡ sum (product r p) (product r q) }
{}

/// The order of fractions in lowest terms is total, and to add the same on both sides keeps it, as does a positive factor.
pub fn order_is_that_of_the_rationals()
    ensures turns { (p : Fraction) (q : Fraction) → order p q ≡ ordering_reverse (order q p) }
    ensures tells { (p : Fraction) (q : Fraction) → IsReduced p → IsReduced q → order p q ≡ Ordering.Equal → p ≡ q }
    ensures chains { (p : Fraction) (q : Fraction) (r : Fraction) → IsReduced p → IsReduced q → IsReduced r
        → order p q ≡ Ordering.Less → order q r ≡ Ordering.Less → order p r ≡ Ordering.Less }
    ensures sums { (p : Fraction) (q : Fraction) (r : Fraction) → IsReduced p → IsReduced q → IsReduced r
        → order (sum p r) (sum q r) ≡ order p q }
    ensures products { (k : Fraction) (p : Fraction) (q : Fraction) → IsReduced k → IsReduced p → IsReduced q
        → is_positive k ≡ true → order (product k p) (product k q) ≡ order p q }
{}

/// To compare an amount with none or with write is never over, and tells its sign and whether it is above write.
pub fn comparing_with_none_or_write_is_never_over()
    ensures fits_none { (q : Fraction) → IsWithinFraction q → fits_order q none ≡ true }
    ensures fits_write { (q : Fraction) → IsWithinFraction q → fits_order q write ≡ true }
    ensures negative { (q : Fraction) → is_negative q ≡ is_lt (order q none) }
    ensures positive { (q : Fraction) → is_positive q ≡ is_gt (order q none) }
    ensures none { (q : Fraction) → is_none q ≡ is_eq (order q none) }
    ensures above_one { (q : Fraction) → is_above_one q ≡ is_gt (order q write) }
{}

/// To multiply an amount by write is never over.
pub fn multiplying_by_write_is_never_over()
    ensures { (q : Fraction) → IsWithinFraction q → fits_product write q ≡ true }
{}

/// To divide by a whole number is to divide by it as a fraction, and is over exactly where that is.
pub fn dividing_by_a_number_is_dividing_by_its_fraction()
    ensures value { (p : Fraction) (n : ℤ) → quotient_by p n ≡ quotient p (whole n) }
    ensures fits { (p : Fraction) (n : ℤ) → IsWithinFraction p
        → fits_quotient_by p n ≡ fits_quotient p (whole n) }
{}

/// `==` tells fractions, values and contents apart exactly.
pub fn equality_is_exact()
    ensures fractions { (x : Fraction) (y : Fraction) → (⟦<Frac as PartialEq>⟧.eq x y ≡ true) ↔ (x ≡ y) }
    ensures values { (x : Value) (y : Value) → (⟦<Value as PartialEq>⟧.eq x y ≡ true) ↔ (x ≡ y) }
    ensures contents { (x : Content) (y : Content)
        → (⟦<Content as PartialEq>⟧.eq x y ≡ true) ↔ (content_of x ≡ content_of y) }
{}

/// The order of keys and of their parts answers `Equal` exactly for equal ones.
pub fn order_of_keys_is_exact()
    ensures parts { (x : KeyPart) (y : KeyPart) → (⟦<KeyPart as Ord>⟧.cmp x y ≡ Ordering.Equal) ↔ (x ≡ y) }
    ensures keys { (x : List KeyPart) (y : List KeyPart) → (⟦<Key as Ord>⟧.cmp x y ≡ Ordering.Equal) ↔ (x ≡ y) }
{}

/// A clone equals its source.
pub fn clones_are_equal()
    ensures fractions { (x : Fraction) (y : Fraction) → ⟦<Frac as Clone>⟧.is_clone x y → y ≡ x }
    ensures values { (x : Value) (y : Value) → ⟦<Value as Clone>⟧.is_clone x y → y ≡ x }
    ensures keys { (x : List KeyPart) (y : List KeyPart) → ⟦<Key as Clone>⟧.is_clone x y → y ≡ x }
    ensures contents { (x : Content) (y : Content) → ⟦<Content as Clone>⟧.is_clone x y
        → content_of y ≡ content_of x }
{}
