//! The laws of maps with a default, as contracts of functions that do nothing.
ghost use Rattle.std.specs.Prelude.{◌≡◌, ◌≢◌, ◌↔◌, ℕ, Bool, Contains, map, slice_get};
ghost use Rattle.std.specs.Bool.{Decides};
ghost use Rattle.std.specs.Cmp.{IsTotalOrder, IsEquivalence};
ghost use Rattle.std.specs.declared.cmp.Ordering.{Ordering};
ghost use Rattle.sparse.specs.Map.{Map, empty, keys, get, set, IsReduced, is_reduced, IsSame};
ghost use Rattle.sparse.specs.Meaning.{IsExact, IsMeaning, meaning_of};

/// After a change the key has the new value.
pub fn get_after_set<K, V>()
    ensures { (cmp : K → K → Ordering) (eq : V → V → Bool) → IsExact cmp eq → (m : Map K V) →
        IsReduced cmp eq m → (k : K) (v : V) →
        get cmp (set cmp eq m k v) k ≡ v }
{}

/// After a change any other key has the value that it had.
pub fn get_after_set_elsewhere<K, V>()
    ensures { (cmp : K → K → Ordering) (eq : V → V → Bool) → IsExact cmp eq → (m : Map K V) →
        IsReduced cmp eq m → (k q : K) (v : V) → k ≢ q →
        get cmp (set cmp eq m k v) q ≡ get cmp m q }
{}

/// A key that is given the default is not among the keys.
pub fn default_leaves_no_entry<K, V>()
    ensures { (cmp : K → K → Ordering) (eq : V → V → Bool) → IsExact cmp eq → (m : Map K V) →
        IsReduced cmp eq m → (k : K) →
        ¬ Contains (keys (set cmp eq m k m.default)) k }
{}

/// The keys are those that have another value than the default.
pub fn keys_have_other_values<K, V>()
    ensures { (cmp : K → K → Ordering) (eq : V → V → Bool) → IsExact cmp eq → (m : Map K V) →
        IsReduced cmp eq m → (k : K) →
        Contains (keys m) k ↔ (get cmp m k ≢ m.default) }
{}

/// At the index of a key stands its entry, the key with its value.
pub fn keys_stand_with_their_values<K, V>()
    ensures { (cmp : K → K → Ordering) (eq : V → V → Bool) → IsTotalOrder cmp → (m : Map K V) →
        IsReduced cmp eq m → (i : ℕ) (k : K) → slice_get (keys m) i ≡ Some k →
        slice_get m.entries i ≡ Some (k, get cmp m k) }
{}

/// Two maps with one default that have the same value at every key are equal.
pub fn equal_where_all_values_agree<K, V>()
    ensures { (cmp : K → K → Ordering) (eq : V → V → Bool) → IsExact cmp eq → (m n : Map K V) →
        IsReduced cmp eq m → IsReduced cmp eq n → m.default ≡ n.default →
        ((q : K) → get cmp m q ≡ get cmp n q) →
        m ≡ n }
{}

/// Of two changes at one key the second counts.
pub fn set_twice<K, V>()
    ensures { (cmp : K → K → Ordering) (eq : V → V → Bool) → IsExact cmp eq → (m : Map K V) →
        IsReduced cmp eq m → (k : K) (v w : V) →
        set cmp eq (set cmp eq m k v) k w ≡ set cmp eq m k w }
{}

/// Changes at different keys may come in either order.
pub fn set_in_either_order<K, V>()
    ensures { (cmp : K → K → Ordering) (eq : V → V → Bool) → IsExact cmp eq → (m : Map K V) →
        IsReduced cmp eq m → (k q : K) (v w : V) → k ≢ q →
        set cmp eq (set cmp eq m k v) q w ≡ set cmp eq (set cmp eq m q w) k v }
{}

/// A key that is given the value it has changes nothing.
pub fn set_to_the_same<K, V>()
    ensures { (cmp : K → K → Ordering) (eq : V → V → Bool) → IsExact cmp eq → (m : Map K V) →
        IsReduced cmp eq m → (k : K) →
        set cmp eq m k (get cmp m k) ≡ m }
{}

/// The map in which every key has the default is reduced, and a change keeps a map so.
pub fn stays_reduced<K, V>()
    ensures empty { (cmp : K → K → Ordering) (eq : V → V → Bool) → IsTotalOrder cmp → (z : V) →
        IsReduced cmp eq (empty {K = K} z) }
    ensures set { (cmp : K → K → Ordering) (eq : V → V → Bool) → IsTotalOrder cmp → (m : Map K V) →
        IsReduced cmp eq m → (k : K) (v : V) →
        IsReduced cmp eq (set cmp eq m k v) }
    ensures same { (cmp : K → K → Ordering) (eq : V → V → Bool) → IsTotalOrder cmp → IsEquivalence eq →
        (m n : Map K V) → IsSame cmp eq m n → IsReduced cmp eq m →
        IsReduced cmp eq n }
{}

/// Whether a map is written in its one way can be tested.
pub fn the_test_of_reduced_maps_is_exact<K, V>()
    ensures { (cmp : K → K → Ordering) (eq : V → V → Bool) (m : Map K V) →
        Decides (is_reduced cmp eq m) (IsReduced cmp eq m) }
{}

/// Maps that are not told apart are equal, where the order and the equality tell all keys and values apart.
pub fn same_maps_are_equal<K, V>()
    ensures { (cmp : K → K → Ordering) (eq : V → V → Bool) → IsExact cmp eq → (m n : Map K V) →
        IsSame cmp eq m n →
        m ≡ n }
{}

/// Maps that are not told apart mean the same.
pub fn same_maps_mean_the_same<K, V, M, N>()
    ensures { (cmp : K → K → Ordering) (eq : V → V → Bool) (f : K → M) (g : V → N) (order : M → M → Ordering) (same : N → N → Bool) →
        IsMeaning cmp eq f g order same → IsExact order same → (m n : Map K V) →
        IsSame cmp eq m n →
        meaning_of f g m ≡ meaning_of f g n }
{}

/// To read, to change and to list a map is to do so with what it means.
pub fn meaning_is_kept<K, V, M, N>()
    ensures get { (cmp : K → K → Ordering) (eq : V → V → Bool) (f : K → M) (g : V → N) (order : M → M → Ordering) (same : N → N → Bool) →
        IsMeaning cmp eq f g order same → (m : Map K V) (k : K) →
        get order (meaning_of f g m) (f k) ≡ g (get cmp m k) }
    ensures set { (cmp : K → K → Ordering) (eq : V → V → Bool) (f : K → M) (g : V → N) (order : M → M → Ordering) (same : N → N → Bool) →
        IsMeaning cmp eq f g order same → (m : Map K V) (k : K) (v : V) →
        set order same (meaning_of f g m) (f k) (g v) ≡ meaning_of f g (set cmp eq m k v) }
    ensures keys { (cmp : K → K → Ordering) (eq : V → V → Bool) (f : K → M) (g : V → N) (order : M → M → Ordering) (same : N → N → Bool) →
        IsMeaning cmp eq f g order same → (m : Map K V) →
        keys (meaning_of f g m) ≡ map f (keys m) }
    ensures reduced { (cmp : K → K → Ordering) (eq : V → V → Bool) (f : K → M) (g : V → N) (order : M → M → Ordering) (same : N → N → Bool) →
        IsMeaning cmp eq f g order same → (m : Map K V) → IsReduced cmp eq m →
        IsReduced order same (meaning_of f g m) }
{}
