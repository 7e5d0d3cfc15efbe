//! Balanced trees of entries in the order of their keys. What is not changed is shared by `Rc`.
ghost use Rattle.std.specs.Prelude.{◌≡◌, ◌<◌, ◌≤◌, ◌+◌, ◌∷◌, [], ◌++◌, max, length, slice_get, IfOk, OnOk, IfNone, IfSome, unwrap_or, vec_len, vec_capacity};
ghost use Rattle.std.specs.BTreeMap.{is_at};
ghost use Rattle.std.specs.List.Sorted.{IsStrictlySortedBy};
ghost use Rattle.std.specs.Map.{keys_of, lookup, remove_entry};
ghost use Rattle.sparse.specs.Map.{borrowed};
ghost use Rattle.sparse.specs.Tree.{Bare, plain_of, entries, height, DifferByAtMost, IsBalanced, node, IsGrown, IsJoined, IsShrunk, IsSplit, IsLowest, shared, put_entry};

use crate::Memory;
use std::alloc::Global;
use std::cmp::Ordering;
use std::rc::Rc;

/// No entries, or a node.
#[cycle(tree)]
#[derive(Debug, Drop)]
pub(crate) enum Tree<K, V> {
    Leaf,
    Fork(Rc<Node<K, V>>),
}

/// An entry between the entries before it and those after it, and the height and the number of entries of
/// the whole.
#[cycle(tree)]
#[derive(Debug, Drop)]
pub(crate) struct Node<K, V> {
    left: Tree<K, V>,
    entry: Rc<(K, V)>,
    right: Tree<K, V>,
    height: u32,
    size: usize,
}

impl<K: Drop, V: Drop> Tree<K, V> {
    /// The same tree, shared.
    pub(crate) fn share(&self) -> Result<Tree<K, V>, Memory>
        ensures same { IfOk result (λ t. plain_of t ≡ plain_of self.now) }
    {
        match self {
            Tree::Leaf => Ok(Tree::Leaf),
            Tree::Fork(node) => Ok(Tree::Fork(node.clone()?)),
        }
    }

    /// How many entries stand below one another at most.
    fn height(&self) -> u32
        requires { IsBalanced (plain_of self.now) }
        ensures { result ≡ height (plain_of self.now) }
    {
        match self {
            Tree::Leaf => 0,
            Tree::Fork(node) => node.height,
        }
    }

    /// How many entries there are.
    pub(crate) fn size(&self) -> usize
        requires { IsBalanced (plain_of self.now) }
        ensures { result ≡ length (entries (plain_of self.now)) }
    {
        match self {
            Tree::Leaf => 0,
            Tree::Fork(node) => node.size,
        }
    }

    /// Adds the entries to a list that has room for them, from left to right.
    pub(crate) fn list<'a>(&'a self, all: &mut Vec<&'a (K, V)>)
        requires { vec_len all.old + length (entries (plain_of self.now)) ≤ vec_capacity all.old }
        ensures entries { borrowed all.new.items ≡ borrowed all.old.items ++ entries (plain_of self.now) }
        ensures len { vec_len all.new ≡ vec_len all.old + length (entries (plain_of self.now)) }
        ensures capacity { vec_capacity all.new ≡ vec_capacity all.old }
    {
        let Tree::Fork(node) = self else {
            return;
        };
        node.left.list(all);
        all.push_reserved(&*node.entry);
        node.right.list(all);
    }

    /// Adds the entries to a list that shares them, from left to right.
    pub(crate) fn list_shared(&self, all: &mut Vec<Rc<(K, V)>>) -> Result<(), Memory>
        ensures { OnOk result (shared all.new.items ≡ shared all.old.items ++ entries (plain_of self.now)) }
    {
        let Tree::Fork(node) = self else {
            return Ok(());
        };
        node.left.list_shared(all)?;
        all.push(node.entry.clone()?)?;
        node.right.list_shared(all)
    }
}

/// The height and the number of entries of a node over two sides.
fn numbers<K: Drop, V: Drop>(left: &Tree<K, V>, right: &Tree<K, V>) -> Result<(u32, usize), Memory>
    requires left { IsBalanced (plain_of left.now) }
    requires right { IsBalanced (plain_of right.now) }
    ensures height { IfOk result (λ p. p.0 ≡ max (height (plain_of left.now)) (height (plain_of right.now)) + 1) }
    ensures size { IfOk result (λ p. p.1 ≡ length (entries (plain_of left.now)) + length (entries (plain_of right.now)) + 1) }
{
    let below = left.height().max(right.height());
    let height = below.checked_add(1).ok_or(Memory)?;
    let beside = left.size().checked_add(right.size()).ok_or(Memory)?;
    let size = beside.checked_add(1).ok_or(Memory)?;
    Ok((height, size))
}

/// A node over two sides.
fn fork<K: Drop, V: Drop>(
    alloc: Global,
    left: &Tree<K, V>,
    entry: &Rc<(K, V)>,
    right: &Tree<K, V>,
) -> Result<Tree<K, V>, Memory>
    requires left { IsBalanced (plain_of left.now) }
    requires right { IsBalanced (plain_of right.now) }
    ensures node { IfOk result (λ t. plain_of t ≡ node (plain_of left.now) entry.now.value (plain_of right.now)) }
{
    let (height, size) = numbers(left, right)?;
    let node = Node {
        left: left.share()?,
        entry: entry.clone()?,
        right: right.share()?,
        height,
        size,
    };
    Ok(Tree::Fork(Rc::new(alloc, node)?))
}

/// A node over two sides of which the left is two higher: the entries turn to the right.
fn lean_left<K: Drop, V: Drop>(
    alloc: Global,
    left: &Tree<K, V>,
    entry: &Rc<(K, V)>,
    right: &Tree<K, V>,
) -> Result<Tree<K, V>, Memory>
    requires left { IsBalanced (plain_of left.now) }
    requires right { IsBalanced (plain_of right.now) }
    requires two_higher { height (plain_of left.now) ≡ height (plain_of right.now) + 2 }
    ensures joined { IfOk result (λ t. IsJoined (plain_of left.now) entry.now.value (plain_of right.now) (plain_of t)) }
{
    let Tree::Fork(top) = left else {
        unreachable!()
    };
    if top.left.height() >= top.right.height() {
        let low = fork(alloc, &top.right, entry, right)?;
        return fork(alloc, &top.left, &top.entry, &low);
    }
    let Tree::Fork(middle) = &top.right else {
        unreachable!()
    };
    let low = fork(alloc, &top.left, &top.entry, &middle.left)?;
    let high = fork(alloc, &middle.right, entry, right)?;
    fork(alloc, &low, &middle.entry, &high)
}

/// A node over two sides of which the right is two higher: the entries turn to the left.
fn lean_right<K: Drop, V: Drop>(
    alloc: Global,
    left: &Tree<K, V>,
    entry: &Rc<(K, V)>,
    right: &Tree<K, V>,
) -> Result<Tree<K, V>, Memory>
    requires left { IsBalanced (plain_of left.now) }
    requires right { IsBalanced (plain_of right.now) }
    requires two_higher { height (plain_of right.now) ≡ height (plain_of left.now) + 2 }
    ensures joined { IfOk result (λ t. IsJoined (plain_of left.now) entry.now.value (plain_of right.now) (plain_of t)) }
{
    let Tree::Fork(top) = right else {
        unreachable!()
    };
    if top.right.height() >= top.left.height() {
        let low = fork(alloc, left, entry, &top.left)?;
        return fork(alloc, &low, &top.entry, &top.right);
    }
    let Tree::Fork(middle) = &top.left else {
        unreachable!()
    };
    let low = fork(alloc, left, entry, &middle.left)?;
    let high = fork(alloc, &middle.right, &top.entry, &top.right)?;
    fork(alloc, &low, &middle.entry, &high)
}

/// A node over two sides whose heights differ by at most 2, turned where they differ by 2.
fn balanced<K: Drop, V: Drop>(
    alloc: Global,
    left: &Tree<K, V>,
    entry: &Rc<(K, V)>,
    right: &Tree<K, V>,
) -> Result<Tree<K, V>, Memory>
    requires left { IsBalanced (plain_of left.now) }
    requires right { IsBalanced (plain_of right.now) }
    requires near { DifferByAtMost 2 (height (plain_of left.now)) (height (plain_of right.now)) }
    ensures joined { IfOk result (λ t. IsJoined (plain_of left.now) entry.now.value (plain_of right.now) (plain_of t)) }
{
    if left.height().saturating_sub(right.height()) > 1 {
        return lean_left(alloc, left, entry, right);
    }
    if right.height().saturating_sub(left.height()) > 1 {
        return lean_right(alloc, left, entry, right);
    }
    fork(alloc, left, entry, right)
}

/// The first entry and the tree of the others, if there are entries.
type Split<K, V> = Option<(Rc<(K, V)>, Tree<K, V>)>;

/// Takes the first entry out.
fn split_first<K: Drop, V: Drop>(alloc: Global, tree: &Tree<K, V>) -> Result<Split<K, V>, Memory>
    requires { IsBalanced (plain_of tree.now) }
    ensures none { IfOk result (λ s. IfNone s (plain_of tree.now ≡ Bare)) }
    ensures some { IfOk result (λ s. IfSome s (λ p. IsSplit (plain_of tree.now) p.0.value (plain_of p.1))) }
{
    let Tree::Fork(node) = tree else {
        return Ok(None);
    };
    match split_first(alloc, &node.left)? {
        None => Ok(Some((node.entry.clone()?, node.right.share()?))),
        Some((first, left)) => {
            let rest = balanced(alloc, &left, &node.entry, &node.right)?;
            Ok(Some((first, rest)))
        }
    }
}

/// The entries of two sides whose heights differ by at most 1.
fn joined<K: Drop, V: Drop>(
    alloc: Global,
    left: &Tree<K, V>,
    right: &Tree<K, V>,
) -> Result<Tree<K, V>, Memory>
    requires left { IsBalanced (plain_of left.now) }
    requires right { IsBalanced (plain_of right.now) }
    requires near { DifferByAtMost 1 (height (plain_of left.now)) (height (plain_of right.now)) }
    ensures joined { IfOk result (λ t. IsShrunk (entries (plain_of left.now) ++ entries (plain_of right.now)) (max (height (plain_of left.now)) (height (plain_of right.now)) + 1) (plain_of t)) }
{
    match split_first(alloc, right)? {
        None => left.share(),
        Some((first, rest)) => balanced(alloc, left, &first, &rest),
    }
}

impl<K: Drop, V: Drop> Tree<K, V> {
    /// The tree of a list of entries, by halves: as low as a tree of so many entries can be.
    pub(crate) fn by_halves(alloc: Global, list: &[Rc<(K, V)>]) -> Result<Tree<K, V>, Memory>
        ensures lowest { IfOk result (λ t. IsLowest (shared list.now) (plain_of t)) }
    {
        if list.is_empty() {
            return Ok(Tree::Leaf);
        }
        let middle = list.len() / 2;
        let left = Tree::by_halves(alloc, &list[..middle])?;
        let right = Tree::by_halves(alloc, &list[middle + 1..])?;
        fork(alloc, &left, &list[middle], &right)
    }
}

impl<K: Ord + Drop, V: Drop> Tree<K, V> {
    /// The value of the entry with a key, or else `other`.
    pub(crate) fn get_or<'a>(&'a self, key: &K, other: &'a V) -> &'a V
        requires { IsStrictlySortedBy K.cmp (keys_of (entries (plain_of self.now))) }
        ensures { result.now ≡ unwrap_or (lookup (is_at (K.cmp key.now)) (entries (plain_of self.now))) other.now }
    {
        let Tree::Fork(node) = self else {
            return other;
        };
        match key.cmp(&node.entry.0) {
            Ordering::Less => node.left.get_or(key, other),
            Ordering::Equal => &node.entry.1,
            Ordering::Greater => node.right.get_or(key, other),
        }
    }

    /// The key at an index.
    pub(crate) fn key_at(&self, i: usize) -> &K
        requires balanced { IsBalanced (plain_of self.now) }
        requires inside { i < length (keys_of (entries (plain_of self.now))) }
        ensures { slice_get (keys_of (entries (plain_of self.now))) i ≡ Some result.now }
    {
        let Tree::Fork(node) = self else {
            unreachable!()
        };
        let before = node.left.size();
        match i.cmp(&before) {
            Ordering::Less => node.left.key_at(i),
            Ordering::Equal => &node.entry.0,
            Ordering::Greater => node.right.key_at(i - before - 1),
        }
    }

    /// The tree with an entry in the place of one with an equal key, or else where it keeps the keys in order.
    pub(crate) fn with(&self, alloc: Global, entry: &Rc<(K, V)>) -> Result<Tree<K, V>, Memory>
        requires ascending { IsStrictlySortedBy K.cmp (keys_of (entries (plain_of self.now))) }
        requires balanced { IsBalanced (plain_of self.now) }
        ensures { IfOk result (λ t. IsGrown (put_entry K.cmp (entries (plain_of self.now)) entry.now.value) (height (plain_of self.now)) (plain_of t)) }
    {
        let Tree::Fork(node) = self else {
            return fork(alloc, &Tree::Leaf, entry, &Tree::Leaf);
        };
        match entry.0.cmp(&node.entry.0) {
            Ordering::Less => {
                let left = node.left.with(alloc, entry)?;
                balanced(alloc, &left, &node.entry, &node.right)
            }
            Ordering::Equal => fork(alloc, &node.left, entry, &node.right),
            Ordering::Greater => {
                let right = node.right.with(alloc, entry)?;
                balanced(alloc, &node.left, &node.entry, &right)
            }
        }
    }

    /// The tree without the entry with a key, if there is one.
    pub(crate) fn without(&self, alloc: Global, key: &K) -> Result<Tree<K, V>, Memory>
        requires ascending { IsStrictlySortedBy K.cmp (keys_of (entries (plain_of self.now))) }
        requires balanced { IsBalanced (plain_of self.now) }
        ensures { IfOk result (λ t. IsShrunk (remove_entry (is_at (K.cmp key.now)) (entries (plain_of self.now))) (height (plain_of self.now)) (plain_of t)) }
    {
        let Tree::Fork(node) = self else {
            return Ok(Tree::Leaf);
        };
        match key.cmp(&node.entry.0) {
            Ordering::Less => {
                let left = node.left.without(alloc, key)?;
                balanced(alloc, &left, &node.entry, &node.right)
            }
            Ordering::Equal => joined(alloc, &node.left, &node.right),
            Ordering::Greater => {
                let right = node.right.without(alloc, key)?;
                balanced(alloc, &node.left, &node.entry, &right)
            }
        }
    }
}

impl<K: Ord + Drop, V: Eq + Drop> Tree<K, V> {
    ghost use Rattle.std.specs.List.{list_any};
    ghost use Rattle.std.specs.Map.{values_of};
    ghost use Rattle.sparse.specs.Map.{set, IsSame};

    /// Whether an entry has this value.
    pub(crate) fn has(&self, value: &V) -> bool
        ensures { result ≡ list_any (λ w. V.eq w value.now) (values_of (entries (plain_of self.now))) }
    {
        let Tree::Fork(node) = self else {
            return false;
        };
        node.left.has(value) || node.entry.1 == *value || node.right.has(value)
    }

    /// The tree of the map in which a key has a value, in a map whose default is `zero`.
    pub(crate) fn changed(
        &self,
        alloc: Global,
        zero: &V,
        key: K,
        value: V,
    ) -> Result<Tree<K, V>, Memory>
        requires ascending { IsStrictlySortedBy K.cmp (keys_of (entries (plain_of self.now))) }
        requires balanced { IsBalanced (plain_of self.now) }
        ensures balanced { IfOk result (λ t. IsBalanced (plain_of t)) }
        ensures same { IfOk result (λ t. IsSame K.cmp V.eq
            (set K.cmp V.eq (record { default = zero.now; entries = entries (plain_of self.now) }) key value)
            (record { default = zero.now; entries = entries (plain_of t) })) }
    {
        if value == *zero {
            return self.without(alloc, &key);
        }
        let entry = Rc::new(alloc, (key, value))?;
        self.with(alloc, &entry)
    }
}
