// What is looked at.
use search_base::TermId;

/// What is looked at: a term, or a comparison that is not decided for its own sake.
#[derive(Clone, Copy, PartialEq, Eq, PartialOrd, Ord, Default)]
pub struct Item(u32);

impl Item {
    /// A term.
    pub fn of(n: TermId) -> Item {
        Item(n.number().saturating_mul(2))
    }

    /// A comparison that is looked at ahead, and decided only where its parts do that.
    pub fn ahead_of(n: TermId) -> Item {
        Item(n.number().saturating_mul(2).saturating_add(1))
    }

    /// The item at a place in a list by items.
    pub(crate) fn at(place: u32) -> Item {
        Item(place)
    }

    /// The term that it is.
    pub fn term(self) -> TermId {
        TermId::of(self.0 / 2)
    }

    /// Whether it is a comparison that is looked at ahead.
    pub fn is_ahead(self) -> bool {
        self.0 % 2 == 1
    }

    /// Its place in a list by items.
    pub fn place(self) -> usize {
        self.0 as usize
    }
}

/// What is done once of a term.
#[derive(Clone, Copy, PartialEq, Eq)]
pub enum Note {
    /// Its values were looked at.
    Opened,
    /// Its parts were looked at.
    Peeked,
}
