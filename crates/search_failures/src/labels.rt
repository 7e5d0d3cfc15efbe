// Labels as keys of maps.
use vb_base::{Label, Pos};

/// A label as a key: its two places and its kind.
pub(crate) type LabelKey = ((u32, u32), (u32, u32), i64);

fn place_key(place: Pos) -> (u32, u32) {
    (place.line, place.col)
}

/// The key of a label.
pub(crate) fn key_of(label: Label) -> LabelKey {
    (
        place_key(label.at),
        place_key(label.part),
        label.kind as i64,
    )
}
