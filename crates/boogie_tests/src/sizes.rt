// How large the values are of which a file has most. A field more in one of them is paid by each.
use boogie_grammar::PlacedLexeme;
use std::mem::size_of;

const _: () = prove!(size_of::<PlacedLexeme>() == 32);
