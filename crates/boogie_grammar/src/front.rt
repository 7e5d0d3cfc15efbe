// A prefix of a text.
ghost use Rattle.std.specs.Prelude.{◌≡◌, ◌≤◌, ◌<◌, ◌≢◌, ◌++◌, length, take, get_or, MatchResult};
ghost use Rattle.vb_base.specs.Limits.{max_boogie_bytes};
ghost use Rattle.boogie_tree.specs.Text.{prelude};
ghost use Rattle.boogie_grammar.specs.Step.{LacksFront};

use boogie_tree::PRELUDE;
use vb_base::{Pos, place_after};

/// What follows the prelude, or the place of the first byte that differs from it, or the end.
#[tactic(auto, unfolding(boogie_tree::specs::Text::prelude))]
pub fn after_prelude(bytes: &[u8]) -> Result<&[u8], Pos>
    ensures { MatchResult result (λ rest. bytes.now ≡ prelude ++ rest.now) (LacksFront bytes.now prelude) }
{
    after_front(bytes, PRELUDE)
}

/// What follows these bytes, or the place of the first byte that differs from them, or the end.
fn after_front<'a>(bytes: &'a [u8], front: &[u8]) -> Result<&'a [u8], Pos>
    requires { length front.now ≤ max_boogie_bytes }
    ensures { MatchResult result (λ rest. bytes.now ≡ front.now ++ rest.now) (LacksFront bytes.now front.now) }
{
    let same = same_len(bytes, front);
    if same == front.len() {
        Ok(&bytes[same..])
    } else {
        Err(place_after(&front[..same]))
    }
}

/// How many bytes from the first on are the same.
fn same_len(bytes: &[u8], front: &[u8]) -> usize
    ensures same { take result bytes.now ≡ take result front.now }
    ensures differs { result < length front.now → result < length bytes.now → get_or bytes.now result 0 ≢ get_or front.now result 0 }
    ensures within_bytes { result ≤ length bytes.now }
    ensures within_front { result ≤ length front.now }
{
    for (i, byte) in front.iter().enumerate() {
        if i >= bytes.len() || bytes[i] != *byte {
            return i;
        }
    }
    front.len()
}
