// The lines with which each program begins.

/// The prelude: references, and contents of predicates as finite trees. It is a prefix of each Boogie program.
pub const PRELUDE: &[u8] = b"type Ref;
const null: Ref;
type Snap;
function sTag(s: Snap): int;
const sUnit: Snap;
function sInt(i: int): Snap;
function sBool(b: bool): Snap;
function sRef(r: Ref): Snap;
function sPerm(p: real): Snap;
function sPair(a: Snap, b: Snap): Snap;
function sIntOf(s: Snap): int;
function sBoolOf(s: Snap): bool;
function sRefOf(s: Snap): Ref;
function sPermOf(s: Snap): real;
function sFirst(s: Snap): Snap;
function sSecond(s: Snap): Snap;
axiom sTag(sUnit) == 0;
axiom (forall i: int :: {sInt(i)} sTag(sInt(i)) == 1 && sIntOf(sInt(i)) == i);
axiom (forall b: bool :: {sBool(b)} sTag(sBool(b)) == 2 && sBoolOf(sBool(b)) == b);
axiom (forall r: Ref :: {sRef(r)} sTag(sRef(r)) == 3 && sRefOf(sRef(r)) == r);
axiom (forall p: real :: {sPerm(p)} sTag(sPerm(p)) == 4 && sPermOf(sPerm(p)) == p);
axiom (forall a: Snap, b: Snap :: {sPair(a, b)} sTag(sPair(a, b)) == 5 && sFirst(sPair(a, b)) == a && sSecond(sPair(a, b)) == b);
";
