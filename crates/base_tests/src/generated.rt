// Generated programs.
use std::alloc::Global;
use vb_gen::{GenFault, make_program};

const OF_TWO: &str = "\
field f: Int
method m1(x: Ref) returns (r: Int)
  requires acc(x.f, 1/2)
  ensures acc(x.f, 1/2) && r == x.f + 1
{
  r := x.f + 1
}
method m2(x: Ref) returns (r: Int)
  requires acc(x.f, 1/2)
  ensures acc(x.f, 1/2) && r == x.f + 1
{
  r := m1(x)
}
";

/// Whether a program of one method is the prefix of one of two, and that of one of 2,000.
fn grows(alloc: Global) -> Option<bool> {
    let two = make_program(alloc, 2).ok()?;
    let most = make_program(alloc, 2_000).ok()?;
    let one = make_program(alloc, 1).ok()?;
    let is_front = one.len() == 132 && OF_TWO.as_bytes().starts_with(&one);
    Some(is_front && two.as_slice() == OF_TWO.as_bytes() && most.starts_with(&two))
}

#[test]
fn a_program_has_its_methods(rt: HostRuntime) {
    assert!(rt; grows(rt.alloc()) == Some(true));
}

#[test]
fn a_number_of_methods_has_its_range(rt: HostRuntime) {
    for n in [0, 2_001] {
        assert!(rt;
            make_program(rt.alloc(), n).err() == Some(GenFault::Range),
            "{n}"
        );
    }
}
