ghost use Rattle.std.specs.Prelude.{◌≡◌};

use super::*;
use std::test::Fail;

fn local(name: u32, depth: u32, number: u32) -> Entry
    ensures { result.name.0 ≡ name }
{
    Entry {
        name: NameId(name),
        depth,
        named: Named::Local(number),
    }
}

// `{ a; b; { a; } }` and then the outer block alone
#[test]
fn inner_names_hide_outer_ones(rt: HostRuntime) -> Result<(), Fail> {
    let mut scope = Scope::new(rt.alloc(), 3)?;
    assert_eq!(rt; scope.names(), 3);
    scope.declare(local(0, 1, 0))?;
    scope.declare(local(1, 1, 1))?;
    scope.declare(local(0, 2, 2))?;
    assert_eq!(rt; scope.find(NameId(0)), Some(local(0, 2, 2)));
    assert_eq!(rt; scope.find(NameId(1)), Some(local(1, 1, 1)));
    scope.leave(1);
    assert_eq!(rt; scope.find(NameId(0)), Some(local(0, 1, 0)));
    assert_eq!(rt; scope.find(NameId(2)), None);
    scope.leave(0);
    assert_eq!(rt; scope.find(NameId(0)), None);
    Ok(())
}
