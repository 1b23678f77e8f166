//! Rotations and tables at the ends of their ranges, and what is refused as one.

use feed::Refusal;
use renaming::{Renaming, Rotation, Table};
use std::array;
use std::test::Fail;

#[test]
fn rotations_at_their_ends(rt: HostRuntime) -> Result<(), Fail> {
    assert_eq!(rt; Rotation::new(0, 1).err(), Some(Refusal::BadRenaming));
    assert_eq!(rt; Rotation::new(65, 1).err(), Some(Refusal::BadRenaming));
    let one = Rotation::new(1, 255)?;
    assert_eq!(rt; (one.count(), one.there(0), one.back(0)), (1, 0, 0));
    let most = Rotation::new(64, 255)?;
    assert_eq!(rt; (most.there(1), most.back(0)), (0, 1));
    assert_eq!(rt;
        (most.there(64), most.back(64)),
        (64, 64),
        "a number at the count stays"
    );
    Ok(())
}

#[test]
fn tables_that_are_refused(rt: HostRuntime) -> Result<(), Fail> {
    let mut table = Table::new();
    assert_eq!(rt; (table.count(), table.there(0), table.back(1)), (1, 0, 1));
    table.set(&[2, 0, 1])?;
    assert_eq!(rt; table.set(&[]), Err(Refusal::BadRenaming));
    assert_eq!(rt; table.set(&[0, 1, 1]), Err(Refusal::BadRenaming));
    assert_eq!(rt; table.set(&[0, 3, 1]), Err(Refusal::BadRenaming));
    assert_eq!(rt;
        (table.count(), table.there(0), table.back(0)),
        (3, 2, 1),
        "the table stays"
    );
    assert_eq!(rt;
        (table.there(3), table.back(3)),
        (3, 3),
        "a number at the count stays"
    );
    Ok(())
}

#[test]
fn tables_of_sixty_four_and_one_more(rt: HostRuntime) -> Result<(), Fail> {
    let names: [u8; 65] = array::from_fn(|i| i as u8);
    let mut table = Table::new();
    assert_eq!(rt; table.set(&names), Err(Refusal::BadRenaming));
    table.set(&names[0..64])?;
    assert_eq!(rt;
        (table.count(), table.there(63), table.back(63)),
        (64, 63, 63)
    );
    Ok(())
}
