//! Ids in rising order: ids near each other, which are marked, and ids far apart, which are sorted.
use super::assert_ids;
use qh_model::Id;
use qh_polygon::rising_ids;
use std::test::Fail;

#[test]
fn rising_ids_of_a_list(rt: HostRuntime) -> Result<(), Fail> {
    let near = rising_ids(rt.alloc(), &[7, 2, 9, 2, 0].map(Id::new))?;
    assert_ids(&rt, &near, &[0, 2, 7, 9]);
    let far = rising_ids(rt.alloc(), &[1_000_000, 9, 70_000].map(Id::new))?;
    assert_ids(&rt, &far, &[9, 70_000, 1_000_000]);
    assert_ids(&rt, &rising_ids(rt.alloc(), &[])?, &[]);
    Ok(())
}
