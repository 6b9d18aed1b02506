//! What the class lists of small examples hold and claim.

use crate::tasklet_lists::TaskletLists;
use sched_base::{Class, TaskId};
use std::test::Fail;

#[test]
fn tasks_leave_in_the_order_in_which_they_came(rt: HostRuntime) -> Result<(), Fail> {
    let mut lists = TaskletLists::new(rt.alloc(), 4)?;
    assert_eq!(rt; lists.pop(Class::Bulk), None);
    lists.push(Class::Bulk, TaskId(2));
    lists.push(Class::Urgent, TaskId(3));
    lists.push(Class::Bulk, TaskId(0));
    assert_eq!(rt; lists.len(Class::Bulk), 2);
    assert_eq!(rt; lists.first(Class::Bulk), Some(TaskId(2)));
    assert_eq!(rt; lists.pop(Class::Bulk), Some(TaskId(2)));
    lists.push(Class::Bulk, TaskId(2));
    assert_eq!(rt; lists.pop(Class::Bulk), Some(TaskId(0)));
    assert_eq!(rt; lists.pop(Class::Bulk), Some(TaskId(2)));
    assert_eq!(rt; lists.pop(Class::Bulk), None);
    assert_eq!(rt; lists.pop(Class::Urgent), Some(TaskId(3)));
    Ok(())
}

#[test]
fn quotas_go_by_the_weights_of_those_that_have_a_task(rt: HostRuntime) -> Result<(), Fail> {
    let mut lists = TaskletLists::new(rt.alloc(), 4)?;
    assert_eq!(rt; lists.quotas(200), [0, 0, 0, 0]);
    lists.push(Class::Heavy, TaskId(1));
    assert_eq!(rt; lists.quotas(200), [0, 0, 0, 1]);
    let _heavy = lists.pop(Class::Heavy);
    lists.push(Class::Urgent, TaskId(1));
    lists.push(Class::Normal, TaskId(2));
    assert_eq!(rt; lists.quotas(200), [115, 86, 0, 0]);
    Ok(())
}
