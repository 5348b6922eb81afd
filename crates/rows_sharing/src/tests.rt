use crate::{Adder, add_by_two, call_by_many, work_at_desks};
use reql_shared::Shared;
use std::test::Fail;

#[test]
fn a_pass_is_at_place_1_after_its_first_command(rt: HostRuntime) -> Result<(), Fail> {
    let (shared, mut passes) = Shared::new(rt.alloc(), Adder { sum: 0, count: 0 }, 1)?;
    let mut pass = passes.pop().expect(&rt, "one pass");
    let number = pass.number();
    let sum = shared.look(&rt, &mut pass, &())?;
    let before = pass.place();
    let reply = shared.run(&rt, &mut pass, 7)?;
    let told = (number, sum, before, reply, pass.place(), pass.visits());
    assert_eq!(rt; told, (0, 0, 0, Some(7), 1, 2));
    Ok(())
}

#[test]
fn two_threads_add_all_their_numbers(rt: HostRuntime) -> Result<(), Fail> {
    let (last, first, second) = add_by_two(&rt, rt.alloc(), (1, 1_000_000), 1000)?;
    let sums = (last.engine().sum, last.engine().count);
    let places = (
        first.place(),
        first.visits(),
        second.place(),
        second.visits(),
    );
    assert_eq!(rt;
        (sums, places),
        ((1_000_001_000, 2000), (2000, 1000, 2000, 1000))
    );
    Ok(())
}

#[test]
fn each_look_is_a_beginning_of_the_list_at_the_end(rt: HostRuntime) -> Result<(), Fail> {
    let (last, workers) = call_by_many(&rt, rt.alloc(), 8, 100)?;
    let calls = last.engine().calls.as_slice();
    let mut own = [0u32; 16];
    for by in calls {
        if let Some(count) = own.get_mut(*by as usize) {
            *count = count.wrapping_add(1);
        }
    }
    assert_eq!(rt; (calls.len(), workers.len(), own), (1600, 8, [100; 16]));
    for worker in &workers {
        let places = (
            worker.first.place(),
            worker.first.visits(),
            worker.second.place(),
        );
        assert_eq!(rt; (places, worker.looks.len()), ((1600, 125, 1600), 25));
        for look in &worker.looks {
            assert!(rt; calls.starts_with(look.as_slice()));
        }
    }
    Ok(())
}

#[test]
fn each_slot_holds_what_each_desk_gave_it_once_and_in_order(rt: HostRuntime) -> Result<(), Fail> {
    let last = work_at_desks(&rt, rt.alloc(), 2, 300)?;
    for slot in 0..3 {
        let entries = last.engine(slot).entries.as_slice();
        let mut next = [u64::from(slot); 2];
        for (by, number) in entries {
            if let Some(due) = next.get_mut(*by as usize) {
                assert_eq!(rt; *number, *due);
                *due = due.wrapping_add(3);
            }
        }
        let due = 300 + u64::from(slot);
        assert_eq!(rt; (entries.len(), next), (200, [due; 2]));
    }
    for desk in last.desks() {
        assert_eq!(rt;
            (desk.place(0), desk.visits(2), desk.names_place()),
            (200, 100, 2)
        );
    }
    Ok(())
}
