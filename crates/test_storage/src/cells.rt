//! Cells by their places.

use crate::values::check;
use metrics::Key;
use metrics_registry::Cells;

/// Returns the cells of three keys by their order.
fn cells_of(cells: &Cells<Key, i64>) -> [Option<i64>; 3] {
    let cell = |place: usize| cells.at(place).map(|(_, cell): (&Key, &i64)| *cell);
    [cell(0), cell(1), cell(2)]
}

/// The others stay as they were.
#[test]
fn a_cell_is_changed_at_its_place(rt: HostRuntime) {
    let mut cells = Cells::<Key, i64>::new(rt.alloc());
    for (name, value) in [("a", 7), ("b", 8), ("c", 9)] {
        let key = Key::from_name(rt.alloc(), name).expect(&rt, "out of memory");
        let added = cells.change_or_create(&key, value, |_: &mut i64| {});
        added.expect(&rt, "out of memory");
        drop(key);
    }
    let doubled = cells.change_at(1, |cell: &mut i64| {
        *cell = 16;
        true
    });
    check(
        &rt,
        (doubled, cells_of(&cells)) == (Some(true), [Some(7), Some(16), Some(9)]),
    );
    let changed = cells.change_at(3, |cell: &mut i64| *cell = 0);
    check(
        &rt,
        (changed, cells_of(&cells)) == (None, [Some(7), Some(16), Some(9)]),
    );
    drop(cells);
}
