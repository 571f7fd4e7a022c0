// Examples of grids and excerpts.
use crate::{Excerpt, Grid, Record};

#[test]
fn excerpts_nest(rt: HostRuntime) {
    let readings = [0.0f32, 1.0, 2.0, 3.0, 4.0, 5.0, 6.0, 7.0];
    let grid = Grid::new(2, 4, &readings);
    let outer = Excerpt::new(&grid, 1, 4_294_967_295);
    let inner = Excerpt::new(&outer, 1, 1);
    assert_eq!(rt; outer.polls(), 3);
    assert_eq!(rt; inner.polls(), 1);
    assert_eq!(rt; inner.reading(1, 0), Some(5.0));
    assert_eq!(rt; inner.reading(1, 1), None);
}
