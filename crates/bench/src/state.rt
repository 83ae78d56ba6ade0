// A bench: the points held so far and the highest level that it may give.
use crate::list::PointList;

mod calls;

// Points by rising count in lent memory. Only the calls of the bench change them.
#[derive(Drop)]
pub struct Bench<'a, P> {
    list: PointList<'a, P>,
    top: u16,
}
