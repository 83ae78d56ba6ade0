// The conversion of a count by the rows of a holder.
ghost use Rattle.std.specs.Prelude.{◌≡◌, ◌<◌, ◌≤◌};
ghost use Rattle.table.specs.Convert.{first_at_least, straight_line, conversion, Rising, Orderly};

use crate::holder::{Holder, Row, rows};
use fault::{Fault, Question};

// How many rows stand before the first that reaches the count. No Option: where none does, all rows do.
fn find<H: Holder>(holder: &H, count: u32) -> usize
    ensures { result ≡ first_at_least (H.listed holder.now) count }
{
    rows(holder)
        .position(|(c, _)| count <= c)
        .unwrap_or(holder.len())
}

// The level on the straight line between two rows, at a count between theirs.
fn between(before: Row, after: Row, count: u32) -> u16
    requires { (before.0 < count) × ((count < after.0) × (before.1 ≤ after.1)) }
    ensures { result ≡ straight_line before.0 before.1 after.0 after.1 count }
{
    let (k0, l0) = before;
    let (k1, l1) = after;
    let rise = (l1 - l0) as u64;
    let part = rise * (count - k0) as u64 / (k1 - k0) as u64;
    l0 + part as u16
}

// The level that a count converts to, for every holder, whatever rows were put into it.
//
// The row found is the first that reaches the count. A row of that very count gives its level, and
// else the level lies on the straight line from the row before.
pub fn convert<H: Holder>(holder: &H, count: u32) -> Result<u16, Fault>
    ensures answer { result ≡ conversion (H.listed holder.now) count }
    ensures orderly { Rising (H.listed holder.now) → Orderly (H.listed holder.now) }
{
    let Some((first, _)) = holder.row(0) else {
        return Err(Fault::plain(Question::ConvertEmpty));
    };
    if count < first {
        return Err(Fault::plain(Question::ConvertBelow));
    }
    let found = find(holder, count);
    let Some((k1, l1)) = holder.row(found) else {
        return Err(Fault::plain(Question::ConvertAbove));
    };
    if k1 == count {
        return Ok(l1);
    }
    let (k0, l0) = holder.row(found - 1).unwrap();
    if l1 < l0 {
        return Err(Fault::plain(Question::ConvertFalls));
    }
    Ok(between((k0, l0), (k1, l1), count))
}
