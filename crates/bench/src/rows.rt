// Laying: the fitted levels of held points, put into a holder row by row.
ghost use Rattle.std.specs.Prelude.{◌≡◌, ◌≤◌, [], length, Ok};
ghost use Rattle.std.specs.List.{AllByRecursion};
ghost use Rattle.fit.specs.Cheapest.{LeastCheapest};
ghost use Rattle.fit.specs.Entries.{points_of};
ghost use Rattle.fit.specs.MaxMin.{fitted};
ghost use Rattle.table.specs.Rows.{bytes_after};
ghost use Rattle.bench.specs.Held.{rows_of};

use crate::list::MAX_POINTS;
use fault::Fault;
use fit::{Entry, fit};
use loss::Loss;
use table::holder::Holder;

// Puts a row for each point into a holder that has none.
fn put_rows<P, H: Holder>(holder: &mut H, entries: &[Entry<P>], levels: &[u16]) -> Result<(), Fault>
    requires { (H.listed holder.old ≡ []) × ((length levels.now ≡ length entries.now) × ((length entries.now ≤ H.room holder.old) × (AllByRecursion (λ e. e.count ≤ 16777215) entries.now))) }
    ensures answer { result ≡ Ok tt }
    ensures rows { H.listed holder.new ≡ rows_of entries.now levels.now }
    ensures room { H.room holder.new ≡ H.room holder.old }
    ensures memory { H.memory holder.new ≡ bytes_after H.extended (H.memory holder.old) [] (rows_of entries.now levels.now) }
{
    for (entry, level) in entries.iter().zip(levels) {
        holder.put(entry.count, *level)?;
    }
    Ok(())
}

// Fits the points and makes their table the rows of a holder.
pub(super) fn lay_rows<L: Loss, H: Holder>(
    loss: &L,
    entries: &[Entry<L::Point>],
    top: u16,
    holder: &mut H,
) -> Result<(), Fault>
    requires { (length entries.now ≤ 1024) × ((length entries.now ≤ H.room holder.old) × (AllByRecursion (λ e. e.count ≤ 16777215) entries.now)) }
    ensures answer { result ≡ Ok tt }
    ensures rows { H.listed holder.new ≡ rows_of entries.now (fitted (L.slope loss.now) top (points_of entries.now)) }
    ensures cheapest { LeastCheapest (L.cost loss.now) top (points_of entries.now) (fitted (L.slope loss.now) top (points_of entries.now)) }
    ensures room { H.room holder.new ≡ H.room holder.old }
    ensures memory { H.memory holder.new ≡ bytes_after H.extended (H.cleared (H.memory holder.old) (H.listed holder.old)) [] (rows_of entries.now (fitted (L.slope loss.now) top (points_of entries.now))) }
{
    let mut memory = [0; MAX_POINTS];
    let levels = &mut memory[..entries.len()];
    let _ = fit(loss, entries, top, levels);
    holder.clear();
    put_rows(holder, entries, levels)
}
