// Rows are told to listeners.
ghost use Rattle.std.specs.Prelude.{◌≡◌, ◌+◌, ◌≤◌, ◌<◌, ◌^◌, ◌∷◌, [], All, IfOk, OnOk, OnErr, Some, ℕ, map, take, slice_get, length, List as Items};
ghost use Rattle.fork_tree.specs.declared.rows.Row.{Row as OneRow};
ghost use Rattle.path_report.specs.Listeners.{Heard, AreSmall, HaveRoom, counted, is_enough, told, told_partly};

use crate::listener::{Listener, Wish};
use fork_tree::Row;
use std::alloc::AllocError;

/// Tells each row in order to each listener in order. One that answers `Enough` is taken out and dropped at once, and the others keep
/// their order. After a refusal the rows so far were told.
pub fn tell(listeners: &mut Vec<Box<dyn Listener>>, rows: &[Row]) -> Result<(), AllocError>
    requires room { All (λ b. HaveRoom (length rows.now) (counts b)) listeners.old.items }
    ensures told { OnOk result (map (λ b. record { counts = counts b; enough = enough b; ending = ending b }) listeners.new.items
        ≡ told rows.now (map (λ b. record { counts = counts b; enough = enough b; ending = ending b }) listeners.old.items)) }
    ensures refused { OnErr result ((k n : ℕ) × (r : OneRow) × (slice_get rows.now k ≡ Some r)
        × (map (λ b. record { counts = counts b; enough = enough b; ending = ending b }) listeners.new.items
        ≡ told_partly (take k rows.now) r n (map (λ b. record { counts = counts b; enough = enough b; ending = ending b }) listeners.old.items))) }
{
    for row in rows {
        tell_row(listeners, row)?;
    }
    Ok(())
}

// Tells a row to each listener.
fn tell_row(listeners: &mut Vec<Box<dyn Listener>>, row: &Row) -> Result<(), AllocError>
    requires room { All (λ b. AreSmall (counts b)) listeners.old.items }
    ensures told { OnOk result (map (λ b. record { counts = counts b; enough = enough b; ending = ending b }) listeners.new.items
        ≡ told (row.now ∷ []) (map (λ b. record { counts = counts b; enough = enough b; ending = ending b }) listeners.old.items)) }
    ensures refused { OnErr result ((n : ℕ) × (map (λ b. record { counts = counts b; enough = enough b; ending = ending b }) listeners.new.items
        ≡ told_partly [] row.now n (map (λ b. record { counts = counts b; enough = enough b; ending = ending b }) listeners.old.items))) }
{
    let mut i = 0;
    for _turn in 0..listeners.len() {
        match tell_one(&mut listeners[i], row)? {
            Wish::More => i += 1,
            Wish::Enough => drop(listeners.remove(i)),
        }
    }
    Ok(())
}

// Tells a row to a listener.
fn tell_one(listener: &mut Box<dyn Listener>, row: &Row) -> Result<Wish, AllocError>
    requires few { AreSmall (counts listener.old) }
    ensures counted { IfOk result (λ wish. counts listener.new ≡ counted (counts listener.old) row.now.kind) }
    ensures wish { IfOk result (λ wish. is_enough wish ≡ enough listener.old (counts listener.new)) }
    ensures same { (enough listener.new ≡ enough listener.old) × (ending listener.new ≡ ending listener.old) }
    ensures refused { OnErr result (counts listener.new ≡ counts listener.old) }
{
    listener.row(row)
}
