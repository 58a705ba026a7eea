//! Construction of columns.
ghost use Rattle.std.specs.Prelude.{◌≡◌, ◌↔◌, Bool, IfOk};
ghost use Rattle.bn_column.specs.Nets.{IsNoCount, IsStanding};

use crate::refusal::ColumnRefusal;
use crate::standing::Column;
use crate::wires::column_wires;
use bn_circuits::rotary_net;
use std::alloc::Global;

/// The column of this many rows, which begins marked or not. Returns `Rows` exactly if the number of rows is 0 or
/// above 65,535.
pub fn column(alloc: Global, rows: u32, marked: bool) -> Result<Column, ColumnRefusal>
    ensures made { IfOk result (λ c. IsStanding c rows marked) }
    ensures rows { (result ≡ Err ColumnRefusal.Rows) ↔ IsNoCount rows }
{
    if rows == 0 || rows > 65_535 {
        return Err(ColumnRefusal::Rows);
    }
    let wires = column_wires(alloc, 0, rows)?;
    let net = rotary_net(alloc, rows + 1, wires.as_slice())?;
    Ok(Column::of(net, rows, marked))
}
