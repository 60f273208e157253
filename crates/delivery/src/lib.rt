// A list that leads a row to normal, given out in a lent slice.
#![tactic(auto)]

ghost use Rattle.std.specs.Prelude.{◌≤◌, length};
ghost use Rattle.orders.specs.Orders.{all_of};
ghost use Rattle.delivery.specs.Delivery.{delivered, Gives};
ghost use Rattle.delivery.specs.Planned.{planned};

use orders::{Order, put_orders, total};
use refusal::{Refusal, ensure};
use text::Page;

// Gives out the list that was noted as orders, and how many records it has; refusal 20 where it is not sound, or too
// long. Inner layer: callers see to the number of orders, and to the room: a clause, since C lends a slice of any
// length, and refusal 3 comes before the list.
pub fn deliver(sound: bool, orders: &[Order], out: &mut [u8]) -> Result<usize, Refusal>
    requires few { length orders.now ≤ 64 }
    requires room { 16512 ≤ length out.old }
    ensures { Gives (delivered sound (all_of orders.now)) out.old (planned result) out.new }
{
    ensure(sound, Refusal::NoPlan)?;
    let n = total(orders);
    ensure(n <= 2064, Refusal::NoPlan)?;
    put_orders(orders, &mut Page::new(&mut *out));
    Ok(n)
}
