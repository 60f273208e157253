// A list of records of a step and a board kept in few bytes, as orders, and written out as a sheet's records.
#![tactic(auto)]

ghost use Rattle.std.specs.Prelude.{◌≡◌, ◌≤◌, length};
ghost use Rattle.text.specs.Text.{HasRoom, Puts};
ghost use Rattle.records.specs.Bytes.{sheet_bytes};
ghost use Rattle.orders.specs.Orders.{all_of};

use records::Record;
use text::Page;

// A record of a step and a board, and how often it stands in a row. Both are numbers, board 0 for none, as `of` has
// them and as they are written.
#[derive(Clone, Copy)]
pub struct Order {
    pub step: u8,
    pub board: u8,
    pub times: u16,
}

impl Order {
    ghost use Rattle.std.specs.Prelude.{replicate};
    ghost use Rattle.model.specs.Records.{of};
    ghost use Rattle.records.specs.Record.{record_of};

    // Its record.
    pub fn record(self) -> Record
        ensures { record_of result ≡ of self.step self.board }
    {
        Record::of(self.step, self.board)
    }

    // Writes its records.
    fn put(self, page: &mut Page<'_>)
        requires { HasRoom page.old (sheet_bytes (replicate self.times (of self.step self.board))) }
        ensures { Puts page.old (sheet_bytes (replicate self.times (of self.step self.board))) page.new }
    {
        let r = self.record();
        for _ in 0..self.times {
            r.put(&mut *page);
        }
    }
}

// How many records the orders are. Inner layer: callers see to it that there are 64 at most, so that the sum fits.
pub fn total(orders: &[Order]) -> usize
    requires { length orders.now ≤ 64 }
    ensures { result ≡ length (all_of orders.now) }
{
    let mut n = 0;
    for order in orders {
        n += order.times as usize;
    }
    n
}

// Writes the records of the orders. Inner layer: callers see to the room.
pub fn put_orders(orders: &[Order], page: &mut Page<'_>)
    requires { HasRoom page.old (sheet_bytes (all_of orders.now)) }
    ensures { Puts page.old (sheet_bytes (all_of orders.now)) page.new }
{
    for order in orders {
        order.put(&mut *page);
    }
}

// The orders of a list: the first `count` in a slice that the caller lends, which has as many places as the caller has
// room for; no heap is used.
#[derive(Drop)]
pub struct Orders<'a> {
    pub list: &'a mut [Order],
    pub count: usize,
    pub ghost few: { count ≤ length list.now },
}

impl<'a> Orders<'a> {
    ghost use Rattle.std.specs.Prelude.{◌<◌, suc, ◌++◌, [], replicate};
    ghost use Rattle.model.specs.Records.{of};
    ghost use Rattle.orders.specs.Noted.{noted, SameList};

    // No order yet.
    pub fn new(list: &'a mut [Order]) -> Orders<'a>
        ensures none { noted result ≡ [] }
        ensures count { result.count ≡ 0 }
        ensures same { result.list.ghost_name ≡ list.entry.ghost_name }
        ensures list { result.list.now ≡ list.old }
    {
        Orders { list, count: 0 }
    }

    // One order more. Inner layer: callers see to the room.
    pub fn push(&mut self, order: Order)
        requires { self.old.count < length self.old.list.now }
        ensures more { noted self.new ≡ noted self.old ++ replicate order.times (of order.step order.board) }
        ensures count { self.new.count ≡ suc self.old.count }
        ensures same { SameList self.old self.new }
    {
        self.list[self.count] = order;
        self.count += 1;
    }

    // Those that are kept.
    pub fn kept(&self) -> &[Order]
        ensures records { all_of result.now ≡ noted self.now }
        ensures count { length result.now ≡ self.now.count }
    {
        &self.list[..self.count]
    }
}
