// The script's fields as calls: how much is read of a field, and which call it asks for.
#![tactic(auto)]

ghost use Rattle.std.specs.Prelude.{◌≡◌, ◌≤◌};
ghost use Rattle.meaning.specs.Limits.{route_size};
ghost use Rattle.meaning.specs.Fields.{fields};
ghost use Rattle.meaning.specs.Day.{wanted};
ghost use Rattle.fields.specs.Places.{field_at, Whole};
ghost use Rattle.day_orders.specs.Orders.{entry_by, entry_of};

use fields::{FIELD_HEADER, Header, Item};

const CLOSE: u8 = 32;

const WITHDRAW: u8 = 33;

const ROUTE: u8 = 34;

const POST: u8 = 35;

const CLOSE_SIZE: usize = 7;

const WITHDRAW_SIZE: usize = 1;

const ROUTE_SIZE: usize = 9;

const POST_SIZE: usize = 0;

// A header and the longest value of a call.
pub const PIECE: usize = FIELD_HEADER + ROUTE_SIZE;

// A call of the script; the light of a post is the last granted one.
#[derive(Clone, Copy)]
pub enum Order {
    Close(u8, u16, u16, u16),
    Withdraw(u8),
    Route(u8, u16, u16, u16, u16),
    Post,
}

// What the script has next: a call, something that is none, or nothing more.
#[derive(Clone, Copy)]
pub enum Entry {
    Call(Order),
    Bad,
    End,
}

// How many bytes to read after a header. One that is cut has none.
pub fn wanted(header: &[u8]) -> usize
    ensures value { result ≡ wanted header.now }
    ensures upper_bound { result ≤ route_size }
{
    if header.len() < FIELD_HEADER {
        return 0;
    }
    let n = fields::number_at(header, 1);
    if ROUTE_SIZE < n {
        return 0;
    }
    n
}

// The call of a whole field at the front of the bytes.
fn field_entry(bytes: &[u8], h: Header) -> Entry
    requires { Whole bytes.now 0 h }
    ensures { result ≡ entry_by (field_at bytes.now 0) }
{
    let at = h.start;
    match (h.tag, h.len) {
        (CLOSE, CLOSE_SIZE) => {
            let holder = bytes[at];
            let cell = fields::u16_at(bytes, at + 1);
            let first = fields::u16_at(bytes, at + 3);
            let last = fields::u16_at(bytes, at + 5);
            Entry::Call(Order::Close(holder, cell, first, last))
        }
        (WITHDRAW, WITHDRAW_SIZE) => Entry::Call(Order::Withdraw(bytes[at])),
        (ROUTE, ROUTE_SIZE) => {
            let tug = bytes[at];
            let start = fields::u16_at(bytes, at + 1);
            let tick = fields::u16_at(bytes, at + 3);
            let goal = fields::u16_at(bytes, at + 5);
            let dwell = fields::u16_at(bytes, at + 7);
            Entry::Call(Order::Route(tug, start, tick, goal, dwell))
        }
        (POST, POST_SIZE) => Entry::Call(Order::Post),
        _ => Entry::Bad,
    }
}

// The call of the first field of the bytes.
pub fn read_entry(bytes: &[u8]) -> Entry
    ensures { result ≡ entry_of (fields bytes.now) }
{
    match fields::read_item(bytes, 0) {
        Item::Field(h) => field_entry(bytes, h),
        Item::Cut => Entry::Bad,
        Item::End => Entry::End,
    }
}
