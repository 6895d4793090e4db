//! The steps of a board: each function makes one atomic exchange, or splits or joins the knowledge of seats.
ghost use Rattle.std.specs.Prelude.{◌≡◌, ℕ, ◌+◌, ◌<◌, ◌≤◌, [], true, IfSome, IfNone};
ghost use Rattle.std.specs.Bool.{OnTrue, OnFalse};
ghost use Rattle.std.specs.List.{All};
ghost use Rattle.slh_board.specs.Views.{one_less, one_seat, both, with_number, with_done, with_stopped, with_raised};

use crate::view::{Draw, DrawnOnce, Look, OneSeat, Plan, Raise, Together, View};
use atomic_table::{Seat, Shared};

/// The word that holds the number of the next draw.
pub const NEXT: usize = 0;

/// The word that is 1 once the board is stopped.
pub const HALT: usize = 1;

/// Whether the board is stopped: one load of `halt`.
pub fn is_halted(table: &Shared<u8, View, Plan, DrawnOnce>, seat: &mut Seat<u8, View>) -> bool
    requires table { (table.now.table_id.words ≡ 2) × (seat.old.table_id ≡ table.now.table_id) }
    requires stands { 1 ≤ seat.old.me.0.seats }
    ensures same_table { seat.new.table_id ≡ seat.old.table_id }
    ensures halted { OnTrue result (seat.new.me ≡ (with_stopped seat.old.me.0, seat.old.me.1)) }
    ensures runs { OnFalse result (seat.new.me ≡ seat.old.me) }
    ensures raised { seat.old.me.0.raised ≡ true → result ≡ true }
{
    table.load::<Look>(seat, HALT) != 0
}

/// The next job, where one is left: one `fetch_add` of 1 on `next`.
pub fn draw(
    table: &Shared<u8, View, Plan, DrawnOnce>,
    seat: &mut Seat<u8, View>,
    jobs: u32,
) -> Option<u32>
    requires table { (table.now.table_id.words ≡ 2) × (seat.old.table_id ≡ table.now.table_id) }
    requires fresh { (seat.old.me.0.seats ≡ 1) × (seat.old.me.0.done ≡ 0) }
    requires jobs { seat.old.me.0.jobs ≡ jobs }
    ensures same_table { seat.new.table_id ≡ seat.old.table_id }
    ensures number { IfSome result (λ x. (x < jobs) × All (λ y. y < x) seat.old.me.0.drawn) }
    ensures drawn { IfSome result (λ x. seat.new.me ≡ (with_number seat.old.me.0 x, seat.old.me.1)) }
    ensures none_left { IfNone result (seat.new.me ≡ (with_done seat.old.me.0, seat.old.me.1)) }
{
    let next = table.fetch_add::<Draw>(seat, NEXT, 1);
    if next < u64::from(jobs) {
        Some(next as u32)
    } else {
        None
    }
}

/// Stops the board: one `fetch_or` of 1 on `halt`.
pub fn raise(table: &Shared<u8, View, Plan, DrawnOnce>, seat: &mut Seat<u8, View>)
    requires table { (table.now.table_id.words ≡ 2) × (seat.old.table_id ≡ table.now.table_id) }
    requires stands { 1 ≤ seat.old.me.0.seats }
    ensures same_table { seat.new.table_id ≡ seat.old.table_id }
    ensures raised { seat.new.me ≡ (with_raised seat.old.me.0, seat.old.me.1) }
{
    table.fetch_or::<Raise>(seat, HALT, 1);
}

/// One seat, split from a seat that represents two or more.
pub fn split(
    table: &Shared<u8, View, Plan, DrawnOnce>,
    first: &mut Seat<u8, View>,
) -> Seat<u8, View>
    requires table { (table.now.table_id.words ≡ 2) × (first.old.table_id ≡ table.now.table_id) }
    requires fresh { (2 ≤ first.old.me.0.seats) × (first.old.me.0.done ≡ 0) }
    ensures same_table { (first.new.table_id ≡ first.old.table_id) × (result.table_id ≡ first.old.table_id) }
    ensures one_less { first.new.me ≡ (one_less first.old.me.0, first.old.me.1) }
    ensures one { result.me ≡ (one_seat first.old.me.0, []) }
{
    table.split_seat::<OneSeat>(first)
}

/// The first seat takes over all that another knows.
pub fn join(
    table: &Shared<u8, View, Plan, DrawnOnce>,
    first: &mut Seat<u8, View>,
    other: Seat<u8, View>,
)
    requires table { (table.now.table_id.words ≡ 2) × (first.old.table_id ≡ table.now.table_id)
        × (other.table_id ≡ table.now.table_id) }
    requires stand { (1 ≤ first.old.me.0.seats) × (1 ≤ other.me.0.seats) }
    requires holds_none { other.me.1 ≡ [] }
    ensures same_table { first.new.table_id ≡ first.old.table_id }
    ensures joined { first.new.me ≡ (both first.old.me.0 other.me.0, first.old.me.1) }
{
    table.join_seat::<Together>(first, other);
}
