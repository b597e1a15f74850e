// Rows, line by line of the table that `row_before` has. With `rest` the row after an event, a line's call gives the
// row before it, and `gap_row` closes that under the silent steps of the gap before the event.
//
// Its callers see to it that a machine's number is 1 to 6, a code is below 64, `rest` is closed, and an event is known:
// its operation is 1 LStore, 2 RStore, 3 MStore, 4 Load, 5 LFlush, 6 RFlush, 7 crash, 8 L-RMW, 9 R-RMW, 10 M-RMW or 11
// set crash, its set in place of the location. The reader has refused every other number, so that no event comes to the
// arms of these, and any value will do there: it is one that takes no test of its own.
#![tactic(auto)]

ghost use Rattle.std.specs.Prelude.{◌≡◌, true, cond, not, ◌↔◌, ◌≢◌, T, ℕ, ◌<◌};
ghost use Rattle.model.specs.Cxl0.{Load};
ghost use Rattle.model.specs.Sharers.{has, insert, remove, remove_all};
ghost use Rattle.model.specs.OneLocation;
ghost use Rattle.model.specs.OneLocation.{event_at, readable_at};
ghost use Rattle.model.specs.Meaning.{meant};
ghost use Rattle.masks.specs.Sets.{In, Exactly, OneToSix};
ghost use Rattle.entries.specs.Entries.{site_meant};
ghost use Rattle.rows.specs.Rows.{state, Fine, Empty, any_row, last_row, RowOf, Closed, Line, Gap};
ghost use Rattle.rows.specs.Sites.{Known, copy_after};
ghost use Rattle.rows.specs.Steps.{Stepped};

use entries::Site;
use masks::{
    all, all_but_empty, alone, contains, gaining, holds, lacking, leading, losing, losing_all,
    single,
};
use model::{Event, Machine};

// From which states the rest of a log can be finished, where copies have one given value: codes of `any` with every
// memory value, and codes of `one` with the memory value `value`.
#[derive(Clone, Copy)]
pub struct Row {
    pub any: u64,
    pub one: u64,
    pub value: u32,
}

impl Row {
    // The row with what f makes of each of its two sets.
    fn map<F: Fn(u64) -> u64>(self, f: F) -> Row
        requires { F.IsAlwaysCallable f }
        ensures any { F.post f self.any result.any }
        ensures one { F.post f self.one result.one }
        ensures value { result.value ≡ self.value }
    {
        Row {
            any: f(self.any),
            one: f(self.one),
            value: self.value,
        }
    }
}

// The set where the test holds, else no code.
fn only_if(yes: bool, m: u64) -> u64
    ensures { Exactly result (λ t. In t m × (yes ≡ true)) }
{
    if yes { m } else { 0 }
}

// Every code where the test holds, else none.
#[tactic(auto, using(masks::proofs::Constants::in_every))]
fn all_if(yes: bool) -> u64
    ensures { Exactly result (λ t. yes ≡ true) }
{
    only_if(yes, all())
}

// The codes that the row has with memory value m.
#[tactic(auto, using(crate::proofs::FineRows::codes_at))]
pub fn codes(row: Row, m: u32) -> u64
    ensures { Exactly result (λ c. Fine row c m) }
{
    if row.value == m {
        row.any | row.one
    } else {
        row.any
    }
}

// The row has code c with memory value m.
pub fn fine(row: Row, c: u8, m: u32) -> bool
    requires { c < 64 }
    ensures { (result ≡ true) ↔ Fine row c m }
{
    contains(codes(row, m), c)
}

// The row has no state.
pub fn is_empty(row: Row) -> bool
    ensures { (result ≡ true) ↔ Empty row }
{
    (row.any | row.one) == 0
}

// The codes of a set, with every memory value.
#[tactic(auto, unfolding(crate::specs::Rows::any_row))]
fn any_row(any: u64) -> Row
    ensures { result ≡ any_row any }
{
    Row {
        any,
        one: 0,
        value: 0,
    }
}

// After the last event every state is fine.
pub fn last_row() -> Row
    ensures { result ≡ last_row }
{
    any_row(all())
}

// LStore and RStore, which leave a copy at one machine, whose code is t.
fn store_row(rest: Row, t: u8) -> Row
    requires { t < 64 }
    ensures { RowOf (λ c m. Fine rest t m) result }
{
    rest.map(|m| all_if(contains(m, t)))
}

// MStore of v, which leaves no copy.
#[tactic(auto, using(crate::proofs::FineRows::fine_any), unfolding(crate::specs::Rows::any_row))]
fn m_store_row(rest: Row, v: u32) -> Row
    ensures { RowOf (λ c m. Fine rest 0 v) result }
{
    any_row(all_if(fine(rest, 0, v)))
}

// A load by i from copies of the value that it has read: i gets a copy too.
fn load_copies_row(rest: Row, i: Machine) -> Row
    requires { OneToSix i.0 }
    ensures { RowOf (λ c m. (c ≢ 0) × Fine rest (insert i.0 c) m) result }
{
    rest.map(|m| gaining(m, i) & all_but_empty())
}

// The states in which a load of v is possible, where copies have the value u: from memory if there is no copy, else
// from the copies.
fn readable_row(u: u32, v: u32) -> Row
    ensures { RowOf (λ c m. T (readable_at v (state c u m))) result }
{
    Row {
        any: only_if(u == v, all_but_empty()),
        one: single(0),
        value: v,
    }
}

// Of these, the states with memory value m.
fn readable_at(u: u32, v: u32, m: u32) -> Row
    ensures { RowOf (λ c n. T (readable_at v (state c u n)) × (n ≡ m)) result }
{
    Row {
        any: 0,
        one: only_if(u == v, all_but_empty()) | only_if(m == v, single(0)),
        value: m,
    }
}

// A load of v by i: from memory if there is no copy, and that leaves none; else from the copies, of value u.
// If code 0 is fine after it and u is v, every code but 0 is, since `rest` is closed.
fn load_row(rest: Row, i: Machine, u: u32, v: u32) -> Row
    requires one_to_six { OneToSix i.0 }
    requires closed { Closed u rest }
    ensures { (k : OneLocation.Site) (x : ℕ) → RowOf (λ c m. Line k (Load i.0 x v) u rest c m) result }
{
    if fine(rest, 0, v) {
        return readable_row(u, v);
    }
    if u == v {
        return load_copies_row(rest, i);
    }
    any_row(0)
}

// L-RMW and R-RMW that read v: the store, which leaves a copy at one machine, whose code is t, keeps the memory value.
fn rmw_row(rest: Row, t: u8, u: u32, v: u32) -> Row
    requires { t < 64 }
    ensures { RowOf (λ c m. T (readable_at v (state c u m)) × Fine rest t m) result }
{
    if contains(rest.any, t) {
        return readable_row(u, v);
    }
    if contains(rest.one, t) {
        return readable_at(u, v, rest.value);
    }
    any_row(0)
}

// M-RMW that reads v and writes w, which leaves no copy.
fn m_rmw_row(rest: Row, u: u32, v: u32, w: u32) -> Row
    ensures { RowOf (λ c m. T (readable_at v (state c u m)) × Fine rest 0 w) result }
{
    if fine(rest, 0, w) {
        return readable_row(u, v);
    }
    any_row(0)
}

// LFlush by i, which holds no copy.
fn l_flush_row(rest: Row, i: Machine) -> Row
    requires { OneToSix i.0 }
    ensures { RowOf (λ c m. T (not (has i.0 c)) × Fine rest c m) result }
{
    rest.map(|m| lacking(m, i))
}

// RFlush, when there is no copy.
fn r_flush_row(rest: Row) -> Row
    ensures { RowOf (λ c m. (c ≡ 0) × Fine rest c m) result }
{
    rest.map(|m| m & single(0))
}

// What a crash does to memory: it takes its initial value where it is cleared, and else keeps its own.
#[tactic(auto, using(crate::proofs::FineRows::fine_any), unfolding(crate::specs::Rows::any_row))]
fn cleared_row(rest: Row, cleared: bool, initial: u32) -> Row
    ensures { RowOf (λ c m. Fine rest c (cond cleared initial m)) result }
{
    if cleared {
        any_row(codes(rest, initial))
    } else {
        rest
    }
}

// A crash of i, which loses its copy, and the memory too where it is cleared.
fn crash_row(rest: Row, i: Machine, cleared: bool, initial: u32) -> Row
    requires { OneToSix i.0 }
    ensures { RowOf (λ c m. Fine rest (remove i.0 c) (cond cleared initial m)) result }
{
    cleared_row(rest, cleared, initial).map(|m| losing(m, i))
}

// A crash of the machines of a set, which lose their copies, and the memory too where it is cleared.
fn set_crash_row(rest: Row, set: u8, cleared: bool, initial: u32) -> Row
    ensures { RowOf (λ c m. Fine rest (remove_all set c) (cond cleared initial m)) result }
{
    cleared_row(rest, cleared, initial).map(|m| losing_all(m, set))
}

// The row closed under the silent steps of a gap in which copies have the value u: moves to the owner, and a
// write-back if there is a copy.
pub fn gap_row(owner: Machine, u: u32, inner: Row) -> Row
    requires { OneToSix owner.0 }
    ensures { Gap owner.0 u inner result × Closed u result }
{
    let by_moves = leading(inner.any, owner);
    let by_write_back = only_if(fine(inner, 0, u), all_but_empty());
    Row {
        any: by_moves | by_write_back,
        one: leading(inner.one, owner),
        value: inner.value,
    }
}

// The event is one of the site's location, or a crash. Of a crash it is right whatever byte stands for the location, so
// that this is asked first, as it is true of most events.
pub fn concerned(site: Site, e: Event) -> bool
    requires { Known e }
    ensures { result ≡ event_at site.location.0 (meant e) }
{
    site.location == e.location || matches!(e.operation, 7 | 11)
}

// The row before an event, without the silent steps before it, when copies have the value u before it.
pub fn row_before(site: Site, e: Event, u: u32, rest: Row) -> Row
    requires one_to_six { OneToSix site.owner.0 }
    requires known { Known e }
    requires closed { Closed (copy_after site.location.0 u (meant e)) rest }
    ensures { RowOf (λ c m. Line (site_meant site) (meant e) u rest c m) result }
{
    let i = e.machine;
    match e.operation {
        1 => store_row(rest, alone(i)),
        2 => store_row(rest, alone(site.owner)),
        3 => m_store_row(rest, e.value),
        4 => load_row(rest, i, u, e.value),
        5 => l_flush_row(rest, i),
        6 => r_flush_row(rest),
        7 => crash_row(rest, i, (site.owner == i) & site.volatile, site.initial),
        8 => rmw_row(rest, alone(i), u, e.value),
        9 => rmw_row(rest, alone(site.owner), u, e.value),
        10 => m_rmw_row(rest, u, e.value, e.written),
        11 => {
            let set = e.location.0;
            let cleared = holds(set, site.owner) & site.volatile;
            set_crash_row(rest, set, cleared, site.initial)
        }
        0 => rest,
        12..=255 => rest,
    }
}

// The row before an event, with the silent steps before it, when `rest` is the row after it and copies have
// the value u before it.
pub fn row_step(site: Site, e: Event, u: u32, rest: Row) -> Row
    requires one_to_six { OneToSix site.owner.0 }
    requires known { Known e }
    requires closed { Closed (copy_after site.location.0 u (meant e)) rest }
    ensures { Stepped site (meant e) u rest result }
{
    if concerned(site, e) {
        let inner = row_before(site, e, u, rest);
        return gap_row(site.owner, u, inner);
    }
    rest
}
