//! The lists that are about to be published are named by the next edition.
ghost use Rattle.std.specs.Prelude.{◌≡◌, ◌+◌, ◌-◌, ◌^◌, IfSome, MatchOption};
ghost use Rattle.published_lists.specs.Rows.{EachBegins};
ghost use Rattle.published_lists.specs.Operations.{staged};

use crate::edition::{Add, Edition, Head, Nothing};
use crate::lists::{Lists, OnlyGrows, Operation};
use left_right::writer::Writer;
use logbook::{Offer, Plain};
use std::sync::Wait;

/// The writer of published lists.
pub type ListWriter = Writer<Lists, Operation, Option<Edition>, OnlyGrows>;

// What a step adds: the lists with all that was handed in.
impl Plain<ListWriter, [[[u8; 0]; 0]; 0], u64> for Add {
    ghost use Rattle.std.specs.Prelude.{None};
    ghost use Rattle.published_lists.specs.Operations.{staged};

    ghost ask = { λ w. (staged w.desk.shown.value w.behind w.log.items).lists };

    ghost state = { λ w. None };
}

// The edition with these lists behind it. It is `None` where another has named lists since.
fn next(edition: &Edition, head: &Head, writer: &ListWriter) -> Option<Edition>
    requires head { head.now ≡ edition.now.history }
    requires begins { EachBegins edition.now.lists (staged writer.now.desk.shown.value
        writer.now.behind writer.now.log.items).lists }
    ensures lists { IfSome result (λ next. next.lists ≡ (staged writer.now.desk.shown.value
        writer.now.behind writer.now.log.items).lists) }
    ensures history { IfSome result (λ next. next.history ≡ edition.now.history) }
    ensures entries { IfSome result (λ next. next.entries ≡ edition.now.entries + 1) }
{
    let count = edition.count;
    if count == u64::MAX {
        return None;
    }
    let mut seen = edition.seen.again();
    let mut offer: Offer<[[[u8; 0]; 0]; 0], u64, crate::edition::Law, Nothing> = seen.plain::<
        Nothing,
        ListWriter,
        Add,
    >(writer);
    let mut pen = seen.no_pen();
    let found = head
        .word
        .compare_exchange::<Add, Nothing>(count, count + 1, &mut seen, &mut offer, &mut pen);
    if found != count {
        return None;
    }
    Some(Edition {
        count: count + 1,
        seen,
    })
}

/// The edition of the lists with all that was handed in. `None` is for 2^64 editions, and for
/// nothing else. Where another has named lists it waits for ever: there is one writer.
pub fn named<R: Wait>(
    rt: &R,
    head: &Head,
    edition: &Edition,
    writer: &ListWriter,
) -> Option<Edition>
    requires head { head.now ≡ edition.now.history }
    requires begins { EachBegins edition.now.lists (staged writer.now.desk.shown.value
        writer.now.behind writer.now.log.items).lists }
    ensures lists { IfSome result (λ next. next.lists ≡ (staged writer.now.desk.shown.value
        writer.now.behind writer.now.log.items).lists) }
    ensures history { IfSome result (λ next. next.history ≡ edition.now.history) }
    ensures entries { MatchOption result (edition.now.entries ≡ 2 ^ 64 - 1)
        (λ next. next.entries ≡ edition.now.entries + 1) }
{
    if edition.is_full() {
        return None;
    }
    for _ in rt.forever() {
        let next = next(edition, head, writer);
        if next.is_some() {
            return next;
        }
    }
    unreachable!()
}
