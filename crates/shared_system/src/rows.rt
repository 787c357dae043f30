//! Queues of notices, and a row of a pass of each for every caller.

ghost use Rattle.std.specs.Prelude.{◌≡◌, ◌<◌, ◌+◌, ◌∷◌, ◌++◌, [], All, IfOk, vec_len};
ghost use Rattle.work_queue.specs.QueuePasses as queue;
ghost use Rattle.shared_system.specs.Capacities.{HasRoom};
ghost use Rattle.shared_system.specs.Callers.{ArePlaces};

use std::alloc::{AllocError as NoMemory, Global};
use work_queue::{Engine, MessageQueue, Notice, NoticeQueue, QueuePass};

/// A pass of each queue of notices, in their order.
pub(crate) type Row = Vec<QueuePass<Notice>>;

// So many rows without a pass.
fn empty_rows(alloc: Global, engine: &Engine, count: usize) -> Result<Vec<Row>, NoMemory>
    ensures rows { IfOk result (λ r. All (λ row. ArePlaces engine.now [] row.items) r.items) }
    ensures count { IfOk result (λ r. vec_len r ≡ count) }
{
    let mut rows = Vec::with_capacity(alloc, count)?;
    for _ in 0..count {
        rows.push_reserved(Vec::new(alloc));
    }
    Ok(rows)
}

// The row with one pass more, of this queue behind those that it has.
#[tactic(auto, using(crate::proofs::Systems::places_more))]
fn longer_row(
    _engine: &Engine,
    _made: &Vec<NoticeQueue>,
    _more: &NoticeQueue,
    mut row: Row,
    place: QueuePass<Notice>,
) -> Result<Row, NoMemory>
    requires row { ArePlaces _engine.now _made.now.items row.items }
    requires place { queue.IsPlaceOf _engine.now _more.now place }
    ensures { IfOk result (λ r. ArePlaces _engine.now (_made.now.items ++ _more.now ∷ []) r.items) }
{
    row.push(place)?;
    Ok(row)
}

// The last row with the last pass, of this queue behind those that it has; both are taken away.
fn next_row(
    engine: &Engine,
    made: &Vec<NoticeQueue>,
    more: &NoticeQueue,
    places: &mut Row,
    rows: &mut Vec<Row>,
) -> Result<Row, NoMemory>
    requires places { All (queue.IsPlaceOf engine.now more.now) places.old.items }
    requires rows { All (λ row. ArePlaces engine.now made.now.items row.items) rows.old.items }
    requires some { (0 < vec_len rows.old) × (vec_len places.old ≡ vec_len rows.old) }
    ensures places { All (queue.IsPlaceOf engine.now more.now) places.new.items }
    ensures rows { All (λ row. ArePlaces engine.now made.now.items row.items) rows.new.items }
    ensures count { (vec_len rows.new + 1 ≡ vec_len rows.old) × (vec_len places.new ≡ vec_len rows.new) }
    ensures row { IfOk result (λ r. ArePlaces engine.now (made.now.items ++ more.now ∷ []) r.items) }
{
    let row = rows.pop().unwrap();
    let place = places.pop().unwrap();
    longer_row(engine, made, more, row, place)
}

// Each row with one pass more, of this queue behind those that it has.
fn longer_rows(
    alloc: Global,
    engine: &Engine,
    made: &Vec<NoticeQueue>,
    more: &NoticeQueue,
    mut places: Row,
    mut rows: Vec<Row>,
) -> Result<Vec<Row>, NoMemory>
    requires places { All (queue.IsPlaceOf engine.now more.now) places.items }
    requires rows { All (λ row. ArePlaces engine.now made.now.items row.items) rows.items }
    requires count { vec_len places ≡ vec_len rows }
    ensures rows { IfOk result
        (λ r. All (λ row. ArePlaces engine.now (made.now.items ++ more.now ∷ []) row.items) r.items) }
    ensures count { IfOk result (λ r. vec_len r ≡ vec_len rows) }
{
    let count = rows.len();
    let mut longer = Vec::with_capacity(alloc, count)?;
    for _ in 0..count {
        longer.push_reserved(next_row(engine, made, more, &mut places, &mut rows)?);
    }
    Ok(longer)
}

// So many queues of notices, each of so many places, and so many rows of a pass of each.
pub(crate) fn notice_queues(
    alloc: Global,
    engine: &Engine,
    queues: u16,
    capacity: u16,
    count: usize,
) -> Result<(Vec<NoticeQueue>, Vec<Row>), NoMemory>
    requires some { (0 < capacity) × (0 < count) }
    ensures queues { IfOk result (λ n. vec_len n.0 ≡ queues) }
    ensures capacity { IfOk result (λ n. All (HasRoom capacity) n.0.items) }
    ensures rows { IfOk result (λ n. All (λ row. ArePlaces engine.now n.0.items row.items) n.1.items) }
    ensures count { IfOk result (λ n. vec_len n.1 ≡ count) }
{
    let mut made = Vec::with_capacity(alloc, usize::from(queues))?;
    let mut rows = empty_rows(alloc, engine, count)?;
    for _ in 0..queues {
        let (queue, places) = MessageQueue::<Notice>::new(
            alloc,
            engine,
            usize::from(capacity),
            count,
        )?;
        rows = longer_rows(alloc, engine, &made, &queue, places, rows)?;
        made.push_reserved(queue);
    }
    Ok((made, rows))
}
