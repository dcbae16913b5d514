// The lines of events.
ghost use Rattle.std.specs.Prelude.{◌≡◌, map};
ghost use Rattle.std.specs.Option.{option_map};
ghost use Rattle.mq_audit.specs.Answers.{Reads};
ghost use Rattle.mq_audit.specs.Events.{a_queue, a_block, a_number, a_queue_and_a_number, lists_of, tx_in, draw_in, no_words, queue_event, counted_event, event_of, event_in};

use crate::lists::{after_word, cut_words, read_blocks, read_sets};
use crate::refusal::Misread;
use crate::verb::{Verb, read_verb};
use crate::words::{block_of, one_word, queue_of, two_words};
use mq_block_text::{cut_at, number_of};
use mq_blocks::{BlockNo, Geometry, QueueNo, TxNo};
use mq_core::{Event, Tx};
use std::alloc::Global;

/// The words of the four lists of a draw.
#[derive(Clone, Copy)]
struct Lists<'a, 'b> {
    logged: &'a [&'b [u8]],
    direct: &'a [&'b [u8]],
    revoked: &'a [&'b [u8]],
    freed: &'a [&'b [u8]],
}

fn read_queue(geometry: Geometry, words: &[&[u8]]) -> Result<QueueNo, Misread>
    ensures { Reads (a_queue geometry (map (λ w. w.now) words.now)) result }
{
    let Some(word) = one_word(words) else {
        return Err(Misread::Form);
    };
    queue_of(geometry, word).ok_or(Misread::Form)
}

fn read_block(geometry: Geometry, words: &[&[u8]]) -> Result<BlockNo, Misread>
    ensures { Reads (a_block geometry (map (λ w. w.now) words.now)) result }
{
    let Some(word) = one_word(words) else {
        return Err(Misread::Form);
    };
    block_of(geometry, word).ok_or(Misread::Form)
}

fn read_one_number(words: &[&[u8]]) -> Result<u64, Misread>
    ensures { Reads (a_number (map (λ w. w.now) words.now)) result }
{
    let Some(word) = one_word(words) else {
        return Err(Misread::Form);
    };
    number_of(word).ok_or(Misread::Form)
}

fn read_queue_and_number(geometry: Geometry, words: &[&[u8]]) -> Result<(QueueNo, u64), Misread>
    ensures { Reads (a_queue_and_a_number geometry (map (λ w. w.now) words.now)) result }
{
    let Some((queue, number)) = two_words(words) else {
        return Err(Misread::Form);
    };
    let Some(queue) = queue_of(geometry, queue) else {
        return Err(Misread::Form);
    };
    match number_of(number) {
        Some(number) => Ok((queue, number)),
        None => Err(Misread::Form),
    }
}

fn cut_lists<'a, 'b>(words: &'a [&'b [u8]]) -> Option<Lists<'a, 'b>>
    ensures { option_map (λ l. (map (λ w. w.now) l.logged.now, map (λ w. w.now) l.direct.now, map (λ w. w.now) l.revoked.now, map (λ w. w.now) l.freed.now)) result
        ≡ lists_of (map (λ w. w.now) words.now) }
{
    let rest = after_word(words, b"logged")?;
    let (logged, rest) = cut_words(rest, b"direct")?;
    let (direct, rest) = cut_words(rest, b"revoked")?;
    let (revoked, freed) = cut_words(rest, b"freed")?;
    Some(Lists {
        logged,
        direct,
        revoked,
        freed,
    })
}

/// The transaction of a number on a queue.
fn read_tx(
    alloc: Global,
    geometry: Geometry,
    number: TxNo,
    queue: QueueNo,
    words: &[&[u8]],
) -> Result<Tx, Misread>
    ensures { Reads (tx_in geometry number queue (map (λ w. w.now) words.now)) result }
{
    let Some(lists) = cut_lists(words) else {
        return Err(Misread::Form);
    };
    let logged = read_sets(alloc, geometry, lists.logged)?;
    let direct = read_sets(alloc, geometry, lists.direct)?;
    let revoked = read_blocks(alloc, geometry, lists.revoked)?;
    let freed = read_blocks(alloc, geometry, lists.freed)?;
    Ok(Tx {
        number,
        queue,
        logged,
        direct,
        revoked,
        freed,
    })
}

fn read_draw(
    alloc: Global,
    geometry: Geometry,
    number: TxNo,
    words: &[&[u8]],
) -> Result<Tx, Misread>
    ensures { Reads (draw_in geometry number (map (λ w. w.now) words.now)) result }
{
    let Some((queue, lists)) = words.split_first() else {
        return Err(Misread::Form);
    };
    let Some(queue) = queue_of(geometry, queue) else {
        return Err(Misread::Form);
    };
    read_tx(alloc, geometry, number, queue, lists)
}

fn read_nothing(words: &[&[u8]]) -> Result<Event, Misread>
    ensures { Reads (no_words (map (λ w. w.now) words.now)) result }
{
    if words.is_empty() {
        Ok(Event::FlushBase)
    } else {
        Err(Misread::Form)
    }
}

/// The event of a verb that a queue follows.
fn read_queue_event(geometry: Geometry, verb: Verb, words: &[&[u8]]) -> Result<Event, Misread>
    ensures { Reads (option_map (λ q. queue_event verb q) (a_queue geometry (map (λ w. w.now) words.now))) result }
{
    let queue = read_queue(geometry, words)?;
    Ok(match verb {
        Verb::Stage => Event::Stage { queue },
        Verb::Flush => Event::Flush { queue },
        Verb::Ring => Event::Ring { queue },
        _ => Event::FlushHead { queue },
    })
}

/// The event of a verb that a queue and a number follow.
fn read_counted_event(geometry: Geometry, verb: Verb, words: &[&[u8]]) -> Result<Event, Misread>
    ensures { Reads (option_map (λ x. counted_event verb x.0 x.1)
        (a_queue_and_a_number geometry (map (λ w. w.now) words.now))) result }
{
    let (queue, number) = read_queue_and_number(geometry, words)?;
    Ok(match verb {
        Verb::Complete => Event::Complete {
            queue,
            count: number,
        },
        Verb::Failed => Event::FailCommand {
            queue,
            count: number,
        },
        Verb::StoreHead => Event::StoreHead {
            queue,
            head: number,
        },
        _ => Event::Clear { queue, low: number },
    })
}

/// The event of a verb. A draw has this number.
fn read_arguments(
    alloc: Global,
    geometry: Geometry,
    number: TxNo,
    verb: Verb,
    words: &[&[u8]],
) -> Result<Event, Misread>
    ensures { Reads (event_of geometry number verb (map (λ w. w.now) words.now)) result }
{
    match verb {
        Verb::Draw => Ok(Event::Draw(read_draw(alloc, geometry, number, words)?)),
        Verb::Stage | Verb::Flush | Verb::Ring | Verb::FlushHead => {
            read_queue_event(geometry, verb, words)
        }
        Verb::Complete | Verb::Failed | Verb::StoreHead | Verb::Clear => {
            read_counted_event(geometry, verb, words)
        }
        Verb::Ack => Ok(Event::Acknowledge {
            number: TxNo(read_one_number(words)?),
        }),
        Verb::Home => Ok(Event::WriteHome {
            block: read_block(geometry, words)?,
        }),
        Verb::HomeDone => Ok(Event::HomeDone {
            block: read_block(geometry, words)?,
        }),
        Verb::StoreBase => Ok(Event::StoreBase {
            base: TxNo(read_one_number(words)?),
        }),
        Verb::FlushBase => read_nothing(words),
    }
}

/// The event of a line. A draw has this number.
pub fn read_event(
    alloc: Global,
    geometry: Geometry,
    number: TxNo,
    line: &[u8],
) -> Result<Event, Misread>
    ensures { Reads (event_in geometry number line.now) result }
{
    let words = cut_at(alloc, line, b' ')?;
    let Some((word, words)) = words.split_first() else {
        return Err(Misread::Form);
    };
    match read_verb(word) {
        Some(verb) => read_arguments(alloc, geometry, number, verb, words),
        None => Err(Misread::Form),
    }
}
