ghost use Rattle.std.specs.Prelude.{◌≡◌, ◌≤◌, []};
ghost use Rattle.cp_bulletin.specs.Models.{IsReaderOf};

use cp_bulletin::{Board, EpochRefusal, EpochText, OutOfMemory, Reader};
use std::alloc::Global;
use std::sync::{Arc, Wait};
use std::test::Fail;

fn needs_send<X: Send>(moved: X) -> X {
    moved
}

// A board and its readers may go to other threads.
fn send(board: Board, reader: Reader) -> (Board, Reader) {
    (needs_send(board), needs_send(reader))
}

fn make_text(alloc: Global, byte: u8) -> Result<Arc<EpochText>, OutOfMemory> {
    let mut closing = Vec::new(alloc);
    closing.push(byte)?;
    let text = EpochText {
        closing,
        table: Vec::new(alloc),
        log: Vec::new(alloc),
        families: Vec::new(alloc),
    };
    Ok(Arc::new(alloc, text)?)
}

// The first byte of the closing of an epoch.
fn first_byte(reader: &mut Reader, epoch: u64) -> Result<u8, EpochRefusal>
    requires { 1 ≤ epoch }
{
    let text = reader.epoch(epoch)?;
    Ok(text.closing.first().copied().unwrap_or(0))
}

// A reader that has met nothing is any board's.
fn belongs(board: &Board, reader: &Reader)
    requires { reader.now.met ≡ [] }
    ensures { IsReaderOf board.now reader.now }
{}

// One reader publishes, another reads, a third catches up and publishes in turn. It answers epoch 1 of the second before and after the first text, its epoch 2, epoch 1 of the third, and epoch 2 of the second at the end.
fn publish_two<R: Wait>(
    rt: &R,
    board: &mut Board,
    texts: (Arc<EpochText>, Arc<EpochText>),
    first: &mut Reader,
    second: &mut Reader,
    third: &mut Reader,
) -> Result<[Result<u8, EpochRefusal>; 5], OutOfMemory>
    requires board { board.old.refused ≡ [] }
    requires readers { (first.old.met ≡ []) × (second.old.met ≡ []) × (third.old.met ≡ []) }
{
    belongs(board, first);
    belongs(board, third);
    let before = first_byte(second, 1);
    board.publish(rt, first, texts.0)?;
    let read = first_byte(second, 1);
    let next = first_byte(second, 2);
    board.catch_up(rt, third)?;
    board.publish(rt, third, texts.1)?;
    board.meet(rt, first);
    Ok([
        before,
        read,
        next,
        first_byte(third, 1),
        first_byte(second, 2),
    ])
}

#[test]
fn readers_see_what_was_published(rt: HostRuntime) -> Result<(), Fail> {
    let texts = (make_text(rt.alloc(), 7)?, make_text(rt.alloc(), 8)?);
    let (mut board, mut readers) = Board::new(&rt, rt.alloc(), 3)?;
    let mut first = readers.pop().unwrap();
    let mut second = readers.pop().unwrap();
    let mut third = readers.pop().unwrap();
    let done = publish_two(&rt, &mut board, texts, &mut first, &mut second, &mut third);
    board.close(&rt);
    let answers = [
        Err(EpochRefusal::NotClosed { count: 0 }),
        Ok(7),
        Err(EpochRefusal::NotClosed { count: 1 }),
        Ok(7),
        Ok(8),
    ];
    assert_eq!(rt; done?, answers);
    Ok(())
}
